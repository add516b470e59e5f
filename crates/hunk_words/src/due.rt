//! What is due at a place of a file, as it is told to a person.

ghost use Rattle.std.specs.Prelude.{◌≡◌};
ghost use Rattle.hunk_words.specs.Due.{told};
ghost use Rattle.hunk_words.specs.Machine.{due};
ghost use Rattle.hunk_words.specs.State.{Around, expected_view};

use crate::state::Expected;

/// What is due at a place of a file: what every file that begins with the longwords before has there.
///
/// Blocks are those of The AmigaDOS Manual, 3rd edition, "Amiga binary file structure", and of
/// `doshunks.h`.
#[derive(Clone, Copy, Debug, PartialEq, Eq)]
pub enum Due {
    /// The first longword of an object file.
    ObjectStart,
    /// The first longword of a load file.
    LoadStart,
    /// The end of the resident names of a header.
    Resident,
    /// The number of hunks in a header.
    TableSize,
    /// The number of a header's first hunk.
    FirstHunk,
    /// The number of a header's last hunk.
    LastHunk,
    /// The size of a hunk in a header.
    HeaderSize,
    /// The type of a block between the hunks of an object file.
    UnitType,
    /// The type of a block between the hunks of a load file.
    HunkType,
    /// The type of a content block, after a hunk's name.
    ContentType,
    /// The type of a block, after content or another block.
    BlockType,
    /// Nothing: the load file is complete.
    PastEnd,
    /// The length of a unit's name.
    UnitLength,
    /// The length of a hunk's name.
    NameLength,
    /// A longword of a name, of content or of a debug block.
    Word,
    /// The size of a content block.
    ContentSize,
    /// A count of 32-bit relocations.
    RelocCount,
    /// The hunk that relocations refer to.
    HunkNumber,
    /// The offset of a relocation.
    Offset,
    /// The length of a debug block.
    DebugLength,
    /// A symbol, or the end of symbols.
    SymbolEntry,
    /// An external symbol, or the end of external symbols.
    ExtEntry,
    /// The value of a symbol, or of a definition.
    Value,
    /// A count of references.
    RefCount,
    /// The offset of a reference.
    RefOffset,
    /// A count of 16-bit relocations.
    ShortCount,
    /// The hunk that 16-bit relocations refer to.
    ShortHunk,
    /// The offset of a 16-bit relocation.
    ShortOffset,
    /// The pad after an odd number of 16-bit words.
    ShortPad,
}

/// What is due where this is expected.
pub fn due_of(expected: Expected) -> Due
    ensures { (a : Around) → result ≡ told (due (expected_view expected a)) }
{
    match expected {
        Expected::ObjectStart => Due::ObjectStart,
        Expected::LoadStart => Due::LoadStart,
        Expected::Resident => Due::Resident,
        Expected::TableSize => Due::TableSize,
        Expected::FirstHunk => Due::FirstHunk,
        Expected::LastHunk => Due::LastHunk,
        Expected::HeaderSize { .. } => Due::HeaderSize,
        Expected::UnitType => Due::UnitType,
        Expected::HunkType => Due::HunkType,
        Expected::ContentType => Due::ContentType,
        Expected::BlockType => Due::BlockType,
        Expected::PastEnd => Due::PastEnd,
        Expected::UnitLength => Due::UnitLength,
        Expected::NameLength => Due::NameLength,
        Expected::Word { .. } => Due::Word,
        Expected::ContentSize { .. } => Due::ContentSize,
        Expected::RelocCount => Due::RelocCount,
        Expected::HunkNumber { .. } => Due::HunkNumber,
        Expected::Offset { .. } => Due::Offset,
        Expected::DebugLength => Due::DebugLength,
        Expected::SymbolEntry => Due::SymbolEntry,
        Expected::ExtEntry => Due::ExtEntry,
        Expected::SymbolValue | Expected::EntryValue => Due::Value,
        Expected::RefCount => Due::RefCount,
        Expected::RefOffset { .. } => Due::RefOffset,
        Expected::ShortCount { .. } => Due::ShortCount,
        Expected::ShortHunk { .. } => Due::ShortHunk,
        Expected::ShortOffset { .. } => Due::ShortOffset,
        Expected::ShortPad => Due::ShortPad,
    }
}
