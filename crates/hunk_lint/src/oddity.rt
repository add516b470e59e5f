//! What may be odd about a longword of a file, and what of it is odd by itself.

ghost use Rattle.std.specs.Prelude.{◌≡◌};
ghost use Rattle.hunk_words.specs.Kinds.{low};
ghost use Rattle.hunk_lint.specs.Oddity as odd;
ghost use Rattle.hunk_files.specs.Path.{is_type};

use hunk_words::{BlockType, Due, FileKind};

/// The lowest number with one of the two upper bits, 30 and 31, which are not part of a type or a size.
const UPPER_BITS: u32 = 0x4000_0000;

/// The lowest number with one of the bits of the upper half.
const UPPER_HALF: u32 = 0x1_0000;

/// What is odd about a longword: what the spelling of a file has that its value does not keep.
///
/// Blocks are those of The AmigaDOS Manual, 3rd edition, "Amiga binary file structure", and of
/// `doshunks.h`.
#[derive(Clone, Copy, Debug, PartialEq, Eq)]
pub enum Oddity {
    /// The upper two bits of the type of a block, where they are not memory, are not 0.
    TypeBits,
    /// A hunk of a load file has a name.
    HunkName,
    /// The upper two bits of the size of content are not 0.
    SizeBits,
    /// The size of a BSS block of a load file is not the one in the header, which counts.
    BssSize,
    /// A relocation block has no offsets: its first count is 0.
    NoOffsets,
    /// A second group of relocations of a block is for this hunk.
    SameHunk(u32),
    /// An external symbol is referred to without offsets.
    NoReferences,
    /// In a name, this is the first longword with which a byte other than 0 stands after a zero byte.
    NameBytes,
}

/// What is odd about a longword at its place.
#[derive(Clone, Copy, Debug, PartialEq, Eq)]
pub struct LongwordLint {
    /// The place, in longwords from 0; less than 2^28.
    pub place: u32,
    /// What is odd.
    pub oddity: Oddity,
}

/// Whether the type of a block is due.
pub(crate) fn is_type(due: Due) -> bool
    ensures { result ≡ is_type due }
{
    match due {
        Due::ObjectStart
        | Due::LoadStart
        | Due::UnitType
        | Due::HunkType
        | Due::ContentType
        | Due::BlockType => true,
        _ => false,
    }
}

/// Whether one of the two upper bits is set.
fn has_upper_bits(word: u32) -> bool
    ensures { result ≡ odd.has_upper_bits word }
{
    word >= UPPER_BITS
}

/// The low 30 bits of a size.
pub(crate) fn low(word: u32) -> u32
    ensures { result ≡ low word }
{
    word % UPPER_BITS
}

/// Whether the upper bits of the type of this block are its memory.
fn has_memory(kind: FileKind, block: BlockType) -> bool
    ensures { result ≡ odd.has_memory kind block }
{
    matches!((kind, block), (FileKind::Object, BlockType::Content(_)))
}

/// Whether the upper bits of the type of a block are ignored, and not 0.
pub(crate) fn ignores_type_bits(kind: FileKind, due: Due, word: u32) -> bool
    ensures { result ≡ odd.ignores_type_bits kind (due, word) }
{
    is_type(due) && has_upper_bits(word) && !has_memory(kind, BlockType::of_longword(word))
}

/// Whether the name of a hunk of a load file begins.
pub(crate) fn names_load_hunk(due: Due, word: u32) -> bool
    ensures { result ≡ odd.names_load_hunk (due, word) }
{
    due == Due::HunkType && matches!(BlockType::of_longword(word), BlockType::Name)
}

/// Whether the upper bits of the size of content are not 0.
pub(crate) fn ignores_size_bits(due: Due, word: u32) -> bool
    ensures { result ≡ odd.ignores_size_bits (due, word) }
{
    due == Due::ContentSize && has_upper_bits(word)
}

/// Whether no references follow.
pub(crate) fn has_no_references(due: Due, word: u32) -> bool
    ensures { result ≡ odd.has_no_references (due, word) }
{
    due == Due::RefCount && word == 0
}

/// Whether this is a count of relocations, and 0.
pub(crate) fn counts_none(due: Due, word: u32) -> bool
    ensures { result ≡ odd.counts_none (due, word) }
{
    match due {
        Due::RelocCount => word == 0,
        Due::ShortCount => word < UPPER_HALF,
        _ => false,
    }
}

/// The hunk that a group of relocations names here. One of 16 bits is the lower half after a count, or the
/// upper half.
pub(crate) fn hunk_named(due: Due, word: u32) -> Option<u32>
    ensures { result ≡ odd.hunk_named due word }
{
    match due {
        Due::HunkNumber => Some(word),
        Due::ShortCount if word >= UPPER_HALF => Some(word % UPPER_HALF),
        Due::ShortHunk => Some(word / UPPER_HALF),
        _ => None,
    }
}
