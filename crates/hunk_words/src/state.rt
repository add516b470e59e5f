//! What is expected next in a file, with the counts that are still open.

ghost use Rattle.std.specs.Prelude.{◌≡◌};

use crate::event::{Event, FileKind};
use crate::kinds::{Half, HunkKind};

/// What is expected after a run of words.
#[derive(Clone, Copy)]
pub enum AfterWords {
    /// The type longword after a unit's name.
    UnitType,
    /// The type longword after a hunk's name.
    ContentType,
    /// The type longword after content or a debug block.
    BlockType,
    /// The value after the name of a symbol.
    SymbolValue,
    /// The value after the name of a definition.
    EntryValue,
    /// The count after the name of a reference.
    RefCount,
}

/// What is expected next, and how many follow it.
#[derive(Clone, Copy)]
pub enum Expected {
    /// The first longword of an object file.
    ObjectStart,
    /// The first longword of a load file.
    LoadStart,
    /// The resident names of a header.
    Resident,
    /// The table size of a header.
    TableSize,
    /// The first hunk of a header.
    FirstHunk,
    /// The last hunk of a header.
    LastHunk,
    /// A size of a header, with the longwords left of 2^24, and the number of sizes that follow it.
    HeaderSize { room: u32, left: u32 },
    /// A type longword in a unit, between hunks.
    UnitType,
    /// A type longword in a load file, between hunks.
    HunkType,
    /// A type longword after a hunk's name.
    ContentType,
    /// A type longword after content or a block.
    BlockType,
    /// Nothing: the load file is complete.
    PastEnd,
    /// The length of a unit's name.
    UnitLength,
    /// The length of a hunk's name.
    NameLength,
    /// A word, with the number of words that follow it.
    Word { more: u32, then: AfterWords },
    /// The size of a content block, with the memory bits of its type longword.
    ContentSize { content: HunkKind, bits: u8 },
    /// A count of 32-bit relocations.
    RelocCount,
    /// A target, with the number of offsets that follow the first.
    HunkNumber { more: u32 },
    /// An offset, with the number of offsets that follow it.
    Offset { more: u32, target: u32 },
    /// The length of a debug block.
    DebugLength,
    /// The first longword of a symbol.
    SymbolEntry,
    /// The value of a symbol.
    SymbolValue,
    /// The first longword of an external symbol.
    ExtEntry,
    /// The value of a definition.
    EntryValue,
    /// The count of a reference.
    RefCount,
    /// An offset of a reference, with the number of offsets that follow it.
    RefOffset { more: u32 },
    /// A count of 16-bit relocations.
    ShortCount { half: Half },
    /// A target in 16 bits, with the number of offsets that follow the first.
    ShortHunk { half: Half, more: u32 },
    /// An offset in 16 bits, with the number of offsets that follow it.
    ShortOffset { half: Half, more: u32, target: u32 },
    /// The pad after an odd number of 16-bit words.
    ShortPad,
}

/// The position in a file.
#[derive(Clone, Copy)]
pub struct State {
    /// What is expected.
    pub due: Expected,
    /// The kind of file.
    pub file: FileKind,
    /// The number of the last hunk, in a load file after its table size.
    pub last: u32,
    /// The number of this hunk, in a load file.
    pub hunk: u32,
    /// The number of bytes in which this hunk's sites must lie.
    pub limit: u64,
}

/// What a number turns a state into, and its event.
#[derive(Clone, Copy)]
pub struct Step {
    /// The state after the number.
    pub state: State,
    /// The event of the number, if it has one.
    pub event: Option<Event>,
}

impl State {
    /// The step to what is expected now, in the same part of the file, with the event of the
    /// number.
    pub fn then(self, due: Expected, event: Option<Event>) -> Step
        ensures { result ≡ record { state = record self { due = due }; event = event } }
    {
        Step {
            state: State { due, ..self },
            event,
        }
    }
}
