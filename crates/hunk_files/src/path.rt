//! Where in a file its longwords end: in which unit, hunk and block.

ghost use Rattle.std.specs.Prelude.{◌≡◌, ◌+◌, ◌<◌, ◌^◌, ℕ, List, [], ◌∷◌, length, if◌then◌else◌};
ghost use Rattle.hunk_words.specs.Kinds.{low, type_of};
ghost use Rattle.hunk_words.specs.declared.kinds.BlockType.{BlockType};
ghost use Rattle.hunk_files.specs.Path.{IsPathOf, is_type};

use hunk_words::{BlockType, Due};

/// The blocks of a file, as far as it has been read.
#[derive(Clone, Copy, Debug)]
pub(crate) struct Path {
    /// The number of units that have begun.
    pub(crate) units: u64,
    /// The number of hunks that have ended since the last of them began, or since the file did.
    pub(crate) hunks: u64,
    /// The last block that has begun.
    pub(crate) block: Option<BlockType>,
}

/// Whether the type of a block is due.
pub(crate) fn is_type(due: Due) -> bool
    ensures { result ≡ is_type due }
{
    match due {
        Due::ObjectStart
        | Due::LoadStart
        | Due::UnitType
        | Due::HunkType
        | Due::ContentType
        | Due::BlockType => true,
        _ => false,
    }
}

impl Path {
    /// Before the first block.
    pub(crate) fn new() -> Path
        ensures { IsPathOf result [] }
    {
        Path {
            units: 0,
            hunks: 0,
            block: None,
        }
    }

    /// After one more longword, where this was due.
    pub(crate) fn after(self, due: Due, word: u32) -> Path
        ensures { (types : List BlockType) → length types < 2 ^ 29 → IsPathOf self types →
            IsPathOf result (if is_type due then type_of (low word) ∷ types else types) }
    {
        if is_type(due) {
            self.with_block(BlockType::of_longword(word))
        } else {
            self
        }
    }

    /// After one more block.
    fn with_block(self, block: BlockType) -> Path
        ensures { (types : List BlockType) → length types < 2 ^ 29 → IsPathOf self types →
            IsPathOf result (block ∷ types) }
    {
        let Path { units, hunks, .. } = self;
        let (units, hunks) = match block {
            BlockType::Unit => (units.saturating_add(1), 0),
            BlockType::End => (units, hunks.saturating_add(1)),
            _ => (units, hunks),
        };
        Path {
            units,
            hunks,
            block: Some(block),
        }
    }
}
