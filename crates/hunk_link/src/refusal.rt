//! Why program units do not link.
ghost use Rattle.std.specs.Prelude.{◌≡◌};
ghost use Rattle.hunk_link.specs.declared.refusal.LinkRefusal.{LinkRefusal};

use hunk_words::Name;
use std::alloc::{AllocError, Allocator, Global};

/// Why program units do not link: the first reason, in this order. `unit` is the index of a unit in
/// the list, from 0, and `hunk` the number of a hunk in its unit, from 0. The limits are our own.
#[derive(Debug, Drop, PartialEq, Eq)]
pub enum LinkRefusal<A: Allocator + Copy = Global> {
    /// The units have no hunks.
    NoHunks,
    /// The units have more than 65,535 hunks.
    TooManyHunks,
    /// The sizes of the hunks add up to more than 2^24 longwords; or the symbols and debug blocks that
    /// are kept take more than 2^27 longwords in the load file.
    TooLarge,
    /// A site adds the base of a hunk that its unit does not have. It is the first such hunk, and its
    /// site of the lowest offset.
    NoSuchHunk {
        unit: usize,
        hunk: u32,
        target: u32,
    },
    /// A hunk defines a name that was defined before. It is the first such definition.
    DuplicateName {
        unit: usize,
        hunk: u32,
        name: Name<A>,
    },
    /// A hunk refers to a name that no hunk defines. It is the first such reference.
    UndefinedName {
        unit: usize,
        hunk: u32,
        name: Name<A>,
    },
    /// An allocation failed, once the hunks were known to be neither too many nor too large.
    OutOfMemory,
}

impl<A: Allocator + Copy> From<AllocError> for LinkRefusal<A> {
    ghost from_gives = { λ _ refusal. refusal ≡ LinkRefusal.OutOfMemory };

    fn from(_: AllocError) -> LinkRefusal<A> {
        LinkRefusal::OutOfMemory
    }
}
