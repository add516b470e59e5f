//! The hunks that the header of a load file tells of.

ghost use Rattle.std.specs.Prelude.{◌≡◌, ◌≤◌, ℕ, ◌*◌, length, drop, map, IfOk};
ghost use Rattle.hunk_base.specs.Longwords.{longwords};
ghost use Rattle.hunk_loader.specs.HeaderHunks.{header_hunk, told_sizes};

use crate::sizes::Sizes;
use byteorder::{BigEndian, ByteOrder};
use hunk_base::LONGWORD;
use hunk_words::Memory;
use std::alloc::{AllocError, Allocator};

/// The longwords of a header before the sizes of its hunks.
pub(crate) const FRONT: usize = 5;

/// What the two memory bits of a longword count, the size being below them.
const MEMORY: u32 = 0x4000_0000;

/// What the header of a load file tells of a hunk.
#[derive(Clone, Copy, Debug, PartialEq, Eq)]
pub struct HeaderHunk {
    /// Its size in longwords, in memory.
    pub size: u32,
    /// Which memory it asks for.
    pub memory: Memory,
}

impl HeaderHunk {
    /// The hunk of this longword of a header.
    fn of_longword(word: u32) -> Self
        ensures { result ≡ header_hunk word }
    {
        HeaderHunk {
            size: word % MEMORY,
            memory: Memory::of_bits((word / MEMORY) as u8),
        }
    }
}

impl Sizes for &[HeaderHunk] {
    ghost sizes = { λ hunks. told_sizes hunks.now };

    fn count(&self) -> usize {
        self.len()
    }

    fn size(&self, hunk: usize) -> u32 {
        self[hunk].size
    }
}

/// The hunks of the whole header that these bytes are.
pub(crate) fn header_hunks<A: Allocator + Copy>(
    alloc: A,
    bytes: &[u8],
) -> Result<Vec<HeaderHunk, A>, AllocError>
    requires { 4 * 5 ≤ length bytes.now }
    ensures { IfOk result (λ hunks. hunks.items ≡ map header_hunk (drop 5 (longwords bytes.now))) }
{
    let count = bytes.len() / LONGWORD;
    let mut hunks = Vec::with_capacity(alloc, count - FRONT)?;
    for index in FRONT..count {
        let at = LONGWORD * index;
        let word = BigEndian::read_u32(&bytes[at..at + LONGWORD]);
        hunks.push_reserved(HeaderHunk::of_longword(word));
    }
    Ok(hunks)
}
