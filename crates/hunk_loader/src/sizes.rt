//! The sizes of hunks: as numbers, or from the hunks of a load file.

ghost use Rattle.std.specs.Prelude.{◌≡◌, ℕ, ◌<◌, List, length, slice_index};
ghost use Rattle.hunk_loader.specs.Sizes.{sizes_of};

use hunk_loadfile::LoadHunk;
use std::alloc::Allocator;

/// A list of the sizes of hunks, in longwords.
pub trait Sizes {
    ghost sizes: { Self → List ℕ };

    /// The number of sizes.
    fn count(&self) -> usize
        ensures { result ≡ length (sizes self.now) };

    /// The size of the hunk with this number, from 0, in longwords.
    fn size(&self, hunk: usize) -> u32
        requires { hunk < length (sizes self.now) }
        ensures { result ≡ slice_index (sizes self.now) hunk };
}

impl Sizes for &[u32] {
    ghost sizes = { λ list. list.now };

    fn count(&self) -> usize {
        self.len()
    }

    fn size(&self, hunk: usize) -> u32 {
        self[hunk]
    }
}

impl<A: Allocator + Copy> Sizes for &[LoadHunk<A>] {
    ghost sizes = { λ hunks. sizes_of hunks.now };

    fn count(&self) -> usize {
        self.len()
    }

    fn size(&self, hunk: usize) -> u32 {
        let hunk = &self[hunk];
        hunk.size
    }
}
