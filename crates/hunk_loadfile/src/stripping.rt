//! Leaving out what only debuggers read: the symbols and the debug blocks.

ghost use Rattle.std.specs.Prelude.{◌≡◌};
ghost use Rattle.hunk_loadfile.specs.Stripping.{stripped, stripped_hunk};

use crate::load_hunk::LoadHunk;
use std::alloc::Allocator;

/// Leaves out the symbols and the debug blocks of each hunk. Does not allocate.
pub(crate) fn strip<A: Allocator + Copy>(hunks: &mut [LoadHunk<A>])
    ensures { hunks.new ≡ stripped hunks.old }
{
    for hunk in hunks.iter_mut() {
        strip_hunk(hunk);
    }
}

/// The same for one hunk.
pub(crate) fn strip_hunk<A: Allocator + Copy>(hunk: &mut LoadHunk<A>)
    ensures { hunk.new ≡ stripped_hunk hunk.old }
{
    hunk.symbols.clear();
    hunk.debugs.clear();
}
