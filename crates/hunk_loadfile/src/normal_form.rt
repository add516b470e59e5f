//! The normal form of a load file: the least that a file can have for the same memory.

ghost use Rattle.std.specs.Prelude.{◌≡◌, ◌%◌, length};
ghost use Rattle.std.specs.List.{All};
ghost use Rattle.hunk_loadfile.specs.NormalForm.{nonzero_length, normal_form, normal_hunk};

use crate::load_hunk::LoadHunk;
use crate::stripping::strip_hunk;
use crate::trimming::nonzero_end;
use std::alloc::Allocator;

/// Leaves out the symbols and the debug blocks of each hunk, and cuts its content after the last
/// longword that is not 0. Contents are whole longwords. Does not allocate.
pub(crate) fn normalize<A: Allocator + Copy>(hunks: &mut [LoadHunk<A>])
    requires { All (λ hunk. length hunk.content % 4 ≡ 0) hunks.old }
    ensures { hunks.new ≡ normal_form hunks.old }
{
    for hunk in hunks.iter_mut() {
        normalize_hunk(hunk);
    }
}

/// The same for one hunk.
fn normalize_hunk<A: Allocator + Copy>(hunk: &mut LoadHunk<A>)
    requires { length hunk.old.content % 4 ≡ 0 }
    ensures { hunk.new ≡ normal_hunk hunk.old }
{
    let kept = nonzero_length(&hunk.content);
    hunk.content.truncate(kept);
    strip_hunk(hunk);
}

/// The number of bytes up to the end of the last longword that is not 0.
fn nonzero_length(content: &[u8]) -> usize
    requires { length content.now % 4 ≡ 0 }
    ensures { result ≡ nonzero_length content.now }
{
    4 * nonzero_end(content).div_ceil(4)
}
