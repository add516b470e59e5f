//! Cutting the zeros at the end of contents: memory has them without the file, since a hunk is zeros
//! after its content, up to its size.

ghost use Rattle.std.specs.Prelude.{◌≡◌, ◌==◌, ◌%◌, not, length};
ghost use Rattle.std.specs.List.{All};
ghost use Rattle.hunk_loadfile.specs.Patching.{byte_or_zero};
ghost use Rattle.hunk_loadfile.specs.Trimming.{kept_end, kept_length, trimmed, trimmed_hunk};

use crate::load_hunk::LoadHunk;
use hunk_words::Sites;
use std::alloc::Allocator;

/// Cuts the content of each hunk after the last longword that has a nonzero byte or a byte of a site.
/// Contents are whole longwords. Does not allocate.
pub(crate) fn trim<A: Allocator + Copy>(hunks: &mut [LoadHunk<A>])
    requires { All (λ hunk. length hunk.content % 4 ≡ 0) hunks.old }
    ensures { hunks.new ≡ trimmed hunks.old }
{
    for hunk in hunks.iter_mut() {
        trim_hunk(hunk);
    }
}

/// The same for one hunk.
fn trim_hunk<A: Allocator + Copy>(hunk: &mut LoadHunk<A>)
    requires { length hunk.old.content % 4 ≡ 0 }
    ensures { hunk.new ≡ trimmed_hunk hunk.old }
{
    let kept = kept_length(&hunk.content, &hunk.sites);
    hunk.content.truncate(kept);
}

/// The number of bytes up to the end of the last longword that has a nonzero byte or a byte of a
/// site.
fn kept_length<A: Allocator + Copy>(content: &[u8], sites: &Sites<u32, A>) -> usize
    requires { length content.now % 4 ≡ 0 }
    ensures { result ≡ kept_length content.now sites.now.entries }
{
    let mut end = nonzero_end(content);
    for (offset, _) in sites.walk() {
        let offset = offset as usize;
        if offset < content.len() {
            end = end.max(content.len().min(offset + 4));
        }
    }
    4 * end.div_ceil(4)
}

/// The place, in bytes, after the last byte that is not zero.
pub(crate) fn nonzero_end(content: &[u8]) -> usize
    ensures { result ≡ kept_end (λ i. not (byte_or_zero content.now i == 0)) (length content.now) }
{
    let mut end = content.len();
    while end > 0 && content[end - 1] == 0 {
        end -= 1;
    }
    end
}
