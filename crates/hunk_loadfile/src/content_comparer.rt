//! Where a content that comes in runs first differs from another one.

ghost use Rattle.std.specs.Prelude.{◌≡◌, ℕ, List, [], ◌+◌, ◌^◌, ◌<◌, ◌++◌, length, take, drop, max, MatchResult};
ghost use Rattle.hunk_loadfile.specs.ContentComparer.{Follows, unlike_in};
ghost use Rattle.hunk_loadfile.specs.Difference.{unlike_byte};

use crate::difference::{byte_at, first_byte, first_nonzero};
use std::alloc::AllocError;

/// Where a content that comes in runs first differs from the content of a first hunk, with zeros after it.
/// Neither content is kept.
#[derive(Clone, Copy)]
pub(crate) struct ContentComparer {
    // how many bytes have come
    count: usize,
    // the lowest offset of one that differs, and that byte
    unlike: Option<(u32, u8)>,
}

impl ContentComparer {
    /// No byte has come.
    pub(crate) fn new() -> Self
        ensures { (first : List ℕ) → Follows result first [] }
    {
        ContentComparer {
            count: 0,
            unlike: None,
        }
    }

    /// How many bytes have come.
    pub(crate) fn count(self) -> usize
        ensures { (first content : List ℕ) → Follows self first content → result ≡ length content }
    {
        self.count
    }

    /// Takes the next bytes of the content.
    ///
    /// # Errors
    ///
    /// [`AllocError`] if the content has 2^32 bytes or more, which the content of a file never has. An error
    /// changes nothing.
    pub(crate) fn take(&mut self, first: &[u8], bytes: &[u8]) -> Result<(), AllocError>
        ensures { (content : List ℕ) → Follows self.old first.now content →
            MatchResult result (λ done. Follows self.new first.now (content ++ bytes.now))
            (λ e. Follows self.new first.now content) }
    {
        let count = self.count.saturating_add(bytes.len());
        if count > u32::MAX as usize {
            return Err(AllocError);
        }
        if self.unlike.is_none() {
            self.unlike = unlike_behind(first, self.count, bytes);
        }
        self.count = count;
        Ok(())
    }

    /// Where the whole content and that of the first hunk first differ, with zeros after the shorter one,
    /// and the byte of the content there.
    pub(crate) fn end(self, first: &[u8]) -> Option<(u32, u8)>
        requires { length first.now < 2 ^ 32 }
        ensures { (content : List ℕ) → Follows self first.now content →
            result ≡ unlike_byte first.now content (max (length first.now) (length content)) }
    {
        if self.unlike.is_some() || first.len() <= self.count {
            return self.unlike;
        }
        match first_nonzero(first, self.count) {
            Some(offset) => Some((offset as u32, 0)),
            None => None,
        }
    }
}

/// Where a content first differs from the first one in these bytes, which come after `start` bytes.
fn unlike_behind(first: &[u8], start: usize, bytes: &[u8]) -> Option<(u32, u8)>
    requires { start + length bytes.now < 2 ^ 32 }
    ensures { result ≡ unlike_in first.now start bytes.now }
{
    match first_byte(window(first, start, bytes.len()), bytes) {
        Some(offset) => Some(((start + offset) as u32, byte_at(bytes, offset))),
        None => None,
    }
}

/// The bytes of the content from `start` on, at most `count` of them.
fn window(content: &[u8], start: usize, count: usize) -> &[u8]
    ensures { result.now ≡ take count (drop start content.now) }
{
    let rest = &content[start.min(content.len())..];
    &rest[..count.min(rest.len())]
}
