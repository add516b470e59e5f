//! How two load files compare.

ghost use Rattle.std.specs.Prelude.{◌≡◌, ◌++◌, ◌∷◌, [], ◌*◌, ℕ, List, length, slice_get, Some};
ghost use Rattle.hunk_loadfile.specs.Comparison.{HasFound, symbol_there};
ghost use Rattle.hunk_loadfile.specs.Difference.{IsUnlike, LiesInItsSize, with_bytes};
ghost use Rattle.hunk_loadfile.specs.LoadHunk.{FileHunk};

use crate::difference::{Difference, hunk_difference_with};
use crate::info_difference::{InfoDifference, hunk_info_difference};
use crate::load_hunk::LoadHunk;
use hunk_words::Name;
use std::alloc::{Allocator, Global};

/// How a load file compares with a first one.
#[derive(Debug, Drop)]
pub struct Comparison<A: Allocator + Copy = Global> {
    /// Where they first differ in what they mean, as [`first_difference`](crate::first_difference) returns
    /// it.
    pub difference: Option<Difference>,
    /// Where they first differ in what only debuggers read, in the hunks that both have, as
    /// [`first_info_difference`](crate::first_info_difference) returns it.
    pub info_difference: Option<InfoDifference>,
    /// The symbol that the second file has there, if it is a symbol that differs and there is one.
    pub symbol: Option<(Name<A>, u32)>,
}

impl<A: Allocator + Copy> Comparison<A> {
    /// No difference. Does not allocate.
    pub(crate) fn new() -> Self
        ensures { (firsts : List FileHunk) → HasFound result firsts [] }
    {
        Comparison {
            difference: None,
            info_difference: None,
            symbol: None,
        }
    }

    /// Compares the next two hunks, which have this number. The content of the second is not at hand:
    /// `unlike` is where it first differs from that of the first, and its byte there.
    pub(crate) fn add_hunk(
        &mut self,
        number: usize,
        first: &LoadHunk<A>,
        second: LoadHunk<A>,
        unlike: Option<(u32, u8)>,
    )
        requires first { LiesInItsSize first.now }
        requires limit { second.sites.limit ≡ 4 * second.size }
        ensures { (firsts seconds : List FileHunk) (content : List ℕ) →
            HasFound self.old firsts seconds → IsUnlike first.now second content unlike →
            number ≡ length seconds → slice_get firsts number ≡ Some first.now →
            HasFound self.new firsts (seconds ++ with_bytes second content ∷ []) }
    {
        if self.difference.is_none() {
            self.difference = hunk_difference_with(number, first, &second, unlike);
        }
        if self.info_difference.is_none() {
            self.info_difference = hunk_info_difference(number, first, &second);
            self.symbol = symbol_there(second, self.info_difference);
        }
    }
}

/// The symbol of the hunk that a difference of hunks with its number is about, if it is about a symbol and
/// there is one.
fn symbol_there<A: Allocator + Copy>(
    hunk: LoadHunk<A>,
    difference: Option<InfoDifference>,
) -> Option<(Name<A>, u32)>
    ensures { result ≡ symbol_there hunk difference }
{
    let difference = match difference {
        Some(difference) => difference,
        None => return None,
    };
    let index = match difference {
        InfoDifference::Symbol { index, .. } => index,
        InfoDifference::Debug { .. } => return None,
    };
    let mut symbols = hunk.symbols;
    if index < symbols.len() {
        Some(symbols.swap_remove(index))
    } else {
        None
    }
}
