//! Where two load files first differ in what only debuggers read: their symbols and debug blocks.

ghost use Rattle.std.specs.Prelude.{◌≡◌, ◌==◌, length};
ghost use Rattle.std.specs.List.{common_prefix_len};
ghost use Rattle.hunk_words.specs.DebugInfo.{lists_of};
ghost use Rattle.hunk_loadfile.specs.InfoDifference.{first_info_difference, first_unshared, hunk_info_difference, is_same_debug, is_same_symbol};

use crate::load_file::LoadFile;
use crate::load_hunk::LoadHunk;
use hunk_words::Name;
use std::alloc::Allocator;

/// Where two load files first differ in what only debuggers read. Everything is counted from 0.
#[derive(Clone, Copy, Debug, PartialEq, Eq)]
pub enum InfoDifference {
    /// A symbol that the files do not both have there: it has another name or another value, or one of
    /// them has fewer symbols.
    Symbol {
        /// The number of the hunk.
        hunk: usize,
        /// The index of the symbol in the hunk.
        index: usize,
    },
    /// A debug block that the files do not both have there: it has other longwords, or one of them has
    /// fewer debug blocks.
    Debug {
        /// The number of the hunk.
        hunk: usize,
        /// The index of the debug block in the hunk.
        index: usize,
    },
}

/// Where two load files with equally many hunks first differ in what only debuggers read; `None` if
/// nowhere. Hunk by hunk, the symbols come first, and then the debug blocks. Does not allocate.
pub fn first_info_difference<A: Allocator + Copy, B: Allocator + Copy>(
    first: &LoadFile<A>,
    second: &LoadFile<B>,
) -> Option<InfoDifference>
    requires { length first.now ≡ length second.now }
    ensures { result ≡ first_info_difference first.now second.now }
{
    let (first, second) = (first.hunks(), second.hunks());
    for (number, hunk) in first.iter().enumerate() {
        let difference = hunk_info_difference(number, hunk, &second[number]);
        if difference.is_some() {
            return difference;
        }
    }
    None
}

/// The same for two hunks with this number.
pub(crate) fn hunk_info_difference<A: Allocator + Copy, B: Allocator + Copy>(
    number: usize,
    first: &LoadHunk<A>,
    second: &LoadHunk<B>,
) -> Option<InfoDifference>
    ensures { result ≡ hunk_info_difference number first.now second.now }
{
    if let Some(index) = first_symbol(&first.symbols, &second.symbols) {
        return Some(InfoDifference::Symbol {
            hunk: number,
            index,
        });
    }
    match first_debug(&first.debugs, &second.debugs) {
        Some(index) => Some(InfoDifference::Debug {
            hunk: number,
            index,
        }),
        None => None,
    }
}

/// The index of the first symbol that two lists do not both have.
fn first_symbol<A: Allocator + Copy, B: Allocator + Copy>(
    first: &[(Name<A>, u32)],
    second: &[(Name<B>, u32)],
) -> Option<usize>
    ensures { result ≡ first_unshared is_same_symbol first.now second.now }
{
    let shared = shared_symbols(first, second);
    if shared < first.len().max(second.len()) {
        Some(shared)
    } else {
        None
    }
}

/// How many symbols two lists both begin with.
fn shared_symbols<A: Allocator + Copy, B: Allocator + Copy>(
    first: &[(Name<A>, u32)],
    second: &[(Name<B>, u32)],
) -> usize
    ensures { result ≡ common_prefix_len is_same_symbol first.now second.now }
{
    for index in 0..first.len().min(second.len()) {
        if !is_same_symbol(&first[index], &second[index]) {
            return index;
        }
    }
    first.len().min(second.len())
}

/// Whether two symbols have one name and one value.
fn is_same_symbol<A: Allocator + Copy, B: Allocator + Copy>(
    first: &(Name<A>, u32),
    second: &(Name<B>, u32),
) -> bool
    ensures { result ≡ is_same_symbol first.now second.now }
{
    first.0.bytes() == second.0.bytes() && first.1 == second.1
}

/// The index of the first debug block that two lists do not both have.
fn first_debug<A: Allocator + Copy, B: Allocator + Copy>(
    first: &[Vec<u32, A>],
    second: &[Vec<u32, B>],
) -> Option<usize>
    ensures { result ≡ first_unshared is_same_debug (lists_of first.now) (lists_of second.now) }
{
    let shared = shared_debugs(first, second);
    if shared < first.len().max(second.len()) {
        Some(shared)
    } else {
        None
    }
}

/// How many debug blocks two lists both begin with.
fn shared_debugs<A: Allocator + Copy, B: Allocator + Copy>(
    first: &[Vec<u32, A>],
    second: &[Vec<u32, B>],
) -> usize
    ensures { result ≡ common_prefix_len is_same_debug (lists_of first.now) (lists_of second.now) }
{
    for index in 0..first.len().min(second.len()) {
        if !is_same_debug(&first[index], &second[index]) {
            return index;
        }
    }
    first.len().min(second.len())
}

/// Whether two debug blocks have the same longwords.
fn is_same_debug(first: &[u32], second: &[u32]) -> bool
    ensures { result ≡ is_same_debug first.now second.now }
{
    first == second
}
