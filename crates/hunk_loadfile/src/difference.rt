//! Where two load files first differ in what they mean.

ghost use Rattle.std.specs.Prelude.{◌≡◌, ℕ, List, ◌+◌, ◌<◌, ◌^◌, ◌*◌, ◌-◌, ◌≤◌, ◌==◌, not, length, min, max};
ghost use Rattle.hunk_loadfile.specs.Difference.{IsUnlike, LiesInItsSize, byte_of, first_difference, has_same_byte, has_same_target, head_difference, hunk_difference, inside_difference, lowest, target_of, unlike_byte, with_bytes};
ghost use Rattle.hunk_loadfile.specs.Patching.{byte_or_zero};
ghost use Rattle.hunk_loadfile.specs.declared.difference.Difference.TheVariants as difference_is;

use crate::load_file::LoadFile;
use crate::load_hunk::LoadHunk;
use hunk_words::{HunkKind, Memory, Sites};
use std::alloc::Allocator;

/// Where two load files first differ in what they mean: in their hunks as they are in memory before any
/// base is added. Everything is counted from 0.
#[derive(Clone, Copy, Debug, PartialEq, Eq)]
pub enum Difference {
    /// The numbers of their hunks.
    HunkCount {
        /// How many hunks the first file has.
        first: usize,
        /// How many the second one has.
        second: usize,
    },
    /// What a hunk holds.
    Kind {
        /// The number of the hunk.
        hunk: usize,
        /// The kind in the first file.
        first: HunkKind,
        /// The kind in the second file.
        second: HunkKind,
    },
    /// Which memory a hunk asks for.
    Memory {
        /// The number of the hunk.
        hunk: usize,
        /// The memory in the first file.
        first: Memory,
        /// The memory in the second file.
        second: Memory,
    },
    /// The size of a hunk in memory.
    Size {
        /// The number of the hunk.
        hunk: usize,
        /// The longwords in the first file.
        first: u32,
        /// The longwords in the second file.
        second: u32,
    },
    /// A byte of a hunk; after the content of a hunk there are zeros.
    Byte {
        /// The number of the hunk.
        hunk: usize,
        /// The offset of the byte in the hunk.
        offset: u32,
        /// The byte in the first file.
        first: u8,
        /// The byte in the second file.
        second: u8,
    },
    /// A site of a hunk.
    Site {
        /// The number of the hunk.
        hunk: usize,
        /// The offset of the site in the hunk, in bytes.
        offset: u32,
        /// The hunk whose base is added there in the first file, if there is a site.
        first: Option<u32>,
        /// The same in the second file.
        second: Option<u32>,
    },
}

/// Where two load files first differ in what they mean; `None` if they mean the same. The number of hunks
/// comes first; then, hunk by hunk, the kind, the memory and the size, and then the lowest offset with
/// another byte or another site. Where both differ at one offset, it is the byte.
///
/// Zeros at the end of a content make no difference, nor do symbols and debug blocks. Does not
/// allocate, and takes time in proportion to the contents and the sites.
pub fn first_difference<A: Allocator + Copy, B: Allocator + Copy>(
    first: &LoadFile<A>,
    second: &LoadFile<B>,
) -> Option<Difference>
    ensures { result ≡ first_difference first.now second.now }
{
    let (first, second) = (first.hunks(), second.hunks());
    if first.len() != second.len() {
        return Some(Difference::HunkCount {
            first: first.len(),
            second: second.len(),
        });
    }
    for (number, hunk) in first.iter().enumerate() {
        let difference = hunk_difference(number, hunk, &second[number]);
        if difference.is_some() {
            return difference;
        }
    }
    None
}

/// Where two hunks with this number first differ.
fn hunk_difference<A: Allocator + Copy, B: Allocator + Copy>(
    number: usize,
    first: &LoadHunk<A>,
    second: &LoadHunk<B>,
) -> Option<Difference>
    requires first { LiesInItsSize first.now }
    requires second { LiesInItsSize second.now }
    ensures { result ≡ hunk_difference number first.now second.now }
{
    let difference = head_difference(number, first, second);
    if difference.is_some() {
        return difference;
    }
    let unlike = unlike_byte(&first.content, &second.content);
    inside_difference(number, first, second, unlike)
}

/// The same, where the content of the second hunk is not at hand: `unlike` is where it first differs from
/// that of the first hunk, with zeros after the shorter one, and its byte there.
pub(crate) fn hunk_difference_with<A: Allocator + Copy, B: Allocator + Copy>(
    number: usize,
    first: &LoadHunk<A>,
    second: &LoadHunk<B>,
    unlike: Option<(u32, u8)>,
) -> Option<Difference>
    requires first { LiesInItsSize first.now }
    requires limit { second.now.sites.limit ≡ 4 * second.now.size }
    ensures { (content : List ℕ) → IsUnlike first.now second.now content unlike →
        result ≡ hunk_difference number first.now (with_bytes second.now content) }
{
    let difference = head_difference(number, first, second);
    if difference.is_some() {
        return difference;
    }
    inside_difference(number, first, second, unlike)
}

/// How two hunks with this number differ in what they hold, in memory and size.
fn head_difference<A: Allocator + Copy, B: Allocator + Copy>(
    number: usize,
    first: &LoadHunk<A>,
    second: &LoadHunk<B>,
) -> Option<Difference>
    ensures { result ≡ head_difference number first.now second.now }
{
    if first.kind != second.kind {
        return Some(Difference::Kind {
            hunk: number,
            first: first.kind,
            second: second.kind,
        });
    }
    if first.memory != second.memory {
        return Some(Difference::Memory {
            hunk: number,
            first: first.memory,
            second: second.memory,
        });
    }
    if first.size != second.size {
        return Some(Difference::Size {
            hunk: number,
            first: first.size,
            second: second.size,
        });
    }
    None
}

/// What differs first inside of two hunks of one size, by where their contents do. At one offset it is the
/// byte.
fn inside_difference<A: Allocator + Copy, B: Allocator + Copy>(
    number: usize,
    first: &LoadHunk<A>,
    second: &LoadHunk<B>,
    unlike: Option<(u32, u8)>,
) -> Option<Difference>
    requires size { first.now.size ≡ second.now.size }
    requires first { LiesInItsSize first.now }
    requires limit { second.now.sites.limit ≡ 4 * second.now.size }
    ensures { (content : List ℕ) → IsUnlike first.now second.now content unlike →
        result ≡ inside_difference number first.now (with_bytes second.now content) }
{
    let site = first_site(&first.sites, &second.sites);
    match (unlike, site) {
        (None, None) => None,
        (None, Some(offset)) => Some(site_difference(number, first, second, offset)),
        (Some((offset, byte)), None) => Some(byte_difference(number, first, offset, byte)),
        (Some((offset, byte)), Some(place)) => {
            if offset <= place {
                Some(byte_difference(number, first, offset, byte))
            } else {
                Some(site_difference(number, first, second, place))
            }
        }
    }
}

/// The byte at an offset, and that of the second hunk.
fn byte_difference<A: Allocator + Copy>(
    number: usize,
    first: &LoadHunk<A>,
    offset: u32,
    byte: u8,
) -> Difference
    ensures { result ≡ difference_is.Byte number offset (byte_of first.now offset) byte }
{
    Difference::Byte {
        hunk: number,
        offset,
        first: byte_at(&first.content, offset as usize),
        second: byte,
    }
}

/// The targets of the sites at an offset.
fn site_difference<A: Allocator + Copy, B: Allocator + Copy>(
    number: usize,
    first: &LoadHunk<A>,
    second: &LoadHunk<B>,
    offset: u32,
) -> Difference
    ensures { result ≡ difference_is.Site number offset (target_of first.now offset)
        (target_of second.now offset) }
{
    Difference::Site {
        hunk: number,
        offset,
        first: first.sites.get(offset).copied(),
        second: second.sites.get(offset).copied(),
    }
}

/// A byte of the content, or 0 after its end.
pub(crate) fn byte_at(content: &[u8], offset: usize) -> u8
    ensures { result ≡ byte_or_zero content.now offset }
{
    if offset < content.len() {
        content[offset]
    } else {
        0
    }
}

/// Where two contents first differ, with zeros after the shorter one, and the byte of the second one there.
fn unlike_byte(first: &[u8], second: &[u8]) -> Option<(u32, u8)>
    requires first { length first.now < 2 ^ 32 }
    requires second { length second.now < 2 ^ 32 }
    ensures { result ≡ unlike_byte first.now second.now
        (max (length first.now) (length second.now)) }
{
    match first_byte(first, second) {
        Some(offset) => Some((offset as u32, byte_at(second, offset))),
        None => None,
    }
}

/// The lowest offset at which two contents have another byte, with zeros after the shorter one.
pub(crate) fn first_byte(first: &[u8], second: &[u8]) -> Option<usize>
    ensures { result ≡ lowest (λ offset. not (has_same_byte first.now second.now offset)) 0
        (max (length first.now) (length second.now)) }
{
    let unlike = first_unlike(first, second);
    if unlike.is_some() {
        return unlike;
    }
    if first.len() < second.len() {
        first_nonzero(second, first.len())
    } else {
        first_nonzero(first, second.len())
    }
}

/// The lowest offset at which two contents have another byte, up to the end of the shorter one.
///
/// Most contents that are compared are the same, and whole slices are compared faster than their bytes one
/// by one.
fn first_unlike(first: &[u8], second: &[u8]) -> Option<usize>
    ensures { result ≡ lowest (λ offset. not (has_same_byte first.now second.now offset)) 0
        (min (length first.now) (length second.now)) }
{
    let count = first.len().min(second.len());
    if first[..count] == second[..count] {
        return None;
    }
    for offset in 0..count {
        if first[offset] != second[offset] {
            return Some(offset);
        }
    }
    None
}

/// The lowest offset of a byte that is not 0, from `start` on.
pub(crate) fn first_nonzero(content: &[u8], start: usize) -> Option<usize>
    requires { start ≤ length content.now }
    ensures { result ≡ lowest (λ offset. not (byte_or_zero content.now offset == 0)) start
        (length content.now - start) }
{
    for offset in start..content.len() {
        if content[offset] != 0 {
            return Some(offset);
        }
    }
    None
}

/// The lowest offset at which one of two maps has a site and the other has none, or one with another
/// target. They have one limit.
fn first_site<A: Allocator + Copy, B: Allocator + Copy>(
    first: &Sites<u32, A>,
    second: &Sites<u32, B>,
) -> Option<u32>
    requires { first.now.limit ≡ second.now.limit }
    ensures { result ≡ lowest (λ offset.
        not (has_same_target first.now.entries second.now.entries offset)) 0 first.now.limit }
{
    let mut others = second.walk();
    for (offset, target) in first.walk() {
        match others.next() {
            None => return Some(offset),
            Some((other, other_target)) => {
                if offset != other || *target != *other_target {
                    return Some(offset.min(other));
                }
            }
        }
    }
    match others.next() {
        None => None,
        Some((offset, _)) => Some(offset),
    }
}
