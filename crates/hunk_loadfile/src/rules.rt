//! The rules for the hunks of a load file.
ghost use Rattle.std.specs.Prelude.{◌≡◌, ◌≤◌, ◌<◌, ◌+◌, not, length, sum_by, position, MatchOption, OnSome, IfSome, IfNone, IsTrue};
ghost use Rattle.std.specs.List.{All};
ghost use Rattle.hunk_loadfile.specs.Rules.{IsLongword, IsTyped, IsTypedSymbol, build_fault, carried_longwords, carried_by, debug_longwords, info_longwords, has_content, has_limit, has_names, has_targets, is_hunk_count, is_small, most_hunks, symbol_longwords};
ghost use Rattle.hunk_words.specs.DebugInfo.{lists_of};
ghost use Rattle.hunk_base.specs.Sites.{AreApart};

use crate::load_hunk::LoadHunk;
use hunk_words::{HunkKind, Name};
use std::alloc::{Allocator, Global};

/// The most hunks in a load file.
pub const MOST_HUNKS: usize = 65_535;

/// The most longwords of all hunks.
pub const MOST_SIZE: u64 = 0x100_0000;

/// The most longwords of all symbols and debug blocks in the file.
pub const MOST_CARRIED: u64 = 0x800_0000;

/// The most bytes of a symbol's name: its longwords are counted in 24 bits.
const MOST_NAME: usize = 0x3FF_FFFC;

/// Why hunks do not make a load file: the first rule, in this order, that is broken, and the lowest
/// hunk that breaks it, from 0. The limits are our own.
#[derive(Clone, Copy, Debug, PartialEq, Eq)]
pub enum BuildFault {
    /// There are no hunks, or more than 65,535.
    HunkCount,
    /// The sizes add up to more than 2^24 longwords; or the symbols and debug blocks take more than
    /// 2^27 longwords in the file.
    TooLarge,
    /// The content is not a whole number of longwords, is longer than the hunk, or belongs to a BSS
    /// hunk.
    Content(u32),
    /// The sites' limit is not the size of the hunk in bytes.
    SiteLimit(u32),
    /// A site names a hunk that does not exist.
    Target(u32),
    /// A symbol's name has more than 2^26 - 4 bytes.
    LongName(u32),
}

/// Hunks that do not make a load file, handed back, and the reason.
#[derive(Debug, Drop)]
pub struct BuildRefusal<A: Allocator + Copy = Global> {
    /// The first fault.
    pub fault: BuildFault,
    /// The hunks, as they were passed in.
    pub hunks: Vec<LoadHunk<A>, A>,
}

/// Whether the content is whole longwords, no longer than the hunk, and empty for a BSS hunk.
fn has_content<A: Allocator + Copy>(hunk: &LoadHunk<A>) -> bool
    ensures content { result ≡ has_content hunk.now }
{
    let most = match hunk.kind {
        HunkKind::Bss => 0,
        HunkKind::Code | HunkKind::Data => 4 * u64::from(hunk.size),
    };
    hunk.content.len().is_multiple_of(4) && hunk.content.len() as u64 <= most
}

/// Whether the sites' limit is the size of the hunk.
fn has_limit<A: Allocator + Copy>(hunk: &LoadHunk<A>) -> bool
    ensures { result ≡ has_limit hunk.now }
{
    hunk.sites.limit() == 4 * u64::from(hunk.size)
}

/// Whether each site names one of `count` hunks.
fn has_targets<A: Allocator + Copy>(hunk: &LoadHunk<A>, count: usize) -> bool
    ensures { result ≡ has_targets count hunk.now }
{
    for (_, target) in hunk.sites.walk() {
        if *target as usize >= count {
            return false;
        }
    }
    true
}

/// Whether the longwords of each symbol's name can be counted in 24 bits.
fn has_names<A: Allocator + Copy>(hunk: &LoadHunk<A>) -> bool
    ensures { result ≡ has_names hunk.now }
{
    hunk.symbols
        .iter()
        .all(|(name, _)| name.bytes().len() <= MOST_NAME)
}

/// The longwords that a symbol takes in a file.
fn symbol_longwords<A: Allocator + Copy>(symbol: &(Name<A>, u32)) -> u64
    ensures count { result ≡ symbol_longwords symbol.now }
    ensures typed { IsTypedSymbol symbol.now }
{
    let (name, _value) = (&symbol.0, symbol.1);
    2 + name.bytes().len().div_ceil(4).max(1) as u64
}

/// The longwords that a debug block takes in a file.
fn debug_longwords(debug: &[u32]) -> u64
    ensures count { result ≡ debug_longwords debug.now }
    ensures typed { All IsLongword debug.now }
{
    2 + debug.len() as u64
}

/// What is left of `room` longwords after these symbols, if they take no more.
fn room_behind_symbols<A: Allocator + Copy>(room: u64, symbols: &[(Name<A>, u32)]) -> Option<u64>
    ensures room { MatchOption result (room < sum_by symbol_longwords symbols.now)
        (λ left. left + sum_by symbol_longwords symbols.now ≡ room) }
    ensures typed { OnSome result (All IsTypedSymbol symbols.now) }
{
    let mut left = room;
    for symbol in symbols {
        let count = symbol_longwords(symbol);
        if left < count {
            return None;
        }
        left -= count;
    }
    Some(left)
}

/// The same after these debug blocks.
fn room_behind_debugs<A: Allocator + Copy>(room: u64, debugs: &[Vec<u32, A>]) -> Option<u64>
    ensures room { MatchOption result
        (room < sum_by (λ debug. debug_longwords debug.items) debugs.now)
        (λ left. left + sum_by (λ debug. debug_longwords debug.items) debugs.now ≡ room) }
    ensures typed { OnSome result (All (All IsLongword) (lists_of debugs.now)) }
{
    let mut left = room;
    for debug in debugs {
        let count = debug_longwords(debug);
        if left < count {
            return None;
        }
        left -= count;
    }
    Some(left)
}

/// What is left of `room` longwords after the symbols and debug blocks of a hunk as a file has them,
/// if they take no more.
pub fn room_behind<A: Allocator + Copy>(
    room: u64,
    symbols: &[(Name<A>, u32)],
    debugs: &[Vec<u32, A>],
) -> Option<u64>
    ensures room { MatchOption result (room < info_longwords symbols.now (lists_of debugs.now))
        (λ left. left + info_longwords symbols.now (lists_of debugs.now) ≡ room) }
    ensures symbols { OnSome result (All IsTypedSymbol symbols.now) }
    ensures debugs { OnSome result (All (All IsLongword) (lists_of debugs.now)) }
{
    match room_behind_symbols(room, symbols) {
        Some(left) => room_behind_debugs(left, debugs),
        None => None,
    }
}

/// The same after those of a hunk of a load file.
fn room_behind_hunk<A: Allocator + Copy>(room: u64, hunk: &LoadHunk<A>) -> Option<u64>
    ensures room { MatchOption result (room < carried_by hunk.now)
        (λ left. left + carried_by hunk.now ≡ room) }
    ensures symbols { OnSome result (All IsTypedSymbol hunk.now.symbols) }
    ensures debugs { OnSome result (All (All IsLongword) hunk.now.debugs) }
{
    room_behind(room, &hunk.symbols, &hunk.debugs)
}

/// The number of bytes.
fn byte_count(bytes: &[u8]) -> usize
    ensures count { result ≡ length bytes.now }
    ensures typed { All (λ b. b < 256) bytes.now }
{
    bytes.len()
}

/// The size of a hunk in longwords. The types of its content and of its sites say what they hold.
fn size_of<A: Allocator + Copy>(hunk: &LoadHunk<A>) -> u32
    ensures size { result ≡ hunk.now.size }
    ensures bytes { All (λ b. b < 256) hunk.now.content }
    ensures apart { AreApart hunk.now.sites }
{
    let _bytes = byte_count(&hunk.content);
    let _limit = hunk.sites.limit();
    hunk.size
}

/// Whether the hunks are few and short enough.
fn is_small<A: Allocator + Copy>(hunks: &[LoadHunk<A>]) -> bool
    requires { length hunks.now ≤ most_hunks }
    ensures small { result ≡ is_small hunks.now }
    ensures typed { IsTrue result → All IsTyped hunks.now }
{
    let mut size = 0u64;
    let mut room = MOST_CARRIED;
    for hunk in hunks {
        size += u64::from(size_of(hunk));
        match room_behind_hunk(room, hunk) {
            Some(left) => room = left,
            None => return false,
        }
    }
    size <= MOST_SIZE
}

/// Whether a load file may have `count` hunks.
fn is_hunk_count(count: usize) -> bool
    ensures { result ≡ is_hunk_count count }
{
    1 <= count && count <= MOST_HUNKS
}

/// The lowest hunk whose content breaks the rule.
fn without_content<A: Allocator + Copy>(hunks: &[LoadHunk<A>]) -> Option<usize>
    ensures lowest { result ≡ position (λ h. not (has_content h)) hunks.now }
    ensures within { IfSome result (λ hunk. hunk < length hunks.now) }
{
    hunks.iter().position(|hunk| !has_content(hunk))
}

/// The lowest hunk whose sites have a limit other than its size.
fn without_limit<A: Allocator + Copy>(hunks: &[LoadHunk<A>]) -> Option<usize>
    ensures lowest { result ≡ position (λ h. not (has_limit h)) hunks.now }
    ensures within { IfSome result (λ hunk. hunk < length hunks.now) }
{
    hunks.iter().position(|hunk| !has_limit(hunk))
}

/// The lowest hunk with a site for a hunk that does not exist.
fn without_targets<A: Allocator + Copy>(hunks: &[LoadHunk<A>]) -> Option<usize>
    ensures lowest { result ≡ position (λ h. not (has_targets (length hunks.now) h)) hunks.now }
    ensures within { IfSome result (λ hunk. hunk < length hunks.now) }
{
    let count = hunks.len();
    hunks.iter().position(|hunk| !has_targets(hunk, count))
}

/// The lowest hunk with a symbol whose name is too long.
fn without_names<A: Allocator + Copy>(hunks: &[LoadHunk<A>]) -> Option<usize>
    ensures lowest { result ≡ position (λ h. not (has_names h)) hunks.now }
    ensures within { IfSome result (λ hunk. hunk < length hunks.now) }
{
    hunks.iter().position(|hunk| !has_names(hunk))
}

/// The first fault of these hunks.
pub(crate) fn build_fault<A: Allocator + Copy>(hunks: &[LoadHunk<A>]) -> Option<BuildFault>
    ensures first { result ≡ build_fault hunks.now }
    ensures typed { IfNone result (All IsTyped hunks.now) }
{
    if !is_hunk_count(hunks.len()) {
        return Some(BuildFault::HunkCount);
    }
    if !is_small(hunks) {
        return Some(BuildFault::TooLarge);
    }
    if let Some(hunk) = without_content(hunks) {
        return Some(BuildFault::Content(hunk as u32));
    }
    if let Some(hunk) = without_limit(hunks) {
        return Some(BuildFault::SiteLimit(hunk as u32));
    }
    if let Some(hunk) = without_targets(hunks) {
        return Some(BuildFault::Target(hunk as u32));
    }
    match without_names(hunks) {
        Some(hunk) => Some(BuildFault::LongName(hunk as u32)),
        None => None,
    }
}
