//! Files of both kinds through everything that reads them: where they are rejected, why, and when.

use super::asserts::equals;
use super::decoders::{Answer, is_judged};
use super::files::with_word;
use hunk_test_support::words::{
    ADDRESS, ASSEMBLED, BEHIND_CONTENT, CHIP, DEFINES, DEFINES_LONGER, IN_BSS, LINKED,
    LINKED_ALONE, MEETS, PAST_CONTENT, REFERS, SCATTERED, SHORT, TOO_LARGE, TWO_NAMES, WRITTEN,
};
use hunk_test_support::{FILE, bytes_of};
use hunk_words::FileKind::{Load, Object};
use hunk_words::Reason::{
    BothMemoryBits, ContentTooLong, HunkTable, MisplacedType, NoSuchHunk, PartialLongword,
    ResidentNames, SiteOutside, SiteOverlap, SymbolKind, TooLarge, TrailingData, UnexpectedEnd,
    UnknownType, UnsupportedBlock, UnsupportedExt, WrongStart,
};
use hunk_words::{FileKind, Reason};
use std::alloc::Global;
use std::process::Abort;
use std::test::Fail;

/// A longword of ones.
const ONES: u32 = 0xFFFF_FFFF;

/// All ones where a block type is expected.
const UNKNOWN: Reason = UnknownType(0x3FFF_FFFF);

/// Files, and how many bytes of each are whole files.
static FRONTS: [(FileKind, &[u32], &[usize]); 3] = [
    (Load, &FILE, &[40]),
    (Object, &REFERS, &[8, 52]),
    (Object, &ASSEMBLED, &[12, 116, 128]),
];

#[test]
fn judges_each_front(rt: HostRuntime) -> Result<(), Fail> {
    for &(kind, words, whole) in &FRONTS {
        let bytes = bytes_of(rt.alloc(), words, &[])?;
        equals(&rt, whole.last().copied(), Some(bytes.len()));
        for count in 0..=bytes.len() {
            let place = count as u64 / 4;
            let answer = if whole.contains(&count) {
                None
            } else if count % 4 == 0 {
                Some((place, UnexpectedEnd))
            } else {
                Some((place, PartialLongword))
            };
            is_judged(&rt, rt.alloc(), kind, &bytes[..count], answer)?;
        }
    }
    Ok(())
}

/// The file with another longword at a place is judged so.
fn judges_with(
    rt: &impl Abort,
    alloc: Global,
    kind: FileKind,
    words: &[u32],
    (place, word): (usize, u32),
    answer: Answer,
) -> Result<(), Fail> {
    let bytes = with_word(alloc, words, place, word)?;
    is_judged(rt, alloc, kind, &bytes, answer)
}

/// Files, a place in each, the longword there, and the answer.
static OTHER_LONGWORDS: [(FileKind, &[u32], usize, u32, Answer); 74] = [
    (Load, &FILE, 0, ONES, Some((0, WrongStart))),
    (Load, &FILE, 1, ONES, Some((1, ResidentNames))),
    (Load, &FILE, 2, ONES, Some((2, HunkTable))),
    (Load, &FILE, 3, ONES, Some((3, HunkTable))),
    (Load, &FILE, 4, ONES, Some((4, HunkTable))),
    (Load, &FILE, 5, ONES, Some((5, BothMemoryBits))),
    (Load, &FILE, 6, ONES, Some((6, UNKNOWN))),
    (Load, &FILE, 7, ONES, Some((7, ContentTooLong))),
    (Load, &FILE, 8, ONES, None),
    (Load, &FILE, 9, ONES, Some((9, UNKNOWN))),
    (Object, &REFERS, 0, ONES, Some((0, WrongStart))),
    (Object, &REFERS, 1, ONES, Some((13, UnexpectedEnd))),
    (Object, &REFERS, 2, ONES, Some((2, UNKNOWN))),
    (Object, &REFERS, 3, ONES, Some((13, UnexpectedEnd))),
    (Object, &REFERS, 4, ONES, None),
    (Object, &REFERS, 5, ONES, None),
    (Object, &REFERS, 6, ONES, Some((6, UNKNOWN))),
    (Object, &REFERS, 7, ONES, Some((7, UnsupportedExt(255)))),
    (Object, &REFERS, 8, ONES, None),
    (Object, &REFERS, 9, ONES, Some((11, SiteOverlap(0)))),
    (
        Object,
        &REFERS,
        10,
        ONES,
        Some((10, SiteOutside(0xFFFF_FFFF))),
    ),
    (Object, &REFERS, 11, ONES, Some((11, UnsupportedExt(255)))),
    (Object, &REFERS, 12, ONES, Some((12, UNKNOWN))),
    // headers
    (Load, &FILE, 1, 1, Some((1, ResidentNames))),
    (Load, &FILE, 2, 0, Some((2, HunkTable))),
    (Load, &FILE, 2, 0x0001_0000, Some((2, HunkTable))),
    (Load, &FILE, 3, 1, Some((3, HunkTable))),
    (Load, &FILE, 4, 1, Some((4, HunkTable))),
    (Load, &FILE, 5, 0xC000_0001, Some((5, BothMemoryBits))),
    (Load, &FILE, 2, 2, Some((4, HunkTable))),
    (Load, &FILE, 5, 0x8000_0001, None),
    (Load, &FILE, 5, 0x0100_0001, Some((5, TooLarge))),
    (Load, &TOO_LARGE, 6, 1, Some((7, UnexpectedEnd))),
    (Load, &TOO_LARGE, 6, 2, Some((6, TooLarge))),
    // types, and the memory that they ask for
    (Load, &FILE, 6, 0xC000_03E9, None),
    (
        Load,
        &FILE,
        6,
        0x2000_03E9,
        Some((6, UnknownType(536_871_913))),
    ),
    (Load, &FILE, 0, 0x0000_03E7, Some((0, WrongStart))),
    (Load, &FILE, 6, 0x0000_03EC, Some((6, MisplacedType(1004)))),
    (Load, &FILE, 6, 0x0000_03F2, Some((6, MisplacedType(1010)))),
    (
        Load,
        &FILE,
        6,
        0x0000_03F5,
        Some((6, UnsupportedBlock(1013))),
    ),
    (Load, &FILE, 6, 0x0000_03FC, Some((6, MisplacedType(1020)))),
    (
        Object,
        &REFERS,
        6,
        0x0000_03FC,
        Some((6, UnknownType(1020))),
    ),
    (Object, &CHIP, 2, 0xC000_03EA, Some((2, BothMemoryBits))),
    (Load, &FILE, 9, 0x0000_03E9, Some((9, MisplacedType(1001)))),
    (
        Load,
        &FILE,
        9,
        0x0000_03F7,
        Some((9, UnsupportedBlock(1015))),
    ),
    (Load, &FILE, 9, 0x8000_03F2, None),
    (Load, &FILE, 9, 0x0000_03EF, Some((9, MisplacedType(1007)))),
    (Load, &FILE, 9, 0x0000_03F3, Some((9, MisplacedType(1011)))),
    // other blocks in the place of CODE, and in that of END
    (Load, &FILE, 6, 0x0000_03E8, Some((9, MisplacedType(1010)))),
    (Load, &FILE, 6, 0x0000_03EA, None),
    (
        Load,
        &FILE,
        6,
        0x0000_03EB,
        Some((8, UnknownType(0x0E75_4E71))),
    ),
    (Load, &FILE, 9, 0x0000_03EC, Some((10, UnexpectedEnd))),
    (Load, &FILE, 9, 0x0000_03F0, Some((10, UnexpectedEnd))),
    (Load, &FILE, 9, 0x0000_03F1, Some((10, UnexpectedEnd))),
    (Load, &FILE, 9, 0x0000_03FC, Some((10, UnexpectedEnd))),
    // sizes of content
    (Load, &FILE, 7, 0, Some((8, UnknownType(0x0E75_4E71)))),
    (Load, &FILE, 7, 2, Some((7, ContentTooLong))),
    (Load, &FILE, 7, 0xC000_0001, None),
    // symbols
    (
        Object,
        &DEFINES,
        7,
        0x8200_0001,
        Some((7, UnsupportedExt(130))),
    ),
    (Object, &DEFINES, 7, 1, Some((7, UnsupportedExt(0)))),
    (
        Object,
        &ASSEMBLED,
        21,
        0x0100_0001,
        Some((21, SymbolKind(1))),
    ),
    // sites, whose count is never blamed
    (Object, &PAST_CONTENT, 9, 4, Some((10, UnexpectedEnd))),
    (Object, &PAST_CONTENT, 9, 5, Some((9, SiteOutside(5)))),
    (Object, &PAST_CONTENT, 7, ONES, Some((9, SiteOutside(5)))),
    (Object, &IN_BSS, 5, 1, Some((7, SiteOutside(0)))),
    (Object, &IN_BSS, 5, ONES, Some((7, SiteOutside(0)))),
    (Object, &MEETS, 7, 1, Some((15, SiteOverlap(4)))),
    (Object, &MEETS, 14, ONES, Some((15, SiteOverlap(4)))),
    // targets, which the linker checks for an object file
    (Object, &ADDRESS, 7, 2, None),
    (Load, &LINKED, 13, 2, Some((13, NoSuchHunk(2)))),
    // relocations in 16-bit words
    (Load, &SHORT, 12, 2, Some((12, SiteOverlap(2)))),
    (Load, &SHORT, 12, 0x0005_0006, Some((12, SiteOutside(5)))),
    (Load, &SHORT, 11, 0x0002_0001, Some((11, NoSuchHunk(1)))),
    (Load, &SHORT, 13, 0x0000_0000, None),
];

#[test]
fn judges_other_longwords(rt: HostRuntime) -> Result<(), Fail> {
    for &(kind, words, place, word, answer) in &OTHER_LONGWORDS {
        judges_with(&rt, rt.alloc(), kind, words, (place, word), answer)?;
    }
    Ok(())
}

/// `FILE` without its END, `SHORT` up to its relocations, and the latter with two of them.
const NO_END: [u32; 9] = [0x3F3, 0, 1, 0, 0, 1, 0x3E9, 1, 0x4E75_4E71];

const NO_SITES: [u32; 11] = [0x3F3, 0, 1, 0, 0, 2, 0x3E9, 2, 4, 0, 0x3FC];

const TWO_SITES: [u32; 13] = [0x3F3, 0, 1, 0, 0, 2, 0x3E9, 2, 4, 0, 0x3FC, 0x0002_0000, 4];

/// Files, what follows each, and the answer.
static FOLLOWED: [(FileKind, &[u32], &[u8], Answer); 31] = [
    (Object, &[], &[], Some((0, UnexpectedEnd))),
    (Load, &[], &[], Some((0, UnexpectedEnd))),
    (Object, &[], &[0, 0, 3], Some((0, PartialLongword))),
    (Load, &[], &[0, 0, 3], Some((0, PartialLongword))),
    (Load, &FILE, &[], None),
    (Object, &FILE, &[], Some((0, WrongStart))),
    (Object, &REFERS, &[], None),
    (Load, &REFERS, &[], Some((0, WrongStart))),
    (Object, &DEFINES, &[], None),
    (Object, &DEFINES_LONGER, &[], None),
    (Load, &LINKED, &[], None),
    (Object, &ADDRESS, &[], None),
    (Load, &BEHIND_CONTENT, &[], None),
    (Object, &CHIP, &[], None),
    (Object, &ASSEMBLED, &[], None),
    (Load, &LINKED_ALONE, &[], None),
    (Load, &SCATTERED, &[], None),
    (Load, &WRITTEN, &[], None),
    (Object, &TWO_NAMES, &[], None),
    (Load, &SHORT, &[], None),
    (Object, &[0x0000_03E7, 0], &[], None),
    // after the last END
    (Load, &FILE, &[0], Some((10, PartialLongword))),
    (Load, &FILE, &[0, 0], Some((10, PartialLongword))),
    (Load, &FILE, &[0, 0, 0], Some((10, PartialLongword))),
    (Load, &FILE, &[0, 0, 0, 0], Some((10, TrailingData))),
    (
        Load,
        &FILE,
        &[0, 0, 3, 0xF5],
        Some((10, UnsupportedBlock(1013))),
    ),
    (Load, &FILE, &[0, 0, 3, 0xFC], Some((10, TrailingData))),
    // in place of the last END: relocations that name a hunk after the last one
    (
        Load,
        &NO_END,
        &[0, 0, 3, 0xEC, 0, 0, 0, 1, 0, 0, 0, 1],
        Some((11, NoSuchHunk(1))),
    ),
    // in place of two relocations in 16-bit words: one, none, and two without their end
    (
        Load,
        &NO_SITES,
        &[0, 1, 0, 0, 0, 4, 0, 0, 0, 0, 3, 0xF2],
        None,
    ),
    (Load, &NO_SITES, &[0, 0, 0, 0, 0, 0, 3, 0xF2], None),
    (Load, &TWO_SITES, &[], Some((13, UnexpectedEnd))),
];

#[test]
fn judges_files_and_what_follows_them(rt: HostRuntime) -> Result<(), Fail> {
    for &(kind, words, rest, answer) in &FOLLOWED {
        let bytes = bytes_of(rt.alloc(), words, rest)?;
        is_judged(&rt, rt.alloc(), kind, &bytes, answer)?;
    }
    Ok(())
}

/// Object files, a place in each, the longword there, and the answer.
static OTHER_OBJECTS: [(&[u32], usize, u32, Answer); 10] = [
    (&REFERS, 0, 0x0000_03F3, Some((0, WrongStart))),
    (&MEETS, 0, 0x0000_03E7, Some((15, SiteOverlap(4)))),
    (&PAST_CONTENT, 9, 4, Some((10, UnexpectedEnd))),
    (&PAST_CONTENT, 9, 5, Some((9, SiteOutside(5)))),
    (&IN_BSS, 0, 0x0000_03E7, Some((7, SiteOutside(0)))),
    (&IN_BSS, 5, 0xFFFF_FFFF, Some((7, SiteOutside(0)))),
    (&CHIP, 2, 0xC000_03EA, Some((2, BothMemoryBits))),
    (&DEFINES, 7, 0x8200_0001, Some((7, UnsupportedExt(130)))),
    (&DEFINES, 7, 1, Some((7, UnsupportedExt(0)))),
    (&ASSEMBLED, 21, 0x0100_0001, Some((21, SymbolKind(1)))),
];

#[test]
fn rejects_other_object_files(rt: HostRuntime) -> Result<(), Fail> {
    for &(words, place, word, answer) in &OTHER_OBJECTS {
        judges_with(&rt, rt.alloc(), Object, words, (place, word), answer)?;
    }
    Ok(())
}
