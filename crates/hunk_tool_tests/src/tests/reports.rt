//! Files that are loaded.

use super::files::{loads_to, one_hunk, with_word};
use hunk_test_support::load_words::{EVEN_WORDS, NO_WORDS, THREE_HUNKS, TWO_HUNKS, ZEROS};
use hunk_test_support::words::{BEHIND_CONTENT, LINKED, LINKED_ALONE, SCATTERED, SHORT, WRITTEN};
use hunk_test_support::{BASE, FILE, REPORT, bytes_of};
use std::alloc::Global;
use std::process::Abort;
use std::test::Fail;

/// Loads the file with another longword at this place.
fn loads_with(
    rt: &impl Abort,
    alloc: Global,
    place: usize,
    word: u32,
    text: &str,
) -> Result<(), Fail> {
    let bytes = with_word(alloc, &FILE, place, word)?;
    loads_to(rt, alloc, &bytes, &[BASE], Ok(()), text)
}

const ONES_REPORT: &str = "hunk 0 at 00010000 size 4\n00010000 ffffffff\n";

/// Longwords in place of the file's own, and the report.
static LIKE_FILE: [(usize, u32, &str); 8] = [
    (0, 0x0000_03F3, REPORT),
    (5, 0x4000_0001, REPORT),
    (6, 0xC000_03E9, REPORT),
    (6, 0x0000_03EA, REPORT),
    (7, 0xC000_0001, REPORT),
    (9, 0x4000_03F2, REPORT),
    (9, 0x8000_03F2, REPORT),
    (8, 0xFFFF_FFFF, ONES_REPORT),
];

/// A longword of the file that is not checked, or not in full, changes no more than its own bytes.
#[test]
fn loads_the_file_and_its_like(rt: HostRuntime) -> Result<(), Fail> {
    for &(place, word, text) in &LIKE_FILE {
        loads_with(&rt, rt.alloc(), place, word, text)?;
    }
    Ok(())
}

/// The size of a hunk, its longwords, its address, and the report.
static OTHER_SIZES: [(u32, &[u32], u32, &str); 5] = [
    (
        5,
        &[
            0x0001_0203,
            0x0405_0607,
            0x0809_0A0B,
            0x0C0D_0E0F,
            0x1011_1213,
        ],
        0xFFFF_FFEC,
        "hunk 0 at ffffffec size 20\n\
         ffffffec 000102030405060708090a0b0c0d0e0f\n\
         fffffffc 10111213\n",
    ),
    (
        5,
        &[0x4E75_4E71],
        0x1001,
        "hunk 0 at 00001001 size 20\n\
         00001001 4e754e71000000000000000000000000\n\
         00001011 00000000\n",
    ),
    (
        4,
        &[],
        0,
        "hunk 0 at 00000000 size 16\n\
         00000000 00000000000000000000000000000000\n",
    ),
    (0, &[], 0xFFFF_FFFF, "hunk 0 at ffffffff size 0\n"),
    (0, &[], 0, "hunk 0 at 00000000 size 0\n"),
];

#[test]
fn loads_hunks_of_other_sizes(rt: HostRuntime) -> Result<(), Fail> {
    for &(size, content, base, text) in &OTHER_SIZES {
        let bytes = one_hunk(rt.alloc(), size, content)?;
        loads_to(&rt, rt.alloc(), &bytes, &[base], Ok(()), text)?;
    }
    Ok(())
}

/// The report of the hunks of `SCATTERED` and of `WRITTEN`.
const SCATTERED_REPORT: &str = "hunk 0 at 00001000 size 12\n00001000 000020000000100000002004\n\
                                hunk 1 at 00002000 size 4\n00002000 00000000\n";

/// An empty hunk between two others, the first of which adds the address of the last.
pub(crate) const EMPTY_BETWEEN: [u32; 26] = [
    0x3F3,
    0,
    3,
    0,
    2,
    1,
    0,
    1, //
    0x3E9,
    1,
    0,
    0x3EC,
    1,
    2,
    0,
    0,
    0x3F2, //
    0x3EB,
    0,
    0x3F2, //
    0x3EA,
    1,
    0x1234_5678,
    0x3F1,
    0,
    0x3F2,
];

/// Load files, the addresses of their hunks, and the report. The last file is the repository's
/// example.
static REPORTS: [(&[u32], &[u32], &str); 13] = [
    (&FILE, &[BASE], REPORT),
    (
        &BEHIND_CONTENT,
        &[BASE],
        "hunk 0 at 00010000 size 12\n00010000 4e754e710000000000010000\n",
    ),
    (
        &ZEROS,
        &[0xFFFF_FFEC],
        "hunk 0 at ffffffec size 20\n\
         ffffffec 00000000000000000000000000000000\n\
         fffffffc 00000000\n",
    ),
    (
        &SHORT,
        &[BASE],
        "hunk 0 at 00010000 size 8\n00010000 0001000400010000\n",
    ),
    (
        &EVEN_WORDS,
        &[BASE],
        "hunk 0 at 00010000 size 8\n00010000 0000000400010000\n",
    ),
    (
        &NO_WORDS,
        &[BASE],
        "hunk 0 at 00010000 size 8\n00010000 0000000400000000\n",
    ),
    (&SCATTERED, &[0x1000, 0x2000], SCATTERED_REPORT),
    (&WRITTEN, &[0x1000, 0x2000], SCATTERED_REPORT),
    (
        &LINKED,
        &[BASE, 0x0002_0000],
        "hunk 0 at 00010000 size 8\n00010000 4eb9000200044e75\n\
         hunk 1 at 00020000 size 8\n00020000 4e714e714e754e71\n",
    ),
    (
        &LINKED_ALONE,
        &[BASE, 0x0002_0000],
        "hunk 0 at 00010000 size 8\n00010000 4eb9000200004e75\n\
         hunk 1 at 00020000 size 8\n00020000 0000000000000000\n",
    ),
    (
        &THREE_HUNKS,
        &[0x1000, 0x2000, 0x3000],
        "hunk 0 at 00001000 size 8\n00001000 4e714e714e754e71\n\
         hunk 1 at 00002000 size 4\n00002000 00003008\n\
         hunk 2 at 00003000 size 16\n00003000 00000000000000000000000000000000\n",
    ),
    (
        &EMPTY_BETWEEN,
        &[0x1000, 0x2000, 0x3000],
        "hunk 0 at 00001000 size 4\n00001000 00003000\n\
         hunk 1 at 00002000 size 0\n\
         hunk 2 at 00003000 size 4\n00003000 12345678\n",
    ),
    (
        &TWO_HUNKS,
        &[BASE, 0x0002_0000],
        "hunk 0 at 00010000 size 16\n00010000 207c000200004eb90001000e4e754e75\n\
         hunk 1 at 00020000 size 8\n00020000 68756e6b00000000\n",
    ),
];

#[test]
fn reports_the_memory_of_files(rt: HostRuntime) -> Result<(), Fail> {
    for &(words, bases, text) in &REPORTS {
        let bytes = bytes_of(rt.alloc(), words, &[])?;
        loads_to(&rt, rt.alloc(), &bytes, bases, Ok(()), text)?;
    }
    Ok(())
}
