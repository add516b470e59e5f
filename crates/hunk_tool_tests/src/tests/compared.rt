//! Load files that are compared.

use super::asserts::equals_at;
use super::devices::{Devices, WHOLE};
use hunk_test_support::{CHUNKS, FILE, bytes_of};
use hunk_tool::{ToolFault, compare_run};
use hunk_words::{Pieces, Room};
use std::alloc::Global;
use std::process::Abort;
use std::test::Fail;

/// Code of three longwords in chip memory: the file has two of them, and the second one is zero and has
/// a site. It has the symbol `foo` and a debug block. The other hunk is one longword of zeros.
pub(crate) static FIRST: [u32; 28] = [
    0x3F3,
    0,
    2,
    0,
    1,
    0x4000_0003,
    1,
    0x3E9,
    2,
    0x0102_0304,
    0,
    0x3EC,
    1,
    1,
    4,
    0,
    0x3F0,
    1,
    0x666F_6F00,
    4,
    0,
    0x3F1,
    1,
    0xCAFE_BABE,
    0x3F2,
    0x3EB,
    1,
    0x3F2,
];

/// Some of its longwords that are replaced: from this place on, so many, by these.
type Edit = (usize, usize, &'static [u32]);

/// The file with these longwords, and what is told where it is the second file, and where it is the first.
type Row = (Edit, &'static str, &'static str);

/// What the files mean is not the same.
static MEANINGS: [Row; 18] = [
    (
        (7, 1, &[0x3EA]),
        "hunk 0 kind: code and data\n",
        "hunk 0 kind: data and code\n",
    ),
    (
        (25, 2, &[0x3E9, 0]),
        "hunk 1 kind: bss and code\n",
        "hunk 1 kind: code and bss\n",
    ),
    (
        (25, 2, &[0x3EA, 1, 0x4E75]),
        "hunk 1 kind: bss and data\n",
        "hunk 1 kind: data and bss\n",
    ),
    (
        (5, 1, &[0x8000_0003]),
        "hunk 0 memory: chip and fast\n",
        "hunk 0 memory: fast and chip\n",
    ),
    (
        (6, 1, &[0x4000_0001]),
        "hunk 1 memory: any and chip\n",
        "hunk 1 memory: chip and any\n",
    ),
    (
        (5, 1, &[0x4000_0004]),
        "hunk 0 size: 12 and 16\n",
        "hunk 0 size: 16 and 12\n",
    ),
    (
        (6, 1, &[2]),
        "hunk 1 size: 4 and 8\n",
        "hunk 1 size: 8 and 4\n",
    ),
    // The first byte, the last one of the content, and the first and the last one after it.
    (
        (9, 1, &[0x4E02_0304]),
        "hunk 0 offset 00000000: 01 and 4e\n",
        "hunk 0 offset 00000000: 4e and 01\n",
    ),
    (
        (10, 1, &[0xFF]),
        "hunk 0 offset 00000007: 00 and ff\n",
        "hunk 0 offset 00000007: ff and 00\n",
    ),
    (
        (8, 3, &[3, 0x0102_0304, 0, 0x4E00_0000]),
        "hunk 0 offset 00000008: 00 and 4e\n",
        "hunk 0 offset 00000008: 4e and 00\n",
    ),
    (
        (8, 3, &[3, 0x0102_0304, 0, 0x10]),
        "hunk 0 offset 0000000b: 00 and 10\n",
        "hunk 0 offset 0000000b: 10 and 00\n",
    ),
    // A site that only one file has, one with another target, and one at an odd offset.
    (
        (11, 5, &[]),
        "hunk 0 site 00000004: hunk 1 and none\n",
        "hunk 0 site 00000004: none and hunk 1\n",
    ),
    (
        (13, 1, &[0]),
        "hunk 0 site 00000004: hunk 1 and hunk 0\n",
        "hunk 0 site 00000004: hunk 0 and hunk 1\n",
    ),
    (
        (14, 1, &[3]),
        "hunk 0 site 00000003: none and hunk 1\n",
        "hunk 0 site 00000003: hunk 1 and none\n",
    ),
    (
        (12, 3, &[2, 1, 0, 5]),
        "hunk 0 site 00000000: none and hunk 1\n",
        "hunk 0 site 00000000: hunk 1 and none\n",
    ),
    // A site after the content.
    (
        (12, 3, &[2, 1, 4, 8]),
        "hunk 0 site 00000008: none and hunk 1\n",
        "hunk 0 site 00000008: hunk 1 and none\n",
    ),
    // A byte and a site at one offset, and a byte after a site.
    (
        (10, 4, &[0x0600_0000, 0x3EC, 1, 0]),
        "hunk 0 offset 00000004: 00 and 06\n",
        "hunk 0 offset 00000004: 06 and 00\n",
    ),
    (
        (10, 4, &[6, 0x3EC, 1, 0]),
        "hunk 0 site 00000004: hunk 1 and hunk 0\n",
        "hunk 0 site 00000004: hunk 0 and hunk 1\n",
    ),
];

/// They mean the same, and what only debuggers read is not the same.
static INFOS: [Row; 11] = [
    (
        (18, 1, &[0x6261_7200]),
        "hunk 0 symbol 0: \"foo\" and \"bar\"\n",
        "hunk 0 symbol 0: \"bar\" and \"foo\"\n",
    ),
    (
        (18, 2, &[0x22FF_0000, 8]),
        "hunk 0 symbol 0: \"foo\" and \"\\x22\\xff\"\n",
        "hunk 0 symbol 0: \"\\x22\\xff\" and \"foo\"\n",
    ),
    (
        (19, 1, &[8]),
        "hunk 0 symbol 0: \"foo\" 00000004 and 00000008\n",
        "hunk 0 symbol 0: \"foo\" 00000008 and 00000004\n",
    ),
    (
        (16, 5, &[]),
        "hunk 0 symbol 0: \"foo\" 00000004 and none\n",
        "hunk 0 symbol 0: \"foo\" none and 00000004\n",
    ),
    (
        (20, 0, &[1, 0x6261_7200, 0xFFFF_FFFF]),
        "hunk 0 symbol 1: \"bar\" none and ffffffff\n",
        "hunk 0 symbol 1: \"bar\" ffffffff and none\n",
    ),
    (
        (27, 0, &[0x3F0, 1, 0x4100_0000, 0, 0]),
        "hunk 1 symbol 0: \"A\" none and 00000000\n",
        "hunk 1 symbol 0: \"A\" 00000000 and none\n",
    ),
    ((23, 1, &[0]), "hunk 0 debug 0\n", "hunk 0 debug 0\n"),
    ((21, 3, &[]), "hunk 0 debug 0\n", "hunk 0 debug 0\n"),
    ((24, 0, &[0x3F1, 0]), "hunk 0 debug 1\n", "hunk 0 debug 1\n"),
    ((27, 0, &[0x3F1, 0]), "hunk 1 debug 0\n", "hunk 1 debug 0\n"),
    // A symbol comes before a debug block.
    (
        (16, 8, &[0x3F1, 0]),
        "hunk 0 symbol 0: \"foo\" 00000004 and none\n",
        "hunk 0 symbol 0: \"foo\" none and 00000004\n",
    ),
];

/// The same file: itself; without the zeros at a site; with all zeros; with a short relocation block; with two
/// relocation blocks; and with another number of longwords in the block of the second hunk.
static SAME: [Edit; 6] = [
    (0, 0, &[]),
    (8, 3, &[1, 0x0102_0304]),
    (8, 3, &[3, 0x0102_0304, 0, 0]),
    (11, 5, &[0x3FC, 0x0001_0001, 0x0004_0000]),
    (15, 1, &[0, 0x3EC, 0]),
    (26, 1, &[0]),
];

/// The bytes of the first file with this edit.
fn edited(alloc: Global, edit: Edit) -> Result<Vec<u8>, Fail> {
    let (place, count, others) = edit;
    let rest = FIRST.get(place.saturating_add(count)..);
    let mut words = FIRST.get(..place).ok_or("no such place")?.to_vec(alloc)?;
    words.extend_from_slice(others)?;
    words.extend_from_slice(rest.ok_or("no such place")?)?;
    Ok(bytes_of(alloc, &words, &[])?)
}

/// A comparison of these files ends so, and writes this text.
pub(crate) fn is_compared(
    rt: &impl Abort,
    alloc: Global,
    devices: Devices,
    files: (&[u8], &[u8]),
    with_symbols: bool,
    wanted: Result<bool, ToolFault>,
    text: &[u8],
) -> Result<(), Fail> {
    assert!(rt; 1 <= devices.chunk && 1 <= devices.most);
    let mut first = Pieces::new(files.0.to_vec(alloc)?, devices.chunk, devices.failing.0);
    let mut second = Pieces::new(files.1.to_vec(alloc)?, devices.chunk, devices.failing.1);
    let mut writer = Room::new(alloc, devices.most, devices.room, devices.zero)?;
    let got = compare_run(alloc, &mut first, &mut second, with_symbols, &mut writer);
    equals_at(rt, &(devices, text), got, wanted);
    equals_at(rt, &devices, writer.bytes(), text);
    Ok(())
}

/// They compare so in pieces of each size.
fn compares_to(
    rt: &impl Abort,
    alloc: Global,
    files: (&[u8], &[u8]),
    with_symbols: bool,
    text: &str,
) -> Result<(), Fail> {
    let same = text.is_empty();
    for chunk in CHUNKS {
        let devices = Devices { chunk, ..WHOLE };
        is_compared(
            rt,
            alloc,
            devices,
            files,
            with_symbols,
            Ok(same),
            text.as_bytes(),
        )?;
    }
    Ok(())
}

/// They compare so in both directions.
fn compare_to(
    rt: &impl Abort,
    alloc: Global,
    edit: Edit,
    with_symbols: bool,
    text: &str,
    reverse: &str,
) -> Result<(), Fail> {
    let first = bytes_of(alloc, &FIRST, &[])?;
    let other = edited(alloc, edit)?;
    compares_to(rt, alloc, (&first, &other), with_symbols, text)?;
    compares_to(rt, alloc, (&other, &first), with_symbols, reverse)
}

#[test]
fn tells_where_files_mean_something_else(rt: HostRuntime) -> Result<(), Fail> {
    for &(edit, text, reverse) in &MEANINGS {
        for with_symbols in [false, true] {
            compare_to(&rt, rt.alloc(), edit, with_symbols, text, reverse)?;
        }
    }
    Ok(())
}

#[test]
fn tells_symbols_and_debug_blocks_where_they_count(rt: HostRuntime) -> Result<(), Fail> {
    for &(edit, text, reverse) in &INFOS {
        compare_to(&rt, rt.alloc(), edit, true, text, reverse)?;
        compare_to(&rt, rt.alloc(), edit, false, "", "")?;
    }
    Ok(())
}

#[test]
fn tells_nothing_of_the_same_files(rt: HostRuntime) -> Result<(), Fail> {
    for &edit in &SAME {
        for with_symbols in [false, true] {
            compare_to(&rt, rt.alloc(), edit, with_symbols, "", "")?;
        }
    }
    Ok(())
}

/// Code of no longwords.
const EMPTY: [u32; 9] = [0x3F3, 0, 1, 0, 0, 0, 0x3E9, 0, 0x3F2];

/// Zeros of no longwords, and of one.
const NOTHING: [u32; 9] = [0x3F3, 0, 1, 0, 0, 0, 0x3EB, 0, 0x3F2];

const ZEROS: [u32; 9] = [0x3F3, 0, 1, 0, 0, 1, 0x3EB, 1, 0x3F2];

#[test]
fn compares_hunks_of_no_longwords(rt: HostRuntime) -> Result<(), Fail> {
    let rows: [(&[u32], &[u32], &str); 7] = [
        (&EMPTY, &EMPTY, ""),
        (&NOTHING, &NOTHING, ""),
        (&EMPTY, &NOTHING, "hunk 0 kind: code and bss\n"),
        (&NOTHING, &ZEROS, "hunk 0 size: 0 and 4\n"),
        (&ZEROS, &NOTHING, "hunk 0 size: 4 and 0\n"),
        (&FIRST, &FILE, "hunks: 2 and 1\n"),
        (&EMPTY, &FIRST, "hunks: 1 and 2\n"),
    ];
    for (first, second, text) in rows {
        let first = bytes_of(rt.alloc(), first, &[])?;
        let second = bytes_of(rt.alloc(), second, &[])?;
        compares_to(&rt, rt.alloc(), (&first, &second), true, text)?;
    }
    Ok(())
}
