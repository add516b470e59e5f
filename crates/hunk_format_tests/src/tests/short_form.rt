//! Load files with relocations in 16-bit words, as they are written.

use super::asserts::equals;
use super::loaded::has_bytes;
use super::made::file_of_hunks;
use super::values::{EMPTY, Hunk, has_hunks};
use super::written::{Text, fails_at_each_byte, file_of, is_written_up_to, writes_in_pieces};
use hunk_loader::load;
use hunk_loadfile::{HunkKind, LoadForm, written_bytes, written_length};
use hunk_test_support::words::LINKED;
use hunk_test_support::{BASE, bytes_of};
use std::alloc::{AllocError, Global};
use std::process::Abort;
use std::test::Fail;

/// A hunk of so many longwords without content, its sites in ascending order of offset, and its
/// relocation blocks. Two hunks without longwords follow it.
#[derive(Clone, Copy)]
struct Row<'a> {
    size: u32,
    sites: &'a [(u32, u32)],
    blocks: &'a [u32],
}

/// Sites of one target: an even number of words, and an odd one, with a zero word at the end.
static ONE_TARGET: [Row<'static>; 3] = [
    Row {
        size: 4,
        sites: &[],
        blocks: &[],
    },
    Row {
        size: 4,
        sites: &[(2, 0)],
        blocks: &[0x3FC, 0x0001_0000, 0x0002_0000],
    },
    Row {
        size: 4,
        sites: &[(0, 2), (4, 2)],
        blocks: &[0x3FC, 0x0002_0002, 0x0000_0004, 0],
    },
];

/// Sites of several targets, which are in ascending order. The second one begins in the lower half of
/// a longword, or in the upper one.
static SOME_TARGETS: [Row<'static>; 3] = [
    Row {
        size: 4,
        sites: &[(0, 1), (4, 0)],
        blocks: &[0x3FC, 0x0001_0000, 0x0004_0001, 0x0001_0000, 0],
    },
    Row {
        size: 4,
        sites: &[(0, 0), (4, 0), (8, 1)],
        blocks: &[0x3FC, 0x0002_0000, 0x0000_0004, 0x0001_0001, 0x0008_0000],
    },
    Row {
        size: 5,
        sites: &[(0, 2), (4, 1), (8, 0), (14, 1)],
        blocks: &[
            0x3FC,
            0x0001_0000,
            0x0008_0002,
            0x0001_0004,
            0x000E_0001,
            0x0002_0000,
            0,
        ],
    },
];

/// Offsets up to 65,535 are in the first block, and those from 65,536 on in the second one.
static LARGE_OFFSETS: [Row<'static>; 4] = [
    Row {
        size: 16_385,
        sites: &[(65_535, 1)],
        blocks: &[0x3FC, 0x0001_0001, 0xFFFF_0000],
    },
    Row {
        size: 16_385,
        sites: &[(65_536, 1)],
        blocks: &[0x3EC, 1, 1, 65_536, 0],
    },
    Row {
        size: 16_386,
        sites: &[(65_535, 0), (65_539, 0)],
        blocks: &[0x3FC, 0x0001_0000, 0xFFFF_0000, 0x3EC, 1, 0, 0x0001_0003, 0],
    },
    LONG_AND_SHORT,
];

const LONG_AND_SHORT: Row<'static> = Row {
    size: 16_386,
    sites: &[(0, 2), (4, 0), (65_536, 2), (65_540, 1)],
    blocks: &[
        0x3FC,
        0x0001_0000,
        0x0004_0001,
        0x0002_0000,
        0, //
        0x3EC,
        1,
        1,
        65_540,
        1,
        2,
        65_536,
        0,
    ],
};

/// The hunks of a row.
fn hunks_of_row<'a>(row: &Row<'a>) -> [Hunk<'a>; 3] {
    let first = Hunk {
        size: row.size,
        sites: row.sites,
        ..EMPTY
    };
    let zeros = Hunk {
        kind: HunkKind::Bss,
        ..EMPTY
    };
    [first, zeros, zeros]
}

/// The bytes of the load file of a row.
fn bytes_of_row(alloc: Global, row: &Row<'_>) -> Result<Vec<u8>, AllocError> {
    let front = [0x3F3, 0, 3, 0, 2, row.size, 0, 0, 0x3E9, 0];
    let back = [0x3F2, 0x3EB, 0, 0x3F2, 0x3EB, 0, 0x3F2];
    let words = [front.as_slice(), row.blocks, &back].concat(alloc)?;
    bytes_of(alloc, &words, &[])
}

/// The file is written as these bytes, and its length is known before.
fn is_written_at_once(rt: &impl Abort, alloc: Global, text: Text<'_>) -> Result<(), Fail> {
    let length = text.bytes.len() as u64;
    equals(rt, written_length(alloc, text.file, text.form), Ok(length));
    let written = written_bytes(alloc, text.file, text.form)?;
    equals(rt, written.as_slice(), text.bytes);
    equals(rt, written.capacity(), text.bytes.len());
    Ok(())
}

/// The load file of a row is written in these words, its length is known before, and it is read back.
fn is_written(rt: &impl Abort, alloc: Global, row: &Row<'_>) -> Result<(), Fail> {
    let hunks = hunks_of_row(row);
    let file = file_of_hunks(alloc, &hunks)?;
    let bytes = bytes_of_row(alloc, row)?;
    let text = Text {
        file: &file,
        form: LoadForm::Short,
        bytes: &bytes,
    };
    is_written_at_once(rt, alloc, text)?;
    writes_in_pieces(rt, alloc, text)?;
    has_hunks(rt, &file_of(alloc, bytes)?, &hunks);
    Ok(())
}

/// The load files of these rows are written so.
fn are_written(rt: &impl Abort, alloc: Global, rows: &[Row<'_>]) -> Result<(), Fail> {
    for row in rows {
        is_written(rt, alloc, row)?;
    }
    Ok(())
}

#[test]
fn writes_one_target_or_none(rt: HostRuntime) -> Result<(), Fail> {
    are_written(&rt, rt.alloc(), &ONE_TARGET)
}

#[test]
fn writes_some_targets(rt: HostRuntime) -> Result<(), Fail> {
    are_written(&rt, rt.alloc(), &SOME_TARGETS)
}

#[test]
fn writes_offsets_above_16_bits_in_longwords(rt: HostRuntime) -> Result<(), Fail> {
    are_written(&rt, rt.alloc(), &LARGE_OFFSETS)
}

/// The block of sites in each of 16,384 longwords, which name so many targets in turn.
fn block_of_all(alloc: Global, targets: u32) -> Result<Vec<u32>, AllocError> {
    let mut numbers = Vec::new(alloc);
    for target in 0..targets {
        let mut offsets = Vec::new(alloc);
        for place in 0..16_384u32 {
            if place.checked_rem(targets) == Some(target) {
                offsets.push(4 * place)?;
            }
        }
        numbers.push(u32::try_from(offsets.len()).unwrap_or(0))?;
        numbers.push(target)?;
        numbers.extend_from_slice(&offsets)?;
    }
    numbers.push(0)?;
    let mut block = [0x3FC].to_vec(alloc)?;
    for pair in numbers.chunks(2) {
        match pair {
            [high, low] => block.push((*high << 16) | *low)?,
            [high] => block.push(*high << 16)?,
            _ => {}
        }
    }
    Ok(block)
}

#[test]
fn writes_16_384_sites(rt: HostRuntime) -> Result<(), Fail> {
    for (targets, longwords) in [(1, 8_195), (3, 8_197)] {
        let mut sites = Vec::new(rt.alloc());
        for place in 0..16_384u32 {
            sites.push((4 * place, place.checked_rem(targets).unwrap_or(0)))?;
        }
        let blocks = block_of_all(rt.alloc(), targets)?;
        equals(&rt, blocks.len(), longwords);
        let row = Row {
            size: 16_384,
            sites: &sites,
            blocks: &blocks,
        };
        is_written(&rt, rt.alloc(), &row)?;
    }
    Ok(())
}

/// The linked file of most tests, in this form.
static LINKED_SHORT: [u32; 20] = [
    0x3F3,
    0,
    2,
    0,
    1,
    2,
    2, //
    0x3E9,
    2,
    0x4EB9_0000,
    0x0004_4E75,
    0x3FC,
    0x0001_0001,
    0x0002_0000,
    0x3F2, //
    0x3E9,
    2,
    0x4E71_4E71,
    0x4E75_4E71,
    0x3F2,
];

#[test]
fn writes_a_linked_file(rt: HostRuntime) -> Result<(), Fail> {
    let file = file_of(rt.alloc(), bytes_of(rt.alloc(), &LINKED, &[])?)?;
    let bytes = bytes_of(rt.alloc(), &LINKED_SHORT, &[])?;
    let text = Text {
        file: &file,
        form: LoadForm::Short,
        bytes: &bytes,
    };
    writes_in_pieces(&rt, rt.alloc(), text)
}

#[test]
fn tells_what_a_writer_took_of_each_block(rt: HostRuntime) -> Result<(), Fail> {
    for row in [SOME_TARGETS[2], LONG_AND_SHORT] {
        let file = file_of_hunks(rt.alloc(), &hunks_of_row(&row))?;
        let bytes = bytes_of_row(rt.alloc(), &row)?;
        let text = Text {
            file: &file,
            form: LoadForm::Short,
            bytes: &bytes,
        };
        fails_at_each_byte(&rt, rt.alloc(), text)?;
    }
    Ok(())
}

/// The header and the type and size of the first hunk are written whichever allocation fails.
#[test]
fn sorts_both_blocks_before_it_writes_them(rt: HostRuntime) -> Result<(), Fail> {
    let bytes = bytes_of_row(rt.alloc(), &LONG_AND_SHORT)?;
    is_written_up_to(&rt, rt.alloc(), LoadForm::Short, &bytes, 40, 2)
}

/// A trimmed load file in each form: its longwords from the first hunk on.
fn is_trimmed_to(
    rt: &impl Abort,
    alloc: Global,
    words: &[u32],
    plain: &[u32],
    short: &[u32],
) -> Result<(), Fail> {
    let file = file_of(alloc, bytes_of(alloc, words, &[])?)?.trimmed();
    for (form, wanted) in [(LoadForm::Plain, plain), (LoadForm::Short, short)] {
        let bytes = bytes_of(alloc, wanted, &[])?;
        let text = Text {
            file: &file,
            form,
            bytes: &bytes,
        };
        writes_in_pieces(rt, alloc, text)?;
    }
    Ok(())
}

#[test]
fn writes_trimmed_files(rt: HostRuntime) -> Result<(), Fail> {
    let alloc = rt.alloc();
    let calls = [
        0x3F3,
        0,
        1,
        0,
        0,
        4,
        0x3E9,
        4,
        0x4E71_4E71,
        0,
        0,
        0,
        0x3EC,
        1,
        0,
        6,
        0,
        0x3F2,
    ];
    let plain = [
        0x3F3,
        0,
        1,
        0,
        0,
        4,
        0x3E9,
        3,
        0x4E71_4E71,
        0,
        0,
        0x3EC,
        1,
        0,
        6,
        0,
        0x3F2,
    ];
    let short = [
        0x3F3,
        0,
        1,
        0,
        0,
        4,
        0x3E9,
        3,
        0x4E71_4E71,
        0,
        0,
        0x3FC,
        0x0001_0000,
        0x0006_0000,
        0x3F2,
    ];
    is_trimmed_to(&rt, alloc, &calls, &plain, &short)?;
    for words in [calls.as_slice(), &plain, &short] {
        let file = file_of(alloc, bytes_of(alloc, words, &[])?)?;
        let bytes = [0x4E, 0x71, 0x4E, 0x71, 0, 0, 0, 1, 0, 0, 0, 0, 0, 0, 0, 0];
        has_bytes(&rt, &load(alloc, &file, &[BASE])?, &[BASE], &[&bytes]);
    }
    let zero = [0x3F3, 0, 1, 0, 0, 1, 0x3E9, 1, 0, 0x3F2];
    let empty = [0x3F3, 0, 1, 0, 0, 1, 0x3E9, 0, 0x3F2];
    is_trimmed_to(&rt, alloc, &zero, &empty, &empty)
}
