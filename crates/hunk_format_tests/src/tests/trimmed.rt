//! Load files without the zeros at the end of contents.

use super::asserts::{equals, equals_at};
use super::loaded::has_bytes;
use super::made::{file_of_hunks, file_of_parts, hunk_with};
use super::values::{EMPTY, Hunk, has_hunks, is_hunk};
use hunk_loader::load;
use hunk_loadfile::{HunkKind, LoadFile, LoadHunk, Memory};
use hunk_test_support::Refusing;
use std::alloc::{Allocator, Global};
use std::process::Abort;
use std::test::Fail;

/// A hunk: its size in longwords, its content, its site if it has one, which adds the base of the
/// first hunk, and how many bytes of the content stay.
#[derive(Clone, Copy, Debug)]
struct Row<'a> {
    kind: HunkKind,
    size: u32,
    content: &'a [u8],
    sites: &'a [(u32, u32)],
    kept: usize,
}

const CODE: Row<'static> = Row {
    kind: HunkKind::Code,
    size: 4,
    content: &[0x4E, 0x71, 0x4E, 0x71, 0, 0, 0, 0, 0, 0, 0, 0, 0, 0, 0, 0],
    sites: &[],
    kept: 4,
};

/// A content of zeros alone.
const ZEROS: Row<'static> = Row {
    kind: HunkKind::Data,
    size: 2,
    content: &[0; 8],
    kept: 0,
    ..CODE
};

/// A content with a zero longword in its middle.
const GAP: Row<'static> = Row {
    size: 3,
    content: &[1, 0, 0, 0, 0, 0, 0, 0, 2, 0, 0, 0],
    kept: 12,
    ..CODE
};

/// A content that is shorter than its hunk.
const SHORT: Row<'static> = Row {
    size: 3,
    content: &[1, 0, 0, 0, 0, 0, 0, 0],
    kept: 4,
    ..CODE
};

static ROWS: [Row<'static>; 13] = [
    CODE,
    // A site is in one zero longword, or in two of them.
    Row {
        sites: &[(4, 0)],
        kept: 8,
        ..CODE
    },
    Row {
        sites: &[(6, 0)],
        kept: 12,
        ..CODE
    },
    // It is in longwords that stay, or in the last ones.
    Row {
        sites: &[(0, 0)],
        ..CODE
    },
    Row {
        sites: &[(12, 0)],
        kept: 16,
        ..CODE
    },
    ZEROS,
    Row {
        sites: &[(0, 0)],
        kept: 4,
        ..ZEROS
    },
    Row {
        content: &[],
        ..ZEROS
    },
    Row {
        kind: HunkKind::Bss,
        content: &[],
        sites: &[(4, 0)],
        ..ZEROS
    },
    GAP,
    // One byte of a longword is not zero: the first, or the last.
    Row {
        content: &[0, 0, 0, 0, 0, 0, 0, 1, 0, 0, 0, 0],
        kept: 8,
        ..GAP
    },
    // A site is after the content, or begins in it and ends after it.
    Row {
        sites: &[(8, 0)],
        ..SHORT
    },
    Row {
        sites: &[(6, 0)],
        kept: 8,
        ..SHORT
    },
];

/// The hunk of a row.
fn hunk_of_row<'a>(row: &Row<'a>) -> Hunk<'a> {
    Hunk {
        kind: row.kind,
        memory: Memory::Chip,
        size: row.size,
        content: row.content,
        sites: row.sites,
        ..EMPTY
    }
}

/// The load file of the rows.
fn file_of_rows<A: Allocator + Copy>(alloc: A, rows: &[Row]) -> Result<LoadFile<A>, Fail> {
    let mut hunks = Vec::new(alloc);
    for row in rows {
        hunks.push(hunk_of_row(row))?;
    }
    file_of_hunks(alloc, &hunks)
}

/// The hunk is that of the row, with this much of its content.
fn is_row<A: Allocator + Copy>(rt: &impl Abort, hunk: &LoadHunk<A>, row: &Row) {
    let content = hunk.content.as_slice();
    equals_at(rt, &row, Some(content), row.content.get(..row.kept));
    // All else is as it was.
    let wanted = Hunk {
        content,
        ..hunk_of_row(row)
    };
    is_hunk(rt, hunk, &wanted);
}

/// The hunks are those of the rows, with this much of each content.
fn are_rows<A: Allocator + Copy>(rt: &impl Abort, hunks: &[LoadHunk<A>], rows: &[Row]) {
    equals(rt, hunks.len(), rows.len());
    for (index, row) in rows.iter().enumerate() {
        if let Some(hunk) = hunks.get(index) {
            is_row(rt, hunk, row);
        }
    }
}

#[test]
fn keeps_whole_longwords_up_to_the_last_byte_or_site(rt: HostRuntime) -> Result<(), Fail> {
    let rows = ROWS.as_slice();
    let file = file_of_rows(rt.alloc(), rows)?.trimmed();
    are_rows(&rt, file.hunks(), rows);
    // There is nothing more to cut.
    are_rows(&rt, file.trimmed().hunks(), rows);
    Ok(())
}

#[test]
fn trims_each_hunk_alone(rt: HostRuntime) -> Result<(), Fail> {
    for row in &ROWS {
        let rows = [*row];
        are_rows(
            &rt,
            file_of_rows(rt.alloc(), &rows)?.trimmed().hunks(),
            &rows,
        );
    }
    Ok(())
}

#[test]
fn keeps_symbols_and_debug_blocks(rt: HostRuntime) -> Result<(), Fail> {
    let alloc = rt.alloc();
    let debugs: [&[u32]; 1] = [&[7, 0]];
    let hunk = hunk_with(alloc, &hunk_of_row(&CODE), &[(0x4100_0000, 8)], &debugs)?;
    let mut hunks = Vec::new(alloc);
    hunks.push(hunk)?;
    let wanted = Hunk {
        content: &[0x4E, 0x71, 0x4E, 0x71],
        symbols: &[(b"A", 8)],
        debugs: &[&[7, 0]],
        ..hunk_of_row(&CODE)
    };
    has_hunks(&rt, &file_of_parts(hunks)?.trimmed(), &[wanted]);
    Ok(())
}

/// The addresses at which the rows are loaded: one for each, 64 KiB apart.
fn bases_of(alloc: Global, rows: &[Row]) -> Result<Vec<u32>, Fail> {
    let mut bases = Vec::new(alloc);
    let mut base = 0x0001_0000u32;
    for _ in rows {
        bases.push(base)?;
        base = base.wrapping_add(0x0001_0000);
    }
    Ok(bases)
}

/// The rows have the same bytes in memory, trimmed or not.
fn are_alike(rt: &impl Abort, whole: &[(u32, Vec<u8>)], trimmed: &[(u32, Vec<u8>)], rows: &[Row]) {
    equals(rt, whole.len(), rows.len());
    equals(rt, trimmed.len(), rows.len());
    for (index, row) in rows.iter().enumerate() {
        if let (Some(one), Some(other)) = (whole.get(index), trimmed.get(index)) {
            equals_at(rt, &row, one.0, other.0);
            equals_at(rt, &row, one.1.as_slice(), other.1.as_slice());
            equals_at(rt, &row, other.1.len() as u64, 4 * u64::from(row.size));
        }
    }
}

#[test]
fn is_the_same_in_memory(rt: HostRuntime) -> Result<(), Fail> {
    let (alloc, rows) = (rt.alloc(), ROWS.as_slice());
    let bases = bases_of(alloc, rows)?;
    let whole = load(alloc, &file_of_rows(alloc, rows)?, &bases)?;
    let trimmed = load(alloc, &file_of_rows(alloc, rows)?.trimmed(), &bases)?;
    are_alike(&rt, whole.hunks(), trimmed.hunks(), rows);
    Ok(())
}

#[test]
fn relocates_zeros_that_stay_and_zeros_that_do_not(rt: HostRuntime) -> Result<(), Fail> {
    let alloc = rt.alloc();
    let inside = Row {
        sites: &[(6, 0)],
        ..CODE
    };
    let behind = Row {
        sites: &[(8, 0)],
        ..SHORT
    };
    let rows: [(Row, &[u8]); 2] = [
        (
            inside,
            &[0x4E, 0x71, 0x4E, 0x71, 0, 0, 0, 1, 0, 0, 0, 0, 0, 0, 0, 0],
        ),
        (behind, &[1, 0, 0, 0, 0, 0, 0, 0, 0, 1, 0, 0]),
    ];
    for (row, want) in rows {
        let file = file_of_rows(alloc, &[row])?.trimmed();
        has_bytes(
            &rt,
            &load(alloc, &file, &[0x0001_0000])?,
            &[0x0001_0000],
            &[want],
        );
    }
    Ok(())
}

/// Trims the file of the rows, at an allocator that counts in `heap`.
fn trims_in_place<A: Allocator + Copy>(
    rt: &impl Abort,
    heap: &Refusing,
    alloc: A,
    rows: &[Row],
) -> Result<(), Fail> {
    let file = file_of_rows(alloc, rows)?;
    let asked = heap.asked();
    let trimmed = file.trimmed();
    equals(rt, heap.asked(), asked);
    are_rows(rt, trimmed.hunks(), rows);
    Ok(())
}

#[test]
fn takes_no_memory(rt: HostRuntime) -> Result<(), Fail> {
    let heap = Refusing::new(rt.alloc(), u64::MAX);
    trims_in_place(&rt, &heap, &heap, ROWS.as_slice())
}
