//! Load files that are compared, that are stripped, and in normal form.

use super::asserts::{equals, equals_at};
use super::made::{file_of_hunks, file_of_parts, hunk_with};
use super::values::{EMPTY, Hunk, has_hunks};
use hunk_loadfile::{
    Difference, HunkKind, InfoDifference, LoadFile, Memory, first_difference, first_info_difference,
};
use hunk_test_support::Refusing;
use std::alloc::{Allocator, Global};
use std::process::Abort;
use std::test::Fail;

/// Code of three longwords: the file has two of them, and the second one is zero and has a site.
const CODE: Hunk<'static> = Hunk {
    memory: Memory::Chip,
    size: 3,
    content: &[1, 2, 3, 4, 0, 0, 0, 0],
    sites: &[(4, 1)],
    ..EMPTY
};

const BSS: Hunk<'static> = Hunk {
    kind: HunkKind::Bss,
    size: 1,
    ..EMPTY
};

/// Code that is compared with the first one, and where it differs.
static ROWS: [(Hunk<'static>, Option<Difference>); 12] = [
    (CODE, None),
    // Zeros are in the file or after its content, at a site too.
    (
        Hunk {
            content: &[1, 2, 3, 4, 0, 0, 0, 0, 0, 0, 0, 0],
            ..CODE
        },
        None,
    ),
    (
        Hunk {
            content: &[1, 2, 3, 4],
            ..CODE
        },
        None,
    ),
    (
        Hunk {
            kind: HunkKind::Data,
            memory: Memory::Any,
            ..CODE
        },
        Some(Difference::Kind {
            hunk: 0,
            first: HunkKind::Code,
            second: HunkKind::Data,
        }),
    ),
    (
        Hunk {
            memory: Memory::Fast,
            size: 4,
            ..CODE
        },
        Some(Difference::Memory {
            hunk: 0,
            first: Memory::Chip,
            second: Memory::Fast,
        }),
    ),
    (
        Hunk {
            size: 4,
            content: &[9, 2, 3, 4],
            ..CODE
        },
        Some(Difference::Size {
            hunk: 0,
            first: 3,
            second: 4,
        }),
    ),
    // A byte of both contents, and one after the shorter content.
    (
        Hunk {
            content: &[1, 2, 3, 5, 0, 0, 0, 0],
            sites: &[],
            ..CODE
        },
        Some(Difference::Byte {
            hunk: 0,
            offset: 3,
            first: 4,
            second: 5,
        }),
    ),
    (
        Hunk {
            content: &[1, 2, 3, 4, 0, 0, 0, 0, 0, 0, 0, 7],
            ..CODE
        },
        Some(Difference::Byte {
            hunk: 0,
            offset: 11,
            first: 0,
            second: 7,
        }),
    ),
    // A byte and a site at one offset.
    (
        Hunk {
            content: &[1, 2, 3, 4, 6, 0, 0, 0],
            sites: &[],
            ..CODE
        },
        Some(Difference::Byte {
            hunk: 0,
            offset: 4,
            first: 0,
            second: 6,
        }),
    ),
    // A site with another target, one that is missing, and one that comes before.
    (
        Hunk {
            sites: &[(4, 0)],
            ..CODE
        },
        Some(Difference::Site {
            hunk: 0,
            offset: 4,
            first: Some(1),
            second: Some(0),
        }),
    ),
    (
        Hunk {
            content: &[1, 2, 3, 4, 0, 0, 0, 0, 8, 0, 0, 0],
            sites: &[(8, 1)],
            ..CODE
        },
        Some(Difference::Site {
            hunk: 0,
            offset: 4,
            first: Some(1),
            second: None,
        }),
    ),
    (
        Hunk {
            sites: &[(3, 1), (8, 0)],
            ..CODE
        },
        Some(Difference::Site {
            hunk: 0,
            offset: 3,
            first: None,
            second: Some(1),
        }),
    ),
];

#[test]
fn tells_the_first_difference(rt: HostRuntime) -> Result<(), Fail> {
    let alloc = rt.alloc();
    let file = file_of_hunks(alloc, &[CODE, BSS])?;
    for (code, wanted) in &ROWS {
        let other = file_of_hunks(alloc, &[*code, BSS])?;
        equals_at(&rt, &code, first_difference(&file, &other), *wanted);
    }
    Ok(())
}

#[test]
fn tells_the_hunk_that_differs(rt: HostRuntime) -> Result<(), Fail> {
    let alloc = rt.alloc();
    let file = file_of_hunks(alloc, &[CODE, BSS])?;
    let longer = file_of_hunks(alloc, &[CODE, BSS, BSS])?;
    let wanted = Difference::HunkCount {
        first: 2,
        second: 3,
    };
    equals(&rt, first_difference(&file, &longer), Some(wanted));
    let second = file_of_hunks(alloc, &[CODE, Hunk { size: 2, ..BSS }])?;
    let wanted = Difference::Size {
        hunk: 1,
        first: 1,
        second: 2,
    };
    equals(&rt, first_difference(&file, &second), Some(wanted));
    Ok(())
}

/// The file of the code and the zeros, each with these symbols and these debug blocks.
fn file_with<A: Allocator + Copy>(
    alloc: A,
    symbols: &[(u32, u32)],
    debugs: &[&[u32]],
) -> Result<LoadFile<A>, Fail> {
    let mut hunks = Vec::new(alloc);
    for row in [CODE, BSS] {
        hunks.push(hunk_with(alloc, &row, symbols, debugs)?)?;
    }
    file_of_parts(hunks)
}

/// The names `A` and `B`, as longwords.
const A: u32 = 0x4100_0000;

const B: u32 = 0x4200_0000;

/// Where the file with the symbols A and B and one debug block first differs from this one.
fn info_difference(
    rt: &impl Abort,
    alloc: Global,
    symbols: &[(u32, u32)],
    debugs: &[&[u32]],
) -> Result<Option<InfoDifference>, Fail> {
    let file = file_with(alloc, &[(A, 2), (B, 4)], &[&[7, 0]])?;
    let other = file_with(alloc, symbols, debugs)?;
    assert!(rt; file.hunks().len() == other.hunks().len());
    Ok(first_info_difference(&file, &other))
}

#[test]
fn tells_the_first_symbol_or_debug_block(rt: HostRuntime) -> Result<(), Fail> {
    let alloc = rt.alloc();
    let symbol = |index| Some(InfoDifference::Symbol { hunk: 0, index });
    let debug = |index| Some(InfoDifference::Debug { hunk: 0, index });
    let both: [(u32, u32); 2] = [(A, 2), (B, 4)];
    let block: [&[u32]; 1] = [&[7, 0]];
    equals(&rt, info_difference(&rt, alloc, &both, &block)?, None);
    // Another name, another value, one symbol less, and one more.
    equals(
        &rt,
        info_difference(&rt, alloc, &[(B, 2), (B, 4)], &block)?,
        symbol(0),
    );
    equals(
        &rt,
        info_difference(&rt, alloc, &[(A, 2), (B, 5)], &[])?,
        symbol(1),
    );
    equals(
        &rt,
        info_difference(&rt, alloc, &[(A, 2)], &block)?,
        symbol(1),
    );
    equals(
        &rt,
        info_difference(&rt, alloc, &[(A, 2), (B, 4), (A, 2)], &block)?,
        symbol(2),
    );
    // Another block, none, and one more.
    equals(
        &rt,
        info_difference(&rt, alloc, &both, &[&[7, 1]])?,
        debug(0),
    );
    equals(&rt, info_difference(&rt, alloc, &both, &[])?, debug(0));
    equals(
        &rt,
        info_difference(&rt, alloc, &both, &[&[7, 0], &[]])?,
        debug(1),
    );
    Ok(())
}

/// Leaves out of the file what means nothing, at an allocator that counts in `heap`.
fn leaves_out<A: Allocator + Copy>(rt: &impl Abort, heap: &Refusing, alloc: A) -> Result<(), Fail> {
    let (stripped, normal) = (
        file_with(alloc, &[(A, 2)], &[&[7, 0]])?,
        file_with(alloc, &[(A, 2)], &[&[7, 0]])?,
    );
    let asked = heap.asked();
    let (stripped, normal) = (stripped.stripped(), normal.normal_form());
    let same = first_difference(&stripped, &normal).is_none();
    // None of them takes memory.
    equals(rt, heap.asked(), asked);
    equals(rt, same, true);
    has_hunks(rt, &stripped, &[CODE, BSS]);
    let cut = Hunk {
        content: &[1, 2, 3, 4],
        ..CODE
    };
    has_hunks(rt, &normal, &[cut, BSS]);
    Ok(())
}

#[test]
fn leaves_out_what_means_nothing(rt: HostRuntime) -> Result<(), Fail> {
    let heap = Refusing::new(rt.alloc(), u64::MAX);
    leaves_out(&rt, &heap, &heap)
}
