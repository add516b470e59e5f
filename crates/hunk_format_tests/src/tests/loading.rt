//! Load files that are made of hunks, in memory.

use super::asserts::{equals, holds};
use super::loaded::has_bytes;
use super::made::file_of_hunks;
use super::values::{EMPTY, Hunk};
use hunk_loader::{LoadRefusal, PlaceFault, load, load_file};
use std::test::Fail;

/// Code of so many longwords, its content and its sites.
fn code<'a>(size: u32, content: &'a [u8], sites: &'a [(u32, u32)]) -> Hunk<'a> {
    Hunk {
        size,
        content,
        sites,
        ..EMPTY
    }
}

#[test]
fn fills_with_zeros_and_relocates_them(rt: HostRuntime) -> Result<(), Fail> {
    let alloc = rt.alloc();
    let content = [0x4E, 0x75, 0x4E, 0x71];
    let file = file_of_hunks(alloc, &[code(3, &content, &[(8, 0)])])?;
    let image = load(alloc, &file, &[0x0001_0000])?;
    let want = [0x4E, 0x75, 0x4E, 0x71, 0, 0, 0, 0, 0, 1, 0, 0];
    for (base, bytes) in image.hunks() {
        equals(&rt, *base, 0x0001_0000);
        equals(&rt, bytes.as_slice(), want.as_slice());
    }
    equals(&rt, image.byte(0x0001_0009), Some(1));
    equals(&rt, image.byte(0x0000_FFFF), None);
    equals(&rt, image.byte(0x0001_000C), None);
    Ok(())
}

#[test]
fn adds_the_bases_of_later_hunks(rt: HostRuntime) -> Result<(), Fail> {
    let alloc = rt.alloc();
    let bases = [0x0001_0000, 0x0002_0000, 0x0003_0000];
    let wrapping = [0x4E, 0xB9, 0xFF, 0xFF, 0xFF, 0xFE, 0x4E, 0x75];
    let hunks = [
        code(2, &wrapping, &[(2, 1)]),
        code(1, &[0, 0, 0, 8], &[(0, 2)]),
        code(0, &[], &[]),
    ];
    let image = load(alloc, &file_of_hunks(alloc, &hunks)?, &bases)?;
    let wants: [&[u8]; 3] = [
        &[0x4E, 0xB9, 0, 1, 0xFF, 0xFE, 0x4E, 0x75],
        &[0, 3, 0, 8],
        &[],
    ];
    has_bytes(&rt, &image, &bases, &wants);
    Ok(())
}

#[test]
fn refuses_addresses_that_do_not_hold_the_hunks(rt: HostRuntime) -> Result<(), Fail> {
    let alloc = rt.alloc();
    let file = file_of_hunks(alloc, &[code(2, &[], &[])])?;
    let rows: [(&[u32], PlaceFault); 2] = [
        (&[], PlaceFault::WrongCount),
        (&[0xFFFF_FFFC], PlaceFault::PastEnd(0)),
    ];
    for (bases, want) in rows {
        match load(alloc, &file, bases) {
            Ok(_) => holds(&rt, &("loaded at", bases), false),
            Err(refusal) => equals(&rt, refusal, LoadRefusal::Place(want)),
        }
    }
    Ok(())
}

#[test]
fn moves_content_and_relocates_the_zeros_after_it(rt: HostRuntime) -> Result<(), Fail> {
    let alloc = rt.alloc();
    let bases = [0x0001_0000, 0x0002_0000, 0x0003_0000];
    let hunks = [
        code(3, &[0x4E, 0x75, 0x4E, 0x71], &[(8, 1)]),
        code(2, &[0, 0, 0, 8], &[(0, 0), (4, 2)]),
        code(0, &[], &[]),
    ];
    let image = load_file(alloc, file_of_hunks(alloc, &hunks)?, &bases)?;
    let wants: [&[u8]; 3] = [
        &[0x4E, 0x75, 0x4E, 0x71, 0, 0, 0, 0, 0, 2, 0, 0],
        &[0, 1, 0, 8, 0, 3, 0, 0],
        &[],
    ];
    has_bytes(&rt, &image, &bases, &wants);
    equals(&rt, image.byte(0x0001_0009), Some(2));
    equals(&rt, image.byte(0x0001_000C), None);
    Ok(())
}

#[test]
fn moves_nothing_to_addresses_that_do_not_hold_the_hunks(rt: HostRuntime) -> Result<(), Fail> {
    let alloc = rt.alloc();
    let rows: [(&[u32], PlaceFault); 3] = [
        (&[0x1000], PlaceFault::WrongCount),
        (&[0x1000, 0xFFFF_FFFC], PlaceFault::PastEnd(1)),
        (&[0x1000, 0x1004], PlaceFault::Overlap(0, 1)),
    ];
    let hunks = [code(2, &[0, 0, 0, 8], &[(4, 1)]), code(2, &[], &[])];
    for (bases, want) in rows {
        match load_file(alloc, file_of_hunks(alloc, &hunks)?, bases) {
            Ok(_) => holds(&rt, &("loaded at", bases), false),
            Err(refusal) => equals(&rt, refusal, LoadRefusal::Place(want)),
        }
    }
    Ok(())
}
