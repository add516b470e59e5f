//! Links that keep the names of definitions.

use super::answers::{bytes_of, is_file, units_of};
use super::asserts::{equals_at, holds};
use super::choices::{PLAIN, SHORT, STRIP, STRIP_TRIM, TRIM};
use super::hashers::Alike;
use super::runs::{Run, writes};
use hunk_link::{NameHasher, link_units};
use hunk_loadfile::{LoadForm, write_load_with};
use hunk_objects::{ProgramUnit, with_globals};
use hunk_origins::link_files;
use hunk_test_support::{KEY, Refusing};
use hunk_tool::LinkOptions;
use hunk_words::{Pieces, Room};
use std::alloc::{AllocError, Global};
use std::process::Abort;
use std::test::Fail;

/// More allocations than the calls of these tests make.
const MOST_GROWTHS: u64 = 64;

/// Two units. The first one has code with the symbols `foo` at 2 and `bar` at 4 and a debug block, which
/// defines `foo` and `bar` at 4, `baz` as the number 7, and `far` past its end; and a BSS that defines
/// `roomname` at its start. The second one has data that ends with a zero, and defines `b` and `a`.
static OBJECT: [u32; 56] = [
    999, 0, 0x3E9, 2, 0x4E714E71, 0x4E754E71, //
    0x3EF, 0x01000001, 0x666F6F00, 4, 0x01000001, 0x62617200, 4, //
    0x02000001, 0x62617A00, 7, 0x01000001, 0x66617200, 0x100, 0, //
    0x3F0, 1, 0x666F6F00, 2, 1, 0x62617200, 4, 0, 0x3F1, 1, 13, 0x3F2, //
    0x3EB, 1, 0x3EF, 0x01000002, 0x726F6F6D, 0x6E616D65, 0, 0, 0x3F2, //
    999, 0, 0x3EA, 2, 5, 0, //
    0x3EF, 0x01000001, 0x62000000, 0xFFFFFFFF, 0x01000001, 0x61000000, 1, 0, 0x3F2,
];

/// Its load file with the offsets as symbols: `foo` has another value than the symbol, and `bar` is there.
static LINKED: [u32; 52] = [
    0x3F3, 0, 3, 0, 2, 2, 1, 2, //
    0x3E9, 2, 0x4E714E71, 0x4E754E71, //
    0x3F0, 1, 0x666F6F00, 2, 1, 0x62617200, 4, 1, 0x666F6F00, 4, 1, 0x66617200, 0x100, 0, //
    0x3F1, 1, 13, 0x3F2, //
    0x3EB, 1, 0x3F0, 2, 0x726F6F6D, 0x6E616D65, 0, 0, 0x3F2, //
    0x3EA, 2, 5, 0, //
    0x3F0, 1, 0x62000000, 0xFFFFFFFF, 1, 0x61000000, 1, 0, 0x3F2,
];

/// The same, trimmed.
static TRIMMED: [u32; 51] = [
    0x3F3, 0, 3, 0, 2, 2, 1, 2, //
    0x3E9, 2, 0x4E714E71, 0x4E754E71, //
    0x3F0, 1, 0x666F6F00, 2, 1, 0x62617200, 4, 1, 0x666F6F00, 4, 1, 0x66617200, 0x100, 0, //
    0x3F1, 1, 13, 0x3F2, //
    0x3EB, 1, 0x3F0, 2, 0x726F6F6D, 0x6E616D65, 0, 0, 0x3F2, //
    0x3EA, 1, 5, //
    0x3F0, 1, 0x62000000, 0xFFFFFFFF, 1, 0x61000000, 1, 0, 0x3F2,
];

/// Without the symbols and debug blocks of the units.
static STRIPPED: [u32; 46] = [
    0x3F3, 0, 3, 0, 2, 2, 1, 2, //
    0x3E9, 2, 0x4E714E71, 0x4E754E71, //
    0x3F0, 1, 0x666F6F00, 4, 1, 0x62617200, 4, 1, 0x66617200, 0x100, 0, 0x3F2, //
    0x3EB, 1, 0x3F0, 2, 0x726F6F6D, 0x6E616D65, 0, 0, 0x3F2, //
    0x3EA, 2, 5, 0, //
    0x3F0, 1, 0x62000000, 0xFFFFFFFF, 1, 0x61000000, 1, 0, 0x3F2,
];

/// And trimmed.
static STRIPPED_TRIMMED: [u32; 45] = [
    0x3F3, 0, 3, 0, 2, 2, 1, 2, //
    0x3E9, 2, 0x4E714E71, 0x4E754E71, //
    0x3F0, 1, 0x666F6F00, 4, 1, 0x62617200, 4, 1, 0x66617200, 0x100, 0, 0x3F2, //
    0x3EB, 1, 0x3F0, 2, 0x726F6F6D, 0x6E616D65, 0, 0, 0x3F2, //
    0x3EA, 1, 5, //
    0x3F0, 1, 0x62000000, 0xFFFFFFFF, 1, 0x61000000, 1, 0, 0x3F2,
];

#[test]
fn keeps_definitions_as_symbols(rt: HostRuntime) -> Result<(), Fail> {
    let alloc = rt.alloc();
    let rows: [(LinkOptions, &[u32]); 5] = [
        (PLAIN, &LINKED),
        (SHORT, &LINKED),
        (TRIM, &TRIMMED),
        (STRIP, &STRIPPED),
        (STRIP_TRIM, &STRIPPED_TRIMMED),
    ];
    for (options, linked) in rows {
        let bytes = bytes_of(alloc, linked)?;
        let run = Run::LinkGlobals { options };
        writes(&rt, alloc, &[&OBJECT], run, 5, &bytes)?;
        let run = Run::LinkGlobalsToVec { options };
        writes(&rt, alloc, &[&OBJECT], run, 4096, &bytes)?;
    }
    Ok(())
}

/// The load file of which a map tells.
#[test]
fn keeps_them_beside_a_map(rt: HostRuntime) -> Result<(), Fail> {
    let alloc = rt.alloc();
    let rows: [(bool, &[u32]); 2] = [(false, &LINKED), (true, &STRIPPED)];
    for (strip, linked) in rows {
        let mut inputs = Vec::new(alloc);
        let input = Pieces::new(bytes_of(alloc, &OBJECT)?, 4096, None);
        inputs.push(input).map_err(AllocError::from)?;
        let hasher = NameHasher::new(KEY);
        let (_, file) = link_files(alloc, &mut inputs, strip, true, hasher)?;
        is_file(&rt, alloc, alloc, &file, LoadForm::Plain, linked)?;
    }
    Ok(())
}

/// Also if all names have the same hash.
#[test]
fn makes_symbols_with_any_hasher(rt: HostRuntime) -> Result<(), Fail> {
    let alloc = rt.alloc();
    let rows: [(bool, &[u32]); 2] = [(false, &LINKED), (true, &STRIPPED)];
    for (strip, linked) in rows {
        let units = units_of(alloc, alloc, &[&OBJECT])?;
        let alike = with_globals(alloc, units, strip, Alike)?;
        is_linked(&rt, alloc, alike, linked)?;
        let units = units_of(alloc, alloc, &[&OBJECT])?;
        let hashed = with_globals(alloc, units, strip, NameHasher::new(KEY))?;
        is_linked(&rt, alloc, hashed, linked)?;
    }
    Ok(())
}

/// The units link to this file.
fn is_linked(
    rt: &impl Abort,
    alloc: Global,
    units: Vec<ProgramUnit>,
    linked: &[u32],
) -> Result<(), Fail> {
    match link_units(alloc, units, false) {
        Ok(file) => is_file(rt, alloc, alloc, &file, LoadForm::Plain, linked),
        Err(refusal) => {
            holds(rt, &refusal, false);
            Ok(())
        }
    }
}

#[test]
fn refuses_each_growth_of_symbols(rt: HostRuntime) -> Result<(), Fail> {
    let alloc = rt.alloc();
    let unlimited = Refusing::new(alloc, u64::MAX);
    let _units = units_of(alloc, &unlimited, &[&OBJECT])?;
    let read = unlimited.asked();
    for growth in 0..MOST_GROWTHS {
        let refused = read.saturating_add(growth);
        let heap = Refusing::new(alloc, refused);
        let units = units_of(alloc, &heap, &[&OBJECT])?;
        let made = with_globals(&heap, units, false, Alike);
        equals_at(&rt, &growth, refused < heap.asked(), made.is_err());
        if let Ok(units) = made {
            holds(&rt, &growth, 8 <= growth);
            let Ok(file) = link_units(&heap, units, false) else {
                return Ok(());
            };
            let bytes = bytes_of(alloc, &LINKED)?;
            let mut writer = Room::new(alloc, 4096, bytes.len(), false)?;
            let got = write_load_with(&heap, &file, LoadForm::Plain, &mut writer);
            equals_at(&rt, &growth, got, Ok(()));
            equals_at(&rt, &growth, writer.bytes(), bytes.as_slice());
            return Ok(());
        }
    }
    holds(&rt, &"it succeeds in the end", false);
    Ok(())
}
