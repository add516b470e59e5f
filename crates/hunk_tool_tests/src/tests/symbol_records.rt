//! The symbols of load files and of object files before their S-records.

use super::asserts::{equals, equals_at, holds};
use super::devices::{Devices, WHOLE, short_of};
use super::memory::{MOST_GROWTHS, is_done};
use super::symbols::{LONG_NAMED, NAMED, SEVERAL};
use hunk_link::LinkRefusal;
use hunk_loader::PlaceFault;
use hunk_test_support::{BASE, CHUNKS, KEY, ROOM, Refusing, bytes_of};
use hunk_tool::{NameHasher, SymbolForm, ToolFault, image_symbols_run, symbols_run};
use hunk_words::{Pieces, Room};
use std::alloc::Global;
use std::process::Abort;
use std::test::Fail;

/// The name with the byte ff is left out.
const NAMED_RECORDS: &str = "$$ amihunk\n  loop $00010002\n  a\"b\\ $0000ffff\n$$ \n\
    S016000073796D626F6C73206C656674206F75743A203112\n\
    S00A0000616D6968756E6B08\n\
    S309000100004E754E7173\n\
    S70500000000FA\n";

const LONG_NAMED_RECORDS: &str =
    "$$ amihunk\n  _a_name_of_forty_bytes_that_is_allocated $00010002\n$$ \n\
    S00A0000616D6968756E6B08\n\
    S309000100004E754E7173\n\
    S70500000000FA\n";

const SEVERAL_RECORDS: &str = "$$ amihunk\n  a $00003000\n  a $00000000\n  b $0000000c\n$$ \n\
    S00A0000616D6968756E6B08\n\
    S309000030004E754E7144\n\
    S3090000100000000000E6\n\
    S309FFFFFFFC00000001FC\n\
    S70500000000FA\n";

/// Two units: code with a symbol whose name is too long to be in place, and memory with the symbol `a b`, which no line of records
/// can hold.
const UNITS: [u32; 30] = [
    0x3E7,
    0,
    0x3E9,
    1,
    0x4E75_4E71,
    0x3F0,
    10,
    0x5F61_5F6E,
    0x616D_655F,
    0x6F66_5F66,
    0x6F72_7479,
    0x5F62_7974,
    0x6573_5F74,
    0x6861_745F,
    0x6973_5F61,
    0x6C6C_6F63,
    0x6174_6564,
    2,
    0,
    0x3F2,
    0x3E7,
    0,
    0x3EB,
    1,
    0x3F0,
    1,
    0x6120_6200,
    4,
    0,
    0x3F2,
];

const UNITS_LINES: &str = "00001002 hunk 0 \"_a_name_of_forty_bytes_that_is_allocated\"\n\
                           00002004 hunk 1 \"a b\"\n";

const UNITS_RECORDS: &str =
    "$$ amihunk\n  _a_name_of_forty_bytes_that_is_allocated $00001002\n$$ \n\
    S016000073796D626F6C73206C656674206F75743A203112\n\
    S00A0000616D6968756E6B08\n\
    S309000010004E754E7164\n\
    S3090000200000000000D6\n\
    S70500000000FA\n";

#[test]
fn writes_the_records_of_files(rt: HostRuntime) -> Result<(), Fail> {
    let rows: [(&[u32], &[u32], &str); 2] = [
        (&NAMED, &[BASE], NAMED_RECORDS),
        (&SEVERAL, &[0x3000, 0x1000, 0xFFFF_FFFC], SEVERAL_RECORDS),
    ];
    for (words, bases, text) in rows {
        for chunk in CHUNKS {
            let devices = Devices { chunk, ..WHOLE };
            let text = text.as_bytes();
            is_run(&rt, rt.alloc(), devices, words, bases, Ok(()), text)?;
        }
    }
    let unplaced = Err(ToolFault::Place(PlaceFault::Overlap(0, 2)));
    is_run(&rt, rt.alloc(), WHOLE, &SEVERAL, &[0, 8, 3], unplaced, b"")
}

#[test]
fn tells_what_a_writer_took_of_records(rt: HostRuntime) -> Result<(), Fail> {
    for (devices, taken) in &short_of(rt.alloc(), NAMED_RECORDS.as_bytes())? {
        let written = taken.len() as u64;
        let wanted = Err(ToolFault::Output { written });
        is_run(&rt, rt.alloc(), *devices, &NAMED, &[BASE], wanted, taken)?;
    }
    Ok(())
}

/// A run over these longwords at these addresses ends so, and writes this text.
fn is_run(
    rt: &impl Abort,
    alloc: Global,
    devices: Devices,
    words: &[u32],
    bases: &[u32],
    wanted: Result<(), ToolFault>,
    text: &[u8],
) -> Result<(), Fail> {
    assert!(rt; 1 <= devices.chunk && 1 <= devices.most);
    let bytes = bytes_of(alloc, words, &[])?;
    let mut reader = Pieces::new(bytes, devices.chunk, devices.failing.0);
    let mut writer = Room::new(alloc, devices.most, devices.room, devices.zero)?;
    let got = symbols_run(alloc, &mut reader, bases, SymbolForm::Records, &mut writer);
    equals_at(rt, &devices, got, wanted);
    equals_at(rt, &devices, writer.bytes(), text);
    Ok(())
}

/// The file, its content, its sizes, its symbol and the long name, and the image are on the heap.
#[test]
fn writes_no_records_with_each_growth_refused(rt: HostRuntime) -> Result<(), Fail> {
    for refused in 0..MOST_GROWTHS {
        let heap = Refusing::new(rt.alloc(), refused);
        let mut reader = Pieces::new(bytes_of(rt.alloc(), &LONG_NAMED, &[])?, 64, None);
        let mut writer = Room::new(rt.alloc(), 64, ROOM, false)?;
        let form = SymbolForm::Records;
        let got = symbols_run(&heap, &mut reader, &[BASE], form, &mut writer);
        if is_done(
            &rt,
            &heap,
            refused,
            &got,
            writer.bytes(),
            LONG_NAMED_RECORDS,
        ) {
            holds(&rt, &("growths", refused), 7 <= refused);
            return Ok(());
        }
    }
    holds(&rt, &("each run was refused a growth", MOST_GROWTHS), false);
    Ok(())
}

/// Each form of the symbols of units, and its text.
const UNITS_ROWS: [(SymbolForm, &str); 2] = [
    (SymbolForm::Lines, UNITS_LINES),
    (SymbolForm::Records, UNITS_RECORDS),
];

#[test]
fn writes_the_symbols_of_units(rt: HostRuntime) -> Result<(), Fail> {
    let bases = [0x1000, 0x2000];
    for (form, text) in UNITS_ROWS {
        are_written(&rt, rt.alloc(), form, &bases, ROOM, Ok(()), text)?;
        for room in 0..text.len() {
            let written = room as u64;
            let taken = text.get(..room).ok_or("no such prefix")?;
            let cut = Err(ToolFault::Output { written });
            are_written(&rt, rt.alloc(), form, &bases, room, cut, taken)?;
        }
        let unplaced = Err(ToolFault::Place(PlaceFault::Overlap(0, 1)));
        are_written(&rt, rt.alloc(), form, &[2, 0], ROOM, unplaced, "")?;
    }
    Ok(())
}

/// The symbols of `UNITS` are written in this form at these addresses, and the run ends so.
fn are_written(
    rt: &impl Abort,
    alloc: Global,
    form: SymbolForm,
    bases: &[u32],
    room: usize,
    wanted: Result<(), ToolFault>,
    text: &str,
) -> Result<(), Fail> {
    let mut inputs = [Pieces::new(bytes_of(alloc, &UNITS, &[])?, 5, None)];
    let mut writer = Room::new(alloc, 64, room, false)?;
    let got = image_symbols_run(
        alloc,
        &mut inputs,
        bases,
        form,
        NameHasher::new(KEY),
        &mut writer,
    );
    equals_at(rt, &room, got, wanted);
    equals_at(rt, &room, writer.bytes(), text.as_bytes());
    Ok(())
}

#[test]
fn tells_no_symbols_of_units_with_each_growth_refused(rt: HostRuntime) -> Result<(), Fail> {
    for (form, text) in UNITS_ROWS {
        let growths = growths_of(&rt, rt.alloc(), form, text)?;
        holds(&rt, &("growths", growths), 7 <= growths);
    }
    Ok(())
}

/// The number of allocations: the run is out of memory with each of them failing, and succeeds once
/// none fails.
fn growths_of(rt: &impl Abort, alloc: Global, form: SymbolForm, text: &str) -> Result<u64, Fail> {
    for refused in 0..MOST_GROWTHS {
        let heap = Refusing::new(alloc, refused);
        let mut inputs = [Pieces::new(bytes_of(alloc, &UNITS, &[])?, 64, None)];
        let mut writer = Room::new(alloc, 64, ROOM, false)?;
        let got = image_symbols_run(
            &heap,
            &mut inputs,
            &[0x1000, 0x2000],
            form,
            NameHasher::new(KEY),
            &mut writer,
        );
        if is_done(rt, &heap, refused, &got, writer.bytes(), text) {
            return Ok(refused);
        }
    }
    holds(rt, &("each run was refused a growth", MOST_GROWTHS), false);
    Ok(0)
}

#[test]
fn tells_why_units_have_no_symbols(rt: HostRuntime) -> Result<(), Fail> {
    let alloc = rt.alloc();
    for form in [SymbolForm::Lines, SymbolForm::Records] {
        // A reference to `foo`.
        let words = [
            0x3E7,
            0,
            0x3E9,
            1,
            0,
            0x3EF,
            0x8100_0001,
            0x666F_6F00,
            1,
            0,
            0,
            0x3F2,
        ];
        let mut inputs = [Pieces::new(bytes_of(alloc, &words, &[])?, 64, None)];
        let mut writer = Room::new(alloc, 64, ROOM, false)?;
        let got = image_symbols_run(
            alloc,
            &mut inputs,
            &[BASE],
            form,
            NameHasher::new(KEY),
            &mut writer,
        );
        let unlinked = matches!(got, Err(ToolFault::Link(LinkRefusal::UndefinedName { .. })));
        holds(&rt, &"a name that is not defined", unlinked);
        equals(&rt, writer.bytes(), b"");
        let mut inputs = [Pieces::new(bytes_of(alloc, &UNITS, &[])?, 64, Some(0))];
        let got = image_symbols_run(
            alloc,
            &mut inputs,
            &[BASE],
            form,
            NameHasher::new(KEY),
            &mut writer,
        );
        equals(&rt, got, Err(ToolFault::InputDevice { file: 0 }));
        equals(&rt, writer.bytes(), b"");
    }
    Ok(())
}
