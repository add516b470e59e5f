//! The symbols of load files, with their addresses.

use super::asserts::{equals_at, holds};
use super::devices::{Devices, WHOLE, short_of};
use super::memory::{MOST_GROWTHS, is_done};
use hunk_loader::PlaceFault;
use hunk_test_support::{BASE, CHUNKS, FILE, ROOM, Refusing, bytes_of};
use hunk_tool::{SymbolForm, ToolFault, symbols_run};
use hunk_words::{Fault, Pieces, Reason, Room};
use std::alloc::Global;
use std::process::Abort;
use std::test::Fail;

/// A hunk of code with the symbols `loop`, `a"b\`, and one of the bytes ff, 1 and `A`.
pub(crate) const NAMED: [u32; 21] = [
    0x3F3,
    0,
    1,
    0,
    0,
    1,
    0x3E9,
    1,
    0x4E75_4E71,
    0x3F0,
    1,
    0x6C6F_6F70,
    2,
    1,
    0x6122_625C,
    0xFFFF_FFFF,
    1,
    0xFF01_4100,
    0,
    0,
    0x3F2,
];

const NAMED_LINES: &str = "00010002 hunk 0 \"loop\"\n\
                           0000ffff hunk 0 \"a\\x22b\\x5c\"\n\
                           00010000 hunk 0 \"\\xff\\x01A\"\n";

/// A hunk of code with a symbol whose name is too long to be in place.
pub(crate) const LONG_NAMED: [u32; 24] = [
    0x3F3,
    0,
    1,
    0,
    0,
    1,
    0x3E9,
    1,
    0x4E75_4E71,
    0x3F0,
    10,
    0x5F61_5F6E,
    0x616D_655F,
    0x6F66_5F66,
    0x6F72_7479,
    0x5F62_7974,
    0x6573_5F74,
    0x6861_745F,
    0x6973_5F61,
    0x6C6C_6F63,
    0x6174_6564,
    2,
    0,
    0x3F2,
];

const LONG_NAMED_LINES: &str = "00010002 hunk 0 \"_a_name_of_forty_bytes_that_is_allocated\"\n";

/// Code with the symbol `a`, memory without symbols, and data with the symbols `a` and `b`.
pub(crate) const SEVERAL: [u32; 32] = [
    0x3F3,
    0,
    3,
    0,
    2,
    1,
    1,
    1,
    0x3E9,
    1,
    0x4E75_4E71,
    0x3F0,
    1,
    0x6100_0000,
    0,
    0,
    0x3F2,
    0x3EB,
    1,
    0x3F2,
    0x3EA,
    1,
    1,
    0x3F0,
    1,
    0x6100_0000,
    4,
    1,
    0x6200_0000,
    0x10,
    0,
    0x3F2,
];

const SEVERAL_LINES: &str = "00003000 hunk 0 \"a\"\n00000000 hunk 2 \"a\"\n0000000c hunk 2 \"b\"\n";

/// A run over these longwords at these addresses ends so, and writes this text.
fn is_run(
    rt: &impl Abort,
    alloc: Global,
    devices: Devices,
    words: &[u32],
    bases: &[u32],
    wanted: Result<(), ToolFault>,
    text: &[u8],
) -> Result<(), Fail> {
    assert!(rt; 1 <= devices.chunk && 1 <= devices.most);
    let bytes = bytes_of(alloc, words, &[])?;
    let mut reader = Pieces::new(bytes, devices.chunk, devices.failing.0);
    let mut writer = Room::new(alloc, devices.most, devices.room, devices.zero)?;
    let got = symbols_run(alloc, &mut reader, bases, SymbolForm::Lines, &mut writer);
    equals_at(rt, &devices, got, wanted);
    equals_at(rt, &devices, writer.bytes(), text);
    Ok(())
}

#[test]
fn writes_the_symbols_of_files(rt: HostRuntime) -> Result<(), Fail> {
    let rows: [(&[u32], &[u32], &str); 3] = [
        (&FILE, &[BASE], ""),
        (&NAMED, &[BASE], NAMED_LINES),
        (&SEVERAL, &[0x3000, 0x1000, 0xFFFF_FFFC], SEVERAL_LINES),
    ];
    for (words, bases, text) in rows {
        for chunk in CHUNKS {
            let devices = Devices { chunk, ..WHOLE };
            is_run(
                &rt,
                rt.alloc(),
                devices,
                words,
                bases,
                Ok(()),
                text.as_bytes(),
            )?;
        }
    }
    Ok(())
}

#[test]
fn refuses_files_before_addresses(rt: HostRuntime) -> Result<(), Fail> {
    let cut = ToolFault::Input {
        file: 0,
        fault: Fault {
            place: 20,
            reason: Reason::UnexpectedEnd,
        },
    };
    let rows: [(&[u32], &[u32], ToolFault); 5] = [
        (&NAMED[..20], &[], cut),
        (&NAMED, &[], ToolFault::Place(PlaceFault::WrongCount)),
        (&NAMED, &[0, 4], ToolFault::Place(PlaceFault::WrongCount)),
        (
            &NAMED,
            &[0xFFFF_FFFD],
            ToolFault::Place(PlaceFault::PastEnd(0)),
        ),
        (
            &SEVERAL,
            &[0, 8, 3],
            ToolFault::Place(PlaceFault::Overlap(0, 2)),
        ),
    ];
    for (words, bases, fault) in rows {
        is_run(&rt, rt.alloc(), WHOLE, words, bases, Err(fault), b"")?;
    }
    Ok(())
}

#[test]
fn tells_a_read_that_failed(rt: HostRuntime) -> Result<(), Fail> {
    for (chunk, count) in [(64, 3), (5, 18)] {
        for number in 0..=count {
            let devices = Devices {
                chunk,
                failing: (Some(number), None),
                ..WHOLE
            };
            let (wanted, text) = if number < count {
                (Err(ToolFault::InputDevice { file: 0 }), "")
            } else {
                (Ok(()), NAMED_LINES)
            };
            is_run(
                &rt,
                rt.alloc(),
                devices,
                &NAMED,
                &[BASE],
                wanted,
                text.as_bytes(),
            )?;
        }
    }
    Ok(())
}

#[test]
fn tells_what_a_writer_took(rt: HostRuntime) -> Result<(), Fail> {
    for (devices, taken) in &short_of(rt.alloc(), NAMED_LINES.as_bytes())? {
        let written = taken.len() as u64;
        let wanted = Err(ToolFault::Output { written });
        is_run(&rt, rt.alloc(), *devices, &NAMED, &[BASE], wanted, taken)?;
    }
    Ok(())
}

/// The bytes of the file that is read, its content, its sizes, its symbol and the long name are on the
/// heap.
#[test]
fn is_out_of_memory_with_each_growth_refused(rt: HostRuntime) -> Result<(), Fail> {
    for refused in 0..MOST_GROWTHS {
        let heap = Refusing::new(rt.alloc(), refused);
        let mut reader = Pieces::new(bytes_of(rt.alloc(), &LONG_NAMED, &[])?, 64, None);
        let mut writer = Room::new(rt.alloc(), 64, ROOM, false)?;
        let got = symbols_run(&heap, &mut reader, &[BASE], SymbolForm::Lines, &mut writer);
        if is_done(&rt, &heap, refused, &got, writer.bytes(), LONG_NAMED_LINES) {
            holds(&rt, &("growths", refused), 5 <= refused);
            return Ok(());
        }
    }
    holds(&rt, &("each run was refused a growth", MOST_GROWTHS), false);
    Ok(())
}
