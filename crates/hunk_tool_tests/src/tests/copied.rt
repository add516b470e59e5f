//! Copies of load files.

use super::asserts::{equals_at, holds};
use super::devices::{Devices, WHOLE, short_of};
use super::memory::MOST_GROWTHS;
use hunk_test_support::words::REFERS;
use hunk_test_support::{CHUNKS, ROOM, Refusing, bytes_of};
use hunk_tool::{CopyForm, LinkOptions, ToolFault, copy_run};
use hunk_words::{Fault, Pieces, Reason, Room};
use std::alloc::{Allocator, Global};
use std::process::Abort;
use std::test::Fail;

/// The header of three longwords of code in chip memory, and one longword of zeros.
const HEAD: [u32; 7] = [0x3F3, 0, 2, 0, 1, 0x4000_0003, 1];

/// The code, with all three of its longwords, without the last zero, and without both zeros.
const THREE: [u32; 5] = [0x3E9, 3, 0x0102_0304, 0, 0];

const TWO: [u32; 4] = [0x3E9, 2, 0x0102_0304, 0];

const ONE: [u32; 3] = [0x3E9, 1, 0x0102_0304];

/// Its site, at the second longword, in a relocation block and in a short one.
const LONG: [u32; 5] = [0x3EC, 1, 1, 4, 0];

const SHORT: [u32; 3] = [0x3FC, 0x0001_0001, 0x0004_0000];

/// Its symbol `foo` and its debug block.
const INFO: [u32; 8] = [0x3F0, 1, 0x666F_6F00, 4, 0, 0x3F1, 1, 0xCAFE_BABE];

/// Its end, and the zeros.
const TAIL: [u32; 4] = [0x3F2, 0x3EB, 1, 0x3F2];

const AS_IT_IS: LinkOptions = LinkOptions {
    strip: false,
    short: false,
    trim: false,
};

/// A form, and the parts of the copy between its head and its tail.
type Row = (CopyForm, &'static [u32], &'static [u32], &'static [u32]);

static ROWS: [Row; 9] = [
    (CopyForm::Written(AS_IT_IS), &THREE, &LONG, &INFO),
    (
        CopyForm::Written(LinkOptions {
            short: true,
            ..AS_IT_IS
        }),
        &THREE,
        &SHORT,
        &INFO,
    ),
    (
        CopyForm::Written(LinkOptions {
            trim: true,
            ..AS_IT_IS
        }),
        &TWO,
        &LONG,
        &INFO,
    ),
    (
        CopyForm::Written(LinkOptions {
            strip: true,
            ..AS_IT_IS
        }),
        &THREE,
        &LONG,
        &[],
    ),
    (
        CopyForm::Written(LinkOptions {
            strip: false,
            short: true,
            trim: true,
        }),
        &TWO,
        &SHORT,
        &INFO,
    ),
    (
        CopyForm::Written(LinkOptions {
            strip: true,
            short: false,
            trim: true,
        }),
        &TWO,
        &LONG,
        &[],
    ),
    (
        CopyForm::Written(LinkOptions {
            strip: true,
            short: true,
            trim: false,
        }),
        &THREE,
        &SHORT,
        &[],
    ),
    (
        CopyForm::Written(LinkOptions {
            strip: true,
            short: true,
            trim: true,
        }),
        &TWO,
        &SHORT,
        &[],
    ),
    (CopyForm::Normal, &ONE, &LONG, &[]),
];

/// The bytes of a file of these parts.
fn file_of(alloc: Global, code: &[u32], sites: &[u32], info: &[u32]) -> Result<Vec<u8>, Fail> {
    let mut words = HEAD.to_vec(alloc)?;
    for part in [code, sites, info, &TAIL] {
        words.extend_from_slice(part)?;
    }
    Ok(bytes_of(alloc, &words, &[])?)
}

/// The file that is copied.
fn source(alloc: Global) -> Result<Vec<u8>, Fail> {
    file_of(alloc, &THREE, &SHORT, &INFO)
}

/// The copy of a row.
fn copy_of(alloc: Global, row: &Row) -> Result<Vec<u8>, Fail> {
    file_of(alloc, row.1, row.2, row.3)
}

/// A copy of these bytes in this form ends so, and writes these bytes.
fn is_copied(
    rt: &impl Abort,
    alloc: Global,
    devices: Devices,
    bytes: &[u8],
    form: CopyForm,
    wanted: Result<(), ToolFault>,
    copy: &[u8],
) -> Result<(), Fail> {
    assert!(rt; 1 <= devices.chunk && 1 <= devices.most);
    let mut reader = Pieces::new(bytes.to_vec(alloc)?, devices.chunk, devices.failing.0);
    let mut writer = Room::new(alloc, devices.most, devices.room, devices.zero)?;
    let got = copy_run(alloc, &mut reader, form, &mut writer);
    equals_at(rt, &(devices, form), got, wanted);
    equals_at(rt, &(devices, form), writer.bytes(), copy);
    Ok(())
}

/// A copy is whole in pieces of each size.
fn copies_to(
    rt: &impl Abort,
    alloc: Global,
    bytes: &[u8],
    form: CopyForm,
    copy: &[u8],
) -> Result<(), Fail> {
    for chunk in CHUNKS {
        let devices = Devices { chunk, ..WHOLE };
        is_copied(rt, alloc, devices, bytes, form, Ok(()), copy)?;
    }
    Ok(())
}

/// A copy in a form is copied in that form as it is.
#[test]
fn copies_in_each_form(rt: HostRuntime) -> Result<(), Fail> {
    let alloc = rt.alloc();
    let bytes = source(alloc)?;
    for row in &ROWS {
        let copy = copy_of(alloc, row)?;
        copies_to(&rt, alloc, &bytes, row.0, &copy)?;
        copies_to(&rt, alloc, &copy, row.0, &copy)?;
    }
    Ok(())
}

#[test]
fn makes_one_normal_form_of_all(rt: HostRuntime) -> Result<(), Fail> {
    let alloc = rt.alloc();
    let normal = file_of(alloc, &ONE, &LONG, &[])?;
    for row in &ROWS {
        let copy = copy_of(alloc, row)?;
        copies_to(&rt, alloc, &copy, CopyForm::Normal, &normal)?;
    }
    Ok(())
}

/// A hunk of code with no longwords.
const EMPTY: [u32; 9] = [0x3F3, 0, 1, 0, 0, 0, 0x3E9, 0, 0x3F2];

#[test]
fn copies_a_hunk_of_no_longwords(rt: HostRuntime) -> Result<(), Fail> {
    let bytes = bytes_of(rt.alloc(), &EMPTY, &[])?;
    for row in &ROWS {
        copies_to(&rt, rt.alloc(), &bytes, row.0, &bytes)?;
    }
    Ok(())
}

#[test]
fn refuses_what_is_not_a_load_file(rt: HostRuntime) -> Result<(), Fail> {
    let alloc = rt.alloc();
    let rows = [
        (Vec::new(alloc), 0, Reason::UnexpectedEnd),
        (bytes_of(alloc, &EMPTY[..8], &[])?, 8, Reason::UnexpectedEnd),
        (bytes_of(alloc, &REFERS, &[])?, 0, Reason::WrongStart),
        (bytes_of(alloc, &EMPTY, &[0])?, 9, Reason::PartialLongword),
    ];
    for (bytes, place, reason) in &rows {
        let fault = Fault {
            place: *place,
            reason: *reason,
        };
        for row in &ROWS {
            let wanted = Err(ToolFault::Input { file: 0, fault });
            is_copied(&rt, alloc, WHOLE, bytes, row.0, wanted, b"")?;
        }
    }
    Ok(())
}

/// Each read of a copy fails in turn, including the one that would report the end.
#[test]
fn tells_a_read_that_failed(rt: HostRuntime) -> Result<(), Fail> {
    let alloc = rt.alloc();
    let bytes = source(alloc)?;
    for (chunk, count) in [(64, 3), (5, 23)] {
        for number in 0..count {
            let devices = Devices {
                chunk,
                failing: (Some(number), None),
                ..WHOLE
            };
            let wanted = Err(ToolFault::InputDevice { file: 0 });
            is_copied(&rt, alloc, devices, &bytes, CopyForm::Normal, wanted, b"")?;
        }
        let devices = Devices {
            chunk,
            failing: (Some(count), None),
            ..WHOLE
        };
        let copy = file_of(alloc, &ONE, &LONG, &[])?;
        is_copied(&rt, alloc, devices, &bytes, CopyForm::Normal, Ok(()), &copy)?;
    }
    Ok(())
}

/// A writer with room for each prefix of a copy.
#[test]
fn tells_what_a_writer_took(rt: HostRuntime) -> Result<(), Fail> {
    let alloc = rt.alloc();
    let bytes = source(alloc)?;
    let copy = copy_of(alloc, &ROWS[0])?;
    for (devices, taken) in &short_of(alloc, &copy)? {
        let written = taken.len() as u64;
        let wanted = Err(ToolFault::Output { written });
        is_copied(&rt, alloc, *devices, &bytes, ROWS[0].0, wanted, taken)?;
    }
    Ok(())
}

/// Whether the fault is that memory ran out, once these bytes were written, with which the copy begins.
fn is_out_of_memory<A: Allocator + Copy>(fault: &ToolFault<A>, taken: &[u8], copy: &[u8]) -> bool {
    match fault {
        ToolFault::OutOfMemory { written } => {
            *written == taken.len() as u64 && copy.get(..taken.len()) == Some(taken)
        }
        _ => false,
    }
}

/// Whether a row was copied with this allocation failing. If not, memory ran out.
fn is_whole(rt: &impl Abort, alloc: Global, row: &Row, refused: u64) -> Result<bool, Fail> {
    let heap = Refusing::new(alloc, refused);
    let copy = copy_of(alloc, row)?;
    let mut reader = Pieces::new(source(alloc)?, 64, None);
    let mut writer = Room::new(alloc, 64, ROOM, false)?;
    let got = copy_run(&heap, &mut reader, row.0, &mut writer);
    if heap.asked() <= refused {
        holds(rt, &("growth", refused), got.is_ok());
        equals_at(rt, &("growth", refused), writer.bytes(), copy.as_slice());
        return Ok(true);
    }
    let stopped = match &got {
        Ok(()) => false,
        Err(fault) => is_out_of_memory(fault, writer.bytes(), &copy),
    };
    holds(rt, &("growth", refused), stopped);
    Ok(false)
}

/// The number of allocations: a copy is out of memory with each of them failing, and succeeds once none fails.
fn growths_of(rt: &impl Abort, alloc: Global, row: &Row) -> Result<u64, Fail> {
    for refused in 0..MOST_GROWTHS {
        if is_whole(rt, alloc, row, refused)? {
            return Ok(refused);
        }
    }
    holds(rt, &("each copy was refused a growth", MOST_GROWTHS), false);
    Ok(0)
}

#[test]
fn is_out_of_memory_with_each_growth_refused(rt: HostRuntime) -> Result<(), Fail> {
    for row in &ROWS {
        let growths = growths_of(&rt, rt.alloc(), row)?;
        holds(&rt, &("growths", growths), 5 <= growths);
    }
    Ok(())
}
