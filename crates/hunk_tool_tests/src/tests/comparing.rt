//! Comparisons of load files that fail.

use super::asserts::{equals, holds};
use super::compared::{FIRST, is_compared};
use super::devices::{Devices, WHOLE, short_of};
use super::memory::{MOST_GROWTHS, is_done};
use hunk_loadfile::read_load;
use hunk_test_support::words::REFERS;
use hunk_test_support::{FILE, ROOM, Refusing, bytes_of};
use hunk_tool::{ToolFault, compare_run};
use hunk_words::{Fault, Pieces, Reason, Room};
use std::alloc::Global;
use std::process::Abort;
use std::test::Fail;

/// What the line is of the first file and a file of one hunk.
const LINE: &str = "hunks: 2 and 1\n";

/// The bytes of both.
fn files_of(alloc: Global) -> Result<(Vec<u8>, Vec<u8>), Fail> {
    Ok((bytes_of(alloc, &FIRST, &[])?, bytes_of(alloc, &FILE, &[])?))
}

/// Bytes that are not a load file, and why: none; a part of one; an object file; one with a byte more.
fn refused(alloc: Global) -> Result<[(Vec<u8>, u64, Reason); 4], Fail> {
    Ok([
        (Vec::new(alloc), 0, Reason::UnexpectedEnd),
        (
            bytes_of(alloc, &FIRST[..27], &[])?,
            27,
            Reason::UnexpectedEnd,
        ),
        (bytes_of(alloc, &REFERS, &[])?, 0, Reason::WrongStart),
        (bytes_of(alloc, &FIRST, &[0])?, 28, Reason::PartialLongword),
    ])
}

#[test]
fn refuses_what_is_not_a_load_file(rt: HostRuntime) -> Result<(), Fail> {
    let alloc = rt.alloc();
    let (first, second) = files_of(alloc)?;
    for (bytes, place, reason) in &refused(alloc)? {
        let fault = Fault {
            place: *place,
            reason: *reason,
        };
        let input = |file| Err(ToolFault::Input { file, fault });
        for with_symbols in [false, true] {
            is_compared(
                &rt,
                alloc,
                WHOLE,
                (bytes, &second),
                with_symbols,
                input(0),
                b"",
            )?;
            is_compared(
                &rt,
                alloc,
                WHOLE,
                (&first, bytes),
                with_symbols,
                input(1),
                b"",
            )?;
            is_compared(
                &rt,
                alloc,
                WHOLE,
                (bytes, bytes),
                with_symbols,
                input(0),
                b"",
            )?;
        }
    }
    Ok(())
}

#[test]
fn reads_nothing_of_the_second_before_the_first(rt: HostRuntime) -> Result<(), Fail> {
    let alloc = rt.alloc();
    let mut first = Pieces::new(bytes_of(alloc, &FIRST[..9], &[])?, ROOM, None);
    let mut second = Pieces::new(bytes_of(alloc, &FIRST, &[])?, ROOM, None);
    let mut writer = Room::new(alloc, ROOM, ROOM, false)?;
    let got = compare_run(alloc, &mut first, &mut second, true, &mut writer);
    let fault = Fault {
        place: 9,
        reason: Reason::UnexpectedEnd,
    };
    equals(&rt, got, Err(ToolFault::Input { file: 0, fault }));
    equals(&rt, read_load(alloc, &mut second)?.hunks().len(), 2);
    Ok(())
}

/// Each read of either file fails in turn, including those that would report their ends.
#[test]
fn tells_a_read_that_failed(rt: HostRuntime) -> Result<(), Fail> {
    let (first, second) = files_of(rt.alloc())?;
    for (chunk, counts) in [(64, [3, 2]), (5, [24, 9])] {
        for (file, count) in counts.iter().enumerate() {
            for number in 0..*count {
                let failing = match file {
                    0 => (Some(number), Some(0)),
                    _ => (None, Some(number)),
                };
                let devices = Devices {
                    chunk,
                    failing,
                    ..WHOLE
                };
                let wanted = Err(ToolFault::InputDevice { file });
                is_compared(
                    &rt,
                    rt.alloc(),
                    devices,
                    (&first, &second),
                    false,
                    wanted,
                    b"",
                )?;
            }
        }
        let devices = Devices {
            chunk,
            failing: (Some(counts[0]), Some(counts[1])),
            ..WHOLE
        };
        is_compared(
            &rt,
            rt.alloc(),
            devices,
            (&first, &second),
            false,
            Ok(false),
            LINE.as_bytes(),
        )?;
    }
    Ok(())
}

/// A writer with room for each prefix of the line.
#[test]
fn tells_what_a_writer_took(rt: HostRuntime) -> Result<(), Fail> {
    let (first, second) = files_of(rt.alloc())?;
    for (devices, taken) in &short_of(rt.alloc(), LINE.as_bytes())? {
        let written = taken.len() as u64;
        is_compared(
            &rt,
            rt.alloc(),
            *devices,
            (&first, &second),
            true,
            Err(ToolFault::Output { written }),
            taken,
        )?;
    }
    Ok(())
}

/// A writer that takes nothing is not asked to, where nothing is told.
#[test]
fn writes_nothing_of_the_same_files(rt: HostRuntime) -> Result<(), Fail> {
    let (first, _) = files_of(rt.alloc())?;
    let devices = Devices { room: 0, ..WHOLE };
    is_compared(
        &rt,
        rt.alloc(),
        devices,
        (&first, &first),
        true,
        Ok(true),
        b"",
    )
}

/// The line of a comparison with this allocation failing; whether it was written.
fn is_told(rt: &impl Abort, alloc: Global, refused: u64) -> Result<bool, Fail> {
    let heap = Refusing::new(alloc, refused);
    let (first, second) = files_of(alloc)?;
    let mut first = Pieces::new(first, 64, None);
    let mut second = Pieces::new(second, 64, None);
    let mut writer = Room::new(alloc, 64, ROOM, false)?;
    let got = compare_run(&heap, &mut first, &mut second, true, &mut writer);
    let got = got.map(|same| equals(rt, same, false));
    Ok(is_done(rt, &heap, refused, &got, writer.bytes(), LINE))
}

#[test]
fn is_out_of_memory_with_each_growth_refused(rt: HostRuntime) -> Result<(), Fail> {
    for refused in 0..MOST_GROWTHS {
        if is_told(&rt, rt.alloc(), refused)? {
            holds(&rt, &("growths", refused), 8 <= refused);
            return Ok(());
        }
    }
    holds(&rt, &("each run was refused a growth", MOST_GROWTHS), false);
    Ok(())
}
