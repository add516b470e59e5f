//! Readers and writers that fail.

use super::answers::bytes_of;
use super::asserts::{equals_at, holds};
use super::cases::BASES;
use super::choices::{PLAIN, SHORT_TRIM};
use super::forms::{FORMS, ZEROS_LAST};
use super::runs::{Run, fails_with, inputs_of};
use super::words::{DEFINES, LINKED, LINKED_SHORT, REFERS, REPORT};
use hunk_tool::{LinkOptions, ToolFault};
use hunk_words::Room;
use std::alloc::Global;
use std::process::Abort;
use std::test::Fail;

/// The files that are linked.
const OBJECTS: [&[u32]; 2] = [&REFERS, &DEFINES];

/// Runs the files, at most `most` bytes per read and one of the reads failing. Nothing is written then.
fn fails_to_read(
    rt: &impl Abort,
    alloc: Global,
    run: Run<'_>,
    most: usize,
    failing: (usize, u64),
) -> Result<(), Fail> {
    let mut inputs = inputs_of(rt, alloc, &OBJECTS, most, Some(failing))?;
    let mut writer = Room::new(alloc, 4096, 4096, false)?;
    let got = run.of(alloc, &mut inputs, &mut writer);
    fails_with(rt, got, &ToolFault::InputDevice { file: failing.0 }, 3);
    holds(rt, &(run, failing, "of", most), writer.bytes().is_empty());
    Ok(())
}

/// The files have 52 and 48 bytes. One more read tells the end.
#[test]
fn tells_which_input_failed(rt: HostRuntime) -> Result<(), Fail> {
    for run in [
        Run::Link { options: PLAIN },
        Run::Link {
            options: SHORT_TRIM,
        },
        Run::LinkToVec { options: PLAIN },
        Run::LinkToVec {
            options: SHORT_TRIM,
        },
        Run::Image { bases: &BASES },
    ] {
        for (most, reads) in [
            (64, [2, 2]),
            (16, [5, 4]),
            (5, [12, 11]),
            (3, [19, 17]),
            (1, [53, 49]),
        ] {
            for (file, count) in reads.iter().enumerate() {
                for number in 0..*count {
                    fails_to_read(&rt, rt.alloc(), run, most, (file, number))?;
                }
            }
        }
    }
    Ok(())
}

/// Runs the files into a writer that takes this many bytes, at most seven per write.
fn fails_to_write(
    rt: &impl Abort,
    alloc: Global,
    objects: &[&[u32]],
    run: Run<'_>,
    text: &[u8],
    room: usize,
    zero: bool,
) -> Result<(), Fail> {
    let mut inputs = inputs_of(rt, alloc, objects, 4096, None)?;
    let mut writer = Room::new(alloc, 7, room, zero)?;
    let got = run.of(alloc, &mut inputs, &mut writer);
    let written = room as u64;
    fails_with(rt, got, &ToolFault::Output { written }, 3);
    equals_at(rt, &run, Some(writer.bytes()), text.get(..room));
    Ok(())
}

/// The same into writers that take each number of bytes of the text but all of them.
fn fails_at_each_byte(
    rt: &impl Abort,
    alloc: Global,
    objects: &[&[u32]],
    run: Run<'_>,
    text: &[u8],
) -> Result<(), Fail> {
    for room in 0..text.len() {
        fails_to_write(rt, alloc, objects, run, text, room, false)?;
        fails_to_write(rt, alloc, objects, run, text, room, true)?;
    }
    Ok(())
}

#[test]
fn tells_what_a_writer_took(rt: HostRuntime) -> Result<(), Fail> {
    let rows: [(LinkOptions, &[u32]); 2] = [(PLAIN, &LINKED), (SHORT_TRIM, &LINKED_SHORT)];
    for (options, words) in rows {
        let linked = bytes_of(rt.alloc(), words)?;
        let link = Run::Link { options };
        fails_at_each_byte(&rt, rt.alloc(), &OBJECTS, link, &linked)?;
    }
    let image = Run::Image { bases: &BASES };
    fails_at_each_byte(&rt, rt.alloc(), &OBJECTS, image, REPORT.as_bytes())
}

#[test]
fn tells_what_a_writer_took_with_every_choice(rt: HostRuntime) -> Result<(), Fail> {
    for &(options, words) in &FORMS {
        let linked = bytes_of(rt.alloc(), words)?;
        let link = Run::Link { options };
        fails_at_each_byte(&rt, rt.alloc(), &[&ZEROS_LAST], link, &linked)?;
    }
    Ok(())
}
