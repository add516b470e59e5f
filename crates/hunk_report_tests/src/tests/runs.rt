//! Runs over files, from readers to writers, with reads, writes and allocations that fail.

use super::asserts::{equals_at, holds};
use hunk_json::{JsonForm, json_run, json_run_with, page_run};
use hunk_lint::lint_run;
use hunk_test_support::{CHUNKS, Refusing, bytes_of};
use hunk_tool::ToolFault;
use hunk_words::{Pieces, Room, Sink, Source};
use std::alloc::{Allocator, Global};
use std::process::Abort;
use std::test::Fail;

/// A text about a file.
#[derive(Clone, Copy, Debug)]
pub(super) enum Text {
    /// The line of JSON that a terminal is told.
    Document,
    /// The document in a form.
    Form(JsonForm),
    /// The page.
    Page,
    /// What is odd in the file.
    Lints,
}

impl Text {
    /// Reads a file, and writes the text.
    pub(super) fn run<A: Allocator + Copy, R: Source, W: Sink>(
        self,
        alloc: A,
        reader: &mut R,
        writer: &mut W,
    ) -> Result<(), ToolFault<A>> {
        match self {
            Text::Document => json_run(alloc, reader, writer),
            Text::Form(form) => json_run_with(alloc, reader, form, writer),
            Text::Page => page_run(alloc, reader, writer),
            Text::Lints => lint_run(alloc, reader, writer),
        }
    }
}

/// Room for every text but a page.
pub(super) const ENOUGH: usize = 2048;

/// The limits of a reader and of a writer.
#[derive(Clone, Copy)]
pub(super) struct Devices {
    // The most bytes for each read and each write.
    pub(super) chunk: usize,
    // The number of the read that fails.
    pub(super) failing: Option<u64>,
    // How many bytes are taken in all.
    pub(super) room: usize,
}

pub(super) const WHOLE: Devices = Devices {
    chunk: 64,
    failing: None,
    room: ENOUGH,
};

/// A run over these longwords ends so, and writes these bytes.
pub(super) fn is_run(
    rt: &impl Abort,
    alloc: Global,
    text: Text,
    devices: Devices,
    words: &[u32],
    wanted: Result<(), ToolFault>,
    bytes: &[u8],
) -> Result<(), Fail> {
    assert!(rt; 1 <= devices.chunk);
    let read = bytes_of(alloc, words, &[])?;
    let mut reader = Pieces::new(read, devices.chunk, devices.failing);
    let mut writer = Room::new(alloc, devices.chunk, devices.room, false)?;
    let got = text.run(alloc, &mut reader, &mut writer);
    equals_at(rt, &(text, words.len()), got, wanted);
    equals_at(rt, &(text, words.len()), writer.bytes(), bytes);
    Ok(())
}

/// The text of these longwords has these bytes, however they are read.
pub(super) fn is_written(
    rt: &impl Abort,
    alloc: Global,
    text: Text,
    words: &[u32],
    bytes: &[u8],
) -> Result<(), Fail> {
    for chunk in CHUNKS {
        let devices = Devices { chunk, ..WHOLE };
        is_run(rt, alloc, text, devices, words, Ok(()), bytes)?;
    }
    Ok(())
}

/// Of the text of these longwords, whose first bytes are these, a writer with room for fewer takes so many.
pub(super) fn is_taken(
    rt: &impl Abort,
    alloc: Global,
    text: Text,
    words: &[u32],
    bytes: &[u8],
) -> Result<(), Fail> {
    for room in 0..bytes.len() {
        for chunk in CHUNKS {
            let devices = Devices {
                chunk,
                room,
                ..WHOLE
            };
            let written = room as u64;
            let wanted = Err(ToolFault::Output { written });
            is_run(rt, alloc, text, devices, words, wanted, &bytes[..room])?;
        }
    }
    Ok(())
}

/// Whether a run in which this allocation is to fail makes fewer; otherwise it has written nothing.
fn is_made_without(
    rt: &impl Abort,
    alloc: Global,
    text: Text,
    devices: Devices,
    words: &[u32],
    bytes: &[u8],
    refused: u64,
) -> Result<bool, Fail> {
    assert!(rt; 1 <= devices.chunk);
    let heap = Refusing::new(alloc, refused);
    let mut reader = Pieces::new(bytes_of(alloc, words, &[])?, devices.chunk, None);
    let mut writer = Room::new(alloc, devices.chunk, devices.room, false)?;
    let got = text.run(&heap, &mut reader, &mut writer);
    if heap.asked() <= refused {
        holds(rt, &("growth", refused), got.is_ok());
        equals_at(rt, &refused, writer.bytes(), bytes);
        return Ok(true);
    }
    let out_of_memory = matches!(got, Err(ToolFault::OutOfMemory { written: 0 }));
    holds(rt, &("growth", refused), out_of_memory);
    holds(rt, &("growth", refused), writer.bytes().is_empty());
    Ok(false)
}

/// More allocations than a run makes.
const MOST_GROWTHS: u64 = 64;

/// How many allocations a run over these longwords makes, each of which was refused in turn. The run
/// after them writes these bytes.
pub(super) fn growths(
    rt: &impl Abort,
    alloc: Global,
    text: Text,
    devices: Devices,
    words: &[u32],
    bytes: &[u8],
) -> Result<u64, Fail> {
    for refused in 0..MOST_GROWTHS {
        if is_made_without(rt, alloc, text, devices, words, bytes, refused)? {
            return Ok(refused);
        }
    }
    Err("each run was refused a growth")?
}
