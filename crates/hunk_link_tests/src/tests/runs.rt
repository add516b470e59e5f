//! Links and images from readers to writers.

use super::answers::bytes_of;
use super::asserts::{equals, equals_at, holds};
use hunk_test_support::KEY;
use hunk_tool::{
    LinkOptions, NameHasher, ToolFault, image_run, link_run, link_run_with, link_to_vec, load_run,
    status_of,
};
use hunk_words::{Pieces, Room, Sink, Text};
use std::alloc::{AllocError, Allocator, Global};
use std::process::Abort;
use std::test::Fail;

/// What is run on object files.
#[derive(Clone, Copy, Debug)]
pub(crate) enum Run<'a> {
    /// They are linked as the options say.
    Link { options: LinkOptions },
    /// They are linked so, and definitions stay as symbols.
    LinkGlobals { options: LinkOptions },
    /// They are linked to a list of bytes, which is written then. Names are hashed with another key.
    LinkToVec { options: LinkOptions },
    /// The same, and definitions stay as symbols.
    LinkGlobalsToVec { options: LinkOptions },
    /// Their memory at these addresses is reported.
    Image { bases: &'a [u32] },
}

impl Run<'_> {
    /// Runs it.
    pub(crate) fn of<A: Allocator + Copy>(
        self,
        alloc: A,
        inputs: &mut [Pieces],
        writer: &mut Room,
    ) -> Result<(), ToolFault<A>> {
        match self {
            Run::Link { options } => link_run(alloc, inputs, options, writer),
            Run::LinkGlobals { options } => {
                let hasher = NameHasher::new(KEY);
                link_run_with(alloc, inputs, options, true, hasher, writer)
            }
            Run::LinkToVec { options } => {
                let hasher = NameHasher::new(KEY);
                let bytes = link_to_vec(alloc, inputs, options, false, hasher)?;
                put(writer, &bytes)
            }
            Run::LinkGlobalsToVec { options } => {
                let hasher = NameHasher::new(KEY);
                let bytes = link_to_vec(alloc, inputs, options, true, hasher)?;
                put(writer, &bytes)
            }
            Run::Image { bases } => image_run(alloc, inputs, bases, writer),
        }
    }
}

/// Writes these bytes.
fn put<A: Allocator + Copy>(writer: &mut Room, bytes: &[u8]) -> Result<(), ToolFault<A>> {
    let mut text = Text::new(writer);
    text.put(bytes);
    Ok(text.finish()?)
}

/// Readers of these files, at most `most` bytes per read. Of the file with this index, the read with
/// this number fails, if there is one.
pub(crate) fn inputs_of(
    rt: &impl Abort,
    alloc: Global,
    objects: &[&[u32]],
    most: usize,
    failing: Option<(usize, u64)>,
) -> Result<Vec<Pieces>, Fail> {
    assert!(rt; 1 <= most);
    let mut inputs = Vec::new(alloc);
    for (file, words) in objects.iter().enumerate() {
        let fails_at = match failing {
            Some((number, read)) if number == file => Some(read),
            _ => None,
        };
        let input = Pieces::new(bytes_of(alloc, words)?, most, fails_at);
        inputs.push(input).map_err(AllocError::from)?;
    }
    Ok(inputs)
}

/// The run writes this text, at most `most` bytes per read and per write.
pub(crate) fn writes(
    rt: &impl Abort,
    alloc: Global,
    objects: &[&[u32]],
    run: Run<'_>,
    most: usize,
    text: &[u8],
) -> Result<(), Fail> {
    assert!(rt; 1 <= most);
    let mut inputs = inputs_of(rt, alloc, objects, most, None)?;
    let mut writer = Room::new(alloc, most, text.len(), false)?;
    let got = run.of(alloc, &mut inputs, &mut writer);
    equals_at(rt, &run, got, Ok(()));
    equals_at(rt, &run, writer.bytes(), text);
    Ok(())
}

/// Loading this file at these addresses writes this report, at most `most` bytes per read and per
/// write.
pub(crate) fn loads_to(
    rt: &impl Abort,
    alloc: Global,
    file: &[u8],
    bases: &[u32],
    most: usize,
    report: &[u8],
) -> Result<(), Fail> {
    assert!(rt; 1 <= most);
    let mut reader = Pieces::new(file.to_vec(alloc)?, most, None);
    let mut writer = Room::new(alloc, most, report.len(), false)?;
    let got = load_run(alloc, &mut reader, bases, &mut writer);
    equals_at(rt, &bases, got, Ok(()));
    equals_at(rt, &bases, writer.bytes(), report);
    Ok(())
}

/// A run ended with this fault, for which the program ends with this status.
pub(crate) fn fails_with(
    rt: &impl Abort,
    got: Result<(), ToolFault>,
    fault: &ToolFault,
    status: u8,
) {
    match got {
        Ok(()) => holds(rt, &("no fault in place of", fault), false),
        Err(other) => {
            equals(rt, &other, fault);
            equals_at(rt, &fault, status_of(&other), status);
        }
    }
}

/// The run refuses these files with this fault, and writes nothing: a writer that takes nothing was
/// not even asked to.
pub(crate) fn refuses(
    rt: &impl Abort,
    alloc: Global,
    objects: &[&[u32]],
    run: Run<'_>,
    fault: &ToolFault,
) -> Result<(), Fail> {
    let mut inputs = inputs_of(rt, alloc, objects, 4096, None)?;
    let mut writer = Room::new(alloc, 1, 0, false)?;
    let got = run.of(alloc, &mut inputs, &mut writer);
    fails_with(rt, got, fault, 1);
    holds(rt, &run, !writer.failed());
    Ok(())
}
