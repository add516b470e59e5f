//! Object files that link, and what becomes of them.

use super::answers::{bytes_of, links_to};
use super::asserts::equals_at;
use super::choices::CHOICES;
use super::runs::{Run, inputs_of, loads_to, writes};
use hunk_tool::{LinkOptions, link_run};
use hunk_words::Watched;
use std::alloc::Global;
use std::process::Abort;
use std::test::Fail;

/// Where the hunks of most cases are placed.
pub(crate) static BASES: [u32; 2] = [0x0001_0000, 0x0002_0000];

/// Bytes per read and per write: all at once, or in pieces.
static PIECES: [usize; 4] = [4096, 1, 3, 5];

/// Object files that link.
#[derive(Clone, Copy)]
pub(crate) struct Case<'a> {
    /// The longwords of each object file.
    pub(crate) objects: &'a [&'a [u32]],
    /// How they are linked.
    pub(crate) options: LinkOptions,
    /// The longwords of the load file.
    pub(crate) linked: &'a [u32],
    /// The address of each hunk.
    pub(crate) bases: &'a [u32],
    /// The report of the memory there.
    pub(crate) report: &'a str,
}

/// Both calls that link units make this load file, and so do both runs that link. Loading it writes
/// the report, and so does an image of the object files. With any other options the load file may be
/// another one, but loading it writes the same report.
pub(crate) fn becomes(rt: &impl Abort, alloc: Global, case: &Case<'_>) -> Result<(), Fail> {
    let Case { objects, bases, .. } = *case;
    let report = case.report.as_bytes();
    links_to(rt, alloc, objects, case.options, Ok(case.linked))?;
    for most in PIECES {
        runs_to(rt, alloc, case, most)?;
        writes(rt, alloc, objects, Run::Image { bases }, most, report)?;
    }
    for &options in &CHOICES {
        loads_alike(rt, alloc, case, options)?;
    }
    Ok(())
}

/// Both runs that link make this load file, and loading it writes the report, at most `most` bytes
/// per read and per write.
pub(crate) fn runs_to(
    rt: &impl Abort,
    alloc: Global,
    case: &Case<'_>,
    most: usize,
) -> Result<(), Fail> {
    let linked = bytes_of(alloc, case.linked)?;
    let report = case.report.as_bytes();
    let Case { options, bases, .. } = *case;
    for run in [Run::Link { options }, Run::LinkToVec { options }] {
        writes(rt, alloc, case.objects, run, most, &linked)?;
    }
    loads_to(rt, alloc, &linked, bases, most, report)
}

/// Linked with these options, the object files have the same report.
fn loads_alike(
    rt: &impl Abort,
    alloc: Global,
    case: &Case<'_>,
    options: LinkOptions,
) -> Result<(), Fail> {
    let mut inputs = inputs_of(rt, alloc, case.objects, 4096, None)?;
    let mut writer = Watched::new(Vec::new(alloc));
    let got = link_run(alloc, &mut inputs, options, &mut writer);
    equals_at(rt, &options, got, Ok(()));
    let linked = writer.into_inner();
    let run = Run::LinkToVec { options };
    writes(rt, alloc, case.objects, run, 4096, &linked)?;
    loads_to(rt, alloc, &linked, case.bases, 4096, case.report.as_bytes())
}
