//! Units that do not link.

use super::answers::links_to;
use super::cases::BASES;
use super::choices::{PLAIN, STRIP_SHORT_TRIM};
use super::names::{duplicate, undefined};
use super::runs::{Run, refuses};
use super::words::{DEFINES, DEFINES_NUMBER, FOREIGN, NO_HUNKS, REFERS};
use hunk_link::LinkRefusal;
use hunk_tool::ToolFault;
use std::alloc::Global;
use std::process::Abort;
use std::test::Fail;

/// The longword of the name `foo`.
const FOO: u32 = 0x666F6F00;

/// The units of these files do not link, for this reason: by both calls that link, and by runs, which
/// write nothing. The options do not matter, nor whether an image could be placed.
pub(crate) fn is_refused(
    rt: &impl Abort,
    alloc: Global,
    objects: &[&[u32]],
    refusal: LinkRefusal,
) -> Result<(), Fail> {
    for options in [PLAIN, STRIP_SHORT_TRIM] {
        links_to(rt, alloc, objects, options, Err(&refusal))?;
    }
    let fault = ToolFault::Link(refusal);
    for options in [PLAIN, STRIP_SHORT_TRIM] {
        refuses(rt, alloc, objects, Run::Link { options }, &fault)?;
        refuses(rt, alloc, objects, Run::LinkToVec { options }, &fault)?;
    }
    refuses(rt, alloc, objects, Run::Image { bases: &BASES }, &fault)?;
    refuses(rt, alloc, objects, Run::Image { bases: &[] }, &fault)
}

#[test]
fn tells_the_first_name_that_is_defined_twice(rt: HostRuntime) -> Result<(), Fail> {
    let third = duplicate(rt.alloc(), 2, 0, FOO)?;
    is_refused(&rt, rt.alloc(), &[&REFERS, &DEFINES, &DEFINES], third)?;
    let second = duplicate(rt.alloc(), 1, 0, FOO)?;
    is_refused(&rt, rt.alloc(), &[&DEFINES, &DEFINES_NUMBER], second)?;
    // that no hunk defines `bar` comes after that in the order of reasons
    let mut refers = REFERS;
    refers[8] = 0x62617200;
    let second = duplicate(rt.alloc(), 1, 0, FOO)?;
    is_refused(&rt, rt.alloc(), &[&DEFINES, &DEFINES, &refers], second)
}

#[test]
fn tells_a_name_that_no_hunk_defines(rt: HostRuntime) -> Result<(), Fail> {
    let first = undefined(rt.alloc(), 0, 0, FOO)?;
    is_refused(&rt, rt.alloc(), &[&REFERS], first)
}

#[test]
fn refuses_units_without_hunks(rt: HostRuntime) -> Result<(), Fail> {
    is_refused(&rt, rt.alloc(), &[], LinkRefusal::NoHunks)?;
    is_refused(&rt, rt.alloc(), &[&NO_HUNKS], LinkRefusal::NoHunks)
}

/// In the order of reasons it comes before a name that is defined twice.
#[test]
fn tells_a_hunk_that_its_unit_does_not_have(rt: HostRuntime) -> Result<(), Fail> {
    let alone: [&[u32]; 1] = [&FOREIGN];
    let first: [&[u32]; 3] = [&FOREIGN, &DEFINES, &DEFINES];
    for objects in [alone.as_slice(), &first] {
        let foreign = LinkRefusal::NoSuchHunk {
            unit: 0,
            hunk: 0,
            target: 2,
        };
        is_refused(&rt, rt.alloc(), objects, foreign)?;
    }
    Ok(())
}
