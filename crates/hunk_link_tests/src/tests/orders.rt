//! Which of several faults a run tells, before anything is written.

use super::cases::BASES;
use super::choices::{PLAIN, SHORT_TRIM};
use super::names::undefined;
use super::runs::{Run, refuses};
use super::words::{ADDRESS, ASSEMBLED, DEFINES, LINKED, REFERS};
use hunk_tool::{PlaceFault, ToolFault};
use hunk_words::{Fault, Reason};
use std::alloc::Global;
use std::process::Abort;
use std::test::Fail;

/// Each run refuses these files, for what stands at this place of one of them.
fn refuses_input(
    rt: &impl Abort,
    alloc: Global,
    objects: &[&[u32]],
    file: usize,
    place: u64,
    reason: Reason,
) -> Result<(), Fail> {
    let fault = Fault { place, reason };
    let input = ToolFault::Input { file, fault };
    for run in [
        Run::Link { options: PLAIN },
        Run::Link {
            options: SHORT_TRIM,
        },
        Run::LinkToVec { options: PLAIN },
        Run::LinkToVec {
            options: SHORT_TRIM,
        },
        Run::Image { bases: &BASES },
    ] {
        refuses(rt, alloc, objects, run, &input)?;
    }
    Ok(())
}

/// The name that `REFERS` needs would not be defined either.
#[test]
fn tells_the_first_input_that_is_refused(rt: HostRuntime) -> Result<(), Fail> {
    let alloc = rt.alloc();
    let cut = &DEFINES[..11];
    let wrong = Reason::WrongStart;
    refuses_input(&rt, alloc, &[&LINKED], 0, 0, wrong)?;
    refuses_input(&rt, alloc, &[&REFERS, &LINKED], 1, 0, wrong)?;
    refuses_input(&rt, alloc, &[&LINKED, cut], 0, 0, wrong)?;
    let end = Reason::UnexpectedEnd;
    refuses_input(&rt, alloc, &[&REFERS, cut, &LINKED], 1, 11, end)?;
    let both = [0x3E7, 0, 0xC00003EA, 1, 0, 0x3F2];
    refuses_input(&rt, alloc, &[&both], 0, 2, Reason::BothMemoryBits)
}

#[test]
fn tells_the_link_before_the_places(rt: HostRuntime) -> Result<(), Fail> {
    let fault = ToolFault::Link(undefined(rt.alloc(), 0, 0, 0x666F_6F00)?);
    for bases in [
        [].as_slice(),
        &[0x1000, 0x1000, 0x1000],
        &[0x1000, 0x2000, 0x3000],
    ] {
        refuses(
            &rt,
            rt.alloc(),
            &[&REFERS, &ADDRESS],
            Run::Image { bases },
            &fault,
        )?;
    }
    Ok(())
}

/// Each hunk has two longwords.
#[test]
fn tells_where_hunks_cannot_be_placed(rt: HostRuntime) -> Result<(), Fail> {
    let pair: [&[u32]; 2] = [&REFERS, &DEFINES];
    let alone: [&[u32]; 1] = [&ASSEMBLED];
    let rows: [(&[u32], PlaceFault); 6] = [
        (&[], PlaceFault::WrongCount),
        (&[0x1000], PlaceFault::WrongCount),
        (&[0x1000, 0x2000, 0x3000], PlaceFault::WrongCount),
        (&[0x1000, 0xFFFF_FFF9], PlaceFault::PastEnd(1)),
        (&[0x1000, 0x1007], PlaceFault::Overlap(0, 1)),
        (&[0x1007, 0x1000], PlaceFault::Overlap(0, 1)),
    ];
    for (bases, place) in rows {
        let fault = ToolFault::Place(place);
        refuses(&rt, rt.alloc(), &pair, Run::Image { bases }, &fault)?;
        refuses(&rt, rt.alloc(), &alone, Run::Image { bases }, &fault)?;
    }
    Ok(())
}
