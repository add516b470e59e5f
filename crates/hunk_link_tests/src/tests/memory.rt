//! Runs with each of their allocations failing in turn.

use super::answers::bytes_of;
use super::asserts::{equals, equals_at, holds};
use super::cases::BASES;
use super::choices::{PLAIN, STRIP};
use super::forms::{FORM_BASES, FORM_REPORT, FORMS, ZEROS_LAST};
use super::runs::{Run, inputs_of};
use super::words::{
    ASSEMBLED, DEFINES, LINKED, LINKED_ALONE, REFERS, REPORT, REPORT_ALONE, STRIPPED,
};
use hunk_test_support::Refusing;
use hunk_tool::{ToolFault, load_run, status_of};
use hunk_words::{Pieces, Room};
use std::alloc::{Allocator, Global};
use std::process::Abort;
use std::test::Fail;

/// More allocations than a run of these tests makes.
const MOST_GROWTHS: u64 = 128;

/// What is run, and the text that it writes.
#[derive(Clone, Copy)]
struct Job<'a> {
    objects: &'a [&'a [u32]],
    run: Run<'a>,
    text: &'a [u8],
}

/// Whether all of the text was written. If not, memory ran out, and what was written is a beginning of
/// the text, as long as the fault tells.
fn is_whole<A: Allocator + Copy>(
    rt: &impl Abort,
    got: Result<(), ToolFault<A>>,
    taken: &[u8],
    text: &[u8],
) -> bool {
    let Err(fault) = got else {
        equals(rt, taken, text);
        return true;
    };
    equals(rt, status_of(&fault), 4);
    match fault {
        ToolFault::OutOfMemory { written } => equals(rt, written, taken.len() as u64),
        _ => holds(rt, &"another fault", false),
    }
    assert!(rt; text.starts_with(taken));
    false
}

/// Whether the job was done on this heap. If not, memory ran out, and only a link to a writer may have
/// written a beginning.
fn is_done<A: Allocator + Copy>(
    rt: &impl Abort,
    alloc: Global,
    heap: A,
    job: Job<'_>,
) -> Result<bool, Fail> {
    let mut inputs = inputs_of(rt, alloc, job.objects, 4096, None)?;
    let mut writer = Room::new(alloc, 4096, job.text.len(), false)?;
    let got = job.run.of(heap, &mut inputs, &mut writer);
    let done = is_whole(rt, got, writer.bytes(), job.text);
    match job.run {
        Run::Link { .. } => {}
        _ => assert!(rt; done || writer.bytes().is_empty()),
    }
    Ok(done)
}

/// Whether the job was done with allocation number `refused` failing, and each one after it: at most
/// two more are asked for.
fn is_done_from_there(
    rt: &impl Abort,
    alloc: Global,
    refused: u64,
    job: Job<'_>,
) -> Result<bool, Fail> {
    let heap = Refusing::all_from(alloc, refused);
    let done = is_done(rt, alloc, &heap, job)?;
    holds(
        rt,
        &("growth", refused),
        heap.asked() <= refused.saturating_add(3),
    );
    Ok(done)
}

/// The number of allocations of the job: memory runs out with each of them failing, alone or with all
/// after it, and the job is done once none fails.
fn growths_of(rt: &impl Abort, alloc: Global, job: Job<'_>) -> Result<u64, Fail> {
    for number in 0..MOST_GROWTHS {
        let heap = Refusing::new(alloc, number);
        let done = is_done(rt, alloc, &heap, job)?;
        equals_at(rt, &("growth", number), done, heap.asked() <= number);
        equals_at(
            rt,
            &("growth", number),
            is_done_from_there(rt, alloc, number, job)?,
            done,
        );
        if done {
            return Ok(number);
        }
    }
    holds(rt, &("each run was refused a growth", MOST_GROWTHS), false);
    Ok(0)
}

#[test]
fn refuses_each_growth_of_a_run(rt: HostRuntime) -> Result<(), Fail> {
    let pair: [&[u32]; 2] = [&REFERS, &DEFINES];
    let alone: [&[u32]; 1] = [&ASSEMBLED];
    let image = Run::Image { bases: &BASES };
    let linked = bytes_of(rt.alloc(), &LINKED)?;
    let unstripped = bytes_of(rt.alloc(), &LINKED_ALONE)?;
    let stripped = bytes_of(rt.alloc(), &STRIPPED)?;
    let rows: [(&[&[u32]], Run<'_>, &[u8]); 6] = [
        (&pair, Run::Link { options: PLAIN }, &linked),
        (&pair, Run::LinkToVec { options: PLAIN }, &linked),
        (&pair, image, REPORT.as_bytes()),
        (&alone, Run::Link { options: PLAIN }, &unstripped),
        (&alone, Run::Link { options: STRIP }, &stripped),
        (&alone, image, REPORT_ALONE.as_bytes()),
    ];
    for (objects, run, text) in rows {
        let growths = growths_of(&rt, rt.alloc(), Job { objects, run, text })?;
        // for each unit its hunks, and of a hunk its content and its sites; the hunks in order, the
        // names, what references add, and the hunks of the load file
        holds(&rt, &(run, "growths", growths), 8 <= growths);
    }
    Ok(())
}

/// Contents are trimmed in place.
#[test]
fn refuses_each_growth_with_every_choice(rt: HostRuntime) -> Result<(), Fail> {
    let mut counts = Vec::new(rt.alloc());
    for &(options, words) in &FORMS {
        let text = bytes_of(rt.alloc(), words)?;
        for run in [Run::Link { options }, Run::LinkToVec { options }] {
            let job = Job {
                objects: &[&ZEROS_LAST],
                run,
                text: &text,
            };
            let growths = growths_of(&rt, rt.alloc(), job)?;
            holds(&rt, &(run, "growths", growths), 8 <= growths);
            counts.push(growths)?;
        }
    }
    equals(&rt, counts.len(), 16);
    equals_at(
        &rt,
        &"trimming asks for no allocation",
        counts.get(..8),
        counts.get(8..),
    );
    Ok(())
}

/// Whether the job was done on this heap, and then the load file loaded at these addresses with this
/// report. If not, memory ran out.
fn is_loaded<A: Allocator + Copy>(
    rt: &impl Abort,
    alloc: Global,
    heap: A,
    job: Job<'_>,
    bases: &[u32],
    report: &[u8],
) -> Result<bool, Fail> {
    if !is_done(rt, alloc, heap, job)? {
        return Ok(false);
    }
    let mut reader = Pieces::new(job.text.to_vec(alloc)?, 4096, None);
    let mut writer = Room::new(alloc, 4096, report.len(), false)?;
    let got = load_run(heap, &mut reader, bases, &mut writer);
    let done = is_whole(rt, got, writer.bytes(), report);
    assert!(rt; done || writer.bytes().is_empty());
    Ok(done)
}

/// Memory runs out with each allocation of the job and of the load failing, and the file is loaded once
/// none fails.
fn loads_once_none_fails(
    rt: &impl Abort,
    alloc: Global,
    job: Job<'_>,
    bases: &[u32],
    report: &[u8],
) -> Result<(), Fail> {
    for number in 0..MOST_GROWTHS {
        let heap = Refusing::new(alloc, number);
        let done = is_loaded(rt, alloc, &heap, job, bases, report)?;
        equals_at(rt, &("growth", number), done, heap.asked() <= number);
        if done {
            return Ok(());
        }
    }
    holds(rt, &("each run was refused a growth", MOST_GROWTHS), false);
    Ok(())
}

#[test]
fn refuses_each_growth_of_a_link_and_a_load(rt: HostRuntime) -> Result<(), Fail> {
    let text = bytes_of(rt.alloc(), &LINKED)?;
    let job = Job {
        objects: &[&REFERS, &DEFINES],
        run: Run::Link { options: PLAIN },
        text: &text,
    };
    loads_once_none_fails(&rt, rt.alloc(), job, &BASES, REPORT.as_bytes())?;
    for &(options, words) in &FORMS {
        let text = bytes_of(rt.alloc(), words)?;
        let job = Job {
            objects: &[&ZEROS_LAST],
            run: Run::Link { options },
            text: &text,
        };
        let report = FORM_REPORT.as_bytes();
        loads_once_none_fails(&rt, rt.alloc(), job, &FORM_BASES, report)?;
    }
    Ok(())
}
