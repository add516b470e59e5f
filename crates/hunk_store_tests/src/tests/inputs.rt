//! Files that are open at once.

use super::asserts::{equals, equals_at, holds};
use super::systems::store_of;
use hunk_fake_files::{FakeFiles, Log};
use hunk_store::{Failure, open_inputs};
use hunk_tool::OpenFault;
use hunk_words::Source;
use std::process::Abort;
use std::rt::Files;
use std::test::Fail;

/// Of 40 files with this name, so many are open before they are read.
fn opens<R: Files + Print + AllocGlobal>(
    rt: &impl Abort,
    system: &R,
    log: &Log,
    name: &str,
    open: usize,
) -> Result<(), Fail> {
    let store = store_of(system);
    let inputs = open_inputs(system.alloc(), &store, &[name; 40])
        .ok()
        .ok_or("inputs")?;
    equals(rt, inputs.len(), 40);
    equals(rt, log.open.get(), open);
    equals(rt, log.reads.get(), 0);
    Ok(())
}

#[test]
fn a_regular_file_after_the_first_32_is_closed_until_it_is_read(
    rt: HostRuntime,
) -> Result<(), Fail> {
    for (name, open) in [("loop", 32), ("pipe", 40), ("directory", 40)] {
        let log = Log::new(rt.alloc());
        let files = FakeFiles {
            openings: 40,
            log: &log,
        };
        opens(&rt, &(files, rt.alloc()), &log, name, open)?;
    }
    Ok(())
}

/// The last of 33 files is opened by its first read, and closed by the one that finds its end.
fn opens_the_last<R: Files + Print + AllocGlobal>(
    rt: &impl Abort,
    system: &R,
    log: &Log,
) -> Result<(), Fail> {
    let store = store_of(system);
    let mut inputs = open_inputs(system.alloc(), &store, &["loop"; 33])
        .ok()
        .ok_or("inputs")?;
    let mut last = inputs.pop().ok_or("inputs")?;
    let mut buffer = [0; 40];
    for (count, open) in [(40, 33), (4, 33), (0, 32), (0, 32)] {
        holds(
            rt,
            &count,
            last.read(&mut buffer).is_ok_and(|got| got == count),
        );
        equals_at(rt, &count, log.open.get(), open);
    }
    equals(rt, log.reads.get(), 3);
    Ok(())
}

#[test]
fn an_input_is_open_from_its_first_read_to_its_end(rt: HostRuntime) -> Result<(), Fail> {
    let log = Log::new(rt.alloc());
    let files = FakeFiles {
        openings: 34,
        log: &log,
    };
    opens_the_last(&rt, &(files, rt.alloc()), &log)
}

/// Why these files are not opened.
fn failure_of<'a, R: Files + Print + AllocGlobal>(
    system: &R,
    names: &[&'a str],
) -> Option<Failure<'a>> {
    match open_inputs(system.alloc(), &store_of(system), names) {
        Ok(_) => None,
        Err(failure) => Some(failure),
    }
}

#[test]
fn the_first_file_that_cannot_be_opened_decides_before_any_is_read(rt: HostRuntime) {
    let log = Log::new(rt.alloc());
    let files = FakeFiles {
        openings: 40,
        log: &log,
    };
    let got = failure_of(&(files, rt.alloc()), &["directory", "x", "y", "loop"]);
    equals(&rt, got, Some(Failure::Opening("x", OpenFault::NotFound)));
    equals(&rt, log.opened.get(), 1);
    equals(&rt, log.reads.get(), 0);
    equals(&rt, log.open.get(), 0);
}
