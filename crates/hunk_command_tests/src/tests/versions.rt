//! The version of the program.

use super::asserts::equals;
use super::outcomes::{is_answered, prints, was_printed};
use hunk_commands::{Failure, Printer, Request, VERSION, print_version};
use hunk_fake_files::{FakeFiles, Log};
use std::io;
use std::test::Fail;

const LINE: &str = "amihunk 0.1.0\n";

#[test]
fn tells_the_version(rt: HostRuntime) -> Result<(), Fail> {
    let alloc = rt.alloc();
    equals(&rt, VERSION, "0.1.0");
    prints(
        &rt,
        alloc,
        &Log::new(alloc),
        Request::Version,
        (0, LINE, ""),
    )?;
    for room in 0..LINE.len() {
        let log = Log::new(alloc);
        log.faults.printable.set(room);
        let files = FakeFiles {
            openings: 0,
            log: &log,
        };
        let mut output = Printer::new(alloc, io::writer(&files))?;
        equals(&rt, print_version(&mut output), Err(Failure::Printing));
        drop(output);
        was_printed(&rt, &log, &LINE.as_bytes()[..room])?;
    }
    Ok(())
}

#[test]
fn tells_that_the_version_was_not_printed(rt: HostRuntime) -> Result<(), Fail> {
    let log = Log::new(rt.alloc());
    let system = FakeFiles {
        openings: 0,
        log: &log,
    };
    let line = "amihunk: output: write failed\n";
    is_answered(&rt, &(system, rt.alloc()), Request::Version, (3, line))
}
