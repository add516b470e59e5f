//! The names in files.

use super::asserts::equals;
use super::outcomes::{is_answered, prints, was_printed};
use hunk_commands::Request;
use hunk_fake_files::{FakeFiles, Log};
use std::alloc::Global;
use std::process::Abort;
use std::test::Fail;

/// The line of the name that `callee` defines and `caller` refers to, if both are given.
const DEFINED: &str = "00000004 T \"foo\" unit 1 hunk 0\n";

/// And if `caller` is given alone.
const UNDEFINED: &str = "         U \"foo\" unit 0 hunk 0\n";

/// `show --names FILE...`.
fn request_for<'a>(alloc: Global, names: &[&'a str]) -> Result<Request<'a>, Fail> {
    Ok(Request::Names {
        files: Vec::from_slice(alloc, names)?,
    })
}

/// `show --names FILE...` ends with this status and this line on standard error, once it has printed this. No file
/// is open any more.
fn names_end(
    rt: &impl Abort,
    alloc: Global,
    names: &[&str],
    end: (u8, &str, &str),
) -> Result<(), Fail> {
    let log = Log::new(alloc);
    prints(rt, alloc, &log, request_for(alloc, names)?, end)?;
    equals(rt, log.open.get(), 0);
    Ok(())
}

#[test]
fn lists_the_names_in_files(rt: HostRuntime) -> Result<(), Fail> {
    let alloc = rt.alloc();
    let files = ["caller", "callee"];
    names_end(&rt, alloc, &files, (0, DEFINED, ""))?;
    names_end(&rt, alloc, &files[..1], (0, UNDEFINED, ""))?;
    let symbol = "00000002 t \"loop\" hunk 0\n";
    names_end(&rt, alloc, &["one-symbol"], (0, symbol, ""))?;
    names_end(&rt, alloc, &["one-hunk"], (0, "", ""))
}

#[test]
fn tells_why_no_names_are_listed(rt: HostRuntime) -> Result<(), Fail> {
    let alloc = rt.alloc();
    let missing = "amihunk: x: cannot be opened\n";
    names_end(&rt, alloc, &["trailing", "x"], (3, "", missing))?;
    let refused = "amihunk: one-symbol: longword 0: wrong first longword\n";
    names_end(&rt, alloc, &["callee", "one-symbol"], (1, "", refused))?;
    let trailing = "amihunk: trailing: longword 10: data after the last hunk\n";
    names_end(&rt, alloc, &["trailing"], (1, "", trailing))?;
    let unread = "amihunk: directory: read failed\n";
    names_end(&rt, alloc, &["directory"], (3, "", unread))
}

#[test]
fn tells_that_the_names_were_not_printed(rt: HostRuntime) -> Result<(), Fail> {
    let alloc = rt.alloc();
    let line = "amihunk: output: write failed\n";
    for printable in 0..UNDEFINED.len() {
        let log = Log::new(alloc);
        log.faults.printable.set(printable);
        let files = FakeFiles {
            openings: 1,
            log: &log,
        };
        let request = request_for(alloc, &["caller"])?;
        is_answered(&rt, &(files, alloc), request, (3, line))?;
        was_printed(&rt, &log, &UNDEFINED.as_bytes()[..printable])?;
    }
    Ok(())
}
