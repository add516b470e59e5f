//! A load file, written again.

use super::asserts::equals;
use super::outcomes::{is_answered, is_new_out, is_under, was_done};
use super::systems::copy;
use hunk_commands::{Failure, Request};
use hunk_fake_files::{FakeFiles, Log, ONE_HUNK, ONE_SYMBOL, PLAIN, TRIMMED, ZERO_TAIL};
use hunk_tool::{CopyForm, LinkOptions, OpenFault, ToolFault};
use hunk_words::{Fault, Reason};
use std::alloc::Global;
use std::process::Abort;
use std::test::Fail;

const WHOLE: CopyForm = CopyForm::Written(PLAIN);

const STRIPPED: CopyForm = CopyForm::Written(LinkOptions {
    strip: true,
    ..PLAIN
});

const TRIM: CopyForm = CopyForm::Written(LinkOptions {
    trim: true,
    ..PLAIN
});

/// The copy of the file, put under the name `out`, is these bytes.
fn is_copied(
    rt: &impl Abort,
    alloc: Global,
    form: CopyForm,
    file: &str,
    bytes: &[u8],
) -> Result<(), Fail> {
    let log = Log::new(alloc);
    let system = FakeFiles {
        openings: 100,
        log: &log,
    };
    equals(rt, copy(&(system, alloc), "out", form, file), Ok(()));
    is_new_out(rt, alloc, system, bytes)
}

#[test]
fn writes_a_load_file_again(rt: HostRuntime) -> Result<(), Fail> {
    let alloc = rt.alloc();
    is_copied(&rt, alloc, WHOLE, "one-symbol", &ONE_SYMBOL)?;
    is_copied(&rt, alloc, STRIPPED, "one-symbol", &ONE_HUNK)?;
    is_copied(&rt, alloc, TRIM, "one-symbol", &ONE_SYMBOL)?;
    is_copied(&rt, alloc, WHOLE, "zero-tail", &ZERO_TAIL)?;
    is_copied(&rt, alloc, TRIM, "zero-tail", &TRIMMED)?;
    is_copied(&rt, alloc, CopyForm::Normal, "zero-tail", &TRIMMED)?;
    is_copied(&rt, alloc, CopyForm::Normal, "one-symbol", &ONE_HUNK)
}

/// Why the file is not copied. Nothing is left under the name `out`, and this was done.
fn is_refused(
    rt: &impl Abort,
    alloc: Global,
    file: &str,
    failure: Failure<'_>,
    events: &str,
) -> Result<(), Fail> {
    let log = Log::new(alloc);
    let system = FakeFiles {
        openings: 100,
        log: &log,
    };
    equals(rt, copy(&(system, alloc), "out", WHOLE, file), Err(failure));
    was_done(rt, &log, events)?;
    is_under(rt, alloc, system, "out", None)
}

#[test]
fn tells_why_there_is_no_copy(rt: HostRuntime) -> Result<(), Fail> {
    let alloc = rt.alloc();
    let missing = Failure::Opening("x", OpenFault::NotFound);
    is_refused(&rt, alloc, "x", missing, "")?;
    let unread = Failure::Tool(ToolFault::InputDevice { file: 0 });
    is_refused(&rt, alloc, "directory", unread, "")?;
    let fault = Fault {
        place: 10,
        reason: Reason::TrailingData,
    };
    let trailing = Failure::Tool(ToolFault::Input { file: 0, fault });
    is_refused(&rt, alloc, "trailing", trailing, "")
}

#[test]
fn replaces_the_file_that_is_copied(rt: HostRuntime) -> Result<(), Fail> {
    let alloc = rt.alloc();
    let log = Log::new(alloc);
    let system = FakeFiles {
        openings: 100,
        log: &log,
    };
    let got = copy(&(system, alloc), "one-symbol", STRIPPED, "one-symbol");
    equals(&rt, got, Ok(()));
    is_under(&rt, alloc, system, "one-symbol", Some(&ONE_HUNK))
}

/// `copy --out OUT FILE` ends with this status and this line.
fn copy_ends(
    rt: &impl Abort,
    alloc: Global,
    out: &str,
    file: &str,
    status: u8,
    line: &str,
) -> Result<(), Fail> {
    let log = Log::new(alloc);
    let system = FakeFiles {
        openings: 40,
        log: &log,
    };
    let request = Request::Copy {
        out,
        form: WHOLE,
        explain: false,
        file,
    };
    is_answered(rt, &(system, alloc), request, (status, line))
}

#[test]
fn tells_how_a_copy_ended(rt: HostRuntime) -> Result<(), Fail> {
    let alloc = rt.alloc();
    copy_ends(&rt, alloc, "out", "one-hunk", 0, "")?;
    let object = "amihunk: caller: longword 0: wrong first longword\n";
    copy_ends(&rt, alloc, "out", "caller", 1, object)?;
    let missing = "amihunk: x: cannot be opened\n";
    copy_ends(&rt, alloc, "out", "x", 3, missing)?;
    let unread = "amihunk: directory: read failed\n";
    copy_ends(&rt, alloc, "out", "directory", 3, unread)?;
    let uncreated = "amihunk: directory: cannot be opened\n";
    copy_ends(&rt, alloc, "directory", "one-hunk", 3, uncreated)?;
    let unwritten = "amihunk: output: write failed\n";
    copy_ends(&rt, alloc, "full", "one-hunk", 3, unwritten)
}
