//! The load file of object files.

use super::asserts::equals;
use super::outcomes::{NEW_OUT, is_new_out, is_under, was_done};
use super::systems::link;
use hunk_commands::Failure;
use hunk_fake_files::{CALLEE, FakeFiles, Log, PLAIN, PROGRAM};
use hunk_tool::{LinkOptions, OpenFault, ToolFault};
use std::alloc::Global;
use std::process::Abort;
use std::test::Fail;

const STRIP: LinkOptions = LinkOptions {
    strip: true,
    ..PLAIN
};

const SHORT: LinkOptions = LinkOptions {
    short: true,
    ..PLAIN
};

const TRIM: LinkOptions = LinkOptions {
    trim: true,
    ..PLAIN
};

/// The load file of the files, put under the name `out`, is these bytes.
fn is_written(
    rt: &impl Abort,
    alloc: Global,
    options: LinkOptions,
    files: &[&str],
    bytes: &[u8],
) -> Result<(), Fail> {
    let log = Log::new(alloc);
    let system = FakeFiles {
        openings: 100,
        log: &log,
    };
    equals(rt, link(&(system, alloc), "out", options, files), Ok(()));
    is_new_out(rt, alloc, system, bytes)
}

#[test]
fn writes_the_load_file_of_object_files(rt: HostRuntime) -> Result<(), Fail> {
    let alloc = rt.alloc();
    let files = ["caller", "callee"];
    is_written(&rt, alloc, PLAIN, &files, &PROGRAM)?;
    is_written(&rt, alloc, STRIP, &files, &PROGRAM)
}

#[test]
fn strip_leaves_out_symbols(rt: HostRuntime) -> Result<(), Fail> {
    let whole = [
        0, 0, 3, 0xF3, 0, 0, 0, 0, 0, 0, 0, 1, 0, 0, 0, 0, 0, 0, 0, 0, 0, 0, 0, 1, 0, 0, 3, 0xE9,
        0, 0, 0, 1, 0x4E, 0x75, 0x4E, 0x71, 0, 0, 3, 0xF0, 0, 0, 0, 1, 0x6C, 0x6F, 0x6F, 0x70, 0,
        0, 0, 2, 0, 0, 0, 0, 0, 0, 3, 0xF2,
    ];
    is_written(&rt, rt.alloc(), PLAIN, &["pipe"], &whole)?;
    let stripped = [
        0, 0, 3, 0xF3, 0, 0, 0, 0, 0, 0, 0, 1, 0, 0, 0, 0, 0, 0, 0, 0, 0, 0, 0, 1, 0, 0, 3, 0xE9,
        0, 0, 0, 1, 0x4E, 0x75, 0x4E, 0x71, 0, 0, 3, 0xF2,
    ];
    is_written(&rt, rt.alloc(), STRIP, &["pipe"], &stripped)
}

#[test]
fn short_writes_relocations_in_words(rt: HostRuntime) -> Result<(), Fail> {
    let short = [
        0, 0, 3, 0xF3, 0, 0, 0, 0, 0, 0, 0, 2, 0, 0, 0, 0, 0, 0, 0, 1, 0, 0, 0, 2, 0, 0, 0, 2, 0,
        0, 3, 0xE9, 0, 0, 0, 2, 0x4E, 0xB9, 0, 0, 0, 4, 0x4E, 0x75, 0, 0, 3, 0xFC, 0, 1, 0, 1, 0,
        2, 0, 0, 0, 0, 3, 0xF2, 0, 0, 3, 0xE9, 0, 0, 0, 2, 0x4E, 0x71, 0x4E, 0x71, 0x4E, 0x75,
        0x4E, 0x71, 0, 0, 3, 0xF2,
    ];
    is_written(&rt, rt.alloc(), SHORT, &["caller", "callee"], &short)
}

#[test]
fn trim_leaves_out_zeros_at_the_end(rt: HostRuntime) -> Result<(), Fail> {
    let whole = [
        0, 0, 3, 0xF3, 0, 0, 0, 0, 0, 0, 0, 1, 0, 0, 0, 0, 0, 0, 0, 0, 0, 0, 0, 3, 0, 0, 3, 0xE9,
        0, 0, 0, 3, 0x4E, 0x71, 0x4E, 0x75, 0, 0, 0, 0, 0, 0, 0, 0, 0, 0, 3, 0xEC, 0, 0, 0, 1, 0,
        0, 0, 0, 0, 0, 0, 4, 0, 0, 0, 0, 0, 0, 3, 0xF2,
    ];
    is_written(&rt, rt.alloc(), PLAIN, &["zeros"], &whole)?;
    let trimmed = [
        0, 0, 3, 0xF3, 0, 0, 0, 0, 0, 0, 0, 1, 0, 0, 0, 0, 0, 0, 0, 0, 0, 0, 0, 3, 0, 0, 3, 0xE9,
        0, 0, 0, 2, 0x4E, 0x71, 0x4E, 0x75, 0, 0, 0, 0, 0, 0, 3, 0xEC, 0, 0, 0, 1, 0, 0, 0, 0, 0,
        0, 0, 4, 0, 0, 0, 0, 0, 0, 3, 0xF2,
    ];
    is_written(&rt, rt.alloc(), TRIM, &["zeros"], &trimmed)?;
    let compact = [
        0, 0, 3, 0xF3, 0, 0, 0, 0, 0, 0, 0, 1, 0, 0, 0, 0, 0, 0, 0, 0, 0, 0, 0, 3, 0, 0, 3, 0xE9,
        0, 0, 0, 2, 0x4E, 0x71, 0x4E, 0x75, 0, 0, 0, 0, 0, 0, 3, 0xFC, 0, 1, 0, 0, 0, 4, 0, 0, 0,
        0, 3, 0xF2,
    ];
    let options = LinkOptions {
        strip: true,
        short: true,
        trim: true,
    };
    is_written(&rt, rt.alloc(), options, &["zeros"], &compact)
}

/// Linking the files to `out` fails for this reason, and nothing is done to a file.
fn fails<'a>(
    rt: &impl Abort,
    alloc: Global,
    files: &[&'a str],
    failure: Failure<'a>,
) -> Result<(), Fail> {
    let log = Log::new(alloc);
    let system = FakeFiles {
        openings: 40,
        log: &log,
    };
    let got = link(&(system, alloc), "out", PLAIN, files);
    equals(rt, got, Err(failure));
    was_done(rt, &log, "")?;
    is_under(rt, alloc, system, "out", None)
}

#[test]
fn out_is_not_touched_before_the_files_are_linked(rt: HostRuntime) -> Result<(), Fail> {
    let alloc = rt.alloc();
    let missing = Failure::Opening("x", OpenFault::NotFound);
    fails(&rt, alloc, &["caller", "x", "y"], missing)?;
    let unread = Failure::Tool(ToolFault::InputDevice { file: 1 });
    fails(&rt, alloc, &["loop", "directory"], unread)?;
    let log = Log::new(alloc);
    let files = FakeFiles {
        openings: 40,
        log: &log,
    };
    let system = (files, alloc);
    let unlinked = link(&system, "callee", PLAIN, &["caller"]);
    assert!(rt; matches!(unlinked, Err(Failure::Tool(ToolFault::Link(_)))));
    was_done(&rt, &log, "")?;
    is_under(&rt, alloc, files, "callee", Some(&CALLEE))
}

#[test]
fn at_most_33_of_40_regular_files_are_open_at_once(rt: HostRuntime) -> Result<(), Fail> {
    let alloc = rt.alloc();
    let log = Log::new(alloc);
    let system = FakeFiles {
        openings: 48,
        log: &log,
    };
    equals(
        &rt,
        link(&(system, alloc), "out", PLAIN, &["loop"; 40]),
        Ok(()),
    );
    equals(&rt, log.opened.get(), 48);
    equals(&rt, log.most_open.get(), 33);
    was_done(&rt, &log, NEW_OUT)
}

#[test]
fn a_file_that_is_gone_when_it_is_read_is_a_failed_read(rt: HostRuntime) -> Result<(), Fail> {
    let gone = Failure::Tool(ToolFault::InputDevice { file: 32 });
    fails(&rt, rt.alloc(), &["loop"; 40], gone)
}
