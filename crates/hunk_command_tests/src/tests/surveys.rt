//! What a survey tells of files.

use super::asserts::{equals, equals_at, holds};
use super::outcomes::{is_answered, was_printed};
use super::systems::survey;
use hunk_commands::{Failure, FileList, NameEnd, Request, SurveyOptions};
use hunk_fake_files::{FakeFiles, Log};
use std::alloc::Global;
use std::process::Abort;
use std::test::Fail;

/// A survey as text, without digests, which waits for no file but an only one.
const TEXT: SurveyOptions = SurveyOptions {
    json: false,
    digest: false,
    wait: false,
};

const JSON: SurveyOptions = SurveyOptions { json: true, ..TEXT };

const WAITING: SurveyOptions = SurveyOptions { wait: true, ..TEXT };

/// The names that zero bytes end in a file.
const fn names_in(file: &str) -> Option<FileList<'_>> {
    Some(FileList {
        file,
        end: NameEnd::Zero,
    })
}

/// The end of a survey of these files.
fn surveyed<'a>(
    alloc: Global,
    log: &Log,
    options: SurveyOptions,
    files: &[&[u8]],
    list: Option<FileList<'a>>,
) -> Result<Result<u8, Failure<'a>>, Fail> {
    let system = (FakeFiles { openings: 100, log }, alloc);
    survey(&system, options, files, list)
}

/// A survey of the files prints these lines, ends with this status, and has at most two of them open: the list,
/// and the one that is read.
fn is_told(
    rt: &impl Abort,
    alloc: Global,
    options: SurveyOptions,
    files: &[&[u8]],
    list: Option<FileList<'_>>,
    (lines, status): (&str, u8),
) -> Result<(), Fail> {
    let log = Log::new(alloc);
    log.faults.printable.set(usize::MAX);
    equals(rt, surveyed(alloc, &log, options, files, list)?, Ok(status));
    was_printed(rt, &log, lines.as_bytes())?;
    let most = if list.is_some() { 2 } else { 1 };
    holds(rt, &files, log.most_open.get() <= most);
    equals(rt, log.open.get(), 0);
    Ok(())
}

#[test]
fn tells_what_each_file_is(rt: HostRuntime) -> Result<(), Fail> {
    let alloc = rt.alloc();
    let three = "caller: object file: 1 units, 1 hunks\nzeros: object file: 1 units, 1 hunks\n\
         caller: object file: 1 units, 1 hunks\n\
         3 files: 3 object files, 0 load files, 0 refused, 0 unreadable\n\
         0 refused, of which 0 are no hunk files\n";
    is_told(
        &rt,
        alloc,
        TEXT,
        &[b"caller", b"zeros", b"caller"],
        None,
        (three, 0),
    )?;
    let none = "0 files: 0 object files, 0 load files, 0 refused, 0 unreadable\n\
         0 refused, of which 0 are no hunk files\n";
    is_told(&rt, alloc, TEXT, &[], None, (none, 0))?;
    is_told(&rt, alloc, JSON, &[], None, ("", 0))
}

#[test]
fn goes_on_after_each_file_that_is_none(rt: HostRuntime) -> Result<(), Fail> {
    let alloc = rt.alloc();
    // `full` has no bytes.
    let six = "full: longword 0: file ends too early\ncaller: object file: 1 units, 1 hunks\n\
         no: cannot be opened\npipe: object file: 1 units, 1 hunks\ndirectory: is a directory\n\
         loop: object file: 1 units, 1 hunks\n\
         6 files: 3 object files, 0 load files, 1 refused, 2 unreadable\n\
         1 refused, of which 1 are no hunk files\n";
    let files: [&[u8]; 6] = [b"full", b"caller", b"no", b"pipe", b"directory", b"loop"];
    is_told(&rt, alloc, TEXT, &files, None, (six, 3))?;
    let two = "full: longword 0: file ends too early\ncallee: object file: 1 units, 1 hunks\n\
         2 files: 1 object files, 0 load files, 1 refused, 0 unreadable\n\
         1 refused, of which 1 are no hunk files\n";
    is_told(&rt, alloc, TEXT, &[b"full", b"callee"], None, (two, 1))
}

#[test]
fn tells_what_each_file_is_in_json(rt: HostRuntime) -> Result<(), Fail> {
    let lines =
        "{\"file\":\"full\",\"kind\":\"refused\",\"place\":0,\"reason\":\"file ends too early\",\
         \"number\":null,\"hunk file\":false}\n\
         {\"file\":\"caller\",\"kind\":\"object file\",\"units\":1,\"hunks\":1}\n\
         {\"file\":[255],\"kind\":\"unreadable\"}\n\
         {\"file\":\"directory\",\"kind\":\"unreadable\"}\n";
    let files: [&[u8]; 4] = [b"full", b"caller", b"\xFF", b"directory"];
    is_told(&rt, rt.alloc(), JSON, &files, None, (lines, 3))
}

/// What is no regular file is waited for if it is the only one, or if that is asked for.
#[test]
fn waits_for_no_file_but_an_only_one(rt: HostRuntime) -> Result<(), Fail> {
    let alloc = rt.alloc();
    let files: [&[u8]; 2] = [b"named-pipe", b"callee"];
    let skipped = "named-pipe: not a regular file\ncallee: object file: 1 units, 1 hunks\n\
         2 files: 1 object files, 0 load files, 0 refused, 1 unreadable\n\
         0 refused, of which 0 are no hunk files\n";
    is_told(&rt, alloc, TEXT, &files, None, (skipped, 3))?;
    let waited =
        "named-pipe: object file: 1 units, 1 hunks\ncallee: object file: 1 units, 1 hunks\n\
         2 files: 2 object files, 0 load files, 0 refused, 0 unreadable\n\
         0 refused, of which 0 are no hunk files\n";
    is_told(&rt, alloc, WAITING, &files, None, (waited, 0))?;
    let only = "named-pipe: object file: 1 units, 1 hunks\n\
         1 files: 1 object files, 0 load files, 0 refused, 0 unreadable\n\
         0 refused, of which 0 are no hunk files\n";
    is_told(&rt, alloc, TEXT, &[b"named-pipe"], None, (only, 0))?;
    let with_a_list = "named-pipe: not a regular file\n\
         1 files: 0 object files, 0 load files, 0 refused, 1 unreadable\n\
         0 refused, of which 0 are no hunk files\n";
    let list = names_in("no-names");
    is_told(&rt, alloc, TEXT, &[b"named-pipe"], list, (with_a_list, 3))
}

#[test]
fn tells_of_the_files_in_a_list_after_the_others(rt: HostRuntime) -> Result<(), Fail> {
    let alloc = rt.alloc();
    let listed = "zeros: object file: 1 units, 1 hunks\ncaller: object file: 1 units, 1 hunks\n\
         x: cannot be opened\n\"caller\\xff\": cannot be opened\ncallee: object file: 1 units, 1 hunks\n\
         5 files: 3 object files, 0 load files, 0 refused, 2 unreadable\n\
         0 refused, of which 0 are no hunk files\n";
    is_told(
        &rt,
        alloc,
        TEXT,
        &[b"zeros"],
        names_in("names"),
        (listed, 3),
    )?;
    let lines = "caller: object file: 1 units, 1 hunks\ncallee: object file: 1 units, 1 hunks\n\
         2 files: 2 object files, 0 load files, 0 refused, 0 unreadable\n\
         0 refused, of which 0 are no hunk files\n";
    let list = Some(FileList {
        file: "lines",
        end: NameEnd::Line,
    });
    is_told(&rt, alloc, TEXT, &[], list, (lines, 0))
}

/// Nothing is printed of a list that cannot be opened, and the lines before it of one that cannot be read.
#[test]
fn ends_with_a_list_that_cannot_be_read(rt: HostRuntime) -> Result<(), Fail> {
    let alloc = rt.alloc();
    let log = Log::new(alloc);
    log.faults.printable.set(usize::MAX);
    let missing = surveyed(alloc, &log, TEXT, &[b"callee"], names_in("not-allowed"))?;
    holds(
        &rt,
        &"opening",
        matches!(missing, Err(Failure::Opening("not-allowed", _))),
    );
    was_printed(&rt, &log, b"")?;
    let unread = surveyed(alloc, &log, TEXT, &[b"callee"], names_in("directory"))?;
    equals(&rt, unread, Err(Failure::Reading("directory")));
    was_printed(&rt, &log, b"callee: object file: 1 units, 1 hunks\n")?;
    equals(&rt, log.open.get(), 0);
    Ok(())
}

#[test]
fn tells_that_a_survey_was_not_printed(rt: HostRuntime) -> Result<(), Fail> {
    let lines = b"callee: object file: 1 units, 1 hunks\n\
                  1 files: 1 object files, 0 load files, 0 refused, 0 unreadable\n\
                  0 refused, of which 0 are no hunk files\n";
    for room in 0..lines.len() {
        let log = Log::new(rt.alloc());
        log.faults.printable.set(room);
        let unwritten = surveyed(rt.alloc(), &log, TEXT, &[b"callee"], None)?;
        equals_at(&rt, &room, unwritten, Err(Failure::Printing));
        was_printed(&rt, &log, &lines[..room])?;
    }
    Ok(())
}

/// The standard output takes no byte.
#[test]
fn ends_with_the_status_of_a_failed_write(rt: HostRuntime) -> Result<(), Fail> {
    let log = Log::new(rt.alloc());
    let system = FakeFiles {
        openings: 100,
        log: &log,
    };
    let files: [&[u8]; 1] = [b"callee"];
    let request = Request::Survey {
        options: TEXT,
        files: files.to_vec(rt.alloc())?,
        list: None,
    };
    let line = "amihunk: output: write failed\n";
    is_answered(&rt, &(system, rt.alloc()), request, (3, line))
}
