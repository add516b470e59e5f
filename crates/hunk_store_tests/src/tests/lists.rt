//! Links of the files in a list, and links that are written to the standard output.

use super::asserts::{equals, equals_at};
use super::outcomes::{is_answered, is_new_out, was_done, was_printed};
use hunk_commands::{FileList, NameEnd, Request};
use hunk_fake_files::{FakeFiles, Log, PLAIN, PROGRAM};
use std::alloc::{AllocError, Global};
use std::test::Fail;

/// A list with this name, whose names end as is told.
const fn list_in(file: &str, end: NameEnd) -> FileList<'_> {
    FileList { file, end }
}

/// The request for a link of these files and those in a list.
fn link_of<'a>(
    alloc: Global,
    out: &'a str,
    files: &[&'a str],
    list: Option<FileList<'a>>,
) -> Result<Request<'a>, AllocError> {
    Ok(Request::Link {
        out,
        map: None,
        options: PLAIN,
        globals: false,
        explain: false,
        files: files.to_vec(alloc)?,
        list,
    })
}

fn system_of(log: &Log) -> FakeFiles<'_> {
    FakeFiles { openings: 40, log }
}

#[test]
fn links_the_files_in_a_list_after_the_others(rt: HostRuntime) -> Result<(), Fail> {
    let alloc = rt.alloc();
    let rows: [(&[&str], &str, NameEnd); 3] = [
        (&[], "lines", NameEnd::Line),
        (&["caller", "callee"], "no-names", NameEnd::Zero),
        (&["caller"], "one-name", NameEnd::Line),
    ];
    for (files, list, end) in rows {
        let log = Log::new(alloc);
        let system = system_of(&log);
        let request = link_of(alloc, "out", files, Some(list_in(list, end)))?;
        is_answered(&rt, &(system, alloc), request, (0, ""))?;
        is_new_out(&rt, alloc, system, &PROGRAM)?;
    }
    Ok(())
}

/// No file is touched if the names in the list are not known.
#[test]
fn tells_why_the_names_in_a_list_are_not_known(rt: HostRuntime) -> Result<(), Fail> {
    let alloc = rt.alloc();
    let rows = [
        ("names", 2, "amihunk: names: name 2 is not UTF-8\n"),
        ("x", 3, "amihunk: x: cannot be opened\n"),
        ("directory", 3, "amihunk: directory: read failed\n"),
    ];
    for (list, status, line) in rows {
        let log = Log::new(alloc);
        let system = system_of(&log);
        let list = list_in(list, NameEnd::Zero);
        let request = link_of(alloc, "out", &["caller", "callee"], Some(list))?;
        is_answered(&rt, &(system, alloc), request, (status, line))?;
        was_done(&rt, &log, "")?;
    }
    Ok(())
}

#[test]
fn writes_a_load_file_to_the_standard_output(rt: HostRuntime) -> Result<(), Fail> {
    let alloc = rt.alloc();
    let log = Log::new(alloc);
    log.faults.printable.set(usize::MAX);
    let system = system_of(&log);
    let request = link_of(alloc, "-", &["caller", "callee"], None)?;
    is_answered(&rt, &(system, alloc), request, (0, ""))?;
    was_printed(&rt, &log, &PROGRAM)?;
    was_done(&rt, &log, "")
}

/// A link that fails prints nothing, and one that is not printed whole says so.
#[test]
fn tells_why_nothing_is_on_the_standard_output(rt: HostRuntime) -> Result<(), Fail> {
    let alloc = rt.alloc();
    let log = Log::new(alloc);
    log.faults.printable.set(usize::MAX);
    let undefined = "amihunk: link: unit 0 hunk 0: \"foo\" not defined\n";
    let request = link_of(alloc, "-", &["caller"], None)?;
    is_answered(&rt, &(system_of(&log), alloc), request, (1, undefined))?;
    was_printed(&rt, &log, b"")?;
    for room in 0..PROGRAM.len() {
        let log = Log::new(alloc);
        log.faults.printable.set(room);
        let request = link_of(alloc, "-", &["caller", "callee"], None)?;
        let unwritten = (3, "amihunk: output: write failed\n");
        is_answered(&rt, &(system_of(&log), alloc), request, unwritten)?;
        equals_at(
            &rt,
            &room,
            log.printed.try_borrow()?.as_slice(),
            &PROGRAM[..room],
        );
        equals(&rt, log.open.get(), 0);
    }
    Ok(())
}
