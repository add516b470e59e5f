//! Each way in which a load file takes the place of another file, and each fault on the way.

use super::asserts::{equals, equals_at, holds};
use super::outcomes::{NEW_OUT, NO_NEW_OUT, OVER_CALLEE, is_answered, is_under, was_done};
use super::systems::link;
use hunk_commands::{Failure, Request};
use hunk_fake_files::{CALLEE, FakeFiles, Log, PLAIN, PROGRAM};
use hunk_tool::OpenFault;
use std::alloc::Global;
use std::io::ErrorKind;
use std::process::Abort;
use std::test::Fail;

/// OUT, what is done to put the load file there, and the name that it is under then.
static WAYS: [(&str, &str, &str); 6] = [
    // A regular file, which is one of those that are linked.
    ("callee", OVER_CALLEE, "callee"),
    ("out", NEW_OUT, "out"),
    // The first two names for a new file are taken.
    (
        "crowded/out",
        "create crowded/.amihunk-2\nsync crowded/.amihunk-2\n\
         rename crowded/.amihunk-2 crowded/out\n",
        "crowded/out",
    ),
    // A symbolic link to a file, which stays a link.
    (
        "alias",
        "open folder/callee\ncreate folder/.amihunk-0\npermissions folder/.amihunk-0\n\
         sync folder/.amihunk-0\nrename folder/.amihunk-0 folder/callee\n",
        "folder/callee",
    ),
    // A symbolic link to no file.
    ("dangling", "create folder/new\n", "folder/new"),
    ("pipe", "open pipe\n", "pipe"),
];

/// OUT, and why it cannot be opened or created.
static UNOPENED: [(&str, OpenFault); 11] = [
    ("directory", OpenFault::Directory),
    ("out/", OpenFault::Directory),
    ("nowhere/out", OpenFault::NotFound),
    ("not-allowed", OpenFault::NotAllowed),
    ("caller/x", OpenFault::NoDirectory),
    ("looped", OpenFault::TooManyLinks),
    ("read-only", OpenFault::ReadOnly),
    ("too-many", OpenFault::TooManyFiles),
    ("too-many-of-all", OpenFault::TooManyFiles),
    ("broken", OpenFault::Other(5)),
    ("unknown", OpenFault::Unknown),
];

/// Why no file can be created beside OUT, and the reason that is told of an OUT that is not there. With
/// the last one, each name for it is taken.
static NO_NEW_FILE: [(ErrorKind, OpenFault); 3] = [
    (ErrorKind::PermissionDenied, OpenFault::NotAllowed),
    (ErrorKind::ReadOnlyFilesystem, OpenFault::ReadOnly),
    (ErrorKind::AlreadyExists, OpenFault::Unknown),
];

/// What is done with a file that no other can be made beside.
static IN_PLACE: &str = "open callee\ntruncate callee\n";

/// What is done with `callee` if the new file is not whole.
static NOT_WHOLE: &str =
    "open callee\ncreate .amihunk-0\npermissions .amihunk-0\nremove .amihunk-0\n";

/// The link of `caller` and `callee` to `out` ends so, after this was done; then these bytes are under the
/// name `out`, and no new file is left.
fn ends<'a>(
    rt: &impl Abort,
    alloc: Global,
    log: &Log,
    out: &'a str,
    wanted: Result<(), Failure<'a>>,
    events: &str,
    bytes: Option<&[u8]>,
) -> Result<(), Fail> {
    let files = FakeFiles { openings: 40, log };
    let got = link(&(files, alloc), out, PLAIN, &["caller", "callee"]);
    equals_at(rt, &out, got, wanted);
    was_done(rt, log, events)?;
    is_under(rt, alloc, files, out, bytes)?;
    is_under(rt, alloc, files, ".amihunk-0", None)
}

#[test]
fn a_load_file_takes_the_place_of_out(rt: HostRuntime) -> Result<(), Fail> {
    let alloc = rt.alloc();
    for (out, events, name) in WAYS {
        let log = Log::new(alloc);
        let files = FakeFiles {
            openings: 40,
            log: &log,
        };
        let got = link(&(files, alloc), out, PLAIN, &["caller", "callee"]);
        equals_at(&rt, &out, got, Ok(()));
        was_done(&rt, &log, events)?;
        is_under(&rt, alloc, files, name, Some(&PROGRAM))?;
        for taken in ["crowded/.amihunk-0", "crowded/.amihunk-1"] {
            is_under(&rt, alloc, files, taken, Some(b"taken"))?;
        }
        for left in [".amihunk-0", "folder/.amihunk-0", "crowded/.amihunk-2"] {
            is_under(&rt, alloc, files, left, None)?;
        }
    }
    Ok(())
}

#[test]
fn tells_why_out_cannot_be_opened(rt: HostRuntime) -> Result<(), Fail> {
    let alloc = rt.alloc();
    for (out, reason) in UNOPENED {
        let log = Log::new(alloc);
        let files = FakeFiles {
            openings: 40,
            log: &log,
        };
        let got = link(&(files, alloc), out, PLAIN, &["caller", "callee"]);
        equals_at(&rt, &out, got, Err(Failure::Opening(out, reason)));
        was_done(&rt, &log, "")?;
    }
    Ok(())
}

#[test]
fn a_file_that_no_other_can_be_made_beside_is_written_in_place(
    rt: HostRuntime,
) -> Result<(), Fail> {
    let alloc = rt.alloc();
    for (kind, reason) in NO_NEW_FILE {
        let log = Log::new(alloc);
        log.faults.new_file.set(Some(kind));
        let program = Some(PROGRAM.as_slice());
        ends(&rt, alloc, &log, "callee", Ok(()), IN_PLACE, program)?;
        let log = Log::new(alloc);
        log.faults.new_file.set(Some(kind));
        let uncreated = Err(Failure::Opening("out", reason));
        ends(&rt, alloc, &log, "out", uncreated, "", None)?;
    }
    Ok(())
}

#[test]
fn out_is_what_it_was_where_a_write_fails(rt: HostRuntime) -> Result<(), Fail> {
    let alloc = rt.alloc();
    for room in 0..PROGRAM.len() {
        let log = Log::new(alloc);
        log.faults.room.set(room);
        let old = Some(CALLEE.as_slice());
        ends(
            &rt,
            alloc,
            &log,
            "callee",
            Err(Failure::Printing),
            NOT_WHOLE,
            old,
        )?;
        let log = Log::new(alloc);
        log.faults.room.set(room);
        ends(
            &rt,
            alloc,
            &log,
            "out",
            Err(Failure::Printing),
            NO_NEW_OUT,
            None,
        )?;
    }
    let log = Log::new(alloc);
    log.faults.room.set(PROGRAM.len());
    let program = Some(PROGRAM.as_slice());
    ends(&rt, alloc, &log, "callee", Ok(()), OVER_CALLEE, program)
}

/// A device takes the first bytes, and so does a file that no other can be made beside.
#[test]
fn tells_that_a_write_to_a_device_failed(rt: HostRuntime) -> Result<(), Fail> {
    let alloc = rt.alloc();
    for room in 0..PROGRAM.len() {
        let bytes = Some(&PROGRAM[..room]);
        let log = Log::new(alloc);
        log.faults.room.set(room);
        ends(
            &rt,
            alloc,
            &log,
            "pipe",
            Err(Failure::Printing),
            "open pipe\n",
            bytes,
        )?;
        let log = Log::new(alloc);
        log.faults.room.set(room);
        let refused = Some(ErrorKind::PermissionDenied);
        log.faults.new_file.set(refused);
        ends(
            &rt,
            alloc,
            &log,
            "callee",
            Err(Failure::Printing),
            IN_PLACE,
            bytes,
        )?;
    }
    for full in ["full", "full-at-first"] {
        let log = Log::new(alloc);
        let files = FakeFiles {
            openings: 40,
            log: &log,
        };
        let got = link(&(files, alloc), full, PLAIN, &["caller", "callee"]);
        equals_at(&rt, &full, got, Err(Failure::Printing));
        is_under(&rt, alloc, files, full, Some(&[]))?;
        equals(&rt, log.open.get(), 0);
    }
    Ok(())
}

#[test]
fn out_is_what_it_was_where_a_new_file_does_not_reach_the_disk(
    rt: HostRuntime,
) -> Result<(), Fail> {
    let alloc = rt.alloc();
    let log = Log::new(alloc);
    log.faults.sync.set(true);
    let old = Some(CALLEE.as_slice());
    ends(
        &rt,
        alloc,
        &log,
        "callee",
        Err(Failure::Printing),
        NOT_WHOLE,
        old,
    )?;
    let log = Log::new(alloc);
    log.faults.sync.set(true);
    ends(
        &rt,
        alloc,
        &log,
        "out",
        Err(Failure::Printing),
        NO_NEW_OUT,
        None,
    )
}

#[test]
fn out_is_what_it_was_where_a_new_file_cannot_be_renamed(rt: HostRuntime) -> Result<(), Fail> {
    let alloc = rt.alloc();
    let events = "open callee\ncreate .amihunk-0\npermissions .amihunk-0\nsync .amihunk-0\n\
                  remove .amihunk-0\n";
    let log = Log::new(alloc);
    log.faults.rename.set(Some(ErrorKind::PermissionDenied));
    let unplaced = Err(Failure::Opening("callee", OpenFault::NotAllowed));
    ends(&rt, alloc, &log, "callee", unplaced, events, Some(&CALLEE))?;
    let events = "create .amihunk-0\nsync .amihunk-0\nremove .amihunk-0\n";
    let log = Log::new(alloc);
    log.faults.rename.set(Some(ErrorKind::IsADirectory));
    let unplaced = Err(Failure::Opening("out", OpenFault::Directory));
    ends(&rt, alloc, &log, "out", unplaced, events, None)
}

/// How `link --out out` of 300 files `loop` ends, if files take so many bytes: its status and the line, what
/// was done, and how many bytes are under the name `out` then.
fn long_ends(
    rt: &impl Abort,
    alloc: Global,
    room: usize,
    (status, line): (u8, &str),
    events: &str,
    length: Option<usize>,
) -> Result<(), Fail> {
    let log = Log::new(alloc);
    log.faults.room.set(room);
    let files = FakeFiles {
        openings: 600,
        log: &log,
    };
    let request = Request::Link {
        out: "out",
        map: None,
        options: PLAIN,
        globals: false,
        explain: false,
        files: ["loop"; 300].to_vec(alloc)?,
        list: None,
    };
    is_answered(rt, &(files, alloc), request, (status, line))?;
    was_done(rt, &log, events)?;
    let bytes = files.bytes_under(alloc, "out")?;
    equals_at(rt, &room, bytes.map(|bytes| bytes.len()), length);
    Ok(())
}

/// Longer than a buffer of 8,192 bytes, so that writes fail during the run and at its end: a header of 5
/// longwords, 300 sizes, and 300 hunks of 9 longwords.
#[test]
fn out_is_what_it_was_where_a_write_of_a_long_file_fails(rt: HostRuntime) -> Result<(), Fail> {
    let alloc = rt.alloc();
    let unwritten = (3, "amihunk: output: write failed\n");
    for room in [0, 1, 8191, 8192, 8193, 12019] {
        long_ends(&rt, alloc, room, unwritten, NO_NEW_OUT, None)?;
    }
    long_ends(&rt, alloc, 12020, (0, ""), NEW_OUT, Some(12020))
}

/// If an allocation fails, `callee` is what it was, and the next link replaces it.
#[test]
fn out_is_what_it_was_where_memory_runs_out(rt: HostRuntime) -> Result<(), Fail> {
    let alloc = rt.alloc();
    let log = Log::new(alloc);
    log.events.try_borrow_mut()?.reserve(200)?;
    let files = FakeFiles {
        openings: 40,
        log: &log,
    };
    let system = (files, alloc);
    if link(&system, "callee", PLAIN, &["caller", "callee"]).is_err() {
        is_under(&rt, alloc, files, "callee", Some(&CALLEE))?;
        is_under(&rt, alloc, files, ".amihunk-0", None)?;
        let again = link(&system, "callee", PLAIN, &["caller", "callee"]);
        equals(&rt, again, Ok(()));
    }
    is_under(&rt, alloc, files, "callee", Some(&PROGRAM))?;
    is_under(&rt, alloc, files, ".amihunk-0", None)?;
    holds(&rt, &"no file is open", log.open.get() == 0);
    Ok(())
}
