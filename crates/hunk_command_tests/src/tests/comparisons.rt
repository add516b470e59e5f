//! Whether two load files mean the same.

use super::asserts::equals;
use super::outcomes::{prints, was_printed};
use super::systems::compare;
use hunk_commands::{Failure, Request};
use hunk_fake_files::{FakeFiles, Log};
use hunk_tool::ToolFault;
use hunk_words::{Fault, Reason};
use std::alloc::Global;
use std::process::Abort;
use std::test::Fail;

/// Comparing two files ends so, once this line is printed.
fn is_compared<'a>(
    rt: &impl Abort,
    alloc: Global,
    log: &Log,
    names: (&'a str, &'a str),
    with_symbols: bool,
    (wanted, line): (Result<bool, Failure<'a>>, &[u8]),
) -> Result<(), Fail> {
    let files = FakeFiles { openings: 2, log };
    let got = compare(&(files, alloc), with_symbols, names)?;
    equals(rt, got, wanted);
    was_printed(rt, log, line)
}

/// What is printed of two files, and whether nothing differs.
fn is_told(
    rt: &impl Abort,
    alloc: Global,
    names: (&str, &str),
    with_symbols: bool,
    line: &str,
) -> Result<(), Fail> {
    let log = Log::new(alloc);
    log.faults.printable.set(usize::MAX);
    let told = (Ok(line.is_empty()), line.as_bytes());
    is_compared(rt, alloc, &log, names, with_symbols, told)
}

#[test]
fn tells_where_files_differ(rt: HostRuntime) -> Result<(), Fail> {
    let alloc = rt.alloc();
    is_told(&rt, alloc, ("one-hunk", "one-hunk"), true, "")?;
    is_told(&rt, alloc, ("one-hunk", "one-symbol"), false, "")?;
    is_told(&rt, alloc, ("zero-tail", "trimmed"), true, "")?;
    let symbol = "hunk 0 symbol 0: \"loop\" none and 00000002\n";
    is_told(&rt, alloc, ("one-hunk", "one-symbol"), true, symbol)?;
    let symbol = "hunk 0 symbol 0: \"loop\" 00000002 and none\n";
    is_told(&rt, alloc, ("one-symbol", "one-hunk"), true, symbol)?;
    let count = "hunks: 2 and 1\n";
    is_told(&rt, alloc, ("program", "one-hunk"), true, count)?;
    let size = "hunk 0 size: 4 and 8\n";
    is_told(&rt, alloc, ("one-symbol", "trimmed"), false, size)
}

/// Comparing two files without symbols fails so, over files that are read so often and an output that takes so
/// many bytes.
fn is_refused(
    rt: &impl Abort,
    alloc: Global,
    names: (&str, &str),
    (good_reads, printable): (usize, usize),
    (failure, line): (Failure<'_>, &[u8]),
) -> Result<(), Fail> {
    let log = Log::new(alloc);
    log.faults.good_reads.set(good_reads);
    log.faults.printable.set(printable);
    is_compared(rt, alloc, &log, names, false, (Err(failure), line))
}

#[test]
fn tells_why_files_are_not_compared(rt: HostRuntime) -> Result<(), Fail> {
    let alloc = rt.alloc();
    let fault = Fault {
        place: 10,
        reason: Reason::TrailingData,
    };
    let all = (usize::MAX, usize::MAX);
    for (file, first, second) in [(0, "trailing", "one-hunk"), (1, "one-hunk", "trailing")] {
        let refused = Failure::Tool(ToolFault::Input { file, fault });
        is_refused(&rt, alloc, (first, second), all, (refused, b""))?;
    }
    // Each file is read twice: its bytes, and its end.
    for (good_reads, file) in [(0, 0), (1, 0), (2, 1), (3, 1)] {
        let unread = Failure::Tool(ToolFault::InputDevice { file });
        let names = ("program", "one-hunk");
        is_refused(&rt, alloc, names, (good_reads, usize::MAX), (unread, b""))?;
    }
    let line = b"hunks: 2 and 1\n";
    for printable in 0..line.len() {
        let unwritten = (Failure::Printing, &line[..printable]);
        let names = ("program", "one-hunk");
        is_refused(&rt, alloc, names, (usize::MAX, printable), unwritten)?;
    }
    Ok(())
}

/// `compare [--symbols] A B` ends with this status and this line on standard error, once it has printed this. No
/// file is open any more.
fn compare_ends(
    rt: &impl Abort,
    alloc: Global,
    (first, second): (&str, &str),
    with_symbols: bool,
    end: (u8, &str, &str),
) -> Result<(), Fail> {
    let log = Log::new(alloc);
    let request = Request::Compare {
        with_symbols,
        first,
        second,
    };
    prints(rt, alloc, &log, request, end)?;
    equals(rt, log.open.get(), 0);
    Ok(())
}

#[test]
fn tells_how_a_comparison_ended(rt: HostRuntime) -> Result<(), Fail> {
    let alloc = rt.alloc();
    let names = ("one-hunk", "one-symbol");
    compare_ends(&rt, alloc, names, false, (0, "", ""))?;
    let symbol = "hunk 0 symbol 0: \"loop\" none and 00000002\n";
    compare_ends(&rt, alloc, names, true, (1, symbol, ""))?;
    let refused = "amihunk: trailing: longword 10: data after the last hunk\n";
    compare_ends(
        &rt,
        alloc,
        ("trailing", "x"),
        false,
        (3, "", "amihunk: x: cannot be opened\n"),
    )?;
    for names in [("trailing", "one-hunk"), ("one-hunk", "trailing")] {
        compare_ends(&rt, alloc, names, false, (2, "", refused))?;
    }
    let unread = "amihunk: directory: read failed\n";
    for names in [("directory", "one-hunk"), ("one-hunk", "directory")] {
        compare_ends(&rt, alloc, names, false, (3, "", unread))?;
    }
    Ok(())
}
