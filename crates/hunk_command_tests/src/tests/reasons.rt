//! Why a file cannot be opened or read, which is told after the line of its failure.

use super::explanation_rows::{Asked, Row};
use super::explanations::{ALL, both, ends};
use hunk_commands::Addresses;
use std::test::Fail;

/// Failures of status 3, and the reason of each.
static REASONS: [Row; 18] = [
    (
        Asked::Check("x"),
        "amihunk: x: cannot be opened\n",
        "  reason: no such file or directory\n",
    ),
    (
        Asked::Check("not-allowed"),
        "amihunk: not-allowed: cannot be opened\n",
        "  reason: not allowed\n",
    ),
    (
        Asked::LinkTo("directory"),
        "amihunk: directory: cannot be opened\n",
        "  reason: it is a directory\n",
    ),
    (
        Asked::LinkTo("out/"),
        "amihunk: out/: cannot be opened\n",
        "  reason: it is a directory\n",
    ),
    (
        Asked::LinkTo("nowhere/out"),
        "amihunk: nowhere/out: cannot be opened\n",
        "  reason: no such file or directory\n",
    ),
    (
        Asked::Show("caller/x"),
        "amihunk: caller/x: cannot be opened\n",
        "  reason: a part of its path is no directory\n",
    ),
    (
        Asked::Link(&["caller", "looped"]),
        "amihunk: looped: cannot be opened\n",
        "  reason: too many symbolic links\n",
    ),
    (
        Asked::LinkTo("read-only"),
        "amihunk: read-only: cannot be opened\n",
        "  reason: the file system is read-only\n",
    ),
    (
        Asked::Image(Addresses::List("0"), &["too-many"]),
        "amihunk: too-many: cannot be opened\n",
        "  reason: too many open files\n",
    ),
    (
        Asked::Check("too-many-of-all"),
        "amihunk: too-many-of-all: cannot be opened\n",
        "  reason: too many open files\n",
    ),
    (
        Asked::Load(Addresses::List("0"), "broken"),
        "amihunk: broken: cannot be opened\n",
        "  reason: system error 5\n",
    ),
    // No reason is known.
    (
        Asked::Check("unknown"),
        "amihunk: unknown: cannot be opened\n",
        "",
    ),
    (
        Asked::Link(&["caller", "x"]),
        "amihunk: x: cannot be opened\n",
        "  reason: no such file or directory\n",
    ),
    (
        Asked::Load(Addresses::File("x"), "program"),
        "amihunk: x: cannot be opened\n",
        "  reason: no such file or directory\n",
    ),
    // Of a directory, only the read fails.
    (
        Asked::Show("directory"),
        "amihunk: directory: read failed\n",
        "  reason: it is a directory\n",
    ),
    (
        Asked::Link(&["callee", "directory"]),
        "amihunk: directory: read failed\n",
        "  reason: it is a directory\n",
    ),
    (
        Asked::Image(Addresses::List("0"), &["directory"]),
        "amihunk: directory: read failed\n",
        "  reason: it is a directory\n",
    ),
    (
        Asked::Load(Addresses::File("directory"), "program"),
        "amihunk: directory: read failed\n",
        "  reason: it is a directory\n",
    ),
];

#[test]
fn tells_the_reason_if_it_is_asked_to(rt: HostRuntime) -> Result<(), Fail> {
    let alloc = rt.alloc();
    for (asked, line, reason) in &REASONS {
        ends(&rt, alloc, *asked, false, ALL, 3, line.as_bytes())?;
        let told = both(alloc, line, reason)?;
        ends(&rt, alloc, *asked, true, ALL, 3, told.as_slice())?;
    }
    Ok(())
}

/// A read that fails of what is no directory.
#[test]
fn tells_no_reason_of_another_read_that_failed(rt: HostRuntime) -> Result<(), Fail> {
    let line = b"amihunk: caller: read failed\n".as_slice();
    let none = (40, 0);
    ends(&rt, rt.alloc(), Asked::Check("caller"), true, none, 3, line)?;
    let line = b"amihunk: pipe: read failed\n".as_slice();
    ends(&rt, rt.alloc(), Asked::Check("pipe"), true, none, 3, line)?;
    let line = b"amihunk: addresses: read failed\n".as_slice();
    let load = Asked::Load(Addresses::File("addresses"), "program");
    ends(&rt, rt.alloc(), load, true, none, 3, line)
}
