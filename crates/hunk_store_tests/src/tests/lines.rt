//! Lines that reach a writer whole.
ghost use Rattle.std.specs.Prelude.{◌<◌};

use super::asserts::{equals, holds};
use hunk_store::{Failure, Lines, report_failure};
use hunk_tool::OpenFault;
use hunk_words::Watched;
use std::alloc::Global;
use std::cell::{Cell, RefCell};
use std::io;
use std::io::{ErrorKind, Write};
use std::process::Abort;
use std::test::Fail;

/// The bytes of the longest line that is one write.
const LONGEST: usize = 8192;

/// The writes that a writer took.
#[derive(Drop)]
struct Writes {
    /// How many writes fail before one is taken.
    failing: Cell<usize>,
    /// The bytes of each write, and `|` after them.
    taken: RefCell<Vec<u8>>,
}

impl Writes {
    fn new(alloc: Global, failing: usize) -> Writes {
        Writes {
            failing: Cell::new(failing),
            taken: RefCell::new(Vec::new(alloc)),
        }
    }
}

/// A writer that logs each write.
#[derive(Drop)]
struct Logged<'a> {
    writes: &'a Writes,
}

impl Write for Logged<'_> {
    fn write(&mut self, buf: &[u8]) -> io::Result<usize> {
        let failing = self.writes.failing.get();
        if failing > 0 {
            self.writes.failing.set(failing - 1);
            return Err(io::Error::from(ErrorKind::Other));
        }
        let mut taken = self.writes.taken.try_borrow_mut()?;
        taken.extend_from_slice(buf)?;
        taken.push(b'|')?;
        Ok(buf.len())
    }

    fn flush(&mut self) -> io::Result<()> {
        Ok(())
    }
}

/// These writes were taken so far.
fn were_taken(rt: &impl Abort, writes: &Writes, wanted: &[u8]) -> Result<(), Fail> {
    let taken = writes.taken.try_borrow()?;
    equals(rt, taken.as_slice(), wanted);
    Ok(())
}

#[test]
fn a_line_in_pieces_is_one_write(rt: HostRuntime) -> Result<(), Fail> {
    let writes = Writes::new(rt.alloc(), 0);
    let mut lines = Lines::new(rt.alloc(), Logged { writes: &writes })?;
    for piece in ["am", "ihunk", ": one"] {
        lines.write_all(piece.as_bytes())?;
    }
    were_taken(&rt, &writes, b"")?;
    lines.write_all(b"\n")?;
    were_taken(&rt, &writes, b"amihunk: one\n|")?;
    for piece in ["t", "wo", "\n"] {
        lines.write_all(piece.as_bytes())?;
    }
    were_taken(&rt, &writes, b"amihunk: one\n|two\n|")?;
    lines.write_all(b"three\nfour\n")?;
    were_taken(&rt, &writes, b"amihunk: one\n|two\n|three\nfour\n|")
}

#[test]
fn the_line_of_a_failure_is_one_write(rt: HostRuntime) -> Result<(), Fail> {
    let writes = Writes::new(rt.alloc(), 0);
    let mut errors = Watched::new(Lines::new(rt.alloc(), Logged { writes: &writes })?);
    let failure = Failure::Opening("x", OpenFault::NotFound);
    equals(&rt, report_failure(&mut errors, &[], &failure), 3);
    were_taken(&rt, &writes, b"amihunk: x: cannot be opened\n|")?;
    let status = report_failure(&mut errors, &[], &Failure::MapOverFile("y"));
    equals(&rt, status, 2);
    were_taken(
        &rt,
        &writes,
        b"amihunk: x: cannot be opened\n|amihunk: y: given for both --map and FILE\n|",
    )
}

/// A line of the most bytes, put in pieces of this length.
fn longest_is_one_write(rt: &impl Abort, alloc: Global, length: usize) -> Result<(), Fail>
    requires { 0 < length }
{
    let mut line = vec![in alloc; b'a'; LONGEST - 1]?;
    line.push(b'\n')?;
    let writes = Writes::new(alloc, 0);
    let mut lines = Lines::new(alloc, Logged { writes: &writes })?;
    for piece in line.chunks(length) {
        lines.write_all(piece)?;
    }
    line.push(b'|')?;
    were_taken(rt, &writes, line.as_slice())
}

#[test]
fn a_line_of_8192_bytes_is_one_write(rt: HostRuntime) -> Result<(), Fail> {
    let alloc = rt.alloc();
    longest_is_one_write(&rt, alloc, 1)?;
    longest_is_one_write(&rt, alloc, 3)?;
    longest_is_one_write(&rt, alloc, LONGEST - 1)?;
    longest_is_one_write(&rt, alloc, LONGEST)
}

#[test]
fn a_text_without_an_end_of_line_is_written_at_the_end(rt: HostRuntime) -> Result<(), Fail> {
    let writes = Writes::new(rt.alloc(), 0);
    let mut lines = Lines::new(rt.alloc(), Logged { writes: &writes })?;
    lines.write_all(b"one\ntwo")?;
    were_taken(&rt, &writes, b"")?;
    lines.flush()?;
    were_taken(&rt, &writes, b"one\ntwo|")?;
    lines.write_all(b" three")?;
    were_taken(&rt, &writes, b"one\ntwo|")?;
    drop(lines);
    were_taken(&rt, &writes, b"one\ntwo| three|")
}

/// What a write did not take is written before the next line.
#[test]
fn a_write_that_fails_loses_no_line(rt: HostRuntime) -> Result<(), Fail> {
    let writes = Writes::new(rt.alloc(), 2);
    let mut lines = Lines::new(rt.alloc(), Logged { writes: &writes })?;
    holds(&rt, &"first", lines.write_all(b"one\n").is_ok());
    were_taken(&rt, &writes, b"")?;
    holds(&rt, &"second", lines.write_all(b"two\n").is_ok());
    were_taken(&rt, &writes, b"")?;
    holds(&rt, &"third", lines.write_all(b"three\n").is_ok());
    were_taken(&rt, &writes, b"one\ntwo\nthree\n|")?;
    holds(&rt, &"fourth", lines.write_all(b"four\n").is_ok());
    were_taken(&rt, &writes, b"one\ntwo\nthree\n|four\n|")
}
