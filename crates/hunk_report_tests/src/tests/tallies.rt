//! The numbers of files, and the status.

use super::asserts::{equals, equals_at};
use super::findings::{CUT, DIGESTED, LOAD, OBJECT, STRANGE};
use hunk_survey::{Finding, Tally, write_totals};
use hunk_words::{Room, Text, WriteFault};
use std::alloc::Global;
use std::process::Abort;
use std::test::Fail;

/// What was found of files, the last lines of the survey, and its status.
static ROWS: [(&[Finding], &str, u8); 7] = [
    (
        &[],
        "0 files: 0 object files, 0 load files, 0 refused, 0 unreadable\n\
            0 refused, of which 0 are no hunk files\n",
        0,
    ),
    (
        &[OBJECT, LOAD, DIGESTED],
        "3 files: 1 object files, 2 load files, 0 refused, 0 unreadable\n\
            0 refused, of which 0 are no hunk files\n",
        0,
    ),
    (
        &[CUT],
        "1 files: 0 object files, 0 load files, 1 refused, 0 unreadable\n\
            1 refused, of which 0 are no hunk files\n",
        1,
    ),
    (
        &[OBJECT, STRANGE, LOAD, CUT],
        "4 files: 1 object files, 1 load files, 2 refused, 0 unreadable\n\
            2 refused, of which 1 are no hunk files\n",
        1,
    ),
    (
        &[Finding::Unread],
        "1 files: 0 object files, 0 load files, 0 refused, 1 unreadable\n\
            0 refused, of which 0 are no hunk files\n",
        3,
    ),
    (
        &[STRANGE, Finding::Unopened, OBJECT, Finding::Directory],
        "4 files: 1 object files, 0 load files, 1 refused, 2 unreadable\n\
            1 refused, of which 1 are no hunk files\n",
        3,
    ),
    (
        &[Finding::NotRegular, CUT],
        "2 files: 0 object files, 0 load files, 1 refused, 1 unreadable\n\
            1 refused, of which 0 are no hunk files\n",
        3,
    ),
];

/// The tally of these findings.
fn tally_of(findings: &[Finding]) -> Tally {
    let mut tally = Tally::new();
    for finding in findings {
        tally.add(*finding);
    }
    tally
}

/// Writes the lines, and returns how many bytes were written.
fn write(tally: Tally, writer: &mut Room<Global>) -> Result<u64, WriteFault> {
    let mut text = Text::new(writer);
    write_totals(&mut text, tally);
    let written = text.written();
    text.finish()?;
    Ok(written)
}

/// The lines are written, and as much of them as there is room for, at most 7 bytes per write.
fn is_written(rt: &impl Abort, alloc: Global, tally: Tally, lines: &str) -> Result<(), Fail> {
    for room in 0..lines.len() {
        let mut writer = Room::new(alloc, 7, room, false)?;
        let got = write(tally, &mut writer);
        let written = room as u64;
        equals_at(rt, &room, got, Err(WriteFault::Device { written }));
        equals(rt, Some(writer.bytes()), lines.as_bytes().get(..room));
    }
    let mut writer = Room::new(alloc, 7, lines.len(), false)?;
    equals(rt, write(tally, &mut writer), Ok(lines.len() as u64));
    equals(rt, writer.bytes(), lines.as_bytes());
    Ok(())
}

#[test]
fn writes_the_numbers_of_files(rt: HostRuntime) -> Result<(), Fail> {
    for &(findings, lines, _) in &ROWS {
        is_written(&rt, rt.alloc(), tally_of(findings), lines)?;
    }
    Ok(())
}

#[test]
fn tells_the_status_of_a_survey(rt: HostRuntime) {
    for &(findings, _, status) in &ROWS {
        equals_at(&rt, &findings, tally_of(findings).status(), status);
    }
}
