//! What is told of a failure after its line.

use super::asserts::{equals, equals_at, holds};
use super::explanation_rows::{
    Asked, CHANGED, REFUSED, Row, UNEXPLAINED, UNLINKED, UNPLACED, WITHOUT_MORE,
};
use super::systems::answer;
use hunk_commands::explain::{Command, explanation_of};
use hunk_commands::{Addresses, LoadText, Request, ShowText};
use hunk_fake_files::{Broken, CALLEE, FakeFiles, Log, MISTYPED, PLAIN, TRAILING, UNENDED};
use hunk_tool::ImageForm;
use hunk_words::{Fault, ReadFault, Reason, Room, Sink, Watched};
use std::alloc::{AllocError, Global};
use std::process::Abort;
use std::test::Fail;

/// The request for a link of these files.
fn link_of(out: &'static str, explain: bool, files: Vec<&'static str>) -> Request<'static> {
    Request::Link {
        out,
        map: None,
        options: PLAIN,
        globals: false,
        explain,
        files,
        list: None,
    }
}

/// The request for it, with `--explain` or without.
fn request_of(alloc: Global, asked: Asked, explain: bool) -> Result<Request<'static>, AllocError> {
    Ok(match asked {
        Asked::Link(files) => link_of("out", explain, files.to_vec(alloc)?),
        Asked::LinkTo(out) => link_of(out, explain, ["caller", "callee"].to_vec(alloc)?),
        Asked::Image(addresses, files) => Request::Image {
            addresses,
            text: LoadText::Image(ImageForm::Report),
            explain,
            files: files.to_vec(alloc)?,
        },
        Asked::Load(addresses, file) => Request::Load {
            addresses,
            text: LoadText::Image(ImageForm::Report),
            explain,
            file,
        },
        Asked::Check(file) => Request::Check {
            lint: false,
            explain,
            file,
        },
        Asked::Show(file) => Request::Show {
            text: ShowText::Listing,
            explain,
            file,
        },
    })
}

/// The status of the request, over files that can be opened so often, and as many good reads.
fn status_of<W: Sink>(
    alloc: Global,
    errors: &mut W,
    asked: Asked,
    explain: bool,
    openings: usize,
    good_reads: usize,
) -> Result<u8, Fail> {
    let log = Log::new(alloc);
    log.faults.good_reads.set(good_reads);
    let system = FakeFiles {
        openings,
        log: &log,
    };
    let request = request_of(alloc, asked, explain)?;
    answer(&(system, alloc), errors, request)
}

/// The request ends with this status, and exactly this is told.
pub(super) fn ends(
    rt: &impl Abort,
    alloc: Global,
    asked: Asked,
    explain: bool,
    (openings, good_reads): (usize, usize),
    status: u8,
    told: &[u8],
) -> Result<(), Fail> {
    let mut errors = Watched::new(Vec::new(alloc));
    let got = status_of(alloc, &mut errors, asked, explain, openings, good_reads)?;
    equals_at(rt, &asked, got, status);
    equals_at(rt, &asked, errors.into_inner().as_slice(), told);
    Ok(())
}

/// The two texts, one after the other.
pub(super) fn both(alloc: Global, line: &str, more: &str) -> Result<Vec<u8>, AllocError> {
    let mut bytes = Vec::new(alloc);
    bytes.extend_from_slice(line.as_bytes())?;
    bytes.extend_from_slice(more.as_bytes())?;
    Ok(bytes)
}

/// More openings and reads than a test needs.
pub(super) const ALL: (usize, usize) = (40, usize::MAX);

#[test]
fn tells_more_if_it_is_asked_to(rt: HostRuntime) -> Result<(), Fail> {
    let alloc = rt.alloc();
    for rows in [REFUSED.as_slice(), UNPLACED.as_slice(), UNLINKED.as_slice()] {
        for row in rows {
            is_explained(&rt, alloc, row)?;
        }
    }
    Ok(())
}

/// The line is told, and the rest of the row if it is asked for.
fn is_explained(rt: &impl Abort, alloc: Global, (asked, line, more): &Row) -> Result<(), Fail> {
    ends(rt, alloc, *asked, false, ALL, 1, line.as_bytes())?;
    let told = both(alloc, line, more)?;
    ends(rt, alloc, *asked, true, ALL, 1, told.as_slice())
}

#[test]
fn tells_why_a_file_is_not_read_again(rt: HostRuntime) -> Result<(), Fail> {
    for row in &UNEXPLAINED {
        is_explained(&rt, rt.alloc(), row)?;
    }
    Ok(())
}

#[test]
fn tells_nothing_more_of_other_failures(rt: HostRuntime) -> Result<(), Fail> {
    for (asked, status, line) in &WITHOUT_MORE {
        ends(&rt, rt.alloc(), *asked, true, ALL, *status, line.as_bytes())?;
    }
    Ok(())
}

/// Only so much is good of what the request opens and reads, and after the line that is told.
fn is_not_read_again(
    rt: &impl Abort,
    alloc: Global,
    asked: Asked,
    good: (usize, usize),
    line: &str,
) -> Result<(), Fail> {
    let told = both(alloc, line, CHANGED)?;
    ends(rt, alloc, asked, true, good, 1, told.as_slice())
}

/// Each file is opened twice, and read in two reads at most: the addresses, the file, and both again.
#[test]
fn tells_that_a_file_cannot_be_read_again(rt: HostRuntime) -> Result<(), Fail> {
    let alloc = rt.alloc();
    let asked = Asked::Check("mistyped");
    let line = "amihunk: mistyped: longword 5: unknown block type 1023\n";
    is_not_read_again(&rt, alloc, asked, (1, 9), line)?;
    is_not_read_again(&rt, alloc, asked, (9, 1), line)?;
    let asked = Asked::Load(Addresses::File("addresses"), "trailing");
    let line = "amihunk: trailing: longword 10: data after the last hunk\n";
    is_not_read_again(&rt, alloc, asked, (2, 9), line)
}

/// Of hunks that cannot be placed, the addresses are read again, and then the file.
#[test]
fn tells_that_a_read_fails_the_second_time(rt: HostRuntime) -> Result<(), Fail> {
    let alloc = rt.alloc();
    let asked = Asked::Load(Addresses::File("addresses"), "zeros");
    let line = "amihunk: zeros: longword 0: wrong first longword\n";
    is_not_read_again(&rt, alloc, asked, (40, 3), line)?;
    let asked = Asked::Image(Addresses::File("addresses"), &["loop"]);
    let line = "amihunk: places: wrong number of addresses\n";
    for good_reads in 4..8 {
        is_not_read_again(&rt, alloc, asked, (40, good_reads), line)?;
    }
    for openings in 2..4 {
        is_not_read_again(&rt, alloc, asked, (openings, 40), line)?;
    }
    Ok(())
}

/// Of a line and more, the first bytes are told, and nothing is written after a write that failed.
#[test]
fn tells_the_first_bytes_where_a_write_fails(rt: HostRuntime) -> Result<(), Fail> {
    let alloc = rt.alloc();
    for (asked, line, more) in [REFUSED[1], UNPLACED[0]] {
        let told = both(alloc, line, more)?;
        for room in 0..told.len() {
            for zero in [false, true] {
                let mut errors = Room::new(alloc, 16, room, zero)?;
                let status = status_of(alloc, &mut errors, asked, true, 40, usize::MAX)?;
                equals_at(&rt, &room, status, 1);
                equals_at(&rt, &room, errors.bytes(), &told[..room]);
            }
        }
    }
    Ok(())
}

#[test]
fn an_explanation_is_of_the_first_offence(rt: HostRuntime) {
    let alloc = rt.alloc();
    let fault = Fault {
        place: 5,
        reason: Reason::UnknownType(1023),
    };
    let files: [(&[u8], Command<'_>, bool); 5] = [
        (&MISTYPED, Command::Link, true),
        (&MISTYPED, Command::Text, true),
        (&MISTYPED, Command::Load(Addresses::List("0")), false),
        (&UNENDED, Command::Link, false),
        (&CALLEE, Command::Link, false),
    ];
    for (file, command, is_given) in &files {
        let mut reader = Watched::new(*file);
        let given = explanation_of(alloc, *command, fault, &mut reader);
        let is_fault = matches!(&given, Ok(Some(explanation)) if explanation.fault() == fault);
        equals_at(&rt, command, is_fault, *is_given);
        holds(&rt, command, given.is_ok());
    }
    let mut reader = Watched::new(Broken);
    let unread = explanation_of(alloc, Command::Text, fault, &mut reader);
    equals(&rt, unread.err(), Some(ReadFault::Device));
    let mut reader = Watched::new(TRAILING.as_slice());
    let fault = Fault {
        place: 10,
        reason: Reason::TrailingData,
    };
    let load = Command::Load(Addresses::List("0"));
    let given = explanation_of(alloc, load, fault, &mut reader);
    holds(&rt, &load, matches!(given, Ok(Some(_))));
}
