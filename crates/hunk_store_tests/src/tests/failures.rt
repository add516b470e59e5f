//! The line of each failure, and its status.

use super::asserts::equals;
use hunk_store::{Addresses, Failure, report_failure};
use hunk_tool::{OpenFault, ToolFault};
use hunk_words::{Room, Watched};
use std::alloc::Global;
use std::process::Abort;
use std::test::Fail;

/// Every reason why a file cannot be opened. The line is the same for each.
static REASONS: [OpenFault; 10] = [
    OpenFault::NotFound,
    OpenFault::NotAllowed,
    OpenFault::Directory,
    OpenFault::NoDirectory,
    OpenFault::TooManyLinks,
    OpenFault::ReadOnly,
    OpenFault::TooManyFiles,
    OpenFault::Other(0),
    OpenFault::Other(u32::MAX),
    OpenFault::Unknown,
];

/// The failure of a request for the file `x` is told in this line.
fn is_told(
    rt: &impl Abort,
    alloc: Global,
    failure: &Failure<'_>,
    line: &str,
    status: u8,
) -> Result<(), Fail> {
    let files = [String::from_str(alloc, "x")?];
    let mut errors = Watched::new(Vec::new(alloc));
    equals(rt, report_failure(&mut errors, &files, failure), status);
    equals(rt, errors.into_inner().as_slice(), line.as_bytes());
    Ok(())
}

#[test]
fn tells_which_part_is_no_address(rt: HostRuntime) -> Result<(), Fail> {
    let alloc = rt.alloc();
    let part = "amihunk: --at: part 1 is not 1 to 8 hexadecimal digits\n";
    let rejected = Failure::BadNumber {
        addresses: Addresses::List("0,x"),
        index: 1,
    };
    is_told(&rt, alloc, &rejected, part, 2)?;
    let part = "amihunk: y: part 20 is not 1 to 8 hexadecimal digits\n";
    let rejected = Failure::BadNumber {
        addresses: Addresses::File("y"),
        index: 20,
    };
    is_told(&rt, alloc, &rejected, part, 2)
}

#[test]
fn tells_which_name_is_no_text(rt: HostRuntime) -> Result<(), Fail> {
    let line = "amihunk: names: name 20 is not UTF-8\n";
    let rejected = Failure::BadName {
        list: "names",
        index: 20,
    };
    is_told(&rt, rt.alloc(), &rejected, line, 2)
}

#[test]
fn names_the_file_that_failed(rt: HostRuntime) -> Result<(), Fail> {
    let alloc = rt.alloc();
    let opening = "amihunk: x: cannot be opened\n";
    for reason in REASONS {
        let failure = Failure::Opening("x", reason);
        is_told(&rt, alloc, &failure, opening, 3)?;
    }
    let reading = "amihunk: y: read failed\n";
    is_told(&rt, alloc, &Failure::Reading("y"), reading, 3)?;
    let many = "amihunk: y: more than 65535 addresses\n";
    is_told(&rt, alloc, &Failure::TooManyAddresses("y"), many, 2)?;
    let long = "amihunk: y: more than 16777216 bytes\n";
    is_told(&rt, alloc, &Failure::TooLong("y"), long, 2)?;
    let writing = "amihunk: y: write failed\n";
    is_told(&rt, alloc, &Failure::Writing("y"), writing, 3)?;
    let one_file = "amihunk: y: given for both --out and --map\n";
    is_told(&rt, alloc, &Failure::SameFile("y"), one_file, 2)?;
    let over_file = "amihunk: y: given for both --map and FILE\n";
    is_told(&rt, alloc, &Failure::MapOverFile("y"), over_file, 2)
}

#[test]
fn tells_the_failures_of_output_input_and_memory(rt: HostRuntime) -> Result<(), Fail> {
    let alloc = rt.alloc();
    let printing = "amihunk: output: write failed\n";
    is_told(&rt, alloc, &Failure::Printing, printing, 3)?;
    let unread = Failure::Tool(ToolFault::InputDevice { file: 0 });
    is_told(&rt, alloc, &unread, "amihunk: x: read failed\n", 3)?;
    let memory = "amihunk: out of memory\n";
    is_told(&rt, alloc, &Failure::out_of_memory(), memory, 4)
}

#[test]
fn ends_with_the_status_where_no_line_was_written(rt: HostRuntime) -> Result<(), Fail> {
    let mut errors = Room::new(rt.alloc(), 8, 10, false)?;
    let failure = Failure::out_of_memory();
    equals(&rt, report_failure(&mut errors, &[], &failure), 4);
    equals(&rt, errors.bytes(), b"amihunk: o".as_slice());
    Ok(())
}
