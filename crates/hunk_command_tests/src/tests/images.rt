//! The memory of object files.

use super::asserts::{equals, holds};
use super::outcomes::was_printed;
use super::systems::image;
use hunk_commands::{Addresses, Failure, LoadText};
use hunk_fake_files::{FakeFiles, Log};
use hunk_tool::{ImageForm, PlaceFault, SymbolForm, ToolFault};
use std::alloc::Global;
use std::process::Abort;
use std::test::Fail;

const REPORT: LoadText = LoadText::Image(ImageForm::Report);

/// The end of printing this text of these files at these addresses.
fn printed<'a>(
    alloc: Global,
    log: &Log,
    addresses: Addresses<'a>,
    text: LoadText,
    files: &[&'a str],
) -> Result<Result<(), Failure<'a>>, Fail> {
    let system = (FakeFiles { openings: 40, log }, alloc);
    image(&system, addresses, text, files)
}

#[test]
fn reports_the_memory_of_object_files(rt: HostRuntime) -> Result<(), Fail> {
    let lines = "hunk 0 at 00010000 size 8\n00010000 4eb9000200044e75\n\
         hunk 1 at 00020000 size 8\n00020000 4e714e714e754e71\n";
    prints(&rt, rt.alloc(), REPORT, lines)
}

#[test]
fn writes_the_records_of_object_files(rt: HostRuntime) -> Result<(), Fail> {
    let records = "S00A0000616D6968756E6B08\n\
         S30D000100004EB9000200044E7521\n\
         S30D000200004E714E714E754E71F0\n\
         S70500000000FA\n";
    prints(
        &rt,
        rt.alloc(),
        LoadText::Image(ImageForm::SRecords),
        records,
    )
}

/// The same of three files, of which the last has a symbol.
#[test]
fn writes_the_symbols_of_object_files(rt: HostRuntime) -> Result<(), Fail> {
    let lines = "00030002 hunk 2 \"loop\"\n";
    prints(&rt, rt.alloc(), LoadText::Symbols(SymbolForm::Lines), lines)?;
    let records = "$$ amihunk\n  loop $00030002\n$$ \n\
         S00A0000616D6968756E6B08\n\
         S30D000100004EB9000200044E7521\n\
         S30D000200004E714E714E754E71F0\n\
         S309000300004E754E7171\n\
         S70500000000FA\n";
    prints(
        &rt,
        rt.alloc(),
        LoadText::Symbols(SymbolForm::Records),
        records,
    )
}

/// Of a hunk that calls the other, at 10000 and 20000, this text is printed, or the first bytes of it where the
/// output takes no more. For a text of symbols there is a third hunk, at 30000.
fn prints(rt: &impl Abort, alloc: Global, text: LoadText, wanted: &str) -> Result<(), Fail> {
    let (list, files) = match text {
        LoadText::Image(_) => ("10000,20000", ["caller", "callee"].as_slice()),
        LoadText::Symbols(_) => ("10000,20000,30000", ["caller", "callee", "loop"].as_slice()),
    };
    let addresses = Addresses::List(list);
    for room in 0..wanted.len() {
        let log = Log::new(alloc);
        log.faults.printable.set(room);
        let unwritten = printed(alloc, &log, addresses, text, files)?;
        equals(rt, unwritten, Err(Failure::Printing));
        was_printed(rt, &log, &wanted.as_bytes()[..room])?;
    }
    let log = Log::new(alloc);
    log.faults.printable.set(wanted.len());
    equals(rt, printed(alloc, &log, addresses, text, files)?, Ok(()));
    was_printed(rt, &log, wanted.as_bytes())
}

/// There is no report of these files at these addresses, and nothing is printed.
fn fails<'a>(
    rt: &impl Abort,
    alloc: Global,
    log: &Log,
    addresses: Addresses<'a>,
    files: &[&'a str],
    failure: Failure<'a>,
) -> Result<(), Fail> {
    log.faults.printable.set(usize::MAX);
    let got = printed(alloc, log, addresses, REPORT, files)?;
    equals(rt, got, Err(failure));
    was_printed(rt, log, b"")
}

#[test]
fn tells_why_there_is_no_report(rt: HostRuntime) -> Result<(), Fail> {
    let alloc = rt.alloc();
    let zero = Addresses::List("0");
    let log = Log::new(alloc);
    let unlinked = printed(alloc, &log, zero, REPORT, &["caller"])?;
    let is_unlinked = matches!(unlinked, Err(Failure::Tool(ToolFault::Link(_))));
    holds(&rt, &"a name that is not defined", is_unlinked);
    // `full` has no bytes, and so no address.
    let unplaced = Failure::Tool(ToolFault::Place(PlaceFault::WrongCount));
    fails(
        &rt,
        alloc,
        &Log::new(alloc),
        Addresses::File("full"),
        &["callee"],
        unplaced,
    )?;
    for good_reads in 0..2 {
        let log = Log::new(alloc);
        log.faults.good_reads.set(good_reads);
        let unread = Failure::Tool(ToolFault::InputDevice { file: 0 });
        fails(&rt, alloc, &log, zero, &["callee"], unread)?;
    }
    Ok(())
}
