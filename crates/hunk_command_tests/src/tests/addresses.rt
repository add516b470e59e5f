//! Addresses in a list, and in a file.

use super::asserts::{equals, equals_at, holds};
use super::outcomes::prints;
use hunk_commands::addresses::read_addresses;
use hunk_commands::{Addresses, Failure, LoadText, Request};
use hunk_fake_files::{Broken, Log};
use hunk_tool::ImageForm;
use hunk_words::Watched;
use std::alloc::{AllocError, Global};
use std::io::Read;
use std::test::Fail;

/// The report of two hunks at 10000 and 20000.
static REPORT: &str = "hunk 0 at 00010000 size 8\n00010000 4eb9000200044e75\n\
     hunk 1 at 00020000 size 8\n00020000 4e714e714e754e71\n";

/// Names of files of addresses, each with the status and the line of a request that cannot open its
/// FILE, and with how many files were opened.
static FAILURES: [(&str, u8, &str, usize); 4] = [
    (
        "bad-addresses",
        2,
        "amihunk: bad-addresses: part 1 is not 1 to 8 hexadecimal digits\n",
        1,
    ),
    ("x", 3, "amihunk: x: cannot be opened\n", 0),
    ("directory", 3, "amihunk: directory: read failed\n", 1),
    ("addresses", 3, "amihunk: y: cannot be opened\n", 1),
];

/// The request for the report of a load file.
fn load_of<'a>(addresses: Addresses<'a>, file: &'a str) -> Request<'a> {
    Request::Load {
        addresses,
        text: LoadText::Image(ImageForm::Report),
        explain: false,
        file,
    }
}

/// The request for the report of object files.
fn image_of<'a>(
    alloc: Global,
    addresses: Addresses<'a>,
    files: &[&'a str],
) -> Result<Request<'a>, AllocError> {
    Ok(Request::Image {
        addresses,
        text: LoadText::Image(ImageForm::Report),
        explain: false,
        files: files.to_vec(alloc)?,
    })
}

#[test]
fn a_file_has_the_addresses_of_a_list(rt: HostRuntime) -> Result<(), Fail> {
    let alloc = rt.alloc();
    for addresses in [Addresses::List("10000,20000"), Addresses::File("addresses")] {
        let log = Log::new(alloc);
        let load = load_of(addresses, "program");
        prints(&rt, alloc, &log, load, (0, REPORT, ""))?;
        let log = Log::new(alloc);
        let image = image_of(alloc, addresses, &["caller", "callee"])?;
        prints(&rt, alloc, &log, image, (0, REPORT, ""))?;
    }
    Ok(())
}

#[test]
fn the_addresses_are_known_before_another_file_is_opened(rt: HostRuntime) -> Result<(), Fail> {
    let alloc = rt.alloc();
    for (name, status, line, opened) in FAILURES {
        let addresses = Addresses::File(name);
        let log = Log::new(alloc);
        prints(
            &rt,
            alloc,
            &log,
            load_of(addresses, "y"),
            (status, "", line),
        )?;
        equals_at(&rt, &name, log.opened.get(), opened);
        equals_at(&rt, &name, log.open.get(), 0);
        let log = Log::new(alloc);
        let image = image_of(alloc, addresses, &["y"])?;
        prints(&rt, alloc, &log, image, (status, "", line))?;
        equals_at(&rt, &name, log.opened.get(), opened);
        equals_at(&rt, &name, log.open.get(), 0);
    }
    Ok(())
}

#[test]
fn a_file_of_addresses_is_closed_before_another_is_opened(rt: HostRuntime) -> Result<(), Fail> {
    let alloc = rt.alloc();
    let log = Log::new(alloc);
    let load = load_of(Addresses::File("addresses"), "program");
    prints(&rt, alloc, &log, load, (0, REPORT, ""))?;
    equals(&rt, log.opened.get(), 2);
    equals(&rt, log.most_open.get(), 1);
    Ok(())
}

#[test]
fn reads_the_addresses_in_a_file(rt: HostRuntime) {
    let alloc = rt.alloc();
    let file = b"00010000,\r\n2a FFFFFFFF\n".as_slice();
    let bases = read_addresses(alloc, "x", &mut Watched::new(file));
    let wanted = [0x1_0000, 42, 0xFFFF_FFFF];
    holds(
        &rt,
        &"three addresses",
        bases.is_ok_and(|bases| bases.as_slice() == wanted.as_slice()),
    );
    let none = read_addresses(alloc, "x", &mut Watched::new(b"".as_slice()));
    holds(&rt, &"no address", none.is_ok_and(|bases| bases.is_empty()));
}

#[test]
fn tells_that_a_file_has_too_many_addresses(rt: HostRuntime) -> Result<(), Fail> {
    let alloc = rt.alloc();
    let mut many = Vec::new(alloc);
    for _address in 0..65_536 {
        many.extend_from_slice(b"1 ")?;
    }
    let refused = read_addresses(alloc, "x", &mut Watched::new(many.as_slice()));
    equals(&rt, refused.err(), Some(Failure::TooManyAddresses("x")));
    Ok(())
}

#[test]
fn a_read_that_fails_is_no_end_of_the_addresses(rt: HostRuntime) {
    let alloc = rt.alloc();
    let mut reader = Watched::new(b"1 2 ".as_slice().chain(Broken));
    let cut = read_addresses(alloc, "x", &mut reader);
    equals(&rt, cut.err(), Some(Failure::Reading("x")));
    let mut reader = Watched::new(b"1 g".as_slice().chain(Broken));
    let rejected = read_addresses(alloc, "x", &mut reader);
    let failure = Failure::BadNumber {
        addresses: Addresses::File("x"),
        index: 1,
    };
    equals(&rt, rejected.err(), Some(failure));
}
