//! The status of each request, and the line of its failure.

use super::outcomes::is_answered;
use hunk_commands::{Addresses, LoadText, Request};
use hunk_fake_files::{FakeFiles, Log, PLAIN};
use hunk_tool::ImageForm;
use std::alloc::Global;
use std::process::Abort;
use std::test::Fail;

/// `link --out OUT FILE...`, with `--map MAP` or without, ends with this status and this line.
fn link_ends<'a>(
    rt: &impl Abort,
    alloc: Global,
    (out, map): (&'a str, Option<&'a str>),
    files: &[&'a str],
    status: u8,
    line: &str,
) -> Result<(), Fail> {
    let log = Log::new(alloc);
    let system = FakeFiles {
        openings: 40,
        log: &log,
    };
    let request = Request::Link {
        out,
        map,
        options: PLAIN,
        globals: false,
        explain: false,
        files: files.to_vec(alloc)?,
        list: None,
    };
    is_answered(rt, &(system, alloc), request, (status, line))
}

#[test]
fn tells_how_a_link_ended(rt: HostRuntime) -> Result<(), Fail> {
    let alloc = rt.alloc();
    let linked = ["caller", "callee"];
    let out = ("out", None);
    link_ends(&rt, alloc, out, &linked, 0, "")?;
    let undefined = "amihunk: link: unit 0 hunk 0: \"foo\" not defined\n";
    link_ends(&rt, alloc, out, &["caller"], 1, undefined)?;
    let missing = "amihunk: x: cannot be opened\n";
    link_ends(&rt, alloc, out, &["caller", "x"], 3, missing)?;
    let unread = "amihunk: directory: read failed\n";
    link_ends(&rt, alloc, out, &["callee", "directory"], 3, unread)?;
    let uncreated = "amihunk: directory: cannot be opened\n";
    link_ends(&rt, alloc, ("directory", None), &linked, 3, uncreated)?;
    let unwritten = "amihunk: output: write failed\n";
    link_ends(&rt, alloc, ("full", None), &linked, 3, unwritten)
}

#[test]
fn tells_how_a_link_with_a_map_ended(rt: HostRuntime) -> Result<(), Fail> {
    let alloc = rt.alloc();
    let linked = ["caller", "callee"];
    link_ends(&rt, alloc, ("out", Some("map")), &linked, 0, "")?;
    let one_file = "amihunk: out: given for both --out and --map\n";
    link_ends(&rt, alloc, ("out", Some("out")), &linked, 2, one_file)?;
    let over_file = "amihunk: callee: given for both --map and FILE\n";
    link_ends(&rt, alloc, ("out", Some("callee")), &linked, 2, over_file)?;
    let uncreated = "amihunk: directory: cannot be opened\n";
    link_ends(
        &rt,
        alloc,
        ("out", Some("directory")),
        &linked,
        3,
        uncreated,
    )?;
    let unwritten = "amihunk: full: write failed\n";
    link_ends(&rt, alloc, ("out", Some("full")), &linked, 3, unwritten)
}

#[test]
fn tells_why_there_is_no_image(rt: HostRuntime) -> Result<(), Fail> {
    let lists = [
        (
            "0,x",
            2,
            "amihunk: --at: part 1 is not 1 to 8 hexadecimal digits\n",
        ),
        ("0", 3, "amihunk: no-such-file: cannot be opened\n"),
    ];
    for (list, status, line) in lists {
        let request = Request::Image {
            addresses: Addresses::List(list),
            text: LoadText::Image(ImageForm::Report),
            explain: false,
            files: ["no-such-file"].to_vec(rt.alloc())?,
        };
        is_answered(&rt, &rt, request, (status, line))?;
    }
    Ok(())
}

#[test]
fn tells_that_memory_ran_out(rt: HostRuntime) -> Result<(), Fail> {
    let line = "amihunk: out of memory\n";
    is_answered(&rt, &rt, Request::OutOfMemory, (4, line))
}
