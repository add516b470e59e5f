//! Links to an OUT of which the system does not tell what it is, or where.

use super::asserts::equals;
use super::outcomes::{OVER_CALLEE, is_under, was_done};
use super::systems::link;
use hunk_commands::Failure;
use hunk_fake_files::{CALLEE, FakeFiles, Log, PLAIN, PROGRAM};
use hunk_tool::OpenFault;
use std::alloc::Global;
use std::io::ErrorKind;
use std::process::Abort;
use std::test::Fail;

/// Why the path that a symbolic link leads to cannot be told, and what is done with the file that it leads to if
/// it is OUT: whether it is written in place, and otherwise why it is not; `None`: memory is out.
static UNTOLD: [(ErrorKind, Result<(), Option<OpenFault>>, &str); 3] = [
    (
        ErrorKind::InvalidFilename,
        Ok(()),
        "open folder/callee\ntruncate folder/callee\n",
    ),
    (ErrorKind::OutOfMemory, Err(None), "open folder/callee\n"),
    (
        ErrorKind::FilesystemLoop,
        Err(Some(OpenFault::TooManyLinks)),
        "open folder/callee\n",
    ),
];

/// What a link to `alias` fails with for this reason.
fn failure(reason: Option<OpenFault>) -> Failure<'static> {
    match reason {
        Some(reason) => Failure::Opening("alias", reason),
        None => Failure::out_of_memory(),
    }
}

/// The link of `caller` and `callee` to `out` ends so, after this was done. The file that `out` leads to is the
/// load file then if the link ended well, and otherwise what it was: `callee`.
fn ends(
    rt: &impl Abort,
    alloc: Global,
    log: &Log,
    (out, leads_to): (&'static str, &str),
    wanted: Result<(), Failure<'static>>,
    events: &str,
) -> Result<(), Fail> {
    let files = FakeFiles { openings: 40, log };
    let bytes = if wanted.is_ok() {
        PROGRAM.as_slice()
    } else {
        &CALLEE
    };
    let got = link(&(files, alloc), out, PLAIN, &["caller", "callee"]);
    equals(rt, got, wanted);
    was_done(rt, log, events)?;
    is_under(rt, alloc, files, leads_to, Some(bytes))?;
    is_under(rt, alloc, files, ".amihunk-0", None)
}

#[test]
fn the_path_of_out_is_asked_for_only_if_it_is_a_link(rt: HostRuntime) -> Result<(), Fail> {
    let alloc = rt.alloc();
    for (kind, wanted, events) in UNTOLD {
        let log = Log::new(alloc);
        log.faults.canonicalize.set(Some(kind));
        let alias = ("alias", "folder/callee");
        ends(&rt, alloc, &log, alias, wanted.map_err(failure), events)?;
        let log = Log::new(alloc);
        log.faults.canonicalize.set(Some(kind));
        let callee = ("callee", "callee");
        ends(&rt, alloc, &log, callee, Ok(()), OVER_CALLEE)?;
    }
    Ok(())
}

#[test]
fn an_out_that_does_not_tell_what_it_is_is_not_written(rt: HostRuntime) -> Result<(), Fail> {
    let alloc = rt.alloc();
    let log = Log::new(alloc);
    log.faults.metadata.set(Some(ErrorKind::Other));
    let unopened = Err(Failure::Opening("callee", OpenFault::Unknown));
    let callee = ("callee", "callee");
    ends(&rt, alloc, &log, callee, unopened, "open callee\n")
}
