//! Assertions about how a request ends, and about what it printed.

use super::asserts::equals;
use super::systems::answer;
use hunk_commands::Request;
use hunk_fake_files::{FakeFiles, Log};
use hunk_words::Watched;
use std::alloc::Global;
use std::process::Abort;
use std::rt::Files;
use std::test::Fail;

/// The request ends with this status and this line on standard error.
pub(crate) fn is_answered(
    rt: &impl Abort,
    system: &(impl Files + Print + AllocGlobal),
    request: Request<'_>,
    (status, line): (u8, &str),
) -> Result<(), Fail> {
    let mut errors = Watched::new(Vec::new(system.alloc()));
    equals(rt, answer(system, &mut errors, request)?, status);
    equals(rt, errors.into_inner().as_slice(), line.as_bytes());
    Ok(())
}

/// Exactly this was printed.
pub(crate) fn was_printed(rt: &impl Abort, log: &Log, text: &[u8]) -> Result<(), Fail> {
    equals(rt, log.printed.try_borrow()?.as_slice(), text);
    Ok(())
}

/// The request ends with this status and this line on standard error, once it has printed this.
pub(crate) fn prints(
    rt: &impl Abort,
    alloc: Global,
    log: &Log,
    request: Request<'_>,
    (status, printed, line): (u8, &str, &str),
) -> Result<(), Fail> {
    log.faults.printable.set(usize::MAX);
    let files = FakeFiles { openings: 40, log };
    is_answered(rt, &(files, alloc), request, (status, line))?;
    was_printed(rt, log, printed.as_bytes())
}
