//! Assertions about how a request ends, and about what was done with files.

use super::asserts::{equals, equals_at};
use super::systems::answer;
use hunk_commands::Request;
use hunk_fake_files::{FakeFiles, Log};
use hunk_words::Watched;
use std::alloc::Global;
use std::process::Abort;
use std::rt::Files;
use std::test::Fail;

/// What is done to put a new file under the name `out`.
pub(crate) const NEW_OUT: &str = "create .amihunk-0\nsync .amihunk-0\nrename .amihunk-0 out\n";

/// What is done to put a new file in the place of `callee`.
pub(crate) const OVER_CALLEE: &str = "open callee\ncreate .amihunk-0\npermissions .amihunk-0\n\
                                       sync .amihunk-0\nrename .amihunk-0 callee\n";

/// What is done if a new file for `out` is not whole.
pub(crate) const NO_NEW_OUT: &str = "create .amihunk-0\nremove .amihunk-0\n";

/// Exactly this was done with the files that are written, and no file is open any more.
pub(crate) fn was_done(rt: &impl Abort, log: &Log, events: &str) -> Result<(), Fail> {
    let told = log.events.try_borrow()?;
    equals(rt, told.as_str(), events);
    equals(rt, log.open.get(), 0);
    Ok(())
}

/// These bytes are under the name; `None`: there is no file.
pub(crate) fn is_under(
    rt: &impl Abort,
    alloc: Global,
    files: FakeFiles<'_>,
    name: &str,
    wanted: Option<&[u8]>,
) -> Result<(), Fail> {
    let got = files.bytes_under(alloc, name)?;
    let bytes = got.as_ref().map(|bytes| bytes.as_slice());
    equals_at(rt, &name, bytes, wanted);
    Ok(())
}

/// A new file with these bytes was put under the name `out`: one file was created beside it and renamed, and
/// nothing else is left.
pub(crate) fn is_new_out(
    rt: &impl Abort,
    alloc: Global,
    files: FakeFiles<'_>,
    bytes: &[u8],
) -> Result<(), Fail> {
    was_done(rt, files.log, NEW_OUT)?;
    is_under(rt, alloc, files, "out", Some(bytes))?;
    is_under(rt, alloc, files, ".amihunk-0", None)
}

/// The request ends with this status and this line on standard error.
pub(crate) fn is_answered(
    rt: &impl Abort,
    system: &(impl Files + Print + AllocGlobal),
    request: Request<'_>,
    (status, line): (u8, &str),
) -> Result<(), Fail> {
    let mut errors = Watched::new(Vec::new(system.alloc()));
    equals(rt, answer(system, &mut errors, request)?, status);
    equals(rt, errors.into_inner().as_slice(), line.as_bytes());
    Ok(())
}

/// Exactly this was printed.
pub(crate) fn was_printed(rt: &impl Abort, log: &Log, text: &[u8]) -> Result<(), Fail> {
    equals(rt, log.printed.try_borrow()?.as_slice(), text);
    Ok(())
}
