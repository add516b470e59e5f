//! Requests and commands over the files of a system, and its standard output behind a buffer.
//!
//! Each returns once what is printed has left the buffer, as far as the standard output takes it.

use hunk_commands::{Failure, Printer, Request, System, copy, link};
use hunk_test_support::KEY;
use hunk_tool::{CopyForm, LinkOptions, NameHasher};
use hunk_words::Sink;
use std::io;
use std::rt::Files;
use std::test::Fail;

/// The files of a system.
pub(super) fn store_of<R: Files + AllocGlobal>(system: &R) -> System<'_, R> {
    System::new(system, NameHasher::new(KEY))
}

/// Does what a request asks for.
pub(super) fn answer<R: Files + Print + AllocGlobal, W: Sink>(
    system: &R,
    errors: &mut W,
    request: Request<'_>,
) -> Result<u8, Fail> {
    let alloc = system.alloc();
    let mut store = store_of(system);
    let mut output = Printer::new(alloc, io::writer(system))?;
    Ok(hunk_commands::answer(alloc, &mut store, &mut output, errors, request))
}

/// Links files to OUT.
pub(super) fn link<'a, R: Files + Print + AllocGlobal>(
    system: &R,
    out: &'a str,
    options: LinkOptions,
    files: &[&'a str],
) -> Result<(), Failure<'a>> {
    let mut store = store_of(system);
    link::link(system.alloc(), &mut store, out, options, false, files)
}

/// Links files to OUT, and writes the map to MAP.
pub(super) fn link_with_map<'a, R: Files + Print + AllocGlobal>(
    system: &R,
    out: &'a str,
    map_file: &'a str,
    options: LinkOptions,
    files: &[&'a str],
    names: &[String],
) -> Result<(), Failure<'a>> {
    let mut store = store_of(system);
    link::link_with_map(
        system.alloc(),
        &mut store,
        out,
        map_file,
        options,
        false,
        files,
        names,
    )
}

/// Copies a file to OUT.
pub(super) fn copy<'a, R: Files + Print + AllocGlobal>(
    system: &R,
    out: &'a str,
    form: CopyForm,
    file: &'a str,
) -> Result<(), Failure<'a>> {
    copy::copy(system.alloc(), &mut store_of(system), out, form, file)
}
