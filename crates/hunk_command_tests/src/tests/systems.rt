//! Requests and commands over the files of a system, and its standard output behind a buffer.
//!
//! Each returns once what is printed has left the buffer, as far as the standard output takes it.

use hunk_commands::{
    Addresses, Failure, FileList, LoadText, Printer, Request, SurveyOptions, System, compare,
    image, survey,
};
use hunk_test_support::KEY;
use hunk_tool::NameHasher;
use hunk_words::Sink;
use std::io;
use std::rt::Files;
use std::test::Fail;

/// The files of a system.
pub(super) fn store_of<R: Files + AllocGlobal>(system: &R) -> System<'_, R> {
    System::new(system, NameHasher::new(KEY))
}

/// Does what a request asks for.
pub(super) fn answer<R: Files + Print + AllocGlobal, W: Sink>(
    system: &R,
    errors: &mut W,
    request: Request<'_>,
) -> Result<u8, Fail> {
    let alloc = system.alloc();
    let mut store = store_of(system);
    let mut output = Printer::new(alloc, io::writer(system))?;
    Ok(hunk_commands::answer(alloc, &mut store, &mut output, errors, request))
}

/// Compares two files.
pub(super) fn compare<'a, R: Files + Print + AllocGlobal>(
    system: &R,
    with_symbols: bool,
    (first, second): (&'a str, &'a str),
) -> Result<Result<bool, Failure<'a>>, Fail> {
    let alloc = system.alloc();
    let store = store_of(system);
    let mut output = Printer::new(alloc, io::writer(system))?;
    Ok(compare::compare(alloc, &store, &mut output, with_symbols, first, second))
}

/// Prints the memory of files at these addresses.
pub(super) fn image<'a, R: Files + Print + AllocGlobal>(
    system: &R,
    addresses: Addresses<'a>,
    text: LoadText,
    files: &[&'a str],
) -> Result<Result<(), Failure<'a>>, Fail> {
    let alloc = system.alloc();
    let store = store_of(system);
    let mut output = Printer::new(alloc, io::writer(system))?;
    Ok(image::image(alloc, &store, &mut output, addresses, text, files))
}

/// Surveys files.
pub(super) fn survey<'a, R: Files + Print + AllocGlobal>(
    system: &R,
    options: SurveyOptions,
    files: &[&[u8]],
    list: Option<FileList<'a>>,
) -> Result<Result<u8, Failure<'a>>, Fail> {
    let alloc = system.alloc();
    let store = store_of(system);
    let mut output = Printer::new(alloc, io::writer(system))?;
    Ok(survey::survey(alloc, &store, &mut output, options, files, list))
}
