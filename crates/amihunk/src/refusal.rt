//! What arguments ask for that `clap` answers, or the program itself refuses.
ghost use Rattle.std.specs.Prelude.{◌≡◌, IfOk};
ghost use Rattle.clap.specs.Words.{kind_of};
ghost use Rattle.amihunk.specs.Call.{Means};
ghost use Rattle.amihunk.specs.Call.Meaning.{rejection};
ghost use Rattle.amihunk.specs.CommandLine.{Answers, conflict_kind};

use crate::conflict::Conflict;
use crate::syntax::{command, show_command};
use clap::error::ErrorKind;
use clap::{Command, Error};
use hunk_commands::Request;
use std::alloc::{AllocError, Global};

/// The request of a parse that failed: help, the version, or a rejection.
pub fn answer_to<'a>(alloc: Global, error: &Error) -> Request<'a>
    ensures { Answers (kind_of error.now) result }
{
    let Ok(text) = error.to_string(alloc) else {
        return Request::OutOfMemory;
    };
    match error.kind() {
        ErrorKind::OutOfMemory => Request::OutOfMemory,
        ErrorKind::DisplayVersion => Request::Version,
        ErrorKind::DisplayHelp => Request::Help(text),
        _ => Request::Refused(text),
    }
}

/// Rejects such arguments of a subcommand.
pub fn refuse<'a>(
    alloc: Global,
    mut subcommand: Command<'a>,
    conflict: Conflict,
) -> Result<Request<'a>, AllocError>
    ensures { IfOk result (Answers (conflict_kind conflict)) }
{
    let error = subcommand.error(conflict.kind(), conflict.text())?;
    Ok(answer_to(alloc, &error))
}

/// Rejects a second file of `show`, as `clap` rejects an argument that it does not expect.
pub fn refuse_file<'a>(alloc: Global, file: &str) -> Result<Request<'a>, AllocError>
    ensures { IfOk result (Answers ErrorKind.UnknownArgument) }
{
    let mut show = show_command(alloc)?.bin_name("amihunk show")?;
    let text = format!(in alloc; "unexpected argument '{file}' found")?;
    let error = show.error(ErrorKind::UnknownArgument, &text)?;
    Ok(answer_to(alloc, &error))
}

/// Rejects arguments that are not UTF-8, as `clap` does.
pub fn refuse_bytes<'a>(alloc: Global) -> Request<'a>
    ensures { Means rejection result }
{
    let text = "invalid UTF-8 was detected in one or more arguments";
    match error_of(alloc, ErrorKind::ValueValidation, text) {
        Ok(error) => answer_to(alloc, &error),
        Err(_) => Request::OutOfMemory,
    }
}

/// An error of this kind, with this text, as `clap` makes its own.
fn error_of(alloc: Global, kind: ErrorKind, text: &str) -> Result<Error, AllocError>
    ensures { IfOk result (λ e. kind_of e ≡ kind) }
{
    command(alloc)?.error(kind, text)
}
