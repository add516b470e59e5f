//! Doing what each request but `link` asks for.
ghost use Rattle.std.specs.Prelude.{◌≡◌, map, string_bytes};
ghost use Rattle.hunk_tool.specs.Inputs.{file_names};
ghost use Rattle.hunk_store.specs.Addresses.{source_of};
ghost use Rattle.hunk_store.specs.FileList.{given_list};
ghost use Rattle.hunk_store.specs.Output.{printed_of};
ghost use Rattle.hunk_commands.specs.Explain.{AreLinesOf, IfAsked};
ghost use Rattle.hunk_commands.specs.Request.{EndsCompare, EndsCopy, EndsHelp, EndsImage, EndsLoad, EndsNames, EndsSurvey, EndsText, EndsVersion, IsFailed};

use crate::compare::compare;
use crate::copy::copy;
use crate::devices::print;
use crate::explain::{Command, explain_failure};
use crate::file_names::names_of;
use crate::image::image;
use crate::load::{LoadText, load};
use crate::names::print_names;
use crate::survey::{SurveyOptions, survey};
use crate::text::{Text, print_text};
use crate::version::print_version;
use hunk_store::{Addresses, DIFFERENT, DONE, Failure, FileList, Output, Store, report_failure};
use hunk_tool::CopyForm;
use hunk_words::Sink;
use std::alloc::Global;

/// Reports a failure of this command for the files named `files`, explains it if `explain` is set, and
/// returns the exit status. `names` are the same names.
pub(crate) fn fail<S: Store, W: Sink>(
    alloc: Global,
    store: &S,
    errors: &mut W,
    command: Command<'_>,
    explain: bool,
    files: &[&str],
    names: &[String],
    failure: &Failure<'_>,
) -> u8
    requires { map string_bytes names.now ≡ file_names files.now }
    ensures { IsFailed W.taken W.failed errors.old errors.new (λ told. told ≡ failure.now)
        (IfAsked explain (AreLinesOf (S.content store.now) command.entry (file_names files.now)))
        (file_names files.now) result }
{
    let status = report_failure(errors, names, failure);
    if explain {
        explain_failure(alloc, store, errors, command, files, failure);
    }
    status
}

/// Does `load`, and returns the exit status.
pub(crate) fn answer_load<S: Store, O: Output, W: Sink>(
    alloc: Global,
    store: &S,
    output: &mut O,
    errors: &mut W,
    addresses: Addresses<'_>,
    text: LoadText,
    explain: bool,
    file: &str,
) -> u8
    ensures { EndsLoad (S.content store.now)
        (printed_of O.taken O.failed O.waiting output.old output.new) W.taken W.failed errors.old
        errors.new (source_of addresses.entry) text explain file.now result }
{
    let Ok(name) = String::from_str(alloc, file) else {
        return report_failure(errors, &[], &Failure::out_of_memory());
    };
    match load(alloc, store, output, addresses, text, file) {
        Ok(()) => DONE,
        Err(failure) => {
            let command = Command::Load(addresses);
            fail(
                alloc,
                store,
                errors,
                command,
                explain,
                &[file],
                &[name],
                &failure,
            )
        }
    }
}

/// Does `image`, and returns the exit status.
pub(crate) fn answer_image<S: Store, O: Output, W: Sink>(
    alloc: Global,
    store: &S,
    output: &mut O,
    errors: &mut W,
    addresses: Addresses<'_>,
    text: LoadText,
    explain: bool,
    files: &[&str],
) -> u8
    ensures { EndsImage (S.content store.now)
        (printed_of O.taken O.failed O.waiting output.old output.new) W.taken W.failed errors.old
        errors.new (source_of addresses.entry) text explain (file_names files.now) result }
{
    let Ok(names) = names_of(alloc, files) else {
        return report_failure(errors, &[], &Failure::out_of_memory());
    };
    match image(alloc, store, output, addresses, text, files) {
        Ok(()) => DONE,
        Err(failure) => {
            let command = Command::Image(addresses);
            let names = names.as_slice();
            fail(
                alloc, store, errors, command, explain, files, names, &failure,
            )
        }
    }
}

/// Does `show --names FILE...`, and returns the exit status.
pub(crate) fn answer_names<S: Store, O: Output, W: Sink>(
    alloc: Global,
    store: &S,
    output: &mut O,
    errors: &mut W,
    files: &[&str],
) -> u8
    ensures { EndsNames (S.content store.now) (printed_of O.taken O.failed O.waiting output.old
        output.new) W.taken W.failed errors.old errors.new (file_names files.now) result }
{
    let Ok(names) = names_of(alloc, files) else {
        return report_failure(errors, &[], &Failure::out_of_memory());
    };
    match print_names(alloc, store, output, files) {
        Ok(()) => DONE,
        Err(failure) => report_failure(errors, names.as_slice(), &failure),
    }
}

/// Does `survey`, and returns the exit status.
pub(crate) fn answer_survey<S: Store, O: Output, W: Sink>(
    alloc: Global,
    store: &S,
    output: &mut O,
    errors: &mut W,
    options: SurveyOptions,
    files: &[&[u8]],
    list: Option<FileList<'_>>,
) -> u8
    ensures { EndsSurvey options (S.content store.now)
        (printed_of O.taken O.failed O.waiting output.old output.new) W.taken W.failed errors.old
        errors.new (file_names files.now) (given_list list.entry) result }
{
    match survey(alloc, store, output, options, files, list) {
        Ok(status) => status,
        Err(failure) => report_failure(errors, &[], &failure),
    }
}

/// Does `copy`, and returns the exit status.
pub(crate) fn answer_copy<S: Store, W: Sink>(
    alloc: Global,
    store: &mut S,
    errors: &mut W,
    out: &str,
    form: CopyForm,
    explain: bool,
    file: &str,
) -> u8
    ensures { EndsCopy (S.content store.old) (S.content store.new) W.taken W.failed errors.old
        errors.new out.now form explain file.now result }
{
    let Ok(name) = String::from_str(alloc, file) else {
        return report_failure(errors, &[], &Failure::out_of_memory());
    };
    match copy(alloc, store, out, form, file) {
        Ok(()) => DONE,
        Err(failure) => {
            let command = Command::LoadFile;
            fail(
                alloc,
                store,
                errors,
                command,
                explain,
                &[file],
                &[name],
                &failure,
            )
        }
    }
}

/// Does `compare`, and returns the exit status: [`DIFFERENT`] if the files differ.
pub(crate) fn answer_compare<S: Store, O: Output, W: Sink>(
    alloc: Global,
    store: &S,
    output: &mut O,
    errors: &mut W,
    with_symbols: bool,
    first: &str,
    second: &str,
) -> u8
    ensures { EndsCompare (S.content store.now)
        (printed_of O.taken O.failed O.waiting output.old output.new) W.taken W.failed errors.old
        errors.new with_symbols first.now second.now result }
{
    let Ok(names) = names_of(alloc, &[first, second]) else {
        return report_failure(errors, &[], &Failure::out_of_memory());
    };
    match compare(alloc, store, output, with_symbols, first, second) {
        Ok(true) => DONE,
        Ok(false) => DIFFERENT,
        Err(failure) => {
            report_failure(errors, names.as_slice(), &failure);
            failure.status_of_comparison()
        }
    }
}

/// Does `--version`, and returns the exit status.
pub(crate) fn answer_version<O: Output, W: Sink>(output: &mut O, errors: &mut W) -> u8
    ensures { EndsVersion (printed_of O.taken O.failed O.waiting output.old output.new) W.taken
        W.failed errors.old errors.new result }
{
    match print_version(output) {
        Ok(()) => DONE,
        Err(failure) => report_failure(errors, &[], &failure),
    }
}

/// Prints a help text, and returns the exit status.
pub(crate) fn answer_help<O: Output, W: Sink>(output: &mut O, errors: &mut W, text: &str) -> u8
    ensures { EndsHelp text.now (printed_of O.taken O.failed O.waiting output.old output.new)
        W.taken W.failed errors.old errors.new result }
{
    match print(output, text.as_bytes()) {
        Ok(()) => DONE,
        Err(failure) => report_failure(errors, &[], &failure),
    }
}

/// Does a request for a text about FILE, and returns the exit status.
pub(crate) fn answer_text<S: Store, O: Output, W: Sink>(
    alloc: Global,
    store: &S,
    output: &mut O,
    errors: &mut W,
    text: Text,
    explain: bool,
    file: &str,
) -> u8
    ensures { EndsText (S.content store.now) (printed_of O.taken O.failed O.waiting output.old
        output.new) W.taken W.failed errors.old errors.new text explain file.now result }
{
    let Ok(name) = String::from_str(alloc, file) else {
        return report_failure(errors, &[], &Failure::out_of_memory());
    };
    match print_text(alloc, store, output, text, file) {
        Ok(()) => DONE,
        Err(failure) => {
            let command = Command::Text;
            fail(
                alloc,
                store,
                errors,
                command,
                explain,
                &[file],
                &[name],
                &failure,
            )
        }
    }
}
