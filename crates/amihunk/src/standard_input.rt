//! Standard input, which the argument `-` names where a file to read is expected.
ghost use Rattle.std.specs.Prelude.{◌≡◌, ◌+◌, IfOk, filter, length, map, nat_lt, option_map};
ghost use Rattle.clap.specs.Walk.{texts};
ghost use Rattle.hunk_store.specs.Addresses.{source_of};
ghost use Rattle.hunk_store.specs.FileList.{given_list};
ghost use Rattle.hunk_commands.specs.Request.{given_text};
ghost use Rattle.amihunk.specs.Call.{meaning};
ghost use Rattle.amihunk.specs.StandardInput.{IsMade, has_hyphens_in, input_list, input_name, input_source, is_hyphen, list_inputs, named_meaning, one_inputs, source_inputs};

use crate::conflict::Conflict;
use crate::refusal::refuse;
use crate::syntax::{
    check_command, command, compare_command, copy_command, image_command, link_command,
    load_command, show_command, survey_command,
};
use clap::Command;
use hunk_commands::{Addresses, FileList, Request};
use std::alloc::{AllocError, Global};

/// The name of standard input among files.
pub const STANDARD_INPUT: &str = "/dev/stdin";

/// Makes the request of one that has its arguments as they are written: `-` for a file to read becomes the
/// name of standard input. It can be read once, so a request with two of them is refused.
pub fn with_standard_input<'a>(
    alloc: Global,
    written: Request<'a>,
) -> Result<Request<'a>, AllocError>
    ensures { IfOk result (λ made. IsMade (meaning written.entry) (meaning made)) }
{
    if has_hyphens_in(&written) {
        let subcommand = subcommand_of(alloc, &written)?;
        return refuse(alloc, subcommand, Conflict::InputTwice);
    }
    Ok(by_name(written))
}

/// The subcommand that makes such a request.
fn subcommand_of<'a>(alloc: Global, request: &Request<'_>) -> Result<Command<'a>, AllocError> {
    match request {
        Request::Link { .. } => link_command(alloc)?.bin_name("amihunk link"),
        Request::Load { .. } => load_command(alloc)?.bin_name("amihunk load"),
        Request::Image { .. } => image_command(alloc)?.bin_name("amihunk image"),
        Request::Check { .. } => check_command(alloc)?.bin_name("amihunk check"),
        Request::Show { .. } | Request::Names { .. } => {
            show_command(alloc)?.bin_name("amihunk show")
        }
        Request::Survey { .. } => survey_command(alloc)?.bin_name("amihunk survey"),
        Request::Copy { .. } => copy_command(alloc)?.bin_name("amihunk copy"),
        Request::Compare { .. } => compare_command(alloc)?.bin_name("amihunk compare"),
        _ => command(alloc),
    }
}

/// Whether two or more of the files that a request reads are `-`.
fn has_hyphens_in(request: &Request<'_>) -> bool
    ensures { result ≡ has_hyphens_in (meaning request.now) }
{
    match request {
        Request::Link { files, list, .. } => {
            are_two(list_file(*list), number_of_hyphens(files.as_slice()))
        }
        Request::Load {
            addresses,
            file,
            ..
        } => are_two(addresses_file(*addresses), number_of_hyphens(&[*file])),
        Request::Image {
            addresses,
            files,
            ..
        } => are_two(
            addresses_file(*addresses),
            number_of_hyphens(files.as_slice()),
        ),
        Request::Names { files } => are_two(None, number_of_hyphens(files.as_slice())),
        Request::Survey { files, list, .. } => {
            are_two(list_file(*list), number_of_byte_hyphens(files.as_slice()))
        }
        Request::Compare { first, second, .. } => {
            are_two(Some(*first), number_of_hyphens(&[*second]))
        }
        _ => false,
    }
}

/// Whether there are two or more, where this one may be among them besides so many others.
fn are_two(one: Option<&str>, others: usize) -> bool
    ensures { result ≡ nat_lt 1
        (length (filter is_hyphen (one_inputs (given_text one.entry))) + others) }
{
    match one {
        Some(one) if is_hyphen(one) => others > 0,
        _ => others > 1,
    }
}

/// The file of a list, if there is one.
fn list_file<'a>(list: Option<FileList<'a>>) -> Option<&'a str>
    ensures { one_inputs (given_text result) ≡ list_inputs (given_list list.entry) }
{
    match list {
        Some(list) => Some(list.file),
        None => None,
    }
}

/// The file of addresses, if they are in one.
fn addresses_file<'a>(addresses: Addresses<'a>) -> Option<&'a str>
    ensures { one_inputs (given_text result) ≡ source_inputs (source_of addresses.entry) }
{
    match addresses {
        Addresses::List(_) => None,
        Addresses::File(name) => Some(name),
    }
}

/// How many of the arguments are `-`.
fn number_of_hyphens(arguments: &[&str]) -> usize
    ensures { result ≡ length (filter (λ it. is_hyphen it.now) arguments.now) }
{
    arguments.iter().filter(|it| is_hyphen(it)).count()
}

/// The same of bytes.
fn number_of_byte_hyphens(arguments: &[&[u8]]) -> usize
    ensures { result ≡ length (filter (λ it. is_hyphen it.now) arguments.now) }
{
    arguments.iter().filter(|it| is_byte_hyphen(it)).count()
}

/// Whether the argument is `-`.
fn is_hyphen(argument: &str) -> bool
    ensures { result ≡ is_hyphen argument.now }
{
    argument == "-"
}

/// The same of bytes.
fn is_byte_hyphen(argument: &[u8]) -> bool
    ensures { result ≡ is_hyphen argument.now }
{
    argument == "-".as_bytes()
}

/// The request with the names of files in place of the arguments.
fn by_name<'a>(written: Request<'a>) -> Request<'a>
    ensures { meaning result ≡ named_meaning (meaning written.entry) }
{
    match written {
        Request::Link {
            out,
            map,
            options,
            globals,
            explain,
            files,
            list,
        } => Request::Link {
            out,
            map,
            options,
            globals,
            explain,
            files: input_names(files),
            list: input_list(list),
        },
        Request::Load {
            addresses,
            text,
            explain,
            file,
        } => Request::Load {
            addresses: input_addresses(addresses),
            text,
            explain,
            file: input_name(file),
        },
        Request::Image {
            addresses,
            text,
            explain,
            files,
        } => Request::Image {
            addresses: input_addresses(addresses),
            text,
            explain,
            files: input_names(files),
        },
        Request::Check {
            lint,
            explain,
            file,
        } => Request::Check {
            lint,
            explain,
            file: input_name(file),
        },
        Request::Show {
            text,
            explain,
            file,
        } => Request::Show {
            text,
            explain,
            file: input_name(file),
        },
        Request::Names { files } => Request::Names {
            files: input_names(files),
        },
        Request::Survey {
            options,
            files,
            list,
        } => Request::Survey {
            options,
            files: input_bytes(files),
            list: input_list(list),
        },
        Request::Copy {
            out,
            form,
            explain,
            file,
        } => Request::Copy {
            out,
            form,
            explain,
            file: input_name(file),
        },
        Request::Compare {
            with_symbols,
            first,
            second,
        } => Request::Compare {
            with_symbols,
            first: input_name(first),
            second: input_name(second),
        },
        other => other,
    }
}

/// The name of the file that an argument stands for.
fn input_name<'a>(argument: &'a str) -> &'a str
    ensures { result.now ≡ input_name argument.entry.now }
{
    if is_hyphen(argument) {
        STANDARD_INPUT
    } else {
        argument
    }
}

/// The names of the files that arguments stand for.
fn input_names<'a>(mut arguments: Vec<&'a str>) -> Vec<&'a str>
    ensures { texts result.items ≡ map input_name (texts arguments.entry.items) }
{
    for argument in arguments.iter_mut() {
        *argument = input_name(argument);
    }
    arguments
}

/// The same of bytes.
fn input_bytes<'a>(mut arguments: Vec<&'a [u8]>) -> Vec<&'a [u8]>
    ensures { texts result.items ≡ map input_name (texts arguments.entry.items) }
{
    for argument in arguments.iter_mut() {
        *argument = input_byte_name(argument);
    }
    arguments
}

/// The same of one.
fn input_byte_name<'a>(argument: &'a [u8]) -> &'a [u8]
    ensures { result.now ≡ input_name argument.entry.now }
{
    if is_byte_hyphen(argument) {
        STANDARD_INPUT.as_bytes()
    } else {
        argument
    }
}

/// A list in the file that an argument stands for.
fn input_list<'a>(list: Option<FileList<'a>>) -> Option<FileList<'a>>
    ensures { given_list result ≡ option_map input_list (given_list list.entry) }
{
    match list {
        Some(FileList { file, end }) => Some(FileList {
            file: input_name(file),
            end,
        }),
        None => None,
    }
}

/// Addresses in the file that an argument stands for.
fn input_addresses<'a>(addresses: Addresses<'a>) -> Addresses<'a>
    ensures { source_of result ≡ input_source (source_of addresses.entry) }
{
    match addresses {
        Addresses::List(list) => Addresses::List(list),
        Addresses::File(name) => Addresses::File(input_name(name)),
    }
}
