//! Doing what `link` asks for: of the files that are given, and of those in a list.
ghost use Rattle.std.specs.Prelude.{◌≡◌, ◌++◌, ℕ, List, IfErr, IfOk, OnOk, map, string_bytes};
ghost use Rattle.hunk_tool.specs.Inputs.{file_names};
ghost use Rattle.hunk_store.specs.FileList.{AreNamesIn, IsListFailure, given_list, list_of};
ghost use Rattle.hunk_commands.specs.Link.{IsDone, IsUndone};
ghost use Rattle.hunk_commands.specs.Request.{EndsLink, EndsLinkOf, given_text};

use crate::answers::fail;
use crate::explain::Command;
use crate::file_names::names_of;
use crate::link::{link, link_with_map};
use hunk_store::listed_names::listed_names;
use hunk_store::{DONE, Failure, FileList, Store, report_failure};
use hunk_tool::LinkOptions;
use hunk_words::Sink;
use std::alloc::{AllocError, Global};

/// Does `link`, and returns the exit status.
pub(crate) fn answer_link<S: Store, W: Sink>(
    alloc: Global,
    store: &mut S,
    errors: &mut W,
    out: &str,
    map_file: Option<&str>,
    options: LinkOptions,
    globals: bool,
    explain: bool,
    files: &[&str],
    list: Option<FileList<'_>>,
) -> u8
    ensures { EndsLink (S.content store.old) (S.content store.new) W.taken W.failed
        errors.old errors.new out.now (given_text map_file.entry) options globals explain
        (file_names files.now) (given_list list.entry) result }
{
    let Some(list) = list else {
        return answer_link_of_given(
            alloc, store, errors, out, map_file, options, globals, explain, files,
        );
    };
    match all_names(alloc, store, files, list) {
        Ok(names) => {
            let names = names.as_slice();
            answer_link_of(
                alloc, store, errors, out, map_file, options, globals, explain, names,
            )
        }
        Err(failure) => {
            let command = Command::Link;
            fail(alloc, store, errors, command, explain, &[], &[], &failure)
        }
    }
}

/// Links these files, and returns the exit status.
fn answer_link_of_given<S: Store, W: Sink>(
    alloc: Global,
    store: &mut S,
    errors: &mut W,
    out: &str,
    map_file: Option<&str>,
    options: LinkOptions,
    globals: bool,
    explain: bool,
    files: &[&str],
) -> u8
    ensures { EndsLinkOf (S.content store.old)
        (S.content store.new) W.taken W.failed errors.old errors.new out.now
        (given_text map_file.entry) options globals explain (file_names files.now) result }
{
    let Ok(names) = names_of(alloc, files) else {
        return report_failure(errors, &[], &Failure::out_of_memory());
    };
    let names = names.as_slice();
    answer_link_of(
        alloc, store, errors, out, map_file, options, globals, explain, names,
    )
}

/// The names of the files that are given, and after them those in the list.
fn all_names<'a, S: Store>(
    alloc: Global,
    store: &S,
    files: &[&str],
    list: FileList<'a>,
) -> Result<Vec<String>, Failure<'a>>
    ensures ok { IfOk result (λ names. (listed : List (List ℕ)) ×
        AreNamesIn (S.content store.now list.entry.file.now) list.entry.end listed ×
        (map string_bytes names.items ≡ file_names files.now ++ listed)) }
    ensures err { IfErr result (IsListFailure (S.content store.now) (list_of list.entry)) }
{
    let listed = listed_names(alloc, store, list)?;
    match joined(alloc, files, listed) {
        Ok(names) => Ok(names),
        Err(_) => Err(Failure::out_of_memory()),
    }
}

/// The names of these files, and after them others.
fn joined(alloc: Global, files: &[&str], mut others: Vec<String>) -> Result<Vec<String>, AllocError>
    ensures { IfOk result (λ names. map string_bytes names.items ≡ file_names files.now ++
        map string_bytes others.items) }
{
    let mut names = names_of(alloc, files)?;
    names.append(&mut others)?;
    Ok(names)
}

/// Links the files with these names, and returns the exit status.
fn answer_link_of<S: Store, W: Sink>(
    alloc: Global,
    store: &mut S,
    errors: &mut W,
    out: &str,
    map_file: Option<&str>,
    options: LinkOptions,
    globals: bool,
    explain: bool,
    names: &[String],
) -> u8
    ensures { EndsLinkOf (S.content store.old)
        (S.content store.new) W.taken W.failed errors.old errors.new out.now
        (given_text map_file.entry) options globals explain (map string_bytes names.now) result }
{
    let Ok(texts) = texts_of(alloc, names) else {
        return report_failure(errors, &[], &Failure::out_of_memory());
    };
    let files = texts.as_slice();
    match link_as_asked(alloc, store, out, map_file, options, globals, files, names) {
        Ok(()) => DONE,
        Err(failure) => {
            let command = Command::Link;
            fail(
                alloc, store, errors, command, explain, files, names, &failure,
            )
        }
    }
}

/// The texts of names.
fn texts_of<'n>(alloc: Global, names: &'n [String]) -> Result<Vec<&'n str>, AllocError>
    ensures { IfOk result (λ texts. file_names texts.items ≡ map string_bytes names.now) }
{
    let mut texts = Vec::with_capacity(alloc, names.len())?;
    for name in names {
        texts.push(name.as_str())?;
    }
    Ok(texts)
}

/// Links, and writes the map if one is asked for.
fn link_as_asked<'a, S: Store>(
    alloc: Global,
    store: &mut S,
    out: &'a str,
    map_file: Option<&'a str>,
    options: LinkOptions,
    globals: bool,
    files: &[&'a str],
    names: &[String],
) -> Result<(), Failure<'a>>
    requires { map string_bytes names.now ≡ file_names files.now }
    ensures ok { OnOk result
        (IsDone globals options (S.content store.old) (file_names files.entry.now) out.entry.now
        (given_text map_file.entry) (S.content store.new)) }
    ensures err { IfErr result
        (IsUndone globals options (S.content store.old) (file_names files.entry.now) out.entry.now
        (given_text map_file.entry) (S.content store.new)) }
{
    match map_file {
        None => link(alloc, store, out, options, globals, files),
        Some(map_file) => link_with_map(
            alloc, store, out, map_file, options, globals, files, names,
        ),
    }
}
