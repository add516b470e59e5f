//! The request `survey`: what each of some files is.
ghost use Rattle.std.specs.Prelude.{◌≡◌, ◌∷◌, ◌++◌, [], ℕ, List, Option, Some, IfOk, IfErr, OnOk};
ghost use Rattle.hunk_base.specs.Streams.{WroteText};
ghost use Rattle.hunk_tool.specs.Inputs.{file_names};
ghost use Rattle.hunk_store.specs.FileList.{NamedList, given_list, list_of};
ghost use Rattle.hunk_store.specs.NameReader.{AreAllNames, AreFirstNames, unread};
ghost use Rattle.hunk_store.specs.Output.{printed_of};
ghost use Rattle.hunk_commands.specs.Survey.{AreAllTold, AreNotAllTold, AreSurveyed, AreTold, AreUntold, IsSurveyFailure, last_lines, plan_of, survey_line};

use crate::devices::flush;
use hunk_store::{Failure, FileList, NameFault, NameReader, Output, Store, open_list};
use hunk_survey::{
    FindOptions, Finding, Tally, find_file, write_finding, write_finding_json, write_totals,
};
use hunk_words::{Sink, Text, WriteFault};
use std::alloc::Global;

/// What is asked of a survey.
#[derive(Clone, Copy, Debug, PartialEq, Eq)]
pub struct SurveyOptions {
    /// Whether each line is a JSON object, with no numbers of files after the last one.
    pub json: bool,
    /// Whether the digest of each load file is told.
    pub digest: bool,
    /// Whether pipes, sockets and devices are read, for which one may have to wait.
    pub wait: bool,
}

/// How each file is found out about, and told of.
#[derive(Clone, Copy)]
struct Plan {
    /// Whether each line is a JSON object.
    json: bool,
    /// What is found out.
    find: FindOptions,
}

/// Prints a line about each of the files named `files`, and of those in the list, if there is one, and then
/// their numbers, and returns the exit status: 0 if all are hunk files, 3 if one could not be read, and
/// otherwise 1. In JSON, a line is an object, and no numbers come after the last one.
///
/// A file is opened when its turn comes, and closed before the next one, and its line leaves the output's
/// buffer at once. No file stops the survey. A file that is not a regular one is not waited for, unless that
/// is asked for, or it is the only one and there is no list. The names of files are any bytes; those that are
/// not UTF-8 are told as files that cannot be opened.
///
/// # Errors
///
/// - [`Failure::Opening`] with the list if it cannot be opened. Nothing has been printed.
/// - [`Failure::Reading`] with the list if a read of it failed.
/// - [`Failure::Printing`] if the output did not take or pass on all lines. It has then taken exactly the first
///   bytes of the lines about the files so far.
/// - [`Failure::out_of_memory`] if an allocation failed.
///
/// After a failure of the list's or of memory, the output has taken exactly the lines about the files so far.
pub fn survey<'a, S: Store, O: Output>(
    alloc: Global,
    store: &S,
    output: &mut O,
    options: SurveyOptions,
    files: &[&[u8]],
    list: Option<FileList<'a>>,
) -> Result<u8, Failure<'a>>
    ensures ok { IfOk result (AreSurveyed options (S.content store.now) (file_names files.now)
        (given_list list.entry) (printed_of O.taken O.failed O.waiting output.old output.new)) }
    ensures err { IfErr result (IsSurveyFailure options (S.content store.now) (file_names files.now)
        (given_list list.entry) (printed_of O.taken O.failed O.waiting output.old output.new)) }
{
    let plan = plan_of(options, files, list);
    let tally = tell_of_all(alloc, store, output, plan, files, list)?;
    let Ok(()) = write_last_lines(output, plan.json, tally) else {
        return Err(Failure::Printing);
    };
    flush(output)?;
    Ok(tally.status())
}

/// How each of the files is found out about, and told of.
fn plan_of(options: SurveyOptions, files: &[&[u8]], list: Option<FileList<'_>>) -> Plan
    ensures { result ≡ plan_of options (file_names files.now) (given_list list.entry) }
{
    let is_only = files.len() == 1 && list.is_none();
    Plan {
        json: options.json,
        find: FindOptions {
            digest: options.digest,
            wait: options.wait || is_only,
        },
    }
}

/// Prints a line about each of the files named `files`, and of those in the list, if there is one, and returns
/// their numbers.
fn tell_of_all<'a, S: Store, O: Output>(
    alloc: Global,
    store: &S,
    output: &mut O,
    plan: Plan,
    files: &[&[u8]],
    list: Option<FileList<'a>>,
) -> Result<Tally, Failure<'a>>
    ensures ok { IfOk result (AreAllTold plan (S.content store.now) (file_names files.now)
        (given_list list.entry) (O.taken output.old) (O.taken output.new)) }
    ensures err { IfErr result (AreNotAllTold plan (S.content store.now) (file_names files.now)
        (given_list list.entry) (O.taken output.old) (O.taken output.new) (O.failed output.new)) }
{
    match list {
        None => tell_of_files(alloc, store, output, plan, files),
        Some(list) => {
            let names = open_list(alloc, store, list)?;
            let tally = tell_of_files(alloc, store, output, plan, files)?;
            tell_of_list(alloc, store, output, plan, tally, list, names)
        }
    }
}

/// Prints a line about each of the files named `files`, and returns their numbers.
fn tell_of_files<'a, S: Store, O: Output>(
    alloc: Global,
    store: &S,
    output: &mut O,
    plan: Plan,
    files: &[&[u8]],
) -> Result<Tally, Failure<'a>>
    ensures ok { IfOk result (AreTold plan (S.content store.now) (file_names files.now)
        (O.taken output.old) (O.taken output.new)) }
    ensures err { (list : Option NamedList) →
        IfErr result (AreUntold plan (S.content store.now) list (file_names files.now)
        (O.taken output.old) (O.taken output.new) (O.failed output.new)) }
{
    let mut tally = Tally::new();
    for name in files {
        tell_of(alloc, store, output, plan, &mut tally, name)?;
    }
    Ok(tally)
}

/// Prints a line about each file in a list, after those about other files, and returns the numbers of all.
fn tell_of_list<'a, S: Store, O: Output>(
    alloc: Global,
    store: &S,
    output: &mut O,
    plan: Plan,
    others: Tally,
    list: FileList<'a>,
    names: NameReader<S::File>,
) -> Result<Tally, Failure<'a>>
    ensures ok { (names_before : List (List ℕ)) (start : Option (List ℕ)) →
        AreTold plan (S.content store.now) names_before start (O.taken output.old) others →
        IfOk result (λ tally. (listed : List (List ℕ)) ×
        AreAllNames names.end (unread S.File.left names) listed × AreTold plan (S.content store.now)
        (names_before ++ listed) start (O.taken output.new) tally) }
    ensures err { (names_before : List (List ℕ)) (start : Option (List ℕ)) → AreTold plan
        (S.content store.now) names_before start (O.taken output.old) others → IfErr result
        (λ failure. (listed : List (List ℕ)) × AreFirstNames names.end (unread S.File.left names)
        listed × AreUntold plan (S.content store.now) (Some (list_of list.entry))
        (names_before ++ listed) start (O.taken output.new) (O.failed output.new) failure) }
{
    let mut names = names;
    let mut tally = others;
    let mut name = Vec::new(alloc);
    'names: for _number in 0..u64::MAX {
        match names.next(&mut name) {
            Ok(true) => tell_of(alloc, store, output, plan, &mut tally, &name)?,
            Ok(false) => return Ok(tally),
            Err(NameFault::Device) => return Err(Failure::Reading(list.file)),
            Err(NameFault::OutOfMemory) => return Err(Failure::out_of_memory()),
        }
    }
    // No list has so many names.
    Err(Failure::out_of_memory())
}

/// Prints the line about the file named `name`, and counts it.
fn tell_of<'a, S: Store, O: Output>(
    alloc: Global,
    store: &S,
    output: &mut O,
    plan: Plan,
    tally: &mut Tally,
    name: &[u8],
) -> Result<(), Failure<'a>>
    ensures ok { (names : List (List ℕ)) (start : Option (List ℕ)) → AreTold plan
        (S.content store.now) names start (O.taken output.old) tally.old → OnOk result (AreTold plan
        (S.content store.now) (names ++ name.now ∷ []) start (O.taken output.new) tally.new) }
    ensures err { (names : List (List ℕ)) (start : Option (List ℕ)) (list : Option NamedList) →
        AreTold plan (S.content store.now) names start (O.taken output.old) tally.old →
        IfErr result (AreUntold plan (S.content store.now) list (names ++ name.now ∷ []) start
        (O.taken output.new) (O.failed output.new)) }
{
    let Ok(finding) = find_file(alloc, store, name, plan.find) else {
        return Err(Failure::out_of_memory());
    };
    let Ok(()) = write_line(output, plan.json, name, finding) else {
        return Err(Failure::Printing);
    };
    tally.add(finding);
    flush(output)
}

/// Writes the line about the file named `name`.
fn write_line<W: Sink>(
    writer: &mut W,
    json: bool,
    name: &[u8],
    finding: Finding,
) -> Result<(), WriteFault>
    ensures { WroteText W.taken W.failed writer.old writer.new
        (survey_line json name.now finding) result }
{
    let mut text = Text::new(writer);
    if json {
        write_finding_json(&mut text, name, finding);
    } else {
        write_finding(&mut text, name, finding);
    }
    text.finish()
}

/// Writes what comes after the lines about all files.
fn write_last_lines<W: Sink>(writer: &mut W, json: bool, tally: Tally) -> Result<(), WriteFault>
    ensures { WroteText W.taken W.failed writer.old writer.new (last_lines json tally) result }
{
    let mut text = Text::new(writer);
    if !json {
        write_totals(&mut text, tally);
    }
    text.finish()
}
