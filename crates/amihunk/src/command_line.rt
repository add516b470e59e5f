//! The arguments of the command line, as `clap` reads them.
ghost use Rattle.std.specs.Prelude.{◌≡◌, ◌∷◌, ◌<◌, ℕ, All, Bool, IfOk, List, MatchResult, None, Option, Some, codes, false, length, map};
ghost use Rattle.clap.specs.Takes.{is_given};
ghost use Rattle.clap.specs.Walk.{texts};
ghost use Rattle.clap.specs.Words.{FailsBy, fault_of, first_of, found_of, rows_of, subcommand_of, subcommand_rows_of};
ghost use Rattle.amihunk.specs.Syntax.{command_line};
ghost use Rattle.amihunk.specs.Call.{Asks, Means};
ghost use Rattle.amihunk.specs.Call.Call.{to_check, to_compare, to_copy, to_image, to_link, to_load, to_names, to_show, to_survey};
ghost use Rattle.amihunk.specs.Call.Meaning.{rejection, version};
ghost use Rattle.amihunk.specs.CommandLine.{AreRefused, HasValue, IsAskedBy, IsFlag, IsNoFlag, IsNoFlagIn, IsVersionWord, IsWhole, IsWritten, Says};
ghost use Rattle.amihunk.specs.CommandLine.{brief_link_line, compare_line, copy_line, file_line, files_in, has_some, image_line, link_line, list_by, load_line, no_survey_options, normal_line, options_in};
ghost use Rattle.amihunk.specs.CommandLine.{names_line, source_in, show_line, survey_line, survey_options_in, text_in, value_in, version_line};
ghost use Rattle.hunk_store.specs.Addresses.{AddressSource, source_of};
ghost use Rattle.hunk_store.specs.FileList.{given_list};
ghost use Rattle.hunk_commands.specs.Request.{given_text};
ghost use Rattle.hunk_commands.specs.declared.load.LoadText.{LoadText};
ghost use Rattle.hunk_commands.specs.declared.text.ShowText.{ShowText};
ghost use Rattle.hunk_tool.specs.declared.copy.CopyForm.{CopyForm};
ghost use Rattle.hunk_tool.specs.declared.link_options.LinkOptions.{LinkOptions};

use crate::choices::{Shown, copy_form, list_of, shown_of, text_of};
use crate::conflict::Conflict;
use crate::refusal::{answer_to, refuse, refuse_file};
use crate::standard_input::with_standard_input;
use crate::syntax::{
    command, copy_command, image_command, link_command, load_command, show_command, survey_command,
};
use clap::{ArgMatches, Error};
use hunk_commands::{Addresses, FileList, Request, SurveyOptions};
use hunk_tool::LinkOptions;
use std::alloc::{AllocError, Global};
use std::convert::AsStr;

/// Reads the arguments of a command line, the first of which is the program's name.
pub fn read_words<'a, S: AsStr>(alloc: Global, words: &'a [S]) -> Request<'a>
    ensures answer { IsAskedBy (map S.text words.entry.now) result }
    ensures link { (program : List ℕ) (options : LinkOptions) (out : List ℕ)
        (map_file : Option (List ℕ)) (files : List (List ℕ)) →
        map S.text words.entry.now ≡ link_line program options out map_file files →
        IsNoFlag out → IsNoFlagIn map_file → 0 < length files → All IsNoFlag files →
        Asks (to_link out map_file options false false files None) result }
    ensures brief { (program : List ℕ) (options : LinkOptions)
        (out : List ℕ) (map_file : Option (List ℕ)) (files : List (List ℕ)) →
        map S.text words.entry.now ≡ brief_link_line program options out map_file files →
        IsNoFlag out → IsNoFlagIn map_file → 0 < length files → All IsNoFlag files →
        Asks (to_link out map_file options false false files None) result }
    ensures load { (program : List ℕ) (source : AddressSource) (text : LoadText) (file : List ℕ) →
        map S.text words.entry.now ≡ load_line program source text file →
        IsNoFlag (text_in source) → IsNoFlag file → Asks (to_load source text false file) result }
    ensures image { (program : List ℕ) (source : AddressSource)
        (text : LoadText) (files : List (List ℕ)) → map S.text words.entry.now ≡
        image_line program source text files → IsNoFlag (text_in source) → 0 < length files →
        All IsNoFlag files → Asks (to_image source text false files) result }
    ensures check { (program file : List ℕ) → map S.text words.entry.now ≡ file_line program
        (codes "check") file → IsNoFlag file → Asks (to_check false false file) result }
    ensures show { (program : List ℕ) (text : ShowText) (file : List ℕ) →
        map S.text words.entry.now ≡ show_line program text file → IsNoFlag file →
        Asks (to_show text false file) result }
    ensures names { (program : List ℕ) (files : List (List ℕ)) →
        map S.text words.entry.now ≡ names_line program files → 0 < length files →
        All IsNoFlag files → Asks (to_names files) result }
    ensures survey { (program : List ℕ) (files : List (List ℕ)) →
        map S.text words.entry.now ≡ survey_line program files → 0 < length files →
        All IsNoFlag files → Asks (to_survey no_survey_options files None) result }
    ensures copy { (program : List ℕ) (options : LinkOptions) (out file : List ℕ) →
        map S.text words.entry.now ≡ copy_line program options out file → IsNoFlag out →
        IsNoFlag file → Asks (to_copy out (CopyForm.Written options) false file) result }
    ensures normal { (program out file : List ℕ) →
        map S.text words.entry.now ≡ normal_line program out file → IsNoFlag out → IsNoFlag file →
        Asks (to_copy out CopyForm.Normal false file) result }
    ensures compare { (program : List ℕ) (with_symbols : Bool) (first second : List ℕ) →
        map S.text words.entry.now ≡ compare_line program with_symbols first second →
        IsNoFlag first → IsNoFlag second → Asks (to_compare with_symbols first second) result }
    ensures version { (program word : List ℕ) → map S.text words.entry.now ≡
        version_line program word → IsVersionWord word → Means version result }
    ensures refused { (program : List ℕ) (others : List (List ℕ)) →
        map S.text words.entry.now ≡ program ∷ others → AreRefused others → Means rejection result }
{
    // A call of its own, so that the plain forms are proved once, for both arms of its `match`.
    request_for(alloc, words)
}

/// What these arguments ask for.
fn request_for<'a, S: AsStr>(alloc: Global, words: &'a [S]) -> Request<'a>
    ensures { IsAskedBy (map S.text words.entry.now) result }
{
    match matches_of(alloc, words) {
        Ok(matches) => request_of(alloc, &matches).unwrap_or(Request::OutOfMemory),
        Err(error) => answer_to(alloc, &error),
    }
}

/// What `clap` makes of the arguments.
fn matches_of<'a, S: AsStr>(alloc: Global, words: &'a [S]) -> Result<ArgMatches<'a>, Error>
    ensures fails { FailsBy (fault_of command_line (map S.text words.entry.now)) result }
    ensures rows { IfOk result (λ m. subcommand_rows_of m
        ≡ subcommand_of command_line (map S.text words.entry.now)) }
{
    command(alloc)?.try_get_matches_from(words)
}

/// The request of a parse that found a subcommand.
fn request_of<'a>(alloc: Global, matches: &ArgMatches<'a>) -> Result<Request<'a>, AllocError>
    requires { IsWhole (subcommand_rows_of matches.now) }
    ensures { IfOk result (Says (subcommand_rows_of matches.now)) }
{
    with_standard_input(alloc, written_request(alloc, matches)?)
}

/// The same with the arguments for files as they are written.
fn written_request<'a>(alloc: Global, matches: &ArgMatches<'a>) -> Result<Request<'a>, AllocError>
    requires { IsWhole (subcommand_rows_of matches.now) }
    ensures { IfOk result (IsWritten (subcommand_rows_of matches.now)) }
{
    match matches.subcommand() {
        Some(("link", values)) => link_request(alloc, values),
        Some(("load", values)) => load_request(alloc, values),
        Some(("image", values)) => image_request(alloc, values),
        Some(("check", values)) => Ok(check_request(values)),
        Some(("show", values)) => show_request(alloc, values),
        Some(("survey", values)) => survey_request(alloc, values),
        Some(("copy", values)) => copy_request(alloc, values),
        Some(("compare", values)) => Ok(compare_request(values)),
        _ => unreachable!(),
    }
}

/// The request of a parse that found the subcommand `link`.
fn link_request<'a>(alloc: Global, values: &ArgMatches<'a>) -> Result<Request<'a>, AllocError>
    requires { IsWhole (Some (codes "link", rows_of (found_of values.now))) }
    ensures { IfOk result (IsWritten (Some (codes "link", rows_of (found_of values.now)))) }
{
    let files = files_of(alloc, values)?;
    match list_in(values, has_files(files.as_slice())) {
        Ok(list) => Ok(Request::Link {
            out: value_of(values, "out"),
            map: optional_value(values, "map"),
            options: options_of(values),
            globals: is_set(values, "globals"),
            explain: is_set(values, "explain"),
            files,
            list,
        }),
        Err(conflict) => {
            let link = link_command(alloc)?.bin_name("amihunk link")?;
            refuse(alloc, link, conflict)
        }
    }
}

/// The request of a parse that found the subcommand `load`.
fn load_request<'a>(alloc: Global, values: &ArgMatches<'a>) -> Result<Request<'a>, AllocError>
    requires { IsWhole (Some (codes "load", rows_of (found_of values.now))) }
    ensures { IfOk result (IsWritten (Some (codes "load", rows_of (found_of values.now)))) }
{
    match addresses_in(values) {
        Ok(addresses) => Ok(Request::Load {
            addresses,
            text: text_of(is_set(values, "srec"), is_set(values, "symbols")),
            explain: is_set(values, "explain"),
            file: value_of(values, "file"),
        }),
        Err(conflict) => {
            let load = load_command(alloc)?.bin_name("amihunk load")?;
            refuse(alloc, load, conflict)
        }
    }
}

/// The request of a parse that found the subcommand `image`.
fn image_request<'a>(alloc: Global, values: &ArgMatches<'a>) -> Result<Request<'a>, AllocError>
    requires { IsWhole (Some (codes "image", rows_of (found_of values.now))) }
    ensures { IfOk result (IsWritten (Some (codes "image", rows_of (found_of values.now)))) }
{
    match addresses_in(values) {
        Ok(addresses) => Ok(Request::Image {
            addresses,
            text: text_of(is_set(values, "srec"), is_set(values, "symbols")),
            explain: is_set(values, "explain"),
            files: files_of(alloc, values)?,
        }),
        Err(conflict) => {
            let image = image_command(alloc)?.bin_name("amihunk image")?;
            refuse(alloc, image, conflict)
        }
    }
}

/// The request of a parse that found the subcommand `check`.
fn check_request<'a>(values: &ArgMatches<'a>) -> Request<'a>
    requires { IsWhole (Some (codes "check", rows_of (found_of values.now))) }
    ensures { IsWritten (Some (codes "check", rows_of (found_of values.now))) result }
{
    Request::Check {
        lint: is_set(values, "lint"),
        explain: is_set(values, "explain"),
        file: value_of(values, "file"),
    }
}

/// The request of a parse that found the subcommand `show`.
fn show_request<'a>(alloc: Global, values: &ArgMatches<'a>) -> Result<Request<'a>, AllocError>
    requires { IsWhole (Some (codes "show", rows_of (found_of values.now))) }
    ensures { IfOk result (IsWritten (Some (codes "show", rows_of (found_of values.now)))) }
{
    let explain = is_set(values, "explain");
    let files = files_of(alloc, values)?;
    match shown_of(
        is_set(values, "names"),
        is_set(values, "json"),
        is_set(values, "content"),
        is_set(values, "html"),
        explain,
    ) {
        Ok(Shown::Names) => Ok(Request::Names { files }),
        Ok(Shown::Text(text)) => match (files.get(0), files.get(1)) {
            (Some(file), None) => Ok(Request::Show {
                text,
                explain,
                file,
            }),
            (_, Some(second)) => refuse_file(alloc, second),
            (None, None) => unreachable!(),
        },
        Err(conflict) => {
            let show = show_command(alloc)?.bin_name("amihunk show")?;
            refuse(alloc, show, conflict)
        }
    }
}

/// The request of a parse that found the subcommand `survey`.
fn survey_request<'a>(alloc: Global, values: &ArgMatches<'a>) -> Result<Request<'a>, AllocError>
    requires { IsWhole (Some (codes "survey", rows_of (found_of values.now))) }
    ensures { IfOk result (IsWritten (Some (codes "survey", rows_of (found_of values.now)))) }
{
    let files = files_of(alloc, values)?;
    let names = files.as_slice();
    let bytes = bytes_of(alloc, names)?;
    match list_in(values, has_files(names)) {
        Ok(list) => Ok(Request::Survey {
            options: survey_options_of(values),
            files: bytes,
            list,
        }),
        Err(conflict) => {
            let survey = survey_command(alloc)?.bin_name("amihunk survey")?;
            refuse(alloc, survey, conflict)
        }
    }
}

/// The request of a parse that found the subcommand `copy`.
fn copy_request<'a>(alloc: Global, values: &ArgMatches<'a>) -> Result<Request<'a>, AllocError>
    requires { IsWhole (Some (codes "copy", rows_of (found_of values.now))) }
    ensures { IfOk result (IsWritten (Some (codes "copy", rows_of (found_of values.now)))) }
{
    match copy_form(
        is_set(values, "normal"),
        options_of(values),
        is_set(values, "explain"),
    ) {
        Ok(form) => Ok(Request::Copy {
            out: value_of(values, "out"),
            form,
            explain: is_set(values, "explain"),
            file: value_of(values, "file"),
        }),
        Err(conflict) => {
            let copy = copy_command(alloc)?.bin_name("amihunk copy")?;
            refuse(alloc, copy, conflict)
        }
    }
}

/// The request of a parse that found the subcommand `compare`.
fn compare_request<'a>(values: &ArgMatches<'a>) -> Request<'a>
    requires { IsWhole (Some (codes "compare", rows_of (found_of values.now))) }
    ensures { IsWritten (Some (codes "compare", rows_of (found_of values.now))) result }
{
    Request::Compare {
        with_symbols: is_set(values, "symbols"),
        first: value_of(values, "first"),
        second: value_of(values, "second"),
    }
}

/// How a load file is to be written.
fn options_of(values: &ArgMatches<'_>) -> LinkOptions
    requires strip { IsFlag (rows_of (found_of values.now)) (codes "strip") }
    requires short { IsFlag (rows_of (found_of values.now)) (codes "short") }
    requires trim { IsFlag (rows_of (found_of values.now)) (codes "trim") }
    ensures { result ≡ options_in (rows_of (found_of values.now)) }
{
    LinkOptions {
        strip: is_set(values, "strip"),
        short: is_set(values, "short"),
        trim: is_set(values, "trim"),
    }
}

/// What is asked of a survey.
fn survey_options_of(values: &ArgMatches<'_>) -> SurveyOptions
    requires json { IsFlag (rows_of (found_of values.now)) (codes "json") }
    requires digest { IsFlag (rows_of (found_of values.now)) (codes "digest") }
    requires wait { IsFlag (rows_of (found_of values.now)) (codes "wait") }
    ensures { result ≡ survey_options_in (rows_of (found_of values.now)) }
{
    SurveyOptions {
        json: is_set(values, "json"),
        digest: is_set(values, "digest"),
        wait: is_set(values, "wait"),
    }
}

/// The list of files that is asked for, where `has_files` says whether there is a FILE.
fn list_in<'a>(values: &ArgMatches<'a>, has_files: bool) -> Result<Option<FileList<'a>>, Conflict>
    requires { IsFlag (rows_of (found_of values.now)) (codes "lines") }
    ensures { MatchResult result
        (λ list. list_by (first_of (codes "files-from") (rows_of (found_of values.now))) (is_given
        (codes "lines") (rows_of (found_of values.now))) has_files ≡ Some (given_list list))
        (λ _. list_by (first_of (codes "files-from") (rows_of (found_of values.now)))
        (is_given (codes "lines") (rows_of (found_of values.now))) has_files ≡ None) }
{
    list_of(
        optional_value(values, "files-from"),
        is_set(values, "lines"),
        has_files,
    )
}

/// The addresses that are asked for, of which there is one list, or one file.
fn addresses_in<'a>(values: &ArgMatches<'a>) -> Result<Addresses<'a>, Conflict>
    ensures { MatchResult result
        (λ addresses. source_in (rows_of (found_of values.now)) ≡ Some (source_of addresses))
        (λ _. source_in (rows_of (found_of values.now)) ≡ None) }
{
    match (
        optional_value(values, "at"),
        optional_value(values, "at-file"),
    ) {
        (Some(list), None) => Ok(Addresses::List(list)),
        (None, Some(name)) => Ok(Addresses::File(name)),
        (Some(_), Some(_)) => Err(Conflict::TwoAddresses),
        (None, None) => Err(Conflict::NoAddresses),
    }
}

/// The value of an argument, if it is given.
fn optional_value<'a>(values: &ArgMatches<'a>, id: &str) -> Option<&'a str>
    ensures { given_text result ≡ first_of id.now (rows_of (found_of values.now)) }
{
    values.get_str(id)
}

/// The value of an argument that has one.
fn value_of<'a>(values: &ArgMatches<'a>, id: &str) -> &'a str
    requires { HasValue (rows_of (found_of values.now)) id.now }
    ensures { result.now ≡ value_in id.now (rows_of (found_of values.now)) }
{
    match values.get_str(id) {
        Some(value) => value,
        None => unreachable!(),
    }
}

/// Whether a flag is given.
fn is_set(values: &ArgMatches<'_>, id: &str) -> bool
    requires { IsFlag (rows_of (found_of values.now)) id.now }
    ensures { result ≡ is_given id.now (rows_of (found_of values.now)) }
{
    values.get_flag(id)
}

/// The arguments FILE..., in the order given.
fn files_of<'a>(alloc: Global, values: &ArgMatches<'a>) -> Result<Vec<&'a str>, AllocError>
    ensures { IfOk result (λ files. texts files.items ≡ files_in (rows_of (found_of values.now))) }
{
    match values.get_strs("file") {
        Some(files) => files.to_vec(alloc),
        None => Ok(Vec::new(alloc)),
    }
}

/// Whether there is a file.
fn has_files(files: &[&str]) -> bool
    ensures { result ≡ has_some (texts files.now) }
{
    !files.is_empty()
}

/// The bytes of texts.
fn bytes_of<'a>(alloc: Global, files: &[&'a str]) -> Result<Vec<&'a [u8]>, AllocError>
    ensures { IfOk result (λ bytes. texts bytes.items ≡ texts files.entry.now) }
{
    let mut bytes = Vec::with_capacity(alloc, files.len())?;
    for file in files {
        bytes.push(file.as_bytes())?;
    }
    Ok(bytes)
}
