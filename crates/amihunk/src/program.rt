//! The program: the arguments of the command line, what they ask for, and the exit status.
ghost use Rattle.std.specs.Prelude.{◌≡◌, ◌⊎◌, ◌<◌, ◌≤◌, ◌∷◌, ℕ, Bool, List, None, Option, codes, false, length, map};
ghost use Rattle.std.specs.List.{All};
ghost use Rattle.hunk_tool.specs.declared.copy.CopyForm.{CopyForm};
ghost use Rattle.hunk_tool.specs.declared.link_options.LinkOptions.{LinkOptions};
ghost use Rattle.hunk_store.specs.Addresses.{AddressSource};
ghost use Rattle.hunk_commands.specs.declared.load.LoadText.{LoadText};
ghost use Rattle.hunk_commands.specs.declared.text.ShowText.{ShowText};
ghost use Rattle.hunk_commands.specs.Request.{EndsCompare, EndsCopy, EndsImage, EndsLink, EndsLoad, EndsNames, EndsSurvey, EndsText, EndsVersion, Reads, Replaces, Run, run_between};
ghost use Rattle.amihunk.specs.Program.{EndsLine, EndsStart, IsNotBegun, IsRejected};
ghost use Rattle.amihunk.specs.CommandLine.{AreRefused, IsNoFlag, IsNoFlagIn, IsVersionWord, brief_link_line, compare_line, copy_line, file_line, image_line, link_line, load_line};
ghost use Rattle.amihunk.specs.CommandLine.{names_line, no_survey_options, normal_line, show_line, survey_line, text_in, version_line};

use crate::arguments::{are_texts, arguments_of, read_arguments};
use crate::command_line::read_words;
use crate::standard_input::STANDARD_INPUT;
use hunk_commands::{
    Failure, Output, Printer, Request, Store, System, Text, answer, random_key, report_failure,
};
use hunk_tool::NameHasher;
use hunk_words::Sink;
use std::alloc::Global;
use std::convert::AsStr;
use std::random::RandomSource;
use std::rt::{Env, Files};
use std::{fs, io};

/// Does what the system's command line asks for with the system's files, and prints to the standard output.
/// Names are hashed with a key from the system's source of random bytes, or with one that is no secret where
/// it has none. Returns the exit status.
pub fn begin<R: Env + Files + Print + RandomSource + AllocGlobal, W: Sink>(
    rt: &R,
    errors: &mut W,
    has_stack: bool,
) -> u8
    ensures begun { ((run : Run) × EndsStart run W.taken W.failed errors.old errors.new result) ⊎
        IsNotBegun W.taken W.failed errors.old errors.new result }
    ensures status { result ≤ 4 }
{
    let _input = in_place_of_input(rt);
    match Printer::new(rt.alloc(), io::writer(rt)) {
        Ok(mut output) => {
            let hasher = NameHasher::new(random_key(rt));
            let mut system = System::new(rt, hasher);
            start(rt, &mut system, &mut output, errors, has_stack)
        }
        Err(_) => report_failure(errors, &[], &Failure::out_of_memory()),
    }
}

/// What takes the place of a standard input that is closed: a directory, which cannot be read. The first
/// file that is opened would take it otherwise, and `/dev/stdin` would lead to that file.
fn in_place_of_input<R: Files>(rt: &R) -> Option<R::File> {
    match fs::metadata(rt, STANDARD_INPUT) {
        Ok(_) => None,
        Err(_) => fs::open(rt, "/").ok(),
    }
}

/// Does what the system's command line asks for with the files of `store`, if there is the stack for it, and
/// returns the exit status. Nothing is known of the arguments before they are read.
fn start<R: Env + AllocGlobal, S: Store, O: Output, W: Sink>(
    rt: &R,
    store: &mut S,
    output: &mut O,
    errors: &mut W,
    has_stack: bool,
) -> u8
    ensures ends { EndsStart (run_between S.content O.taken O.failed O.waiting store.old store.new
        output.old output.new) W.taken W.failed errors.old errors.new result }
    ensures status { result ≤ 4 }
{
    let alloc = rt.alloc();
    if !has_stack {
        return answer(alloc, store, output, errors, Request::OutOfMemory);
    }
    let Ok(arguments) = arguments_of(rt) else {
        return answer(alloc, store, output, errors, Request::OutOfMemory);
    };
    let words = arguments.as_slice();
    if are_texts(words) {
        return run(alloc, store, output, errors, words);
    }
    let request = read_arguments(alloc, words);
    answer(alloc, store, output, errors, request)
}

/// Does what the words of a command line ask for, and gives the exit status. The line of what is
/// refused is appended to `errors`, and what explains it if it is asked for, or a write to it failed.
pub fn run<S: Store, O: Output, W: Sink, T: AsStr>(
    alloc: Global,
    store: &mut S,
    output: &mut O,
    errors: &mut W,
    words: &[T],
) -> u8
    ensures line { EndsLine
        (run_between S.content O.taken O.failed O.waiting store.old store.new output.old output.new)
        W.taken W.failed errors.old errors.new (map T.text words.now) result }
    ensures link { (program : List ℕ) (options : LinkOptions) (out : List ℕ)
        (map_file : Option (List ℕ)) (files : List (List ℕ)) →
        map T.text words.now ≡ link_line program options out map_file files → IsNoFlag out →
        IsNoFlagIn map_file → 0 < length files → All IsNoFlag files → Replaces
        (run_between S.content O.taken O.failed O.waiting store.old store.new output.old output.new)
        (λ contents contents_then. EndsLink contents contents_then W.taken W.failed errors.old
        errors.new out map_file options false false files None result) }
    ensures brief { (program : List ℕ) (options : LinkOptions)
        (out : List ℕ) (map_file : Option (List ℕ)) (files : List (List ℕ)) →
        map T.text words.now ≡ brief_link_line program options out map_file files →
        IsNoFlag out → IsNoFlagIn map_file → 0 < length files → All IsNoFlag files → Replaces
        (run_between S.content O.taken O.failed O.waiting store.old store.new output.old output.new)
        (λ contents contents_then. EndsLink contents contents_then W.taken W.failed errors.old
        errors.new out map_file options false false files None result) }
    ensures load { (program : List ℕ) (source : AddressSource) (text : LoadText) (file : List ℕ) →
        map T.text words.now ≡ load_line program source text file →
        IsNoFlag (text_in source) → IsNoFlag file → Reads
        (run_between S.content O.taken O.failed O.waiting store.old store.new output.old output.new)
        (λ contents printed. EndsLoad contents printed W.taken W.failed errors.old errors.new source
        text false file result) }
    ensures image { (program : List ℕ) (source : AddressSource) (text : LoadText)
        (files : List (List ℕ)) → map T.text words.now ≡ image_line program source text files →
        IsNoFlag (text_in source) → 0 < length files → All IsNoFlag files → Reads
        (run_between S.content O.taken O.failed O.waiting store.old store.new output.old output.new)
        (λ contents printed. EndsImage contents printed W.taken W.failed errors.old errors.new
        source text false files result) }
    ensures check { (program file : List ℕ) →
        map T.text words.now ≡ file_line program (codes "check") file → IsNoFlag file → Reads
        (run_between S.content O.taken O.failed O.waiting store.old store.new output.old output.new)
        (λ contents printed. EndsText contents printed W.taken W.failed errors.old errors.new
        Text.Line false file result) }
    ensures show { (program : List ℕ) (text : ShowText) (file : List ℕ) →
        map T.text words.now ≡ show_line program text file → IsNoFlag file → Reads
        (run_between S.content O.taken O.failed O.waiting store.old store.new output.old output.new)
        (λ contents printed. EndsText contents printed W.taken W.failed errors.old errors.new
        (Text.Shown text) false file result) }
    ensures names { (program : List ℕ) (files : List (List ℕ)) → map T.text words.now ≡
        names_line program files → 0 < length files → All IsNoFlag files → Reads
        (run_between S.content O.taken O.failed O.waiting store.old store.new output.old output.new)
        (λ contents printed.
        EndsNames contents printed W.taken W.failed errors.old errors.new files result) }
    ensures survey { (program : List ℕ) (files : List (List ℕ)) → map T.text words.now ≡
        survey_line program files → 0 < length files → All IsNoFlag files → Reads
        (run_between S.content O.taken O.failed O.waiting store.old store.new output.old output.new)
        (λ contents printed. EndsSurvey no_survey_options contents printed W.taken W.failed
        errors.old errors.new files None result) }
    ensures copy { (program : List ℕ) (options : LinkOptions) (out file : List ℕ) → map T.text
        words.now ≡ copy_line program options out file → IsNoFlag out → IsNoFlag file → Replaces
        (run_between S.content O.taken O.failed O.waiting store.old store.new output.old output.new)
        (λ contents contents_then. EndsCopy contents contents_then W.taken W.failed errors.old
        errors.new out (CopyForm.Written options) false file result) }
    ensures normal { (program out file : List ℕ) → map T.text words.now ≡
        normal_line program out file → IsNoFlag out → IsNoFlag file → Replaces
        (run_between S.content O.taken O.failed O.waiting store.old store.new output.old output.new)
        (λ contents contents_then. EndsCopy contents contents_then W.taken W.failed errors.old
        errors.new out CopyForm.Normal false file result) }
    ensures compare { (program : List ℕ) (with_symbols : Bool) (first second : List ℕ) →
        map T.text words.now ≡ compare_line program with_symbols first second →
        IsNoFlag first → IsNoFlag second → Reads
        (run_between S.content O.taken O.failed O.waiting store.old store.new output.old output.new)
        (λ contents printed. EndsCompare contents printed W.taken W.failed errors.old errors.new
        with_symbols first second result) }
    ensures version { (program word : List ℕ) →
        map T.text words.now ≡ version_line program word → IsVersionWord word → Reads
        (run_between S.content O.taken O.failed O.waiting store.old store.new output.old output.new)
        (λ contents printed. EndsVersion printed W.taken W.failed errors.old errors.new result) }
    ensures refused { (program : List ℕ) (others : List (List ℕ)) → map T.text words.now ≡ program ∷
        others → AreRefused others → IsRejected (run_between S.content O.taken O.failed O.waiting
        store.old store.new output.old output.new) W.taken W.failed errors.old errors.new result }
{
    let request = read_words(alloc, words);
    answer(alloc, store, output, errors, request)
}
