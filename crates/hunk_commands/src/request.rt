//! What a command line asks for, and doing it.
ghost use Rattle.hunk_commands.specs.Request.{Ends, run_between};

use crate::answers::{
    answer_compare, answer_copy, answer_help, answer_image, answer_load, answer_names,
    answer_survey, answer_text, answer_version,
};
use crate::link_request::answer_link;
use crate::load::LoadText;
use crate::refusal::report_refusal;
use crate::survey::SurveyOptions;
use crate::text::{ShowText, Text};
use hunk_store::{Addresses, Failure, FileList, Output, Store, report_failure};
use hunk_tool::{CopyForm, LinkOptions};
use hunk_words::Sink;
use std::alloc::Global;

/// What the arguments of a command line ask for.
#[derive(Drop)]
pub enum Request<'a> {
    /// `link --out OUT [--map MAP] [--strip] [--globals] [--short] [--trim] [--explain] [--files-from LIST]
    /// FILE...`: the load file of the object files FILE... and of those in LIST, written to OUT, and the map of
    /// it, written to MAP.
    Link {
        /// The argument OUT.
        out: &'a str,
        /// The argument MAP, if it is given.
        map: Option<&'a str>,
        /// Which of `--strip`, `--short` and `--trim` are given.
        options: LinkOptions,
        /// Whether `--globals` is given.
        globals: bool,
        /// Whether `--explain` is given.
        explain: bool,
        /// The arguments FILE..., in the order given, of which there is at least one, or a list.
        files: Vec<&'a str>,
        /// The list LIST, if it is given.
        list: Option<FileList<'a>>,
    },
    /// `load --at LIST [--srec] [--symbols] [--explain] FILE`, or with `--at-file`: the image or the
    /// symbols of FILE, loaded at the addresses.
    Load {
        /// Where the addresses come from: LIST, not yet parsed, or a file, not yet opened.
        addresses: Addresses<'a>,
        /// The symbols if `--symbols` is given, as records before the image if `--srec` is given too; the
        /// image as S-records if `--srec` alone is given, and otherwise the report.
        text: LoadText,
        /// Whether `--explain` is given.
        explain: bool,
        /// The argument FILE.
        file: &'a str,
    },
    /// `image --at LIST [--srec] [--symbols] [--explain] FILE...`, or with `--at-file`: the memory that the
    /// object files FILE... define at the addresses, or their symbols.
    Image {
        /// Where the addresses come from: LIST, not yet parsed, or a file, not yet opened.
        addresses: Addresses<'a>,
        /// As for `load`.
        text: LoadText,
        /// Whether `--explain` is given.
        explain: bool,
        /// The arguments FILE..., in the order given, of which there is at least one.
        files: Vec<&'a str>,
    },
    /// `check [--lint] [--explain] FILE`: one line about FILE, or more of them.
    Check {
        /// Whether `--lint` is given.
        lint: bool,
        /// Whether `--explain` is given.
        explain: bool,
        /// The argument FILE.
        file: &'a str,
    },
    /// `show [--json [--content] | --html] [--explain] FILE`: a listing of FILE, a JSON document or a page.
    Show {
        /// A document if `--json` is given, with the stored bytes if `--content` is given too, a page if
        /// `--html` is given, and otherwise the listing.
        text: ShowText,
        /// Whether `--explain` is given.
        explain: bool,
        /// The argument FILE.
        file: &'a str,
    },
    /// `show --names FILE...`: the names in FILE..., a load file or object files.
    Names {
        /// The arguments FILE..., in the order given, of which there is at least one.
        files: Vec<&'a str>,
    },
    /// `survey [--json] [--digest] [--wait] [--files-from LIST] FILE...`: a line about each of FILE... and of
    /// the files in LIST, and then their numbers.
    Survey {
        /// Which of `--json`, `--digest` and `--wait` are given.
        options: SurveyOptions,
        /// The arguments FILE..., in the order given, of which there is at least one, or a list.
        files: Vec<&'a [u8]>,
        /// The list LIST, if it is given.
        list: Option<FileList<'a>>,
    },
    /// `copy --out OUT [--strip] [--short] [--trim] [--explain] FILE`, or `copy --out OUT --normal FILE`: the
    /// load file FILE, written to OUT.
    Copy {
        /// The argument OUT.
        out: &'a str,
        /// The normal form if `--normal` is given, and otherwise which of `--strip`, `--short` and
        /// `--trim` are.
        form: CopyForm,
        /// Whether `--explain` is given.
        explain: bool,
        /// The argument FILE.
        file: &'a str,
    },
    /// `compare [--symbols] A B`: where the load files A and B first differ.
    Compare {
        /// Whether `--symbols` is given.
        with_symbols: bool,
        /// The argument A.
        first: &'a str,
        /// The argument B.
        second: &'a str,
    },
    /// `--version`: the version of the program.
    Version,
    /// Help, and its text.
    Help(String),
    /// Arguments that `clap` rejects, and what it says about them.
    Refused(String),
    /// Memory ran out while the arguments were read.
    OutOfMemory,
}

/// Does what was asked for with the files of `store`, prints to `output`, and returns the exit status: 0 where
/// it was done, and else that of the failure, whose line is appended to `errors`, or a write to it failed. If
/// `explain` is set, further lines may follow, which [`explain_failure`] tells.
pub fn answer<S: Store, O: Output, W: Sink>(
    alloc: Global,
    store: &mut S,
    output: &mut O,
    errors: &mut W,
    request: Request<'_>,
) -> u8
    ensures { Ends (run_between S.content O.taken O.failed O.waiting store.old store.new output.old
        output.new) W.taken W.failed errors.old errors.new request.entry result }
{
    match request {
        Request::Link {
            out,
            map,
            options,
            globals,
            explain,
            files,
            list,
        } => {
            let files = files.as_slice();
            answer_link(
                alloc, store, errors, out, map, options, globals, explain, files, list,
            )
        }
        Request::Load {
            addresses,
            text,
            explain,
            file,
        } => answer_load(alloc, store, output, errors, addresses, text, explain, file),
        Request::Image {
            addresses,
            text,
            explain,
            files,
        } => {
            let files = files.as_slice();
            answer_image(
                alloc, store, output, errors, addresses, text, explain, files,
            )
        }
        Request::Check {
            lint,
            explain,
            file,
        } => {
            let text = if lint { Text::Lint } else { Text::Line };
            answer_text(alloc, store, output, errors, text, explain, file)
        }
        Request::Show {
            text,
            explain,
            file,
        } => {
            let text = Text::Shown(text);
            answer_text(alloc, store, output, errors, text, explain, file)
        }
        Request::Names { files } => { answer_names(alloc, store, output, errors, files.as_slice()) }
        Request::Survey {
            options,
            files,
            list,
        } => {
            let files = files.as_slice();
            answer_survey(alloc, store, output, errors, options, files, list)
        }
        Request::Copy {
            out,
            form,
            explain,
            file,
        } => answer_copy(alloc, store, errors, out, form, explain, file),
        Request::Compare {
            with_symbols,
            first,
            second,
        } => answer_compare(alloc, store, output, errors, with_symbols, first, second),
        Request::Version => answer_version(output, errors),
        Request::Help(text) => answer_help(output, errors, text.as_str()),
        Request::Refused(text) => report_refusal(errors, &text),
        Request::OutOfMemory => report_failure(errors, &[], &Failure::out_of_memory()),
    }
}
