//! The command line that the program accepts, as `clap` is told of it.
ghost use Rattle.std.specs.Prelude.{◌≡◌, IfOk, false, map};
ghost use Rattle.clap.specs.Words.{Shape, app_of, rule_of, shape_of, with_subcommand};
ghost use Rattle.clap.specs.declared.builder.command.Command.TheViews.{out-Command};
ghost use Rattle.amihunk.specs.Syntax.{AreLocal, bare_app, check_shape, command_line, compare_shape, copy_shape, image_shape, link_shape, load_shape, show_shape, survey_shape, with_rules};

use crate::syntax::options::{
    addresses_argument, at_argument, explain_flag, file_argument, files_argument, flag,
    globals_flag, lines_flag, list_argument, listed_argument, map_argument, normal_flag,
    out_argument, records_flag, short_flag, strip_flag, symbols_flag, trim_flag, value_argument,
};
use clap::{Arg, Command};
use hunk_commands::VERSION;
use std::alloc::{AllocError, Global};

/// The command line that the program accepts.
pub fn command<'a>(alloc: Global) -> Result<Command<'a>, AllocError>
    ensures { IfOk result (λ c. app_of c ≡ command_line) }
{
    let links = with_subcommand(bare_command(alloc), link_command(alloc))?;
    let loads = with_subcommand(links, load_command(alloc))?;
    let images = with_subcommand(loads, image_command(alloc))?;
    let checks = with_subcommand(images, check_command(alloc))?;
    let shows = with_subcommand(checks, show_command(alloc))?;
    let surveys = with_subcommand(shows, survey_command(alloc))?;
    let copies = with_subcommand(surveys, copy_command(alloc))?;
    with_subcommand(copies, compare_command(alloc))
}

/// The program without its subcommands.
fn bare_command<'a>(alloc: Global) -> Command<'a>
    ensures { app_of result ≡ bare_app }
{
    Command::new(alloc, "amihunk")
        .about("An Amiga hunk linker and loader")
        .version(VERSION)
        .disable_help_subcommand(true)
        .subcommand_required(true)
}

/// A command with a subcommand, if that could be made.
fn with_subcommand<'a>(
    command: Command<'a>,
    subcommand: Result<Command<'a>, AllocError>,
) -> Result<Command<'a>, AllocError>
    requires { IfOk subcommand (λ s. (out-Command s).has_globals ≡ false) }
    ensures { (shape : Shape) → IfOk subcommand.entry (λ s. shape_of s ≡ shape) →
        IfOk result (λ c. app_of c ≡ with_subcommand (app_of command.entry) shape) }
{
    // A call of its own, so that it is proved once that the command is dropped where there is no subcommand.
    command.subcommand(subcommand?)
}

/// A command with these arguments as well, in this order, if that could be made.
fn with_arguments<'a>(
    command: Command<'a>,
    arguments: Vec<Arg<'a>>,
) -> Result<Command<'a>, AllocError>
    requires { AreLocal arguments.items }
    ensures shape { IfOk result
        (λ c. app_of c ≡ with_rules (app_of command.entry) (map rule_of arguments.entry.items)) }
    ensures local { (out-Command command.entry).has_globals ≡ false →
        IfOk result (λ c. (out-Command c).has_globals ≡ false) }
{
    // A call of its own, so that it is proved once what they make of a command.
    command.args(arguments)
}

/// The subcommand `link --out OUT [--map MAP] [--strip] [--short] [--trim] [--globals] [--explain]
/// [--files-from LIST] [--lines] [FILE...]`, where `-o` is `--out`, and `-s` is `--strip`. No rule of `clap` says that `--lines`
/// goes with `--files-from`, and that there is a FILE without it: the command line is judged after the parse.
pub fn link_command<'a>(alloc: Global) -> Result<Command<'a>, AllocError>
    ensures shape { IfOk result (λ c. shape_of c ≡ link_shape) }
    ensures local { IfOk result (λ c. (out-Command c).has_globals ≡ false) }
{
    let arguments = vec![in alloc;
        out_argument(alloc),
        map_argument(alloc),
        strip_flag(alloc),
        short_flag(alloc),
        trim_flag(alloc),
        globals_flag(alloc),
        explain_flag(alloc),
        list_argument(alloc),
        lines_flag(alloc),
        listed_argument(alloc, "Object files, in the order of linking"),
    ]?;
    let link = Command::new(alloc, "link")
        .about("Links object files, and writes the load file")
        .after_help(help::LINK);
    with_arguments(link, arguments)
}

/// The subcommand `load --at LIST [--srec] [--symbols] [--explain] FILE`, or with `--at-file FILE` in
/// place of `--at LIST`. No rule of `clap` keeps the two options apart: the command line is judged after
/// the parse.
pub fn load_command<'a>(alloc: Global) -> Result<Command<'a>, AllocError>
    ensures shape { IfOk result (λ c. shape_of c ≡ load_shape) }
    ensures local { IfOk result (λ c. (out-Command c).has_globals ≡ false) }
{
    let arguments = vec![in alloc;
        at_argument(alloc),
        addresses_argument(alloc),
        records_flag(alloc),
        symbols_flag(alloc),
        explain_flag(alloc),
        file_argument(alloc, "A load file"),
    ]?;
    let load = Command::new(alloc, "load")
        .about("Loads a file at addresses, and prints the bytes of its hunks")
        .after_help(help::LOAD)
        .override_usage(help::LOAD_USAGE);
    with_arguments(load, arguments)
}

/// The subcommand `image --at LIST [--srec] [--symbols] [--explain] FILE...`, or with `--at-file FILE` in
/// place of `--at LIST`.
pub fn image_command<'a>(alloc: Global) -> Result<Command<'a>, AllocError>
    ensures shape { IfOk result (λ c. shape_of c ≡ image_shape) }
    ensures local { IfOk result (λ c. (out-Command c).has_globals ≡ false) }
{
    let arguments = vec![in alloc;
        at_argument(alloc),
        addresses_argument(alloc),
        records_flag(alloc),
        symbols_flag(alloc),
        explain_flag(alloc),
        files_argument(alloc, "Object files, in the order of linking"),
    ]?;
    let image = Command::new(alloc, "image")
        .about("Links object files at addresses, and prints the bytes of their hunks")
        .after_help(help::IMAGE)
        .override_usage(help::IMAGE_USAGE);
    with_arguments(image, arguments)
}

/// The subcommand `check [--lint] [--explain] FILE`.
pub fn check_command<'a>(alloc: Global) -> Result<Command<'a>, AllocError>
    ensures shape { IfOk result (λ c. shape_of c ≡ check_shape) }
    ensures local { IfOk result (λ c. (out-Command c).has_globals ≡ false) }
{
    let lint = "Tells what in the file is ignored, or likely to be a mistake";
    let arguments = vec![in alloc;
        flag(alloc, "lint", lint),
        explain_flag(alloc),
        file_argument(alloc, "An object file or a load file"),
    ]?;
    let check = Command::new(alloc, "check")
        .about("Checks a file, and prints which kind it is and how many units and hunks it has")
        .after_help(help::CHECK);
    with_arguments(check, arguments)
}

/// The subcommand `show [--json] [--content] [--html] [--names] [--explain] FILE...`. No rule of `clap` says
/// which of the flags go together, or that only `--names` goes with several files: the command line is judged
/// after the parse.
pub fn show_command<'a>(alloc: Global) -> Result<Command<'a>, AllocError>
    ensures shape { IfOk result (λ c. shape_of c ≡ show_shape) }
    ensures local { IfOk result (λ c. (out-Command c).has_globals ≡ false) }
{
    let json = "Prints the listing as one JSON document";
    let content = "With `--json`, tells the stored bytes of each hunk too";
    let page = "Prints a page for a browser, which shows the file";
    let names = "Lists the names in the files, sorted, as `nm` lists them";
    let files = "An object file or a load file, or with `--names` object files";
    let arguments = vec![in alloc;
        flag(alloc, "json", json),
        flag(alloc, "content", content),
        flag(alloc, "html", page),
        flag(alloc, "names", names),
        explain_flag(alloc),
        files_argument(alloc, files),
    ]?;
    let show = Command::new(alloc, "show")
        .about("Prints a listing of the units and hunks of a file, and of what is in them")
        .after_help(help::SHOW);
    with_arguments(show, arguments)
}

/// The subcommand `survey [--json] [--digest] [--wait] [--files-from LIST] [--lines] [FILE...]`. No rule of
/// `clap` says that `--lines` goes with `--files-from`, and that there is a FILE without it: the command line
/// is judged after the parse.
pub fn survey_command<'a>(alloc: Global) -> Result<Command<'a>, AllocError>
    ensures shape { IfOk result (λ c. shape_of c ≡ survey_shape) }
    ensures local { IfOk result (λ c. (out-Command c).has_globals ≡ false) }
{
    let json =
        "Prints a JSON document about each file, on a line of its own, in place of the lines";
    let digest = "Tells of each load file the SHA-256 of its normal form";
    let wait = "Opens pipes and devices too, and waits until they can be read";
    let arguments = vec![in alloc;
        flag(alloc, "json", json),
        flag(alloc, "digest", digest),
        flag(alloc, "wait", wait),
        list_argument(alloc),
        lines_flag(alloc),
        listed_argument(alloc, "Object files, load files and any others"),
    ]?;
    let survey = Command::new(alloc, "survey")
        .about("Tells of each file what it is, and how many there are of each kind")
        .after_help(help::SURVEY);
    with_arguments(survey, arguments)
}

/// The subcommand `copy --out OUT [--strip] [--short] [--trim] [--normal] [--explain] FILE`, where `-o` is
/// `--out`, and `-s` is `--strip`. No rule of `clap` keeps `--normal` apart from the other flags: the
/// command line is judged after the parse.
pub fn copy_command<'a>(alloc: Global) -> Result<Command<'a>, AllocError>
    ensures shape { IfOk result (λ c. shape_of c ≡ copy_shape) }
    ensures local { IfOk result (λ c. (out-Command c).has_globals ≡ false) }
{
    let arguments = vec![in alloc;
        out_argument(alloc),
        strip_flag(alloc),
        short_flag(alloc),
        trim_flag(alloc),
        normal_flag(alloc),
        explain_flag(alloc),
        file_argument(alloc, "A load file"),
    ]?;
    let copy = Command::new(alloc, "copy")
        .about("Writes a load file again, as `link` writes it, or in its normal form")
        .after_help(help::COPY);
    with_arguments(copy, arguments)
}

/// The subcommand `compare [--symbols] A B`.
pub fn compare_command<'a>(alloc: Global) -> Result<Command<'a>, AllocError>
    ensures shape { IfOk result (λ c. shape_of c ≡ compare_shape) }
    ensures local { IfOk result (λ c. (out-Command c).has_globals ≡ false) }
{
    let arguments = vec![in alloc;
        flag(alloc, "symbols", "Compares symbols and debug blocks too"),
        value_argument(alloc, "first", "A", "A load file"),
        value_argument(alloc, "second", "B", "Another load file"),
    ]?;
    let compare = Command::new(alloc, "compare")
        .about("Tells whether two load files mean the same, or where they first differ")
        .after_help(help::COMPARE);
    with_arguments(compare, arguments)
}

mod help;
mod options;
