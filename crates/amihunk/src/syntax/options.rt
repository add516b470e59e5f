//! The options, flags and other arguments of subcommands.
ghost use Rattle.std.specs.Prelude.{◌≡◌, codes, false};
ghost use Rattle.clap.specs.Words.{rule_of};
ghost use Rattle.amihunk.specs.Syntax.{explain_rule, file_rule, files_rule, files_rule_if, flag_rule, letter_s, option_rule, out_rule, value_rule, with_letter};

use clap::{Arg, ArgAction};
use std::alloc::Global;

/// The argument `--map MAP`.
pub(super) fn map_argument<'a>(alloc: Global) -> Arg<'a>
    ensures rule { rule_of result ≡ option_rule (codes "map") }
    ensures local { result.global ≡ false }
{
    let help = "The file to write that tells where each hunk is from";
    option(alloc, "map", "MAP", help)
}

/// The argument `--out OUT` or `-o OUT`, which is required.
pub(super) fn out_argument<'a>(alloc: Global) -> Arg<'a>
    ensures rule { rule_of result ≡ out_rule }
    ensures local { result.global ≡ false }
{
    option(alloc, "out", "OUT", "The load file to write")
        .short('o')
        .required(true)
}

/// The flag `--NAME`.
pub(super) fn flag<'a>(alloc: Global, name: &'a str, help: &'a str) -> Arg<'a>
    ensures rule { rule_of result ≡ flag_rule name.now }
    ensures local { result.global ≡ false }
{
    Arg::new(alloc, name)
        .long(name)
        .action(ArgAction::SetTrue)
        .help(help)
}

/// The flag `--strip` or `-s`.
pub(super) fn strip_flag<'a>(alloc: Global) -> Arg<'a>
    ensures rule { rule_of result ≡ with_letter letter_s (flag_rule (codes "strip")) }
    ensures local { result.global ≡ false }
{
    flag(alloc, "strip", "Leaves out symbols and debug blocks").short('s')
}

/// The flag `--short`.
pub(super) fn short_flag<'a>(alloc: Global) -> Arg<'a>
    ensures rule { rule_of result ≡ flag_rule (codes "short") }
    ensures local { result.global ≡ false }
{
    let help = "Writes the short form, with relocations in 16-bit lists where they fit";
    flag(alloc, "short", help)
}

/// The flag `--trim`.
pub(super) fn trim_flag<'a>(alloc: Global) -> Arg<'a>
    ensures rule { rule_of result ≡ flag_rule (codes "trim") }
    ensures local { result.global ≡ false }
{
    let help = "Leaves out zero longwords at the end of each hunk";
    flag(alloc, "trim", help)
}

/// The flag `--globals`.
pub(super) fn globals_flag<'a>(alloc: Global) -> Arg<'a>
    ensures rule { rule_of result ≡ flag_rule (codes "globals") }
    ensures local { result.global ≡ false }
{
    let help = "Keeps the names that hunks define, as symbols of these hunks";
    flag(alloc, "globals", help)
}

/// The flag `--srec`.
pub(super) fn records_flag<'a>(alloc: Global) -> Arg<'a>
    ensures rule { rule_of result ≡ flag_rule (codes "srec") }
    ensures local { result.global ≡ false }
{
    let help = "Prints Motorola S-records in place of the report";
    flag(alloc, "srec", help)
}

/// The flag `--symbols` of `load` and `image`.
pub(super) fn symbols_flag<'a>(alloc: Global) -> Arg<'a>
    ensures rule { rule_of result ≡ flag_rule (codes "symbols") }
    ensures local { result.global ≡ false }
{
    let help = "Prints the address of each symbol in place of the report, or before the S-records";
    flag(alloc, "symbols", help)
}

/// The flag `--explain`.
pub(super) fn explain_flag<'a>(alloc: Global) -> Arg<'a>
    ensures rule { rule_of result ≡ explain_rule }
    ensures local { result.global ≡ false }
{
    let help = "Tells more of a refusal, in further lines";
    flag(alloc, "explain", help)
}

/// The flag `--normal`.
pub(super) fn normal_flag<'a>(alloc: Global) -> Arg<'a>
    ensures rule { rule_of result ≡ flag_rule (codes "normal") }
    ensures local { result.global ≡ false }
{
    let help = "Writes the normal form, which files that mean the same have in common";
    flag(alloc, "normal", help)
}

/// The argument VALUE, which is required.
pub(super) fn value_argument<'a>(
    alloc: Global,
    name: &'a str,
    value: &'a str,
    help: &'a str,
) -> Arg<'a>
    ensures rule { rule_of result ≡ value_rule name.now }
    ensures local { result.global ≡ false }
{
    Arg::new(alloc, name)
        .value_name(value)
        .required(true)
        .help(help)
}

/// The argument `--at LIST`.
pub(super) fn at_argument<'a>(alloc: Global) -> Arg<'a>
    ensures rule { rule_of result ≡ option_rule (codes "at") }
    ensures local { result.global ≡ false }
{
    let help = "The address of each hunk, in hexadecimal, with commas between";
    option(alloc, "at", "LIST", help)
}

/// The argument `--at-file FILE`.
pub(super) fn addresses_argument<'a>(alloc: Global) -> Arg<'a>
    ensures rule { rule_of result ≡ option_rule (codes "at-file") }
    ensures local { result.global ≡ false }
{
    let help = "A file with these addresses, with commas, spaces, tabs or line ends between";
    option(alloc, "at-file", "FILE", help)
}

/// The argument `--files-from LIST`.
pub(super) fn list_argument<'a>(alloc: Global) -> Arg<'a>
    ensures rule { rule_of result ≡ option_rule (codes "files-from") }
    ensures local { result.global ≡ false }
{
    let help = "A file with the names of further files, each ended by a zero byte";
    option(alloc, "files-from", "LIST", help)
}

/// The flag `--lines`.
pub(super) fn lines_flag<'a>(alloc: Global) -> Arg<'a>
    ensures rule { rule_of result ≡ flag_rule (codes "lines") }
    ensures local { result.global ≡ false }
{
    let help = "With `--files-from`, each name in LIST is a line";
    flag(alloc, "lines", help)
}

/// The argument `--NAME VALUE`.
pub(super) fn option<'a>(alloc: Global, name: &'a str, value: &'a str, help: &'a str) -> Arg<'a>
    ensures rule { rule_of result ≡ option_rule name.now }
    ensures local { result.global ≡ false }
{
    Arg::new(alloc, name)
        .long(name)
        .value_name(value)
        .help(help)
}

/// The argument FILE, for one file.
pub(super) fn file_argument<'a>(alloc: Global, help: &'a str) -> Arg<'a>
    ensures rule { rule_of result ≡ file_rule }
    ensures local { result.global ≡ false }
{
    value_argument(alloc, "file", "FILE", help)
}

/// The arguments FILE..., for one file or more.
pub(super) fn files_argument<'a>(alloc: Global, help: &'a str) -> Arg<'a>
    ensures rule { rule_of result ≡ files_rule }
    ensures local { result.global ≡ false }
{
    file_argument(alloc, help).num_args(1..)
}

/// The arguments FILE..., which may be left out.
pub(super) fn listed_argument<'a>(alloc: Global, help: &'a str) -> Arg<'a>
    ensures rule { rule_of result ≡ files_rule_if false }
    ensures local { result.global ≡ false }
{
    Arg::new(alloc, "file")
        .value_name("FILE")
        .num_args(1..)
        .help(help)
}
