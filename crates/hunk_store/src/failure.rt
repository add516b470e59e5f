//! Why a request failed: the line that reports it, and the exit status.
ghost use Rattle.std.specs.Prelude.{◌≡◌, map};
ghost use Rattle.std.specs.String.{string_bytes};
ghost use Rattle.hunk_tool.specs.FaultLine.{fault_line};
ghost use Rattle.hunk_store.specs.Addresses.{source_of};
ghost use Rattle.hunk_store.specs.Failure.{about_line, bad_name_line, bad_number_line, failure_line, source_name, part_line};
ghost use Rattle.hunk_store.specs.Failure.{status_of, status_of_comparison, TellsLine};

use crate::addresses::Addresses;
use hunk_tool::{OpenFault, ToolFault, status_of, write_fault};
use hunk_words::{Sink, Text};

/// The exit status of a request that was done, or of help that was asked for.
pub const DONE: u8 = 0;

/// The exit status of a comparison of files that differ.
pub const DIFFERENT: u8 = 1;

/// The exit status if the command line, or the addresses of the hunks, are rejected.
pub const COMMAND_LINE: u8 = 2;

/// The exit status if a file cannot be opened, or a read or a write failed.
pub const DEVICE: u8 = 3;

/// Why a request failed.
#[derive(Debug, Drop, PartialEq, Eq)]
pub enum Failure<'a> {
    /// A part of the addresses is not a number.
    BadNumber {
        /// Where the addresses come from.
        addresses: Addresses<'a>,
        /// The index, from 0, of the first such part.
        index: usize,
    },
    /// The file with this name cannot be opened, or cannot be created, for this reason.
    Opening(&'a str, OpenFault),
    /// A read of the file of addresses, or of the list of files, with this name failed.
    Reading(&'a str),
    /// A name in a list of files is not UTF-8, and the files are opened by such names alone.
    BadName {
        /// The name of the list.
        list: &'a str,
        /// The index, from 0, of the first such name.
        index: usize,
    },
    /// The file of addresses with this name has more of them than a load file has hunks.
    TooManyAddresses(&'a str),
    /// The file of addresses with this name is longer than one may be.
    TooLong(&'a str),
    /// The file with this name, the map of a link, did not take everything that was written to it.
    Writing(&'a str),
    /// The load file of a link and its map are to be written to one file, with this name for the map.
    SameFile(&'a str),
    /// The map of a link is to be written to one of the files that are linked, with this name.
    MapOverFile(&'a str),
    /// The output did not take everything that was written to it.
    Printing,
    /// What `hunk_tool` returned.
    Tool(ToolFault),
}

impl<'a> Failure<'a> {
    /// Out of memory, before anything was written.
    pub fn out_of_memory() -> Failure<'a>
        ensures { result ≡ Failure.Tool (ToolFault.OutOfMemory 0) }
    {
        Failure::Tool(ToolFault::OutOfMemory { written: 0 })
    }

    /// The exit status of the program.
    pub fn status(&self) -> u8
        ensures { result ≡ status_of self.now }
    {
        match self {
            Failure::BadNumber { .. } | Failure::TooManyAddresses(_) | Failure::TooLong(_) =>
                COMMAND_LINE,
            Failure::BadName { .. } => COMMAND_LINE,
            Failure::SameFile(_) | Failure::MapOverFile(_) => COMMAND_LINE,
            Failure::Opening(..) | Failure::Reading(_) | Failure::Writing(_) | Failure::Printing =>
                DEVICE,
            Failure::Tool(fault) => status_of(fault),
        }
    }

    /// The exit status of a comparison. It is that of the program, but for a file that is refused: 1 is
    /// the status of files that differ.
    pub fn status_of_comparison(&self) -> u8
        ensures { result ≡ status_of_comparison self.now }
    {
        match self {
            Failure::Tool(ToolFault::Input { .. }) => COMMAND_LINE,
            failure => failure.status(),
        }
    }
}

impl From<ToolFault> for Failure<'_> {
    ghost use Rattle.hunk_store.specs.declared.failure.Failure.{Failure};

    ghost from_gives = { λ fault failure. failure ≡ Failure.Tool fault };

    fn from(fault: ToolFault) -> Self {
        Failure::Tool(fault)
    }
}

/// Writes the line of a failure to `errors`, and returns the exit status. `files` are the names of
/// the files that an engine's answer counts.
///
/// The line is appended to `errors`, or a write failed: then it has taken the first bytes of the
/// line, and nothing more is written.
pub fn report_failure<W: Sink>(errors: &mut W, files: &[String], failure: &Failure<'_>) -> u8
    ensures status { result ≡ status_of failure.now }
    ensures line { TellsLine W.taken W.failed errors.old errors.new
        (failure_line (map string_bytes files.now) failure.now) }
{
    tell_failure(errors, files, failure);
    failure.status()
}

/// Writes the line of a failure.
fn tell_failure<W: Sink>(errors: &mut W, files: &[String], failure: &Failure<'_>)
    ensures { TellsLine W.taken W.failed errors.old errors.new
        (failure_line (map string_bytes files.now) failure.now) }
{
    match failure {
        Failure::BadNumber { addresses, index } => tell_bad_number(errors, *addresses, *index),
        Failure::Opening(file, _) => tell_about(errors, file, b"cannot be opened"),
        Failure::Reading(file) => tell_about(errors, file, b"read failed"),
        Failure::BadName { list, index } => tell_bad_name(errors, list, *index),
        Failure::TooManyAddresses(file) => tell_about(errors, file, b"more than 65535 addresses"),
        Failure::TooLong(file) => tell_about(errors, file, b"more than 16777216 bytes"),
        Failure::Writing(file) => tell_about(errors, file, b"write failed"),
        Failure::SameFile(file) => tell_about(errors, file, b"given for both --out and --map"),
        Failure::MapOverFile(file) => tell_about(errors, file, b"given for both --map and FILE"),
        Failure::Printing => {
            let output: ToolFault = ToolFault::Output { written: 0 };
            tell_fault(errors, files, &output);
        }
        Failure::Tool(fault) => tell_fault(errors, files, fault),
    }
}

/// Writes the line for a part of the addresses that is no number.
fn tell_bad_number<W: Sink>(errors: &mut W, addresses: Addresses<'_>, index: usize)
    ensures { TellsLine W.taken W.failed errors.old errors.new
        (bad_number_line (source_of addresses.entry) index) }
{
    let told = b" is not 1 to 8 hexadecimal digits";
    tell_of_part(errors, source_name(addresses), b": part ", index, told);
}

/// Writes the line for a name in a list that is not UTF-8.
fn tell_bad_name<W: Sink>(errors: &mut W, list: &str, index: usize)
    ensures { TellsLine W.taken W.failed errors.old errors.new (bad_name_line list.now index) }
{
    tell_of_part(errors, list, b": name ", index, b" is not UTF-8");
}

/// Writes the line that tells this about the part of a file that has this kind and index.
fn tell_of_part<W: Sink>(errors: &mut W, file: &str, kind: &[u8], index: usize, told: &[u8])
    ensures { TellsLine W.taken W.failed errors.old errors.new
        (part_line file.now kind.now index told.now) }
{
    let mut text = Text::new(errors);
    text.put(b"amihunk: ");
    text.put(file.as_bytes());
    text.put(kind);
    text.put_decimal(index as u64);
    text.put(told);
    text.end_line();
    let _ = text.finish();
}

/// What the line about bad addresses names.
fn source_name<'a>(addresses: Addresses<'a>) -> &'a str
    ensures { result.now ≡ source_name (source_of addresses.entry) }
{
    match addresses {
        Addresses::List(_) => "--at",
        Addresses::File(name) => name,
    }
}

/// Writes the line that tells this about a file.
fn tell_about<W: Sink>(errors: &mut W, file: &str, told: &[u8])
    ensures { TellsLine W.taken W.failed errors.old errors.new (about_line file.now told.now) }
{
    let mut text = Text::new(errors);
    text.put(b"amihunk: ");
    text.put(file.as_bytes());
    text.put(b": ");
    text.put(told);
    text.end_line();
    let _ = text.finish();
}

/// Writes the line for what `hunk_tool` returned.
fn tell_fault<W: Sink>(errors: &mut W, files: &[String], fault: &ToolFault)
    ensures { TellsLine W.taken W.failed errors.old errors.new
        (fault_line (map string_bytes files.now) fault.now) }
{
    let _ = write_fault(files, fault, errors);
}
