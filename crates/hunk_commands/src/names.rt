//! The request `show --names`: the names in files.
ghost use Rattle.std.specs.Prelude.{IfErr, IfOk, OnOk};
ghost use Rattle.hunk_base.specs.Streams.{WroteText};
ghost use Rattle.hunk_tool.specs.Inputs.{file_names};
ghost use Rattle.hunk_origins.specs.NamedFiles.{AreNamedFiles};
ghost use Rattle.hunk_origins.specs.Names.{names_text};
ghost use Rattle.hunk_store.specs.Inputs.{OfWholeFiles};
ghost use Rattle.hunk_store.specs.Output.{printed_of};
ghost use Rattle.hunk_commands.specs.Names.{AreListed, AreUnread, IsNamesFailure};

use crate::devices::flush;
use hunk_origins::{NameList, NamedFiles, read_named_files, write_names};
use hunk_store::{Failure, Output, Store, open_inputs};
use hunk_words::{Sink, Text, WriteFault};
use std::alloc::Global;

/// Reads the files named `files`, one alone as a file of either kind and several as object files, and prints a
/// line for each name in them, sorted as [`NameList`] sorts them.
///
/// Nothing is printed before all files have been read.
///
/// # Errors
///
/// - [`Failure::Opening`] with the first of `files` that cannot be opened.
/// - [`Failure::Tool`] with what [`read_named_files`] returns, or out of memory.
/// - [`Failure::Printing`] if the output did not take or pass on all lines.
pub fn print_names<'a, S: Store, O: Output>(
    alloc: Global,
    store: &S,
    output: &mut O,
    files: &[&'a str],
) -> Result<(), Failure<'a>>
    ensures ok { OnOk result (AreListed (S.content store.now) (file_names files.entry.now)
        (printed_of O.taken O.failed O.waiting output.old output.new)) }
    ensures err { IfErr result (IsNamesFailure (S.content store.now) (file_names files.entry.now)
        (printed_of O.taken O.failed O.waiting output.old output.new)) }
{
    let named = named_files(alloc, store, files)?;
    let Ok(names) = NameList::of(alloc, &named, store.name_hasher()) else {
        return Err(Failure::out_of_memory());
    };
    let Ok(()) = write_list(&names, output) else {
        return Err(Failure::Printing);
    };
    flush(output)
}

/// The files named `files`, read to their ends.
fn named_files<'a, S: Store>(
    alloc: Global,
    store: &S,
    files: &[&'a str],
) -> Result<NamedFiles, Failure<'a>>
    ensures ok { IfOk result (λ named. OfWholeFiles (S.content store.now)
        (file_names files.entry.now) (AreNamedFiles named)) }
    ensures err { IfErr result (AreUnread (S.content store.now) (file_names files.entry.now)) }
{
    let mut inputs = open_inputs(alloc, store, files)?;
    Ok(read_named_files(alloc, inputs.as_mut_slice())?)
}

/// Writes the lines of a list.
fn write_list<W: Sink>(names: &NameList<'_>, writer: &mut W) -> Result<(), WriteFault>
    ensures { WroteText W.taken W.failed writer.old writer.new (names_text names.now) result }
{
    let mut text = Text::new(writer);
    write_names(&mut text, names);
    text.finish()
}
