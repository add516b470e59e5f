//! The request `load`: the image or the symbols of a load file at given addresses.
ghost use Rattle.std.specs.Prelude.{IfOk, IfErr, IsTrue, OnOk};
ghost use Rattle.hunk_base.specs.Streams.{HasRead};
ghost use Rattle.hunk_tool.specs.Load.{IsFaultAt, IsWrittenAt, ends_of};
ghost use Rattle.hunk_store.specs.Addresses.{source_of};
ghost use Rattle.hunk_store.specs.Output.{printed_of};
ghost use Rattle.hunk_commands.specs.Load.{IsLoadFailure, IsLoaded, text_of};

use crate::devices::flush;
use hunk_store::{Addresses, Failure, Output, Store, addresses_of, open};
use hunk_tool::{ImageForm, SymbolForm, ToolFault, load_run_with, symbols_run};
use hunk_words::{Sink, Source};
use std::alloc::Global;

/// What is printed of a load file, or of object files, at given addresses.
#[derive(Clone, Copy)]
pub enum LoadText {
    /// The image of the load file, or the memory that the object files define, in this form.
    Image(ImageForm),
    /// The symbols of the load file, or of the one that the object files make, in this form.
    Symbols(SymbolForm),
}

/// Loads the file named `file` at these addresses, and prints this text of it. The addresses are known
/// before the file is opened.
///
/// # Errors
///
/// - Those of [`addresses_of`].
/// - [`Failure::Opening`] if the file cannot be opened.
/// - [`Failure::Tool`] with what [`load_to`] returns.
/// - [`Failure::Printing`] if the output did not pass on all of the text.
pub fn load<'a, S: Store, O: Output>(
    alloc: Global,
    store: &S,
    output: &mut O,
    addresses: Addresses<'a>,
    text: LoadText,
    file: &'a str,
) -> Result<(), Failure<'a>>
    ensures ok { OnOk result (IsLoaded text (S.content store.now) (source_of addresses.entry)
        file.entry.now (printed_of O.taken O.failed O.waiting output.old output.new)) }
    ensures err { IfErr result (IsLoadFailure text (S.content store.now) (source_of addresses.entry)
        file.entry.now (printed_of O.taken O.failed O.waiting output.old output.new)) }
{
    let bases = addresses_of(alloc, store, addresses)?;
    let mut reader = open(store, file)?;
    load_to(alloc, &mut reader, bases.as_slice(), text, output)?;
    flush(output)
}

/// Writes this text of the load file that is read from `reader`, to its end, at these addresses.
///
/// # Errors
///
/// Those of [`load_run_with`] for an image, and of [`symbols_run`] for symbols.
pub fn load_to<R: Source, W: Sink>(
    alloc: Global,
    reader: &mut R,
    bases: &[u32],
    text: LoadText,
    writer: &mut W,
) -> Result<(), ToolFault>
    ensures ok { OnOk result (HasRead (R.left reader.old) (R.left reader.new)
        (IsWrittenAt (text_of text) bases.now (W.taken writer.old) (W.taken writer.new))) }
    ensures ended { OnOk result (IsTrue (R.ended reader.new)) }
    ensures err { IfErr result (IsFaultAt (text_of text) bases.now (ends_of
        (R.left reader.old) (R.left reader.new) (R.failed reader.new) (R.ended reader.new)
        (W.taken writer.old) (W.taken writer.new) (W.failed writer.new))) }
{
    match text {
        LoadText::Image(form) => load_run_with(alloc, reader, bases, form, writer),
        LoadText::Symbols(form) => symbols_run(alloc, reader, bases, form, writer),
    }
}
