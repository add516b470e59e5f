//! The request `image`: the memory that object files define at given addresses, or their symbols.
ghost use Rattle.std.specs.Prelude.{IfErr, OnOk};
ghost use Rattle.hunk_tool.specs.Image.{IsUnitsFault, IsUnitsText};
ghost use Rattle.hunk_tool.specs.Inputs.{HaveRead, file_names, inputs_of};
ghost use Rattle.hunk_store.specs.Addresses.{source_of};
ghost use Rattle.hunk_store.specs.Output.{printed_of};
ghost use Rattle.hunk_commands.specs.Image.{AreImaged, IsImageFailure, is_stripped, units_text};

use crate::devices::flush;
use crate::load::LoadText;
use hunk_store::{Addresses, Failure, Output, Store, addresses_of, open_inputs};
use hunk_tool::{NameHasher, ToolFault, image_run_with, image_symbols_run};
use hunk_words::{Sink, Source};
use std::alloc::Global;

/// Links the object files named `files`, and prints this text of them at these addresses. The addresses are
/// known before the files are opened.
///
/// # Errors
///
/// - Those of [`addresses_of`].
/// - [`Failure::Opening`] with the first of `files` that cannot be opened.
/// - [`Failure::Tool`] with what [`image_to`] returns, or out of memory.
/// - [`Failure::Printing`] if the output did not pass on all of the text.
pub fn image<'a, S: Store, O: Output>(
    alloc: Global,
    store: &S,
    output: &mut O,
    addresses: Addresses<'a>,
    text: LoadText,
    files: &[&'a str],
) -> Result<(), Failure<'a>>
    ensures ok { OnOk result (AreImaged text (S.content store.now)
        (source_of addresses.entry) (file_names files.entry.now)
        (printed_of O.taken O.failed O.waiting output.old output.new)) }
    ensures err { IfErr result (IsImageFailure text (S.content store.now)
        (source_of addresses.entry) (file_names files.entry.now)
        (printed_of O.taken O.failed O.waiting output.old output.new)) }
{
    let bases = addresses_of(alloc, store, addresses)?;
    let mut inputs = open_inputs(alloc, store, files)?;
    let hasher = store.name_hasher();
    image_to(
        alloc,
        inputs.as_mut_slice(),
        bases.as_slice(),
        text,
        hasher,
        output,
    )?;
    flush(output)
}

/// Writes this text of the object files that are read from `inputs`, each to its end, at these addresses.
///
/// # Errors
///
/// Those of [`image_run_with`] for an image, and of [`image_symbols_run`] for symbols.
pub fn image_to<R: Source, W: Sink>(
    alloc: Global,
    inputs: &mut [R],
    bases: &[u32],
    text: LoadText,
    hasher: NameHasher,
    writer: &mut W,
) -> Result<(), ToolFault>
    ensures ok { OnOk result
        (HaveRead (inputs_of R.left R.failed R.ended inputs.old inputs.new) (IsUnitsText
        (is_stripped text) (units_text text) bases.now (W.taken writer.old) (W.taken writer.new))) }
    ensures err { IfErr result (IsUnitsFault (is_stripped text) (units_text text) bases.now
        (inputs_of R.left R.failed R.ended inputs.old inputs.new) (record {
          old = W.taken
              writer.old;
          new = W.taken writer.new;
          failed = W.failed writer.new;
        })) }
{
    match text {
        LoadText::Image(form) => image_run_with(alloc, inputs, bases, form, hasher, writer),
        LoadText::Symbols(form) => image_symbols_run(alloc, inputs, bases, form, hasher, writer),
    }
}
