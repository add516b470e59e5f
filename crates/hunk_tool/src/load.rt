//! Loads a file at given addresses, and writes its image.

ghost use Rattle.std.specs.Prelude.{IsTrue, OnOk, IfErr};
ghost use Rattle.hunk_base.specs.Streams.{HasRead};
ghost use Rattle.hunk_tool.specs.Load.{ends_of, IsLoadFault, IsReported};
ghost use Rattle.hunk_image_text.specs.declared.image_form.ImageForm.TheVariants.{Report};

use crate::tool_fault::ToolFault;
use hunk_image_text::{ImageForm, write_image};
use hunk_loader::read_image;
use hunk_words::{Sink, Source};
use std::alloc::Allocator;

/// Reads a load file to the reader's end, loads it at `bases`, and writes the report of its memory:
/// [`load_run_with`] and [`ImageForm::Report`], with the same errors.
pub fn load_run<A: Allocator + Copy, R: Source, W: Sink>(
    alloc: A,
    reader: &mut R,
    bases: &[u32],
    writer: &mut W,
) -> Result<(), ToolFault<A>>
    ensures ok { OnOk result (HasRead (R.left reader.old) (R.left reader.new)
        (IsReported Report bases.now (W.taken writer.old) (W.taken writer.new))) }
    ensures ended { OnOk result (IsTrue (R.ended reader.new)) }
    ensures err { IfErr result (IsLoadFault Report bases.now (ends_of
        (R.left reader.old) (R.left reader.new) (R.failed reader.new) (R.ended reader.new)
        (W.taken writer.old) (W.taken writer.new) (W.failed writer.new))) }
{
    load_run_with(alloc, reader, bases, ImageForm::Report, writer)
}

/// Reads a load file to the reader's end, loads it at `bases`, and writes its image in this form.
/// The bases are addresses, one for each hunk.
///
/// It keeps the image, and not the file. Nothing is written before the whole file has been read and
/// placed. It does not flush.
///
/// # Errors
///
/// - [`ToolFault::Input`] with the place and the reason of the first offence of what was read, as
///   [`read_image`] answers it; where the file ends too early, at the reader's end.
/// - [`ToolFault::InputDevice`] where a read failed.
/// - [`ToolFault::Place`] at the end of a load file, as `check_places` answers it for the sizes of
///   its hunks.
/// - [`ToolFault::Output`] if a write failed or took no byte, with the number of bytes of the
///   image that were written.
/// - [`ToolFault::OutOfMemory`] only if an allocation failed, with nothing written.
pub fn load_run_with<A: Allocator + Copy, R: Source, W: Sink>(
    alloc: A,
    reader: &mut R,
    bases: &[u32],
    form: ImageForm,
    writer: &mut W,
) -> Result<(), ToolFault<A>>
    ensures ok { OnOk result (HasRead (R.left reader.old) (R.left reader.new)
        (IsReported form bases.now (W.taken writer.old) (W.taken writer.new))) }
    ensures ended { OnOk result (IsTrue (R.ended reader.new)) }
    ensures err { IfErr result (IsLoadFault form bases.now (ends_of
        (R.left reader.old) (R.left reader.new) (R.failed reader.new) (R.ended reader.new)
        (W.taken writer.old) (W.taken writer.new) (W.failed writer.new))) }
{
    let image = read_image(alloc, reader, bases)?;
    Ok(write_image(form, image.hunks(), writer)?)
}
