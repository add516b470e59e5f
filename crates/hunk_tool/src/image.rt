//! Writes the memory that object files define.

ghost use Rattle.std.specs.Prelude.{OnOk, IfErr};
ghost use Rattle.hunk_tool.specs.Image.{IsImageFault, IsImaged};
ghost use Rattle.hunk_tool.specs.Inputs.{HaveRead, inputs_of};
ghost use Rattle.hunk_image_text.specs.declared.image_form.ImageForm.TheVariants.{Report};

use crate::link::link_inputs;
use crate::tool_fault::ToolFault;
use hunk_image_text::{ImageForm, write_image};
use hunk_link::NameHasher;
use hunk_loader::{LoadRefusal, load_file};
use hunk_words::{Sink, Source};
use std::alloc::Allocator;

/// Reads every input in order, to its end, as an object file, and writes the report of the memory
/// that all their units define at `bases`: [`image_run_with`] and [`ImageForm::Report`], with the
/// same errors. Names are hashed with a key that is no secret, as by [`link_run`](crate::link_run).
pub fn image_run<A: Allocator + Copy, R: Source, W: Sink>(
    alloc: A,
    inputs: &mut [R],
    bases: &[u32],
    writer: &mut W,
) -> Result<(), ToolFault<A>>
    ensures ok { OnOk result (HaveRead (inputs_of R.left R.failed R.ended inputs.old inputs.new)
        (IsImaged Report bases.now (W.taken writer.old) (W.taken writer.new))) }
    ensures err { IfErr result (IsImageFault Report bases.now
        (inputs_of R.left R.failed R.ended inputs.old inputs.new) (record {
          old = W.taken
              writer.old;
          new = W.taken writer.new;
          failed = W.failed writer.new;
        })) }
{
    let hasher = NameHasher::new([0; 2]);
    image_run_with(alloc, inputs, bases, ImageForm::Report, hasher, writer)
}

/// Reads every input in order, to its end, as an object file, and writes in this form the memory
/// that all their units define at `bases`: each hunk's content followed by zeros, with the address or
/// number that each site names added to the longword there, modulo 2^32. The bases are addresses, one
/// for each hunk, in the order of linking.
///
/// Nothing is written before all inputs have been read, linked and placed. It does not flush. What is
/// written does not depend on `hasher`, by which names are looked up.
///
/// # Errors
///
/// - [`ToolFault::Input`] for the first input that is not an object file, with the place and the
///   reason of the first offence of what was read.
/// - [`ToolFault::InputDevice`] if a read failed.
/// - [`ToolFault::Link`] if the units do not link without their symbols and debug blocks, as
///   [`link`](hunk_link::link) returns it.
/// - [`ToolFault::Place`] as `check_places` returns it for the sizes of the hunks.
/// - [`ToolFault::Output`] if a write failed or took no byte, with the number of bytes of the image
///   that were written.
/// - [`ToolFault::OutOfMemory`] only if an allocation failed, with nothing written.
pub fn image_run_with<A: Allocator + Copy, R: Source, W: Sink>(
    alloc: A,
    inputs: &mut [R],
    bases: &[u32],
    form: ImageForm,
    hasher: NameHasher,
    writer: &mut W,
) -> Result<(), ToolFault<A>>
    ensures ok { OnOk result (HaveRead (inputs_of R.left R.failed R.ended inputs.old inputs.new)
        (IsImaged form bases.now (W.taken writer.old) (W.taken writer.new))) }
    ensures err { IfErr result (IsImageFault form bases.now
        (inputs_of R.left R.failed R.ended inputs.old inputs.new) (record {
          old = W.taken
              writer.old;
          new = W.taken writer.new;
          failed = W.failed writer.new;
        })) }
{
    let file = link_inputs(alloc, inputs, true, false, hasher)?;
    // What `write_image` requires of the image follows from the rules for load files, which `hunks`
    // states for this one.
    let _hunks = file.hunks();
    match load_file(alloc, file, bases) {
        Ok(image) => Ok(write_image(form, image.hunks(), writer)?),
        Err(LoadRefusal::Place(fault)) => Err(ToolFault::Place(fault)),
        Err(LoadRefusal::OutOfMemory) => Err(ToolFault::OutOfMemory { written: 0 }),
        Err(LoadRefusal::File(_)) => unreachable!(),
    }
}
