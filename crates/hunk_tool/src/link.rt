//! Links object files, and writes the load file.

ghost use Rattle.std.specs.Prelude.{[], IfOk, OnOk, IfErr, Some, false};
ghost use Rattle.hunk_loadfile.specs.WrittenForm.{IsShortEnough};
ghost use Rattle.hunk_tool.specs.Inputs.{HaveRead, inputs_of};
ghost use Rattle.hunk_tool.specs.Link.{IsLinkFault, IsLinked, IsUnlinked, LinkTo};

use crate::link_options::LinkOptions;
use crate::linked_units::{linked_units, strips};
use crate::object_files::read_object_files;
use crate::tool_fault::ToolFault;
use hunk_link::{NameHasher, link_units_with};
use hunk_loadfile::{LoadFile, write_load_with, written_bytes};
use hunk_words::{Sink, Source};
use std::alloc::Allocator;

/// Reads every input in order, to its end, as an object file, links all their units, and writes the
/// load file, as `options` say. The names of definitions are left out: [`link_run_with`] can keep them.
///
/// Nothing is written before all inputs have been read and their units linked. It does not flush.
///
/// Names are hashed with a key that is no secret: whoever makes the inputs can choose names that
/// collide, which takes time that grows with the square of their number. [`link_run_with`] takes a
/// hasher for inputs of strangers.
///
/// # Errors
///
/// - [`ToolFault::Input`] for the first input that is not an object file, with the place and the
///   reason of the first offence of what was read.
/// - [`ToolFault::InputDevice`] if a read failed.
/// - [`ToolFault::Link`] if the units do not link, as [`link`](hunk_link::link) returns it.
/// - [`ToolFault::Output`] if a write failed or took no byte, with the number of bytes of the load
///   file that were written.
/// - [`ToolFault::OutOfMemory`] if an allocation failed, with the number of bytes written.
pub fn link_run<A: Allocator + Copy, R: Source, W: Sink>(
    alloc: A,
    inputs: &mut [R],
    options: LinkOptions,
    writer: &mut W,
) -> Result<(), ToolFault<A>>
    ensures ok { OnOk result (HaveRead (inputs_of R.left R.failed R.ended inputs.old inputs.new)
        (IsLinked false options (W.taken writer.old) (W.taken writer.new))) }
    ensures err { IfErr result (IsLinkFault false options
        (inputs_of R.left R.failed R.ended inputs.old inputs.new) (record {
          old = W.taken
              writer.old;
          new = W.taken writer.new;
          failed = W.failed writer.new;
        })) }
{
    let hasher = NameHasher::new([0; 2]);
    link_run_with(alloc, inputs, options, false, hasher, writer)
}

/// Links as [`link_run`] does, and hashes names with `hasher`, whose key is secret if the inputs come
/// from strangers. What is written does not depend on it.
///
/// With `globals`, the names that a hunk defines at an offset stay in the load file as symbols of that
/// hunk, after its own, as [`with_globals`](hunk_objects::with_globals) adds them. They count as
/// symbols where that has a limit. With `options.strip`, they are all that stays of symbols and debug
/// blocks.
///
/// # Errors
///
/// Those of [`link_run`].
pub fn link_run_with<A: Allocator + Copy, R: Source, W: Sink>(
    alloc: A,
    inputs: &mut [R],
    options: LinkOptions,
    globals: bool,
    hasher: NameHasher,
    writer: &mut W,
) -> Result<(), ToolFault<A>>
    ensures ok { OnOk result (HaveRead (inputs_of R.left R.failed R.ended inputs.old inputs.new)
        (IsLinked globals options (W.taken writer.old) (W.taken writer.new))) }
    ensures err { IfErr result (IsLinkFault globals options
        (inputs_of R.left R.failed R.ended inputs.old inputs.new) (record {
          old = W.taken
              writer.old;
          new = W.taken writer.new;
          failed = W.failed writer.new;
        })) }
{
    let linked = link_inputs(alloc, inputs, options.strip, globals, hasher)?;
    let file = options.trimmed(linked);
    Ok(write_load_with(alloc, &file, options.form(), writer)?)
}

/// Links as [`link_run_with`] does, and returns the bytes of the load file, in one allocation of
/// exactly their number.
///
/// # Errors
///
/// - [`ToolFault::Input`], [`ToolFault::InputDevice`] and [`ToolFault::Link`] as [`link_run`] returns
///   them.
/// - [`ToolFault::OutOfMemory`] if an allocation failed, with nothing written.
pub fn link_to_vec<A: Allocator + Copy, R: Source>(
    alloc: A,
    inputs: &mut [R],
    options: LinkOptions,
    globals: bool,
    hasher: NameHasher,
) -> Result<Vec<u8, A>, ToolFault<A>>
    ensures ok { IfOk result
        (λ bytes. HaveRead (inputs_of R.left R.failed R.ended inputs.old inputs.new)
        (IsLinked globals options (Some []) (Some bytes.items))) }
    ensures err { IfErr result (IsUnlinked globals options.strip
        (inputs_of R.left R.failed R.ended inputs.old inputs.new)) }
{
    let linked = link_inputs(alloc, inputs, options.strip, globals, hasher)?;
    let file = options.trimmed(linked);
    Ok(written_bytes(alloc, &file, options.form())?)
}

/// Reads every input in order, to its end, as an object file, and links all their units. The load
/// file that it returns has at most 2^28 longwords in either form, trimmed or not. With `strip`,
/// symbols and debug blocks are left out, and with `globals`, definitions stay as symbols, as by
/// [`link_run_with`]. What is returned does not depend on `hasher`, by which names are looked up.
///
/// # Errors
///
/// As [`link_to_vec`].
pub fn link_inputs<A: Allocator + Copy, R: Source>(
    alloc: A,
    inputs: &mut [R],
    strip: bool,
    globals: bool,
    hasher: NameHasher,
) -> Result<LoadFile<A>, ToolFault<A>>
    ensures linked { IfOk result (λ file. HaveRead
        (inputs_of R.left R.failed R.ended inputs.old inputs.new) (LinkTo globals strip file)) }
    ensures short { IfOk result (λ file. IsShortEnough file) }
    ensures unlinked { IfErr result
        (IsUnlinked globals strip (inputs_of R.left R.failed R.ended inputs.old inputs.new)) }
{
    let files = read_object_files(alloc, inputs)?;
    let units = linked_units(alloc, files.into_units(), globals, strip, hasher)?;
    let strip = strips(globals, strip);
    Ok(link_units_with(alloc, units, strip, hasher)?)
}
