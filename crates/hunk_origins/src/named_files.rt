//! The files whose names are listed: one file of either kind, or several object files.

ghost use Rattle.std.specs.Prelude.{[], ◌∷◌, IfOk, IfErr, IsTrue, OnOk};
ghost use Rattle.hunk_base.specs.Streams.{HasRead};
ghost use Rattle.hunk_tool.specs.Inputs.{HaveRead, inputs_of};
ghost use Rattle.hunk_origins.specs.NamedFiles.{AreNamedFiles, AreRefused, IsFileFault};

use hunk_files::{File, read_hunk_file};
use hunk_loadfile::LoadFile;
use hunk_tool::{ObjectFiles, ToolFault, read_object_files};
use hunk_words::Source;
use std::alloc::{Allocator, Global};

/// Files whose names are listed.
#[derive(Drop)]
pub enum NamedFiles<A: Allocator + Copy = Global> {
    /// A load file.
    Load(LoadFile<A>),
    /// Object files.
    Objects(ObjectFiles<A>),
}

/// Reads every input in order, to its end: one alone as a file of either kind, and several as object files.
///
/// # Errors
///
/// - [`ToolFault::Input`] with the place and the reason of the first offence: of one input alone as
///   [`read_hunk_file`] returns it, and otherwise of the first input that is not an object file.
/// - [`ToolFault::InputDevice`] if a read failed.
/// - [`ToolFault::OutOfMemory`] if an allocation failed.
pub fn read_named_files<A: Allocator + Copy, R: Source>(
    alloc: A,
    inputs: &mut [R],
) -> Result<NamedFiles<A>, ToolFault<A>>
    ensures read { IfOk result (λ files.
        HaveRead (inputs_of R.left R.failed R.ended inputs.old inputs.new) (AreNamedFiles files)) }
    ensures refused { IfErr result
        (AreRefused (inputs_of R.left R.failed R.ended inputs.old inputs.new)) }
{
    if inputs.len() == 1 {
        return read_one(alloc, &mut inputs[0]);
    }
    Ok(NamedFiles::Objects(read_object_files(alloc, inputs)?))
}

/// Reads an input to its end, as a file of either kind.
fn read_one<A: Allocator + Copy, R: Source>(
    alloc: A,
    input: &mut R,
) -> Result<NamedFiles<A>, ToolFault<A>>
    ensures read { IfOk result (λ files. HasRead (R.left input.old) (R.left input.new)
        (λ bytes. AreNamedFiles files (bytes ∷ []))) }
    ensures ended { OnOk result (IsTrue (R.ended input.new)) }
    ensures refused { IfErr result (IsFileFault (record {
      left = R.left input.old;
      left_then = R.left input.new;
      failed = R.failed input.new;
      ended = R.ended input.new;
    })) }
{
    match read_hunk_file(alloc, input) {
        Ok(File::Load(file)) => Ok(NamedFiles::Load(file)),
        Ok(File::Object(units)) => {
            let files = ObjectFiles::new(alloc).with_file(0, units)?;
            Ok(NamedFiles::Objects(files))
        }
        Err(fault) => Err(ToolFault::from(fault)),
    }
}
