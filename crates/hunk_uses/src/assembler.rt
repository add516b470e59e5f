//! An assembler that links what it has assembled, in memory.
ghost use Rattle.std.specs.Prelude.{[], Some, IfOk, IfErr, false};
ghost use Rattle.hunk_words.specs.Decoder.{RefusesInput};
ghost use Rattle.hunk_words.specs.declared.event.FileKind.TheVariants.{Object};
ghost use Rattle.hunk_objects.specs.ProgramUnit.{IsObjectOf};
ghost use Rattle.hunk_tool.specs.Link.{IsLinked};
ghost use Rattle.hunk_uses.specs.Assembler.{IsNotLinked, bytes_of_each, plain};

use hunk_link::link_units;
use hunk_loadfile::{LoadForm, written_bytes};
use hunk_objects::{ObjectDecoder, ProgramUnit};
use hunk_tool::ToolFault;
use hunk_words::Refusal;
use std::alloc::Global;

/// Links object files, which the assembler has written into memory, and returns the bytes of their
/// load file, with symbols and debug blocks.
///
/// # Errors
///
/// - [`ToolFault::Input`] for the first that is not an object file, with its first offence.
/// - [`ToolFault::Link`] with the first reason why the units do not link.
/// - [`ToolFault::OutOfMemory`] if an allocation failed.
pub fn link_objects(alloc: Global, objects: &[Vec<u8>]) -> Result<Vec<u8>, ToolFault>
    ensures linked { IfOk result (λ program. IsLinked false plain (Some []) (Some program.items)
        (bytes_of_each objects.now)) }
    ensures refused { IfErr result (IsNotLinked (bytes_of_each objects.now)) }
{
    let mut units = Vec::new(alloc);
    for (file, object) in objects.iter().enumerate() {
        match units_of(alloc, object) {
            Ok(mut more) => units.append(&mut more)?,
            Err(Refusal::Fault(fault)) => return Err(ToolFault::Input { file, fault }),
            Err(Refusal::OutOfMemory) => return Err(ToolFault::OutOfMemory { written: 0 }),
        }
    }
    let program = link_units(alloc, units, false)?;
    Ok(written_bytes(alloc, &program, LoadForm::Plain)?)
}

/// The program units of an object file.
fn units_of(alloc: Global, object: &[u8]) -> Result<Vec<ProgramUnit>, Refusal>
    ensures read { IfOk result (λ units. IsObjectOf units.items object.now) }
    ensures refused { IfErr result (RefusesInput Object object.now) }
{
    let mut decoder = ObjectDecoder::new(alloc);
    decoder.feed(object)?;
    decoder.finish()
}
