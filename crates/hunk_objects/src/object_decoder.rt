//! Program units from bytes.
ghost use Rattle.std.specs.Prelude.{IfOk, IfErr, OnOk, IsTrue};
ghost use Rattle.hunk_words.specs.Decoder.{RefusesRead};
ghost use Rattle.hunk_base.specs.Streams.{HasRead};
ghost use Rattle.hunk_words.specs.declared.event.FileKind.TheVariants.{Object};
ghost use Rattle.hunk_objects.specs.ProgramUnit.{IsObjectOf};

use crate::program_unit::ProgramUnit;
use crate::unit_builder::UnitBuilder;
use hunk_words::{ReadFault, Source, ValueDecoder, read_value};
use std::alloc::{Allocator, Global};

/// A decoder of the bytes of an object file, in pieces of any size. Its value is the list of the
/// file's units, in order.
pub type ObjectDecoder<A = Global> = ValueDecoder<UnitBuilder<A>>;

/// Reads to the end of `reader`, and gives the units of the object file that its bytes are, in
/// order.
///
/// # Errors
///
/// - [`ReadFault::Refused`] with the first offence of the bytes read, as [`ValueDecoder::feed`] and
///   [`ValueDecoder::finish`] return it; for a file that ends too early only once the reader has
///   ended.
/// - [`ReadFault::Refused`] with [`Refusal::OutOfMemory`](hunk_words::Refusal::OutOfMemory) only if
///   an allocation failed.
/// - [`ReadFault::Device`] only if a read failed.
pub fn read_object<R: Source, A: Allocator + Copy>(
    alloc: A,
    reader: &mut R,
) -> Result<Vec<ProgramUnit<A>, A>, ReadFault>
    ensures file { IfOk result
        (λ units. HasRead (R.left reader.old) (R.left reader.new) (IsObjectOf units.items)) }
    ensures ended { OnOk result (IsTrue (R.ended reader.new)) }
    ensures refused { IfErr result (RefusesRead Object (R.left reader.old) (R.left reader.new)
        (R.ended reader.new) (R.failed reader.new)) }
{
    read_value::<R, UnitBuilder<A>>(alloc, reader)
}
