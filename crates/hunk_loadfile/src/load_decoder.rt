//! Load files from bytes.
ghost use Rattle.std.specs.Prelude.{IfOk, IfErr, OnOk, IsTrue};
ghost use Rattle.hunk_words.specs.Decoder.{RefusesRead};
ghost use Rattle.hunk_loadfile.specs.LoadFile.{IsLoadOf};
ghost use Rattle.hunk_base.specs.Streams.{HasRead};
ghost use Rattle.hunk_words.specs.declared.event.FileKind.TheVariants.{Load};

use crate::load_builder::LoadBuilder;
use crate::load_file::LoadFile;
use hunk_words::{ReadFault, Source, ValueDecoder, read_value};
use std::alloc::{Allocator, Global};

/// A decoder of the bytes of a load file, in pieces of any size.
pub type LoadDecoder<A = Global> = ValueDecoder<LoadBuilder<A>>;

/// Reads to the end of `reader`, and gives the load file that its bytes are.
///
/// # Errors
///
/// - [`ReadFault::Refused`] with the first offence of the bytes read, as [`ValueDecoder::feed`] and
///   [`ValueDecoder::finish`] return it; for a file that ends too early only once the reader has
///   ended.
/// - [`ReadFault::Refused`] with [`Refusal::OutOfMemory`](hunk_words::Refusal::OutOfMemory) only if
///   an allocation failed.
/// - [`ReadFault::Device`] only if a read failed.
pub fn read_load<R: Source, A: Allocator + Copy>(
    alloc: A,
    reader: &mut R,
) -> Result<LoadFile<A>, ReadFault>
    ensures file { IfOk result
        (λ file. HasRead (R.left reader.old) (R.left reader.new) (IsLoadOf file)) }
    ensures ended { OnOk result (IsTrue (R.ended reader.new)) }
    ensures refused { IfErr result (RefusesRead Load (R.left reader.old) (R.left reader.new)
        (R.ended reader.new) (R.failed reader.new)) }
{
    read_value::<R, LoadBuilder<A>>(alloc, reader)
}
