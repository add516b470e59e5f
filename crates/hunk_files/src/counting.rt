//! Files of either kind, checked and counted.

ghost use Rattle.std.specs.Prelude.{IsTrue, IfOk, IfErr, OnOk};
ghost use Rattle.hunk_base.specs.Streams.{HasRead};
ghost use Rattle.hunk_files.specs.Counters.{CountsLoad, CountsObject};
ghost use Rattle.hunk_files.specs.FileDecoder.{IsFileOf, IsReadFault};
ghost use Rattle.hunk_files.specs.FileValue.{kind_of_bytes};

use crate::counters::{LoadCounter, ObjectCounter};
use crate::file_decoder::{File, read_file};
use hunk_words::{ReadFault, Source, ValueDecoder};
use std::alloc::{Allocator, Global};

/// What a file of either kind has, counted.
pub type CountedFile<A = Global> = File<ObjectCounter<A>, LoadCounter<A>>;

/// Reads a file to the reader's end, checks it, and counts what it has. Of the file it keeps the sites
/// of one hunk, and the sizes in the header of a load file.
///
/// A file is a load file if its first four bytes are there and the low 30 bits of that longword are
/// the block type 1011, `HUNK_HEADER` of `doshunks.h`. Otherwise it is read as an object file.
///
/// # Errors
///
/// - [`ReadFault::Refused`] with the first offence of the bytes read, for a file of its kind; where
///   the file ends too early only once the reader has ended.
/// - [`ReadFault::Refused`] with [`Refusal::OutOfMemory`] if an allocation failed.
/// - [`ReadFault::Device`] if a read failed.
pub fn count_file<A: Allocator + Copy, R: Source>(
    alloc: A,
    reader: &mut R,
) -> Result<CountedFile<A>, ReadFault>
    ensures file { IfOk result (λ counted. HasRead (R.left reader.old) (R.left reader.new)
        (λ bytes. IsFileOf CountsObject CountsLoad (kind_of_bytes bytes) counted bytes)) }
    ensures ended { OnOk result (IsTrue (R.ended reader.new)) }
    ensures refused { IfErr result (IsReadFault (R.left reader.old) (R.left reader.new)
        (R.failed reader.new) (R.ended reader.new)) }
{
    let object: ValueDecoder<ObjectCounter<A>> = ValueDecoder::new(alloc);
    let load: ValueDecoder<LoadCounter<A>> = ValueDecoder::new(alloc);
    read_file(reader, object, load)
}
