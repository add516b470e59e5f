//! Files of either kind, as values.

ghost use Rattle.std.specs.Prelude.{ℕ, List, [], ◌++◌, IsTrue, OnOk, IfOk, IfErr};
ghost use Rattle.hunk_base.specs.Longwords.{longwords};
ghost use Rattle.hunk_base.specs.Streams.{HasRead};
ghost use Rattle.hunk_files.specs.FileDecoder.{IsReadFault};
ghost use Rattle.hunk_files.specs.FileValue.{IsOfItsKind, kind_of_bytes};
ghost use Rattle.hunk_files.specs.HunkFile.{StandsFor, value_of};
ghost use Rattle.hunk_words.specs.Decoder.{RefusesBytes, RefusesInput};
ghost use Rattle.hunk_words.specs.Files.{IsValidPrefix};

use crate::file_decoder::{File, FileDecoder, read_file};
use hunk_loadfile::{LoadDecoder, LoadFile};
use hunk_objects::{ObjectDecoder, ProgramUnit};
use hunk_words::{ReadFault, Refusal, Source};
use std::alloc::{Allocator, Global};

/// What is in a hunk file: the units of an object file, or a load file.
pub type HunkFile<A = Global> = File<Vec<ProgramUnit<A>, A>, LoadFile<A>>;

/// Reads a file to the reader's end, and returns what is in it.
///
/// A file is a load file if its first four bytes are there and the low 30 bits of that longword are
/// the block type 1011, `HUNK_HEADER` of `doshunks.h`. Otherwise it is read as an object file.
///
/// # Errors
///
/// - [`ReadFault::Refused`] with the first offence of the bytes read, for a file of its kind; where
///   the file ends too early only once the reader has ended.
/// - [`ReadFault::Refused`] with [`Refusal::OutOfMemory`] if an allocation failed.
/// - [`ReadFault::Device`] if a read failed.
pub fn read_hunk_file<A: Allocator + Copy, R: Source>(
    alloc: A,
    reader: &mut R,
) -> Result<HunkFile<A>, ReadFault>
    ensures file { IfOk result
        (λ file. HasRead (R.left reader.old) (R.left reader.new) (IsOfItsKind (value_of file))) }
    ensures ended { OnOk result (IsTrue (R.ended reader.new)) }
    ensures refused { IfErr result (IsReadFault (R.left reader.old) (R.left reader.new)
        (R.failed reader.new) (R.ended reader.new)) }
{
    read_file(reader, ObjectDecoder::new(alloc), LoadDecoder::new(alloc))
}

/// Decodes the bytes of a file of either kind, in pieces of any size, to what is in it.
///
/// The kind is that of [`read_hunk_file`]. It allocates only for longwords that have come: no number
/// in the file reserves memory.
#[derive(Drop)]
pub struct HunkFileDecoder<A: Allocator + Copy = Global> {
    decoder: FileDecoder<ObjectDecoder<A>, LoadDecoder<A>>,
}

impl<A: Allocator + Copy> HunkFileDecoder<A> {
    /// A decoder before the first byte. Does not allocate.
    pub fn new(alloc: A) -> Self
        ensures { StandsFor result [] }
    {
        HunkFileDecoder {
            decoder: FileDecoder::new(ObjectDecoder::new(alloc), LoadDecoder::new(alloc)),
        }
    }

    /// Takes the next bytes of the file.
    ///
    /// # Errors
    ///
    /// - [`Refusal::Fault`] with the first offence of all bytes, from the call that brings the last
    ///   byte of the offending longword, and from every later call.
    /// - [`Refusal::OutOfMemory`] only if an allocation failed.
    pub fn feed(&mut self, piece: &[u8]) -> Result<(), Refusal>
        ensures stands { (bytes : List ℕ) → StandsFor self.old bytes →
            StandsFor self.new (bytes ++ piece.now) }
        ensures front { OnOk result ((bytes : List ℕ) → StandsFor self.new bytes →
            IsValidPrefix (kind_of_bytes bytes) (longwords bytes)) }
        ensures refused { IfErr result (λ refusal. (bytes : List ℕ) → StandsFor self.new bytes →
            RefusesBytes (kind_of_bytes bytes) bytes refusal) }
    {
        self.decoder.feed(piece)
    }

    /// What is in the whole file. Does not allocate.
    ///
    /// # Errors
    ///
    /// [`Refusal::Fault`] with the first offence of the file, which may be that it ends too early; or
    /// [`Refusal::OutOfMemory`] if an allocation failed before.
    pub fn finish(self) -> Result<HunkFile<A>, Refusal>
        ensures file { IfOk result
            (λ file. (bytes : List ℕ) → StandsFor self bytes → IsOfItsKind (value_of file) bytes) }
        ensures refused { IfErr result (λ refusal. (bytes : List ℕ) → StandsFor self bytes →
            RefusesInput (kind_of_bytes bytes) bytes refusal) }
    {
        self.decoder.finish()
    }
}
