//! Decodes the bytes of a file to the value that a builder makes of them.

ghost use Rattle.std.specs.Prelude.{◌≡◌, ℕ, ◌+◌, ◌<◌, ◌^◌, List, [], ◌++◌, length, Some, None, Err, IfOk, IfErr, OnOk, IsTrue};
ghost use Rattle.hunk_words.specs.Decoder.{RefusesBytes, RefusesInput, RefusesRead, StandsFor, refusal_of};
ghost use Rattle.hunk_words.specs.DecoderCore.{Keeps};
ghost use Rattle.hunk_words.specs.Files.{IsValidPrefix};
ghost use Rattle.hunk_words.specs.ValueDecoder.{TellsBytes};
ghost use Rattle.hunk_base.specs.Longwords.{longwords};
ghost use Rattle.hunk_base.specs.Streams.{HasRead};
ghost use Rattle.hunk_base.specs.declared.fault.Refusal.{Refusal};

use crate::decoder::Decoder;
use crate::taker::Taker;
use hunk_base::fault::{ReadFault, Refusal};
use hunk_base::streams::{Feed, Source, read_all};
use std::marker::Model;

/// A taker that builds a value of the file whose events it takes.
pub trait Builder: Taker {
    // The value is that of the file that the bytes are.
    ghost is_value: { Self.Value → List ℕ → Type 0 };

    /// The allocator that it keeps.
    type Alloc;

    /// What it builds.
    type Value;

    /// A builder that has taken no event. Does not allocate.
    fn new(alloc: Self::Alloc) -> Self
        ensures { Self.stands_for result [] };

    /// The value of the file whose events it has taken. Does not allocate.
    fn into_value(self) -> Self::Value
        requires { (bytes : List ℕ) × TellsBytes Self.KIND (Self.stands_for self) bytes }
        ensures { (bytes : List ℕ) →
            TellsBytes Self.KIND (Self.stands_for self) bytes → is_value result bytes };
}

/// A decoder of the bytes of a file, in pieces of any size, to the value that a builder makes of them.
///
/// It allocates only for longwords that have come: no number in the file reserves memory.
#[derive(Drop)]
pub struct ValueDecoder<B: Builder> {
    decoder: Decoder<B>,
}

impl<B: Builder> Model for ValueDecoder<B> {
    ghost use Rattle.hunk_words.specs.ValueDecoder.{WasFed};
    ghost use Rattle.hunk_words.specs.declared.decoder.Decoder.{Decoder};

    ghost Value = { Decoder B };

    ghost view = { λ d. d.decoder };

    // it was fed some bytes
    ghost invariant = { λ d. WasFed B.KIND B.stands_for d.decoder };
}

impl<B: Builder> ValueDecoder<B> {
    /// A decoder before the first byte. Does not allocate.
    pub fn new(alloc: B::Alloc) -> Self
        ensures stands { StandsFor B.KIND B.stands_for result [] }
        ensures none { refusal_of result ≡ None }
    {
        ValueDecoder {
            decoder: Decoder::new(B::new(alloc)),
        }
    }

    /// Takes the next bytes of a file. An empty piece changes nothing.
    ///
    /// # Errors
    ///
    /// - [`Refusal::Fault`] with the first offence, from the call that brings the last byte of the
    ///   offending longword: its place (a longword, from 0), and its reason by the table of faults
    ///   or the rules for sites.
    /// - [`Refusal::OutOfMemory`] only if an allocation failed.
    ///
    /// After an error, every later call returns the same error.
    pub fn feed(&mut self, piece: &[u8]) -> Result<(), Refusal>
        ensures stands { (bytes : List ℕ) → StandsFor B.KIND B.stands_for self.old bytes →
            StandsFor B.KIND B.stands_for self.new (bytes ++ piece.now) }
        ensures kept { Keeps (refusal_of self.new) result }
        ensures again { (refusal : Refusal) →
            refusal_of self.old ≡ Some refusal → result ≡ Err refusal }
        ensures front { OnOk result ((bytes : List ℕ) →
            StandsFor B.KIND B.stands_for self.new bytes → IsValidPrefix B.KIND (longwords bytes)) }
        ensures refused { IfErr result (λ refusal. (bytes : List ℕ) →
            StandsFor B.KIND B.stands_for self.new bytes → RefusesBytes B.KIND bytes refusal) }
        ensures bounded { OnOk result ((bytes : List ℕ) →
            StandsFor B.KIND B.stands_for self.new bytes → length bytes < 2 ^ 30 + 4) }
        ensures empty { piece.now ≡ [] → self.new ≡ self.old }
    {
        self.decoder.feed(piece)
    }

    /// The value of the file that all the bytes are. Does not allocate.
    ///
    /// # Errors
    ///
    /// [`Refusal::Fault`] with `PartialLongword` if bytes of a longword are left over, or with
    /// `UnexpectedEnd` if the file is not complete. The error of an earlier call is returned again,
    /// and `OutOfMemory` is returned in no other case.
    pub fn finish(self) -> Result<B::Value, Refusal>
        ensures file { IfOk result (λ value. (bytes : List ℕ) →
            StandsFor B.KIND B.stands_for self bytes → B.is_value value bytes) }
        ensures refused { IfErr result (λ refusal. (bytes : List ℕ) →
            StandsFor B.KIND B.stands_for self bytes → RefusesInput B.KIND bytes refusal) }
        ensures again { (refusal : Refusal) →
            refusal_of self ≡ Some refusal → result ≡ Err refusal }
        ensures memory { result ≡ Err Refusal.OutOfMemory →
            refusal_of self ≡ Some Refusal.OutOfMemory }
    {
        match self.decoder.finish() {
            Ok(builder) => Ok(builder.into_value()),
            Err(refusal) => Err(refusal),
        }
    }
}

impl<B: Builder> Feed for ValueDecoder<B> {
    ghost stands_for = { λ d bytes. StandsFor B.KIND B.stands_for d bytes };

    ghost refused = { λ d refusal. refusal_of d ≡ Some refusal };

    fn feed(&mut self, piece: &[u8]) -> Result<(), Refusal> {
        self.feed(piece)
    }
}

/// Reads to the end of `reader`, and gives the value of the file that its bytes are.
///
/// # Errors
///
/// - [`ReadFault::Refused`] with the first offence of the bytes read, as [`ValueDecoder::feed`] and
///   [`ValueDecoder::finish`] return it; for a file that ends too early only once the reader has
///   ended.
/// - [`ReadFault::Refused`] with [`Refusal::OutOfMemory`] only if an allocation failed.
/// - [`ReadFault::Device`] only if a read failed.
pub fn read_value<R: Source, B: Builder>(
    alloc: B::Alloc,
    reader: &mut R,
) -> Result<B::Value, ReadFault>
    ensures file { IfOk result
        (λ value. HasRead (R.left reader.old) (R.left reader.new) (B.is_value value)) }
    ensures ended { OnOk result (IsTrue (R.ended reader.new)) }
    ensures refused { IfErr result (RefusesRead B.KIND (R.left reader.old) (R.left reader.new)
        (R.ended reader.new) (R.failed reader.new)) }
{
    let mut decoder: ValueDecoder<B> = ValueDecoder::new(alloc);
    read_all(reader, &mut decoder)?;
    Ok(decoder.finish()?)
}
