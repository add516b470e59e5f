//! Decodes the bytes of a file, in pieces of any size.

ghost use Rattle.std.specs.Prelude.{◌≡◌, ℕ, ◌+◌, ◌<◌, ◌^◌, List, [], ◌∷◌, ◌++◌, length, Some, None, IfOk, OnOk};
ghost use Rattle.hunk_words.specs.Decoder.{StandsFor, Finished, refusal_of, taker_of};
ghost use Rattle.hunk_words.specs.DecoderCore.{Keeps};
ghost use Rattle.hunk_words.specs.Files.{IsValidPrefix};
ghost use Rattle.hunk_base.specs.Longwords.{longwords};
ghost use Rattle.hunk_base.specs.declared.fault.Refusal.{Refusal};

use crate::decoder_core::Core;
use crate::taker::Taker;
use hunk_base::fault::Refusal;
use hunk_base::splitter::Splitter;
use hunk_base::streams::Feed;

/// A decoder of the bytes of a file, in pieces of any size. It judges each longword with its last
/// byte, and sends its events to the taker.
#[derive(Drop)]
pub struct Decoder<T> {
    splitter: Splitter,
    core: Core<T>,
}

impl<T: Taker> Decoder<T> {
    /// A decoder before the first byte. The taker must not have taken any event.
    pub fn new(taker: T) -> Self
        requires { T.stands_for taker [] }
        ensures stands { StandsFor T.KIND T.stands_for result [] }
        ensures none { refusal_of result ≡ None }
        ensures given { T.given (taker_of result) ≡ T.given taker }
    {
        Decoder {
            splitter: Splitter::new(),
            core: Core::new(taker),
        }
    }

    /// Takes one byte.
    fn push(&mut self, byte: u8) -> Result<(), Refusal>
        requires { refusal_of self.old ≡ None }
        ensures stands { (bytes : List ℕ) → StandsFor T.KIND T.stands_for self.old bytes →
            StandsFor T.KIND T.stands_for self.new (bytes ++ byte ∷ []) }
        ensures kept { Keeps (refusal_of self.new) result }
        ensures given { T.given (taker_of self.new) ≡ T.given (taker_of self.old) }
    {
        match self.splitter.push(byte) {
            Some(word) => self.core.word(word),
            None => Ok(()),
        }
    }

    /// Takes bytes one by one.
    fn push_all(&mut self, piece: &[u8]) -> Result<(), Refusal>
        requires { refusal_of self.old ≡ None }
        ensures stands { (bytes : List ℕ) → StandsFor T.KIND T.stands_for self.old bytes →
            StandsFor T.KIND T.stands_for self.new (bytes ++ piece.now) }
        ensures kept { Keeps (refusal_of self.new) result }
        ensures given { T.given (taker_of self.new) ≡ T.given (taker_of self.old) }
    {
        for byte in piece {
            match self.push(*byte) {
                Ok(()) => {}
                Err(refusal) => return Err(refusal),
            }
        }
        Ok(())
    }

    /// Takes bytes: whole longwords if none is unfinished, then the bytes left over.
    fn push_longwords(&mut self, piece: &[u8]) -> Result<(), Refusal>
        requires { refusal_of self.old ≡ None }
        ensures stands { (bytes : List ℕ) → StandsFor T.KIND T.stands_for self.old bytes →
            StandsFor T.KIND T.stands_for self.new (bytes ++ piece.now) }
        ensures kept { Keeps (refusal_of self.new) result }
        ensures given { T.given (taker_of self.new) ≡ T.given (taker_of self.old) }
    {
        if self.splitter.rest() > 0 {
            return self.push_all(piece);
        }
        let whole = piece.len() / 4 * 4;
        match self.core.words(&piece[..whole]) {
            Ok(()) => self.push_all(&piece[whole..]),
            Err(refusal) => Err(refusal),
        }
    }

    /// Takes the next bytes of a file. An empty piece changes nothing.
    ///
    /// # Errors
    ///
    /// - [`Refusal::Fault`] with the first offence, from the call that brings the last byte of the
    ///   offending longword: its place (a longword, from 0), and its reason by the table of faults
    ///   or the rules for sites.
    /// - [`Refusal::OutOfMemory`] only if an allocation failed.
    ///
    /// After an error, every later call returns the same error.
    pub fn feed(&mut self, piece: &[u8]) -> Result<(), Refusal>
        ensures stands { (bytes : List ℕ) → StandsFor T.KIND T.stands_for self.old bytes →
            StandsFor T.KIND T.stands_for self.new (bytes ++ piece.now) }
        ensures kept { Keeps (refusal_of self.new) result }
        ensures given { T.given (taker_of self.new) ≡ T.given (taker_of self.old) }
        ensures again { (refusal : Refusal) →
            refusal_of self.old ≡ Some refusal → result ≡ Err refusal }
        ensures front { OnOk result ((bytes : List ℕ) →
            StandsFor T.KIND T.stands_for self.new bytes → IsValidPrefix T.KIND (longwords bytes)) }
        ensures bounded { OnOk result ((bytes : List ℕ) →
            StandsFor T.KIND T.stands_for self.new bytes → length bytes < 2 ^ 30 + 4) }
        ensures empty { piece.now ≡ [] → self.new ≡ self.old }
    {
        match self.core.refusal() {
            Some(refusal) => return Err(refusal),
            None => {}
        }
        if piece.is_empty() {
            return Ok(());
        }
        // to the end of an unfinished longword
        let begun = usize::from(self.splitter.rest());
        let lead = piece.len().min((4 - begun) % 4);
        match self.push_all(&piece[..lead]) {
            Ok(()) => self.push_longwords(&piece[lead..]),
            Err(refusal) => Err(refusal),
        }
    }

    /// The taker, once the file is whole.
    ///
    /// # Errors
    ///
    /// [`Refusal::Fault`] with `PartialLongword` if bytes of a longword are left over, or with
    /// `UnexpectedEnd` if the file is not complete. The error of an earlier call is returned again.
    pub fn finish(self) -> Result<T, Refusal>
        ensures answer { (bytes : List ℕ) → StandsFor T.KIND T.stands_for self bytes →
            Finished T.KIND T.stands_for bytes result }
        ensures again { (refusal : Refusal) →
            refusal_of self ≡ Some refusal → result ≡ Err refusal }
        ensures given { IfOk result (λ taker. T.given taker ≡ T.given (taker_of self)) }
        ensures memory { result ≡ Err Refusal.OutOfMemory →
            refusal_of self ≡ Some Refusal.OutOfMemory }
    {
        self.core.end(self.splitter.rest())
    }
}

impl<T: Taker> Feed for Decoder<T> {
    ghost stands_for = { λ d bytes. StandsFor T.KIND T.stands_for d bytes };

    ghost refused = { λ d refusal. refusal_of d ≡ Some refusal };

    ghost given = { λ d. T.given (taker_of d) };

    fn feed(&mut self, piece: &[u8]) -> Result<(), Refusal> {
        self.feed(piece)
    }
}
