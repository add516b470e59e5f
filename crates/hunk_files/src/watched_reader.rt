//! Reads the bytes of a file of one kind, and shows its longwords to a watcher.

ghost use Rattle.std.specs.Prelude.{◌≡◌, ℕ, ◌+◌, ◌<◌, ◌^◌, List, [], ◌∷◌, ◌++◌, length, Some, None, IfOk, IfErr, OnOk};
ghost use Rattle.hunk_words.specs.Decoder.{RefusesBytes, RefusesInput};
ghost use Rattle.hunk_words.specs.DecoderCore.{Keeps};
ghost use Rattle.hunk_base.specs.Longwords.{longwords};
ghost use Rattle.hunk_base.specs.declared.fault.Refusal.{Refusal};
ghost use Rattle.hunk_files.specs.Watched.{IsWatchedOf};
ghost use Rattle.hunk_files.specs.WatchedReader.{Reads, StandsFor, WordsStand};

use crate::watcher::{Watched, Watcher};
use hunk_words::{Builder, Core, Refusal, Splitter};

/// A reader of a file's bytes: its builder is told the events of the longwords, and its watcher is
/// shown each longword.
#[derive(Drop)]
pub(crate) struct WatchedReader<W, B> {
    splitter: Splitter,
    core: Core<B>,
    watcher: W,
    /// The error that it keeps.
    refusal: Option<Refusal>,
}

impl<W: Watcher, B: Builder> WatchedReader<W, B> {
    /// Before the first byte. Does not allocate.
    pub(crate) fn new(watcher: W, builder: B) -> Self
        requires built { B.stands_for builder [] }
        requires shown { W.stands_for B.KIND watcher [] }
        ensures { StandsFor B.KIND B.stands_for W.stands_for result [] }
    {
        WatchedReader {
            splitter: Splitter::new(),
            core: Core::new(builder),
            watcher,
            refusal: None,
        }
    }

    /// Keeps an error.
    fn refuse(&mut self, refusal: Refusal) -> Result<(), Refusal>
        ensures kept { self.new ≡ record self.old { refusal = Some refusal } }
        ensures told { result ≡ Err refusal }
    {
        self.refusal = Some(refusal);
        Err(refusal)
    }

    /// Takes the next longword.
    fn word(&mut self, word: u32) -> Result<(), Refusal>
        requires { self.old.refusal ≡ None }
        ensures stands { (ws : List ℕ) → Reads B.KIND B.stands_for W.stands_for self.old ws →
            WordsStand B.KIND B.stands_for W.stands_for self.new (ws ++ word ∷ []) }
        ensures same { self.new.splitter ≡ self.old.splitter }
        ensures kept { Keeps self.new.refusal result }
    {
        let due = self.core.due();
        match self.core.word(word) {
            Ok(()) => match self.watcher.take(B::KIND, due, word) {
                Ok(()) => Ok(()),
                Err(_) => self.refuse(Refusal::OutOfMemory),
            },
            Err(refusal) => self.refuse(refusal),
        }
    }

    /// Takes one byte.
    fn push(&mut self, byte: u8) -> Result<(), Refusal>
        requires { self.old.refusal ≡ None }
        ensures stands { (bytes : List ℕ) → StandsFor B.KIND B.stands_for W.stands_for self.old
            bytes → StandsFor B.KIND B.stands_for W.stands_for self.new (bytes ++ byte ∷ []) }
        ensures kept { Keeps self.new.refusal result }
    {
        match self.splitter.push(byte) {
            Some(word) => self.word(word),
            None => Ok(()),
        }
    }

    /// Takes the next bytes.
    ///
    /// # Errors
    ///
    /// The first offence of all bytes; or out of memory, only if an allocation failed. After an error,
    /// every later call returns the same error.
    pub(crate) fn feed(&mut self, piece: &[u8]) -> Result<(), Refusal>
        ensures stands { (bytes : List ℕ) → StandsFor B.KIND B.stands_for W.stands_for self.old
            bytes → StandsFor B.KIND B.stands_for W.stands_for self.new (bytes ++ piece.now) }
        ensures bounded { OnOk result ((bytes : List ℕ) →
            StandsFor B.KIND B.stands_for W.stands_for self.new bytes → length bytes < 2 ^ 30 + 4) }
        ensures refused { IfErr result (λ refusal. (bytes : List ℕ) → StandsFor B.KIND B.stands_for
            W.stands_for self.new bytes → RefusesBytes B.KIND bytes refusal) }
    {
        if let Some(refusal) = self.refusal {
            return Err(refusal);
        }
        for byte in piece {
            match self.push(*byte) {
                Ok(()) => {}
                Err(refusal) => return Err(refusal),
            }
        }
        Ok(())
    }

    /// What is in the file that the bytes are, and the watcher that was shown its longwords. Does not
    /// allocate.
    ///
    /// # Errors
    ///
    /// The first offence of all bytes, and their end; or out of memory if an earlier call returned it.
    pub(crate) fn finish(self) -> Result<Watched<B::Value, W>, Refusal>
        requires { (bytes : List ℕ) × StandsFor B.KIND B.stands_for W.stands_for self bytes }
        ensures value { IfOk result (λ watched. (bytes : List ℕ) → StandsFor B.KIND B.stands_for
            W.stands_for self bytes → IsWatchedOf B.KIND B.is_value W.stands_for watched bytes) }
        ensures refused { IfErr result (λ refusal. (bytes : List ℕ) → StandsFor B.KIND B.stands_for
            W.stands_for self bytes → RefusesInput B.KIND bytes refusal) }
    {
        if let Some(refusal) = self.refusal {
            return Err(refusal);
        }
        match self.core.end(self.splitter.rest()) {
            Ok(builder) => Ok(Watched {
                value: builder.into_value(),
                watcher: self.watcher,
            }),
            Err(refusal) => Err(refusal),
        }
    }
}
