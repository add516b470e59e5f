//! Decodes the bytes of a file of one kind, and shows its longwords to a watcher.

ghost use Rattle.std.specs.Prelude.{⊤, ℕ, ◌+◌, ◌<◌, ◌^◌, List, [], ◌++◌, length, IfOk, IfErr, OnOk};
ghost use Rattle.hunk_words.specs.Decoder.{RefusesBytes, RefusesInput};
ghost use Rattle.hunk_files.specs.Watched.{IsWatchedOf};
ghost use Rattle.hunk_files.specs.WatchedReader.{StandsFor};

use crate::file_decoder::KindDecoder;
use crate::watched_reader::WatchedReader;
use crate::watcher::{Watched, Watcher};
use hunk_words::{Builder, Refusal};
use std::marker::Model;

/// A decoder of the bytes of a file of one kind, in pieces of any size, to the value that a builder makes
/// of them. Meanwhile it shows the longwords to a watcher, each once its events were taken.
///
/// It allocates only for longwords that have come: no number in the file reserves memory.
#[derive(Drop)]
pub(crate) struct WatchedDecoder<W: Watcher, B: Builder> {
    reader: WatchedReader<W, B>,
}

impl<W: Watcher, B: Builder> Model for WatchedDecoder<W, B> {
    ghost use Rattle.hunk_files.specs.WatchedReader.{WasFed};
    ghost use Rattle.hunk_files.specs.declared.watched_reader.WatchedReader.{WatchedReader};

    ghost Value = { WatchedReader W B };

    ghost view = { λ d. d.reader };

    // it was fed some bytes
    ghost invariant = { λ d. WasFed B.KIND B.stands_for W.stands_for d.reader };
}

impl<W: Watcher, B: Builder> WatchedDecoder<W, B> {
    /// A decoder before the first byte. Does not allocate.
    pub(crate) fn new(watcher: W, builder: B) -> Self
        requires built { B.stands_for builder [] }
        requires shown { W.stands_for B.KIND watcher [] }
        ensures { StandsFor B.KIND B.stands_for W.stands_for result [] }
    {
        WatchedDecoder {
            reader: WatchedReader::new(watcher, builder),
        }
    }

    /// Takes the next bytes.
    ///
    /// # Errors
    ///
    /// The first offence of all bytes; or out of memory, only if an allocation failed. After an error,
    /// every later call returns the same error.
    pub(crate) fn feed(&mut self, piece: &[u8]) -> Result<(), Refusal>
        ensures stands { (bytes : List ℕ) → StandsFor B.KIND B.stands_for W.stands_for self.old
            bytes → StandsFor B.KIND B.stands_for W.stands_for self.new (bytes ++ piece.now) }
        ensures bounded { OnOk result ((bytes : List ℕ) →
            StandsFor B.KIND B.stands_for W.stands_for self.new bytes → length bytes < 2 ^ 30 + 4) }
        ensures refused { IfErr result (λ refusal. (bytes : List ℕ) → StandsFor B.KIND B.stands_for
            W.stands_for self.new bytes → RefusesBytes B.KIND bytes refusal) }
    {
        self.reader.feed(piece)
    }

    /// What is in the file that the bytes are, and the watcher that was shown its longwords. Does not
    /// allocate.
    ///
    /// # Errors
    ///
    /// The first offence of all bytes, and their end; or out of memory if an earlier call returned it.
    pub(crate) fn finish(self) -> Result<Watched<B::Value, W>, Refusal>
        ensures value { IfOk result (λ watched. (bytes : List ℕ) → StandsFor B.KIND B.stands_for
            W.stands_for self bytes → IsWatchedOf B.KIND B.is_value W.stands_for watched bytes) }
        ensures refused { IfErr result (λ refusal. (bytes : List ℕ) → StandsFor B.KIND B.stands_for
            W.stands_for self bytes → RefusesInput B.KIND bytes refusal) }
    {
        self.reader.finish()
    }
}

impl<W: Watcher, B: Builder> KindDecoder for WatchedDecoder<W, B> {
    ghost stands_for = { λ d bytes. StandsFor B.KIND B.stands_for W.stands_for d bytes };

    ghost KIND = { B.KIND };

    // It may run out of memory.
    ghost begins = { λ _. ⊤ };

    ghost is_value = { λ watched bytes. IsWatchedOf B.KIND B.is_value W.stands_for watched bytes };

    type Value = Watched<B::Value, W>;

    fn feed(&mut self, piece: &[u8]) -> Result<(), Refusal> {
        self.feed(piece)
    }

    fn finish(self) -> Result<Watched<B::Value, W>, Refusal> {
        self.finish()
    }
}
