//! Follows the longwords of a file up to its first offence.

ghost use Rattle.std.specs.Prelude.{⊤, ◌≡◌, ◌+◌, ◌<◌, ◌^◌, ℕ, List, [], ◌∷◌, ◌++◌, length, Some, None, IfOk, IfErr, OnOk};
ghost use Rattle.hunk_words.specs.Decoder.{RefusesBytes};
ghost use Rattle.hunk_words.specs.DecoderCore.{Keeps};
ghost use Rattle.hunk_base.specs.declared.fault.Refusal.{Refusal};
ghost use Rattle.hunk_files.specs.Explanation.{IsExplained};
ghost use Rattle.hunk_files.specs.Follower.{FollowsWords, StandsFor, refusal_of};

use crate::explanation::{Explanation, Found};
use crate::file_decoder::KindDecoder;
use crate::path::Path;
use hunk_words::{Core, Due, Feed, Refusal, Splitter, Taker};

/// What is known at the longwords of a file, up to the first one that is refused.
#[derive(Drop)]
pub(crate) struct Follower<T> {
    splitter: Splitter,
    core: Core<T>,
    /// The blocks before the last longword, if that one is refused, and otherwise with it.
    path: Path,
    /// The last longword, and what was due there.
    last: u32,
    due: Due,
}

impl<T: Taker> Follower<T> {
    /// Before the first byte. The taker must not have taken any event.
    pub(crate) fn new(taker: T) -> Self
        requires { T.stands_for taker [] }
        ensures { StandsFor T.KIND T.stands_for result [] }
    {
        let core = Core::new(taker);
        let due = core.due();
        Follower {
            splitter: Splitter::new(),
            core,
            path: Path::new(),
            last: 0,
            due,
        }
    }

    /// Takes the next longword.
    fn word(&mut self, word: u32) -> Result<(), Refusal>
        requires { refusal_of self.old ≡ None }
        ensures stands { (ws : List ℕ) → FollowsWords T.KIND T.stands_for self.old ws →
            FollowsWords T.KIND T.stands_for self.new (ws ++ word ∷ []) }
        ensures same { self.new.splitter ≡ self.old.splitter }
        ensures kept { Keeps (refusal_of self.new) result }
    {
        let due = self.core.due();
        self.last = word;
        self.due = due;
        match self.core.word(word) {
            Ok(()) => {
                self.path = self.path.after(due, word);
                Ok(())
            }
            Err(refusal) => Err(refusal),
        }
    }

    /// Takes one byte.
    fn push(&mut self, byte: u8) -> Result<(), Refusal>
        requires { refusal_of self.old ≡ None }
        ensures stands { (bytes : List ℕ) → StandsFor T.KIND T.stands_for self.old bytes →
            StandsFor T.KIND T.stands_for self.new (bytes ++ byte ∷ []) }
        ensures kept { Keeps (refusal_of self.new) result }
    {
        match self.splitter.push(byte) {
            Some(word) => self.word(word),
            None => Ok(()),
        }
    }

    /// Takes the next bytes.
    ///
    /// # Errors
    ///
    /// The first offence of all bytes; or out of memory, only if an allocation failed. After an error,
    /// every later call returns the same error.
    pub(crate) fn feed(&mut self, piece: &[u8]) -> Result<(), Refusal>
        ensures stands { (bytes : List ℕ) → StandsFor T.KIND T.stands_for self.old bytes →
            StandsFor T.KIND T.stands_for self.new (bytes ++ piece.now) }
        ensures kept { Keeps (refusal_of self.new) result }
        ensures bounded { OnOk result ((bytes : List ℕ) →
            StandsFor T.KIND T.stands_for self.new bytes → length bytes < 2 ^ 30 + 4) }
        ensures refused { IfErr result (λ refusal. (bytes : List ℕ) →
            StandsFor T.KIND T.stands_for self.new bytes → RefusesBytes T.KIND bytes refusal) }
    {
        if let Some(refusal) = self.core.refusal() {
            return Err(refusal);
        }
        for byte in piece {
            match self.push(*byte) {
                Ok(()) => {}
                Err(refusal) => return Err(refusal),
            }
        }
        Ok(())
    }

    /// What is told of the bytes: `None` if they are a file.
    ///
    /// # Errors
    ///
    /// Out of memory, if an earlier call returned it.
    pub(crate) fn explanation(self) -> Result<Option<Explanation>, Refusal>
        ensures ok { IfOk result (λ given. (bytes : List ℕ) →
            StandsFor T.KIND T.stands_for self bytes → IsExplained T.KIND given bytes) }
        ensures memory { IfErr result (λ refusal. refusal ≡ Refusal.OutOfMemory) }
    {
        match self.core.refusal() {
            Some(Refusal::OutOfMemory) => Err(Refusal::OutOfMemory),
            Some(Refusal::Fault(fault)) => {
                let found = Found::Longword(self.last);
                Ok(Some(Explanation::new(fault, found, self.due, self.path)))
            }
            None => self.at_end(),
        }
    }

    /// The same where no longword was refused.
    fn at_end(self) -> Result<Option<Explanation>, Refusal>
        requires { refusal_of self ≡ None }
        ensures ok { IfOk result (λ given. (bytes : List ℕ) →
            StandsFor T.KIND T.stands_for self bytes → IsExplained T.KIND given bytes) }
        ensures memory { IfErr result (λ refusal. refusal ≡ Refusal.OutOfMemory) }
    {
        let rest = self.splitter.rest();
        let due = self.core.due();
        let path = self.path;
        match self.core.end(rest) {
            Ok(_) => Ok(None),
            Err(Refusal::Fault(fault)) => Ok(Some(Explanation::new(
                fault,
                Found::End(rest),
                due,
                path,
            ))),
            Err(Refusal::OutOfMemory) => Err(Refusal::OutOfMemory),
        }
    }
}

impl<T: Taker> Feed for Follower<T> {
    ghost stands_for = { λ f bytes. StandsFor T.KIND T.stands_for f bytes };

    ghost refused = { λ f refusal. refusal_of f ≡ Some refusal };

    fn feed(&mut self, piece: &[u8]) -> Result<(), Refusal> {
        self.feed(piece)
    }
}

impl<T: Taker> KindDecoder for Follower<T> {
    ghost stands_for = { λ f bytes. StandsFor T.KIND T.stands_for f bytes };

    ghost KIND = { T.KIND };

    // It goes on after an offence.
    ghost begins = { λ _. ⊤ };

    ghost is_value = { λ given bytes. IsExplained T.KIND given bytes };

    type Value = Option<Explanation>;

    fn feed(&mut self, piece: &[u8]) -> Result<(), Refusal> {
        self.feed(piece)
    }

    fn finish(self) -> Result<Option<Explanation>, Refusal> {
        self.explanation()
    }
}
