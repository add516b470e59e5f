//! The first bytes of a file, which tell its kind.

ghost use Rattle.std.specs.Prelude.{◌≡◌, ◌<◌, ◌≤◌, ◌⊎◌, ℕ, List, [], ◌++◌, length, take};

use std::marker::Model;

/// The bytes of a longword.
pub(crate) const LONGWORD: usize = 4;

/// The first bytes of a file, at most four.
#[derive(Drop)]
pub(crate) struct FirstBytes {
    bytes: [u8; LONGWORD],
    count: usize,
}

impl Model for FirstBytes {
    ghost Value = { List ℕ };

    ghost view = { λ f. take f.count f.bytes };

    ghost invariant = { λ f. f.count ≤ 4 };
}

impl FirstBytes {
    /// No bytes.
    pub(crate) fn new() -> FirstBytes
        ensures { result ≡ [] }
    {
        FirstBytes {
            bytes: [0; LONGWORD],
            count: 0,
        }
    }

    pub(crate) fn as_bytes(&self) -> &[u8]
        ensures value { result.now ≡ self.now }
        ensures few { length self.now ≤ 4 }
    {
        &self.bytes[..self.count]
    }

    /// Takes the first of these bytes, until there are four, and returns how many it took.
    pub(crate) fn take(&mut self, piece: &[u8]) -> usize
        ensures within { result ≤ length piece.now }
        ensures value { self.new ≡ self.old ++ take result piece.now }
        ensures all { (length self.new ≡ 4) ⊎
            ((length self.new < 4) × (result ≡ length piece.now)) }
    {
        let taken = piece.len().min(LONGWORD - self.count);
        let end = self.count + taken;
        self.bytes[self.count..end].copy_from_slice(&piece[..taken]);
        self.count = end;
        taken
    }
}
