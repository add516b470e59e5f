//! Bytes to longwords.

use byteorder::{BigEndian, ByteOrder};

/// The bytes of a longword that is not whole yet, in order.
#[derive(Clone, Copy)]
enum Held {
    Nothing,
    One(u8),
    Two(u8, u8),
    Three(u8, u8, u8),
}

/// Makes longwords from bytes that come one at a time, the most significant byte first.
#[derive(Clone, Copy)]
pub struct Splitter {
    held: Held,
}

impl Splitter {
    ghost use Rattle.std.specs.Prelude.{◌≡◌, ◌≤◌, ℕ, List, [], ◌∷◌, ◌++◌, length, option_to_list};
    ghost use Rattle.hunk_base.specs.Longwords.{longwords, unfinished};
    ghost use Rattle.hunk_base.specs.Splitter.{StandsFor};

    /// A splitter before the first byte.
    pub fn new() -> Splitter
        ensures { StandsFor result [] }
    {
        Splitter {
            held: Held::Nothing,
        }
    }

    /// Takes one byte. If it is the last byte of a longword, returns that longword.
    pub fn push(&mut self, byte: u8) -> Option<u32>
        ensures stands { (bytes : List ℕ) → StandsFor self.old bytes →
            StandsFor self.new (bytes ++ byte ∷ []) }
        ensures word { (bytes : List ℕ) → StandsFor self.old bytes →
            longwords (bytes ++ byte ∷ []) ≡ longwords bytes ++ option_to_list result }
    {
        match self.held {
            Held::Nothing => {
                self.held = Held::One(byte);
                None
            }
            Held::One(first) => {
                self.held = Held::Two(first, byte);
                None
            }
            Held::Two(first, second) => {
                self.held = Held::Three(first, second, byte);
                None
            }
            Held::Three(first, second, third) => {
                self.held = Held::Nothing;
                Some(BigEndian::read_u32(&[first, second, third, byte]))
            }
        }
    }

    /// The number of bytes of an unfinished longword that it holds, 0 to 3.
    pub fn rest(&self) -> u8
        ensures rest { (bytes : List ℕ) → StandsFor self.now bytes →
            result ≡ length (unfinished bytes) }
        ensures few { result ≤ 3 }
    {
        match self.held {
            Held::Nothing => 0,
            Held::One(_) => 1,
            Held::Two(..) => 2,
            Held::Three(..) => 3,
        }
    }
}
