//! The digits of numbers, in arrays of fixed size, so that they need no allocation.

ghost use Rattle.std.specs.Prelude.{◌≡◌, ◌≤◌, List, ℕ, drop, length};
ghost use Rattle.std.specs.Fmt.{decimal};
ghost use Rattle.hunk_base.specs.Digits.{eight_digits};

use std::marker::Model;

/// The most digits of a 64-bit number.
const MOST_DIGITS: usize = 20;

/// The digits of a number.
#[derive(Drop)]
pub struct Digits {
    digits: [u8; MOST_DIGITS],
    start: usize,
}

impl Model for Digits {
    ghost Value = { List ℕ };

    ghost view = { λ d. drop d.start d.digits };

    ghost invariant = { λ d. d.start ≤ 20 };
}

impl Digits {
    /// A number in decimal digits, without leading zeros.
    pub fn decimal(number: u64) -> Digits
        ensures value { result ≡ decimal number }
        ensures short { length result ≤ 20 }
    {
        let mut digits = [0; MOST_DIGITS];
        let mut start = MOST_DIGITS - 1;
        let mut left = number;
        while left >= 10 {
            digits[start] = b'0' + (left % 10) as u8;
            start -= 1;
            left /= 10;
        }
        digits[start] = b'0' + left as u8;
        Digits { digits, start }
    }

    /// A longword in eight lower-case hexadecimal digits.
    pub fn hexadecimal(number: u32) -> Digits
        ensures value { result ≡ eight_digits number }
        ensures short { length result ≤ 20 }
    {
        let mut digits = [0; MOST_DIGITS];
        let start = MOST_DIGITS - 8;
        // There are two places for each byte, so this can't fail.
        let _ = hex::encode_to_slice(number.to_be_bytes(), &mut digits[start..]);
        Digits { digits, start }
    }

    pub fn as_bytes(&self) -> &[u8]
        ensures { result.now ≡ self.now }
    {
        &self.digits[self.start..]
    }
}
