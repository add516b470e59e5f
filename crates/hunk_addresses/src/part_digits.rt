//! The digits of an address, as they come.

ghost use Rattle.std.specs.Prelude.{◌≡◌, ◌<◌, ◌≤◌, ◌^◌, ◌++◌, ℕ, List, [], ◌∷◌, MatchOption, None};

/// The digits of an address, at most.
const MOST_DIGITS: u32 = 8;

const HEXADECIMAL: u32 = 16;

/// The digits so far of a part that is being read, none if the last byte was a separator.
#[derive(Clone, Copy)]
pub(crate) struct PartDigits {
    pub count: u32,
    pub value: u32,
    ghost few: { count ≤ 8 },
    ghost below: { value < 16 ^ count },
}

impl PartDigits {
    ghost use Rattle.hunk_addresses.specs.Bases.{number_of};
    ghost use Rattle.hunk_addresses.specs.PartDigits.{AreDigits};

    /// No digits.
    pub fn none() -> PartDigits
        ensures { AreDigits result [] }
    {
        PartDigits { count: 0, value: 0 }
    }

    /// These digits with `byte` after them, if together they are 1 to 8 hexadecimal digits.
    pub fn with(self, byte: u8) -> Option<PartDigits>
        ensures { MatchOption result ((part : List ℕ) → AreDigits self part → (rest : List ℕ) →
            number_of (part ++ byte ∷ rest) ≡ None) (λ longer. (part : List ℕ) →
            AreDigits self part → AreDigits longer (part ++ byte ∷ [])) }
    {
        let digit = char::from(byte).to_digit(HEXADECIMAL)?;
        if self.count == MOST_DIGITS {
            return None;
        }
        Some(PartDigits {
            count: self.count + 1,
            value: self.value * HEXADECIMAL + digit,
        })
    }
}
