//! Numbers that look random.

/// A generator of numbers, which are the same in each run.
#[derive(Drop)]
pub(crate) struct Dice {
    state: u32,
}

impl Dice {
    /// A generator that begins with this number.
    pub(crate) fn new(seed: u32) -> Dice {
        Dice { state: seed }
    }

    /// The next longword: a linear congruential generator.
    pub(crate) fn word(&mut self) -> u32 {
        let next = self
            .state
            .wrapping_mul(1_664_525)
            .wrapping_add(1_013_904_223);
        self.state = next;
        next
    }

    /// A number below `sides`, or 0 if that is 0. It is made of the upper bits, since the lower ones
    /// repeat soon.
    pub(crate) fn roll(&mut self, sides: u32) -> u32 {
        (self.word() >> 16).checked_rem(sides).unwrap_or(0)
    }

    /// A number below `sides`, but one time in sixteen up to two more than that.
    pub(crate) fn roll_beyond(&mut self, sides: u32) -> u32 {
        if self.roll(16) == 0 {
            sides.wrapping_add(self.roll(3))
        } else {
            self.roll(sides)
        }
    }
}
