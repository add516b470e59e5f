//! Places made at random.

use super::dice::Dice;
use super::plans::Plan;
use std::alloc::{AllocError, Global};

/// The end of all addresses.
const END: u64 = 0x1_0000_0000;

/// More bytes than all hunks of the tests have, and what is between them.
const MOST_BYTES: u64 = 4096;

/// An address for each hunk, so that no two share a byte. Half of the time the last one ends where
/// all addresses end, or shortly before. Hunks without bytes are anywhere.
pub(crate) fn made_bases(
    alloc: Global,
    dice: &mut Dice,
    plans: &[Plan],
) -> Result<Vec<u32>, AllocError> {
    let mut bases = vec![in alloc; 0; plans.len()]?;
    let mut end = if dice.roll(2) == 0 {
        END
    } else {
        u64::from(dice.word()).max(MOST_BYTES)
    };
    for index in shuffled(alloc, dice, plans.len())? {
        let size = plans.get(index).map_or(0, |plan| plan.size);
        let base = if size == 0 {
            dice.word()
        } else {
            let taken = u64::from(size.wrapping_mul(4).wrapping_add(dice.roll(6)));
            end = end.saturating_sub(taken);
            u32::try_from(end).unwrap_or(0)
        };
        if let Some(place) = bases.get_mut(index) {
            *place = base;
        }
    }
    Ok(bases)
}

/// The numbers below this one, in any order.
fn shuffled(alloc: Global, dice: &mut Dice, count: usize) -> Result<Vec<usize>, AllocError> {
    let mut numbers = Vec::new(alloc);
    for number in 0..count {
        let sides = u32::try_from(number).unwrap_or(0).saturating_add(1);
        let place = (dice.roll(sides) as usize).min(numbers.len());
        numbers.insert(place, number)?;
    }
    Ok(numbers)
}
