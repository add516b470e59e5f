//! Units made at random.

use super::dice::Dice;
use super::names::name_word;
use super::plans::{Added, Plan};
use hunk_objects::{Definition, HunkKind, Memory};
use std::alloc::{AllocError, Global};

/// A unit has fewer hunks than this.
const MOST_HUNKS: u32 = 4;

/// A hunk has fewer longwords than this.
const MOST_SIZE: u32 = 7;

/// The number of units of each of a few files.
pub(crate) fn made_files(alloc: Global, dice: &mut Dice) -> Result<Vec<usize>, AllocError> {
    let mut files = Vec::new(alloc);
    for _ in 0..=dice.roll(3) {
        files.push(dice.roll(2).saturating_add(1) as usize)?;
    }
    Ok(files)
}

/// The hunks of this many units. So that many of them link, a hunk mostly defines the name with its
/// number over all units, and mostly refers to such names.
pub(crate) fn made_plans(
    alloc: Global,
    dice: &mut Dice,
    units: usize,
) -> Result<Vec<Plan>, AllocError> {
    let mut counts = Vec::new(alloc);
    let mut total = 0u32;
    for _ in 0..units {
        let count = dice.roll(MOST_HUNKS);
        counts.push(count)?;
        total = total.wrapping_add(count);
    }
    let mut plans = Vec::new(alloc);
    let mut rank = 0u32;
    for (unit, count) in counts.iter().enumerate() {
        for number in 0..*count {
            let mut plan = empty_plan(alloc, dice, unit, number, rank);
            fill_plan(alloc, dice, &mut plan, *count, total)?;
            plans.push(plan)?;
            rank = rank.wrapping_add(1);
        }
    }
    Ok(plans)
}

/// A hunk in which nothing is yet.
fn empty_plan(alloc: Global, dice: &mut Dice, unit: usize, number: u32, rank: u32) -> Plan {
    Plan {
        unit,
        number,
        rank,
        kind: match dice.roll(4) {
            0 => HunkKind::Bss,
            1 => HunkKind::Data,
            _ => HunkKind::Code,
        },
        memory: match dice.roll(4) {
            0 => Memory::Chip,
            1 => Memory::Fast,
            _ => Memory::Any,
        },
        size: dice.roll(MOST_SIZE),
        content: Vec::new(alloc),
        sites: Vec::new(alloc),
        definitions: Vec::new(alloc),
        symbols: Vec::new(alloc),
        debugs: Vec::new(alloc),
    }
}

/// Fills a hunk, whose unit has `count` hunks, and all units have `total`.
fn fill_plan(
    alloc: Global,
    dice: &mut Dice,
    plan: &mut Plan,
    count: u32,
    total: u32,
) -> Result<(), AllocError> {
    if plan.kind != HunkKind::Bss {
        plan.content = made_content(alloc, dice, plan.size)?;
        for offset in made_offsets(alloc, dice, plan.size)? {
            let added = made_added(alloc, dice, count, total)?;
            plan.sites.push((offset, added))?;
        }
    }
    plan.definitions = made_definitions(alloc, dice, plan.rank)?;
    for _ in 0..dice.roll(3) {
        let name = name_word(alloc, dice.roll(1000))?;
        plan.symbols.push((name, dice.word()))?;
    }
    for _ in 0..dice.roll(3) {
        let length = dice.roll(3);
        plan.debugs.push(made_words(alloc, dice, length)?)?;
    }
    Ok(())
}

/// Content of this many longwords. Half of the time some of them, or all, are zeros up to the end.
fn made_content(alloc: Global, dice: &mut Dice, size: u32) -> Result<Vec<u32>, AllocError> {
    let mut content = made_words(alloc, dice, size)?;
    if dice.roll(2) == 0 {
        let kept = dice.roll(size) as usize;
        for (index, word) in content.iter_mut().enumerate() {
            if kept <= index {
                *word = 0;
            }
        }
    }
    Ok(content)
}

fn made_words(alloc: Global, dice: &mut Dice, count: u32) -> Result<Vec<u32>, AllocError> {
    let mut words = Vec::new(alloc);
    for _ in 0..count {
        words.push(dice.word())?;
    }
    Ok(words)
}

/// Offsets in so many longwords, in ascending order and apart. They are odd as often as not.
fn made_offsets(alloc: Global, dice: &mut Dice, longwords: u32) -> Result<Vec<u32>, AllocError> {
    let mut offsets = Vec::new(alloc);
    let shift = dice.roll(4);
    let places = if shift == 0 {
        longwords
    } else {
        longwords.saturating_sub(1)
    };
    for place in 0..places {
        if dice.roll(2) == 0 {
            offsets.push(place.wrapping_mul(4).wrapping_add(shift))?;
        }
    }
    Ok(offsets)
}

fn made_added(alloc: Global, dice: &mut Dice, count: u32, total: u32) -> Result<Added, AllocError> {
    if dice.roll(2) == 0 {
        Ok(Added::Base(dice.roll_beyond(count)))
    } else {
        Ok(Added::Name(name_word(alloc, dice.roll_beyond(total))?))
    }
}

/// Mostly the name with this number, and now and then another one.
fn made_definitions(
    alloc: Global,
    dice: &mut Dice,
    rank: u32,
) -> Result<Vec<(u32, Definition)>, AllocError> {
    let mut definitions = Vec::new(alloc);
    if dice.roll(16) != 0 {
        definitions.push((name_word(alloc, rank)?, made_definition(dice)))?;
    }
    if dice.roll(8) == 0 {
        let other = dice.roll(16);
        definitions.push((name_word(alloc, other)?, made_definition(dice)))?;
    }
    Ok(definitions)
}

fn made_definition(dice: &mut Dice) -> Definition {
    let value = dice.word();
    if dice.roll(3) == 0 {
        Definition::Absolute(value)
    } else {
        Definition::At(value)
    }
}
