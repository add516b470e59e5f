//! Many units, each of which refers to the next.

use super::cases::{Case, becomes};
use super::choices::PLAIN;
use super::names::name_word;
use std::alloc::{AllocError, Global};
use std::test::Fail;

/// The number of units.
const UNITS: u32 = 500;

/// The last unit refers to the first one.
fn next_of(unit: u32) -> u32 {
    let next = unit.wrapping_add(1);
    if next == UNITS { 0 } else { next }
}

/// The two longwords of a unit's code. What is added to the second one makes half of them wrap.
fn code_of(unit: u32) -> [u32; 2] {
    [unit, 0xFFFF_FE00u32.wrapping_add(unit)]
}

/// Each unit defines a name at the offset that is its own number.
fn ring(alloc: Global) -> Result<Vec<u32>, AllocError> {
    let mut words = Vec::new(alloc);
    for unit in 0..UNITS {
        let name = name_word(alloc, unit)?;
        let next = name_word(alloc, next_of(unit))?;
        words.extend_from_slice(&[0x3E7, 0, 0x3E9, 2])?;
        words.extend_from_slice(&code_of(unit))?;
        words.extend_from_slice(&[0x3EF, 0x0100_0001, name, unit])?;
        words.extend_from_slice(&[0x8100_0001, next, 1, 4, 0, 0x3F2])?;
    }
    Ok(words)
}

/// All definitions: each name, and its hunk, which is also its offset.
fn definitions_of(alloc: Global) -> Result<Vec<(u32, u32)>, AllocError> {
    let mut definitions = Vec::new(alloc);
    for unit in 0..UNITS {
        definitions.push((name_word(alloc, unit)?, unit))?;
    }
    Ok(definitions)
}

/// The load file of the units. Each name is sought from the front of the definitions.
fn linked_ring(alloc: Global) -> Result<Vec<u32>, Fail> {
    let definitions = definitions_of(alloc)?;
    let mut words = Vec::from_slice(alloc, &[0x3F3, 0, UNITS, 0, UNITS - 1])?;
    for _ in 0..UNITS {
        words.push(2)?;
    }
    for unit in 0..UNITS {
        let name = name_word(alloc, next_of(unit))?;
        let found = definitions.iter().find(|defined| defined.0 == name);
        let (_, hunk) = *found.ok_or("no such name")?;
        let [first, second] = code_of(unit);
        words.extend_from_slice(&[0x3E9, 2, first, second.wrapping_add(hunk)])?;
        words.extend_from_slice(&[0x3EC, 1, hunk, 4, 0, 0x3F2])?;
    }
    Ok(words)
}

/// Where the hunk of a unit is placed.
fn base_of(unit: u32) -> u32 {
    0x0100_0000u32.wrapping_add(unit.wrapping_mul(16))
}

/// The memory of the units: the second longword of each has the address of what the next one defines.
fn ring_report(alloc: Global) -> Result<String, AllocError> {
    let mut report = String::new(alloc);
    for unit in 0..UNITS {
        let base = base_of(unit);
        let next = next_of(unit);
        let [first, second] = code_of(unit);
        let address = base_of(next).wrapping_add(next);
        let sum = second.wrapping_add(address);
        write!(report, "hunk {unit} at {base:08x} size 8\n")?;
        write!(report, "{base:08x} {first:08x}{sum:08x}\n")?;
    }
    Ok(report)
}

#[test]
fn links_a_ring_of_units(rt: HostRuntime) -> Result<(), Fail> {
    let words = ring(rt.alloc())?;
    let linked = linked_ring(rt.alloc())?;
    let mut bases = Vec::new(rt.alloc());
    for unit in 0..UNITS {
        bases.push(base_of(unit)).map_err(AllocError::from)?;
    }
    let report = ring_report(rt.alloc())?;
    let case = Case {
        objects: &[&words],
        options: PLAIN,
        linked: &linked,
        bases: &bases,
        report: &report,
    };
    becomes(&rt, rt.alloc(), &case)
}
