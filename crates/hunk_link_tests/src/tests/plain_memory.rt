//! What units are in memory, found slowly: byte by byte, and without a load file.

use super::answers::bytes_of;
use super::plain_link::addend;
use super::plans::Plan;
use std::alloc::{AllocError, Global};

/// The report of the memory of these hunks at these addresses, one for each of them.
pub(crate) fn direct_report(
    alloc: Global,
    plans: &[Plan],
    bases: &[u32],
) -> Result<String, AllocError> {
    let mut report = String::new(alloc);
    for plan in plans {
        let base = base_of(bases, plan.rank);
        let bytes = direct_bytes(alloc, plans, plan, bases)?;
        push_lines(&mut report, plan.rank, base, &bytes)?;
    }
    Ok(report)
}

/// The address of the hunk with this number over all units.
fn base_of(bases: &[u32], rank: u32) -> u32 {
    bases.get(rank as usize).copied().unwrap_or(0)
}

/// The bytes of a hunk in memory: its content and zeros, with a number and an address added at each
/// site.
fn direct_bytes(
    alloc: Global,
    plans: &[Plan],
    plan: &Plan,
    bases: &[u32],
) -> Result<Vec<u8>, AllocError> {
    let mut bytes = bytes_of(alloc, &plan.content)?;
    for _ in plan.content.len()..plan.size as usize {
        bytes.extend_from_slice(&[0; 4])?;
    }
    for (offset, added) in &plan.sites {
        let (known, rank) = addend(plans, plan.unit, *added);
        let base = rank.map_or(0, |rank| base_of(bases, rank));
        add_at(&mut bytes, *offset, known.wrapping_add(base));
    }
    Ok(bytes)
}

/// Adds a number to the four bytes at this offset: from the last byte on, each with the carry of the
/// one after it. The first carry is lost.
pub(crate) fn add_at(bytes: &mut [u8], offset: u32, number: u32) {
    let mut carry = 0;
    for (index, more) in number.to_be_bytes().iter().enumerate().rev() {
        let place = (offset as usize).saturating_add(index);
        if let Some(byte) = bytes.get_mut(place) {
            let sum = u16::from(*byte)
                .wrapping_add(u16::from(*more))
                .wrapping_add(carry);
            let [high, low] = sum.to_be_bytes();
            *byte = low;
            carry = u16::from(high);
        }
    }
}

/// Adds the lines of a hunk.
fn push_lines(report: &mut String, rank: u32, base: u32, bytes: &[u8]) -> Result<(), AllocError> {
    let size = bytes.len();
    write!(report, "hunk {rank} at {base:08x} size {size}\n")?;
    let mut address = base;
    for row in bytes.chunks(16) {
        write!(report, "{address:08x} ")?;
        for byte in row {
            write!(report, "{byte:02x}")?;
        }
        write!(report, "\n")?;
        address = address.wrapping_add(16);
    }
    Ok(())
}
