//! The load file of units that link, written slowly: each hunk is sought for as a target, and each
//! longword is looked at before it is left out.

use super::answers::bytes_of;
use super::plain_link::addend;
use super::plain_memory::add_at;
use super::plans::{Plan, push_information};
use hunk_objects::HunkKind;
use hunk_tool::LinkOptions;
use std::alloc::{AllocError, Global};

/// The longwords of the load file of hunks that link. They are so small that 16 bits hold each
/// offset.
pub(crate) fn load_words(
    alloc: Global,
    plans: &[Plan],
    options: LinkOptions,
) -> Result<Vec<u32>, AllocError> {
    let count = u32::try_from(plans.len()).unwrap_or(u32::MAX);
    let mut words = Vec::from_slice(alloc, &[0x3F3, 0, count, 0, count.wrapping_sub(1)])?;
    for plan in plans {
        words.push(plan.memory_bits() | plan.size)?;
    }
    for plan in plans {
        let sites = based_sites(alloc, plans, plan)?;
        let mut content = linked_content(alloc, plans, plan)?;
        if options.trim {
            content.truncate(kept_longwords(&content, &sites));
        }
        push_content(&mut words, plan, &content)?;
        let groups = groups_of(alloc, plans, &sites)?;
        push_relocations(&mut words, &groups, options.short)?;
        if !options.strip {
            push_information(&mut words, plan)?;
        }
        words.push(0x3F2)?;
    }
    Ok(words)
}

/// The sites of a hunk where the loader adds the base of a hunk, and the number of that hunk over all
/// units.
fn based_sites(alloc: Global, plans: &[Plan], plan: &Plan) -> Result<Vec<(u32, u32)>, AllocError> {
    let mut sites = Vec::new(alloc);
    for (offset, added) in &plan.sites {
        if let (_, Some(rank)) = addend(plans, plan.unit, *added) {
            sites.push((*offset, rank))?;
        }
    }
    Ok(sites)
}

/// The content of a hunk, with the number that the linker knows added at each site.
fn linked_content(alloc: Global, plans: &[Plan], plan: &Plan) -> Result<Vec<u32>, AllocError> {
    let mut bytes = bytes_of(alloc, &plan.content)?;
    for (offset, added) in &plan.sites {
        let (known, _) = addend(plans, plan.unit, *added);
        add_at(&mut bytes, *offset, known);
    }
    let mut words = Vec::new(alloc);
    for longword in bytes.chunks(4) {
        if let [first, second, third, fourth] = longword {
            words.push(u32::from_be_bytes([*first, *second, *third, *fourth]))?;
        }
    }
    Ok(words)
}

/// The number of longwords up to the last one that is not zero or has a byte of a site.
fn kept_longwords(content: &[u32], sites: &[(u32, u32)]) -> usize {
    let mut kept = 0;
    for (index, word) in content.iter().enumerate() {
        if *word != 0 || sites.iter().any(|(offset, _)| touches(*offset, index)) {
            kept = index.saturating_add(1);
        }
    }
    kept
}

/// Whether one of the four bytes from this offset on is in the longword with this index.
fn touches(offset: u32, index: usize) -> bool {
    let last = offset.saturating_add(3);
    offset as usize / 4 == index || last as usize / 4 == index
}

/// Adds the content block of a hunk. Zeros that the file does not have are told by their number.
fn push_content(words: &mut Vec<u32>, plan: &Plan, content: &[u32]) -> Result<(), AllocError> {
    let count = match plan.kind {
        HunkKind::Bss => plan.size,
        _ => u32::try_from(content.len()).unwrap_or(u32::MAX),
    };
    words.extend_from_slice(&[plan.block_type(), count])?;
    words.extend_from_slice(content)?;
    Ok(())
}

/// The relocations of these sites: for each hunk whose base is added, how often, its number over all
/// units, and the offsets.
fn groups_of(alloc: Global, plans: &[Plan], sites: &[(u32, u32)]) -> Result<Vec<u32>, AllocError> {
    let mut groups = Vec::new(alloc);
    for target in plans {
        let mut offsets = Vec::new(alloc);
        for (offset, rank) in sites {
            if *rank == target.rank {
                offsets.push(*offset)?;
            }
        }
        if !offsets.is_empty() {
            let count = u32::try_from(offsets.len()).unwrap_or(u32::MAX);
            groups.extend_from_slice(&[count, target.rank])?;
            groups.extend_from_slice(&offsets)?;
        }
    }
    Ok(groups)
}

/// Adds the relocation block of a hunk, which ends with a zero. In the short form each longword has
/// two numbers, and the last one may have none in its lower half. Without relocations there is no
/// block of them.
fn push_relocations(words: &mut Vec<u32>, groups: &[u32], short: bool) -> Result<(), AllocError> {
    if groups.is_empty() {
        return Ok(());
    }
    if !short {
        words.push(0x3EC)?;
        words.extend_from_slice(groups)?;
        words.push(0)?;
        return Ok(());
    }
    words.push(0x3FC)?;
    for pair in groups.chunks(2) {
        match pair {
            [first, second] => words.push((*first << 16) | *second)?,
            // the zero at the end is in the lower half
            [last] => words.push(*last << 16)?,
            _ => {}
        }
    }
    if groups.len() % 2 == 0 {
        words.push(0)?;
    }
    Ok(())
}
