//! Units as the tests describe them.

use hunk_objects::{Definition, HunkKind, Memory};
use std::alloc::{AllocError, Global};

/// What is added at a site.
#[derive(Clone, Copy)]
pub(crate) enum Added {
    /// The base of the hunk with this number in the same unit.
    Base(u32),
    /// What the name in this longword stands for.
    Name(u32),
}

/// A hunk.
#[derive(Drop)]
pub(crate) struct Plan {
    /// The index of its unit, over all files.
    pub(crate) unit: usize,
    /// Its number in the unit.
    pub(crate) number: u32,
    /// Its number over all units.
    pub(crate) rank: u32,
    /// What it is made of.
    pub(crate) kind: HunkKind,
    /// Where it is to be loaded.
    pub(crate) memory: Memory,
    /// The number of its longwords.
    pub(crate) size: u32,
    /// Its longwords, or none if they are zeros that the file does not have.
    pub(crate) content: Vec<u32>,
    /// The offset of each site, and what is added there, in ascending order.
    pub(crate) sites: Vec<(u32, Added)>,
    /// The names that it defines, each in one longword.
    pub(crate) definitions: Vec<(u32, Definition)>,
    /// Its symbols: a name in one longword, and a value.
    pub(crate) symbols: Vec<(u32, u32)>,
    /// The longwords of its debug blocks.
    pub(crate) debugs: Vec<Vec<u32>>,
}

impl Plan {
    /// The type of the block of its content.
    pub(crate) fn block_type(&self) -> u32 {
        match self.kind {
            HunkKind::Code => 0x3E9,
            HunkKind::Data => 0x3EA,
            HunkKind::Bss => 0x3EB,
        }
    }

    /// The bits that stand for its memory.
    pub(crate) fn memory_bits(&self) -> u32 {
        match self.memory {
            Memory::Any => 0,
            Memory::Chip => 0x4000_0000,
            Memory::Fast => 0x8000_0000,
        }
    }
}

/// The object files of these hunks. Each file has so many units.
pub(crate) fn object_files(
    alloc: Global,
    files: &[usize],
    plans: &[Plan],
) -> Result<Vec<Vec<u32>>, AllocError> {
    let mut objects = Vec::new(alloc);
    let mut first = 0usize;
    for units in files {
        objects.push(object_words(alloc, first, *units, plans)?)?;
        first = first.saturating_add(*units);
    }
    Ok(objects)
}

/// The object file of so many units from this one on.
pub(crate) fn object_words(
    alloc: Global,
    first: usize,
    units: usize,
    plans: &[Plan],
) -> Result<Vec<u32>, AllocError> {
    let mut words = Vec::new(alloc);
    for unit in first..first.saturating_add(units) {
        words.extend_from_slice(&[0x3E7, 0])?;
        for plan in plans.iter().filter(|plan| plan.unit == unit) {
            push_hunk(&mut words, plan)?;
        }
    }
    Ok(words)
}

/// Adds the longwords of a hunk.
fn push_hunk(words: &mut Vec<u32>, plan: &Plan) -> Result<(), AllocError> {
    words.extend_from_slice(&[plan.block_type() | plan.memory_bits(), plan.size])?;
    words.extend_from_slice(&plan.content)?;
    push_relocations(words, plan)?;
    push_external_symbols(words, plan)?;
    push_information(words, plan)?;
    words.push(0x3F2)?;
    Ok(())
}

/// The sites stand in descending order of offset, so that this order is not that of the offsets.
fn push_relocations(words: &mut Vec<u32>, plan: &Plan) -> Result<(), AllocError> {
    words.push(0x3EC)?;
    for (offset, added) in plan.sites.iter().rev() {
        if let Added::Base(number) = *added {
            words.extend_from_slice(&[1, number, *offset])?;
        }
    }
    words.push(0)?;
    Ok(())
}

/// Likewise the references.
fn push_external_symbols(words: &mut Vec<u32>, plan: &Plan) -> Result<(), AllocError> {
    words.push(0x3EF)?;
    for (name, definition) in &plan.definitions {
        let (kind, value) = match *definition {
            Definition::At(offset) => (0x0100_0001, offset),
            Definition::Absolute(number) => (0x0200_0001, number),
        };
        words.extend_from_slice(&[kind, *name, value])?;
    }
    for (offset, added) in plan.sites.iter().rev() {
        if let Added::Name(name) = *added {
            words.extend_from_slice(&[0x8100_0001, name, 1, *offset])?;
        }
    }
    words.push(0)?;
    Ok(())
}

/// Adds the symbols and the debug blocks of a hunk. Without symbols there is no block of them.
pub(crate) fn push_information(words: &mut Vec<u32>, plan: &Plan) -> Result<(), AllocError> {
    if !plan.symbols.is_empty() {
        words.push(0x3F0)?;
        for (name, value) in &plan.symbols {
            words.extend_from_slice(&[1, *name, *value])?;
        }
        words.push(0)?;
    }
    for debug in &plan.debugs {
        let count = u32::try_from(debug.len()).unwrap_or(u32::MAX);
        words.extend_from_slice(&[0x3F1, count])?;
        words.extend_from_slice(debug)?;
    }
    Ok(())
}
