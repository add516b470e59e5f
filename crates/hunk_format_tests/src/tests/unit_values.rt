//! The expected units of an object file, as plain values.

use super::asserts::{equals, equals_at};
use hunk_objects::{Adds, Definition, HunkKind, Memory, ProgramUnit, UnitHunk};
use hunk_words::Name;
use std::alloc::Allocator;
use std::process::Abort;

/// A hunk of a program unit: what each of its readers returns.
#[derive(Clone, Copy, Debug)]
pub(crate) struct Hunk<'a> {
    pub(crate) name: &'a [u8],
    pub(crate) kind: HunkKind,
    pub(crate) memory: Memory,
    pub(crate) size: u32,
    pub(crate) content: &'a [u8],
    /// In ascending order of offset.
    pub(crate) sites: &'a [(u32, Adds)],
    pub(crate) references: &'a [&'a [u8]],
    pub(crate) definitions: &'a [(&'a [u8], Definition)],
    pub(crate) symbols: &'a [(&'a [u8], u32)],
    pub(crate) debugs: &'a [&'a [u32]],
}

/// Code of no longwords, and nothing else.
pub(crate) const EMPTY: Hunk<'static> = Hunk {
    name: b"",
    kind: HunkKind::Code,
    memory: Memory::Any,
    size: 0,
    content: &[],
    sites: &[],
    references: &[],
    definitions: &[],
    symbols: &[],
    debugs: &[],
};

/// A program unit.
#[derive(Clone, Copy, Debug)]
pub(crate) struct Unit<'a> {
    pub(crate) name: &'a [u8],
    pub(crate) hunks: &'a [Hunk<'a>],
}

/// These symbols are the expected ones.
fn are_symbols<A: Allocator + Copy>(
    rt: &impl Abort,
    symbols: &[(Name<A>, u32)],
    wanted: &Hunk<'_>,
) {
    equals_at(rt, &wanted, symbols.len(), wanted.symbols.len());
    for (index, (name, value)) in symbols.iter().enumerate() {
        let symbol = Some((name.bytes(), *value));
        equals_at(rt, &wanted, symbol, wanted.symbols.get(index).copied());
    }
}

/// These debug blocks are the expected ones.
fn are_debugs<A: Allocator + Copy>(rt: &impl Abort, debugs: &[Vec<u32, A>], wanted: &Hunk<'_>) {
    equals_at(rt, &wanted, debugs.len(), wanted.debugs.len());
    for (index, debug) in debugs.iter().enumerate() {
        let block = Some(debug.as_slice());
        equals_at(rt, &wanted, block, wanted.debugs.get(index).copied());
    }
}

/// The sites of a hunk are the expected ones.
fn has_sites<A: Allocator + Copy>(rt: &impl Abort, hunk: &UnitHunk<A>, wanted: &Hunk<'_>) {
    let mut walk = hunk.sites().walk();
    for (offset, adds) in wanted.sites {
        equals_at(rt, &wanted, walk.next(), Some((*offset, adds)));
    }
    equals_at(rt, &wanted, walk.next(), None);
}

/// The names that a hunk refers to are the expected ones.
fn are_references<A: Allocator + Copy>(rt: &impl Abort, references: &[Name<A>], wanted: &Hunk<'_>) {
    equals_at(rt, &wanted, references.len(), wanted.references.len());
    for (index, name) in references.iter().enumerate() {
        let bytes = Some(name.bytes());
        equals_at(rt, &wanted, bytes, wanted.references.get(index).copied());
    }
}

/// The names that a hunk defines are the expected ones.
fn are_definitions<A: Allocator + Copy>(
    rt: &impl Abort,
    definitions: &[(Name<A>, Definition)],
    wanted: &Hunk<'_>,
) {
    equals_at(rt, &wanted, definitions.len(), wanted.definitions.len());
    for (index, (name, definition)) in definitions.iter().enumerate() {
        let defined = Some((name.bytes(), *definition));
        equals_at(rt, &wanted, defined, wanted.definitions.get(index).copied());
    }
}

/// A hunk is this one.
fn is_hunk<A: Allocator + Copy>(rt: &impl Abort, hunk: &UnitHunk<A>, wanted: &Hunk<'_>) {
    equals_at(rt, &wanted, hunk.name().bytes(), wanted.name);
    equals_at(rt, &wanted, hunk.kind(), wanted.kind);
    equals_at(rt, &wanted, hunk.memory(), wanted.memory);
    equals_at(rt, &wanted, hunk.size(), wanted.size);
    equals_at(rt, &wanted, hunk.content(), wanted.content);
    equals_at(
        rt,
        &wanted,
        hunk.sites().limit(),
        wanted.content.len() as u64,
    );
    has_sites(rt, hunk, wanted);
    are_references(rt, hunk.references(), wanted);
    are_definitions(rt, hunk.definitions(), wanted);
    are_symbols(rt, hunk.symbols(), wanted);
    are_debugs(rt, hunk.debugs(), wanted);
}

/// The copies of a hunk's symbols and debug blocks are the expected ones.
pub(crate) fn is_copied<A: Allocator + Copy>(
    rt: &impl Abort,
    symbols: &[(Name<A>, u32)],
    debugs: &[Vec<u32, A>],
    wanted: &Hunk<'_>,
) {
    are_symbols(rt, symbols, wanted);
    are_debugs(rt, debugs, wanted);
}

/// A unit is this one.
fn is_unit<A: Allocator + Copy>(rt: &impl Abort, unit: &ProgramUnit<A>, wanted: &Unit<'_>) {
    equals_at(rt, &wanted, unit.name().bytes(), wanted.name);
    equals_at(rt, &wanted, unit.hunks().len(), wanted.hunks.len());
    for (index, want) in wanted.hunks.iter().enumerate() {
        if let Some(hunk) = unit.hunks().get(index) {
            is_hunk(rt, hunk, want);
        }
    }
}

/// These units are the expected ones.
pub(crate) fn are_units<A: Allocator + Copy>(
    rt: &impl Abort,
    units: &[ProgramUnit<A>],
    wanted: &[Unit<'_>],
) {
    equals(rt, units.len(), wanted.len());
    for (index, want) in wanted.iter().enumerate() {
        if let Some(unit) = units.get(index) {
            is_unit(rt, unit, want);
        }
    }
}
