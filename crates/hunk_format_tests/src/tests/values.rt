//! The expected hunks of a load file, as plain values.

use super::asserts::{equals, equals_at};
use hunk_loadfile::{HunkKind, LoadFile, LoadHunk, Memory};
use std::alloc::Allocator;
use std::process::Abort;

/// A hunk of a load file: each field of it.
#[derive(Clone, Copy, Debug)]
pub(crate) struct Hunk<'a> {
    pub(crate) kind: HunkKind,
    pub(crate) memory: Memory,
    pub(crate) size: u32,
    pub(crate) content: &'a [u8],
    /// Each offset and the hunk that is named there, in ascending order of offset.
    pub(crate) sites: &'a [(u32, u32)],
    pub(crate) symbols: &'a [(&'a [u8], u32)],
    pub(crate) debugs: &'a [&'a [u32]],
}

/// Code of no longwords, and nothing else.
pub(crate) const EMPTY: Hunk<'static> = Hunk {
    kind: HunkKind::Code,
    memory: Memory::Any,
    size: 0,
    content: &[],
    sites: &[],
    symbols: &[],
    debugs: &[],
};

/// The hunks of the file that is not in written form.
pub(crate) static SCATTERED_HUNKS: [Hunk<'static>; 2] = [
    Hunk {
        kind: HunkKind::Code,
        memory: Memory::Any,
        size: 3,
        content: &[0, 0, 0, 0, 0, 0, 0, 0, 0, 0, 0, 4],
        sites: &[(0, 1), (4, 0), (8, 1)],
        symbols: &[(b"A", 2)],
        debugs: &[&[0xCAFE_BABE]],
    },
    Hunk {
        kind: HunkKind::Bss,
        memory: Memory::Chip,
        size: 1,
        content: &[],
        sites: &[],
        symbols: &[],
        debugs: &[],
    },
];

/// The lists of a hunk for a debugger are these.
fn carries<A: Allocator + Copy>(rt: &impl Abort, hunk: &LoadHunk<A>, wanted: &Hunk<'_>) {
    equals_at(rt, &wanted, hunk.symbols.len(), wanted.symbols.len());
    for (index, (name, value)) in hunk.symbols.iter().enumerate() {
        let symbol = Some((name.bytes(), *value));
        equals_at(rt, &wanted, symbol, wanted.symbols.get(index).copied());
    }
    equals_at(rt, &wanted, hunk.debugs.len(), wanted.debugs.len());
    for (index, debug) in hunk.debugs.iter().enumerate() {
        let block = Some(debug.as_slice());
        equals_at(rt, &wanted, block, wanted.debugs.get(index).copied());
    }
}

/// The sites of a hunk are the expected ones.
fn has_sites<A: Allocator + Copy>(rt: &impl Abort, hunk: &LoadHunk<A>, wanted: &Hunk<'_>) {
    let mut walk = hunk.sites.walk();
    for (offset, target) in wanted.sites {
        equals_at(rt, &wanted, walk.next(), Some((*offset, target)));
    }
    equals_at(rt, &wanted, walk.next(), None);
}

/// A hunk is this one.
pub(crate) fn is_hunk<A: Allocator + Copy>(rt: &impl Abort, hunk: &LoadHunk<A>, wanted: &Hunk<'_>) {
    equals_at(rt, &wanted, hunk.kind, wanted.kind);
    equals_at(rt, &wanted, hunk.memory, wanted.memory);
    equals_at(rt, &wanted, hunk.size, wanted.size);
    equals_at(rt, &wanted, hunk.content.as_slice(), wanted.content);
    equals_at(
        rt,
        &wanted,
        hunk.sites.limit(),
        u64::from(wanted.size).saturating_mul(4),
    );
    has_sites(rt, hunk, wanted);
    carries(rt, hunk, wanted);
}

/// These hunks are the expected ones.
pub(crate) fn are_hunks<A: Allocator + Copy>(
    rt: &impl Abort,
    hunks: &[LoadHunk<A>],
    wanted: &[Hunk<'_>],
) {
    equals(rt, hunks.len(), wanted.len());
    for (index, want) in wanted.iter().enumerate() {
        if let Some(hunk) = hunks.get(index) {
            is_hunk(rt, hunk, want);
        }
    }
}

/// The hunks of a load file are the expected ones.
pub(crate) fn has_hunks<A: Allocator + Copy>(
    rt: &impl Abort,
    file: &LoadFile<A>,
    wanted: &[Hunk<'_>],
) {
    are_hunks(rt, file.hunks(), wanted);
}
