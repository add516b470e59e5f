//! Load files that are made of plain values.

use super::values::Hunk;
use hunk_loadfile::{LoadFile, LoadHunk};
use hunk_words::{Name, SiteRefusal, Sites};
use std::alloc::{AllocError, Allocator};
use std::test::Fail;

/// The sites of a hunk.
fn sites_of<A: Allocator + Copy>(alloc: A, hunk: &Hunk<'_>) -> Result<Sites<u32, A>, SiteRefusal> {
    let mut sites = Sites::new(alloc, 4 * u64::from(hunk.size));
    for (offset, target) in hunk.sites {
        sites.try_add(*offset, *target)?;
    }
    Ok(sites)
}

/// These symbols, each a name of one longword and a value.
fn symbols_of<A: Allocator + Copy>(
    alloc: A,
    rows: &[(u32, u32)],
) -> Result<Vec<(Name<A>, u32), A>, Fail> {
    let mut symbols = Vec::new(alloc);
    for (name, value) in rows {
        symbols.push((Name::from_words(alloc, &[*name])?, *value))?;
    }
    Ok(symbols)
}

/// These debug blocks.
fn debugs_of<A: Allocator + Copy>(
    alloc: A,
    rows: &[&[u32]],
) -> Result<Vec<Vec<u32, A>, A>, AllocError> {
    let mut debugs = Vec::new(alloc);
    for row in rows {
        debugs.push(Vec::from_slice(alloc, row)?)?;
    }
    Ok(debugs)
}

/// The hunk of these fields, with these symbols, each a name of one longword and a value, and these
/// debug blocks.
pub(crate) fn hunk_with<A: Allocator + Copy>(
    alloc: A,
    row: &Hunk<'_>,
    symbols: &[(u32, u32)],
    debugs: &[&[u32]],
) -> Result<LoadHunk<A>, Fail> {
    Ok(LoadHunk {
        kind: row.kind,
        memory: row.memory,
        size: row.size,
        content: Vec::from_slice(alloc, row.content)?,
        sites: sites_of(alloc, row)?,
        symbols: symbols_of(alloc, symbols)?,
        debugs: debugs_of(alloc, debugs)?,
    })
}

/// The hunks of these fields, without symbols and debug blocks.
fn hunks_of<A: Allocator + Copy>(alloc: A, rows: &[Hunk<'_>]) -> Result<Vec<LoadHunk<A>, A>, Fail> {
    let mut hunks = Vec::new(alloc);
    for row in rows {
        hunks.push(hunk_with(alloc, row, &[], &[])?)?;
    }
    Ok(hunks)
}

/// The load file of these hunks, without symbols and debug blocks.
pub(crate) fn file_of_hunks<A: Allocator + Copy>(
    alloc: A,
    rows: &[Hunk<'_>],
) -> Result<LoadFile<A>, Fail> {
    file_of_parts(hunks_of(alloc, rows)?)
}

/// The load file of these hunks.
pub(crate) fn file_of_parts<A: Allocator + Copy>(
    hunks: Vec<LoadHunk<A>, A>,
) -> Result<LoadFile<A>, Fail> {
    match LoadFile::new(hunks) {
        Ok(file) => Ok(file),
        Err(refusal) => Err(refusal.fault.into()),
    }
}
