//! The sites of all hunks of a file, in lists.
ghost use Rattle.std.specs.Prelude.{◌≡◌, ◌∷◌, [], map, IfOk};
ghost use Rattle.amihunk_c.specs.Looked.{listed, load_hunk_sites, sites_listed, unit_hunk_sites, unit_sites};

use crate::told::SiteTold;
use hunk_loadfile::LoadHunk;
use hunk_objects::{ProgramUnit, UnitHunk};
use std::alloc::{AllocError, Global};

/// The sites of each hunk of each unit.
pub(crate) fn units_sites(
    alloc: Global,
    units: &[ProgramUnit],
) -> Result<Vec<Vec<Vec<SiteTold>>>, AllocError>
    ensures { IfOk result (λ lists. listed lists.items ≡ map unit_sites units.now) }
{
    let mut lists = Vec::with_capacity(alloc, units.len())?;
    for unit in units {
        lists.push(hunks_sites(alloc, unit.hunks())?)?;
    }
    Ok(lists)
}

/// The sites of each of these hunks of a unit.
fn hunks_sites(alloc: Global, hunks: &[UnitHunk]) -> Result<Vec<Vec<SiteTold>>, AllocError>
    ensures { IfOk result (λ lists. sites_listed lists.items ≡ map unit_hunk_sites hunks.now) }
{
    let mut lists = Vec::with_capacity(alloc, hunks.len())?;
    for hunk in hunks {
        lists.push(unit_hunk_sites(alloc, hunk)?)?;
    }
    Ok(lists)
}

/// The sites of a hunk of a unit.
fn unit_hunk_sites(alloc: Global, hunk: &UnitHunk) -> Result<Vec<SiteTold>, AllocError>
    ensures { IfOk result (λ sites. sites.items ≡ unit_hunk_sites hunk.now) }
{
    let mut sites = Vec::new(alloc);
    for (offset, adds) in hunk.sites().walk() {
        sites.push(SiteTold::of_unit(offset, *adds))?;
    }
    Ok(sites)
}

/// The sites of each hunk of a load file, as those of one unit.
pub(crate) fn load_sites(
    alloc: Global,
    hunks: &[LoadHunk],
) -> Result<Vec<Vec<Vec<SiteTold>>>, AllocError>
    ensures { IfOk result (λ lists. listed lists.items ≡ map load_hunk_sites hunks.now ∷ []) }
{
    let mut lists = Vec::with_capacity(alloc, hunks.len())?;
    for hunk in hunks {
        lists.push(load_hunk_sites(alloc, hunk)?)?;
    }
    let mut units = Vec::with_capacity(alloc, 1)?;
    units.push_reserved(lists);
    Ok(units)
}

/// The sites of a hunk of a load file.
fn load_hunk_sites(alloc: Global, hunk: &LoadHunk) -> Result<Vec<SiteTold>, AllocError>
    ensures { IfOk result (λ sites. sites.items ≡ load_hunk_sites hunk.now) }
{
    let mut sites = Vec::new(alloc);
    for (offset, target) in hunk.sites.walk() {
        sites.push(SiteTold::of_load(offset, *target))?;
    }
    Ok(sites)
}
