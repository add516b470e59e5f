//! The hunks of the load file.
ghost use Rattle.std.specs.Prelude.{◌≡◌, ℕ, ◌*◌, ◌+◌, ◌++◌, ◌≤◌, length, IfOk, OnOk};
ghost use Rattle.std.specs.List.{All};
ghost use Rattle.hunk_base.specs.Page.{LieWithin};
ghost use Rattle.hunk_base.specs.Sites.{StandFrom};
ghost use Rattle.hunk_loadfile.specs.Laws.{second_sites};
ghost use Rattle.hunk_loadfile.specs.Patching.{patched_bytes};
ghost use Rattle.hunk_link.specs.Addend.{addend_of};
ghost use Rattle.hunk_link.specs.Carried.{AddsKnown, AreCarried, IsKnown, carried_hunk, reference_count};
ghost use Rattle.hunk_link.specs.Limits.{IsHunkCount};
ghost use Rattle.hunk_link.specs.OwnHunks.{AllNameOwnHunks, sites_of};
ghost use Rattle.hunk_link.specs.Ranks.{IsRanked, hunks_of};

use crate::addend::{Addend, addend_of};
use crate::ranked_hunk::RankedHunk;
use hunk_loadfile::{LoadHunk, add_at};
use hunk_objects::{Adds, HunkParts, ProgramUnit, UnitHunk};
use hunk_words::{Sites, Walk};
use std::alloc::{AllocError, Allocator};

/// The hunks of the load file, with copies of what the units contain. `addends` is what all
/// references of the hunks add, in order.
pub(crate) fn copied_hunks<A: Allocator + Copy>(
    alloc: A,
    hunks: &[RankedHunk<'_, A>],
    addends: &[Addend],
    strip: bool,
) -> Result<Vec<LoadHunk<A>, A>, AllocError>
    requires ranks { All IsRanked hunks.now }
    requires own { AllNameOwnHunks (sites_of hunks.now) }
    requires counted { length addends.now ≡ reference_count hunks.now }
    ensures { IfOk result (λ made. AreCarried hunks.now addends.now strip made.items) }
{
    let mut carried = Vec::with_capacity(alloc, hunks.len())?;
    let mut next = 0;
    for ranked in hunks {
        let count = ranked.hunk.references().len();
        let own = &addends[next..next + count];
        carried.push_reserved(copied_hunk(alloc, ranked.hunk, ranked.first, own, strip)?);
        next += count;
    }
    Ok(carried)
}

/// The hunks of the load file, with what the units contain. There are `total` of them; `addends` is
/// what all references of the units add, in order.
pub(crate) fn moved_hunks<A: Allocator + Copy>(
    alloc: A,
    units: Vec<ProgramUnit<A>, A>,
    total: usize,
    addends: &[Addend],
    strip: bool,
) -> Result<Vec<LoadHunk<A>, A>, AllocError>
    requires total { total ≡ length (hunks_of units.items) }
    requires few { IsHunkCount (hunks_of units.items) }
    requires own { AllNameOwnHunks (sites_of (hunks_of units.items)) }
    requires counted { length addends.now ≡ reference_count (hunks_of units.items) }
    ensures { IfOk result (λ made. AreCarried (hunks_of units.items) addends.now strip made.items) }
{
    let mut carried = Vec::with_capacity(alloc, total)?;
    let mut next = 0;
    for unit in units {
        let first = carried.len() as u32;
        for hunk in unit.into_hunks() {
            let count = hunk.references().len();
            let own = &addends[next..next + count];
            carried.push_reserved(moved_hunk(alloc, hunk, first, own, strip)?);
            next += count;
        }
    }
    Ok(carried)
}

/// The hunk of the load file for one of a unit, with copies of its content, symbols and debug
/// blocks.
fn copied_hunk<A: Allocator + Copy>(
    alloc: A,
    hunk: &UnitHunk<A>,
    first: u32,
    references: &[Addend],
    strip: bool,
) -> Result<LoadHunk<A>, AllocError>
    requires { AddsKnown first (length references.now) hunk.now }
    ensures { IfOk result
        (λ carried. carried ≡ carried_hunk (addend_of first references.now) strip hunk.now) }
{
    let mut content = Vec::from_slice(alloc, hunk.content())?;
    let sites = copied_sites(
        alloc,
        &mut content,
        hunk.sites(),
        hunk.size(),
        first,
        references,
    )?;
    Ok(LoadHunk {
        kind: hunk.kind(),
        memory: hunk.memory(),
        size: hunk.size(),
        content,
        sites,
        symbols: if strip {
            Vec::new(alloc)
        } else {
            hunk.copy_symbols(alloc)?
        },
        debugs: if strip {
            Vec::new(alloc)
        } else {
            hunk.copy_debugs(alloc)?
        },
    })
}

/// The same with its own content, symbols and debug blocks.
fn moved_hunk<A: Allocator + Copy>(
    alloc: A,
    hunk: UnitHunk<A>,
    first: u32,
    references: &[Addend],
    strip: bool,
) -> Result<LoadHunk<A>, AllocError>
    requires { AddsKnown first (length references.now) hunk }
    ensures { IfOk result
        (λ carried. carried ≡ carried_hunk (addend_of first references.now) strip hunk) }
{
    let HunkParts {
        kind,
        memory,
        size,
        mut content,
        sites,
        mut symbols,
        mut debugs,
    } = hunk.into_parts();
    let sites = moved_sites(alloc, &mut content, sites, size, first, references)?;
    if strip {
        symbols = Vec::new(alloc);
        debugs = Vec::new(alloc);
    }
    Ok(LoadHunk {
        kind,
        memory,
        size,
        content,
        sites,
        symbols,
        debugs,
    })
}

/// Adds to the content, at each site, the number that is known, modulo 2^32; and gives the sites at
/// which a base is still to be added, in a hunk of `size` longwords.
fn copied_sites<A: Allocator + Copy>(
    alloc: A,
    content: &mut [u8],
    sites: &Sites<Adds, A>,
    size: u32,
    first: u32,
    references: &[Addend],
) -> Result<Sites<u32, A>, AllocError>
    requires inside { sites.now.limit ≤ length content.old }
    requires within { sites.now.limit ≤ 4 * size }
    requires known { All (λ site. IsKnown first (length references.now) site.1) sites.now.entries }
    ensures content { OnOk result (content.new ≡ patched_bytes (length content.old) content.old
        sites.now.entries (λ adds. (addend_of first references.now adds).known)) }
    ensures sites { IfOk result (λ left. left ≡ record {
      limit = 4 * size;
      entries = second_sites
          (λ adds. (addend_of first references.now adds).base) sites.now.entries;
    }) }
{
    let mut left = Sites::new(alloc, 4 * u64::from(size));
    carry(content, &mut left, sites.walk(), first, references)?;
    Ok(left)
}

/// The same, where each page of the sites is freed before the next one is walked over. So those that are
/// left take memory that the others had.
fn moved_sites<A: Allocator + Copy>(
    alloc: A,
    content: &mut [u8],
    sites: Sites<Adds, A>,
    size: u32,
    first: u32,
    references: &[Addend],
) -> Result<Sites<u32, A>, AllocError>
    requires inside { sites.limit ≤ length content.old }
    requires within { sites.limit ≤ 4 * size }
    requires known { All (λ site. IsKnown first (length references.now) site.1) sites.entries }
    ensures content { OnOk result (content.new ≡ patched_bytes (length content.old) content.old
        sites.entries (λ adds. (addend_of first references.now adds).known)) }
    ensures sites { IfOk result (λ left. left ≡ record {
      limit = 4 * size;
      entries = second_sites
          (λ adds. (addend_of first references.now adds).base) sites.entries;
    }) }
{
    let mut left = Sites::new(alloc, 4 * u64::from(size));
    for page in sites.into_pages() {
        carry(content, &mut left, page.walk(), first, references)?;
    }
    Ok(left)
}

/// Adds to the content, at each of these sites, the number that is known, modulo 2^32; and adds those at
/// which a base is still to be added to `left`, whose sites stand before them.
fn carry<A: Allocator + Copy>(
    content: &mut [u8],
    left: &mut Sites<u32, A>,
    sites: Walk<'_, Adds, A>,
    first: u32,
    references: &[Addend],
) -> Result<(), AllocError>
    requires behind { (from : ℕ) × LieWithin 0 from left.old.entries ×
        StandFrom from (length content.old) sites }
    requires known { All (λ site. IsKnown first (length references.now) site.1) sites }
    ensures content { OnOk result (content.new ≡ patched_bytes (length content.old) content.old
        sites.entry (λ adds. (addend_of first references.now adds).known)) }
    ensures left { OnOk result (left.new ≡ record left.old {
      entries = left.old.entries ++
          second_sites (λ adds. (addend_of first references.now adds).base) sites.entry;
    }) }
{
    for (offset, adds) in sites {
        let addend = addend_of(first, references, *adds);
        add_at(content, offset as usize, addend.known);
        if let Some(rank) = addend.base {
            if left.try_add(offset, rank).is_err() {
                return Err(AllocError);
            }
        }
    }
    Ok(())
}
