//! Whether hunks can be placed at given addresses, with memory for the search of two that share an
//! address.
//!
//! Hunks that are sorted by their bases stand one after the other exactly if no two of them share an
//! address. One walk tells that, also of the hunks below a limit alone, and the limit is halved: so
//! the lowest hunk that shares an address with an earlier one is found.

ghost use Rattle.std.specs.Prelude.{◌≡◌, ◌+◌, ◌<◌, ◌↔◌, length, slice_index, IfOk, IsOk, IsTrue, MatchOption};
ghost use Rattle.hunk_loader.specs.Overlaps.{AreInOrderBelow, AreRisingExtents, IsExtent};
ghost use Rattle.hunk_loader.specs.Places.{AllApart, IsFirstOverlap, IsFirstRefusal, Placed};

use crate::places::{PlaceFault, are_in_order, end_of, first_meeting, first_overlap};
use crate::sizes::Sizes;
use std::alloc::{AllocError, Allocator};

/// Checks whether hunks of these sizes, in longwords, can be placed at these bases, with the same
/// answer as [`check_places`](crate::check_places).
///
/// Where the nonempty hunks are neither in ascending nor in descending order, it allocates 24 bytes
/// for each hunk, and gives them back; its time is then `n log n` in their number. If that allocation
/// fails, it searches as `check_places` does.
///
/// # Errors
///
/// Those of [`check_places`](crate::check_places).
pub fn check_places_with<A: Allocator + Copy>(
    alloc: A,
    sizes: &[u32],
    bases: &[u32],
) -> Result<(), PlaceFault>
    ensures placed { IsOk result ↔ Placed sizes.now bases.now }
    ensures refused { (fault : PlaceFault) → (result ≡ Err fault)
        ↔ IsFirstRefusal sizes.now bases.now fault }
{
    check_sizes_with(alloc, &sizes, bases)
}

/// The same as [`check_places_with`], for sizes that come in another form.
pub fn check_sizes_with<A: Allocator + Copy, S: Sizes>(
    alloc: A,
    sizes: &S,
    bases: &[u32],
) -> Result<(), PlaceFault>
    ensures placed { IsOk result ↔ Placed (S.sizes sizes.now) bases.now }
    ensures refused { (fault : PlaceFault) → (result ≡ Err fault)
        ↔ IsFirstRefusal (S.sizes sizes.now) bases.now fault }
{
    if are_in_order(sizes, bases)? {
        return Ok(());
    }
    match find_overlap(alloc, sizes, bases) {
        Some((earlier, later)) => Err(PlaceFault::Overlap(earlier, later)),
        None => Ok(()),
    }
}

/// Where a hunk stands that is not empty.
#[derive(Clone, Copy)]
struct Extent {
    /// The first address that it takes.
    base: u32,
    /// The address after the last one.
    end: u64,
    /// Its number.
    hunk: usize,
}

/// The lowest hunk that shares an address with an earlier one, and before it in the pair the lowest
/// of these. Where no memory is given, it is searched for without.
fn find_overlap<A: Allocator + Copy, S: Sizes>(
    alloc: A,
    sizes: &S,
    bases: &[u32],
) -> Option<(usize, usize)>
    requires { length (S.sizes sizes.now) ≡ length bases.now }
    ensures { MatchOption result (AllApart (S.sizes sizes.now) bases.now)
        (λ pair. IsFirstOverlap (S.sizes sizes.now) bases.now pair.0 pair.1) }
{
    match rising_extents(alloc, sizes, bases) {
        Ok(extents) => overlap_among(&extents, sizes, bases),
        Err(AllocError) => first_overlap(sizes, bases),
    }
}

/// The extents of the hunks that are not empty, with rising bases.
fn rising_extents<A: Allocator + Copy, S: Sizes>(
    alloc: A,
    sizes: &S,
    bases: &[u32],
) -> Result<Vec<Extent, A>, AllocError>
    requires { length (S.sizes sizes.now) ≡ length bases.now }
    ensures { IfOk result
        (λ extents. AreRisingExtents (S.sizes sizes.now) bases.now extents.items) }
{
    let mut extents = Vec::with_capacity(alloc, bases.len())?;
    for hunk in 0..bases.len() {
        if let Some(extent) = extent_of(sizes, bases, hunk) {
            extents.push(extent)?;
        }
    }
    extents.sort_unstable_by_key(|extent| extent.base);
    Ok(extents)
}

/// Where a hunk stands, if it is not empty.
fn extent_of<S: Sizes>(sizes: &S, bases: &[u32], hunk: usize) -> Option<Extent>
    requires counted { length (S.sizes sizes.now) ≡ length bases.now }
    requires is_hunk { hunk < length bases.now }
    ensures { MatchOption result (slice_index (S.sizes sizes.now) hunk ≡ 0)
        (IsExtent (S.sizes sizes.now) bases.now hunk) }
{
    if sizes.size(hunk) == 0 {
        return None;
    }
    Some(Extent {
        base: bases[hunk],
        end: end_of(sizes, bases, hunk),
        hunk,
    })
}

/// The lowest hunk that shares an address with an earlier one, and the lowest of these, where the
/// extents of all hunks are known.
fn overlap_among<S: Sizes>(extents: &[Extent], sizes: &S, bases: &[u32]) -> Option<(usize, usize)>
    requires counted { length (S.sizes sizes.now) ≡ length bases.now }
    requires rising { AreRisingExtents (S.sizes sizes.now) bases.now extents.now }
    ensures { MatchOption result (AllApart (S.sizes sizes.now) bases.now)
        (λ pair. IsFirstOverlap (S.sizes sizes.now) bases.now pair.0 pair.1) }
{
    if are_in_order_below(extents, bases.len()) {
        return None;
    }
    let later = first_out_of_order(extents, bases.len());
    let earlier = first_meeting(sizes, bases, later)?;
    Some((earlier, later))
}

/// The lowest hunk that is not in order with those below it, where the first `hunks` hunks are not
/// all in order.
fn first_out_of_order(extents: &[Extent], hunks: usize) -> usize
    requires { ¬ AreInOrderBelow extents.now hunks }
    ensures is_hunk { result < hunks }
    ensures before { AreInOrderBelow extents.now result }
    ensures with { ¬ AreInOrderBelow extents.now (result + 1) }
{
    let mut low = 0;
    let mut high = hunks;
    while low + 1 < high {
        let middle = low + (high - low) / 2;
        if are_in_order_below(extents, middle) {
            low = middle;
        } else {
            high = middle;
        }
    }
    low
}

/// Whether, of the hunks below `limit`, each stands after all those that come before it in the list.
fn are_in_order_below(extents: &[Extent], limit: usize) -> bool
    ensures { IsTrue result ↔ AreInOrderBelow extents.now limit }
{
    let mut free = 0;
    for extent in extents {
        if extent.hunk < limit {
            if u64::from(extent.base) < free {
                return false;
            }
            free = extent.end.max(free);
        }
    }
    true
}
