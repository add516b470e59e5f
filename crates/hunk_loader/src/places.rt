//! Whether the hunks of a load file can be placed at given addresses.
//!
//! Addresses run from 0 to 2^32 - 1. A hunk of `n` longwords takes the `4 * n` addresses from its
//! base; any address may be a base, even an odd one (own rule). A hunk of no longwords takes none.

ghost use Rattle.std.specs.Prelude.{◌≡◌, ◌<◌, ◌↔◌, length, IfErr, IfOk, IsOk, IsTrue, MatchOption, OnOk};
ghost use Rattle.hunk_loader.specs.Places.{end_of, hunk_at, ShareAddress, IsInOrder, IsInEitherOrder, IsLeastEarlier};
ghost use Rattle.hunk_loader.specs.Places.{Fit, Placed, IsFirstPastEnd, AllEndWithin, IsFirstOverlap};
ghost use Rattle.hunk_loader.specs.Places.{AllApart, ApartFromEarlier, IsFirstRefusal};

use crate::sizes::Sizes;
use thiserror::Error;

/// The number of addresses: 2^32.
const ADDRESSES: u64 = 0x1_0000_0000;

/// Why hunks cannot be placed. The numbers are those of hunks, from 0.
///
/// Of several faults the first in this order is returned (own rule).
#[derive(Clone, Copy, PartialEq, Eq, Debug, Error)]
pub enum PlaceFault {
    /// There are fewer or more bases than hunks.
    #[error("there is not one base for each hunk")]
    WrongCount,
    /// The lowest hunk that ends after the last address.
    #[error("hunk {0} ends behind the last address")]
    PastEnd(usize),
    /// Two hunks that share an address, the earlier one first: the later one is the lowest hunk
    /// that shares an address with an earlier one, and the earlier one is the lowest that it shares
    /// one with.
    #[error("hunks {0} and {1} share an address")]
    Overlap(usize, usize),
}

/// Checks whether hunks of these sizes, in longwords, can be placed at these bases, which are
/// addresses: one base for each hunk, no hunk past the last address, and no address in two hunks.
///
/// Does not allocate. If the nonempty hunks are in ascending order, or in descending order, the
/// time is linear in their number, otherwise quadratic. With an allocator
/// [`check_places_with`](crate::check_places_with) gives the same answer in less time, as the calls
/// that load a file do.
///
/// # Errors
///
/// - [`PlaceFault::WrongCount`] if the two lists differ in length.
/// - Otherwise [`PlaceFault::PastEnd`] with the lowest hunk that ends after address 2^32 - 1.
/// - Otherwise [`PlaceFault::Overlap`]: its second number is the lowest hunk that shares an address
///   with an earlier one, and its first number is the lowest of these earlier ones.
pub fn check_places(sizes: &[u32], bases: &[u32]) -> Result<(), PlaceFault>
    ensures placed { IsOk result ↔ Placed sizes.now bases.now }
    ensures refused { (fault : PlaceFault) → (result ≡ Err fault)
        ↔ IsFirstRefusal sizes.now bases.now fault }
{
    check_sizes(&sizes, bases)
}

/// The same as [`check_places`], for sizes that come in another form. Does not allocate.
pub fn check_sizes<S: Sizes>(sizes: &S, bases: &[u32]) -> Result<(), PlaceFault>
    ensures placed { IsOk result ↔ Placed (S.sizes sizes.now) bases.now }
    ensures refused { (fault : PlaceFault) → (result ≡ Err fault)
        ↔ IsFirstRefusal (S.sizes sizes.now) bases.now fault }
{
    if are_in_order(sizes, bases)? {
        return Ok(());
    }
    match first_overlap(sizes, bases) {
        Some((earlier, later)) => Err(PlaceFault::Overlap(earlier, later)),
        None => Ok(()),
    }
}

/// Whether the hunks are in ascending or in descending order, so that no two share an address.
///
/// # Errors
///
/// [`PlaceFault::WrongCount`] and [`PlaceFault::PastEnd`], as [`check_places`] returns them.
pub(crate) fn are_in_order<S: Sizes>(sizes: &S, bases: &[u32]) -> Result<bool, PlaceFault>
    ensures order { IfOk result
        (λ ordered. IsTrue ordered ↔ IsInEitherOrder (S.sizes sizes.now) bases.now) }
    ensures fit { OnOk result (Fit (S.sizes sizes.now) bases.now) }
    ensures refused { IfErr result (IsFirstRefusal (S.sizes sizes.now) bases.now) }
{
    if sizes.count() != bases.len() {
        return Err(PlaceFault::WrongCount);
    }
    if let Some(hunk) = first_past_end(sizes, bases) {
        return Err(PlaceFault::PastEnd(hunk));
    }
    if is_in_order(sizes, bases, Direction::Forward) {
        return Ok(true);
    }
    Ok(is_in_order(sizes, bases, Direction::Backward))
}

/// The address after the last one of a hunk; its base if it is empty.
pub(crate) fn end_of<S: Sizes>(sizes: &S, bases: &[u32], hunk: usize) -> u64
    requires sized { hunk < length (S.sizes sizes.now) }
    requires based { hunk < length bases.now }
    ensures { result ≡ end_of (S.sizes sizes.now) bases.now hunk }
{
    u64::from(bases[hunk]) + 4 * u64::from(sizes.size(hunk))
}

/// The lowest hunk that ends after the last address.
fn first_past_end<S: Sizes>(sizes: &S, bases: &[u32]) -> Option<usize>
    requires { length (S.sizes sizes.now) ≡ length bases.now }
    ensures { MatchOption result (AllEndWithin (S.sizes sizes.now) bases.now)
        (IsFirstPastEnd (S.sizes sizes.now) bases.now) }
{
    for hunk in 0..bases.len() {
        if end_of(sizes, bases, hunk) > ADDRESSES {
            return Some(hunk);
        }
    }
    None
}

/// From which end hunks are looked at.
#[derive(Clone, Copy)]
enum Direction {
    /// From the first one on.
    Forward,
    /// From the last one on.
    Backward,
}

/// The hunk, of `hunks`, that is looked at after `count` others.
fn hunk_at(direction: Direction, hunks: usize, count: usize) -> usize
    requires { count < hunks }
    ensures value { result ≡ hunk_at direction hunks count }
    ensures is_hunk { result < hunks }
{
    match direction {
        Direction::Forward => count,
        Direction::Backward => hunks - 1 - count,
    }
}

/// Whether each nonempty hunk stands after all nonempty ones that are looked at before it.
fn is_in_order<S: Sizes>(sizes: &S, bases: &[u32], direction: Direction) -> bool
    requires { length (S.sizes sizes.now) ≡ length bases.now }
    ensures { IsTrue result ↔ IsInOrder direction (S.sizes sizes.now) bases.now }
{
    let mut free = 0;
    for count in 0..bases.len() {
        let hunk = hunk_at(direction, bases.len(), count);
        if sizes.size(hunk) > 0 {
            if u64::from(bases[hunk]) < free {
                return false;
            }
            free = end_of(sizes, bases, hunk);
        }
    }
    true
}

/// The lowest hunk that shares an address with an earlier one, and before it in the pair the lowest
/// of these.
pub(crate) fn first_overlap<S: Sizes>(sizes: &S, bases: &[u32]) -> Option<(usize, usize)>
    requires { length (S.sizes sizes.now) ≡ length bases.now }
    ensures { MatchOption result (AllApart (S.sizes sizes.now) bases.now)
        (λ pair. IsFirstOverlap (S.sizes sizes.now) bases.now pair.0 pair.1) }
{
    for later in 0..bases.len() {
        if let Some(earlier) = first_meeting(sizes, bases, later) {
            return Some((earlier, later));
        }
    }
    None
}

/// The lowest of the hunks before `later` that share an address with it.
pub(crate) fn first_meeting<S: Sizes>(sizes: &S, bases: &[u32], later: usize) -> Option<usize>
    requires counted { length (S.sizes sizes.now) ≡ length bases.now }
    requires is_hunk { later < length bases.now }
    ensures { MatchOption result (ApartFromEarlier (S.sizes sizes.now) bases.now later)
        (λ earlier. IsLeastEarlier (S.sizes sizes.now) bases.now earlier later) }
{
    for earlier in 0..later {
        if share_address(sizes, bases, earlier, later) {
            return Some(earlier);
        }
    }
    None
}

/// Whether two hunks share an address: whether the greater base is below the lower end.
fn share_address<S: Sizes>(sizes: &S, bases: &[u32], one: usize, other: usize) -> bool
    requires counted { length (S.sizes sizes.now) ≡ length bases.now }
    requires one_is_hunk { one < length bases.now }
    requires other_is_hunk { other < length bases.now }
    ensures { IsTrue result ↔ ShareAddress (S.sizes sizes.now) bases.now one other }
{
    let base = u64::from(bases[one].max(bases[other]));
    let end = end_of(sizes, bases, one).min(end_of(sizes, bases, other));
    base < end
}
