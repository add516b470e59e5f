//! Allocations of a map of sites that fail, each in turn.

use super::asserts::{equals, holds};
use hunk_test_support::Refusing;
use hunk_words::{SiteRefusal, Sites};
use std::alloc::{Allocator, Global};
use std::process::Abort;
use std::test::Fail;

/// More allocations than the sites ask for.
const MOST_ALLOCATIONS: u64 = 64;

/// Sites of four pages of 4,096 bytes: a page after the others, one before, sites that fill its first blocks, and one
/// that ends in the page after its own.
const OFFSETS: [u32; 9] = [8192, 0, 4, 8, 12, 16, 8188, 4093, 36000];

/// Whether the map has these sites alone. The target of each is its offset.
fn has_sites<A: Allocator + Copy>(sites: &Sites<u32, A>, offsets: &[u32]) -> bool {
    for offset in offsets {
        if sites.get(*offset) != Some(offset) {
            return false;
        }
    }
    sites.walk().count() == offsets.len()
}

/// Adds these sites while one allocation fails. The call that fails leaves the sites as they were, and the
/// next one adds the site.
fn adds_sites<A: Allocator + Copy>(
    rt: &impl Abort,
    mut sites: Sites<u32, A>,
    offsets: &[u32],
    refused: u64,
) {
    for (number, offset) in offsets.iter().enumerate() {
        let before = &offsets[..number];
        match sites.try_add(*offset, *offset) {
            Ok(()) => {}
            Err(refusal) => {
                equals(rt, refusal, SiteRefusal::OutOfMemory);
                holds(rt, &("allocation", refused), has_sites(&sites, before));
                equals(rt, sites.try_add(*offset, *offset), Ok(()));
            }
        }
    }
    holds(rt, &("allocation", refused), has_sites(&sites, offsets));
}

/// Adds these sites while this allocation fails, and returns how many were asked for.
fn allocations_of_adding(rt: &impl Abort, alloc: Global, offsets: &[u32], refused: u64) -> u64 {
    let heap = Refusing::new(alloc, refused);
    let sites = Sites::new(&heap, 36004);
    equals(rt, heap.asked(), 0);
    adds_sites(rt, sites, offsets, refused);
    heap.asked()
}

/// Adds these sites while each allocation fails in turn. There are at least so many of them.
fn refuses_each_allocation(rt: &impl Abort, alloc: Global, offsets: &[u32], fewest: u64) {
    for refused in 0..MOST_ALLOCATIONS {
        if allocations_of_adding(rt, alloc, offsets, refused) <= refused {
            holds(rt, &("allocations", refused), fewest <= refused);
            return;
        }
    }
    let row = (
        "each of runs had an allocation that failed",
        MOST_ALLOCATIONS,
    );
    holds(rt, &row, false);
}

#[test]
fn adds_sites_with_each_allocation_refused(rt: HostRuntime) {
    // the directory twice, its four pages, and one more block of the first page
    refuses_each_allocation(&rt, rt.alloc(), &OFFSETS, 7);
}

#[test]
fn goes_over_to_a_table_with_each_allocation_refused(rt: HostRuntime) -> Result<(), Fail> {
    let mut falling = Vec::new(rt.alloc());
    for number in 0..300u32 {
        falling.push(4 * (299 - number))?;
    }
    // the directory, eight blocks of the list, from 3 to 384 sites, and the marks and targets of the table
    refuses_each_allocation(&rt, rt.alloc(), &falling, 11);
    Ok(())
}
