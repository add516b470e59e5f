//! Sites, also across the ends of pages and beside a plain map.

use super::asserts::{equals, equals_at};
use hunk_words::{SiteRefusal, Sites};
use std::collections::BTreeMap;
use std::test::Fail;

#[test]
fn takes_sites_that_touch(rt: HostRuntime) -> Result<(), Fail> {
    let mut sites = Sites::new(rt.alloc(), 8);
    equals(&rt, sites.try_add(4, 'b'), Ok(()));
    equals(&rt, sites.try_add(0, 'a'), Ok(()));
    equals(&rt, sites.limit(), 8);
    equals(&rt, sites.get(4).copied(), Some('b'));
    equals(&rt, sites.get(2).copied(), None);
    let mut walked = Vec::new(rt.alloc());
    for (offset, target) in sites.walk() {
        walked.push((offset, *target))?;
    }
    equals(&rt, walked.as_slice(), [(0, 'a'), (4, 'b')].as_slice());
    Ok(())
}

#[test]
fn refuses_what_overlaps_or_stands_outside(rt: HostRuntime) -> Result<(), Fail> {
    let mut sites = Sites::new(rt.alloc(), 12);
    equals(&rt, sites.try_add(4, 1u32), Ok(()));
    for offset in [1, 2, 3, 4, 5, 6, 7] {
        equals(&rt, sites.try_add(offset, 2), Err(SiteRefusal::Overlap));
    }
    equals(&rt, sites.try_add(9, 2), Err(SiteRefusal::Outside));
    equals(&rt, sites.try_add(u32::MAX, 2), Err(SiteRefusal::Outside));
    let mut walk = sites.walk();
    equals(&rt, walk.next(), Some((4, &1)));
    equals(&rt, walk.next(), None);
    Ok(())
}

#[test]
fn judges_the_limit_before_an_overlap(rt: HostRuntime) -> Result<(), Fail> {
    let mut sites = Sites::new(rt.alloc(), 8);
    equals(&rt, sites.try_add(4, ()), Ok(()));
    equals(&rt, sites.try_add(5, ()), Err(SiteRefusal::Outside));
    let text = format!(in rt.alloc(); "{}", SiteRefusal::Outside)?;
    equals(&rt, text.as_str(), "the site does not lie inside its hunk");
    Ok(())
}

#[test]
fn finds_an_overlap_across_the_end_of_a_page(rt: HostRuntime) -> Result<(), Fail> {
    for (low, high) in [(4093, 4096), (4094, 4096), (4095, 4098), (8191, 8192)] {
        for (first, second) in [(low, high), (high, low)] {
            let mut sites = Sites::new(rt.alloc(), 16384);
            equals(&rt, sites.try_add(first, 'a'), Ok(()));
            equals(&rt, sites.try_add(second, 'b'), Err(SiteRefusal::Overlap));
            let mut walk = sites.walk();
            equals(&rt, walk.next(), Some((first, &'a')));
            equals(&rt, walk.next(), None);
        }
    }
    Ok(())
}

#[test]
fn adds_sites_that_touch_across_the_end_of_a_page(rt: HostRuntime) -> Result<(), Fail> {
    for (low, high) in [(4092, 4096), (4094, 4098), (4095, 4099)] {
        for (first, second) in [(low, high), (high, low)] {
            let mut sites = Sites::new(rt.alloc(), 16384);
            equals(&rt, sites.try_add(first, first), Ok(()));
            equals(&rt, sites.try_add(second, second), Ok(()));
            let mut walk = sites.walk();
            equals(&rt, walk.next(), Some((low, &low)));
            equals(&rt, walk.next(), Some((high, &high)));
            equals(&rt, walk.next(), None);
        }
    }
    Ok(())
}

/// A hunk of 200 pages, whose last page is not whole.
const LIMIT: u32 = 204_000;

/// The next number of a linear congruential generator. Its high bits are the random ones.
fn random_after(state: u32) -> u32 {
    state.wrapping_mul(1_664_525).wrapping_add(1_013_904_223)
}

/// Adds a site to a plain map, by the rule for its neighbours.
fn add_plainly(
    plain: &mut BTreeMap<u32, u32>,
    offset: u32,
    target: u32,
) -> Result<(), SiteRefusal> {
    if LIMIT < offset.saturating_add(4) {
        return Err(SiteRefusal::Outside);
    }
    let near = offset.saturating_sub(3)..offset.saturating_add(4);
    if plain.range(near).next().is_some() {
        return Err(SiteRefusal::Overlap);
    }
    match plain.insert(offset, target) {
        Ok(_) => Ok(()),
        Err(_) => Err(SiteRefusal::OutOfMemory),
    }
}

#[test]
fn agrees_with_a_plain_map_at_random_offsets(rt: HostRuntime) -> Result<(), Fail> {
    let mut sites = Sites::new(rt.alloc(), u64::from(LIMIT));
    let mut plain = BTreeMap::new(rt.alloc());
    let mut state = 1;
    for target in 0..100_000u32 {
        state = random_after(state);
        let offset = (state >> 8) % (LIMIT + 8);
        let answer = add_plainly(&mut plain, offset, target);
        equals_at(
            &rt,
            &("offset", offset),
            sites.try_add(offset, target),
            answer,
        );
    }
    let mut walk = sites.walk();
    for (offset, target) in &plain {
        equals(&rt, sites.get(*offset), Some(target));
        equals(&rt, walk.next(), Some((*offset, target)));
    }
    equals(&rt, walk.next(), None);
    Ok(())
}
