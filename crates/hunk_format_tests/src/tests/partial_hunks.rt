//! The current hunk of a reader: its content and its sites.

use super::asserts::{equals, holds};
use hunk_test_support::Refusing;
use hunk_words::{PartialHunk, SiteRefusal};
use std::alloc::Allocator;
use std::process::Abort;
use std::test::Fail;

#[test]
fn keeps_content_alone(rt: HostRuntime) -> Result<(), Fail> {
    let mut hunk = PartialHunk::<u32>::new(rt.alloc(), 0);
    hunk.add_word(0x0102_0304)?;
    assert!(rt; hunk.begin_content(rt.alloc(), 8));
    hunk.add_word(0x4E71_4E75)?;
    hunk.end_content();
    hunk.add_word(0x0506_0708)?;
    equals(&rt, hunk.add_site(0, 1), Ok(()));
    let (content, sites) = hunk.into_parts();
    equals(&rt, content.as_slice(), [0x4E, 0x71, 0x4E, 0x75].as_slice());
    equals(&rt, sites.get(0).copied(), Some(1));
    Ok(())
}

#[test]
fn begins_once(rt: HostRuntime) -> Result<(), Fail> {
    let mut hunk = PartialHunk::new(rt.alloc(), 4);
    equals(&rt, hunk.add_site(0, 'a'), Ok(()));
    assert!(rt; !hunk.begin_content(rt.alloc(), 8));
    equals(&rt, hunk.limit(), 4);
    let room = Vec::with_capacity(rt.alloc(), 4)?;
    let mut hunk = PartialHunk::<char>::in_room(rt.alloc(), 4, room);
    hunk.add_word(1)?;
    assert!(rt; !hunk.begin_content(rt.alloc(), 8));
    equals(&rt, hunk.add_site(1, 'b'), Err(SiteRefusal::Outside));
    Ok(())
}

#[test]
fn content_stays_below_the_limit(rt: HostRuntime) -> Result<(), Fail> {
    let room = Vec::from_slice(rt.alloc(), &[9, 9, 9])?;
    let mut hunk = PartialHunk::<u32>::in_room(rt.alloc(), 6, room);
    hunk.add_word(0x0102_0304)?;
    assert!(rt; hunk.add_word(0x0506_0708).is_err());
    hunk.fill()?;
    let (content, _) = hunk.into_parts();
    equals(&rt, content.as_slice(), [1, 2, 3, 4, 0, 0].as_slice());
    Ok(())
}

/// Fills a hunk whose first allocation fails.
fn stays_as_it_was<A: Allocator + Copy>(rt: &impl Abort, alloc: A) -> Result<(), Fail> {
    let mut hunk = PartialHunk::<u32, A>::new(alloc, 0);
    holds(rt, &"not begun", hunk.begin_content(alloc, 8));
    holds(rt, &"filled", hunk.fill().is_err());
    hunk.add_word(0x0102_0304)?;
    hunk.fill()?;
    let (content, _) = hunk.into_parts();
    equals(rt, content.as_slice(), [1, 2, 3, 4, 0, 0, 0, 0].as_slice());
    Ok(())
}

#[test]
fn content_stays_as_it_was_where_it_cannot_be_filled(rt: HostRuntime) -> Result<(), Fail> {
    stays_as_it_was(&rt, &Refusing::new(rt.alloc(), 0))
}
