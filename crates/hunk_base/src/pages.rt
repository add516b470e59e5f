//! The sites of a hunk, in pages.
//!
//! A page is 4,096 bytes of the hunk, and a site belongs to the page that it begins in. So a page has
//! at most 1,024 sites, and only sites of the same page and of the two beside it can share a byte.
ghost use Rattle.std.specs.Prelude.{◌≡◌, ◌≢◌, ◌/◌, ◌^◌, ◌<◌, ◌↔◌, is_ok, if◌then◌else◌, MatchBool, OnOk, vec_len};
ghost use Rattle.std.specs.Bool.{OnFalse, OnTrue};
ghost use Rattle.std.specs.BTreeMap.{insert_entry};
ghost use Rattle.std.specs.Option.{option_copied};
ghost use Rattle.std.specs.Ordering.{nat_cmp};
ghost use Rattle.hunk_base.specs.Pages.{LieInPages, AppendsEmptyPages, all_sites, page_at};
ghost use Rattle.hunk_base.specs.Sites.{Meets, target_at};

use crate::page::{PAGE_BYTES, Page, SITE_BYTES};
use crate::sites::SiteRefusal;
use std::alloc::{AllocError, Allocator};

/// How far the last byte of a site lies from its first one.
const LAST_BYTE: u64 = SITE_BYTES as u64 - 1;

/// The number of the page that a byte of the hunk belongs to.
fn page_number(byte: u64) -> usize
    ensures { result ≡ byte / 4096 }
{
    (byte / u64::from(PAGE_BYTES)) as usize
}

/// Whether a site at the offset shares no byte with the sites of one page.
fn is_free_in<T: Copy, A: Allocator + Copy>(
    pages: &[Page<T, A>],
    number: usize,
    offset: u32,
) -> bool
    ensures { MatchBool result (Meets (page_at pages.now number) offset → ⊥)
        (Meets (page_at pages.now number) offset) }
{
    match pages.get(number) {
        Some(page) => page.is_free(offset),
        None => true,
    }
}

/// The same with a page beside that of the offset, which is seldom asked for.
#[inline(never)]
fn is_free_far<T: Copy, A: Allocator + Copy>(
    pages: &[Page<T, A>],
    number: usize,
    offset: u32,
) -> bool
    ensures { MatchBool result (Meets (page_at pages.now number) offset → ⊥)
        (Meets (page_at pages.now number) offset) }
{
    is_free_in(pages, number, offset)
}

/// Whether a site at the offset shares no byte with the sites of the pages beside its own. It can share
/// one with them only within three bytes of either end of its page.
fn is_free_beside<T: Copy, A: Allocator + Copy>(pages: &[Page<T, A>], offset: u32) -> bool
    requires { LieInPages 0 pages.now }
    ensures free { OnTrue result
        (Meets (all_sites pages.now) offset → Meets (page_at pages.now (offset / 4096)) offset) }
    ensures meets { OnFalse result (Meets (all_sites pages.now) offset) }
{
    let number = page_number(u64::from(offset));
    let first = page_number(u64::from(offset).saturating_sub(LAST_BYTE));
    if first < number && !is_free_far(pages, first, offset) {
        return false;
    }
    let last = page_number(u64::from(offset) + LAST_BYTE);
    if number < last && !is_free_far(pages, last, offset) {
        return false;
    }
    true
}

/// Appends empty pages up to the one with the number. Where they are moved, room is made for a quarter
/// more: they are seldom moved, and a page takes at most 80 bytes beside its sites.
fn grow_to<T: Copy, A: Allocator + Copy>(
    pages: &mut Vec<Page<T, A>, A>,
    number: usize,
) -> Result<(), AllocError>
    requires { number < 2 ^ 32 }
    ensures reached { OnOk result (number < vec_len pages.new) }
    ensures extends { AppendsEmptyPages pages.old.items pages.new.items }
{
    let count = pages.len();
    if pages.capacity() <= number {
        pages.reserve_exact(number + 1 - count + count / 4)?;
    }
    let alloc = *pages.allocator();
    while pages.len() <= number {
        pages.push(Page::new(alloc))?;
    }
    Ok(())
}

/// How many sites the list of a page has, or 0 where there is no such page.
fn count_in<T: Copy, A: Allocator + Copy>(pages: &[Page<T, A>], number: usize) -> usize {
    match pages.get(number) {
        Some(page) => page.list_len(),
        None => 0,
    }
}

/// How many sites the lists of the pages beside a page have, by which it gets its room: as many as that of
/// the page before has. In a file whose offsets fall it is the pages after that have sites: there it is
/// the fewer of what the next two have. So a page with many sites and few in the page after it is the
/// measure of that one alone, and all lists together have memory for at most three times the sites.
fn count_beside<T: Copy, A: Allocator + Copy>(pages: &[Page<T, A>], number: usize) -> usize {
    let before = count_in(pages, number.wrapping_sub(1));
    let next = count_in(pages, number.wrapping_add(1));
    let second = count_in(pages, number.wrapping_add(2));
    before.max(next.min(second))
}

/// Appends empty pages up to the one with the number, and makes room for more sites in that one.
#[inline(never)]
fn grow<T: Copy, A: Allocator + Copy>(
    pages: &mut Vec<Page<T, A>, A>,
    number: usize,
) -> Result<(), AllocError>
    requires { number < 2 ^ 32 }
    ensures reached { OnOk result (number < vec_len pages.new) }
    ensures extends { AppendsEmptyPages pages.old.items pages.new.items }
{
    grow_to(pages, number)?;
    let near = count_beside(pages, number);
    pages[number].make_room(near)
}

/// Adds a site to the page with the number, whose list is full or which is not there yet. An overlap is
/// told before memory is asked for.
#[inline(never)]
fn grow_and_add<T: Copy, A: Allocator + Copy>(
    pages: &mut Vec<Page<T, A>, A>,
    number: usize,
    offset: u32,
    target: T,
) -> Result<(), SiteRefusal>
    requires in_pages { LieInPages 0 pages.old.items }
    requires number { number ≡ offset / 4096 }
    ensures in_pages { LieInPages 0 pages.new.items }
    ensures outside { result ≢ Err SiteRefusal.Outside }
    ensures overlap { (result ≡ Err SiteRefusal.Overlap) ↔
        Meets (page_at pages.old.items number) offset }
    ensures added { all_sites pages.new.items ≡ (if is_ok result then insert_entry nat_cmp
        (all_sites pages.old.items) offset target else all_sites pages.old.items) }
{
    if !is_free_in(pages, number, offset) {
        return Err(SiteRefusal::Overlap);
    }
    if grow(pages, number).is_err() {
        return Err(SiteRefusal::OutOfMemory);
    }
    pages[number].add(offset, target)
}

/// Adds a site to its page, or returns `Overlap` where it would share a byte with another site, which
/// may belong to a page beside. If an allocation fails, the sites stay as they were.
pub fn add<T: Copy, A: Allocator + Copy>(
    pages: &mut Vec<Page<T, A>, A>,
    offset: u32,
    target: T,
) -> Result<(), SiteRefusal>
    requires { LieInPages 0 pages.old.items }
    ensures in_pages { LieInPages 0 pages.new.items }
    ensures outside { result ≢ Err SiteRefusal.Outside }
    ensures overlap { (result ≡ Err SiteRefusal.Overlap) ↔
        Meets (all_sites pages.old.items) offset }
    ensures added { all_sites pages.new.items ≡ (if is_ok result then insert_entry nat_cmp
        (all_sites pages.old.items) offset target else all_sites pages.old.items) }
{
    if !is_free_beside(pages, offset) {
        return Err(SiteRefusal::Overlap);
    }
    let number = page_number(u64::from(offset));
    match pages.get_mut(number) {
        Some(page) if !page.needs_room_at(offset) => page.add(offset, target),
        _ => grow_and_add(pages, number, offset, target),
    }
}

/// The target of the site at an offset.
pub fn get<T: Copy, A: Allocator + Copy>(pages: &[Page<T, A>], offset: u32) -> Option<&T>
    requires { LieInPages 0 pages.now }
    ensures { option_copied result ≡ target_at (all_sites pages.now) offset }
{
    match pages.get(page_number(u64::from(offset))) {
        Some(page) => page.get(offset),
        None => None,
    }
}
