//! The sites of one page of a hunk, in a list by rising offset.
ghost use Rattle.std.specs.Prelude.{◌≡◌, ◌≢◌, ℕ, ◌*◌, ◌<◌, ◌≤◌, ◌^◌, ◌↔◌, [], length, is_ok, if◌then◌else◌, IfOk, MatchBool};
ghost use Rattle.std.specs.Bool.{OnTrue};
ghost use Rattle.std.specs.BTreeMap.{insert_entry};
ghost use Rattle.std.specs.List.Sorted.{IsPartitionPoint};
ghost use Rattle.std.specs.Option.{option_copied};
ghost use Rattle.std.specs.Ordering.{nat_cmp};
ghost use Rattle.std.specs.Slice.Iter.{iter_rest};
ghost use Rattle.hunk_base.specs.Page.{AreSpaced, IsFreePlace, LieInPage};
ghost use Rattle.hunk_base.specs.Sites.{Meets, target_at};

use crate::page::{PAGE_BYTES, SITE_BYTES};
use crate::sites::SiteRefusal;
use crate::slots::Slots;
use std::alloc::{AllocError, Allocator};
use std::marker::Model;
use std::slice;

/// How many sites the first allocation of a list has room for at least.
const FIRST_SITES: usize = 3;

/// How many sites a list has before it is left for a table, where one more belongs before its last one. So
/// an insertion moves fewer sites than this.
pub const LONG_LIST: usize = 256;

/// How many more sites a full list gets room for, where the pages beside it have lists of `near` sites. The first
/// allocation has room for one more than these have, since most files spread their sites evenly. Later
/// ones double it; or they make room for half as many again as the pages beside it have, up to three
/// times what it has itself: in a file that has its offsets target by target, a page gets as many sites
/// from each target as those beside it have got, and they are one target ahead.
fn more_room(sites: usize, near: usize) -> usize {
    if sites == 0 {
        return FIRST_SITES.max(near.saturating_add(1));
    }
    let wanted = near.saturating_add(near / 2).saturating_add(FIRST_SITES);
    wanted
        .min(sites.saturating_mul(3))
        .saturating_sub(sites)
        .max(sites)
}

/// How many sites of a page begin before the offset, where they are spread evenly over the page.
fn likely_count(sites: usize, offset: u32) -> usize
    requires { 4 * sites < 2 ^ 33 }
    ensures { result ≤ sites }
{
    sites * (offset % PAGE_BYTES) as usize / PAGE_BYTES as usize
}

/// How many sites of a page begin before the offset. Most files spread them evenly, so a search from the
/// likely count takes a few steps, and reads sites that lie side by side. A binary search reads all over
/// the page, and in files whose relocations stand in no order it waits for memory at most of its steps.
/// The first site is looked at before: in files whose offsets fall, none begins before the offset.
fn count_below<T>(sites: &[(u32, T)], offset: u32) -> usize
    requires { AreSpaced sites.now }
    ensures within { result ≤ length sites.now }
    ensures parts { IsPartitionPoint (λ (site : ℕ × T). site.0 < offset)
        (λ (site : ℕ × T). offset ≤ site.0) sites.now result }
{
    match sites.first() {
        Some((first, _)) if *first < offset => (),
        _ => return 0,
    }
    let mut count = likely_count(sites.len(), offset);
    while count < sites.len() && sites[count].0 < offset {
        count += 1;
    }
    while 0 < count && offset <= sites[count - 1].0 {
        count -= 1;
    }
    count
}

/// Whether a site at the offset shares no byte with the two sites beside its place.
fn is_apart<T>(sites: &[(u32, T)], place: usize, offset: u32) -> bool
    requires spaced { AreSpaced sites.now }
    requires within { place ≤ length sites.now }
    requires parts { IsPartitionPoint (λ (site : ℕ × T). site.0 < offset)
        (λ (site : ℕ × T). offset ≤ site.0) sites.now place }
    ensures { MatchBool result (IsFreePlace sites.now offset place) (Meets sites.now offset) }
{
    if 0 < place && offset - sites[place - 1].0 < SITE_BYTES {
        return false;
    }
    if place < sites.len() && sites[place].0 - offset < SITE_BYTES {
        return false;
    }
    true
}

/// The sites of a page with their targets, by rising offset. No two share a byte.
#[derive(Debug, Drop)]
pub struct SiteList<T, A: Allocator + Copy> {
    sites: Vec<(u32, T), A>,
}

impl<T, A: Allocator + Copy> Model for SiteList<T, A> {
    ghost use Rattle.std.specs.Prelude.{ℕ, List};
    ghost use Rattle.hunk_base.specs.Page.{AreSpaced};

    ghost Value = { List (ℕ × T) };

    ghost view = { λ p. p.sites.items };

    ghost invariant = { λ p. AreSpaced p.sites.items };
}

impl<T, A: Allocator + Copy> SiteList<T, A> {
    /// A list without sites. It does not allocate.
    pub fn new(alloc: A) -> Self
        ensures { result ≡ [] }
    {
        SiteList {
            sites: Vec::new(alloc),
        }
    }

    /// The offsets and targets, by rising offset.
    pub fn iter(&self) -> slice::Iter<'_, (u32, T)>
        ensures rest { iter_rest result ≡ self.now }
        ensures spaced { AreSpaced self.now }
    {
        self.sites.iter()
    }
}

impl<T: Copy, A: Allocator + Copy> SiteList<T, A> {
    /// The number of sites that begin before the offset. In most files sites come by rising offset,
    /// so the last one is looked at first.
    fn count_before(&self, offset: u32) -> usize
        ensures within { result ≤ length self.now }
        ensures parts { IsPartitionPoint (λ (site : ℕ × T). site.0 < offset)
            (λ (site : ℕ × T). offset ≤ site.0) self.now result }
    {
        match self.sites.last() {
            Some((last, _)) if *last < offset => self.sites.len(),
            _ => count_below(&self.sites, offset),
        }
    }

    /// Whether a site at the offset shares no byte with a site of the list.
    pub fn is_free(&self, offset: u32) -> bool
        ensures { MatchBool result (Meets self.now offset → ⊥) (Meets self.now offset) }
    {
        is_apart(&self.sites, self.count_before(offset), offset)
    }

    /// Whether the list is long and a site at the offset belongs before its last one.
    pub fn is_crowded_at(&self, offset: u32) -> bool
        ensures { OnTrue result (0 < length self.now) }
    {
        match self.sites.last() {
            Some((last, _)) => LONG_LIST <= self.sites.len() && offset <= *last,
            None => false,
        }
    }

    /// Whether a site at the offset belongs behind all others.
    #[inline(always)]
    pub fn ends_before(&self, offset: u32) -> bool {
        match self.sites.last() {
            Some((last, _)) => *last < offset,
            None => true,
        }
    }

    /// The number of sites.
    pub fn len(&self) -> usize {
        self.sites.len()
    }

    /// The same sites in a table, if there are any.
    pub fn to_table(&self) -> Result<Slots<T, A>, AllocError>
        requires some { 0 < length self.now }
        requires in_page { (number : ℕ) × LieInPage number self.now }
        ensures { IfOk result (λ table. table ≡ self.now) }
    {
        Slots::of_sorted(*self.sites.allocator(), &self.sites)
    }

    /// Whether one more site needs an allocation.
    #[inline(always)]
    pub fn is_full(&self) -> bool {
        self.sites.len() == self.sites.capacity()
    }

    /// Makes room for more sites in a full list, where the pages beside it have lists of `near` sites. The
    /// list stays as it was, also if the allocation fails.
    pub fn make_room(&mut self, near: usize) -> Result<(), AllocError>
        ensures { self.new ≡ self.old }
    {
        self.sites.reserve_exact(more_room(self.sites.len(), near))
    }

    /// Adds a site, or returns `Overlap` where it would share a byte with a site of the list. In most
    /// files sites come by rising offset, so the last one is looked at first. If an allocation fails,
    /// the list stays as it was.
    #[inline(always)]
    pub fn add(&mut self, offset: u32, target: T) -> Result<(), SiteRefusal>
        ensures outside { result ≢ Err SiteRefusal.Outside }
        ensures overlap { (result ≡ Err SiteRefusal.Overlap) ↔ Meets self.old offset }
        ensures added { self.new ≡
            (if is_ok result then insert_entry nat_cmp self.old offset target else self.old) }
    {
        let added = match self.sites.last() {
            Some((last, _)) if *last < offset => {
                if offset - *last < SITE_BYTES {
                    return Err(SiteRefusal::Overlap);
                }
                self.sites.push((offset, target))
            }
            _ => {
                let place = count_below(&self.sites, offset);
                if !is_apart(&self.sites, place, offset) {
                    return Err(SiteRefusal::Overlap);
                }
                self.sites.insert(place, (offset, target))
            }
        };
        match added {
            Ok(()) => Ok(()),
            Err(_) => Err(SiteRefusal::OutOfMemory),
        }
    }

    /// The target of the site at an offset.
    pub fn get(&self, offset: u32) -> Option<&T>
        ensures { option_copied result ≡ target_at self.now offset }
    {
        match self.sites.get(self.count_before(offset)) {
            Some((start, target)) if *start == offset => Some(target),
            _ => None,
        }
    }
}
