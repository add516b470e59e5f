//! The sites of a hunk, which are relocated or refer to a name.
ghost use Rattle.std.specs.Prelude.{◌≡◌, ℕ, ◌+◌, ◌*◌, ◌<◌, ◌≤◌, ◌==◌, [], length, if◌then◌else◌, Some, OnOk, OnErr, ◌↔◌};
ghost use Rattle.std.specs.BTreeMap.{insert_entry};
ghost use Rattle.std.specs.Iterator.{at_most};
ghost use Rattle.std.specs.Map.Iter.{TakesFirst, ShowsInOrder, ShowsValuesInOrder};
ghost use Rattle.std.specs.Option.{option_copied};
ghost use Rattle.std.specs.Ordering.{nat_cmp};
ghost use Rattle.hunk_base.specs.Pages.{all_sites};
ghost use Rattle.hunk_base.specs.Sites.{AreApart, Meets, site_shown, target_at};

use crate::page::{Page, SITE_BYTES};
use crate::pages;
use crate::slots::SlotsIter;
use std::alloc::{Allocator, Global};
use std::marker::Model;
use std::slice;
use thiserror::Error;

/// Why a site was not added.
#[derive(Clone, Copy, Debug, PartialEq, Eq, Error)]
pub enum SiteRefusal {
    /// The four bytes from the offset do not lie below the limit.
    #[error("the site does not lie inside its hunk")]
    Outside,
    /// One of the four bytes belongs to another site.
    #[error("the site shares a byte with another one")]
    Overlap,
    /// An allocation failed.
    #[error("out of memory")]
    OutOfMemory,
}

/// The sites of a hunk: a map from offsets, in bytes, to targets. A site is the four bytes from its
/// offset. It lies below the limit, and no two sites share a byte.
///
/// Relocation is that of The AmigaDOS Manual, 3rd edition, "Amiga binary file structure". That
/// sites may not share a byte is a rule of our own, since the sum would depend on the order.
///
/// A site is added in constant time, amortised, in whatever order the offsets come. Memory grows with
/// the highest offset and the number of sites, and does not depend on the limit.
#[derive(Debug, Drop)]
pub struct Sites<T, A: Allocator + Copy = Global> {
    limit: u64,
    pages: Vec<Page<T, A>, A>,
}

impl<T, A: Allocator + Copy> Model for Sites<T, A> {
    ghost use Rattle.std.specs.Prelude.{◌^◌, ◌<◌};
    ghost use Rattle.hunk_base.specs.Pages.{LieInPages, all_sites};
    ghost use Rattle.hunk_base.specs.Sites.{SiteMap, StandFrom};

    ghost Value = { SiteMap T };

    ghost view = { λ s. record { limit = s.limit; entries = all_sites s.pages.items } };

    ghost invariant = { λ s. StandFrom 0 s.limit (all_sites s.pages.items) ×
        LieInPages 0 s.pages.items × (s.limit < 2 ^ 64) };
}

impl<T: Copy, A: Allocator + Copy> Sites<T, A> {
    /// No sites, below a limit in bytes. It does not allocate until a site is added.
    pub fn new(alloc: A, limit: u64) -> Self
        ensures { result ≡ record { limit = limit; entries = [] } }
    {
        Sites {
            limit,
            pages: Vec::new(alloc),
        }
    }

    /// Adds the site at an offset in bytes.
    ///
    /// Returns `Outside` where its four bytes do not lie below the limit; else `Overlap` where one of
    /// them belongs to another site; else `OutOfMemory` only where an allocation failed. An error
    /// changes nothing.
    pub fn try_add(&mut self, offset: u32, target: T) -> Result<(), SiteRefusal>
        ensures outside { (result ≡ Err SiteRefusal.Outside) ↔ (self.old.limit < offset + 4) }
        ensures overlap { (result ≡ Err SiteRefusal.Overlap) ↔
            ((offset + 4 ≤ self.old.limit) × Meets self.old.entries offset) }
        ensures adds { OnOk result (self.new ≡
            record self.old { entries = insert_entry nat_cmp self.old.entries offset target }) }
        ensures targets { OnOk result ((other : ℕ) → target_at self.new.entries other ≡
            (if offset == other then Some target else target_at self.old.entries other)) }
        ensures refused { OnErr result (self.new ≡ self.old) }
    {
        if u64::from(offset) + u64::from(SITE_BYTES) > self.limit {
            return Err(SiteRefusal::Outside);
        }
        pages::add(&mut self.pages, offset, target)
    }

    /// The limit, in bytes. The sites are apart and below it, so there is at most one for every four
    /// bytes.
    pub fn limit(&self) -> u64
        ensures value { result ≡ self.now.limit }
        ensures apart { AreApart self.now }
        ensures few { 4 * length self.now.entries ≤ self.now.limit }
    {
        self.limit
    }

    /// The target of the site at an offset.
    pub fn get(&self, offset: u32) -> Option<&T>
        ensures { option_copied result ≡ target_at self.now.entries offset }
    {
        pages::get(&self.pages, offset)
    }

    /// The offsets and targets, each pair once, by rising offset.
    pub fn walk(&self) -> Walk<'_, T, A>
        ensures rest { result ≡ self.now.entries }
        ensures runs { ShowsInOrder (site_shown {T = T}) }
        ensures targets_run { ShowsValuesInOrder (site_shown {T = T}) }
        ensures apart { AreApart self.now }
    {
        Walk {
            list: [].iter(),
            table: SlotsIter::empty(),
            pages: self.pages.iter(),
        }
    }
}

impl<T, A: Allocator + Copy> Sites<T, A> {
    /// The sites in pages, by rising offset: a page has those that begin in the same 4,096 bytes of the hunk.
    ///
    /// A page is freed as it is dropped. So whoever walks over one page after another, and makes other
    /// sites of them, needs no more memory than the greater of the two takes, and that of a page.
    pub fn into_pages(self) -> Vec<Page<T, A>, A>
        ensures all { all_sites result.items ≡ self.entries }
        ensures apart { AreApart self }
    {
        self.pages
    }
}

impl<T, A: Allocator + Copy> Page<T, A> {
    /// The offsets and targets of the sites of the page, each pair once, by rising offset.
    pub fn walk(&self) -> Walk<'_, T, A>
        ensures { result ≡ self.now }
    {
        let (list, table) = self.iters();
        Walk {
            list,
            table,
            pages: [].iter(),
        }
    }
}

/// An iterator over the offsets and targets of a map of sites, by rising offset: see [`Sites::walk`].
/// It is seen as the list that is left.
#[derive(Drop)]
pub struct Walk<'a, T, A: Allocator + Copy = Global> {
    /// What is left of the page that is walked over, in its list and in its table. One of them is empty.
    list: slice::Iter<'a, (u32, T)>,
    table: SlotsIter<'a, T>,
    /// The pages that follow.
    pages: slice::Iter<'a, Page<T, A>>,
}

impl<'a, T, A: Allocator + Copy> Model for Walk<'a, T, A> {
    ghost use Rattle.std.specs.Prelude.{ℕ, ◌^◌, ◌<◌, List, ◌++◌, length};
    ghost use Rattle.std.specs.Slice.Iter.{iter_rest};
    ghost use Rattle.hunk_base.specs.Pages.{all_sites};

    ghost Value = { List (ℕ × T) };

    ghost view = { λ w. iter_rest w.list ++ w.table ++ all_sites (iter_rest w.pages) };

    ghost invariant = { λ w.
        length (iter_rest w.list ++ w.table ++ all_sites (iter_rest w.pages)) < 2 ^ 64 };
}

impl<'a, T, A: Allocator + Copy> Iterator for Walk<'a, T, A> {
    type Item = (u32, &'a T);

    ghost next_gives = { TakesFirst site_shown };

    ghost remaining = { λ left. at_most (length left) };

    fn next(&mut self) -> Option<(u32, &'a T)> {
        loop {
            if let Some((offset, target)) = self.list.next() {
                return Some((*offset, target));
            }
            if let Some(site) = self.table.next_site() {
                return Some(site);
            }
            let (list, table) = self.pages.next()?.iters();
            self.list = list;
            self.table = table;
        }
    }
}
