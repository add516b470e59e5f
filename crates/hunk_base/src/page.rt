//! The sites of one page of a hunk.
ghost use Rattle.std.specs.Prelude.{◌≡◌, ◌≢◌, ◌/◌, ◌↔◌, ◌++◌, ◌<◌, [], ℕ, length, is_ok, if◌then◌else◌, MatchBool};
ghost use Rattle.std.specs.Bool.{OnTrue};
ghost use Rattle.std.specs.BTreeMap.{insert_entry};
ghost use Rattle.std.specs.Option.{option_copied};
ghost use Rattle.std.specs.Ordering.{nat_cmp};
ghost use Rattle.std.specs.Slice.Iter.{iter_rest};
ghost use Rattle.hunk_base.specs.Page.{AreSpaced, LieInPage};
ghost use Rattle.hunk_base.specs.Sites.{Meets, target_at};

use crate::list::{LONG_LIST, SiteList};
use crate::sites::SiteRefusal;
use crate::slots::{Slots, SlotsIter};
use std::alloc::{AllocError, Allocator};
use std::marker::Model;
use std::slice;

/// How many bytes a site has.
pub const SITE_BYTES: u32 = 4;

/// How many bytes of the hunk a page has.
pub const PAGE_BYTES: u32 = 4096;

/// How the sites of a page are kept.
#[derive(Debug, Drop)]
enum Form<T, A: Allocator + Copy> {
    /// By rising offset, as most files have them: one more is put behind the others.
    List(SiteList<T, A>),
    /// By the four bytes of the page that they begin in: one more takes the same time in each order.
    Table(Slots<T, A>),
}

/// The sites of a page with their targets, by rising offset. No two share a byte.
///
/// They are kept in a list until one more belongs before the last one of a long list. Then they go over to
/// a table, so that one is added in constant time in whatever order they come. A table takes 5 KB where a
/// target has 32 bits. Only a page with more than 256 sites has one, so all tables together take less than
/// 20 bytes a site, and a site takes two bytes of a file or more.
#[derive(Debug, Drop)]
pub struct Page<T, A: Allocator + Copy> {
    form: Form<T, A>,
}

impl<T, A: Allocator + Copy> Model for Page<T, A> {
    ghost use Rattle.std.specs.Prelude.{ℕ, List};
    ghost use Rattle.hunk_base.specs.declared.page.Form.TheVariants.{List as InList, Table};

    ghost Value = { List (ℕ × T) };

    ghost view = { λ p. elim p.form [ InList sites ↦ sites | Table sites ↦ sites ] };
}

impl<T, A: Allocator + Copy> Page<T, A> {
    /// A page without sites. It does not allocate.
    pub(crate) fn new(alloc: A) -> Self
        ensures { result ≡ [] }
    {
        Page {
            form: Form::List(SiteList::new(alloc)),
        }
    }

    /// The sites of the list and those of the table, one of which has none. The sites by rising offset are
    /// the former and then the latter.
    pub(crate) fn iters(&self) -> (slice::Iter<'_, (u32, T)>, SlotsIter<'_, T>)
        ensures rest { iter_rest result.0 ++ result.1 ≡ self.now }
        ensures spaced { AreSpaced self.now }
    {
        match &self.form {
            Form::List(list) => (list.iter(), SlotsIter::empty()),
            Form::Table(table) => ([].iter(), table.iter()),
        }
    }
}

impl<T: Copy, A: Allocator + Copy> Page<T, A> {
    /// Whether a site at the offset shares no byte with a site of the page.
    pub(crate) fn is_free(&self, offset: u32) -> bool
        ensures { MatchBool result (Meets self.now offset → ⊥) (Meets self.now offset) }
    {
        match &self.form {
            Form::List(list) => list.is_free(offset),
            Form::Table(table) => table.is_free(offset),
        }
    }

    /// Whether the sites go over to a table where one is added at the offset.
    fn is_crowded_at(&self, offset: u32) -> bool
        ensures { OnTrue result (0 < length self.now) }
    {
        match &self.form {
            Form::List(list) => list.is_crowded_at(offset),
            Form::Table(_) => false,
        }
    }

    /// Whether a site at the offset belongs into a list that needs an allocation for it.
    #[inline(always)]
    pub(crate) fn needs_room_at(&self, offset: u32) -> bool {
        match &self.form {
            Form::List(list) => list.is_full() && !list.is_crowded_at(offset),
            Form::Table(_) => false,
        }
    }

    /// How many sites its list has, or of a table how many a list has at least that goes over to one. By
    /// this the pages beside it get their room: their lists are left for tables as early.
    pub(crate) fn list_len(&self) -> usize {
        match &self.form {
            Form::List(list) => list.len(),
            Form::Table(_) => LONG_LIST,
        }
    }

    /// Makes room for more sites in a full list, where the pages beside it have lists of `near` sites. The
    /// page stays as it was, also if the allocation fails.
    pub(crate) fn make_room(&mut self, near: usize) -> Result<(), AllocError>
        ensures { self.new ≡ self.old }
    {
        match &mut self.form {
            Form::List(list) => list.make_room(near),
            Form::Table(_) => Ok(()),
        }
    }

    /// Puts the sites of a list into a table. The page is seen as it was, also if the allocation fails.
    fn spread(&mut self) -> Result<(), AllocError>
        requires some { 0 < length self.old }
        requires in_page { (number : ℕ) × LieInPage number self.old }
        ensures { self.new ≡ self.old }
    {
        if let Form::List(list) = &self.form {
            let table = list.to_table()?;
            self.form = Form::Table(table);
        }
        Ok(())
    }

    /// Adds a site in the form that the page has.
    fn add_in_form(&mut self, offset: u32, target: T) -> Result<(), SiteRefusal>
        requires { LieInPage (offset / 4096) self.old }
        ensures outside { result ≢ Err SiteRefusal.Outside }
        ensures overlap { (result ≡ Err SiteRefusal.Overlap) ↔ Meets self.old offset }
        ensures added { self.new ≡
            (if is_ok result then insert_entry nat_cmp self.old offset target else self.old) }
    {
        match &mut self.form {
            Form::List(list) => list.add(offset, target),
            Form::Table(table) => table.add(offset, target),
        }
    }

    /// Adds a site to a table, which the sites go over to before. An overlap is told before memory is asked
    /// for.
    #[inline(never)]
    fn spread_and_add(&mut self, offset: u32, target: T) -> Result<(), SiteRefusal>
        requires some { 0 < length self.old }
        requires in_page { LieInPage (offset / 4096) self.old }
        ensures outside { result ≢ Err SiteRefusal.Outside }
        ensures overlap { (result ≡ Err SiteRefusal.Overlap) ↔ Meets self.old offset }
        ensures added { self.new ≡
            (if is_ok result then insert_entry nat_cmp self.old offset target else self.old) }
    {
        if !self.is_free(offset) {
            return Err(SiteRefusal::Overlap);
        }
        if self.spread().is_err() {
            return Err(SiteRefusal::OutOfMemory);
        }
        self.add_in_form(offset, target)
    }

    /// Adds a site that does not belong behind the last one of a list, as [`Page::add`] does.
    #[inline(never)]
    fn add_elsewhere(&mut self, offset: u32, target: T) -> Result<(), SiteRefusal>
        requires { LieInPage (offset / 4096) self.old }
        ensures outside { result ≢ Err SiteRefusal.Outside }
        ensures overlap { (result ≡ Err SiteRefusal.Overlap) ↔ Meets self.old offset }
        ensures added { self.new ≡
            (if is_ok result then insert_entry nat_cmp self.old offset target else self.old) }
    {
        if self.is_crowded_at(offset) {
            self.spread_and_add(offset, target)
        } else {
            self.add_in_form(offset, target)
        }
    }

    /// Adds a site, or returns `Overlap` where it would share a byte with a site of the page. If an
    /// allocation fails, the page is seen as it was. In most files a site belongs behind the last one of a
    /// list, so that alone is done without a call.
    #[inline(always)]
    pub(crate) fn add(&mut self, offset: u32, target: T) -> Result<(), SiteRefusal>
        requires { LieInPage (offset / 4096) self.old }
        ensures outside { result ≢ Err SiteRefusal.Outside }
        ensures overlap { (result ≡ Err SiteRefusal.Overlap) ↔ Meets self.old offset }
        ensures added { self.new ≡
            (if is_ok result then insert_entry nat_cmp self.old offset target else self.old) }
    {
        match &mut self.form {
            Form::List(list) if list.ends_before(offset) => list.add(offset, target),
            _ => self.add_elsewhere(offset, target),
        }
    }

    /// The target of the site at an offset.
    pub(crate) fn get(&self, offset: u32) -> Option<&T>
        ensures { option_copied result ≡ target_at self.now offset }
    {
        match &self.form {
            Form::List(list) => list.get(offset),
            Form::Table(table) => table.get(offset),
        }
    }
}
