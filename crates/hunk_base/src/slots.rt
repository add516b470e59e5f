//! The sites of one page of a hunk, in a table with a slot for each four bytes of the page.
//!
//! Two sites of one page that begin in the same four bytes share a byte, so a slot has one site at most. And
//! a site shares bytes with those of its slot and of the two beside it alone.
//!
//! The marks of a page, which tell where its sites are, stand side by side in 1 KB. So in files whose
//! relocations stand in no order, where each one looks at another page, many are still in the cache.
ghost use Rattle.std.specs.Prelude.{◌≡◌, ◌≢◌, ◌+◌, ◌*◌, ◌<◌, ◌≤◌, ◌^◌, ◌/◌, ◌%◌, ◌↔◌, ◌∷◌, [], ℕ, length, is_ok, if◌then◌else◌, MatchBool, MatchOption, IfOk};
ghost use Rattle.std.specs.BTreeMap.{insert_entry};
ghost use Rattle.std.specs.Option.{option_copied};
ghost use Rattle.std.specs.Ordering.{nat_cmp};
ghost use Rattle.hunk_base.specs.Page.{AreSpaced, LieInPage};
ghost use Rattle.hunk_base.specs.Sites.{Meets, target_at};
ghost use Rattle.hunk_base.specs.Slots.{SharesWithMark, SharesWithMarks, slot_of};

use crate::page::{PAGE_BYTES, SITE_BYTES};
use crate::sites::SiteRefusal;
use std::alloc::{AllocError, Allocator};
use std::marker::Model;
use std::slice;

/// How many slots a table has: one for each place that a site of its page can have among sites side by side.
const SLOTS: usize = (PAGE_BYTES / SITE_BYTES) as usize;

/// The mark of a slot without a site. Another mark says how many bytes after its slot a site begins.
const NO_SITE: u8 = SITE_BYTES as u8;

/// The slot of the site at an offset.
fn slot_number(offset: u32) -> usize
    ensures { result ≡ slot_of offset }
{
    (offset / SITE_BYTES) as usize % SLOTS
}

/// Whether a site at the offset shares no byte with the site of a slot, if that has one.
fn is_apart(first: u32, marks: &[u8], number: usize, offset: u32) -> bool
    requires inside { number < length marks.now }
    requires fits { first + 4 * length marks.now ≤ 2 ^ 32 }
    ensures { MatchBool result (SharesWithMark first marks.now number offset → ⊥)
        (SharesWithMark first marks.now number offset) }
{
    let mark = marks[number];
    if NO_SITE <= mark {
        return true;
    }
    let start = first + SITE_BYTES * number as u32 + u32::from(mark);
    SITE_BYTES <= offset.abs_diff(start)
}

/// Whether a site at the offset shares no byte with the sites of a page. Those that are near it have its
/// slot or one beside that, where the first one is beside the last one of the page before.
fn is_free_in(first: u32, marks: &[u8], offset: u32) -> bool
    requires all { length marks.now ≡ 1024 }
    requires page { first % 4096 ≡ 0 }
    ensures { MatchBool result (SharesWithMarks first marks.now offset → ⊥)
        (SharesWithMarks first marks.now offset) }
{
    let number = slot_number(offset);
    is_apart(first, marks, (number + SLOTS - 1) % SLOTS, offset)
        && is_apart(first, marks, number, offset)
        && is_apart(first, marks, (number + 1) % SLOTS, offset)
}

/// The sites of a page with their targets, by rising offset: each is in its slot. No two share a byte, and
/// there is one at least.
#[derive(Debug, Drop)]
pub struct Slots<T, A: Allocator + Copy> {
    /// The offset of the first byte of the page.
    first: u32,
    /// For each slot how many bytes after its first one a site begins, or `NO_SITE`.
    marks: Vec<u8, A>,
    /// For each slot the target of its site, or any one where there is none.
    targets: Vec<T, A>,
}

impl<T, A: Allocator + Copy> Model for Slots<T, A> {
    ghost use Rattle.std.specs.Prelude.{ℕ, List};
    ghost use Rattle.hunk_base.specs.Slots.{IsTable, present, slots_from};

    ghost Value = { List (ℕ × T) };

    ghost view = { λ s. present (slots_from s.first s.marks.items s.targets.items) };

    ghost invariant = { λ s. IsTable s.first s.marks.items s.targets.items };
}

impl<T, A: Allocator + Copy> Slots<T, A> {
    /// The sites, by rising offset.
    pub fn iter(&self) -> SlotsIter<'_, T>
        ensures rest { result ≡ self.now }
        ensures spaced { AreSpaced self.now }
    {
        SlotsIter {
            start: u64::from(self.first),
            marks: self.marks.iter(),
            targets: self.targets.iter(),
        }
    }
}

impl<T: Copy, A: Allocator + Copy> Slots<T, A> {
    /// A table with one site.
    fn new(alloc: A, offset: u32, target: T) -> Result<Self, AllocError>
        ensures { IfOk result (λ table. table ≡ (offset, target) ∷ []) }
    {
        let mut marks = vec![in alloc; NO_SITE; SLOTS]?;
        let mut targets = vec![in alloc; target; SLOTS]?;
        let number = slot_number(offset);
        marks[number] = (offset % SITE_BYTES) as u8;
        targets[number] = target;
        Ok(Slots {
            first: offset - offset % PAGE_BYTES,
            marks,
            targets,
        })
    }

    /// A table of the sites of a page, of which there is one at least.
    pub fn of_sorted(alloc: A, sites: &[(u32, T)]) -> Result<Self, AllocError>
        requires some { 0 < length sites.now }
        requires spaced { AreSpaced sites.now }
        requires in_page { (number : ℕ) × LieInPage number sites.now }
        ensures { IfOk result (λ table. table ≡ sites.now) }
    {
        let (offset, target) = sites[0];
        let mut table = Slots::new(alloc, offset, target)?;
        for (offset, target) in &sites[1..] {
            table.put(*offset, *target);
        }
        Ok(table)
    }

    /// Whether a site at the offset shares no byte with a site of the table.
    pub fn is_free(&self, offset: u32) -> bool
        ensures { MatchBool result (Meets self.now offset → ⊥) (Meets self.now offset) }
    {
        is_free_in(self.first, &self.marks, offset)
    }

    /// Puts a site of the page, which shares no byte with another one, into its slot.
    fn put(&mut self, offset: u32, target: T)
        requires in_page { LieInPage (offset / 4096) self.old }
        requires free { Meets self.old offset → ⊥ }
        ensures { self.new ≡ insert_entry nat_cmp self.old offset target }
    {
        let number = slot_number(offset);
        self.marks[number] = (offset % SITE_BYTES) as u8;
        self.targets[number] = target;
    }

    /// Adds a site of the page, or returns `Overlap` where it would share a byte with a site of the table.
    pub fn add(&mut self, offset: u32, target: T) -> Result<(), SiteRefusal>
        requires { LieInPage (offset / 4096) self.old }
        ensures outside { result ≢ Err SiteRefusal.Outside }
        ensures overlap { (result ≡ Err SiteRefusal.Overlap) ↔ Meets self.old offset }
        ensures added { self.new ≡
            (if is_ok result then insert_entry nat_cmp self.old offset target else self.old) }
    {
        if !self.is_free(offset) {
            return Err(SiteRefusal::Overlap);
        }
        self.put(offset, target);
        Ok(())
    }

    /// The target of the site at an offset.
    pub fn get(&self, offset: u32) -> Option<&T>
        ensures { option_copied result ≡ target_at self.now offset }
    {
        let number = slot_number(offset);
        let (mark, target) = (self.marks[number], &self.targets[number]);
        if mark < NO_SITE && self.first + SITE_BYTES * number as u32 + u32::from(mark) == offset {
            Some(target)
        } else {
            None
        }
    }
}

/// An iterator over the sites of a table, by rising offset. It is seen as the list that is left.
#[derive(Drop)]
pub struct SlotsIter<'a, T> {
    /// Where the four bytes of the next slot begin.
    start: u64,
    marks: slice::Iter<'a, u8>,
    targets: slice::Iter<'a, T>,
}

impl<'a, T> Model for SlotsIter<'a, T> {
    ghost use Rattle.std.specs.Prelude.{◌≡◌, ℕ, ◌+◌, ◌*◌, ◌^◌, ◌≤◌, List, length};
    ghost use Rattle.std.specs.Slice.Iter.{iter_rest};
    ghost use Rattle.hunk_base.specs.Slots.{present, slots_from};

    ghost Value = { List (ℕ × T) };

    ghost view = { λ s. present (slots_from s.start (iter_rest s.marks) (iter_rest s.targets)) };

    ghost invariant = { λ s. (s.start + 4 * length (iter_rest s.marks) ≤ 2 ^ 32) ×
        (length (iter_rest s.marks) ≡ length (iter_rest s.targets)) };
}

impl<'a, T> SlotsIter<'a, T> {
    /// No sites.
    pub fn empty() -> Self
        ensures { result ≡ [] }
    {
        SlotsIter {
            start: 0,
            marks: [].iter(),
            targets: [].iter(),
        }
    }

    /// The next site.
    pub fn next_site(&mut self) -> Option<(u32, &'a T)>
        ensures { MatchOption result ((self.old ≡ []) × (self.new ≡ []))
            (λ site. self.old ≡ (site.0, site.1.now) ∷ self.new) }
    {
        while let (Some(mark), Some(target)) = (self.marks.next(), self.targets.next()) {
            let start = self.start;
            self.start += u64::from(SITE_BYTES);
            if *mark < NO_SITE {
                return Some((start as u32 + u32::from(*mark), target));
            }
        }
        None
    }
}
