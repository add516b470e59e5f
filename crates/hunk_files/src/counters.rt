//! Takers that check sites, and count what a file has: one for each kind of file. They keep no
//! content.

ghost use Rattle.std.specs.Prelude.{◌≡◌, ℕ, ◌<◌, ◌^◌, List, [], ◌∷◌, ◌++◌, length, slice_index, OnOk, OnErr};
ghost use Rattle.hunk_words.specs.PartialHunk.{HoldsSites};
ghost use Rattle.hunk_words.specs.SiteContext.{content_limit};
ghost use Rattle.hunk_words.specs.Taker.{JudgesNone};
ghost use Rattle.hunk_words.specs.Kinds.{hunk_kind_of};
ghost use Rattle.hunk_words.specs.declared.event.Event.{Event};
ghost use Rattle.hunk_words.specs.declared.event.FileKind.TheVariants.{Object, Load};
ghost use Rattle.hunk_files.specs.Counters.{CountsLoad, CountsObject, LoadStandsFor, ObjectStandsFor, header_hunks, hunks_of, units_of};

use hunk_words::{Builder, Event, FileKind, HunkKind, PartialHunk, SiteRefusal, Taker};
use std::alloc::{AllocError, Allocator, Global};

/// The content begins: the sites must lie in this many bytes. In a file no site comes before.
fn begin<A: Allocator + Copy>(
    hunk: &mut PartialHunk<u32, A>,
    alloc: A,
    limit: u64,
) -> Result<(), SiteRefusal>
    ensures holds { (before : ℕ) (seen : List ℕ) → HoldsSites before seen hunk.old →
        OnOk result (HoldsSites limit seen hunk.new) }
    ensures refuses { OnErr result (hunk.new ≡ hunk.old) }
    ensures judges { JudgesNone result }
{
    if hunk.begin_content(alloc, limit) {
        Ok(())
    } else {
        Err(SiteRefusal::OutOfMemory)
    }
}

/// The hunk ends: it has no sites any more.
fn end<A: Allocator + Copy>(hunk: &mut PartialHunk<u32, A>, alloc: A)
    ensures { (limit : ℕ) (seen : List ℕ) → HoldsSites limit seen hunk.old →
        HoldsSites limit [] hunk.new }
{
    *hunk = PartialHunk::new(alloc, hunk.limit());
}

/// Checks the sites of an object file, and counts its units and their hunks.
///
/// It keeps the sites of the current hunk, and no content.
#[derive(Drop)]
pub struct ObjectCounter<A: Allocator + Copy = Global> {
    alloc: A,
    units: u64,
    hunks: u64,
    hunk: PartialHunk<u32, A>,
}

impl<A: Allocator + Copy> ObjectCounter<A> {
    /// It has taken no event.
    pub fn new(alloc: A) -> Self
        ensures { ObjectStandsFor result [] }
    {
        ObjectCounter {
            alloc,
            units: 0,
            hunks: 0,
            hunk: PartialHunk::new(alloc, 0),
        }
    }

    /// The number of units.
    pub fn units(&self) -> u64
        ensures { result ≡ units_of self.now }
    {
        self.units
    }

    /// The number of hunks of all units.
    pub fn hunks(&self) -> u64
        ensures { result ≡ hunks_of self.now }
    {
        self.hunks
    }

    /// A hunk of the current unit ends. In a file a unit has begun.
    fn end_hunk(&mut self) -> Result<(), SiteRefusal>
        ensures takes { (told : List Event) → ObjectStandsFor self.old told → length told < 2 ^ 29 →
            OnOk result (ObjectStandsFor self.new (told ++ Event.HunkEnd ∷ [])) }
        ensures refuses { OnErr result (self.new ≡ self.old) }
        ensures judges { JudgesNone result }
    {
        if self.units == 0 {
            return Err(SiteRefusal::OutOfMemory);
        }
        self.hunks = self.hunks.saturating_add(1);
        end(&mut self.hunk, self.alloc);
        Ok(())
    }
}

/// The number of bytes in which the sites of an object file's hunk must lie.
fn content_bytes(kind: u32, size: u32) -> u64
    ensures { result ≡ content_limit Object 0 (hunk_kind_of kind) size }
{
    match HunkKind::of_block_type(kind) {
        HunkKind::Code | HunkKind::Data => 4 * u64::from(size),
        HunkKind::Bss => 0,
    }
}

impl<A: Allocator + Copy> Taker for ObjectCounter<A> {
    ghost stands_for = { λ counter told. ObjectStandsFor counter told };

    ghost KIND = { Object };

    const KIND: FileKind = FileKind::Object;

    fn take(&mut self, event: Event) -> Result<(), SiteRefusal> {
        match event {
            Event::Unit => {
                self.units = self.units.saturating_add(1);
                Ok(())
            }
            Event::Content { kind, size, .. } => {
                begin(&mut self.hunk, self.alloc, content_bytes(kind, size))
            }
            Event::Site { offset, target } => self.hunk.add_site(offset, target),
            Event::RefSite(offset) => self.hunk.add_site(offset, 0),
            Event::HunkEnd => self.end_hunk(),
            _ => Ok(()),
        }
    }

    fn take_words(&mut self, _bytes: &[u8]) -> Result<bool, AllocError> {
        Ok(true)
    }

    fn size_of(&self, _hunk: u32) -> u32 {
        0
    }
}

impl<A: Allocator + Copy> Builder for ObjectCounter<A> {
    ghost is_value = { λ counter bytes. CountsObject counter bytes };

    type Alloc = A;

    type Value = ObjectCounter<A>;

    fn new(alloc: A) -> Self {
        ObjectCounter::new(alloc)
    }

    fn into_value(self) -> ObjectCounter<A> {
        self
    }
}

/// Checks the sites of a load file, and keeps the sizes in its header, one for each hunk.
///
/// It keeps the sites of the current hunk, and no content.
#[derive(Drop)]
pub struct LoadCounter<A: Allocator + Copy = Global> {
    alloc: A,
    sizes: Vec<u32, A>,
    ended: usize,
    hunk: PartialHunk<u32, A>,
}

impl<A: Allocator + Copy> LoadCounter<A> {
    /// It has taken no event.
    pub fn new(alloc: A) -> Self
        ensures { LoadStandsFor result [] }
    {
        LoadCounter {
            alloc,
            sizes: Vec::new(alloc),
            ended: 0,
            hunk: PartialHunk::new(alloc, 0),
        }
    }

    /// The number of hunks in the header.
    pub fn hunks(&self) -> u64
        ensures { result ≡ header_hunks self.now }
    {
        self.sizes.len() as u64
    }

    /// The size of this hunk in the header, in longwords.
    fn size(&self) -> u32
        ensures { result ≡ slice_index self.now.sizes.items self.now.ended }
    {
        match self.sizes.get(self.ended) {
            Some(size) => *size,
            None => 0,
        }
    }
}

impl<A: Allocator + Copy> Taker for LoadCounter<A> {
    ghost stands_for = { λ counter told. LoadStandsFor counter told };

    ghost KIND = { Load };

    const KIND: FileKind = FileKind::Load;

    fn take(&mut self, event: Event) -> Result<(), SiteRefusal> {
        match event {
            Event::HunkSize { size, .. } => match self.sizes.push(size) {
                Ok(()) => Ok(()),
                Err(_) => Err(SiteRefusal::OutOfMemory),
            },
            Event::Content { .. } => {
                let limit = 4 * u64::from(self.size());
                begin(&mut self.hunk, self.alloc, limit)
            }
            Event::Site { offset, target } => self.hunk.add_site(offset, target),
            Event::RefSite(offset) => self.hunk.add_site(offset, 0),
            Event::HunkEnd => {
                self.ended = self.ended.saturating_add(1);
                end(&mut self.hunk, self.alloc);
                Ok(())
            }
            _ => Ok(()),
        }
    }

    fn take_words(&mut self, _bytes: &[u8]) -> Result<bool, AllocError> {
        Ok(true)
    }

    fn size_of(&self, hunk: u32) -> u32 {
        match self.sizes.get(hunk as usize) {
            Some(size) => *size,
            None => 0,
        }
    }
}

impl<A: Allocator + Copy> Builder for LoadCounter<A> {
    ghost is_value = { λ counter bytes. CountsLoad counter bytes };

    type Alloc = A;

    type Value = LoadCounter<A>;

    fn new(alloc: A) -> Self {
        LoadCounter::new(alloc)
    }

    fn into_value(self) -> LoadCounter<A> {
        self
    }
}
