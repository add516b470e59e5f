//! The image of a load file, made from its events with no more memory than it needs.

ghost use Rattle.std.specs.Prelude.{◌≡◌};
ghost use Rattle.hunk_base.specs.Longwords.{IsWhole, longwords};
ghost use Rattle.hunk_words.specs.declared.event.Event.{Event};
ghost use Rattle.hunk_words.specs.declared.event.FileKind.TheVariants.{Load};
ghost use Rattle.hunk_loader.specs.ImageBuilder.{IsImage, StandsFor, TakesEvent, TakesRun, initial_builder, passed};
ghost use Rattle.hunk_loader.specs.Placing.{Settled};

use crate::image::Image;
use crate::loading::LoadRefusal;
use crate::placing::{Placing, decide};
use hunk_loadfile::patch;
use hunk_words::{Event, FileKind, PartialHunk, SiteRefusal, Taker};
use std::alloc::{AllocError, Allocator};
use std::marker::Model;
use std::mem;

/// Makes the image of the hunks whose events it takes.
///
/// It keeps the bases, the sizes in the header, the hunks that have ended and the current one, but
/// no names, symbols or debug blocks. If the hunks cannot be placed at the bases, it only checks
/// sites, and allocates nothing for their bytes.
///
/// At all times, after an error too, it has taken some events and keeps no more than these need:
/// one number for each size that it took, no more bytes of hunks than all these sizes, none if the
/// hunks are not placed, and only the sites of the current hunk, at most one for each of its
/// longwords.
///
/// An error leaves it as it was. It also returns `OutOfMemory` for events that the decoder never
/// sends for a load file.
#[derive(Drop)]
pub(crate) struct ImageBuilder<A: Allocator + Copy> {
    alloc: A,
    bases: Vec<u32, A>,
    // where the bytes of the hunks go, by their numbers; those of the other hunks are allocated
    rooms: Vec<Vec<u8, A>, A>,
    sizes: Vec<u32, A>,
    placing: Placing,
    ended: usize,
    made: Vec<(u32, Vec<u8, A>), A>,
    current: Option<PartialHunk<u32, A>>,
}

impl<A: Allocator + Copy> Model for ImageBuilder<A> {
    ghost use Rattle.std.specs.Prelude.{length};
    ghost use Rattle.hunk_loader.specs.ImageBuilder.{BuilderState, NamesHunks, state_of};
    ghost use Rattle.hunk_loader.specs.KeptMemory.{IsBounded};

    ghost Value = { BuilderState };

    ghost view = { state_of };

    ghost invariant = { λ b. IsBounded (state_of b) × NamesHunks (length b.sizes.items) b.current };
}

impl<A: Allocator + Copy> ImageBuilder<A> {
    /// A builder for hunks at these bases and in these rooms, before the first event.
    pub(crate) fn new(alloc: A, bases: Vec<u32, A>, rooms: Vec<Vec<u8, A>, A>) -> Self
        ensures { result ≡ initial_builder bases.items }
    {
        ImageBuilder {
            alloc,
            bases,
            rooms,
            sizes: Vec::new(alloc),
            placing: Placing::Unknown,
            ended: 0,
            made: Vec::new(alloc),
            current: None,
        }
    }

    /// The image of the hunks that have ended, or what is wrong with the bases.
    pub(crate) fn image(self) -> Result<Image<A>, LoadRefusal>
        ensures { IsImage self result }
    {
        match self.placing {
            Placing::Refused(fault) => Err(LoadRefusal::Place(fault)),
            Placing::Unknown | Placing::Placed => Ok(Image::of_hunks(self.made)),
        }
    }

    /// Takes the size of one more hunk, as long as no hunk has begun.
    fn add_size(&mut self, bits: u8, size: u32) -> Result<(), SiteRefusal>
        ensures { TakesEvent self.old self.new result (Event.HunkSize bits size) }
    {
        match self.placing {
            Placing::Unknown => {}
            _ => return Err(SiteRefusal::OutOfMemory),
        }
        if self.sizes.push(size).is_err() {
            return Err(SiteRefusal::OutOfMemory);
        }
        Ok(())
    }

    /// Whether the hunks can be placed at the bases, once all sizes are known.
    fn settled(&self) -> Placing
        ensures { Settled self.now.placing self.now.sizes self.now.bases result }
    {
        match self.placing {
            Placing::Unknown => decide(self.alloc, &self.sizes, &self.bases),
            Placing::Placed => Placing::Placed,
            Placing::Refused(fault) => Placing::Refused(fault),
        }
    }

    /// Begins the next hunk of the header.
    fn begin_hunk(&mut self, kind: u32, bits: u8, size: u32) -> Result<(), SiteRefusal>
        ensures { TakesEvent self.old self.new result (Event.Content kind bits size) }
    {
        match &self.current {
            Some(_) => return Err(SiteRefusal::OutOfMemory),
            None => {}
        }
        if self.ended >= self.sizes.len() {
            return Err(SiteRefusal::OutOfMemory);
        }
        let placing = self.settled();
        let keeps = matches!(placing, Placing::Placed);
        let own = self.sizes[self.ended];
        match take_room(self.alloc, &mut self.rooms, self.ended, keeps, own) {
            Ok(room) => {
                self.placing = placing;
                self.current = Some(PartialHunk::in_room(self.alloc, 4 * u64::from(own), room));
                Ok(())
            }
            Err(_) => Err(SiteRefusal::OutOfMemory),
        }
    }

    /// Takes a word. Content is kept if the hunks are placed.
    fn add_word(&mut self, word: u32) -> Result<(), SiteRefusal>
        ensures { TakesEvent self.old self.new result (Event.Word word) }
    {
        match self.placing {
            Placing::Placed => {}
            _ => return Ok(()),
        }
        let Some(current) = &mut self.current else {
            return Ok(());
        };
        if current.add_word(word).is_err() {
            return Err(SiteRefusal::OutOfMemory);
        }
        Ok(())
    }

    /// Takes the bytes of a run of words. Content is kept if the hunks are placed.
    fn add_bytes(&mut self, bytes: &[u8]) -> Result<(), AllocError>
        requires { IsWhole bytes.now }
        ensures { TakesRun self.old self.new result (longwords bytes.now) }
    {
        match self.placing {
            Placing::Unknown | Placing::Refused(_) => return Ok(()),
            Placing::Placed => {}
        }
        let Some(current) = &mut self.current else {
            return Ok(());
        };
        current.add_bytes(bytes)
    }

    /// Takes a site of the current hunk, which names a hunk of the header.
    fn add_site(&mut self, offset: u32, target: u32) -> Result<(), SiteRefusal>
        ensures { TakesEvent self.old self.new result (Event.Site offset target) }
    {
        if target as usize >= self.sizes.len() {
            return Err(SiteRefusal::OutOfMemory);
        }
        let Some(current) = &mut self.current else {
            return Err(SiteRefusal::OutOfMemory);
        };
        current.add_site(offset, target)
    }

    /// Ends the hunk, which is kept, loaded at its base, if the hunks are placed.
    fn end_hunk(&mut self) -> Result<(), SiteRefusal>
        ensures { TakesEvent self.old self.new result Event.HunkEnd }
    {
        let Some(current) = &mut self.current else {
            return Err(SiteRefusal::OutOfMemory);
        };
        match self.placing {
            Placing::Placed => {}
            _ => {
                self.current = None;
                self.ended += 1;
                return Ok(());
            }
        }
        if self.ended >= self.bases.len() || self.sizes.len() > self.bases.len() {
            return Err(SiteRefusal::OutOfMemory);
        }
        let base = self.bases[self.ended];
        let Ok(()) = self.made.reserve(1) else {
            return Err(SiteRefusal::OutOfMemory);
        };
        let Ok(()) = current.fill() else {
            return Err(SiteRefusal::OutOfMemory);
        };
        let filled = mem::replace(current, PartialHunk::new(self.alloc, 0));
        let (mut bytes, sites) = filled.into_parts();
        patch(&mut bytes, &sites, &self.bases);
        self.made.push_reserved((base, bytes));
        self.current = None;
        self.ended += 1;
        Ok(())
    }

    /// Takes an event after which words are not content.
    fn pass(&mut self)
        ensures { self.new ≡ record self.old { current = passed self.old.current } }
    {
        match &mut self.current {
            Some(current) => current.end_content(),
            None => {}
        }
    }
}

impl<A: Allocator + Copy> Taker for ImageBuilder<A> {
    ghost stands_for = { StandsFor };

    ghost given = { λ b. b.bases };

    ghost KIND = { Load };

    const KIND: FileKind = FileKind::Load;

    // Each relocation is an event, so a run of them should make no call for its event.
    #[inline(always)]
    fn take(&mut self, event: Event) -> Result<(), SiteRefusal> {
        match event {
            Event::Table(_) => Ok(()),
            Event::HunkSize { bits, size } => self.add_size(bits, size),
            Event::Content { kind, bits, size } => self.begin_hunk(kind, bits, size),
            Event::Word(word) => self.add_word(word),
            Event::Site { offset, target } => self.add_site(offset, target),
            Event::HunkEnd => self.end_hunk(),
            Event::Unit | Event::RefSite(_) => Err(SiteRefusal::OutOfMemory),
            Event::HunkName
            | Event::Symbol
            | Event::Entry(_)
            | Event::Value(_)
            | Event::Count(_)
            | Event::Debug(_) => {
                self.pass();
                Ok(())
            }
        }
    }

    // Content is most of a file, so the bytes of a run of it are copied at once.
    fn take_words(&mut self, bytes: &[u8]) -> Result<bool, AllocError> {
        self.add_bytes(bytes)?;
        Ok(true)
    }

    // It is 0 if the header has no such hunk.
    fn size_of(&self, hunk: u32) -> u32 {
        match self.sizes.get(hunk as usize) {
            Some(size) => *size,
            None => 0,
        }
    }
}

/// Where the bytes of the hunk with this number go, which has this size in longwords: the room that
/// was given for it, or a new one. It has no memory if they are not kept.
fn take_room<A: Allocator + Copy>(
    alloc: A,
    rooms: &mut Vec<Vec<u8, A>, A>,
    number: usize,
    keeps: bool,
    size: u32,
) -> Result<Vec<u8, A>, AllocError> {
    if !keeps {
        return Ok(Vec::new(alloc));
    }
    match rooms.get_mut(number) {
        Some(room) => Ok(mem::replace(room, Vec::new(alloc))),
        None => Ok(Vec::with_capacity(alloc, 4 * size as usize)?),
    }
}
