//! A builder of load files from the events of their longwords.
ghost use Rattle.hunk_words.specs.Taker.{JudgesNone};
ghost use Rattle.hunk_words.specs.declared.event.Event.{Event};
ghost use Rattle.hunk_words.specs.declared.event.FileKind.TheVariants.{Load};

use crate::hunk_builder::HunkBuilder;
use crate::load_file::LoadFile;
use crate::load_hunk::LoadHunk;
use hunk_words::{Builder, Event, FileKind, SiteRefusal, Taker};
use std::alloc::{AllocError, Allocator, Global};

/// Builds a load file from the events of its longwords: the hunks that have ended, and the current
/// one. An error leaves it as it was.
#[derive(Drop)]
pub struct LoadBuilder<A: Allocator + Copy = Global> {
    hunks: Vec<LoadHunk<A>, A>,
    current: HunkBuilder<A>,
}

impl<A: Allocator + Copy> LoadBuilder<A> {
    ghost use Rattle.hunk_loadfile.specs.LoadBuilder.{Steps};

    fn end_hunk(&mut self) -> Result<(), SiteRefusal>
        ensures steps { Steps self.old self.new result Event.HunkEnd }
        ensures judges { JudgesNone result }
    {
        match self.hunks.reserve(1) {
            Ok(()) => {}
            Err(_) => return Err(SiteRefusal::OutOfMemory),
        }
        match self.current.end_hunk() {
            Ok(hunk) => {
                self.hunks.push_reserved(hunk);
                Ok(())
            }
            Err(_) => Err(SiteRefusal::OutOfMemory),
        }
    }
}

impl<A: Allocator + Copy> Taker for LoadBuilder<A> {
    ghost use Rattle.hunk_loadfile.specs.LoadBuilder.{StandsFor};

    ghost stands_for = { λ builder told. StandsFor builder told };

    ghost KIND = { Load };

    const KIND: FileKind = FileKind::Load;

    /// Each relocation is an event, so a run of them should make no call for its event.
    #[inline(always)]
    fn take(&mut self, event: Event) -> Result<(), SiteRefusal> {
        match event {
            Event::Site { offset, target } => self.current.add_site(offset, target),
            Event::HunkEnd => self.end_hunk(),
            _ => match self.current.take(event) {
                Ok(()) => Ok(()),
                Err(_) => Err(SiteRefusal::OutOfMemory),
            },
        }
    }

    /// Content is most of a file, so the bytes of a run of it are copied at once.
    fn take_words(&mut self, bytes: &[u8]) -> Result<bool, AllocError> {
        self.current.add_bytes(bytes)
    }

    fn size_of(&self, hunk: u32) -> u32 {
        self.current.size(hunk as usize)
    }
}

impl<A: Allocator + Copy> Builder for LoadBuilder<A> {
    ghost use Rattle.hunk_loadfile.specs.LoadFile.{IsLoadOf};

    ghost is_value = { λ file bytes. IsLoadOf file bytes };

    type Alloc = A;

    type Value = LoadFile<A>;

    fn new(alloc: A) -> Self {
        LoadBuilder {
            hunks: Vec::new(alloc),
            current: HunkBuilder::new(alloc),
        }
    }

    fn into_value(self) -> LoadFile<A> {
        LoadFile::of_hunks(self.hunks)
    }
}
