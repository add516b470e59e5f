//! A builder of the hunks of a load file, one after another, from the events of its longwords.
ghost use Rattle.std.specs.Prelude.{◌≡◌, ℕ, List, ◌*◌, ◌<◌, length, map, slice_index, slice_index_or, IfOk, IfSome, OnOk, OnErr, alloc_error, Err};
ghost use Rattle.hunk_base.specs.Longwords.{IsWhole, longwords};
ghost use Rattle.hunk_words.specs.EventValue.{EventValue, initial_load};
ghost use Rattle.hunk_words.specs.PartialHunk.{goes_to_content, hunk_with_bytes};
ghost use Rattle.hunk_words.specs.SiteContext.{SiteContext, initial_context};
ghost use Rattle.hunk_words.specs.Taker.{JudgesSite};
ghost use Rattle.hunk_words.specs.declared.event.Event.{Event};

use crate::load_hunk::LoadHunk;
use crate::open_hunk::OpenHunk;
use hunk_words::{Event, HunkKind, Memory, OpenName, SiteRefusal};
use std::alloc::{AllocError, Allocator};
use std::mem;

/// What takes the next word.
#[derive(Drop)]
enum Receiver<A: Allocator + Copy> {
    /// Nothing: the word is not kept.
    Nothing,
    Content,
    Debug,
    Symbol(OpenName<A>),
}

/// Builds the hunks of a load file, one after another, from the events of its longwords. It keeps the
/// current hunk, and hands out each hunk that ends. An error leaves it as it was.
#[derive(Drop)]
pub(crate) struct HunkBuilder<A: Allocator + Copy> {
    alloc: A,
    // the memory bits and the sizes in the header
    sizes: Vec<(u8, u32), A>,
    // how many hunks have ended
    ended: usize,
    hunk: OpenHunk<A>,
    receiver: Receiver<A>,
}

/// The bytes in `longwords` longwords.
fn bytes_in(longwords: u32) -> u64
    ensures { result ≡ 4 * longwords }
{
    4 * u64::from(longwords)
}

impl<A: Allocator + Copy> HunkBuilder<A> {
    ghost use Rattle.hunk_loadfile.specs.HunkBuilder.{Builds, Ends, IsWithinHunks, RunBuilt, Steps};

    /// It has taken no event. Does not allocate.
    pub(crate) fn new(alloc: A) -> Self
        ensures { Builds result initial_load initial_context }
    {
        HunkBuilder {
            alloc,
            sizes: Vec::new(alloc),
            ended: 0,
            hunk: OpenHunk::new(alloc, 0),
            receiver: Receiver::Nothing,
        }
    }

    /// How many hunks have ended.
    pub(crate) fn ended(&self) -> usize
        ensures { result ≡ self.now.ended }
    {
        self.ended
    }

    /// The limit for the sites of the current hunk, in bytes.
    pub(crate) fn limit(&self) -> u64
        ensures { (told : EventValue) (watch : SiteContext) → Builds self.now told watch →
            result ≡ watch.position.limit }
    {
        self.hunk.limit()
    }

    /// Whether the next word is content.
    pub(crate) fn takes_content(&self) -> bool
        ensures { (told : EventValue) (watch : SiteContext) → Builds self.now told watch →
            result ≡ goes_to_content told.receiver }
    {
        matches!(&self.receiver, Receiver::Content)
    }

    /// The size of this hunk in the header.
    pub(crate) fn size(&self, hunk: usize) -> u32
        ensures { result ≡ slice_index (map (λ s. s.1) self.now.sizes.items) hunk }
    {
        match self.sizes.get(hunk) {
            Some(header) => header.1,
            None => 0,
        }
    }

    /// The bits and the size in the header for the current hunk.
    fn header(&self) -> Option<(u8, u32)>
        ensures within { IfSome result (λ header. self.now.ended < length self.now.sizes.items) }
        ensures value { IfSome result
            (λ header. header ≡ slice_index_or self.now.sizes.items self.now.ended header) }
    {
        match self.sizes.get(self.ended) {
            Some(header) => Some(*header),
            None => None,
        }
    }

    fn add_size(&mut self, bits: u8, size: u32) -> Result<(), AllocError>
        ensures { Steps self.old self.new result (Event.HunkSize bits size) }
    {
        match self.sizes.push((bits, size)) {
            Ok(()) => Ok(()),
            Err(_) => Err(AllocError),
        }
    }

    fn begin_content(&mut self, kind: u32) -> Result<(), AllocError>
        ensures { (bits size : ℕ) → Steps self.old self.new result (Event.Content kind bits size) }
    {
        let limit = bytes_in(self.size(self.ended));
        let kind = HunkKind::of_block_type(kind);
        if !self.hunk.begin_content(self.alloc, kind, limit) {
            return never_told();
        }
        self.receiver = Receiver::Content;
        Ok(())
    }

    fn add_word(&mut self, word: u32) -> Result<(), AllocError>
        ensures { Steps self.old self.new result (Event.Word word) }
    {
        match &mut self.receiver {
            Receiver::Nothing => Ok(()),
            Receiver::Content => self.hunk.add_word(word),
            Receiver::Debug => self.hunk.add_debug_word(word),
            Receiver::Symbol(name) => name.push(word),
        }
    }

    fn begin_name(&mut self) -> Result<(), AllocError>
        ensures { Steps self.old self.new result Event.HunkName }
    {
        self.hunk.end_content();
        self.receiver = Receiver::Nothing;
        Ok(())
    }

    fn begin_symbol(&mut self) -> Result<(), AllocError>
        ensures { Steps self.old self.new result Event.Symbol }
    {
        self.hunk.end_content();
        self.receiver = Receiver::Symbol(OpenName::new(self.alloc));
        Ok(())
    }

    /// Takes the value of a symbol, whose name came before.
    fn add_value(&mut self, value: u32) -> Result<(), AllocError>
        ensures { Steps self.old self.new result (Event.Value value) }
    {
        match &mut self.receiver {
            Receiver::Symbol(name) => match self.hunk.add_symbol(self.alloc, name, value) {
                Ok(()) => {}
                Err(error) => return Err(error),
            },
            _ => return never_told(),
        }
        self.receiver = Receiver::Nothing;
        Ok(())
    }

    fn begin_debug(&mut self) -> Result<(), AllocError>
        ensures { (size : ℕ) → Steps self.old self.new result (Event.Debug size) }
    {
        match self.hunk.add_debug(self.alloc) {
            Ok(()) => {
                self.hunk.end_content();
                self.receiver = Receiver::Debug;
                Ok(())
            }
            Err(error) => Err(error),
        }
    }

    /// Takes an event that is neither a site nor the end of a hunk.
    pub(crate) fn take(&mut self, event: Event) -> Result<(), AllocError>
        ensures steps { Steps self.old self.new result event }
        ensures only { OnOk result (IsWithinHunks event) }
    {
        match event {
            Event::Table(_) => Ok(()),
            Event::HunkSize { bits, size } => self.add_size(bits, size),
            Event::HunkName => self.begin_name(),
            Event::Content { kind, .. } => self.begin_content(kind),
            Event::Word(word) => self.add_word(word),
            Event::Symbol => self.begin_symbol(),
            Event::Value(value) => self.add_value(value),
            Event::Debug(_) => self.begin_debug(),
            Event::HunkEnd
            | Event::Unit
            | Event::Entry(_)
            | Event::Count(_)
            | Event::RefSite(_)
            | Event::Site { .. } => never_told(),
        }
    }

    /// Adds a site: the four bytes from `offset`, to which the base of the hunk `target` is added.
    pub(crate) fn add_site(&mut self, offset: u32, target: u32) -> Result<(), SiteRefusal>
        ensures steps { Steps self.old self.new result (Event.Site offset target) }
        ensures judges { (told : EventValue) (watch : SiteContext) → Builds self.old told watch →
            JudgesSite watch.position.limit watch.seen offset result }
    {
        self.hunk.add_site(offset, target)
    }

    /// Takes the bytes of a run of words if they are content. Returns whether they are.
    pub(crate) fn add_bytes(&mut self, bytes: &[u8]) -> Result<bool, AllocError>
        requires { IsWhole bytes.now }
        ensures { (told : EventValue) (watch : SiteContext) → Builds self.old told watch →
            RunBuilt self.new told watch (longwords bytes.now) result }
    {
        match &self.receiver {
            Receiver::Content => {}
            _ => return Ok(false),
        }
        self.hunk.add_bytes(bytes)?;
        Ok(true)
    }

    /// Ends the current hunk, and hands it out.
    pub(crate) fn end_hunk(&mut self) -> Result<LoadHunk<A>, AllocError>
        ensures ends { Ends self.old self.new result }
        ensures limit { IfOk result (λ hunk. hunk.sites.limit ≡ 4 * hunk.size) }
    {
        let (bits, size) = match self.header() {
            Some(header) => header,
            None => return Err(AllocError),
        };
        let limit = self.hunk.limit();
        if limit != bytes_in(size) {
            return Err(AllocError);
        }
        let hunk = mem::replace(&mut self.hunk, OpenHunk::new(self.alloc, limit));
        self.ended += 1;
        self.receiver = Receiver::Nothing;
        Ok(hunk.close(Memory::of_bits(bits), size))
    }
}

/// No load file has this event at this point. Returns an error and changes nothing.
fn never_told() -> Result<(), AllocError>
    ensures { result ≡ Err alloc_error }
{
    Err(AllocError)
}
