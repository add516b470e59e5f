//! A builder of program units from the events of their longwords.
ghost use Rattle.std.specs.Prelude.{◌≡◌, ℕ, List, [], ◌∷◌, ◌++◌, alloc_error, IsErr, Err};
ghost use Rattle.hunk_words.specs.EventValue.{EventValue};
ghost use Rattle.hunk_words.specs.SiteContext.{SiteContext};
ghost use Rattle.hunk_words.specs.declared.event.Event.{Event};
ghost use Rattle.hunk_words.specs.declared.event.FileKind.TheVariants.{Object};

use crate::open_hunk::{Named, OpenHunk};
use crate::open_unit::OpenUnit;
use crate::program_unit::ProgramUnit;
use hunk_words::doshunks::{EXT_ABS, EXT_DEF, EXT_REF32};
use hunk_words::{Builder, Event, FileKind, HunkKind, Memory, OpenName, SiteRefusal, Taker};
use std::alloc::{AllocError, Allocator, Global};

/// What takes the next word.
#[derive(Drop)]
enum Receiver<A: Allocator + Copy> {
    /// The name of the unit.
    UnitName,
    /// The name of the hunk.
    HunkName,
    /// The hunk, which keeps it if it is content.
    Hunk,
    Debug,
    /// The name in an entry of a block after the content.
    Name(Named, OpenName<A>),
}

/// Builds the units of an object file from the events of their longwords: the units that have ended,
/// the current one, and the current hunk. An error leaves it as it was.
#[derive(Drop)]
pub struct UnitBuilder<A: Allocator + Copy = Global> {
    alloc: A,
    // with room for the current unit
    units: Vec<ProgramUnit<A>, A>,
    unit: Option<OpenUnit<A>>,
    hunk: OpenHunk<A>,
    receiver: Receiver<A>,
}

impl<A: Allocator + Copy> UnitBuilder<A> {
    ghost use Rattle.hunk_objects.specs.OpenHunk.{receiver_of};
    ghost use Rattle.hunk_objects.specs.UnitBuilder.{Holds, Steps};

    fn begin_unit(&mut self) -> Result<(), AllocError>
        ensures { Steps self.old self.new result Event.Unit }
    {
        // for the unit that ends, and for the one that begins
        match self.units.reserve(2) {
            Ok(()) => {}
            Err(error) => return Err(error),
        }
        match self.unit.replace(OpenUnit::new(self.alloc)) {
            Some(unit) => self.units.push_reserved(unit.close()),
            None => {}
        }
        self.hunk.end_content();
        self.receiver = Receiver::UnitName;
        Ok(())
    }

    fn begin_name(&mut self) -> Result<(), AllocError>
        ensures { Steps self.old self.new result Event.HunkName }
    {
        self.hunk.end_content();
        self.receiver = Receiver::HunkName;
        Ok(())
    }

    fn begin_content(&mut self, kind: u32, bits: u8, size: u32) -> Result<(), AllocError>
        ensures { Steps self.old self.new result (Event.Content kind bits size) }
    {
        let kind = HunkKind::of_block_type(kind);
        let memory = Memory::of_bits(bits);
        if !self.hunk.begin_content(self.alloc, kind, memory, size) {
            return never_told();
        }
        self.receiver = Receiver::Hunk;
        Ok(())
    }

    fn add_word(&mut self, word: u32) -> Result<(), AllocError>
        ensures { Steps self.old self.new result (Event.Word word) }
    {
        match &mut self.receiver {
            Receiver::Hunk => self.hunk.add_word(word),
            Receiver::HunkName => self.hunk.add_name_word(word),
            Receiver::UnitName => match &mut self.unit {
                Some(unit) => unit.add_name_word(word),
                None => never_told(),
            },
            Receiver::Debug => self.hunk.add_debug_word(word),
            Receiver::Name(_, name) => name.push(word),
        }
    }

    /// The next words are a name in an entry.
    fn begin_named(&mut self, named: Named)
        ensures { (told : EventValue) (context : SiteContext) → Holds self.old told context →
            Holds self.new (record told { receiver = receiver_of named [] }) context }
    {
        self.hunk.end_content();
        self.receiver = Receiver::Name(named, OpenName::new(self.alloc));
    }

    fn begin_symbol(&mut self) -> Result<(), AllocError>
        ensures { Steps self.old self.new result Event.Symbol }
    {
        self.begin_named(Named::Symbol);
        Ok(())
    }

    fn begin_entry(&mut self, entry: u8) -> Result<(), AllocError>
        ensures { Steps self.old self.new result (Event.Entry entry) }
    {
        let named = match entry {
            EXT_DEF => Named::Offset,
            EXT_ABS => Named::Number,
            EXT_REF32 => Named::Reference,
            _ => return never_told(),
        };
        self.begin_named(named);
        Ok(())
    }

    /// Takes the value of what the name before it is the name of.
    fn add_value(&mut self, value: u32) -> Result<(), AllocError>
        ensures { Steps self.old self.new result (Event.Value value) }
    {
        match &mut self.receiver {
            Receiver::Name(named, name) => {
                match self.hunk.add_value(self.alloc, *named, name, value) {
                    Ok(()) => {}
                    Err(error) => return Err(error),
                }
            }
            _ => return never_told(),
        }
        self.receiver = Receiver::Hunk;
        Ok(())
    }

    /// Takes the number of offsets that refer to the name before it.
    fn add_count(&mut self, count: u32) -> Result<(), AllocError>
        ensures { Steps self.old self.new result (Event.Count count) }
    {
        match &mut self.receiver {
            Receiver::Name(named, name) => {
                match self.hunk.add_count(self.alloc, *named, name, count) {
                    Ok(()) => {}
                    Err(error) => return Err(error),
                }
            }
            _ => return never_told(),
        }
        self.receiver = Receiver::Hunk;
        Ok(())
    }

    fn begin_debug(&mut self) -> Result<(), AllocError>
        ensures { (size : ℕ) → Steps self.old self.new result (Event.Debug size) }
    {
        match self.hunk.begin_debug(self.alloc) {
            Ok(()) => {
                self.hunk.end_content();
                self.receiver = Receiver::Debug;
                Ok(())
            }
            Err(error) => Err(error),
        }
    }

    fn end_hunk(&mut self) -> Result<(), AllocError>
        ensures { Steps self.old self.new result Event.HunkEnd }
    {
        match &mut self.unit {
            Some(unit) => match unit.add_hunk(self.alloc, &mut self.hunk) {
                Ok(()) => {}
                Err(error) => return Err(error),
            },
            None => return never_told(),
        }
        self.receiver = Receiver::Hunk;
        Ok(())
    }

    /// Takes an event that is not a site.
    fn build(&mut self, event: Event) -> Result<(), AllocError>
        ensures steps { Steps self.old self.new result event }
        ensures no_reference { (offset : ℕ) → event ≡ Event.RefSite offset → IsErr result }
        ensures no_site { (offset target : ℕ) → event ≡ Event.Site offset target → IsErr result }
    {
        match event {
            Event::Unit => self.begin_unit(),
            Event::HunkName => self.begin_name(),
            Event::Content { kind, bits, size } => self.begin_content(kind, bits, size),
            Event::Word(word) => self.add_word(word),
            Event::Entry(entry) => self.begin_entry(entry),
            Event::Count(count) => self.add_count(count),
            Event::Symbol => self.begin_symbol(),
            Event::Value(value) => self.add_value(value),
            Event::Debug(_) => self.begin_debug(),
            Event::HunkEnd => self.end_hunk(),
            Event::Table(_) | Event::HunkSize { .. } | Event::RefSite(_) | Event::Site { .. } =>
                never_told(),
        }
    }
}

/// No object file has this event at this point. Returns an error and changes nothing.
fn never_told() -> Result<(), AllocError>
    ensures { result ≡ Err alloc_error }
{
    Err(AllocError)
}

impl<A: Allocator + Copy> Taker for UnitBuilder<A> {
    ghost use Rattle.hunk_objects.specs.UnitBuilder.{StandsFor};

    ghost stands_for = { λ builder told. StandsFor builder told };

    ghost KIND = { Object };

    const KIND: FileKind = FileKind::Object;

    /// Each relocation is an event, so a run of them should make no call for its event.
    #[inline(always)]
    fn take(&mut self, event: Event) -> Result<(), SiteRefusal> {
        match event {
            Event::Site { offset, target } => self.hunk.add_site(offset, target),
            Event::RefSite(offset) => self.hunk.add_reference_site(offset),
            _ => match self.build(event) {
                Ok(()) => Ok(()),
                Err(_) => Err(SiteRefusal::OutOfMemory),
            },
        }
    }

    /// Content is most of a file, and names are most of one with many symbols, so the bytes of a run of
    /// either are copied at once.
    fn take_words(&mut self, bytes: &[u8]) -> Result<bool, AllocError> {
        match &mut self.receiver {
            Receiver::Hunk => self.hunk.add_bytes(bytes)?,
            Receiver::Name(_, name) => name.push_bytes(bytes)?,
            Receiver::UnitName | Receiver::HunkName | Receiver::Debug => return Ok(false),
        }
        Ok(true)
    }

    fn size_of(&self, _hunk: u32) -> u32 {
        0
    }
}

impl<A: Allocator + Copy> Builder for UnitBuilder<A> {
    ghost use Rattle.hunk_objects.specs.ProgramUnit.{IsObjectOf};

    ghost is_value = { λ units bytes. IsObjectOf units.items bytes };

    type Alloc = A;

    type Value = Vec<ProgramUnit<A>, A>;

    fn new(alloc: A) -> Self {
        UnitBuilder {
            alloc,
            units: Vec::new(alloc),
            unit: None,
            hunk: OpenHunk::new(alloc, 0),
            receiver: Receiver::Hunk,
        }
    }

    /// The current unit is the last one.
    fn into_value(self) -> Vec<ProgramUnit<A>, A> {
        let mut units = self.units;
        let unit = self.unit;
        match unit {
            Some(unit) => units.push_reserved(unit.close()),
            None => {}
        }
        units
    }
}
