//! The current hunk of a unit.
ghost use Rattle.std.specs.Prelude.{◌≡◌, ℕ, ◌<◌, pred, Bool, true, false, List, [], ◌∷◌, ◌++◌, length, IsTrue, IsFalse, IsErr, OnOk, OnErr};
ghost use Rattle.hunk_words.specs.EventValue.{count_to, on_last, value_to};
ghost use Rattle.hunk_base.specs.OpenName.{Opens, bytes_so_far};
ghost use Rattle.hunk_words.specs.PartialHunk.{HoldsSites, begun_hunk, hunk_with_bytes, hunk_with_site, hunk_with_word};
ghost use Rattle.hunk_base.specs.Sites.{AreApart};
ghost use Rattle.hunk_words.specs.Taker.{JudgesSite};
ghost use Rattle.hunk_words.specs.Values.{Hunk, empty};
ghost use Rattle.hunk_objects.specs.UnitHunk.{IsUnitHunk, content_bytes, object_hunk};

use crate::kept_lists::reserve;
use crate::unit_hunk::{Adds, Definition, UnitHunk};
use hunk_words::{DebugInfo, HunkKind, Memory, Name, OpenName, PartialHunk, SiteRefusal};
use std::alloc::{AllocError, Allocator};
use std::marker::Model;
use std::mem;

/// The most bytes of the name of a symbol or a definition: its longwords are counted in 24 bits.
const MOST_NAME: usize = 0x03FF_FFFC;

/// What a name in a block after the content is the name of.
#[derive(Clone, Copy)]
pub(crate) enum Named {
    /// A symbol.
    Symbol,
    /// An ext_def: an offset in the hunk.
    Offset,
    /// An ext_abs: a number.
    Number,
    /// An ext_ref32: a name that the hunk refers to.
    Reference,
}

/// A hunk of a unit that has not ended. If an allocation fails, it is left as it was.
#[derive(Drop)]
pub(crate) struct OpenHunk<A: Allocator + Copy> {
    name: OpenName<A>,
    kind: HunkKind,
    memory: Memory,
    size: u32,
    partial: PartialHunk<Adds, A>,
    references: Vec<Name<A>, A>,
    definitions: Vec<(Name<A>, Definition), A>,
    debug_info: DebugInfo<A>,
}

impl<A: Allocator + Copy> Model for OpenHunk<A> {
    ghost use Rattle.std.specs.Prelude.{◌≡◌, ◌≤◌, length};
    ghost use Rattle.std.specs.List.{All};
    ghost use Rattle.std.specs.Map.{values_of};
    ghost use Rattle.hunk_objects.specs.OpenHunk.{UnitHunkSoFar};
    ghost use Rattle.hunk_base.specs.Name.{most_name};
    ghost use Rattle.hunk_objects.specs.UnitHunk.{IsAmong};

    ghost Value = { UnitHunkSoFar A };

    ghost view = { λ h. record {
      name = h.name;
      kind = h.kind;
      memory = h.memory;
      size = h.size;
      partial = h.partial;
      references = h.references.items;
      definitions = h.definitions.items;
      debug_info = h.debug_info;
    } };

    // what it hands on to the hunk that it becomes
    ghost invariant = { λ h. All (IsAmong (length h.references.items))
        (values_of h.partial.sites.entries) × All (λ definition. length definition.0 ≤ most_name)
        h.definitions.items × All (λ symbol. length symbol.0 ≤ most_name) h.debug_info.symbols };
}

/// The bytes that a unit has for a hunk of this kind and this size, in longwords.
fn content_len(kind: HunkKind, size: u32) -> u64
    ensures { result ≡ content_bytes kind size }
{
    match kind {
        HunkKind::Bss => 0,
        HunkKind::Code | HunkKind::Data => 4 * u64::from(size),
    }
}

impl<A: Allocator + Copy> OpenHunk<A> {
    ghost use Rattle.hunk_objects.specs.OpenHunk.{Shows, Takes, receiver_of};

    /// A hunk of which nothing is known yet, with this limit for sites. Does not allocate.
    pub(crate) fn new(alloc: A, limit: u64) -> Self
        ensures { Shows result limit [] false empty }
    {
        OpenHunk {
            name: OpenName::new(alloc),
            kind: HunkKind::Bss,
            memory: Memory::Any,
            size: 0,
            partial: PartialHunk::new(alloc, limit),
            references: Vec::new(alloc),
            definitions: Vec::new(alloc),
            debug_info: DebugInfo::new(alloc),
        }
    }

    /// The limit for its sites.
    pub(crate) fn limit(&self) -> u64
        ensures { result ≡ self.now.partial.sites.limit }
    {
        self.partial.limit()
    }

    /// Takes a longword of its name.
    pub(crate) fn add_name_word(&mut self, word: u32) -> Result<(), AllocError>
        ensures same { self.new ≡ record self.old { name = self.new.name } }
        ensures takes { (words : List ℕ) → Opens self.old.name words →
            OnOk result (Opens self.new.name (words ++ word ∷ [])) }
        ensures refuses { (words : List ℕ) → Opens self.old.name words →
            OnErr result (Opens self.new.name words) }
    {
        self.name.push(word)
    }

    /// Begins the content of a hunk of this kind, memory and size in longwords. If there already is
    /// content or a site, it returns `false` and is left as it was.
    pub(crate) fn begin_content(
        &mut self,
        alloc: A,
        kind: HunkKind,
        memory: Memory,
        size: u32,
    ) -> bool
        ensures begins { IsTrue result → self.new ≡ record self.old {
          kind = kind;
          memory = memory;
          size = size;
          partial = begun_hunk (content_bytes kind size);
        } }
        ensures first { IsTrue result → (self.old.partial.content ≡ []) ×
            (self.old.partial.sites.entries ≡ []) }
        ensures refused { IsFalse result → self.new ≡ self.old }
    {
        if !self.partial.begin_content(alloc, content_len(kind, size)) {
            return false;
        }
        self.kind = kind;
        self.memory = memory;
        self.size = size;
        true
    }

    /// Takes a word, which is kept if it is content.
    pub(crate) fn add_word(&mut self, word: u32) -> Result<(), AllocError>
        ensures adds { OnOk result
            (self.new ≡ record self.old { partial = hunk_with_word self.old.partial word }) }
        ensures refused { OnErr result (self.new ≡ self.old) }
    {
        self.partial.add_word(word)
    }

    /// Takes the bytes of a run of words, which are kept if they are content.
    pub(crate) fn add_bytes(&mut self, bytes: &[u8]) -> Result<(), AllocError>
        ensures adds { OnOk result
            (self.new ≡ record self.old { partial = hunk_with_bytes self.old.partial bytes.now }) }
        ensures refused { OnErr result (self.new ≡ self.old) }
    {
        self.partial.add_bytes(bytes)
    }

    /// The next word is not content.
    pub(crate) fn end_content(&mut self)
        ensures { self.new ≡
            record self.old { partial = record self.old.partial { in_content = false } } }
    {
        self.partial.end_content();
    }

    /// Adds the site of the four bytes from an offset, to which the base of a hunk is added.
    pub(crate) fn add_site(&mut self, offset: u32, hunk: u32) -> Result<(), SiteRefusal>
        ensures adds { OnOk result (self.new ≡
            record self.old { partial = hunk_with_site self.old.partial offset (Adds.Hunk hunk) }) }
        ensures holds { (limit : ℕ) (seen : List ℕ) → HoldsSites limit seen self.old.partial →
            OnOk result (HoldsSites limit (offset ∷ seen) self.new.partial) }
        ensures judges { (limit : ℕ) (seen : List ℕ) → HoldsSites limit seen self.old.partial →
            JudgesSite limit seen offset result }
        ensures refused { OnErr result (self.new ≡ self.old) }
    {
        self.partial.add_site(offset, Adds::Hunk(hunk))
    }

    /// Adds a site that refers to the name of the last reference.
    pub(crate) fn add_reference_site(&mut self, offset: u32) -> Result<(), SiteRefusal>
        ensures adds { OnOk result (self.new ≡ record self.old {
          partial = hunk_with_site
              self.old.partial offset (Adds.Reference (pred (length self.old.references)));
        }) }
        ensures holds { (limit : ℕ) (seen : List ℕ) → HoldsSites limit seen self.old.partial →
            OnOk result (HoldsSites limit (offset ∷ seen) self.new.partial) }
        ensures judges { (limit : ℕ) (seen : List ℕ) → HoldsSites limit seen self.old.partial →
            JudgesSite limit seen offset result }
        ensures refused { OnErr result (self.new ≡ self.old) }
    {
        match self.references.len().checked_sub(1) {
            Some(last) => match u32::try_from(last) {
                Ok(last) => self.partial.add_site(offset, Adds::Reference(last)),
                Err(_) => Err(SiteRefusal::OutOfMemory),
            },
            // no file has a reference's site before its name
            None => Err(SiteRefusal::OutOfMemory),
        }
    }

    /// Takes the value of what has this name, which is left without longwords. Also fails for a
    /// reference, which has none, and for a name that is longer than one is in a file.
    pub(crate) fn add_value(
        &mut self,
        alloc: A,
        named: Named,
        name: &mut OpenName<A>,
        value: u32,
    ) -> Result<(), AllocError>
        ensures takes { (words : List ℕ) → Opens name.old words →
            Takes self.old self.new result (value_to (receiver_of named words) value) }
        ensures refused { OnErr result (self.new ≡ self.old) }
        ensures name { OnErr result (name.new ≡ name.old) }
    {
        match named {
            Named::Symbol => self.add_symbol(alloc, name, value),
            Named::Offset => self.add_definition(alloc, name, Definition::At(value)),
            Named::Number => self.add_definition(alloc, name, Definition::Absolute(value)),
            Named::Reference => Err(AllocError),
        }
    }

    /// Takes the number of offsets that refer to this name, which is left without longwords if there
    /// are some. A reference without offsets is dropped. Also fails for what is no reference.
    pub(crate) fn add_count(
        &mut self,
        alloc: A,
        named: Named,
        name: &mut OpenName<A>,
        count: u32,
    ) -> Result<(), AllocError>
        ensures takes { (words : List ℕ) → Opens name.old words →
            Takes self.old self.new result (count_to (receiver_of named words) count) }
        ensures refused { OnErr result (self.new ≡ self.old) }
        ensures name { OnErr result (name.new ≡ name.old) }
    {
        match named {
            Named::Reference => {
                if count == 0 {
                    return Ok(());
                }
                self.add_reference(alloc, name)
            }
            Named::Symbol | Named::Offset | Named::Number => Err(AllocError),
        }
    }

    fn add_reference(&mut self, alloc: A, name: &mut OpenName<A>) -> Result<(), AllocError>
        ensures adds { OnOk result (self.new ≡
            record self.old { references = self.old.references ++ bytes_so_far name.old ∷ [] }) }
        ensures refused { OnErr result (self.new ≡ self.old) }
        ensures name { OnErr result (name.new ≡ name.old) }
    {
        reserve(&mut self.references)?;
        let whole = mem::replace(name, OpenName::new(alloc));
        self.references.push_reserved(whole.close());
        Ok(())
    }

    fn add_definition(
        &mut self,
        alloc: A,
        name: &mut OpenName<A>,
        definition: Definition,
    ) -> Result<(), AllocError>
        ensures adds { OnOk result (self.new ≡ record self.old {
          definitions = self.old.definitions ++ (bytes_so_far name.old, definition) ∷ [];
        }) }
        ensures refused { OnErr result (self.new ≡ self.old) }
        ensures name { OnErr result (name.new ≡ name.old) }
    {
        if name.len() > MOST_NAME {
            return Err(AllocError);
        }
        reserve(&mut self.definitions)?;
        let whole = mem::replace(name, OpenName::new(alloc));
        self.definitions.push_reserved((whole.close(), definition));
        Ok(())
    }

    fn add_symbol(&mut self, alloc: A, name: &mut OpenName<A>, value: u32) -> Result<(), AllocError>
        ensures adds { OnOk result
            (self.new ≡ record self.old {
              debug_info = record self.old.debug_info {
                symbols = self.old.debug_info.symbols ++ (bytes_so_far name.old, value) ∷ [];
              };
            }) }
        ensures refused { OnErr result (self.new ≡ self.old) }
        ensures name { OnErr result (name.new ≡ name.old) }
    {
        if name.len() > MOST_NAME {
            return Err(AllocError);
        }
        self.debug_info.add_symbol(alloc, name, value)
    }

    /// Begins a debug block.
    pub(crate) fn begin_debug(&mut self, alloc: A) -> Result<(), AllocError>
        ensures begins { OnOk result
            (self.new ≡ record self.old {
              debug_info = record self.old.debug_info {
                debugs = self.old.debug_info.debugs ++ [] ∷ [];
              };
            }) }
        ensures refused { OnErr result (self.new ≡ self.old) }
    {
        self.debug_info.begin_debug(alloc)
    }

    /// Takes a longword of the last debug block, if there is one.
    pub(crate) fn add_debug_word(&mut self, word: u32) -> Result<(), AllocError>
        ensures adds { OnOk result
            (self.new ≡ record self.old {
              debug_info = record self.old.debug_info {
                debugs = on_last
                    (λ ws. ws ++ word ∷ []) self.old.debug_info.debugs;
              };
            }) }
        ensures refused { OnErr result (self.new ≡ self.old) }
    {
        self.debug_info.add_debug_word(word)
    }

    /// Whether its content is whole, as that of each hunk of a file is at its end.
    pub(crate) fn is_whole(&self) -> bool
        ensures whole { IsTrue result →
            length self.now.partial.content ≡ self.now.partial.sites.limit }
        ensures limit { IsTrue result →
            self.now.partial.sites.limit ≡ content_bytes self.now.kind self.now.size }
        ensures apart { IsTrue result → AreApart self.now.partial.sites }
    {
        self.partial.is_full() && self.partial.limit() == content_len(self.kind, self.size)
    }

    /// The hunk, whose content is whole.
    pub(crate) fn close(self) -> UnitHunk<A>
        requires whole { length self.partial.content ≡ self.partial.sites.limit }
        requires limit { self.partial.sites.limit ≡ content_bytes self.kind self.size }
        requires apart { AreApart self.partial.sites }
        ensures value { (limit : ℕ) (seen : List ℕ) (in_content : Bool) (told : Hunk) →
            Shows self limit seen in_content told → result ≡ object_hunk told }
        ensures valid { IsUnitHunk result }
    {
        let (content, sites) = self.partial.into_parts();
        let (symbols, debugs) = self.debug_info.into_lists();
        UnitHunk {
            name: self.name.close(),
            kind: self.kind,
            memory: self.memory,
            size: self.size,
            content,
            sites,
            references: self.references,
            definitions: self.definitions,
            symbols,
            debugs,
        }
    }
}
