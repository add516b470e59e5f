//! The current hunk of a load file.
ghost use Rattle.std.specs.Prelude.{◌≡◌, ℕ, ◌*◌, Bool, true, false, List, [], ◌∷◌, ◌++◌, IsTrue, IsFalse, OnOk, OnErr};
ghost use Rattle.hunk_words.specs.EventValue.{on_last};
ghost use Rattle.hunk_base.specs.OpenName.{Opens};
ghost use Rattle.hunk_words.specs.PartialHunk.{hunk_with_bytes};
ghost use Rattle.hunk_words.specs.Values.{Hunk, empty, with_tables, one_debug, one_symbol};
ghost use Rattle.hunk_loadfile.specs.LoadFile.{file_hunk};
ghost use Rattle.hunk_words.specs.Kinds.{memory_of};

use crate::load_hunk::LoadHunk;
use hunk_words::{DebugInfo, HunkKind, Memory, OpenName, PartialHunk, SiteRefusal};
use std::alloc::{AllocError, Allocator};

/// A hunk of a load file that has not ended. If an allocation fails, it is left as it was.
#[derive(Drop)]
pub(crate) struct OpenHunk<A: Allocator + Copy> {
    kind: HunkKind,
    partial: PartialHunk<u32, A>,
    debug_info: DebugInfo<A>,
}

impl<A: Allocator + Copy> OpenHunk<A> {
    ghost use Rattle.hunk_loadfile.specs.OpenHunk.{Shows, Takes, TakesSite, told_with_word};

    /// A hunk of which nothing is known yet, with this limit for sites. Does not allocate.
    pub(crate) fn new(alloc: A, limit: u64) -> Self
        ensures { Shows result limit [] false empty }
    {
        OpenHunk {
            kind: HunkKind::Bss,
            partial: PartialHunk::new(alloc, limit),
            debug_info: DebugInfo::new(alloc),
        }
    }

    /// The limit for its sites.
    pub(crate) fn limit(&self) -> u64
        ensures shown { (limit : ℕ) (seen : List ℕ) (in_content : Bool) (told : Hunk) →
            Shows self.now limit seen in_content told → result ≡ limit }
        ensures kept { result ≡ self.now.partial.sites.limit }
    {
        self.partial.limit()
    }

    /// Takes the type of the content, which begins, and the limit for the sites. If there already is
    /// content or a site, it returns `false` and is left as it was.
    pub(crate) fn begin_content(&mut self, alloc: A, kind: HunkKind, limit: u64) -> bool
        ensures takes { (before : ℕ) (seen : List ℕ) (in_content : Bool) (told : Hunk)
            (bits size : ℕ) → Shows self.old before seen in_content told → IsTrue result → Shows
            self.new limit seen true (record told { kind = kind; memory = bits; size = size }) }
        ensures refuses { (before : ℕ) (seen : List ℕ) (in_content : Bool) (told : Hunk) →
            Shows self.old before seen in_content told → IsFalse result →
            Shows self.new before seen in_content told }
    {
        if !self.partial.begin_content(alloc, limit) {
            return false;
        }
        self.kind = kind;
        true
    }

    /// Takes a word, which is kept if it is content.
    pub(crate) fn add_word(&mut self, word: u32) -> Result<(), AllocError>
        ensures { Takes self.old self.new result (told_with_word word) }
    {
        self.partial.add_word(word)
    }

    /// Takes the bytes of a run of words, which are kept if they are content.
    pub(crate) fn add_bytes(&mut self, bytes: &[u8]) -> Result<(), AllocError>
        ensures takes { OnOk result
            (self.new ≡ record self.old { partial = hunk_with_bytes self.old.partial bytes.now }) }
        ensures refuses { OnErr result (self.new ≡ self.old) }
    {
        self.partial.add_bytes(bytes)
    }

    /// The next word is not content.
    pub(crate) fn end_content(&mut self)
        ensures { (limit : ℕ) (seen : List ℕ) (in_content : Bool) (told : Hunk) →
            Shows self.old limit seen in_content told → Shows self.new limit seen false told }
    {
        self.partial.end_content();
    }

    /// Adds a site: the four bytes from `offset`, to which the base of the hunk `target` is added.
    pub(crate) fn add_site(&mut self, offset: u32, target: u32) -> Result<(), SiteRefusal>
        ensures { TakesSite self.old self.new result offset target }
    {
        self.partial.add_site(offset, target)
    }

    /// Takes a symbol, which leaves its name without longwords.
    pub(crate) fn add_symbol(
        &mut self,
        alloc: A,
        name: &mut OpenName<A>,
        value: u32,
    ) -> Result<(), AllocError>
        ensures takes { (words : List ℕ) → Opens name.old words → Takes self.old self.new result
            (λ in_content told. with_tables told (one_symbol words value)) }
        ensures name { OnErr result (name.new ≡ name.old) }
    {
        self.debug_info.add_symbol(alloc, name, value)
    }

    /// Begins a debug block.
    pub(crate) fn add_debug(&mut self, alloc: A) -> Result<(), AllocError>
        ensures { Takes self.old self.new result
            (λ in_content told. with_tables told (one_debug [])) }
    {
        self.debug_info.begin_debug(alloc)
    }

    /// Takes a longword of the last debug block, if there is one.
    pub(crate) fn add_debug_word(&mut self, word: u32) -> Result<(), AllocError>
        ensures { Takes self.old self.new result
            (λ in_content told. record told {
              tables = record told.tables {
                debugs = on_last
                    (λ ws. ws ++ word ∷ []) told.tables.debugs;
              };
            }) }
    {
        self.debug_info.add_debug_word(word)
    }

    /// The hunk, with the memory and the size that the header has for it.
    pub(crate) fn close(self, memory: Memory, size: u32) -> LoadHunk<A>
        ensures value { (bits : ℕ) (seen : List ℕ) (in_content : Bool) (told : Hunk) →
            Shows self (4 * size) seen in_content told → memory ≡ memory_of bits →
            result ≡ file_hunk bits size told }
        ensures size { result.size ≡ size }
        ensures limit { result.sites.limit ≡ self.partial.sites.limit }
    {
        let (content, sites) = self.partial.into_parts();
        let (symbols, debugs) = self.debug_info.into_lists();
        LoadHunk {
            kind: self.kind,
            memory,
            size,
            content,
            sites,
            symbols,
            debugs,
        }
    }
}
