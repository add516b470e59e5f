//! A hunk of a program unit.
ghost use Rattle.std.specs.Prelude.{◌≡◌, IfOk};
ghost use Rattle.hunk_words.specs.DebugInfo.{lists_of};
ghost use Rattle.hunk_objects.specs.UnitHunk.{IsUnitHunk};

use hunk_words::{HunkKind, Memory, Name, Sites};
use std::alloc::{AllocError, Allocator, Global};
use std::marker::Model;

/// What is added to the longword at a site, when its hunk is linked and loaded.
#[derive(Clone, Copy, Debug, PartialEq, Eq)]
pub enum Adds {
    /// The base of the hunk with this number, which counts the hunks of the same unit from 0. The
    /// unit may have no such hunk: the linker judges the number.
    Hunk(u32),
    /// What the name of a reference stands for: the one with this index, from 0, among the
    /// references of the same hunk.
    Reference(u32),
}

/// What a name stands for.
#[derive(Clone, Copy, Debug, PartialEq, Eq)]
pub enum Definition {
    /// This offset, in bytes, of the hunk that defines the name. It may be any longword, also one
    /// past the hunk.
    At(u32),
    /// This number.
    Absolute(u32),
}

/// A hunk of a program unit (The AmigaDOS Manual, 3rd edition, "Amiga binary file structure"). It is
/// made only by reading an object file.
///
/// Its content is whole. Its sites lie inside the content, no two of them share a byte, and each
/// that refers to a name names one of the hunk's references. The names of definitions and symbols
/// have at most 2^26 - 4 bytes.
///
/// Contracts see it as the record of what its readers return, with names and content as bytes, the
/// sites as a map, and all else as lists.
#[derive(Debug, Drop)]
pub struct UnitHunk<A: Allocator + Copy = Global> {
    pub(crate) name: Name<A>,
    pub(crate) kind: HunkKind,
    pub(crate) memory: Memory,
    pub(crate) size: u32,
    pub(crate) content: Vec<u8, A>,
    pub(crate) sites: Sites<Adds, A>,
    pub(crate) references: Vec<Name<A>, A>,
    pub(crate) definitions: Vec<(Name<A>, Definition), A>,
    pub(crate) symbols: Vec<(Name<A>, u32), A>,
    pub(crate) debugs: Vec<Vec<u32, A>, A>,
}

/// What a load file keeps of a hunk of a program unit.
#[derive(Drop)]
pub struct HunkParts<A: Allocator + Copy = Global> {
    /// What the hunk holds.
    pub kind: HunkKind,
    /// Which memory it asks for.
    pub memory: Memory,
    /// Its size in longwords.
    pub size: u32,
    /// Its bytes.
    pub content: Vec<u8, A>,
    /// The offsets, in bytes, of the longwords to which something is added, and what is added there.
    pub sites: Sites<Adds, A>,
    /// The symbols for a debugger, each a name and a value, in file order.
    pub symbols: Vec<(Name<A>, u32), A>,
    /// The debug blocks, each a list of longwords, in file order.
    pub debugs: Vec<Vec<u32, A>, A>,
}

impl<A: Allocator + Copy> Model for UnitHunk<A> {
    ghost use Rattle.hunk_words.specs.DebugInfo.{lists_of};
    ghost use Rattle.hunk_objects.specs.UnitHunk.{ObjectHunk, IsUnitHunk};

    ghost Value = { ObjectHunk };

    ghost view = { λ h. record {
      name = h.name;
      kind = h.kind;
      memory = h.memory;
      size = h.size;
      content = h.content.items;
      sites = h.sites;
      references = h.references.items;
      definitions = h.definitions.items;
      symbols = h.symbols.items;
      debugs = lists_of h.debugs.items;
    } };

    ghost invariant = { λ h. IsUnitHunk (record {
      name = h.name;
      kind = h.kind;
      memory = h.memory;
      size = h.size;
      content = h.content.items;
      sites = h.sites;
      references = h.references.items;
      definitions = h.definitions.items;
      symbols = h.symbols.items;
      debugs = lists_of h.debugs.items;
    }) };
}

impl<A: Allocator + Copy> UnitHunk<A> {
    /// Its name, empty if the hunk has none.
    pub fn name(&self) -> &Name<A>
        ensures { result.now ≡ self.now.name }
    {
        &self.name
    }

    /// What the hunk holds.
    pub fn kind(&self) -> HunkKind
        ensures { result ≡ self.now.kind }
    {
        self.kind
    }

    /// Which memory it asks for.
    pub fn memory(&self) -> Memory
        ensures { result ≡ self.now.memory }
    {
        self.memory
    }

    /// Its size in longwords.
    pub fn size(&self) -> u32
        ensures { result ≡ self.now.size }
    {
        self.size
    }

    /// Its bytes: 4 for each longword of its size, but none for a BSS, which is zeros.
    pub fn content(&self) -> &[u8]
        ensures value { result.now ≡ self.now.content }
        ensures valid { IsUnitHunk self.now }
    {
        &self.content
    }

    /// The offsets, in bytes, of the longwords to which something is added, and what is added there.
    pub fn sites(&self) -> &Sites<Adds, A>
        ensures value { result.now ≡ self.now.sites }
        ensures valid { IsUnitHunk self.now }
    {
        &self.sites
    }

    /// The names that the hunk refers to, in file order. A name that is referred to twice stands here
    /// twice, and each one has a site at least.
    pub fn references(&self) -> &[Name<A>]
        ensures value { result.now ≡ self.now.references }
        ensures valid { IsUnitHunk self.now }
    {
        &self.references
    }

    /// The names that the hunk defines, in file order.
    pub fn definitions(&self) -> &[(Name<A>, Definition)]
        ensures { result.now ≡ self.now.definitions }
    {
        &self.definitions
    }

    /// The symbols for a debugger, each a name and a value, in file order.
    pub fn symbols(&self) -> &[(Name<A>, u32)]
        ensures value { result.now ≡ self.now.symbols }
        ensures valid { IsUnitHunk self.now }
    {
        &self.symbols
    }

    /// The debug blocks, each a list of longwords, in file order.
    pub fn debugs(&self) -> &[Vec<u32, A>]
        ensures { lists_of result.now ≡ self.now.debugs }
    {
        &self.debugs
    }

    /// Equal symbols.
    ///
    /// # Errors
    ///
    /// [`AllocError`] only if an allocation failed.
    pub fn copy_symbols(&self, alloc: A) -> Result<Vec<(Name<A>, u32), A>, AllocError>
        ensures { IfOk result (λ symbols. symbols.items ≡ self.now.symbols) }
    {
        let mut symbols = Vec::with_capacity(alloc, self.symbols.len())?;
        for (name, value) in &self.symbols {
            symbols.push_reserved((name.copy(alloc)?, *value));
        }
        Ok(symbols)
    }

    /// Equal debug blocks.
    ///
    /// # Errors
    ///
    /// [`AllocError`] only if an allocation failed.
    pub fn copy_debugs(&self, alloc: A) -> Result<Vec<Vec<u32, A>, A>, AllocError>
        ensures { IfOk result (λ debugs. lists_of debugs.items ≡ self.now.debugs) }
    {
        let mut debugs = Vec::with_capacity(alloc, self.debugs.len())?;
        for words in &self.debugs {
            debugs.push_reserved(Vec::from_slice(alloc, words)?);
        }
        Ok(debugs)
    }

    /// What a load file keeps of the hunk, moved out of it. Does not allocate.
    pub fn into_parts(self) -> HunkParts<A>
        ensures kind { result.kind ≡ self.kind }
        ensures memory { result.memory ≡ self.memory }
        ensures size { result.size ≡ self.size }
        ensures content { result.content.items ≡ self.content }
        ensures sites { result.sites ≡ self.sites }
        ensures symbols { result.symbols.items ≡ self.symbols }
        ensures debugs { lists_of result.debugs.items ≡ self.debugs }
        ensures valid { IsUnitHunk self }
    {
        HunkParts {
            kind: self.kind,
            memory: self.memory,
            size: self.size,
            content: self.content,
            sites: self.sites,
            symbols: self.symbols,
            debugs: self.debugs,
        }
    }
}
