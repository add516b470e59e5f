//! What C is told of a file and of what is in it.
ghost use Rattle.std.specs.Prelude.{◌≡◌};
ghost use denote.RawPtr.{InBlock};
ghost use Rattle.amihunk_c.specs.Facts.{HunkFacts as Hunk, load_site, unit_site};
ghost use Rattle.amihunk_c.specs.Keeping.{IsUndefinedTold};
ghost use Rattle.amihunk_c.specs.Told.{IsContentsTold, IsDebugTold, IsDefinitionTold, IsHunkTold, IsSymbolTold, IsUnitTold, kind_code};

use crate::codes::memory_code;
use crate::facts::HunkFacts;
use crate::span::Span;
use hunk_objects::{Adds, Definition};
use hunk_origins::UndefinedName;
use hunk_words::{HunkKind, Name};

/// What a file has.
#[repr(C)]
#[derive(Clone, Copy)]
pub struct ContentsTold {
    /// The number of units; 1 for a load file.
    pub units: u64,
    /// Which kind it is: 0 for an object file, 1 for a load file.
    pub kind: u32,
}

/// A program unit, or all hunks of a load file.
#[repr(C)]
#[derive(Drop)]
pub struct UnitTold {
    /// Its name; no bytes for a load file.
    pub name: Span,
    /// The number of its hunks.
    pub hunks: u64,
}

/// A hunk as it is in a file.
#[repr(C)]
#[derive(Drop)]
pub struct HunkTold {
    /// Its name; no bytes in a load file.
    pub name: Span,
    /// The bytes that the file has for it.
    pub stored: Span,
    /// The number of its relocations and references.
    pub sites: u64,
    /// The number of its symbols.
    pub symbols: u64,
    /// The number of names that it defines.
    pub definitions: u64,
    /// The number of names that it refers to.
    pub references: u64,
    /// The number of its debug blocks.
    pub debugs: u64,
    /// Its size in longwords.
    pub size: u32,
    /// What it holds.
    pub kind: u32,
    /// Which memory it asks for.
    pub memory: u32,
}

impl HunkTold {
    /// What is told of a hunk.
    pub(crate) fn of(hunk: &HunkFacts<'_>) -> HunkTold
        ensures { IsHunkTold hunk.now result }
    {
        HunkTold {
            name: Span::of(hunk.name),
            stored: Span::of(hunk.stored),
            sites: hunk.sites.len() as u64,
            symbols: hunk.symbols.len() as u64,
            definitions: hunk.definitions.len() as u64,
            references: hunk.references.len() as u64,
            debugs: hunk.debugs.len() as u64,
            size: hunk.size,
            kind: kind_code(hunk.kind),
            memory: memory_code(hunk.memory),
        }
    }
}

/// The number of a kind of hunk, as C knows it.
pub(crate) fn kind_code(kind: HunkKind) -> u32
    ensures { result ≡ kind_code kind }
{
    match kind {
        HunkKind::Code => 0,
        HunkKind::Data => 1,
        HunkKind::Bss => 2,
    }
}

/// A longword to which something is added.
#[repr(C)]
#[derive(Clone, Copy)]
pub struct SiteTold {
    /// Its offset in the hunk, in bytes.
    pub offset: u32,
    /// What is added: 0 for the base of a hunk, 1 for what a name stands for.
    pub kind: u32,
    /// The number of that hunk, or of the reference with that name.
    pub target: u32,
}

impl SiteTold {
    /// A site of a hunk of a load file.
    pub(crate) fn of_load(offset: u32, hunk: u32) -> SiteTold
        ensures { result ≡ load_site (offset, hunk) }
    {
        SiteTold {
            offset,
            kind: 0,
            target: hunk,
        }
    }

    /// A site of a hunk of a unit.
    pub(crate) fn of_unit(offset: u32, adds: Adds) -> SiteTold
        ensures { result ≡ unit_site (offset, adds) }
    {
        match adds {
            Adds::Hunk(hunk) => SiteTold::of_load(offset, hunk),
            Adds::Reference(index) => SiteTold {
                offset,
                kind: 1,
                target: index,
            },
        }
    }
}

/// A symbol.
#[repr(C)]
#[derive(Drop)]
pub struct SymbolTold {
    /// Its name.
    pub name: Span,
    /// Its value.
    pub value: u32,
}

impl SymbolTold {
    /// What is told of a symbol.
    pub(crate) fn of(symbol: &(Name, u32)) -> SymbolTold
        ensures { IsSymbolTold symbol.now result }
    {
        SymbolTold {
            name: Span::of(symbol.0.bytes()),
            value: symbol.1,
        }
    }
}

/// A name that a hunk defines.
#[repr(C)]
#[derive(Drop)]
pub struct DefinitionTold {
    /// The name.
    pub name: Span,
    /// What it stands for: an offset in the hunk, in bytes, or a number.
    pub value: u32,
    /// 1 for a number, else 0.
    pub absolute: u32,
}

impl DefinitionTold {
    /// What is told of a definition.
    pub(crate) fn of(definition: &(Name, Definition)) -> DefinitionTold
        ensures { IsDefinitionTold definition.now result }
    {
        let (value, absolute) = match definition.1 {
            Definition::At(offset) => (offset, 0),
            Definition::Absolute(number) => (number, 1),
        };
        DefinitionTold {
            name: Span::of(definition.0.bytes()),
            value,
            absolute,
        }
    }
}

/// A name that no hunk defines.
#[repr(C)]
#[derive(Drop)]
pub struct UndefinedTold {
    /// The name.
    pub name: Span,
    /// The number of the input of the first reference to it.
    pub input: u64,
    /// The number of the unit of that reference, in its input.
    pub unit: u64,
    /// The number of the hunk of that reference, in its unit.
    pub hunk: u64,
    /// How many references to it there are.
    pub references: u64,
}

impl UndefinedTold {
    /// What is told of such a name.
    pub(crate) fn of(name: &UndefinedName) -> UndefinedTold
        ensures { IsUndefinedTold name.now result }
    {
        UndefinedTold {
            name: Span::of(&name.name),
            input: name.file as u64,
            unit: name.unit as u64,
            hunk: name.hunk as u64,
            references: name.references,
        }
    }
}

/// Where there are no longwords: a place that stays.
static NO_LONGWORDS: [u32; 1] = [0];

/// A debug block.
#[repr(C)]
#[derive(Drop)]
pub struct DebugTold {
    /// Where its longwords begin. It is never null, even if there are none.
    pub longwords: *const u32,
    /// Their number.
    pub size: u64,
}

impl DebugTold {
    /// What is told of a debug block.
    pub(crate) fn of(longwords: &[u32]) -> DebugTold
        ensures { IsDebugTold longwords.now result }
    {
        let size = longwords.len() as u64;
        let longwords = if size == 0 { &NO_LONGWORDS } else { longwords };
        DebugTold {
            longwords: start_of(longwords),
            size,
        }
    }
}

/// Where longwords begin.
fn start_of(longwords: &[u32]) -> *const u32
    ensures { InBlock result }
{
    longwords.as_ptr()
}
