//! Program units whose hunks have the names that they define as symbols too.
ghost use Rattle.std.specs.Prelude.{◌≡◌, ◌≤◌, ◌&&◌, ◌||◌, ◌++◌, List, ℕ, length, map, IfOk, OnOk, true};
ghost use Rattle.std.specs.List.{All};
ghost use Rattle.hunk_base.specs.Name.{most_name};
ghost use Rattle.hunk_objects.specs.UnitHunk.{IsUnitHunk};
ghost use Rattle.hunk_objects.specs.Globals.{Symbol, global_symbols, hunk_with_globals, is_among, is_symbol, others, stripped_if, unit_with_globals};

use crate::program_unit::ProgramUnit;
use crate::unit_hunk::{Definition, UnitHunk};
use hunk_words::Name;
use indexmap::IndexSet;
use std::alloc::{AllocError, Allocator, Global};
use std::hash::BuildHasher;
use std::marker::Model;

/// The same units, in which the names that a hunk defines at an offset are symbols of that hunk, too:
/// after its own, in file order, each with its offset as the value. A name that is a symbol of the hunk
/// with that value already is not repeated. With `strip`, the units' own symbols and debug blocks are
/// left out, and the definitions become symbols none the less.
///
/// A load file has no names of definitions, but it has symbols: so a unit's definitions are still found
/// in what is linked of it. Linking them gives the same memory as before. The names of definitions are
/// copied, since they are needed to link the units; all else is moved.
///
/// Symbols are looked up by hashing them with `hasher`. What is returned does not depend on it.
///
/// # Errors
///
/// [`AllocError`] only if an allocation failed. All units are dropped then.
pub fn with_globals<H: BuildHasher + Copy, A: Allocator + Copy>(
    alloc: A,
    units: Vec<ProgramUnit<A>, A>,
    strip: bool,
    hasher: H,
) -> Result<Vec<ProgramUnit<A>, A>, AllocError>
    ensures { IfOk result (λ made. made.items ≡ map (unit_with_globals strip) units.items) }
{
    let mut made = Vec::with_capacity(alloc, units.len())?;
    for unit in units {
        made.push_reserved(unit_with_globals(alloc, unit, strip, hasher)?);
    }
    Ok(made)
}

/// The same of one unit.
fn unit_with_globals<H: BuildHasher + Copy, A: Allocator + Copy>(
    alloc: A,
    unit: ProgramUnit<A>,
    strip: bool,
    hasher: H,
) -> Result<ProgramUnit<A>, AllocError>
    ensures { IfOk result (λ made. made ≡ unit_with_globals strip unit) }
{
    let ProgramUnit { name, hunks } = unit;
    let mut made = Vec::with_capacity(alloc, hunks.len())?;
    for hunk in hunks {
        made.push_reserved(hunk_with_globals(alloc, hunk, strip, hasher)?);
    }
    Ok(ProgramUnit { name, hunks: made })
}

/// The same of one hunk.
fn hunk_with_globals<H: BuildHasher + Copy, A: Allocator + Copy>(
    alloc: A,
    hunk: UnitHunk<A>,
    strip: bool,
    hasher: H,
) -> Result<UnitHunk<A>, AllocError>
    ensures value { IfOk result (λ made. made ≡ hunk_with_globals strip hunk) }
    ensures valid { IfOk result (λ made. IsUnitHunk made) }
{
    let mut hunk = hunk;
    if strip {
        hunk = stripped(alloc, hunk);
    }
    let more = missing_symbols(alloc, &hunk, hasher)?;
    with_symbols(hunk, more)
}

/// The hunk without symbols and debug blocks. Does not allocate.
fn stripped<A: Allocator + Copy>(alloc: A, hunk: UnitHunk<A>) -> UnitHunk<A>
    ensures { result ≡ stripped_if true hunk }
{
    UnitHunk {
        name: hunk.name,
        kind: hunk.kind,
        memory: hunk.memory,
        size: hunk.size,
        content: hunk.content,
        sites: hunk.sites,
        references: hunk.references,
        definitions: hunk.definitions,
        symbols: Vec::new(alloc),
        debugs: Vec::new(alloc),
    }
}

/// The hunk with these symbols after its own.
fn with_symbols<A: Allocator + Copy>(
    hunk: UnitHunk<A>,
    more: Vec<(Name<A>, u32), A>,
) -> Result<UnitHunk<A>, AllocError>
    requires { All (λ symbol. length symbol.0 ≤ most_name) more.items }
    ensures value { IfOk result
        (λ made. made ≡ record hunk { symbols = hunk.symbols ++ more.items }) }
    ensures valid { IfOk result (λ made. IsUnitHunk made) }
{
    let UnitHunk {
        name,
        kind,
        memory,
        size,
        content,
        sites,
        references,
        definitions,
        mut symbols,
        debugs,
    } = hunk;
    let mut more = more;
    symbols.append(&mut more)?;
    Ok(UnitHunk {
        name,
        kind,
        memory,
        size,
        content,
        sites,
        references,
        definitions,
        symbols,
        debugs,
    })
}

/// The definitions of a hunk that are offsets, as symbols, but for those that the hunk has.
fn missing_symbols<H: BuildHasher + Copy, A: Allocator + Copy>(
    alloc: A,
    hunk: &UnitHunk<A>,
    hasher: H,
) -> Result<Vec<(Name<A>, u32), A>, AllocError>
    ensures value { IfOk result
        (λ more. more.items ≡ others hunk.now.symbols (global_symbols hunk.now.definitions)) }
    ensures short { IfOk result (λ more. All (λ symbol. length symbol.0 ≤ most_name) more.items) }
{
    let mut more = Vec::new(alloc);
    if hunk.definitions.is_empty() {
        return Ok(more);
    }
    let own = Symbols::of(alloc, &hunk.symbols, hasher)?;
    for (name, definition) in &hunk.definitions {
        match definition {
            Definition::At(offset) => {
                if !own.has(name, *offset) {
                    more.push((name.copy(alloc)?, *offset))?;
                }
            }
            Definition::Absolute(_) => {}
        }
    }
    Ok(more)
}

/// Symbols, to look them up. Their names stay where they are.
#[derive(Drop)]
struct Symbols<'a, H: BuildHasher + Copy, A: Allocator + Copy = Global> {
    symbols: IndexSet<(&'a Name<A>, u32), H, A>,
}

impl<'a, H: BuildHasher + Copy, A: Allocator + Copy> Model for Symbols<'a, H, A> {
    ghost use Rattle.std.specs.Prelude.{List, map};
    ghost use Rattle.hunk_objects.specs.Globals.{Symbol};

    ghost Value = { List Symbol };

    ghost view = { λ s. map (λ key. (key.0.now, key.1)) s.symbols.keys };
}

impl<'a, H: BuildHasher + Copy, A: Allocator + Copy> Symbols<'a, H, A> {
    /// These symbols.
    fn of(alloc: A, symbols: &'a [(Name<A>, u32)], hasher: H) -> Result<Self, AllocError>
        ensures { IfOk result
            (λ made. (symbol : Symbol) → is_among made symbol ≡ is_among symbols.now symbol) }
    {
        let mut made = Symbols {
            symbols: IndexSet::with_capacity_and_hasher(alloc, symbols.len(), hasher)?,
        };
        for (name, value) in symbols {
            made.add(name, *value)?;
        }
        Ok(made)
    }

    /// Whether a symbol is one of them.
    fn has(&self, name: &Name<A>, value: u32) -> bool
        ensures { result ≡ is_among self.now (name.now, value) }
    {
        self.symbols.contains(&(name, value))
    }

    /// Adds a symbol, unless it is there.
    fn add(&mut self, name: &'a Name<A>, value: u32) -> Result<(), AllocError>
        ensures { OnOk result ((symbol : Symbol) → is_among self.new symbol ≡
            (is_among self.old symbol || is_symbol symbol (name.now, value))) }
    {
        match self.symbols.insert((name, value)) {
            Ok(_) => Ok(()),
            Err(_) => Err(AllocError),
        }
    }
}
