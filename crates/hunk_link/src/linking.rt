//! Linking program units.
ghost use Rattle.std.specs.Prelude.{◌≡◌, Bool, None, IfOk, IfErr, OnOk};
ghost use Rattle.std.specs.List.{All};
ghost use Rattle.hunk_loadfile.specs.Rules.{build_fault};
ghost use Rattle.hunk_loadfile.specs.WrittenForm.{IsShortEnough};
ghost use Rattle.hunk_link.specs.Carried.{all_addends, carried};
ghost use Rattle.hunk_link.specs.Limits.{IsHunkCount, IsSmall};
ghost use Rattle.hunk_link.specs.Linkable.{IsFirstReason, IsLinkRefusal, Linkable};
ghost use Rattle.hunk_link.specs.OwnHunks.{AllNameOwnHunks, sites_of};
ghost use Rattle.hunk_link.specs.Ranks.{IsRanked, IsUnit};
ghost use Rattle.hunk_link.specs.References.{AllDefined, references_of};
ghost use Rattle.hunk_link.specs.SymbolTable.{DefinedOnce, definitions_of, table_of};

use crate::addend::Addend;
use crate::carried::{copied_hunks, moved_hunks};
use crate::limits::check_limits;
use crate::own_hunks::check_own_hunks;
use crate::ranked_hunk::{RankedHunk, ranked_hunks};
use crate::references::resolve;
use crate::refusal::LinkRefusal;
use crate::symbol_table::symbol_table;
use hunk_loadfile::{LoadFile, LoadHunk};
use hunk_objects::ProgramUnit;
use std::alloc::Allocator;
use std::hash::{BuildHasher, BuildHasherDefault, FoldHasher};

/// Links program units into a load file, with copies of what they contain. [`link_units`] moves it
/// instead.
///
/// The hunks of the load file are those of the units in order. At a site that refers to a name, the
/// linker adds the name's offset or absolute value, modulo 2^32; a site stays in the load file where
/// the base of a hunk is still to be added, which the load file numbers over all units (The AmigaDOS
/// Manual, 3rd edition, "Amiga binary file structure"). Symbols and debug blocks are kept, in order,
/// or left out with `strip`. The names of units and hunks are left out.
///
/// Names are hashed without a secret: whoever makes the units can choose names that collide, which takes
/// time that grows with the square of their number. [`link_with`] takes a hasher for units of strangers.
///
/// # Errors
///
/// The first [`LinkRefusal`] in the order of its list; `OutOfMemory` only if an allocation failed,
/// possibly in place of one that is listed after `TooLarge`.
pub fn link<A: Allocator + Copy>(
    alloc: A,
    units: &[ProgramUnit<A>],
    strip: bool,
) -> Result<LoadFile<A>, LinkRefusal<A>>
    ensures linkable { OnOk result (Linkable units.now strip) }
    ensures typed { OnOk result (All IsUnit units.now) }
    ensures file { IfOk result (λ file. file ≡ carried units.now strip) }
    ensures short { IfOk result (λ file. IsShortEnough file) }
    ensures refused { IfErr result (IsLinkRefusal units.now strip) }
{
    let hasher = BuildHasherDefault::<FoldHasher>::new();
    link_with(alloc, units, strip, hasher)
}

/// Links as [`link`] does, and hashes names with `hasher`, such as a
/// [`NameHasher`](crate::NameHasher) whose key is secret. What it returns does not depend on it.
///
/// # Errors
///
/// Those of [`link`].
pub fn link_with<H: BuildHasher + Drop, A: Allocator + Copy>(
    alloc: A,
    units: &[ProgramUnit<A>],
    strip: bool,
    hasher: H,
) -> Result<LoadFile<A>, LinkRefusal<A>>
    ensures linkable { OnOk result (Linkable units.now strip) }
    ensures typed { OnOk result (All IsUnit units.now) }
    ensures file { IfOk result (λ file. file ≡ carried units.now strip) }
    ensures short { IfOk result (λ file. IsShortEnough file) }
    ensures refused { IfErr result (IsLinkRefusal units.now strip) }
{
    let total = check_limits(units, strip)?;
    let hunks = ranked_hunks(alloc, units, total)?;
    let addends = link_names(alloc, &hunks, hasher)?;
    let carried = copied_hunks(alloc, &hunks, &addends, strip)?;
    Ok(load_file(carried))
}

/// Links program units into a load file as [`link`] does, and moves their content, symbols and debug
/// blocks into it.
///
/// # Errors
///
/// Those of [`link`].
pub fn link_units<A: Allocator + Copy>(
    alloc: A,
    units: Vec<ProgramUnit<A>, A>,
    strip: bool,
) -> Result<LoadFile<A>, LinkRefusal<A>>
    ensures linkable { OnOk result (Linkable units.items strip) }
    ensures typed { OnOk result (All IsUnit units.items) }
    ensures file { IfOk result (λ file. file ≡ carried units.items strip) }
    ensures short { IfOk result (λ file. IsShortEnough file) }
    ensures refused { IfErr result (IsLinkRefusal units.items strip) }
{
    let hasher = BuildHasherDefault::<FoldHasher>::new();
    link_units_with(alloc, units, strip, hasher)
}

/// Links as [`link_units`] does, and hashes names with `hasher`, as [`link_with`] does.
///
/// # Errors
///
/// Those of [`link`].
pub fn link_units_with<H: BuildHasher + Drop, A: Allocator + Copy>(
    alloc: A,
    units: Vec<ProgramUnit<A>, A>,
    strip: bool,
    hasher: H,
) -> Result<LoadFile<A>, LinkRefusal<A>>
    ensures linkable { OnOk result (Linkable units.items strip) }
    ensures typed { OnOk result (All IsUnit units.items) }
    ensures file { IfOk result (λ file. file ≡ carried units.items strip) }
    ensures short { IfOk result (λ file. IsShortEnough file) }
    ensures refused { IfErr result (IsLinkRefusal units.items strip) }
{
    let total = check_limits(&units, strip)?;
    let addends = {
        let hunks = ranked_hunks(alloc, &units, total)?;
        link_names(alloc, &hunks, hasher)?
    };
    let carried = moved_hunks(alloc, units, total, &addends, strip)?;
    Ok(load_file(carried))
}

/// What all references of the hunks add, in order.
fn link_names<H: BuildHasher + Drop, A: Allocator + Copy>(
    alloc: A,
    hunks: &[RankedHunk<'_, A>],
    hasher: H,
) -> Result<Vec<Addend, A>, LinkRefusal<A>>
    requires { All IsRanked hunks.now }
    ensures own { OnOk result (AllNameOwnHunks (sites_of hunks.now)) }
    ensures once { OnOk result (DefinedOnce (definitions_of hunks.now)) }
    ensures defined { OnOk result (AllDefined (table_of hunks.now) (references_of hunks.now)) }
    ensures addends { IfOk result
        (λ addends. addends.items ≡ all_addends (table_of hunks.now) hunks.now) }
    ensures refused { (strip : Bool) → IsHunkCount hunks.now → IsSmall strip hunks.now →
        IfErr result (IsFirstReason hunks.now strip) }
{
    check_own_hunks(hunks)?;
    let table = symbol_table(alloc, hunks, hasher)?;
    resolve(alloc, hunks, &table)
}

/// The load file of hunks that break no rule of one.
fn load_file<A: Allocator + Copy>(hunks: Vec<LoadHunk<A>, A>) -> LoadFile<A>
    requires { build_fault hunks.items ≡ None }
    ensures value { result ≡ hunks.items }
    ensures short { IsShortEnough result }
{
    match LoadFile::new(hunks) {
        Ok(file) => {
            // The types of the hunks say the rest of what makes them short.
            let _hunks = file.hunks();
            file
        }
        Err(_) => unreachable!(),
    }
}
