//! The calls that tell what is in a file.
//!
//! Each answers `OK`; `OUT_OF_RANGE` if there is nothing with these numbers, which count from 0; or
//! `WRONG_STATE` if no file was read. With these two it writes nothing. What it tells stays where it
//! is until the handle is closed.
ghost use Rattle.std.specs.Prelude.{◌≡◌};
ghost use Rattle.amihunk_c.specs.Looking.{IsSame, Tells, contents_in, hunk_in, item_in, unit_in};
ghost use Rattle.amihunk_c.specs.SymbolBefore.{TellsBefore};
ghost use Rattle.amihunk_c.specs.Spans.{IsSpanOf};
ghost use Rattle.amihunk_c.specs.Told.{IsContentsTold, IsDebugTold, IsDefinitionTold, IsHunkTold, IsSymbolTold, IsUnitTold};

use crate::asked::{
    tell_contents, tell_debug, tell_definition, tell_hunk, tell_reference, tell_site, tell_symbol,
    tell_symbol_before, tell_unit,
};
use crate::codes::Status;
use crate::handle::Handle;
use crate::span::Span;
use crate::told::{
    ContentsTold, DebugTold, DefinitionTold, HunkTold, SiteTold, SymbolTold, UnitTold,
};
use std::alloc::Global;

/// Tells the kind of the file, and how many units it has.
#[unsafe(no_mangle)]
pub extern "C" fn amihunk_c_contents(
    alloc: Global,
    handle: &mut Handle,
    told: &mut ContentsTold,
) -> u32
    ensures session { handle.new.session ≡ handle.old.session }
    ensures told { Tells IsContentsTold (contents_in handle.old.session) told.old told.new result }
{
    match handle.take(alloc) {
        Some(session) => {
            let code = tell_contents(&session, told);
            handle.put(session);
            code
        }
        None => Status::WrongState.code(),
    }
}

/// Tells the name of a unit, and how many hunks it has.
#[unsafe(no_mangle)]
pub extern "C" fn amihunk_c_unit(
    alloc: Global,
    handle: &mut Handle,
    unit: u64,
    told: &mut UnitTold,
) -> u32
    ensures session { handle.new.session ≡ handle.old.session }
    ensures told { Tells IsUnitTold (unit_in handle.old.session unit) told.old told.new result }
{
    match handle.take(alloc) {
        Some(session) => {
            let code = tell_unit(&session, unit, told);
            handle.put(session);
            code
        }
        None => Status::WrongState.code(),
    }
}

/// Tells of a hunk of a unit.
#[unsafe(no_mangle)]
pub extern "C" fn amihunk_c_hunk(
    alloc: Global,
    handle: &mut Handle,
    unit: u64,
    hunk: u64,
    told: &mut HunkTold,
) -> u32
    ensures session { handle.new.session ≡ handle.old.session }
    ensures told { Tells IsHunkTold
        (hunk_in handle.old.session unit hunk) told.old told.new result }
{
    match handle.take(alloc) {
        Some(session) => {
            let code = tell_hunk(&session, unit, hunk, told);
            handle.put(session);
            code
        }
        None => Status::WrongState.code(),
    }
}

/// Tells a site of a hunk. Their indices rise with their offsets.
#[unsafe(no_mangle)]
pub extern "C" fn amihunk_c_site(
    alloc: Global,
    handle: &mut Handle,
    unit: u64,
    hunk: u64,
    index: u64,
    told: &mut SiteTold,
) -> u32
    ensures session { handle.new.session ≡ handle.old.session }
    ensures told { Tells IsSame (item_in (λ facts. facts.sites) handle.old.session unit hunk index)
        told.old told.new result }
{
    match handle.take(alloc) {
        Some(session) => {
            let code = tell_site(&session, unit, hunk, index, told);
            handle.put(session);
            code
        }
        None => Status::WrongState.code(),
    }
}

/// Tells a symbol of a hunk.
#[unsafe(no_mangle)]
pub extern "C" fn amihunk_c_symbol(
    alloc: Global,
    handle: &mut Handle,
    unit: u64,
    hunk: u64,
    index: u64,
    told: &mut SymbolTold,
) -> u32
    ensures session { handle.new.session ≡ handle.old.session }
    ensures told { Tells IsSymbolTold (item_in
        (λ facts. facts.symbols) handle.old.session unit hunk index) told.old told.new result }
{
    match handle.take(alloc) {
        Some(session) => {
            let code = tell_symbol(&session, unit, hunk, index, told);
            handle.put(session);
            code
        }
        None => Status::WrongState.code(),
    }
}

/// Tells a name that a hunk defines, and what it stands for.
#[unsafe(no_mangle)]
pub extern "C" fn amihunk_c_definition(
    alloc: Global,
    handle: &mut Handle,
    unit: u64,
    hunk: u64,
    index: u64,
    told: &mut DefinitionTold,
) -> u32
    ensures session { handle.new.session ≡ handle.old.session }
    ensures told { Tells IsDefinitionTold (item_in
        (λ facts. facts.definitions) handle.old.session unit hunk index) told.old told.new result }
{
    match handle.take(alloc) {
        Some(session) => {
            let code = tell_definition(&session, unit, hunk, index, told);
            handle.put(session);
            code
        }
        None => Status::WrongState.code(),
    }
}

/// Tells a name that a hunk refers to.
#[unsafe(no_mangle)]
pub extern "C" fn amihunk_c_reference(
    alloc: Global,
    handle: &mut Handle,
    unit: u64,
    hunk: u64,
    index: u64,
    told: &mut Span,
) -> u32
    ensures session { handle.new.session ≡ handle.old.session }
    ensures told { Tells IsSpanOf (item_in
        (λ facts. facts.references) handle.old.session unit hunk index) told.old told.new result }
{
    match handle.take(alloc) {
        Some(session) => {
            let code = tell_reference(&session, unit, hunk, index, told);
            handle.put(session);
            code
        }
        None => Status::WrongState.code(),
    }
}

/// Tells a debug block of a hunk.
#[unsafe(no_mangle)]
pub extern "C" fn amihunk_c_debug(
    alloc: Global,
    handle: &mut Handle,
    unit: u64,
    hunk: u64,
    index: u64,
    told: &mut DebugTold,
) -> u32
    ensures session { handle.new.session ≡ handle.old.session }
    ensures told { Tells IsDebugTold (item_in
        (λ facts. facts.debugs) handle.old.session unit hunk index) told.old told.new result }
{
    match handle.take(alloc) {
        Some(session) => {
            let code = tell_debug(&session, unit, hunk, index, told);
            handle.put(session);
            code
        }
        None => Status::WrongState.code(),
    }
}

/// Tells the symbol of a hunk at an offset or before it: of those whose value is at most that, the
/// one with the highest value, and of several the first. `OUT_OF_RANGE` if there is none.
#[unsafe(no_mangle)]
pub extern "C" fn amihunk_c_symbol_before(
    alloc: Global,
    handle: &mut Handle,
    unit: u64,
    hunk: u64,
    offset: u32,
    told: &mut SymbolTold,
) -> u32
    ensures session { handle.new.session ≡ handle.old.session }
    ensures told { TellsBefore
        (hunk_in handle.old.session unit hunk) offset told.old told.new result }
{
    match handle.take(alloc) {
        Some(session) => {
            let code = tell_symbol_before(&session, unit, hunk, offset, told);
            handle.put(session);
            code
        }
        None => Status::WrongState.code(),
    }
}
