//! What is asked of a file that was read, and told.
ghost use Rattle.std.specs.Prelude.{◌≡◌, Some, Ok, Err, IfOk, IfErr};
ghost use Rattle.amihunk_c.specs.Looking.{IsSame, Tells, contents_in, hunk_in, item_in, read_in, unit_in};
ghost use Rattle.amihunk_c.specs.SymbolBefore.{TellsBefore};
ghost use Rattle.amihunk_c.specs.Spans.{IsSpanOf};
ghost use Rattle.amihunk_c.specs.Told.{IsContentsTold, IsDebugTold, IsDefinitionTold, IsHunkTold, IsSymbolTold, IsUnitTold};

use crate::codes::Status;
use crate::facts::HunkFacts;
use crate::looked::Looked;
use crate::session::Session;
use crate::span::Span;
use crate::symbol_before::symbol_before;
use crate::told::{
    ContentsTold, DebugTold, DefinitionTold, HunkTold, SiteTold, SymbolTold, UnitTold,
};

/// What was read, if a file was.
fn read_in(session: &Session) -> Result<&Looked, Status>
    ensures read { IfOk result (λ looked. read_in (Some session.now) ≡ Ok looked.now) }
    ensures none { IfErr result (λ error. read_in (Some session.now) ≡ Err error) }
{
    match session {
        Session::Read(looked) => Ok(looked),
        _ => Err(Status::WrongState),
    }
}

/// A hunk of a unit.
fn hunk_in(session: &Session, unit: u64, hunk: u64) -> Result<HunkFacts<'_>, Status>
    ensures { result ≡ hunk_in (Some session.now) unit hunk }
{
    match read_in(session)?.hunk(unit as usize, hunk as usize) {
        Some(facts) => Ok(facts),
        None => Err(Status::OutOfRange),
    }
}

/// Tells what the file has.
pub(crate) fn tell_contents(session: &Session, told: &mut ContentsTold) -> u32
    ensures { Tells IsContentsTold (contents_in (Some session.now)) told.old told.new result }
{
    match read_in(session) {
        Ok(looked) => {
            let (units, kind) = looked.contents();
            *told = ContentsTold {
                units: units as u64,
                kind,
            };
            Status::Ok.code()
        }
        Err(error) => error.code(),
    }
}

/// Tells of a unit.
pub(crate) fn tell_unit(session: &Session, unit: u64, told: &mut UnitTold) -> u32
    ensures { Tells IsUnitTold (unit_in (Some session.now) unit) told.old told.new result }
{
    match read_in(session) {
        Ok(looked) => match looked.unit(unit as usize) {
            Some((name, hunks)) => {
                *told = UnitTold {
                    name: Span::of(name),
                    hunks: hunks as u64,
                };
                Status::Ok.code()
            }
            None => Status::OutOfRange.code(),
        },
        Err(error) => error.code(),
    }
}

/// Tells of a hunk.
pub(crate) fn tell_hunk(session: &Session, unit: u64, hunk: u64, told: &mut HunkTold) -> u32
    ensures { Tells IsHunkTold (hunk_in (Some session.now) unit hunk) told.old told.new result }
{
    match hunk_in(session, unit, hunk) {
        Ok(facts) => {
            *told = HunkTold::of(&facts);
            Status::Ok.code()
        }
        Err(error) => error.code(),
    }
}

/// Tells a site of a hunk.
pub(crate) fn tell_site(
    session: &Session,
    unit: u64,
    hunk: u64,
    index: u64,
    told: &mut SiteTold,
) -> u32
    ensures { Tells IsSame (item_in (λ facts. facts.sites) (Some session.now) unit hunk index)
        told.old told.new result }
{
    match hunk_in(session, unit, hunk) {
        Ok(facts) => match facts.sites.get(index as usize) {
            Some(site) => {
                *told = *site;
                Status::Ok.code()
            }
            None => Status::OutOfRange.code(),
        },
        Err(error) => error.code(),
    }
}

/// Tells a symbol of a hunk.
pub(crate) fn tell_symbol(
    session: &Session,
    unit: u64,
    hunk: u64,
    index: u64,
    told: &mut SymbolTold,
) -> u32
    ensures { Tells IsSymbolTold (item_in (λ facts. facts.symbols)
        (Some session.now) unit hunk index) told.old told.new result }
{
    match hunk_in(session, unit, hunk) {
        Ok(facts) => match facts.symbols.get(index as usize) {
            Some(symbol) => {
                *told = SymbolTold::of(symbol);
                Status::Ok.code()
            }
            None => Status::OutOfRange.code(),
        },
        Err(error) => error.code(),
    }
}

/// Tells a name that a hunk defines.
pub(crate) fn tell_definition(
    session: &Session,
    unit: u64,
    hunk: u64,
    index: u64,
    told: &mut DefinitionTold,
) -> u32
    ensures { Tells IsDefinitionTold (item_in (λ facts. facts.definitions)
        (Some session.now) unit hunk index) told.old told.new result }
{
    match hunk_in(session, unit, hunk) {
        Ok(facts) => match facts.definitions.get(index as usize) {
            Some(definition) => {
                *told = DefinitionTold::of(definition);
                Status::Ok.code()
            }
            None => Status::OutOfRange.code(),
        },
        Err(error) => error.code(),
    }
}

/// Tells a name that a hunk refers to.
pub(crate) fn tell_reference(
    session: &Session,
    unit: u64,
    hunk: u64,
    index: u64,
    told: &mut Span,
) -> u32
    ensures { Tells IsSpanOf (item_in (λ facts. facts.references)
        (Some session.now) unit hunk index) told.old told.new result }
{
    match hunk_in(session, unit, hunk) {
        Ok(facts) => match facts.references.get(index as usize) {
            Some(name) => {
                *told = Span::of(name.bytes());
                Status::Ok.code()
            }
            None => Status::OutOfRange.code(),
        },
        Err(error) => error.code(),
    }
}

/// Tells a debug block of a hunk.
pub(crate) fn tell_debug(
    session: &Session,
    unit: u64,
    hunk: u64,
    index: u64,
    told: &mut DebugTold,
) -> u32
    ensures { Tells IsDebugTold (item_in (λ facts. facts.debugs) (Some session.now) unit hunk index)
        told.old told.new result }
{
    match hunk_in(session, unit, hunk) {
        Ok(facts) => match facts.debugs.get(index as usize) {
            Some(longwords) => {
                *told = DebugTold::of(longwords);
                Status::Ok.code()
            }
            None => Status::OutOfRange.code(),
        },
        Err(error) => error.code(),
    }
}

/// Tells the symbol of a hunk at an offset or before it.
pub(crate) fn tell_symbol_before(
    session: &Session,
    unit: u64,
    hunk: u64,
    offset: u32,
    told: &mut SymbolTold,
) -> u32
    ensures { TellsBefore (hunk_in (Some session.now) unit hunk) offset told.old told.new result }
{
    match hunk_in(session, unit, hunk) {
        Ok(facts) => match symbol_before(facts.symbols, offset) {
            Some(symbol) => {
                *told = SymbolTold::of(symbol);
                Status::Ok.code()
            }
            None => Status::OutOfRange.code(),
        },
        Err(error) => error.code(),
    }
}
