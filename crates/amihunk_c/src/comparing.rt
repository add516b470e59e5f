//! The calls that compare load files that were read.
//!
//! Each answers `OK`, or `WRONG_STATE` if a handle has read no load file, and then it writes nothing.
//! None allocates.
ghost use Rattle.std.specs.Prelude.{◌≡◌, Some};
ghost use Rattle.amihunk_c.specs.Comparing.{difference_in};
ghost use Rattle.amihunk_c.specs.Looking.{IsSame, Tells};

use crate::codes::Status;
use crate::compared::{DifferenceTold, compare};
use crate::handle::Handle;
use crate::load_read::file_in;
use crate::session::Session;
use std::alloc::Global;

/// Tells where the load files of two sessions first differ.
fn tell_difference(
    first: &Session,
    second: &Session,
    with_symbols: bool,
    told: &mut DifferenceTold,
) -> u32
    ensures { Tells IsSame
        (difference_in (Some first.now) (Some second.now) with_symbols) told.old told.new result }
{
    match (file_in(first), file_in(second)) {
        (Some(first), Some(second)) => {
            *told = compare(first, second, with_symbols);
            Status::Ok.code()
        }
        _ => Status::WrongState.code(),
    }
}

/// Tells where the load files of a session and of a handle first differ.
fn tell_difference_from(
    alloc: Global,
    first: &Session,
    second: &mut Handle,
    with_symbols: bool,
    told: &mut DifferenceTold,
) -> u32
    ensures session { second.new.session ≡ second.old.session }
    ensures told { Tells IsSame
        (difference_in (Some first.now) second.old.session with_symbols) told.old told.new result }
{
    match second.take(alloc) {
        Some(session) => {
            let code = tell_difference(first, &session, with_symbols, told);
            second.put(session);
            code
        }
        None => Status::WrongState.code(),
    }
}

/// Tells where two load files that were read first differ in what they mean. With `with_symbols`,
/// their symbols and debug blocks count too, once all else is the same.
#[unsafe(no_mangle)]
pub extern "C" fn amihunk_c_compare(
    alloc: Global,
    first: &mut Handle,
    second: &mut Handle,
    with_symbols: bool,
    told: &mut DifferenceTold,
) -> u32
    ensures first { first.new.session ≡ first.old.session }
    ensures second { second.new.session ≡ second.old.session }
    ensures told { Tells IsSame
        (difference_in first.old.session second.old.session with_symbols) told.old told.new result }
{
    match first.take(alloc) {
        Some(session) => {
            let code = tell_difference_from(alloc, &session, second, with_symbols, told);
            first.put(session);
            code
        }
        None => Status::WrongState.code(),
    }
}

/// The same of a file and itself, for a handle that C hands in as both.
#[unsafe(no_mangle)]
pub extern "C" fn amihunk_c_compare_with_itself(
    alloc: Global,
    handle: &mut Handle,
    with_symbols: bool,
    told: &mut DifferenceTold,
) -> u32
    ensures session { handle.new.session ≡ handle.old.session }
    ensures told { Tells IsSame (difference_in handle.old.session handle.old.session with_symbols)
        told.old told.new result }
{
    match handle.take(alloc) {
        Some(session) => {
            let code = tell_difference(&session, &session, with_symbols, told);
            handle.put(session);
            code
        }
        None => Status::WrongState.code(),
    }
}
