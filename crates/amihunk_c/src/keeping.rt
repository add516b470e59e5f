//! The calls that tell what a linker keeps.
ghost use Rattle.std.specs.Prelude.{◌≡◌};
ghost use Rattle.amihunk_c.specs.Keeping.{IsUndefinedTold, TellsMapOf, undefined_in};
ghost use Rattle.amihunk_c.specs.Looking.{Tells};

use crate::codes::Status;
use crate::handle::Handle;
use crate::kept::{copy_map, tell_undefined};
use crate::told::UndefinedTold;
use std::alloc::Global;

/// Tells a name that no hunk defines, in the order in which they are first referred to.
///
/// It answers `OK`; `OUT_OF_RANGE` if there is no name with this number, which counts from 0; or
/// `WRONG_STATE` if the handle keeps no such names. With these two it writes nothing. What it tells
/// stays where it is until the handle is closed.
#[unsafe(no_mangle)]
pub extern "C" fn amihunk_c_undefined(
    alloc: Global,
    handle: &mut Handle,
    index: u64,
    told: &mut UndefinedTold,
) -> u32
    ensures session { handle.new.session ≡ handle.old.session }
    ensures told { Tells IsUndefinedTold
        (undefined_in handle.old.session index) told.old told.new result }
{
    match handle.take(alloc) {
        Some(session) => {
            let code = tell_undefined(&session, index, told);
            handle.put(session);
            code
        }
        None => Status::WrongState.code(),
    }
}

/// Copies the map of the load file into the buffer, as much of it as fits, and answers its whole
/// length. `names` are the names of the object files, each of them ended by a zero byte; a file that
/// has none is told without one. What the buffer holds after the map stays.
///
/// The answer is 0, and the buffer stays, if the handle keeps no link, or if the map's memory could
/// not be had.
#[unsafe(no_mangle)]
pub extern "C" fn amihunk_c_map(
    alloc: Global,
    handle: &mut Handle,
    names: &[u8],
    buffer: &mut [u8],
) -> u64
    ensures session { handle.new.session ≡ handle.old.session }
    ensures map { TellsMapOf names.now handle.old.session buffer.old buffer.new result }
{
    match handle.take(alloc) {
        Some(session) => {
            let count = copy_map(alloc, &session, names, buffer);
            handle.put(session);
            count
        }
        None => 0,
    }
}
