//! The calls that tell the sizes of hunks before they have addresses.
ghost use Rattle.std.specs.Prelude.{◌≡◌};
ghost use Rattle.amihunk_c.specs.Rooms.{TellsRoom};
ghost use Rattle.amihunk_c.specs.Sessions.{OpensHandle, StepsHandle};
ghost use Rattle.amihunk_c.specs.Sizing.{BeginsHeader, FeedsHeader, PlacesHunks};
ghost use Rattle.amihunk_c.specs.Tables.{TellsHandleHunk};

use crate::answer::Answer;
use crate::codes::Status;
use crate::handle::Handle;
use crate::header::{add_room, feed_header, forget_rooms, place_hunks, reserve_rooms};
use crate::rooms::Header;
use crate::session::Session;
use crate::table::{TableHunk, tell_hunk};
use std::alloc::Global;

/// Begins to load a file whose hunks have no addresses yet. The handle has no session yet.
///
/// It answers `OK`, or `OUT_OF_MEMORY`, and then the handle still has no session; `WRONG_STATE` if
/// the handle has one, which stays.
#[unsafe(no_mangle)]
pub extern "C" fn amihunk_c_begin(alloc: Global, handle: &mut Handle) -> u32
    ensures { OpensHandle BeginsHeader handle.old.session handle.new.session result }
{
    let begun = match handle.take(alloc) {
        Some(session) => {
            handle.put(session);
            Status::WrongState
        }
        None => handle.begin(alloc, Session::Sizing(Header::new(alloc))),
    };
    begun.code()
}

/// Takes the next bytes of the file, up to the end of its header, and tells how many it took.
///
/// It answers `OK` if the header goes on after the piece, all of which it took; `NEEDS_BASES` if
/// the header is whole, also if it was before; `FILE` with the first offence of all bytes so far; or
/// `OUT_OF_MEMORY`. After one of the last two it took none, the memory of the file is free again, and
/// every later call that feeds, places or ends the file tells the same refusal. It answers
/// `WRONG_STATE` if the handle does not read a header.
#[unsafe(no_mangle)]
pub extern "C" fn amihunk_c_feed_header(
    alloc: Global,
    handle: &mut Handle,
    piece: &[u8],
    taken: &mut u64,
    answer: &mut Answer,
) -> u32
    ensures fed { StepsHandle
        (FeedsHeader piece.now taken.new) handle.old.session handle.new.session answer.new }
    ensures status { result ≡ answer.new.status }
{
    *taken = 0;
    *answer = match handle.take(alloc) {
        Some(mut session) => {
            let told = feed_header(&mut session, piece, taken);
            handle.put(session);
            told
        }
        None => Answer::plain(Status::WrongState),
    };
    answer.status
}

/// Tells how many hunks the header has, and of the one with this number, from 0, its size and the
/// memory that it asks for.
///
/// It answers `OK`; `OUT_OF_RANGE` if there is no such hunk; `WRONG_STATE` if the handle does not
/// read a header, or it is not whole. With these two it writes nothing.
#[unsafe(no_mangle)]
pub extern "C" fn amihunk_c_table(
    alloc: Global,
    handle: &mut Handle,
    number: u64,
    told: &mut TableHunk,
) -> u32
    ensures session { handle.new.session ≡ handle.old.session }
    ensures told { TellsHandleHunk handle.old.session number told.old told.new result }
{
    let status = match handle.take(alloc) {
        Some(session) => {
            let status = tell_hunk(&session, number, told);
            handle.put(session);
            status
        }
        None => Status::WrongState,
    };
    status.code()
}

/// Goes on to load the file at these bases, which are addresses, one for each hunk. The bases are
/// copied. The hunks are made in the rooms that were added, each in that with its number, and the
/// others in new memory. The rooms are the file's then, or free if the hunks are not placed.
///
/// It answers `OK`, and the bytes behind the header are due; `WRONG_COUNT`, `PAST_END` or `OVERLAP` if
/// the hunks cannot be placed at the bases, or `OUT_OF_MEMORY`, and then other bases can be tried. It
/// answers `WRONG_STATE` if the handle does not read a header, or it is not whole.
#[unsafe(no_mangle)]
pub extern "C" fn amihunk_c_place(
    alloc: Global,
    handle: &mut Handle,
    bases: &[u32],
    answer: &mut Answer,
) -> u32
    ensures placed { StepsHandle
        (PlacesHunks bases.now) handle.old.session handle.new.session answer.new }
    ensures status { result ≡ answer.new.status }
{
    *answer = match handle.take(alloc) {
        Some(mut session) => {
            let told = place_hunks(&mut session, alloc, bases);
            handle.put(session);
            told
        }
        None => Answer::plain(Status::WrongState),
    };
    answer.status
}

/// Forgets the rooms of hunks that were added, and makes a list for one for each hunk.
///
/// It answers `OK` or `OUT_OF_MEMORY`; `WRONG_STATE` if the handle does not read a header, or it is
/// not whole.
#[unsafe(no_mangle)]
pub extern "C" fn amihunk_c_reserve_rooms(alloc: Global, handle: &mut Handle) -> u32
    ensures session { handle.new.session ≡ handle.old.session }
    ensures status { TellsRoom handle.old.session result }
{
    let status = match handle.take(alloc) {
        Some(mut session) => {
            let status = reserve_rooms(&mut session, alloc);
            handle.put(session);
            status
        }
        None => Status::WrongState,
    };
    status.code()
}

/// Adds the room of the next hunk: memory for its bytes, by one allocation of 4 bytes for each
/// longword of its size, and by none if it has no longwords. The list of rooms must have been made,
/// or it may allocate too.
///
/// It answers `OK` or `OUT_OF_MEMORY`; `OUT_OF_RANGE` if each hunk has a room; `WRONG_STATE` if the
/// handle does not read a header, or it is not whole.
#[unsafe(no_mangle)]
pub extern "C" fn amihunk_c_add_room(alloc: Global, handle: &mut Handle) -> u32
    ensures session { handle.new.session ≡ handle.old.session }
    ensures status { TellsRoom handle.old.session result }
{
    let status = match handle.take(alloc) {
        Some(mut session) => {
            let status = add_room(&mut session, alloc);
            handle.put(session);
            status
        }
        None => Status::WrongState,
    };
    status.code()
}

/// Forgets the rooms that were added.
#[unsafe(no_mangle)]
pub extern "C" fn amihunk_c_forget_rooms(alloc: Global, handle: &mut Handle)
    ensures { handle.new.session ≡ handle.old.session }
{
    if let Some(mut session) = handle.take(alloc) {
        forget_rooms(&mut session, alloc);
        handle.put(session);
    }
}
