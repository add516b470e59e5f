//! Reading a header, step by step.
ghost use Rattle.std.specs.Prelude.{◌≡◌};
ghost use Rattle.amihunk_c.specs.Rooms.{IsRoomStatus};
ghost use Rattle.amihunk_c.specs.Tables.{hunks_told};
ghost use Rattle.amihunk_c.specs.Sizing.{FeedsHeader, PlacesHunks, header_status, unplaced_answer};

use crate::answer::Answer;
use crate::codes::Status;
use crate::refused::Refused;
use crate::session::{Session, keep, refuse};
use hunk_loader::{HeaderLoader, PlaceRefusal};
use std::alloc::Global;

/// Feeds the next bytes of a load file, up to the end of its header, and sets `taken` to how many
/// it took.
pub(crate) fn feed_header(session: &mut Session, piece: &[u8], taken: &mut u64) -> Answer
    ensures { FeedsHeader piece.now taken.new session.old session.new result }
{
    *taken = 0;
    let refused = match session {
        Session::Sizing(header) => match header.loader.feed(piece) {
            Ok(count) => {
                *taken = count as u64;
                return Answer::plain(header_status(&header.loader));
            }
            Err(refusal) => Refused::load(refusal),
        },
        Session::Stopped(refused) => return refused.answer,
        _ => return Answer::plain(Status::WrongState),
    };
    refuse(session, refused)
}

/// Whether the bases are due.
fn header_status(header: &HeaderLoader) -> Status
    ensures { result ≡ header_status header.now.hunks }
{
    match header.hunks() {
        Some(_) => Status::NeedsBases,
        None => Status::Ok,
    }
}

/// Goes on to load the file at these bases, if its hunks can be placed there. It makes them in the
/// rooms that there are, which are gone then.
pub(crate) fn place_hunks(session: &mut Session, alloc: Global, bases: &[u32]) -> Answer
    ensures { PlacesHunks bases.now session.old session.new result }
{
    let placed = match session {
        Session::Sizing(header) => header.place(alloc, bases),
        Session::Stopped(refused) => return refused.answer,
        _ => return Answer::plain(Status::WrongState),
    };
    match placed {
        Ok(loader) => keep(session, Session::Loading(loader)),
        Err(refusal) => unplaced_answer(refusal),
    }
}

/// What C is told of hunks that are not placed.
fn unplaced_answer(refusal: PlaceRefusal) -> Answer
    ensures { result ≡ unplaced_answer refusal }
{
    match refusal {
        PlaceRefusal::HeaderIncomplete => Answer::plain(Status::WrongState),
        PlaceRefusal::Place(fault) => Answer::of_place(fault),
        PlaceRefusal::OutOfMemory => Answer::plain(Status::OutOfMemory),
    }
}

/// Forgets the rooms that there are, and makes a list for one for each hunk.
pub(crate) fn reserve_rooms(session: &mut Session, alloc: Global) -> Status
    ensures same { session.new ≡ session.old }
    ensures status { IsRoomStatus (hunks_told session.old) result }
{
    match session {
        Session::Sizing(header) => header.reserve_rooms(alloc),
        _ => Status::WrongState,
    }
}

/// Adds the room of the next hunk.
pub(crate) fn add_room(session: &mut Session, alloc: Global) -> Status
    ensures same { session.new ≡ session.old }
    ensures status { IsRoomStatus (hunks_told session.old) result }
{
    match session {
        Session::Sizing(header) => header.add_room(alloc),
        _ => Status::WrongState,
    }
}

/// Forgets the rooms that there are.
pub(crate) fn forget_rooms(session: &mut Session, alloc: Global)
    ensures { session.new ≡ session.old }
{
    if let Session::Sizing(header) = session {
        drop(header.take_rooms(alloc));
    }
}
