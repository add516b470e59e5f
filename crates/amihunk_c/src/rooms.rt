//! A header that is read, and the rooms for its hunks.
ghost use Rattle.std.specs.Prelude.{◌≡◌, [], None, IfOk, IfErr};
ghost use Rattle.amihunk_c.specs.Loading.{HasFed};
ghost use Rattle.amihunk_c.specs.Rooms.{IsRoomStatus};
ghost use Rattle.amihunk_c.specs.Sizing.{IsUnplaced, unplaced_answer};
ghost use Rattle.hunk_loader.specs.HeaderLoader.{CanPlace, StaysPlaced};

use crate::codes::Status;
use core::mem::replace;
use hunk_loader::{HeaderHunk, HeaderLoader, ImageLoader, PlaceRefusal};
use std::alloc::{AllocError, Global};
use std::marker::Model;

/// A header that is read, and the rooms in which its first hunks are to be made.
///
/// Contracts see the header alone: in which memory a hunk is made changes nothing else.
#[derive(Drop)]
pub struct Header {
    pub(crate) loader: HeaderLoader,
    rooms: Vec<Vec<u8>>,
}

impl Model for Header {
    ghost use Rattle.hunk_loader.specs.HeaderLoader.{HeaderState};

    ghost Value = { HeaderState };

    ghost view = { λ h. h.loader };
}

impl Header {
    /// A header before its first byte, without rooms.
    pub(crate) fn new(alloc: Global) -> Header
        ensures { result ≡ record { bytes = []; hunks = None; refusal = None } }
    {
        Header {
            loader: HeaderLoader::new(alloc),
            rooms: Vec::new(alloc),
        }
    }

    /// The header without the rooms.
    pub(crate) fn into_loader(self) -> HeaderLoader
        ensures { result ≡ self }
    {
        self.loader
    }

    /// A loader of the file at these bases, which makes the hunks in the rooms. These are gone then.
    ///
    /// # Errors
    ///
    /// Those of [`HeaderLoader::place_in`].
    pub(crate) fn place(
        &mut self,
        alloc: Global,
        bases: &[u32],
    ) -> Result<ImageLoader, PlaceRefusal>
        ensures same { self.new ≡ self.old }
        ensures placed { IfOk result (λ loader. HasFed bases.now self.old.bytes loader ×
            CanPlace bases.now self.old.hunks × StaysPlaced bases.now self.old.bytes) }
        ensures refused { IfErr result
            (λ refusal. IsUnplaced bases.now self.old (unplaced_answer refusal)) }
    {
        let rooms = self.take_rooms(alloc);
        self.loader.place_in(bases, rooms)
    }

    /// The rooms, which are gone then.
    pub(crate) fn take_rooms(&mut self, alloc: Global) -> Vec<Vec<u8>>
        ensures { self.new ≡ self.old }
    {
        replace(&mut self.rooms, Vec::new(alloc))
    }

    /// Forgets the rooms, and makes a list for one for each hunk.
    pub(crate) fn reserve_rooms(&mut self, alloc: Global) -> Status
        ensures same { self.new ≡ self.old }
        ensures status { IsRoomStatus self.old.hunks result }
    {
        let count = match self.loader.hunks() {
            Some(hunks) => hunks.len(),
            None => return Status::WrongState,
        };
        match Vec::with_capacity(alloc, count) {
            Ok(rooms) => {
                self.rooms = rooms;
                Status::Ok
            }
            Err(_) => Status::OutOfMemory,
        }
    }

    /// Adds the room of the next hunk, by one allocation of 4 bytes for each longword of its size,
    /// or none if it has no longwords.
    pub(crate) fn add_room(&mut self, alloc: Global) -> Status
        ensures same { self.new ≡ self.old }
        ensures status { IsRoomStatus self.old.hunks result }
    {
        let hunks = match self.loader.hunks() {
            Some(hunks) => hunks,
            None => return Status::WrongState,
        };
        match hunks.get(self.rooms.len()) {
            Some(hunk) => match room_for(alloc, hunk) {
                Ok(room) => match self.rooms.push(room) {
                    Ok(()) => Status::Ok,
                    Err(_) => Status::OutOfMemory,
                },
                Err(_) => Status::OutOfMemory,
            },
            None => Status::OutOfRange,
        }
    }
}

/// Memory for the bytes of a hunk.
fn room_for(alloc: Global, hunk: &HeaderHunk) -> Result<Vec<u8>, AllocError> {
    Ok(Vec::with_capacity(alloc, 4 * hunk.size as usize)?)
}
