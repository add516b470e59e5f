//! The header of a load file while its bytes come, before its hunks have addresses.

ghost use Rattle.std.specs.Prelude.{◌≡◌, ◌↔◌, ℕ, List, [], Some, None, IfOk, IsOk, MatchOption, ⊤};
ghost use Rattle.hunk_loader.specs.HeaderBytes.{EndsEarlyAt, Holds};
ghost use Rattle.hunk_loader.specs.HeaderHunks.{HeaderRead};
ghost use Rattle.hunk_loader.specs.HeaderLoader.{AreOfFile, CannotPlace, CanPlace, Keeps, ReadsHeader, StaysPlaced, TakesPiece};
ghost use Rattle.hunk_loader.specs.ImageLoader.{StandsFor, bases_of, refusal_of};
ghost use Rattle.hunk_loader.specs.declared.header_loader.PlaceRefusal.{PlaceRefusal};
ghost use Rattle.hunk_loader.specs.declared.loading.LoadRefusal.{LoadRefusal};
ghost use Rattle.hunk_loader.specs.declared.places.PlaceFault.{PlaceFault};

use crate::header_bytes::HeaderBytes;
use crate::header_hunks::{HeaderHunk, header_hunks};
use crate::image_loader::ImageLoader;
use crate::loading::LoadRefusal;
use crate::overlaps::check_sizes_with;
use crate::places::PlaceFault;
use std::alloc::{AllocError, Allocator, Global};
use std::marker::Model;

/// Why the hunks of a header are not placed.
#[derive(Clone, Copy, Debug, PartialEq, Eq)]
pub enum PlaceRefusal {
    /// The header is not whole yet, or it was refused.
    HeaderIncomplete,
    /// The hunks cannot be placed at the addresses.
    Place(PlaceFault),
    /// An allocation failed.
    OutOfMemory,
}

impl From<AllocError> for PlaceRefusal {
    ghost use Rattle.hunk_loader.specs.declared.header_loader.PlaceRefusal.{PlaceRefusal};

    ghost from_gives = { λ _ refusal. refusal ≡ PlaceRefusal.OutOfMemory };

    fn from(_failure: AllocError) -> PlaceRefusal {
        PlaceRefusal::OutOfMemory
    }
}

/// Reads the header of a load file from its bytes, in pieces of any size, and then loads the file
/// at addresses that are chosen by the sizes of its hunks.
///
/// It takes the bytes up to the last size in the header. Then [`hunks`](HeaderLoader::hunks) tells
/// the size of each hunk and the memory that it asks for, and [`place`](HeaderLoader::place) gives
/// an [`ImageLoader`] for the bytes that follow.
///
/// It keeps the bytes that it took, one number for each size, and the hunks once the header is
/// whole: at most 16 bytes for each hunk, apart from the room that its lists have to grow. No
/// number in the file reserves memory for what has not come.
///
/// Contracts see the bytes that it took, its hunks once the header is whole, and the error that it
/// keeps.
#[derive(Drop)]
pub struct HeaderLoader<A: Allocator + Copy = Global> {
    alloc: A,
    header: HeaderBytes<A>,
    hunks: Option<Vec<HeaderHunk, A>>,
    refusal: Option<LoadRefusal>,
}

impl<A: Allocator + Copy> Model for HeaderLoader<A> {
    ghost use Rattle.hunk_loader.specs.HeaderLoader.{HeaderState, IsSound, hunks_told};

    ghost Value = { HeaderState };

    ghost view = { λ h.
        record { bytes = h.header.bytes.items; hunks = hunks_told h.hunks; refusal = h.refusal } };

    ghost invariant = { λ h. IsSound h.header (hunks_told h.hunks) h.refusal };
}

impl<A: Allocator + Copy> HeaderLoader<A> {
    /// A loader before the first byte of a header.
    pub fn new(alloc: A) -> Self
        ensures { result ≡ record { bytes = []; hunks = None; refusal = None } }
    {
        HeaderLoader {
            alloc,
            header: HeaderBytes::new(alloc),
            hunks: None,
            refusal: None,
        }
    }

    /// Takes the next bytes of the file, up to the last size in the header, and returns how many it
    /// took: all of the piece as long as the header is not whole, and none once it is. The bytes of
    /// the piece that it did not take are for the loader that [`place`](HeaderLoader::place) gives.
    ///
    /// # Errors
    ///
    /// - [`LoadRefusal::File`] with the first offence, from the call that brings the last byte of
    ///   the offending longword, as [`ImageLoader::feed`] returns it for the same bytes.
    /// - [`LoadRefusal::OutOfMemory`] only if an allocation failed.
    ///
    /// [`LoadRefusal::Place`] is never returned here. After an error, every later call returns the
    /// same error.
    pub fn feed(&mut self, piece: &[u8]) -> Result<usize, LoadRefusal>
        ensures taken { self.old.refusal ≡ None → TakesPiece piece.now self.old self.new result }
        ensures keeps { Keeps self.new.refusal result }
        ensures again { (refusal : LoadRefusal) → self.old.refusal ≡ Some refusal →
            (result ≡ Err refusal) × (self.new ≡ self.old) }
    {
        match self.refusal {
            Some(refusal) => return Err(refusal),
            None => {}
        }
        match &self.hunks {
            Some(_) => return Ok(0),
            None => {}
        }
        match read_header(self.alloc, &mut self.header, piece) {
            Ok((taken, hunks)) => {
                self.hunks = hunks;
                Ok(taken)
            }
            Err(refusal) => {
                self.refusal = Some(refusal);
                Err(refusal)
            }
        }
    }

    /// The hunks of the header, in order: the size of each, and the memory that it asks for. `None`
    /// as long as the header is not whole, and after an error.
    ///
    /// They are those of every load file that begins with the bytes taken.
    pub fn hunks(&self) -> Option<&[HeaderHunk]>
        ensures hunks { MatchOption result (self.now.hunks ≡ None)
            (λ hunks. self.now.hunks ≡ Some hunks.now) }
        ensures file { MatchOption result ⊤ (λ hunks. AreOfFile hunks.now self.now.bytes) }
    {
        match &self.hunks {
            Some(hunks) => Some(hunks.as_slice()),
            None => None,
        }
    }

    /// A loader of the file at these bases, which are addresses, one for each hunk. It stands for
    /// the bytes that were taken, and takes those that follow; its `finish` never returns
    /// [`LoadRefusal::Place`]. This one stays as it is, so that other bases can be tried, or the
    /// file loaded again.
    ///
    /// # Errors
    ///
    /// - [`PlaceRefusal::HeaderIncomplete`] exactly if [`hunks`](HeaderLoader::hunks) returns
    ///   `None`.
    /// - Otherwise [`PlaceRefusal::Place`] exactly if [`check_places`](crate::check_places) returns
    ///   that fault for the sizes of the hunks.
    /// - [`PlaceRefusal::OutOfMemory`] only if an allocation failed.
    pub fn place(&self, bases: &[u32]) -> Result<ImageLoader<A>, PlaceRefusal>
        ensures stands { IfOk result (λ loader. StandsFor loader self.now.bytes) }
        ensures given { IfOk result (λ loader. bases_of loader ≡ bases.now) }
        ensures none { IfOk result (λ loader. refusal_of loader ≡ None) }
        ensures placed { IsOk result → CanPlace bases.now self.now.hunks }
        ensures stays { IsOk result → StaysPlaced bases.now self.now.bytes }
        ensures incomplete { (result ≡ Err PlaceRefusal.HeaderIncomplete) ↔
            (self.now.hunks ≡ None) }
        ensures refused { (fault : PlaceFault) → (result ≡ Err (PlaceRefusal.Place fault)) ↔
            CannotPlace bases.now fault self.now.hunks }
    {
        self.place_in(bases, Vec::new(self.alloc))
    }

    /// A loader of the file at these bases, as [`place`](HeaderLoader::place) gives it, that makes
    /// the bytes of each hunk in the room with its number. What is in a room is forgotten. One that
    /// has the capacity for its hunk, which is 4 times its size, is neither moved nor made longer:
    /// so the memory of a machine is written where it is. Hunks for which there is no room get one.
    ///
    /// # Errors
    ///
    /// Those of [`place`](HeaderLoader::place). The rooms are dropped then.
    pub fn place_in(
        &self,
        bases: &[u32],
        rooms: Vec<Vec<u8, A>, A>,
    ) -> Result<ImageLoader<A>, PlaceRefusal>
        ensures stands { IfOk result (λ loader. StandsFor loader self.now.bytes) }
        ensures given { IfOk result (λ loader. bases_of loader ≡ bases.now) }
        ensures none { IfOk result (λ loader. refusal_of loader ≡ None) }
        ensures placed { IsOk result → CanPlace bases.now self.now.hunks }
        ensures stays { IsOk result → StaysPlaced bases.now self.now.bytes }
        ensures incomplete { (result ≡ Err PlaceRefusal.HeaderIncomplete) ↔
            (self.now.hunks ≡ None) }
        ensures refused { (fault : PlaceFault) → (result ≡ Err (PlaceRefusal.Place fault)) ↔
            CannotPlace bases.now fault self.now.hunks }
    {
        let hunks = match &self.hunks {
            Some(hunks) => hunks.as_slice(),
            None => return Err(PlaceRefusal::HeaderIncomplete),
        };
        if let Err(fault) = check_sizes_with(self.alloc, &hunks, bases) {
            return Err(PlaceRefusal::Place(fault));
        }
        let mut loader = ImageLoader::in_rooms(self.alloc, bases, rooms)?;
        match loader.feed(&self.header.bytes) {
            Ok(()) => Ok(loader),
            Err(LoadRefusal::OutOfMemory) => Err(PlaceRefusal::OutOfMemory),
            Err(LoadRefusal::File(_)) => unreachable!(),
            Err(LoadRefusal::Place(_)) => unreachable!(),
        }
    }

    /// What is wrong with a file that ends here: it ends too early, after the bytes taken. An error
    /// of an earlier call is returned again.
    pub fn finish(self) -> LoadRefusal
        ensures early { self.refusal ≡ None → EndsEarlyAt self.bytes result }
        ensures again { (refusal : LoadRefusal) → self.refusal ≡ Some refusal → result ≡ refusal }
    {
        match self.refusal {
            Some(refusal) => refusal,
            None => self.header.finish(),
        }
    }
}

/// Takes bytes of a piece until the header is whole: how many, and then its hunks.
fn read_header<A: Allocator + Copy>(
    alloc: A,
    header: &mut HeaderBytes<A>,
    piece: &[u8],
) -> Result<(usize, Option<Vec<HeaderHunk, A>>), LoadRefusal>
    ensures { (bytes : List ℕ) → Holds header.old bytes → HeaderRead bytes None →
        ReadsHeader bytes piece.now header.new result }
{
    let taken = header.take(piece)?;
    if header.is_whole() {
        Ok((taken, Some(header_hunks(alloc, &header.bytes)?)))
    } else {
        Ok((taken, None))
    }
}
