//! Loading a load file at given addresses while its bytes come, in pieces of any size.

ghost use Rattle.std.specs.Prelude.{◌≡◌, ℕ, ◌++◌, List, [], Some, None, IfOk, OnOk};
ghost use Rattle.hunk_base.specs.declared.fault.Refusal.{Refusal};
ghost use Rattle.hunk_loader.specs.declared.loading.LoadRefusal.{LoadRefusal};

use crate::image::Image;
use crate::image_builder::ImageBuilder;
use crate::loading::LoadRefusal;
use hunk_words::{Decoder, Feed, Refusal};
use std::alloc::{AllocError, Allocator, Global};

/// Makes the image of a load file from its bytes, in pieces of any size, without keeping the file.
///
/// Apart from the image it keeps the bases, one number for each size in the header, and the sites
/// of the current hunk, at most one for each of its longwords. Names, symbols and debug blocks are
/// not kept. If the hunks cannot be placed at the bases, it allocates nothing for the image. All of
/// this holds after an error too. Where the first hunk begins, it allocates as
/// [`check_places_with`](crate::check_places_with) does, and keeps nothing of that.
///
/// What is wrong with the file is returned before what is wrong with the bases. After an error,
/// every later call returns the same error.
#[derive(Drop)]
pub struct ImageLoader<A: Allocator + Copy = Global> {
    decoder: Decoder<ImageBuilder<A>>,
}

impl<A: Allocator + Copy> ImageLoader<A> {
    ghost use Rattle.hunk_loader.specs.KeptMemory.{IsBoundedBy};
    ghost use Rattle.hunk_loader.specs.Loading.{Keeps};
    ghost use Rattle.hunk_loader.specs.ImageLoader.{StandsFor, Fed, Finished, bases_of, events_told, holds_of, refusal_of};

    /// A loader for hunks at these bases, which are addresses, before the first byte. It keeps a
    /// copy of the bases.
    ///
    /// # Errors
    ///
    /// [`AllocError`] only if an allocation failed.
    pub fn new(alloc: A, bases: &[u32]) -> Result<Self, AllocError>
        ensures stands { IfOk result (λ loader. StandsFor loader []) }
        ensures given { IfOk result (λ loader. bases_of loader ≡ bases.now) }
        ensures none { IfOk result (λ loader. refusal_of loader ≡ None) }
    {
        Self::in_rooms(alloc, bases, Vec::new(alloc))
    }

    /// The same; the bytes of a hunk are made in the room with its number, if there is one.
    pub(crate) fn in_rooms(
        alloc: A,
        bases: &[u32],
        rooms: Vec<Vec<u8, A>, A>,
    ) -> Result<Self, AllocError>
        ensures { IfOk result (λ loader. StandsFor loader [] × (bases_of loader ≡ bases.now) ×
            (refusal_of loader ≡ None)) }
    {
        let mut copy = Vec::with_capacity(alloc, bases.len())?;
        copy.extend_from_slice(bases)?;
        Ok(ImageLoader {
            decoder: Decoder::new(ImageBuilder::new(alloc, copy, rooms)),
        })
    }

    /// Takes the next bytes of the file. An empty piece changes nothing.
    ///
    /// # Errors
    ///
    /// - [`LoadRefusal::File`] with the first offence, from the call that brings the last byte of
    ///   the offending longword: its place (a longword, from 0), and its reason by the table of
    ///   faults or the rules for sites.
    /// - [`LoadRefusal::OutOfMemory`] only if an allocation failed.
    ///
    /// [`LoadRefusal::Place`] is never returned here. After an error, every later call returns the
    /// same error.
    pub fn feed(&mut self, piece: &[u8]) -> Result<(), LoadRefusal>
        ensures stands { (bytes : List ℕ) → StandsFor self.old bytes →
            StandsFor self.new (bytes ++ piece.now) }
        ensures given { bases_of self.new ≡ bases_of self.old }
        ensures fed { (bytes : List ℕ) → StandsFor self.new bytes → Fed bytes result }
        ensures keeps { Keeps (refusal_of self.new) result }
        ensures bounded { OnOk result ((bytes : List ℕ) → StandsFor self.new bytes →
            IsBoundedBy (holds_of self.new) (events_told bytes)) }
        ensures again { (refusal : LoadRefusal) →
            refusal_of self.old ≡ Some refusal → result ≡ Err refusal }
        ensures empty { piece.now ≡ [] → self.new ≡ self.old }
    {
        Ok(self.decoder.feed(piece)?)
    }

    /// The image of a whole file. Does not allocate.
    ///
    /// # Errors
    ///
    /// - [`LoadRefusal::File`] if the bytes are not a load file: `PartialLongword` if bytes of a
    ///   longword are left over, `UnexpectedEnd` if the file is not complete.
    /// - [`LoadRefusal::Place`], for a load file, exactly if [`check_places`](crate::check_places)
    ///   returns that fault for the sizes of its hunks.
    /// - The error of an earlier call, which is returned again.
    pub fn finish(self) -> Result<Image<A>, LoadRefusal>
        ensures answer { (bytes : List ℕ) → StandsFor self bytes →
            Finished (bases_of self) bytes result }
        ensures again { (refusal : LoadRefusal) →
            refusal_of self ≡ Some refusal → result ≡ Err refusal }
        ensures memory { result ≡ Err LoadRefusal.OutOfMemory →
            refusal_of self ≡ Some LoadRefusal.OutOfMemory }
    {
        self.decoder.finish()?.image()
    }
}

impl<A: Allocator + Copy> Feed for ImageLoader<A> {
    ghost use Rattle.hunk_loader.specs.ImageLoader.{StandsFor, bases_of, file_refusal_of};

    ghost stands_for = { StandsFor };

    ghost refused = { λ loader refusal. file_refusal_of loader ≡ Some refusal };

    ghost given = { bases_of };

    fn feed(&mut self, piece: &[u8]) -> Result<(), Refusal> {
        self.decoder.feed(piece)
    }
}
