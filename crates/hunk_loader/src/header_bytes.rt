//! The bytes of a header, which are judged as they come.

ghost use Rattle.std.specs.Prelude.{◌≡◌, ◌≤◌, ◌↔◌, ℕ, List, [], length, IfOk, IsTrue};
ghost use Rattle.hunk_base.specs.Longwords.{longwords};
ghost use Rattle.hunk_loader.specs.HeaderHunks.{header_length};

use crate::header_hunks::FRONT;
use crate::image_builder::ImageBuilder;
use crate::loading::LoadRefusal;
use byteorder::{BigEndian, ByteOrder};
use hunk_base::LONGWORD;
use hunk_words::{Decoder, Refusal};
use std::alloc::Allocator;

/// The place of the number of hunks in a header, in longwords.
const COUNT: usize = 2;

/// The bytes of a header so far, and a decoder that was fed the same bytes. It grows only as bytes
/// come.
#[derive(Drop)]
pub(crate) struct HeaderBytes<A: Allocator + Copy> {
    pub(crate) bytes: Vec<u8, A>,
    decoder: Decoder<ImageBuilder<A>>,
}

impl<A: Allocator + Copy> HeaderBytes<A> {
    ghost use Rattle.hunk_loader.specs.HeaderBytes.{EndsEarlyAt, Holds, TakesHeader, TakesUntil};

    /// No bytes.
    pub(crate) fn new(alloc: A) -> Self
        ensures { Holds result [] }
    {
        HeaderBytes {
            bytes: Vec::new(alloc),
            // It sees no content, and is asked for no image: so it needs no bases and no rooms.
            decoder: Decoder::new(ImageBuilder::new(alloc, Vec::new(alloc), Vec::new(alloc))),
        }
    }

    /// The number of bytes of the header; up to the number of hunks, if that has not come yet.
    fn end(&self) -> u64
        ensures { result ≡ header_length (longwords self.now.bytes.items) }
    {
        let at = LONGWORD * COUNT;
        if self.bytes.len() < at + LONGWORD {
            return (at + LONGWORD) as u64;
        }
        let count = BigEndian::read_u32(&self.bytes[at..at + LONGWORD]);
        LONGWORD as u64 * (FRONT as u64 + u64::from(count))
    }

    /// Whether the header is whole.
    pub(crate) fn is_whole(&self) -> bool
        ensures { IsTrue result ↔ header_length (longwords self.now.bytes.items) ≤
            length self.now.bytes.items }
    {
        self.end() <= self.bytes.len() as u64
    }

    /// Takes bytes of the piece until there are `end`, and returns how many.
    fn take_until(&mut self, end: u64, piece: &[u8]) -> Result<usize, LoadRefusal>
        ensures taken { (bytes : List ℕ) → Holds self.old bytes →
            TakesUntil end bytes piece.now self.new result }
        ensures within { IfOk result (λ taken. taken ≤ length piece.now) }
    {
        let room = end.saturating_sub(self.bytes.len() as u64);
        let taken = piece.len().min(room as usize);
        let front = &piece[..taken];
        self.bytes.extend_from_slice(front)?;
        self.decoder.feed(front)?;
        Ok(taken)
    }

    /// Takes bytes of the piece until the header is whole, and returns how many.
    pub(crate) fn take(&mut self, piece: &[u8]) -> Result<usize, LoadRefusal>
        ensures { (bytes : List ℕ) → Holds self.old bytes → length bytes ≤ header_length
            (longwords bytes) → TakesHeader bytes piece.now self.new result }
    {
        let front = self.take_until(LONGWORD as u64 * (COUNT as u64 + 1), piece)?;
        let more = self.take_until(self.end(), &piece[front..])?;
        Ok(front + more)
    }

    /// What is wrong with a file that ends here.
    pub(crate) fn finish(self) -> LoadRefusal
        requires holds { Holds self self.bytes.items }
        requires within { length self.bytes.items ≤ header_length (longwords self.bytes.items) }
        ensures { EndsEarlyAt self.bytes.items result }
    {
        match self.decoder.finish() {
            Ok(_) => unreachable!(),
            Err(Refusal::Fault(fault)) => LoadRefusal::File(fault),
            Err(Refusal::OutOfMemory) => LoadRefusal::OutOfMemory,
        }
    }
}
