//! The addresses in a file, one for each hunk.

ghost use Rattle.std.specs.Prelude.{◌≡◌, ◌≤◌, ◌++◌, ℕ, List, [], ◌∷◌, length, IfOk, IfErr, IsTrue, OnOk};
ghost use Rattle.hunk_base.specs.Streams.{HasRead};
ghost use Rattle.hunk_loadfile.specs.Rules.{most_hunks};
ghost use Rattle.hunk_addresses.specs.BasesFile.{is_separator, most_bytes, IsBasesFileFault, IsFileOf, IsRejected, StandsFor};
ghost use Rattle.hunk_addresses.specs.PartDigits.{ended_number};
ghost use Rattle.hunk_addresses.specs.declared.bases_file.BasesFileFault.TheVariants as file_fault;

use crate::bases::BasesFault;
use crate::part_digits::PartDigits;
use hunk_loadfile::rules::MOST_HUNKS;
use hunk_words::{DeviceFault, Source};
use std::alloc::Allocator;
use thiserror::Error;

/// The most bytes of a file: 16 MiB.
const MOST_BYTES: usize = 0x100_0000;

/// Each read but the last one brings at least a byte.
const MOST_READS: usize = MOST_BYTES + 1;

/// Bytes per read.
const PIECE: usize = 16384;

/// Why the addresses in a file are not known.
#[derive(Clone, Copy, Debug, PartialEq, Eq, Error)]
pub enum BasesFileFault {
    /// The file is rejected, or an allocation failed.
    #[error("{0}")]
    Refused(BasesFault),
    /// There are more than 65,535 addresses, of which a load file has no use.
    #[error("more than 65535 addresses")]
    TooMany,
    /// There are more than 16 MiB.
    #[error("more than 16777216 bytes")]
    TooLong,
    /// A read failed.
    #[error("read failed")]
    Device,
}

impl From<BasesFault> for BasesFileFault {
    ghost from_gives = { λ fault file. file ≡ file_fault.Refused fault };

    fn from(fault: BasesFault) -> BasesFileFault {
        BasesFileFault::Refused(fault)
    }
}

impl From<DeviceFault> for BasesFileFault {
    ghost from_gives = { λ _ file. file ≡ file_fault.Device };

    fn from(_failure: DeviceFault) -> BasesFileFault {
        BasesFileFault::Device
    }
}

/// Reads addresses to the end of `reader`: numbers of 1 to 8 hexadecimal digits of either case,
/// separated by commas, spaces, tabs, carriage returns or line feeds, in any number and also before the
/// first and after the last (own rule). No bytes have no address. There are at most 65,535 addresses, as
/// a load file has no more hunks, in at most 16 MiB.
///
/// It keeps 4 bytes for an address, and the piece that was read last. A part that is no address ends
/// the reading: its ninth digit, or its first byte that is no digit. So do the end of the 65,536th
/// address, and the first piece that passes 16 MiB: whatever the reader has, this ends.
///
/// # Errors
///
/// - [`BasesFileFault::Refused`] with [`BasesFault::BadNumber`] and the index, from 0, of the first
///   part that is no address, whatever the bytes are that were not read.
/// - [`BasesFileFault::TooMany`] if there are more than 65,535 addresses.
/// - [`BasesFileFault::TooLong`] if there are more than 16 MiB.
/// - [`BasesFileFault::Refused`] with [`BasesFault::OutOfMemory`] if an allocation failed.
/// - [`BasesFileFault::Device`] only if a read failed.
pub fn read_bases<R: Source, A: Allocator + Copy>(
    alloc: A,
    reader: &mut R,
) -> Result<Vec<u32, A>, BasesFileFault>
    ensures numbers { IfOk result
        (λ bases. HasRead (R.left reader.old) (R.left reader.new) (IsFileOf bases.items)) }
    ensures ended { OnOk result (IsTrue (R.ended reader.new)) }
    ensures refused { IfErr result
        (IsBasesFileFault (R.left reader.old) (R.left reader.new) (R.failed reader.new)) }
{
    let mut found = FoundBases::new(alloc);
    let mut buffer = [0; PIECE];
    let mut room = MOST_BYTES;
    'reads: for _number in 0..MOST_READS {
        let count = reader.read(&mut buffer)?;
        if count == 0 {
            return found.finish();
        }
        if count > room {
            return Err(BasesFileFault::TooLong);
        }
        room -= count;
        found.feed(&buffer[..count])?;
    }
    unreachable!()
}

/// The addresses that have been read, and the digits of the part that is being read.
#[derive(Drop)]
struct FoundBases<A: Allocator + Copy> {
    bases: Vec<u32, A>,
    digits: PartDigits,
    ghost few: { length bases.items ≤ most_hunks },
}

impl<A: Allocator + Copy> FoundBases<A> {
    /// Before the first byte.
    fn new(alloc: A) -> FoundBases<A>
        ensures { StandsFor result.bases.items result.digits [] }
    {
        FoundBases {
            bases: Vec::new(alloc),
            digits: PartDigits::none(),
        }
    }

    /// Takes the next bytes.
    fn feed(&mut self, piece: &[u8]) -> Result<(), BasesFileFault>
        ensures stands { OnOk result
            ((bytes : List ℕ) → StandsFor self.old.bases.items self.old.digits bytes →
            StandsFor self.new.bases.items self.new.digits (bytes ++ piece.now)) }
        ensures rejected { IfErr result (λ fault. (bytes : List ℕ) → StandsFor self.old.bases.items
            self.old.digits bytes → IsRejected (bytes ++ piece.now) fault) }
    {
        for byte in piece {
            self.push(*byte)?;
        }
        Ok(())
    }

    /// Takes the next byte.
    fn push(&mut self, byte: u8) -> Result<(), BasesFileFault>
        ensures stands { OnOk result
            ((bytes : List ℕ) → StandsFor self.old.bases.items self.old.digits bytes →
            StandsFor self.new.bases.items self.new.digits (bytes ++ byte ∷ [])) }
        ensures rejected { IfErr result (λ fault. (bytes : List ℕ) → StandsFor self.old.bases.items
            self.old.digits bytes → IsRejected (bytes ++ byte ∷ []) fault) }
    {
        if is_separator(byte) {
            return self.end_part();
        }
        let Some(digits) = self.digits.with(byte) else {
            return Err(BasesFileFault::Refused(BasesFault::BadNumber(self.bases.len())));
        };
        self.digits = digits;
        Ok(())
    }

    /// Ends the part that is being read, if there is one.
    fn end_part(&mut self) -> Result<(), BasesFileFault>
        ensures none { self.new.digits.count ≡ 0 }
        ensures ends { IfOk result
            (λ _. self.new.bases.items ≡ self.old.bases.items ++ ended_number self.old.digits) }
        ensures rejected { IfErr result (λ fault. (bytes : List ℕ) →
            StandsFor self.old.bases.items self.old.digits bytes → IsRejected bytes fault) }
    {
        if self.digits.count > 0 {
            let base = self.digits.value;
            self.digits = PartDigits::none();
            if self.bases.len() == MOST_HUNKS {
                return Err(BasesFileFault::TooMany);
            }
            self.bases.push(base).map_err(|_| BasesFault::OutOfMemory)?;
        }
        Ok(())
    }

    /// The addresses, after the last byte.
    fn finish(mut self) -> Result<Vec<u32, A>, BasesFileFault>
        ensures numbers { IfOk result (λ bases. (bytes : List ℕ) → StandsFor self.bases.items
            self.digits bytes → length bytes ≤ most_bytes → IsFileOf bases.items bytes) }
        ensures rejected { IfErr result (λ fault. (bytes : List ℕ) →
            StandsFor self.bases.items self.digits bytes → IsRejected bytes fault) }
    {
        self.end_part()?;
        let FoundBases { bases, digits: _ } = self;
        Ok(bases)
    }
}

/// Whether a byte separates the parts of a file.
fn is_separator(byte: u8) -> bool
    ensures { result ≡ is_separator byte }
{
    matches!(byte, b',' | b' ' | b'\t' | b'\r' | b'\n')
}
