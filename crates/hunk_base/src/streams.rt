//! Readers and writers that report their bytes, their failure and their end.

ghost use Rattle.std.specs.Prelude.{◌≡◌, ◌≤◌, ◌<◌, ◌+◌, ◌^◌, ◌||◌, ◌++◌, ℕ, List, [], length, take, Bool, Option, is_err, IsTrue, IfOk, OnOk, OnErr, IfErr};
ghost use Rattle.std.specs.Io.KnownBytes.{Consumes, Appends, Keeps};
ghost use Rattle.hunk_base.specs.declared.fault.Refusal.{Refusal};
ghost use Rattle.hunk_base.specs.Streams.{ends, refuses, HasRead, ReadStopped};

use crate::fault::{DeviceFault, ReadFault, Refusal};

/// A reader of bytes.
///
/// The reader itself reports whether a read failed, and whether it reached its end, so a caller can
/// see that an error came from the device.
pub trait Source {
    // The bytes that reads will return from here on, if they are known.
    ghost left: { Self → Option (List ℕ) };

    ghost failed: { Self → Bool };

    ghost ended: { Self → Bool };

    /// Moves the next bytes into `buffer`, and returns their number: at most its length.
    ///
    /// `Ok(0)` for a buffer of at least one byte is the reader's end.
    ///
    /// # Errors
    ///
    /// [`DeviceFault`] if the read failed. It has then taken no byte.
    fn read(&mut self, buffer: &mut [u8]) -> Result<usize, DeviceFault>
        ensures count { IfOk result (λ n. n ≤ length buffer.old) }
        ensures bytes { IfOk result
            (λ n. Consumes (left self.old) (left self.new) (take n buffer.new)) }
        ensures failed { failed self.new ≡ (is_err result || failed self.old) }
        ensures ended { ended self.new ≡ (ends result (length buffer.old) || ended self.old) }
        ensures unread { OnErr result (Keeps (left self.old) (left self.new)) };

    /// Whether a read has failed so far.
    fn failed(&self) -> bool
        ensures { result ≡ failed self.now };

    /// Whether the reader has reached its end.
    fn ended(&self) -> bool
        ensures { result ≡ ended self.now };
}

/// A writer of bytes.
pub trait Sink {
    // The bytes that the writer has taken, if they are known.
    ghost taken: { Self → Option (List ℕ) };

    ghost failed: { Self → Bool };

    /// Takes the first bytes of `buffer`, and returns their number.
    ///
    /// # Errors
    ///
    /// [`DeviceFault`] if the write failed. It has then taken no byte.
    fn write(&mut self, buffer: &[u8]) -> Result<usize, DeviceFault>
        ensures count { IfOk result (λ n. n ≤ length buffer.now) }
        ensures bytes { IfOk result
            (λ n. Appends (taken self.old) (taken self.new) (take n buffer.now)) }
        ensures nothing { OnErr result (Keeps (taken self.old) (taken self.new)) }
        ensures failed { failed self.new ≡
            (refuses result (length buffer.now) || failed self.old) };

    /// Whether a write has failed so far, or has taken none of at least one byte.
    fn failed(&self) -> bool
        ensures { result ≡ failed self.now };
}

/// What the bytes of a file are fed to, in pieces of any size.
pub trait Feed {
    // What it holds after these bytes have been fed.
    ghost stands_for: { Self → List ℕ → Type 0 };

    // It keeps this error.
    ghost refused: { Self → Refusal → Type 0 };

    // The numbers that it was given before the first byte. They never change.
    ghost given: { Self → List ℕ } = { λ _. [] };

    /// Takes the next bytes. It returns an error if there are more than 2^28 longwords, or earlier.
    fn feed(&mut self, piece: &[u8]) -> Result<(), Refusal>
        ensures stands { (bytes : List ℕ) → stands_for self.old bytes →
            stands_for self.new (bytes ++ piece.now) }
        ensures keeps { IfErr result (λ refusal. refused self.new refusal) }
        ensures given { given self.new ≡ given self.old }
        ensures bounded { OnOk result
            ((bytes : List ℕ) → stands_for self.new bytes → length bytes < 2 ^ 30 + 4) };
}

/// Each read but the last one brings at least a byte, and a file has fewer bytes than this.
const MOST_READS: u32 = 0x4000_0004;

/// How many reads come first, of [`FIRST_PIECE`] bytes each. A file with fewer bytes than that ends at the second one.
const FIRST_READS: u32 = 2;

/// Bytes of each of the first reads.
const FIRST_PIECE: usize = 8192;

/// Bytes of each later read. Their buffer is cleared before it is used, for which a small file should not wait.
const PIECE: usize = 65536;

/// Feeds everything that `reader` has to a new `decoder`, until the reader ends, a read fails, or
/// the decoder returns an error.
///
/// # Errors
///
/// - [`ReadFault::Refused`] with the error of the decoder.
/// - [`ReadFault::Device`] only if a read failed.
pub fn read_all<R: Source, D: Feed>(reader: &mut R, decoder: &mut D) -> Result<(), ReadFault>
    requires { D.stands_for decoder.old [] }
    ensures whole { OnOk result
        (HasRead (R.left reader.old) (R.left reader.new) (D.stands_for decoder.new)) }
    ensures ended { OnOk result (IsTrue (R.ended reader.new)) }
    ensures given { D.given decoder.new ≡ D.given decoder.old }
    ensures stopped { IfErr result (ReadStopped (R.left reader.old) (R.left reader.new)
        (R.failed reader.new) (D.stands_for decoder.new) (D.refused decoder.new)) }
{
    let mut first = [0; FIRST_PIECE];
    'first: for _number in 0..FIRST_READS {
        let count = reader.read(&mut first)?;
        if count == 0 {
            return Ok(());
        }
        decoder.feed(&first[..count])?;
    }
    let mut buffer = [0; PIECE];
    'reads: for _number in 0..MOST_READS {
        let count = reader.read(&mut buffer)?;
        if count == 0 {
            return Ok(());
        }
        decoder.feed(&buffer[..count])?;
    }
    unreachable!()
}
