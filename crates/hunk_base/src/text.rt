//! A text on its way to a writer: what is put into it, piece by piece, until it is finished.

ghost use Rattle.std.specs.Prelude.{◌≡◌, ◌≤◌, ◌<◌, ◌^◌, ◌++◌, [], ◌∷◌, ℕ, List, length, take, false, IfErr};
ghost use Rattle.std.specs.Fmt.{decimal};
ghost use Rattle.hunk_base.specs.Digits.{eight_digits};
ghost use Rattle.hunk_base.specs.Streams.{IsDevice, WriteStopped, WroteAll, WroteText};

use crate::digits::Digits;
use crate::fault::WriteFault;
use crate::streams::Sink;

/// A text on its way to a writer.
///
/// It keeps the first failure: after a write that failed, or took no byte, nothing more is written,
/// whatever is put into it, and [`Text::finish`] returns that failure. So a function that puts a
/// part of a text into it has no error of its own.
///
/// It does not buffer, and does not allocate.
pub struct Text<'w, W: Sink> {
    writer: &'w mut W,
    // The number of bytes that the writer has taken. It stops at the largest number that there is.
    taken: u64,
    // Whether a write has failed, or has taken none of at least one byte.
    stopped: bool,
}

impl<'w, W: Sink> Text<'w, W> {
    ghost use Rattle.hunk_base.specs.Text.{Holds, Puts};

    /// A text of no bytes.
    pub fn new(writer: &'w mut W) -> Text<'w, W>
        ensures same { result.writer.ghost_name ≡ writer.entry.ghost_name }
        ensures empty { Holds W.taken W.failed writer.old result [] }
    {
        Text {
            writer,
            taken: 0,
            stopped: false,
        }
    }

    /// Whether a write failed, so that what is put into the text is not written any more. A long
    /// loop may end early then.
    pub fn is_stopped(&self) -> bool
        ensures { result ≡ self.now.stopped }
    {
        self.stopped
    }

    /// How many bytes of the text the writer has taken so far.
    pub fn written(&self) -> u64
        ensures { result ≡ self.now.taken }
    {
        self.taken
    }

    /// Puts these bytes at the end of the text.
    pub fn put(&mut self, piece: &[u8])
        ensures { Puts W.taken W.failed self.old self.new piece.now }
    {
        let mut done = 0;
        while done < piece.len() && !self.stopped {
            done += self.write_some(&piece[done..]);
        }
    }

    /// Writes once, and returns how many bytes the writer took: none only if it failed.
    fn write_some(&mut self, piece: &[u8]) -> usize
        requires going { self.old.stopped ≡ false }
        requires some { 0 < length piece.now }
        ensures count { result ≤ length piece.now }
        ensures puts { Puts W.taken W.failed self.old self.new (take result piece.now) }
        ensures moves { self.new.stopped ≡ false → 0 < result }
    {
        match self.writer.write(piece) {
            Ok(0) | Err(_) => {
                self.stopped = true;
                0
            }
            Ok(count) => {
                self.taken = self.taken.saturating_add(count as u64);
                count
            }
        }
    }

    /// Puts a number in decimal digits at the end of the text, without leading zeros.
    pub fn put_decimal(&mut self, number: u64)
        ensures { Puts W.taken W.failed self.old self.new (decimal number) }
    {
        self.put(Digits::decimal(number).as_bytes());
    }

    /// Puts a longword in eight lower-case hexadecimal digits at the end of the text.
    pub fn put_longword(&mut self, number: u32)
        ensures { Puts W.taken W.failed self.old self.new (eight_digits number) }
    {
        self.put(Digits::hexadecimal(number).as_bytes());
    }

    /// Puts the end of a line at the end of the text: one newline byte.
    pub fn end_line(&mut self)
        ensures { Puts W.taken W.failed self.old self.new (10 ∷ []) }
    {
        self.put(b"\n");
    }

    /// Ends the text.
    ///
    /// # Errors
    ///
    /// [`WriteFault::Device`] only if a write failed or took no byte, with the exact number of bytes
    /// of the text that the writer has taken, if the text has fewer than 2^64.
    pub fn finish(self) -> Result<(), WriteFault>
        ensures wrote { (start : W) (bytes : List ℕ) → Holds W.taken W.failed start self.entry
            bytes → WroteText W.taken W.failed start self.exit.0.now bytes result }
        ensures counted { (start : W) (bytes : List ℕ) → length bytes < 2 ^ 64 →
            Holds W.taken W.failed start self.entry bytes →
            WroteAll W.taken W.failed start self.exit.0.now bytes result }
        ensures device { IfErr result IsDevice }
    {
        let Text {
            writer: _,
            taken,
            stopped,
        } = self;
        if stopped {
            return Err(WriteFault::Device { written: taken });
        }
        Ok(())
    }

    /// Ends a text whose rest cannot be put into it, since an allocation failed.
    ///
    /// Returns [`WriteFault::Device`] if a write failed before that, and otherwise
    /// [`WriteFault::OutOfMemory`], with the exact number of bytes of the text that the writer has
    /// taken.
    pub fn out_of_memory(self) -> WriteFault
        ensures { (start : W) (bytes rest : List ℕ) → length (bytes ++ rest) < 2 ^ 64 →
            Holds W.taken W.failed start self.entry bytes →
            WriteStopped W.taken W.failed start self.exit.0.now (bytes ++ rest) result }
    {
        let Text {
            writer: _,
            taken,
            stopped,
        } = self;
        if stopped {
            WriteFault::Device { written: taken }
        } else {
            WriteFault::OutOfMemory { written: taken }
        }
    }
}
