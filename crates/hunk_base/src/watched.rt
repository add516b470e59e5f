//! Readers and writers of std, watched.

ghost use Rattle.std.specs.Prelude.{◌≡◌, ◌<◌, ◌≤◌, ◌||◌, ℕ, List, length, take, Bool, Option, is_err, IfOk, OnOk, OnErr};
ghost use Rattle.std.specs.Io.KnownBytes.{Consumes, IsAtEnd, Keeps};
ghost use Rattle.hunk_base.specs.Streams.{ends};

use crate::fault::DeviceFault;
use crate::streams::{Sink, Source};
use std::io::{Read, Write};

/// A reader or a writer of std that remembers whether it has failed and whether it has reached its
/// end.
///
/// It passes std's result through, and has the same bytes as the reader or writer inside.
#[derive(Drop)]
pub struct Watched<T> {
    inner: T,
    failed: bool,
    ended: bool,
}

impl<T> Watched<T> {
    ghost use Rattle.std.specs.Prelude.{◌≡◌, false};
    ghost use Rattle.hunk_base.specs.Watched.{inner_of, saw_failure, saw_end};

    /// Watches `inner`. It has not failed and not ended yet.
    pub fn new(inner: T) -> Watched<T>
        ensures inner { inner_of result ≡ inner }
        ensures failed { saw_failure result ≡ false }
        ensures ended { saw_end result ≡ false }
    {
        Watched {
            inner,
            failed: false,
            ended: false,
        }
    }

    /// Returns the reader or writer inside.
    pub fn into_inner(self) -> T
        ensures { result ≡ inner_of self }
    {
        let Watched {
            inner,
            failed: _,
            ended: _,
        } = self;
        inner
    }
}

impl<T: Read> Source for Watched<T> {
    ghost use Rattle.hunk_base.specs.Watched.{inner_of, saw_end, saw_failure};

    ghost left = { λ watched. T.remaining (inner_of watched) };

    ghost failed = { saw_failure };

    ghost ended = { saw_end };

    /// Reads from the reader inside. Reports its end only if that reader is at its end; a failed
    /// read takes no byte.
    fn read(&mut self, buffer: &mut [u8]) -> Result<usize, DeviceFault>
        ensures count { IfOk result (λ n. n ≤ length buffer.old) }
        ensures bytes { IfOk result (λ n. Consumes (T.remaining (inner_of self.old))
            (T.remaining (inner_of self.new)) (take n buffer.new)) }
        ensures failed { saw_failure self.new ≡ (is_err result || saw_failure self.old) }
        ensures ended { saw_end self.new ≡ (ends result (length buffer.old) || saw_end self.old) }
        ensures at_end { IfOk result
            (λ n. n ≡ 0 → 0 < length buffer.old → IsAtEnd (T.remaining (inner_of self.new))) }
        ensures unread { OnErr result
            (Keeps (T.remaining (inner_of self.old)) (T.remaining (inner_of self.new))) }
    {
        match self.inner.read(buffer) {
            Ok(count) => {
                if count == 0 && !buffer.is_empty() {
                    self.ended = true;
                }
                Ok(count)
            }
            Err(_) => {
                self.failed = true;
                Err(DeviceFault)
            }
        }
    }

    fn failed(&self) -> bool {
        self.failed
    }

    fn ended(&self) -> bool {
        self.ended
    }
}

impl<T: Write> Sink for Watched<T> {
    ghost use Rattle.hunk_base.specs.Watched.{inner_of, saw_failure};

    ghost taken = { λ watched. T.contents (inner_of watched) };

    ghost failed = { saw_failure };

    fn write(&mut self, buffer: &[u8]) -> Result<usize, DeviceFault> {
        match self.inner.write(buffer) {
            Ok(count) => {
                if count == 0 && !buffer.is_empty() {
                    self.failed = true;
                }
                Ok(count)
            }
            Err(_) => {
                self.failed = true;
                Err(DeviceFault)
            }
        }
    }

    fn failed(&self) -> bool {
        self.failed
    }
}
