//! A writer over memory.

ghost use Rattle.std.specs.Prelude.{◌≤◌, vec_len, vec_capacity};

use crate::fault::DeviceFault;
use crate::streams::Sink;
use std::alloc::{AllocError, Allocator, Global};

/// A writer over memory that takes a limited number of bytes per write, and in total.
///
/// It allocates its whole buffer when it is made, so its writes do not allocate.
#[derive(Drop)]
pub struct Room<A: Allocator = Global> {
    bytes: Vec<u8, A>,
    most: usize,
    room: usize,
    zero: bool,
    failed: bool,
    ghost inside: { vec_len bytes ≤ room },
    ghost taken_before: { room ≤ vec_capacity bytes },
    ghost some: { 1 ≤ most },
}

impl<A: Allocator> Room<A> {
    ghost use Rattle.std.specs.Prelude.{◌≡◌, ◌≤◌, IfOk};
    ghost use Rattle.hunk_base.specs.Room.{IsEmpty, bytes_taken};

    /// A writer that takes at most `most` bytes per write, which is at least 1, and `room` bytes in
    /// total. After that, a write of one byte or more returns an `Err`, or `Ok(0)` if `zero` is
    /// set.
    ///
    /// # Errors
    ///
    /// [`AllocError`] only if an allocation failed.
    pub fn new(alloc: A, most: usize, room: usize, zero: bool) -> Result<Room<A>, AllocError>
        requires { 1 ≤ most }
        ensures { IfOk result (λ writer. IsEmpty writer most room zero) }
    {
        let bytes = Vec::with_capacity(alloc, room)?;
        Ok(Room {
            bytes,
            most,
            room,
            zero,
            failed: false,
        })
    }

    /// The bytes taken so far.
    pub fn bytes(&self) -> &[u8]
        ensures { result.now ≡ bytes_taken self.now }
    {
        self.bytes.as_slice()
    }
}

impl<A: Allocator> Sink for Room<A> {
    ghost use Rattle.std.specs.Prelude.{◌≡◌, ◌≤◌, ◌||◌, length, take, Some, IfOk, OnErr};
    ghost use Rattle.std.specs.Io.KnownBytes.{Appends, Keeps};
    ghost use Rattle.hunk_base.specs.Streams.{refuses};
    ghost use Rattle.hunk_base.specs.Room.{bytes_taken, answer_of, has_failed, KeepsRules};

    ghost taken = { λ writer. Some (bytes_taken writer) };

    ghost failed = { has_failed };

    fn write(&mut self, buffer: &[u8]) -> Result<usize, DeviceFault>
        ensures count { IfOk result (λ n. n ≤ length buffer.now) }
        ensures bytes { IfOk result (λ n. Appends (Some (bytes_taken self.old))
            (Some (bytes_taken self.new)) (take n buffer.now)) }
        ensures nothing { OnErr result
            (Keeps (Some (bytes_taken self.old)) (Some (bytes_taken self.new))) }
        ensures failed { has_failed self.new ≡
            (refuses result (length buffer.now) || has_failed self.old) }
        ensures answer { result ≡ answer_of self.old (length buffer.now) }
        ensures rules { KeepsRules self.old self.new }
    {
        let left = self.room - self.bytes.len();
        if left == 0 && !buffer.is_empty() {
            self.failed = true;
            return if self.zero { Ok(0) } else { Err(DeviceFault) };
        }
        let count = buffer.len().min(left).min(self.most);
        match self.bytes.extend_from_slice(&buffer[..count]) {
            Ok(()) => Ok(count),
            Err(_) => unreachable!(),
        }
    }

    fn failed(&self) -> bool {
        self.failed
    }
}
