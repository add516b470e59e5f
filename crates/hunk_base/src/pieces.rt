//! A reader over memory.

ghost use Rattle.std.specs.Prelude.{◌≡◌, ◌≤◌, ◌-◌, ◌||◌, ℕ, List, length, take, drop, min, Bool, Option, Some, is_err, IfOk, OnErr, vec_len};
ghost use Rattle.std.specs.Io.KnownBytes.{Consumes, Keeps};
ghost use Rattle.hunk_base.specs.Streams.{ends};

use crate::fault::DeviceFault;
use crate::streams::Source;
use std::alloc::{Allocator, Global};

/// A reader over memory that returns its bytes in pieces. One of its reads may fail.
#[derive(Drop)]
pub struct Pieces<A: Allocator = Global> {
    bytes: Vec<u8, A>,
    position: usize,
    most: usize,
    fails_at: Option<u64>,
    reads: u64,
    failed: bool,
    ended: bool,
    ghost inside: { position ≤ vec_len bytes },
    ghost some: { 1 ≤ most },
}

impl<A: Allocator> Pieces<A> {
    ghost use Rattle.std.specs.Prelude.{◌≤◌};
    ghost use Rattle.hunk_base.specs.Pieces.{IsFresh};

    /// A reader of `bytes`, at most `most` bytes per read, which is at least 1. Read number
    /// `fails_at`, from 0, fails; once the number of reads is 2^64 - 1, it stays there.
    pub fn new(bytes: Vec<u8, A>, most: usize, fails_at: Option<u64>) -> Pieces<A>
        requires { 1 ≤ most }
        ensures { IsFresh result bytes.items most fails_at }
    {
        Pieces {
            bytes,
            position: 0,
            most,
            fails_at,
            reads: 0,
            failed: false,
            ended: false,
        }
    }
}

impl<A: Allocator> Source for Pieces<A> {
    ghost use Rattle.std.specs.Prelude.{◌≡◌, ◌≤◌, ◌||◌, length, take, drop, Some, is_err, IfOk, OnErr};
    ghost use Rattle.std.specs.Io.KnownBytes.{Consumes, Keeps};
    ghost use Rattle.hunk_base.specs.Streams.{ends};
    ghost use Rattle.hunk_base.specs.Pieces.{bytes_left, answer_of, has_ended, has_failed, IsCounted};

    ghost left = { λ pieces. Some (bytes_left pieces) };

    ghost failed = { has_failed };

    ghost ended = { has_ended };

    fn read(&mut self, buffer: &mut [u8]) -> Result<usize, DeviceFault>
        ensures count { IfOk result (λ n. n ≤ length buffer.old) }
        ensures bytes { IfOk result (λ n. Consumes (Some (bytes_left self.old))
            (Some (bytes_left self.new)) (take n buffer.new)) }
        ensures failed { has_failed self.new ≡ (is_err result || has_failed self.old) }
        ensures ended { has_ended self.new ≡
            (ends result (length buffer.old) || has_ended self.old) }
        ensures unread { OnErr result
            (Keeps (Some (bytes_left self.old)) (Some (bytes_left self.new))) }
        ensures answer { result ≡ answer_of self.old (length buffer.old) }
        ensures counted { IsCounted self.old self.new }
    {
        let number = self.reads;
        self.reads = number.saturating_add(1);
        if self.fails_at == Some(number) {
            self.failed = true;
            return Err(DeviceFault);
        }
        let rest = &self.bytes[self.position..];
        let count = copy_front(buffer, rest, self.most);
        self.position += count;
        if count == 0 && !buffer.is_empty() {
            self.ended = true;
        }
        Ok(count)
    }

    fn failed(&self) -> bool {
        self.failed
    }

    fn ended(&self) -> bool {
        self.ended
    }
}

/// Copies the first bytes: as many as there are, as there is room for, and at most `most`.
fn copy_front(buffer: &mut [u8], bytes: &[u8], most: usize) -> usize
    ensures count { result ≡ min (min (length buffer.old) (length bytes.now)) most }
    ensures front { take result buffer.new ≡ take result bytes.now }
{
    let count = buffer.len().min(bytes.len()).min(most);
    buffer[..count].copy_from_slice(&bytes[..count]);
    count
}
