//! A name whose longwords come one after another.
ghost use Rattle.std.specs.Prelude.{◌≡◌, ℕ, List, [], ◌∷◌, ◌++◌, length, OnOk, OnErr};
ghost use Rattle.std.specs.List.{All};
ghost use Rattle.hunk_base.specs.Name.{IsNameByte, bytes_of, name_of};

use super::name_bytes::NameBytes;
use super::{Name, until_zero};
use crate::longwords::{LONGWORD, big_endian};
use std::alloc::{AllocError, Allocator, Global};

/// A name whose longwords come one after another. After its first zero byte it does not allocate.
#[derive(Drop)]
pub struct OpenName<A: Allocator + Copy = Global> {
    bytes: NameBytes<A>,
    ended: bool,
    ghost no_zero: { All IsNameByte bytes },
}

impl<A: Allocator + Copy> OpenName<A> {
    ghost use Rattle.hunk_base.specs.OpenName.{Opens, bytes_so_far};

    /// A name before its first longword.
    pub fn new(alloc: A) -> Self
        ensures { Opens result [] }
    {
        OpenName {
            bytes: NameBytes::new(alloc),
            ended: false,
        }
    }

    /// Takes the next longword.
    ///
    /// # Errors
    ///
    /// [`AllocError`] only if an allocation failed; then the name is as it was.
    pub fn push(&mut self, word: u32) -> Result<(), AllocError>
        ensures takes { (words : List ℕ) → Opens self.old words →
            OnOk result (Opens self.new (words ++ word ∷ [])) }
        ensures refuses { (words : List ℕ) → Opens self.old words →
            OnErr result (Opens self.new words) }
    {
        self.append(&big_endian(word), 0)
    }

    /// Takes the next longwords at once, as their bytes. It allocates for one longword more, since the
    /// last longword of a name comes by itself.
    ///
    /// # Errors
    ///
    /// [`AllocError`] only if an allocation failed; then the name is as it was.
    pub fn push_bytes(&mut self, bytes: &[u8]) -> Result<(), AllocError>
        ensures takes { (words more : List ℕ) → bytes_of more ≡ bytes.now → Opens self.old words →
            OnOk result (Opens self.new (words ++ more)) }
        ensures refuses { (words : List ℕ) → Opens self.old words →
            OnErr result (Opens self.new words) }
    {
        self.append(bytes, LONGWORD)
    }

    /// Takes the bytes of the next longwords, up to the first zero byte, with memory for `spare` bytes
    /// more.
    fn append(&mut self, bytes: &[u8], spare: usize) -> Result<(), AllocError>
        ensures takes { (words more : List ℕ) → bytes_of more ≡ bytes.now → Opens self.old words →
            OnOk result (Opens self.new (words ++ more)) }
        ensures refuses { (words : List ℕ) → Opens self.old words →
            OnErr result (Opens self.new words) }
    {
        if self.ended {
            return Ok(());
        }
        let front = until_zero(bytes);
        self.bytes.extend(front, spare)?;
        self.ended = front.len() < bytes.len();
        Ok(())
    }

    /// The number of bytes of the name so far.
    pub fn len(&self) -> usize
        ensures { result ≡ length (bytes_so_far self.now) }
    {
        self.bytes.len()
    }

    /// The name that the longwords hold.
    pub fn close(self) -> Name<A>
        ensures name { (words : List ℕ) → Opens self words → result ≡ name_of words }
        ensures bytes { result ≡ bytes_so_far self }
    {
        Name { bytes: self.bytes }
    }
}
