//! Names of units, hunks and symbols.
ghost use Rattle.std.specs.Prelude.{◌≡◌, ℕ, ◌==◌, nat_eq, List, IfOk, Some, refl};
ghost use Rattle.std.specs.List.{All, position, before_first};
ghost use Rattle.std.specs.Ordering.{nat_cmp};
ghost use Rattle.std.specs.Hash as fed;
ghost use Rattle.std.specs.Cmp.Lexicographic.{pointwise, slice_cmp, nat_list_eq_equiv, nat_list_cmp_total, texts_ties, texts_po};
ghost use Rattle.std.specs.Cmp.{partial_equiv_from_equiv};
ghost use Rattle.std.specs.Cmp.Rules.{hashing};
ghost use Rattle.std.proofs.Common.{rules};
ghost use Rattle.byteorder.specs.Endian.{big_number};
ghost use Rattle.hunk_base.specs.Name.{IsNameByte, Names, Writes, name_of, name_words};

use crate::longwords::big_endian;
use byteorder::{BigEndian, ByteOrder};
use std::alloc::{AllocError, Allocator, Global};
use std::cmp::Ordering;
use std::hash::{Hash, Hasher};
use std::marker::Model;

mod name_bytes;
pub mod open_name;

use name_bytes::NameBytes;

/// A name: bytes, none of which is zero. It may be empty.
///
/// In a file, a name is in longwords (The AmigaDOS Manual, 3rd edition, "Amiga binary file
/// structure"). That what follows its first zero byte is ignored is our own rule.
#[derive(Debug, Drop)]
pub struct Name<A: Allocator + Copy = Global> {
    bytes: NameBytes<A>,
}

impl<A: Allocator + Copy> Model for Name<A> {
    ghost use Rattle.std.specs.Prelude.{ℕ, List};
    ghost use Rattle.std.specs.List.{All};
    ghost use Rattle.hunk_base.specs.Name.{IsNameByte};

    ghost Value = { List ℕ };

    ghost view = { λ n. n.bytes };

    ghost invariant = { λ n. All IsNameByte n.bytes };
}

impl<A: Allocator + Copy> Name<A> {
    /// The name that the longwords hold: their bytes, the most significant byte of each first, up
    /// to the first zero byte, or all of them if there is none.
    ///
    /// It allocates only the name, and nothing for one of at most 38 bytes.
    ///
    /// # Errors
    ///
    /// [`AllocError`] only if that allocation failed.
    pub fn from_words(alloc: A, words: &[u32]) -> Result<Self, AllocError>
        ensures names { IfOk result (λ n. Names n words.now) }
        ensures only { IfOk result (λ n. (other : List ℕ) → Names other words.now → other ≡ n) }
    {
        Ok(Name {
            bytes: cut(alloc, words)?,
        })
    }

    /// The fewest longwords that hold the name, the last one padded with zero bytes. The empty name
    /// is one zero longword.
    ///
    /// # Errors
    ///
    /// [`AllocError`] only if an allocation failed.
    pub fn words(&self, alloc: A) -> Result<Vec<u32, A>, AllocError>
        ensures value { IfOk result (λ ws. ws.items ≡ name_words self.now) }
        ensures fewest { IfOk result (λ ws. Writes self.now ws.items) }
    {
        let bytes = self.bytes();
        let count = bytes.len().div_ceil(4).max(1);
        let mut words = Vec::with_capacity(alloc, count)?;
        for place in 0..count {
            words.push_reserved(longword(&bytes[4 * place..]));
        }
        Ok(words)
    }

    /// The bytes of the name.
    pub fn bytes(&self) -> &[u8]
        ensures value { result.now ≡ self.now }
        ensures each { All IsNameByte self.now }
    {
        self.bytes.as_slice()
    }

    /// An equal name.
    ///
    /// # Errors
    ///
    /// [`AllocError`] only if an allocation failed.
    pub fn copy(&self, alloc: A) -> Result<Self, AllocError>
        ensures { IfOk result (λ n. n ≡ self.now) }
    {
        Ok(Name {
            bytes: NameBytes::from_slice(alloc, self.bytes())?,
        })
    }
}

impl<A: Allocator + Copy> PartialEq for Name<A> {
    ghost eq = { pointwise nat_eq };

    ghost laws = { partial_equiv_from_equiv nat_list_eq_equiv };

    fn eq(&self, other: &Self) -> bool {
        self.bytes() == other.bytes()
    }
}

impl<A: Allocator + Copy> Eq for Name<A> {
    ghost laws = { nat_list_eq_equiv };
}

impl<A: Allocator + Copy> PartialOrd for Name<A> {
    ghost partial_cmp = { λ x y. Some (slice_cmp nat_cmp x y) };

    ghost laws = { texts_po };

    fn partial_cmp(&self, other: &Self) -> Option<Ordering> {
        Some(self.cmp(other))
    }
}

impl<A: Allocator + Copy> Ord for Name<A> {
    ghost cmp = { slice_cmp nat_cmp };

    ghost total = { nat_list_cmp_total };

    ghost matches_partial_cmp = { λ x y. refl };

    ghost matches_eq = { texts_ties };

    fn cmp(&self, other: &Self) -> Ordering {
        self.bytes().cmp(other.bytes())
    }
}

impl<A: Allocator + Copy> Hash for Name<A> {
    ghost hash_input = { λ n. fed.slice fed.u8 n };

    ghost respects_eq = { Prim.search (hashing, rules) };

    fn hash<H: Hasher>(&self, state: &mut H) {
        self.bytes().hash(state);
    }
}

/// The bytes of the longwords before their first zero byte. It allocates only these.
fn cut<A: Allocator + Copy>(alloc: A, words: &[u32]) -> Result<NameBytes<A>, AllocError>
    ensures { IfOk result (λ bytes. bytes ≡ name_of words.now) }
{
    let mut bytes = NameBytes::new(alloc);
    for word in words {
        let longword = big_endian(*word);
        let front = until_zero(&longword);
        bytes.extend(front, 0)?;
        if front.len() < longword.len() {
            return Ok(bytes);
        }
    }
    Ok(bytes)
}

/// The bytes before the first zero byte, or all of them if there is none.
fn until_zero(bytes: &[u8]) -> &[u8]
    ensures { result.now ≡ before_first (λ b. b == 0) bytes.now }
{
    match zero_place(bytes) {
        Some(end) => &bytes[..end],
        None => bytes,
    }
}

/// The index of the first zero byte.
fn zero_place(bytes: &[u8]) -> Option<usize>
    ensures { result ≡ position (λ b. b == 0) bytes.now }
{
    bytes.iter().position(|byte| *byte == 0)
}

/// The longword of the first four bytes; a missing byte counts as zero.
fn longword(bytes: &[u8]) -> u32
    ensures { result ≡ big_number 4 bytes.now }
{
    let count = bytes.len().min(4);
    let mut filled = [0; 4];
    filled[..count].copy_from_slice(&bytes[..count]);
    BigEndian::read_u32(&filled)
}
