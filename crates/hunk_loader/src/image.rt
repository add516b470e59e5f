//! The image of a load file: its hunks in memory.

ghost use Rattle.std.specs.Prelude.{◌≡◌};
ghost use Rattle.hunk_loader.specs.Image.{byte_in, hunks_of, memory_map};

use std::alloc::{Allocator, Global};
use std::marker::Model;

/// The hunks of a load file in memory, in order: the base of each, an address, and its bytes. Hunks
/// without bytes are included.
#[derive(Debug, Drop)]
pub struct Image<A: Allocator + Copy = Global> {
    hunks: Vec<(u32, Vec<u8, A>), A>,
}

impl<A: Allocator + Copy> Model for Image<A> {
    ghost use Rattle.std.specs.Prelude.{ℕ, List};
    ghost use Rattle.hunk_loader.specs.Image.{hunks_of};

    ghost Value = { List (ℕ × List ℕ) };

    ghost view = { λ image. hunks_of image.hunks.items };
}

impl<A: Allocator + Copy> Image<A> {
    /// The image of these hunks.
    pub(crate) fn of_hunks(hunks: Vec<(u32, Vec<u8, A>), A>) -> Self
        ensures { result ≡ hunks_of hunks.items }
    {
        Image { hunks }
    }

    /// The byte at an address, or `None` if no hunk has one there.
    ///
    /// Does not allocate. Takes time linear in the number of hunks.
    pub fn byte(&self, address: u32) -> Option<u8>
        ensures { result ≡ memory_map self.now address }
    {
        for hunk in &self.hunks {
            let byte = byte_at(hunk.0, &hunk.1, address);
            if byte.is_some() {
                return byte;
            }
        }
        None
    }

    /// The base of each hunk, an address, and its bytes, in order.
    pub fn hunks(&self) -> &[(u32, Vec<u8, A>)]
        ensures { hunks_of result.now ≡ self.now }
    {
        self.hunks.as_slice()
    }
}

/// The byte at an address, if these bytes, which begin at the base, have one there.
fn byte_at(base: u32, bytes: &[u8], address: u32) -> Option<u8>
    ensures { result ≡ byte_in base bytes.now address }
{
    let place = address.checked_sub(base)?;
    bytes.get(place as usize).copied()
}
