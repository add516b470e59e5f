//! Adding numbers to the longwords inside bytes: how a hunk is relocated.

ghost use Rattle.std.specs.Prelude.{◌≡◌, ◌+◌, ◌<◌, ◌≤◌, [], ◌∷◌, length, slice_index};
ghost use Rattle.std.specs.List.{All};
ghost use Rattle.hunk_loadfile.specs.Patching.{patched_bytes};

use byteorder::{BigEndian, ByteOrder};
use hunk_words::Sites;
use std::alloc::Allocator;

/// Adds to the longword at each site the base of the hunk that the site names, modulo 2^32, and
/// changes no other byte. In a longword the most significant byte comes first (The AmigaDOS Manual,
/// 3rd edition, "Amiga binary file structure").
///
/// The sites must lie within the bytes, and there must be a base for each hunk that they name.
pub fn patch<A: Allocator + Copy>(bytes: &mut [u8], sites: &Sites<u32, A>, bases: &[u32])
    requires inside { sites.now.limit ≤ length bytes.old }
    requires based { All (λ site. site.1 < length bases.now) sites.now.entries }
    ensures { bytes.new ≡ patched_bytes (length bytes.old) bytes.old sites.now.entries
        (slice_index bases.now) }
{
    for (offset, target) in sites.walk() {
        add_at(bytes, offset as usize, bases[*target as usize]);
    }
}

/// Adds a number to the longword of the four bytes from `offset`, in bytes, modulo 2^32. They must
/// lie within the bytes.
pub fn add_at(bytes: &mut [u8], offset: usize, addend: u32)
    requires { offset + 4 ≤ length bytes.old }
    ensures { bytes.new ≡ patched_bytes (length bytes.old) bytes.old
        ((offset, addend) ∷ []) (λ added. added) }
{
    // Most sites of object files name hunks of their own unit, where the linker adds nothing; then the
    // content need not be read.
    if addend == 0 {
        return;
    }
    let longword = &mut bytes[offset..offset + 4];
    let sum = BigEndian::read_u32(longword).wrapping_add(addend);
    BigEndian::write_u32(longword, sum);
}
