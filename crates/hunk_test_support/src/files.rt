//! The file of most tests, and the bytes of longwords.
ghost use Rattle.std.specs.Prelude.{◌≡◌, ◌++◌, IfOk};
ghost use Rattle.hunk_base.specs.Name.{bytes_of};

use byteorder::{BigEndian, ByteOrder};
use std::alloc::{AllocError, Global};

/// A load file of one hunk of one longword.
pub const FILE: [u32; 10] = [
    0x0000_03F3,
    0,
    1,
    0,
    0,
    1,
    0x0000_03E9,
    1,
    0x4E75_4E71,
    0x0000_03F2,
];

/// The address at which it is loaded.
pub const BASE: u32 = 0x0001_0000;

/// The report of its memory there, 44 bytes.
pub const REPORT: &str = "hunk 0 at 00010000 size 4\n00010000 4e754e71\n";

/// More bytes than a file of the tests has, or its report.
pub const ROOM: usize = 512;

/// The key with which names are hashed. No answer depends on it.
pub const KEY: [u64; 2] = [0x0123_4567_89AB_CDEF, 0xFEDC_BA98_7654_3210];

/// Bytes per read: all at once, or in pieces. No file of the tests has more bytes, and no report of
/// them.
pub const CHUNKS: [usize; 4] = [ROOM, 1, 3, 5];

/// Pieces that are fed after an error: none, less than a longword, a longword, and two.
pub const LATER_PIECES: [&[u8]; 4] = [
    &[],
    &[0],
    &[0, 0, 0x03, 0xF2],
    &[0, 0, 0x03, 0xE7, 0, 0, 0, 0],
];

/// The bytes of these longwords, each with its most significant byte first, followed by `rest`.
///
/// # Errors
///
/// [`AllocError`] only if an allocation failed.
pub fn bytes_of(alloc: Global, words: &[u32], rest: &[u8]) -> Result<Vec<u8>, AllocError>
    ensures { IfOk result (λ bytes. bytes.items ≡ bytes_of words.now ++ rest.now) }
{
    let mut bytes = vec![in alloc; 0; 4 * words.len()]?;
    BigEndian::write_u32_into(words, &mut bytes);
    bytes.extend_from_slice(rest)?;
    Ok(bytes)
}
