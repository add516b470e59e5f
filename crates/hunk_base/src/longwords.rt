//! Longwords as bytes.
ghost use Rattle.std.specs.Prelude.{◌≡◌};
ghost use Rattle.byteorder.specs.Endian.{big_bytes};

use byteorder::{BigEndian, ByteOrder};

/// The number of bytes of a longword.
pub const LONGWORD: usize = 4;

/// The four bytes of a longword, the most significant one first.
#[inline(always)]
pub fn big_endian(word: u32) -> [u8; 4]
    ensures { result ≡ big_bytes 4 word }
{
    let mut bytes = [0; 4];
    BigEndian::write_u32(&mut bytes, word);
    bytes
}
