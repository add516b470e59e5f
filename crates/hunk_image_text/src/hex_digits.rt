//! The hexadecimal digits of bytes.
ghost use Rattle.std.specs.Prelude.{◌≡◌, ◌*◌, length};
ghost use Rattle.hex.specs.Hex.{encode_lower, encode_upper};

/// Fills `place` with two lower-case hexadecimal digits per byte.
pub(crate) fn put_digits(place: &mut [u8], bytes: &[u8])
    requires { length place.old ≡ 2 * length bytes.now }
    ensures { place.new ≡ encode_lower bytes.now }
{
    // There are two places for each byte, so this can't fail.
    let _ = hex::encode_to_slice(bytes, place);
}

/// Fills `place` with two upper-case hexadecimal digits per byte.
pub(crate) fn put_upper_digits(place: &mut [u8], bytes: &[u8])
    requires { length place.old ≡ 2 * length bytes.now }
    ensures { place.new ≡ encode_upper bytes.now }
{
    put_digits(place, bytes);
    place.make_ascii_uppercase();
}
