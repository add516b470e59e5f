//! What files are called.

ghost use Rattle.std.specs.Prelude.{◌≡◌, [], List, ℕ, map, slice_index_or};

/// The name of a file, as a caller has it: bytes of any encoding.
pub trait FileName {
    ghost bytes: { Self → List ℕ };

    /// The bytes of the name.
    fn bytes(&self) -> &[u8]
        ensures { result.now ≡ bytes self.now };
}

impl FileName for String {
    ghost use Rattle.std.specs.String.{string_bytes};

    ghost bytes = { string_bytes };

    fn bytes(&self) -> &[u8] {
        self.as_bytes()
    }
}

impl FileName for &[u8] {
    ghost bytes = { λ name. name.now };

    fn bytes(&self) -> &[u8] {
        self
    }
}

/// The name of the file with this number, empty if there is none.
pub fn name_at<N: FileName>(names: &[N], file: usize) -> &[u8]
    ensures { result.now ≡ slice_index_or (map N.bytes names.now) file [] }
{
    match names.get(file) {
        Some(name) => name.bytes(),
        None => b"",
    }
}
