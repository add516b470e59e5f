//! A file, as std's readers read it.

ghost use Rattle.std.specs.Prelude.{◌≡◌, [], ℕ, List, IsTrue, Some};

use hunk_words::Source;
use std::io;
use std::io::{ErrorKind, Read};

/// A file that is read by the readers of std.
#[derive(Drop)]
pub(crate) struct ListBytes<F: Source + Drop> {
    pub(crate) file: F,
    ghost at_end: { (other : F) (bytes : List ℕ) → IsTrue (F.ended other) → F.left other ≡ Some bytes → bytes ≡ [] },
}

impl<F: Source + Drop> Read for ListBytes<F> {
    ghost remaining = { λ bytes. F.left bytes.file };

    fn read(&mut self, buffer: &mut [u8]) -> io::Result<usize> {
        match self.file.read(buffer) {
            Ok(count) => Ok(count),
            Err(_) => Err(io::Error::from(ErrorKind::Other)),
        }
    }
}

impl<F: Source + Drop> ListBytes<F> {
    /// A file of which at the end no byte is left.
    pub(crate) fn new(file: F) -> ListBytes<F>
        requires { (other : F) (bytes : List ℕ) → IsTrue (F.ended other) →
            F.left other ≡ Some bytes → bytes ≡ [] }
        ensures { result.file ≡ file }
    {
        ListBytes { file }
    }
}
