//! A file of the operating system that is read.

ghost use Rattle.std.specs.Prelude.{◌≡◌, Some, false};

use hunk_words::{DeviceFault, Source};
use std::fs::OpenFile;
use std::io::Read;

/// A file that is read. It is closed when it has been read to its end, and stays at its end.
#[derive(Drop)]
pub struct SystemFile<F> {
    /// The file, until it has been read to its end.
    file: Option<F>,
    failed: bool,
}

impl<F> SystemFile<F> {
    ghost use Rattle.hunk_store.specs.SystemFile.{has_ended, has_failed};

    /// A file that has just been opened.
    pub fn new(file: F) -> SystemFile<F>
        ensures holds { result.file ≡ Some file }
        ensures fresh { has_failed result ≡ false }
    {
        SystemFile {
            file: Some(file),
            failed: false,
        }
    }
}

impl<F: OpenFile> SystemFile<F> {
    /// Whether it is a regular file, as far as the system tells.
    pub fn is_regular(&self) -> bool {
        match &self.file {
            Some(file) => file.metadata().is_ok_and(|metadata| metadata.is_file()),
            None => false,
        }
    }
}

impl<F: Read + Drop> Source for SystemFile<F> {
    ghost use Rattle.hunk_store.specs.SystemFile.{has_ended, has_failed, left_in};

    ghost left = { left_in F.remaining };

    ghost failed = { has_failed };

    ghost ended = { has_ended };

    fn read(&mut self, buffer: &mut [u8]) -> Result<usize, DeviceFault> {
        let Some(file) = &mut self.file else {
            return Ok(0);
        };
        match file.read(buffer) {
            Ok(count) => {
                if count == 0 && !buffer.is_empty() {
                    self.file = None;
                }
                Ok(count)
            }
            Err(_) => {
                self.failed = true;
                Err(DeviceFault)
            }
        }
    }

    fn failed(&self) -> bool {
        self.failed
    }

    fn ended(&self) -> bool {
        self.file.is_none()
    }
}
