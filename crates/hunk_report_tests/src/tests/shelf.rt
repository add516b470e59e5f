//! Files in memory, by their names.

use hunk_test_support::bytes_of;
use hunk_test_support::words::{ASSEMBLED, LINKED_ALONE};
use hunk_tool::{FileSystem, FileType, OpenFault};
use hunk_words::{DeviceFault, Pieces, Source};
use std::alloc::Global;

/// A reader of whose bytes nothing is known.
#[derive(Drop)]
pub(crate) struct Unknown<R> {
    reader: R,
}

impl<R: Source> Source for Unknown<R> {
    ghost use Rattle.std.specs.Prelude.{None};

    ghost left = { λ unknown. None };

    ghost failed = { λ unknown. R.failed unknown.reader };

    ghost ended = { λ unknown. R.ended unknown.reader };

    fn read(&mut self, buffer: &mut [u8]) -> Result<usize, DeviceFault> {
        self.reader.read(buffer)
    }

    fn failed(&self) -> bool {
        self.reader.failed()
    }

    fn ended(&self) -> bool {
        self.reader.ended()
    }
}

/// A few files in memory, a pipe with an object file in it, and a directory. One of the files cannot be
/// read, and one of them is taken away once it was looked at.
#[derive(Drop)]
pub(crate) struct Shelf {
    pub(crate) alloc: Global,
}

impl FileSystem for Shelf {
    ghost use Rattle.std.specs.Prelude.{refl};
    ghost use Rattle.hunk_tool.specs.FileSystem.FileContent.{unknown};

    ghost content = { λ shelf name. unknown };

    type File = Unknown<Pieces<Global>>;

    fn open(&self, name: &str) -> Result<Unknown<Pieces<Global>>, OpenFault> {
        let (words, fails_at): (&[u32], _) = match name {
            "a.o" | "pipe" | "Über" => (&ASSEMBLED, None),
            "ls" => (&LINKED_ALONE, None),
            "x" => (&[0x7F45_4C46], None),
            "bad" => (&ASSEMBLED, Some(0)),
            "late" => return Err(OpenFault::Directory),
            _ => return Err(OpenFault::NotFound),
        };
        match bytes_of(self.alloc, words, &[]) {
            Ok(bytes) => Ok(Unknown {
                reader: Pieces::new(bytes, 64, fails_at),
            }),
            Err(_) => Err(OpenFault::Unknown),
        }
    }

    fn file_type(&self, name: &str) -> FileType {
        match name {
            "a.o" | "Über" | "ls" | "x" | "bad" | "late" | "away" => FileType::Regular,
            "pipe" => FileType::Other,
            "dir" => FileType::Directory,
            _ => FileType::Unknown,
        }
    }

    ghost at_end = { λ file ended. tt };

    ghost all_unknown = { λ shelf other name another is. is };

    ghost may_fail = { λ shelf name file failing. refl };
}
