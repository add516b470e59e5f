//! The files of the operating system, or of what stands for it.
ghost use Rattle.std.specs.Prelude.{◌≡◌};

use crate::failure::Failure;
use crate::open_fault::reason_of;
use crate::replacement::{Replacement, STANDARD_OUTPUT};
use crate::same_file::is_one_file;
use crate::store::Store;
use crate::system_file::SystemFile;
use hunk_tool::{FileSystem, FileType, NameHasher, OpenFault, ToolFault};
use std::alloc::AllocError;
use std::fs;
use std::fs::OpenFile;
use std::rt::Files;

/// The files of the operating system. Nothing is known of what is in them. Where a file is written, the name
/// `-` stands for the standard output.
#[derive(Drop)]
pub struct System<'r, R: Files + AllocGlobal> {
    rt: &'r R,
    hasher: NameHasher,
}

impl<'r, R: Files + AllocGlobal> System<'r, R> {
    /// The files that `rt` opens. The names in them are hashed so.
    pub fn new(rt: &'r R, hasher: NameHasher) -> System<'r, R>
        ensures { result.hasher ≡ hasher }
    {
        System { rt, hasher }
    }
}

impl<'r, R: Files + AllocGlobal> FileSystem for System<'r, R> {
    ghost use Rattle.hunk_tool.specs.FileSystem.FileContent.{unknown};
    ghost use Rattle.std.specs.Prelude.{refl};
    ghost use Rattle.hunk_store.specs.SystemFile.{at_end};

    ghost content = { λ system name. unknown };

    type File = SystemFile<R::File>;

    fn open(&self, name: &str) -> Result<SystemFile<R::File>, OpenFault> {
        match fs::open(self.rt, name) {
            Ok(file) => Ok(SystemFile::new(file)),
            Err(error) => Err(reason_of(&error)),
        }
    }

    fn file_type(&self, name: &str) -> FileType {
        match fs::metadata(self.rt, name) {
            Ok(metadata) if metadata.is_file() => FileType::Regular,
            Ok(metadata) if metadata.is_dir() => FileType::Directory,
            Ok(_) => FileType::Other,
            Err(_) => FileType::Unknown,
        }
    }

    ghost at_end = { at_end R.File.Read.remaining };

    ghost all_unknown = { λ system other name another is. is };

    ghost may_fail = { λ system name file failing. refl };
}

impl<'r, R: Files + Print + AllocGlobal> Store for System<'r, R> {
    type New = Replacement<'r, R>;

    fn can_be_opened_again(&self, file: &SystemFile<R::File>) -> bool {
        file.is_regular()
    }

    fn is_one_file(&self, first: &str, second: &str) -> Result<bool, AllocError> {
        if first == second {
            return Ok(true);
        }
        is_one_file(self.rt, path_written(first), path_written(second))
    }

    ghost name_hasher = { λ system. system.hasher };

    fn name_hasher(&self) -> NameHasher {
        self.hasher
    }

    fn begin(&self, name: &str) -> Result<Replacement<'r, R>, AllocError> {
        Replacement::new(self.rt, name)
    }

    fn finish<'a>(
        &mut self,
        name: &'a str,
        new: Replacement<'r, R>,
        ran: Result<(), ToolFault>,
    ) -> Result<(), Failure<'a>> {
        new.finish(name, ran)
    }
}

/// The path of what a name stands for where a file is written.
fn path_written(name: &str) -> &str {
    if name == STANDARD_OUTPUT {
        "/dev/stdout"
    } else {
        name
    }
}
