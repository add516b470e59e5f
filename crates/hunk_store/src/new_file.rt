//! A new file beside another, whose place it takes once it is whole.
ghost use Rattle.std.specs.Prelude.{◌≡◌, false, IfErr, IfOk};
ghost use Rattle.hunk_base.specs.Watched.{saw_failure};
ghost use Rattle.hunk_tool.specs.FileSystem.FileContent.{unknown};
ghost use Rattle.hunk_store.specs.Store.{IsUnplaced};

use crate::buffers::{buffered, flushed};
use crate::failure::Failure;
use crate::open_fault::reason_of;
use hunk_tool::OpenFault;
use hunk_words::Watched;
use std::alloc::{AllocError, Global};
use std::fs::{OpenFile, OpenOptions, Permissions};
use std::io::{BufWriter, ErrorKind, Write};
use std::path::Path;
use std::rt::Files;
use std::{fs, io};

/// How many names are tried for a new file.
const MOST_NAMES: u32 = 10_000;

/// A new file, beside the one whose place it takes.
#[derive(Drop)]
pub(crate) struct NewFile<F: Write + Drop> {
    /// It, behind a buffer.
    pub(crate) writer: Watched<BufWriter<F>>,
    /// Its own path.
    path: String,
    /// The path of the file whose place it takes.
    target: String,
}

/// Why there is no new file beside another.
pub(crate) enum NoNewFile {
    /// An allocation failed.
    OutOfMemory,
    /// The system refuses it.
    Refused(OpenFault),
}

impl<F: Write + Drop + OpenFile> NewFile<F> {
    /// Begins a file beside the one with the path `target`, under a name that no file has, and with these
    /// permissions before anything is written.
    pub(crate) fn beside<R: Files<File = F> + AllocGlobal>(
        rt: &R,
        target: &str,
        permissions: Option<Permissions>,
    ) -> Result<NewFile<F>, NoNewFile>
        ensures { IfOk result (λ file. saw_failure file.writer ≡ false) }
    {
        let target = String::from_str(rt.alloc(), target)?;
        let (file, path) = create_beside(rt, target.as_str())?;
        if let Some(permissions) = permissions {
            // Not every file system keeps them.
            let _ = file.set_permissions(permissions);
        }
        let Ok(writer) = buffered(rt.alloc(), file) else {
            let _ = fs::remove_file(rt, path.as_str());
            return Err(NoNewFile::OutOfMemory);
        };
        Ok(NewFile {
            writer,
            path,
            target,
        })
    }

    /// Puts the file in its place, once all of it has reached the disk. If that fails, it is removed.
    pub(crate) fn put_in_place<'a, R: Files<File = F>>(
        self,
        rt: &R,
        name: &'a str,
    ) -> Result<(), Failure<'a>>
        ensures { IfErr result (IsUnplaced unknown name.entry.now) }
    {
        let NewFile {
            writer,
            path,
            target,
        } = self;
        let placed = place(rt, writer, path.as_str(), target.as_str(), name);
        if placed.is_err() {
            let _ = fs::remove_file(rt, path.as_str());
        }
        placed
    }

    /// Removes the file.
    pub(crate) fn remove<R: Files<File = F>>(self, rt: &R) {
        let NewFile { path, .. } = self;
        let _ = fs::remove_file(rt, path.as_str());
    }
}

impl From<AllocError> for NoNewFile {
    fn from(_error: AllocError) -> NoNewFile {
        NoNewFile::OutOfMemory
    }
}

impl From<io::Error> for NoNewFile {
    fn from(error: io::Error) -> NoNewFile {
        match error.kind() {
            ErrorKind::OutOfMemory => NoNewFile::OutOfMemory,
            _ => NoNewFile::Refused(reason_of(&error)),
        }
    }
}

/// Creates a file in the directory of `target`, under the first name that no file has there. Returns
/// it and its path.
fn create_beside<R: Files + AllocGlobal>(
    rt: &R,
    target: &str,
) -> Result<(R::File, String), NoNewFile> {
    for number in 0..MOST_NAMES {
        let path = path_beside(rt.alloc(), target, number)?;
        match OpenOptions::new()
            .write(true)
            .create_new(true)
            .open(rt, path.as_str())
        {
            Ok(file) => return Ok((file, path)),
            Err(error) if error.kind() == ErrorKind::AlreadyExists => {}
            Err(error) => return Err(NoNewFile::from(error)),
        }
    }
    Err(NoNewFile::Refused(OpenFault::Unknown))
}

/// The path in the directory of `target` with this number.
fn path_beside(alloc: Global, target: &str, number: u32) -> Result<String, AllocError> {
    let name = format!(in alloc; ".amihunk-{number}")?;
    let path = Path::new(target).with_file_name(alloc, name.as_str())?;
    Ok(path.into_string())
}

/// Writes the rest of a new file, and renames it from `path` to `target`.
fn place<'a, R: Files>(
    rt: &R,
    writer: Watched<BufWriter<R::File>>,
    path: &str,
    target: &str,
    name: &'a str,
) -> Result<(), Failure<'a>>
    ensures { IfErr result (IsUnplaced unknown name.entry.now) }
{
    let file = flushed(writer)?;
    if file.sync_all().is_err() {
        return Err(Failure::Printing);
    }
    match fs::rename(rt, path, target) {
        Ok(()) => Ok(()),
        Err(error) => Err(Failure::Opening(name, reason_of(&error))),
    }
}
