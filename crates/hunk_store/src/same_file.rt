//! Whether two names are of one file.
ghost use Rattle.std.specs.Prelude.{◌≡◌, Ok, true};

use std::alloc::AllocError;
use std::fs;
use std::io::ErrorKind;
use std::os::unix::fs::MetadataExt;
use std::path::{Path, PathBuf};
use std::rt::Files;

/// How many symbolic links are followed from one name.
const MOST_LINKS: u32 = 40;

/// Whether two names are of one file, as far as the system tells: they are equal; or lead to one file,
/// by links of any kind; or there is no file yet, and they lead to one name in one directory.
///
/// # Errors
///
/// [`AllocError`] if an allocation failed.
pub fn is_one_file<R: Files + AllocGlobal>(
    rt: &R,
    first: &str,
    second: &str,
) -> Result<bool, AllocError>
    ensures { first.now ≡ second.now → result ≡ Ok true }
{
    if first == second {
        return Ok(true);
    }
    match (identity(rt, first), identity(rt, second)) {
        (Some(first), Some(second)) => Ok(first == second),
        (None, None) => is_one_place(rt, first, second),
        _ => Ok(false),
    }
}

/// Whether two names, of which neither leads to a file, lead to one name in one directory.
fn is_one_place<R: Files + AllocGlobal>(
    rt: &R,
    first: &str,
    second: &str,
) -> Result<bool, AllocError> {
    match (followed(rt, first)?, followed(rt, second)?) {
        (Some(first), Some(second)) => Ok(is_one_path(rt, first.as_path(), second.as_path())),
        _ => Ok(false),
    }
}

/// Whether two paths have one last name, in one directory.
fn is_one_path<R: Files>(rt: &R, first: Path<'_>, second: Path<'_>) -> bool {
    if first.file_name() != second.file_name() {
        return false;
    }
    match (directory(rt, first), directory(rt, second)) {
        (Some(first), Some(second)) => first == second,
        _ => false,
    }
}

/// The path that a name leads to by symbolic links, of which the last leads to no file.
fn followed<R: Files + AllocGlobal>(rt: &R, name: &str) -> Result<Option<PathBuf>, AllocError> {
    let alloc = rt.alloc();
    let mut path = PathBuf::from_str(alloc, name)?;
    for _ in 0..MOST_LINKS {
        let target = match fs::read_link(rt, path.as_path()) {
            Ok(target) => target,
            Err(error) if error.kind() == ErrorKind::OutOfMemory => return Err(AllocError),
            // There is no link.
            Err(_) => return Ok(Some(path)),
        };
        let Some(folder) = path.as_path().parent() else {
            return Ok(None);
        };
        let next = folder.join(alloc, target.as_path())?;
        path = next;
    }
    Ok(None)
}

/// The directory of a path.
fn directory<R: Files>(rt: &R, path: Path<'_>) -> Option<(u64, u64)> {
    let parent = path.parent()?.as_str();
    identity(rt, if parent.is_empty() { "." } else { parent })
}

/// What the system tells a file by: its device and its number there. The number 0 is no file's.
fn identity<R: Files>(rt: &R, name: &str) -> Option<(u64, u64)> {
    let metadata = fs::metadata(rt, name).ok()?;
    let number = metadata.ino();
    (number != 0).then_some((metadata.dev(), number))
}
