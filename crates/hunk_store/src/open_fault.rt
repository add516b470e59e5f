//! Why a file cannot be opened or created.
ghost use Rattle.std.specs.Prelude.{◌≡◌};
ghost use Rattle.std_io.specs.IoError.{error_kind};
ghost use Rattle.hunk_store.specs.OpenFault.{IsReasonFor};

use hunk_tool::OpenFault;
use std::io;
use std::io::ErrorKind;

/// The numbers of the system for too many open files: those of the process, and those of all.
const TOO_MANY_OF_PROCESS: u32 = 24;

const TOO_MANY_OF_SYSTEM: u32 = 23;

/// The reason that an error of the system tells.
pub(crate) fn reason_of(error: &io::Error) -> OpenFault
    ensures { IsReasonFor (error_kind error.now) result }
{
    match error.kind() {
        ErrorKind::NotFound => OpenFault::NotFound,
        ErrorKind::PermissionDenied => OpenFault::NotAllowed,
        ErrorKind::IsADirectory => OpenFault::Directory,
        ErrorKind::NotADirectory => OpenFault::NoDirectory,
        ErrorKind::FilesystemLoop => OpenFault::TooManyLinks,
        ErrorKind::ReadOnlyFilesystem => OpenFault::ReadOnly,
        _ => numbered(error),
    }
}

/// The reason that the number of an error tells.
fn numbered(error: &io::Error) -> OpenFault
    ensures { IsReasonFor ErrorKind.Other result }
{
    match error
        .raw_os_error()
        .and_then(|number| u32::try_from(number).ok())
    {
        Some(TOO_MANY_OF_PROCESS | TOO_MANY_OF_SYSTEM) => OpenFault::TooManyFiles,
        Some(number) => OpenFault::Other(number),
        None => OpenFault::Unknown,
    }
}
