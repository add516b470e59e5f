//! Loading a load file that was read.
ghost use Rattle.amihunk_c.specs.LoadRead.{IsLoadOf, file_in};
ghost use Rattle.std.specs.Prelude.{◌≡◌, Some, option_map};

use crate::answer::Answer;
use crate::codes::Status;
use crate::session::Session;
use hunk_loader::{Image, LoadRefusal, load};
use hunk_loadfile::LoadFile;
use std::alloc::Global;

/// The load file that was read, if one was.
pub(crate) fn file_in(session: &Session) -> Option<&LoadFile>
    ensures { option_map (λ file. file.now) result ≡ file_in (Some session.now) }
{
    match session {
        Session::Read(looked) => looked.load_file(),
        _ => None,
    }
}

/// The image of the load file that was read, at these bases.
///
/// # Errors
///
/// What C is told if there is none.
pub(crate) fn load_read(alloc: Global, session: &Session, bases: &[u32]) -> Result<Image, Answer>
    ensures { IsLoadOf bases.now (file_in (Some session.now)) result }
{
    match file_in(session) {
        Some(file) => match load(alloc, file, bases) {
            Ok(image) => Ok(image),
            Err(LoadRefusal::Place(fault)) => Err(Answer::of_place(fault)),
            Err(LoadRefusal::OutOfMemory) => Err(Answer::plain(Status::OutOfMemory)),
            Err(LoadRefusal::File(_)) => unreachable!(),
        },
        None => Err(Answer::plain(Status::WrongState)),
    }
}
