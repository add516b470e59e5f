//! What a handle is at.
ghost use Rattle.std.specs.Prelude.{◌≡◌};
ghost use Rattle.amihunk_c.specs.Answers.{plain_answer};
ghost use Rattle.amihunk_c.specs.declared.codes.Status.{Status};

use crate::answer::Answer;
use crate::codes::Status;
use crate::linked::LinkedFile;
use crate::linker::Linker;
use crate::looked::Looked;
use crate::refused::Refused;
use crate::rooms::Header;
use hunk_loader::{Image, ImageLoader};
use hunk_tool::HunkFileDecoder;

/// What a handle is at. A call that its stage does not allow changes nothing.
#[derive(Drop)]
pub enum Session {
    /// The header of a load file is being fed, or its hunks are to be placed.
    Sizing(Header),
    /// A load file is being fed.
    Loading(ImageLoader),
    /// A load file is loaded.
    Loaded(Image),
    /// A file to look into is being fed.
    Reading(HunkFileDecoder),
    /// A file to look into was read.
    Read(Looked),
    /// Object files are being fed.
    Linking(Linker),
    /// Object files are linked.
    Linked(LinkedFile),
    /// Bytes, addresses or units were refused, or an allocation failed.
    Stopped(Refused),
}

/// Puts a session in the place of another.
pub(crate) fn set(session: &mut Session, next: Session)
    ensures { session.new ≡ next }
{
    // A call of its own, so that it is proved once that the session before is dropped.
    *session = next;
}

/// Goes on to the next stage.
pub(crate) fn keep(session: &mut Session, next: Session) -> Answer
    ensures session { session.new ≡ next }
    ensures answer { result ≡ plain_answer Status.Ok }
{
    set(session, next);
    Answer::plain(Status::Ok)
}

/// Ends the session with a refusal, and gives what C is told of it.
pub(crate) fn refuse(session: &mut Session, refused: Refused) -> Answer
    ensures session { session.new ≡ Session.Stopped refused }
    ensures answer { result ≡ refused.answer }
{
    let answer = refused.answer;
    set(session, Session::Stopped(refused));
    answer
}
