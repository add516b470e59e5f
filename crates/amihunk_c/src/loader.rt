//! Loading, step by step.
ghost use Rattle.amihunk_c.specs.Loading.{FeedsLoader, FinishesLoader};

use crate::answer::Answer;
use crate::codes::Status;
use crate::refused::Refused;
use crate::session::{Session, keep, refuse, set};
use core::mem::replace;

/// Feeds the next bytes of a load file.
pub(crate) fn feed_loader(session: &mut Session, piece: &[u8]) -> Answer
    ensures { FeedsLoader piece.now session.old session.new result }
{
    let refused = match session {
        Session::Loading(loader) => match loader.feed(piece) {
            Ok(()) => return Answer::plain(Status::Ok),
            Err(refusal) => Refused::load(refusal),
        },
        Session::Stopped(refused) => return refused.answer,
        _ => return Answer::plain(Status::WrongState),
    };
    refuse(session, refused)
}

/// Ends a load file.
pub(crate) fn finish_loader(session: &mut Session) -> Answer
    ensures { FinishesLoader session.old session.new result }
{
    match replace(session, Session::Stopped(Refused::memory())) {
        Session::Loading(loader) => match loader.finish() {
            Ok(image) => keep(session, Session::Loaded(image)),
            Err(refusal) => refuse(session, Refused::load(refusal)),
        },
        Session::Sizing(header) => refuse(session, Refused::load(header.into_loader().finish())),
        Session::Stopped(refused) => refuse(session, refused),
        other => {
            set(session, other);
            Answer::plain(Status::WrongState)
        }
    }
}
