//! Reading a file of either kind, step by step.
ghost use Rattle.hunk_files.specs.HunkFile.{value_of};
ghost use Rattle.amihunk_c.specs.Reading.{FeedsFile, FinishesFile, ShowsFile};

use crate::answer::Answer;
use crate::codes::Status;
use crate::looked::Looked;
use crate::refused::Refused;
use crate::session::{Session, keep, refuse, set};
use core::mem::replace;
use hunk_tool::HunkFile;
use hunk_words::Refusal;
use std::alloc::Global;

/// Feeds the next bytes of a file.
pub(crate) fn feed_file(session: &mut Session, piece: &[u8]) -> Answer
    ensures { FeedsFile piece.now session.old session.new result }
{
    let refused = match session {
        Session::Reading(decoder) => match decoder.feed(piece) {
            Ok(()) => return Answer::plain(Status::Ok),
            Err(refusal) => Refused::input(refusal, 0),
        },
        Session::Stopped(refused) => return refused.answer,
        _ => return Answer::plain(Status::WrongState),
    };
    refuse(session, refused)
}

/// Ends a file.
pub(crate) fn finish_file(session: &mut Session, alloc: Global) -> Answer
    ensures { FinishesFile session.old session.new result }
{
    match replace(session, Session::Stopped(Refused::memory())) {
        Session::Reading(decoder) => match decoder.finish() {
            Ok(file) => show(session, alloc, file),
            Err(refusal) => refuse(session, Refused::input(refusal, 0)),
        },
        Session::Stopped(refused) => refuse(session, refused),
        other => {
            set(session, other);
            Answer::plain(Status::WrongState)
        }
    }
}

/// Makes what is in a file known.
fn show(session: &mut Session, alloc: Global, file: HunkFile) -> Answer
    ensures { ShowsFile (value_of file) session.new result }
{
    match Looked::new(alloc, file) {
        Ok(looked) => keep(session, Session::Read(looked)),
        Err(_) => refuse(session, Refused::memory()),
    }
}
