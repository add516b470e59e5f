//! Linking, step by step.
ghost use Rattle.std.specs.Prelude.{◌≡◌};
ghost use Rattle.amihunk_c.specs.LinkedBytes.{LocatesLinked};
ghost use Rattle.amihunk_c.specs.Linking.{EndsInput, FeedsInput, Links, linked_in};

use crate::answer::Answer;
use crate::codes::Status;
use crate::refused::Refused;
use crate::session::{Session, keep, refuse};
use crate::span::Span;
use std::alloc::Global;

/// Feeds the next bytes of the current input.
pub(crate) fn feed_input(session: &mut Session, alloc: Global, piece: &[u8]) -> Answer
    ensures { FeedsInput piece.now session.old session.new result }
{
    let refused = match session {
        Session::Linking(linker) => match linker.feed(alloc, piece) {
            Ok(()) => return Answer::plain(Status::Ok),
            Err(refusal) => Refused::input(refusal, linker.input_count()),
        },
        Session::Stopped(refused) => return refused.answer,
        _ => return Answer::plain(Status::WrongState),
    };
    refuse(session, refused)
}

/// Ends the current input.
pub(crate) fn end_input(session: &mut Session, alloc: Global) -> Answer
    ensures { EndsInput session.old session.new result }
{
    let refused = match session {
        Session::Linking(linker) => match linker.end_input(alloc) {
            Ok(()) => return Answer::plain(Status::Ok),
            Err(refusal) => Refused::input(refusal, linker.input_count()),
        },
        Session::Stopped(refused) => return refused.answer,
        _ => return Answer::plain(Status::WrongState),
    };
    refuse(session, refused)
}

/// Links the inputs, if the current one has ended.
pub(crate) fn link_inputs(session: &mut Session, alloc: Global) -> Answer
    ensures { Links session.old session.new result }
{
    let refused = match session {
        Session::Linking(linker) => {
            if linker.is_reading() {
                return Answer::plain(Status::WrongState);
            }
            match linker.link(alloc) {
                Ok(linked) => return keep(session, Session::Linked(linked)),
                Err(refused) => refused,
            }
        }
        Session::Stopped(refused) => return refused.answer,
        _ => return Answer::plain(Status::WrongState),
    };
    refuse(session, refused)
}

/// The bytes of the load file; none if none is linked.
pub(crate) fn linked_in(session: &Session) -> &[u8]
    ensures { result.now ≡ linked_in session.now }
{
    match session {
        Session::Linked(linked) => &linked.bytes,
        _ => &[],
    }
}

/// Tells where the bytes of the load file are, if one is linked.
pub(crate) fn locate_linked(session: &Session, span: &mut Span) -> Status
    ensures { LocatesLinked session.now span.old span.new result }
{
    match session {
        Session::Linked(linked) => {
            *span = Span::of(&linked.bytes);
            Status::Ok
        }
        _ => Status::WrongState,
    }
}
