//! The hunks that a session has loaded.
ghost use Rattle.std.specs.Prelude.{◌≡◌, length};
ghost use Rattle.hunk_loader.specs.Image.{hunks_of};
ghost use Rattle.amihunk_c.specs.LoadedHunks.{bytes_in, hunks_in, LocatesHunk};

use crate::codes::Status;
use crate::session::Session;
use crate::span::Span;

/// The base and the bytes of each hunk, in order; no hunks if nothing is loaded.
pub(crate) fn hunks_in(session: &Session) -> &[(u32, Vec<u8>)]
    ensures { hunks_of result.now ≡ hunks_in session.now }
{
    match session {
        Session::Loaded(image) => image.hunks(),
        _ => &[],
    }
}

/// The bytes of the hunk with this number; none if there is no such hunk.
pub(crate) fn bytes_in(session: &Session, number: u64) -> &[u8]
    ensures { result.now ≡ bytes_in number session.now }
{
    match hunks_in(session).get(number as usize) {
        Some(hunk) => &hunk.1,
        None => &[],
    }
}

/// Tells where the bytes of the hunk with this number are, and its base, if there is such a hunk.
pub(crate) fn locate_hunk(session: &Session, number: u64, span: &mut Span, base: &mut u32) -> Status
    ensures { LocatesHunk session.now number (span.old, base.old) (span.new, base.new) result }
{
    match session {
        Session::Loaded(image) => match image.hunks().get(number as usize) {
            Some(hunk) => {
                *span = Span::of(&hunk.1);
                *base = hunk.0;
                Status::Ok
            }
            None => Status::OutOfRange,
        },
        _ => Status::WrongState,
    }
}
