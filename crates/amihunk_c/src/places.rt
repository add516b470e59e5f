//! The call that checks whether hunks can be placed.
ghost use Rattle.std.specs.Prelude.{◌≡◌};
ghost use Rattle.amihunk_c.specs.PlacesAnswers.{ChecksPlaces};

use crate::answer::Answer;
use crate::codes::Status;
use hunk_loader::check_places;

/// Checks whether hunks of these sizes, in longwords, can be placed at these bases, which are
/// addresses. It allocates nothing.
///
/// It answers `OK`; `WRONG_COUNT` if there is not one base for each hunk; `PAST_END` with the lowest
/// hunk that ends after the last address; or `OVERLAP` with the lowest hunk that shares an address
/// with an earlier one, and the lowest of these.
#[unsafe(no_mangle)]
pub extern "C" fn amihunk_c_check_places(sizes: &[u32], bases: &[u32], answer: &mut Answer) -> u32
    ensures checked { ChecksPlaces sizes.now bases.now answer.new }
    ensures status { result ≡ answer.new.status }
{
    *answer = match check_places(sizes, bases) {
        Ok(()) => Answer::plain(Status::Ok),
        Err(fault) => Answer::of_place(fault),
    };
    answer.status
}
