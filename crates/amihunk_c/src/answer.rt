//! What C is told of a call.
ghost use Rattle.std.specs.Prelude.{◌≡◌};

use crate::codes::{Status, reason_code, reason_number};
use hunk_link::LinkRefusal;
use hunk_loader::PlaceFault;
use hunk_words::Fault;

/// What became of a call, in numbers: a status, and what is known of a refusal. What the status
/// does not tell is 0.
#[repr(C)]
#[derive(Clone, Copy)]
pub struct Answer {
    /// Of [`Status::File`]: the longword of the file that offends first, from 0.
    pub place: u64,
    /// The number of the input that the refusal concerns, from 0.
    pub input: u64,
    /// The number of the unit that the refusal concerns, over all inputs, from 0.
    pub unit: u64,
    /// The number of the hunk, from 0: in the load file, or in its unit.
    pub hunk: u64,
    /// The number of the other hunk, from 0: the later one of two that share an address, or the one
    /// that a unit does not have.
    pub other: u64,
    /// The status of the call.
    pub status: u32,
    /// Of [`Status::File`]: the reason, from 1.
    pub reason: u32,
    /// Of [`Status::File`]: the number that the reason tells.
    pub number: u32,
}

impl Answer {
    ghost use Rattle.amihunk_c.specs.Answers.{file_answer, link_answer, place_answer, plain_answer};

    /// A status alone.
    pub(crate) fn plain(status: Status) -> Answer
        ensures { result ≡ plain_answer status }
    {
        Answer {
            place: 0,
            input: 0,
            unit: 0,
            hunk: 0,
            other: 0,
            status: status.code(),
            reason: 0,
            number: 0,
        }
    }

    /// The bytes of the input with this number are not a file of their kind.
    pub(crate) fn of_file(fault: Fault, input: usize) -> Answer
        ensures { result ≡ file_answer fault input }
    {
        Answer {
            place: fault.place,
            input: input as u64,
            reason: reason_code(fault.reason),
            number: reason_number(fault.reason),
            ..Answer::plain(Status::File)
        }
    }

    /// Hunks cannot be placed.
    pub(crate) fn of_place(fault: PlaceFault) -> Answer
        ensures { result ≡ place_answer fault }
    {
        let answer = Answer::plain(Status::of_place(fault));
        match fault {
            PlaceFault::WrongCount => answer,
            PlaceFault::PastEnd(hunk) => Answer {
                hunk: hunk as u64,
                ..answer
            },
            PlaceFault::Overlap(earlier, later) => Answer {
                hunk: earlier as u64,
                other: later as u64,
                ..answer
            },
        }
    }

    /// Units do not link; a unit that the refusal tells is one of the input with this number.
    pub(crate) fn of_link(refusal: &LinkRefusal, input: usize) -> Answer
        ensures { result ≡ link_answer refusal.now input }
    {
        let answer = Answer::plain(Status::of_link(refusal));
        match refusal {
            LinkRefusal::NoHunks
            | LinkRefusal::TooManyHunks
            | LinkRefusal::TooLarge
            | LinkRefusal::OutOfMemory => answer,
            LinkRefusal::NoSuchHunk { unit, hunk, target } => Answer {
                input: input as u64,
                unit: *unit as u64,
                hunk: u64::from(*hunk),
                other: u64::from(*target),
                ..answer
            },
            LinkRefusal::DuplicateName { unit, hunk, .. }
            | LinkRefusal::UndefinedName { unit, hunk, .. } => Answer {
                input: input as u64,
                unit: *unit as u64,
                hunk: u64::from(*hunk),
                ..answer
            },
        }
    }
}
