//! Why a session is refused.
ghost use Rattle.std.specs.Prelude.{◌≡◌};
ghost use Rattle.amihunk_c.specs.InputNumbers.{input_of};
ghost use Rattle.amihunk_c.specs.Texts.{refusal_name};

use crate::answer::Answer;
use crate::codes::Status;
use crate::session::Session;
use hunk_link::LinkRefusal;
use hunk_loader::{LoadRefusal, PlaceFault};
use hunk_origins::UndefinedName;
use hunk_tool::ToolFault;
use hunk_words::{Fault, Refusal};

/// Why a session is refused: as the program reports it, and as C is told.
#[derive(Drop)]
pub struct Refused {
    /// Why, as if the input that it concerns were the only one.
    pub(crate) fault: ToolFault,
    /// What C is told.
    pub(crate) answer: Answer,
    /// All names that no hunk defines, if they are kept and one of them is the reason.
    pub(crate) undefined: Option<Vec<UndefinedName>>,
}

impl Refused {
    ghost use Rattle.amihunk_c.specs.Refusals.{file_refused, input_refused, link_refused, load_refused, memory_refused, place_refused};

    /// The bytes of the input with this number are not a file of their kind.
    pub(crate) fn file(fault: Fault, input: usize) -> Refused
        ensures { result ≡ file_refused fault input }
    {
        Refused {
            fault: ToolFault::Input { file: 0, fault },
            answer: Answer::of_file(fault, input),
            undefined: None,
        }
    }

    /// The hunks of a load file cannot be placed.
    pub(crate) fn place(fault: PlaceFault) -> Refused
        ensures { result ≡ place_refused fault }
    {
        Refused {
            fault: ToolFault::Place(fault),
            answer: Answer::of_place(fault),
            undefined: None,
        }
    }

    /// An allocation failed.
    pub(crate) fn memory() -> Refused
        ensures { result ≡ memory_refused }
    {
        Refused {
            fault: ToolFault::OutOfMemory { written: 0 },
            answer: Answer::plain(Status::OutOfMemory),
            undefined: None,
        }
    }

    /// Units do not link: of the unit that the refusal tells, the input is found by the numbers of
    /// units up to the end of each.
    pub(crate) fn link(refusal: LinkRefusal, ends: &[usize]) -> Refused
        ensures { result ≡ link_refused refusal ends.now }
    {
        match refusal {
            LinkRefusal::OutOfMemory => Refused::memory(),
            refusal => {
                let answer = Answer::of_link(&refusal, input_of(&refusal, ends));
                Refused {
                    fault: ToolFault::Link(refusal),
                    answer,
                    undefined: None,
                }
            }
        }
    }

    /// The same refusal, with these names.
    pub(crate) fn with_undefined(self, undefined: Option<Vec<UndefinedName>>) -> Refused
        ensures { result ≡ record self { undefined = undefined } }
    {
        Refused { undefined, ..self }
    }

    /// An input is not an object file, or an allocation failed.
    pub(crate) fn input(refusal: Refusal, input: usize) -> Refused
        ensures { result ≡ input_refused refusal input }
    {
        match refusal {
            Refusal::Fault(fault) => Refused::file(fault, input),
            Refusal::OutOfMemory => Refused::memory(),
        }
    }

    /// A load file is not loaded.
    pub(crate) fn load(refusal: LoadRefusal) -> Refused
        ensures { result ≡ load_refused refusal }
    {
        match refusal {
            LoadRefusal::File(fault) => Refused::file(fault, 0),
            LoadRefusal::Place(fault) => Refused::place(fault),
            LoadRefusal::OutOfMemory => Refused::memory(),
        }
    }
}

/// The number of the input of the unit that the refusal tells; 0 if it tells none.
fn input_of(refusal: &LinkRefusal, ends: &[usize]) -> usize
    ensures { result ≡ input_of refusal.now ends.now }
{
    match refusal {
        LinkRefusal::NoSuchHunk { unit, .. }
        | LinkRefusal::DuplicateName { unit, .. }
        | LinkRefusal::UndefinedName { unit, .. } => {
            let unit = *unit;
            ends.iter().filter(|end| **end <= unit).count()
        }
        LinkRefusal::NoHunks
        | LinkRefusal::TooManyHunks
        | LinkRefusal::TooLarge
        | LinkRefusal::OutOfMemory => 0,
    }
}

/// The name that the refusal of a session tells; empty if it tells none.
pub(crate) fn refusal_name(session: &Session) -> &[u8]
    ensures { result.now ≡ refusal_name session.now }
{
    match session {
        Session::Stopped(refused) => match &refused.fault {
            ToolFault::Link(
                LinkRefusal::DuplicateName { name, .. } | LinkRefusal::UndefinedName { name, .. },
            ) => name.bytes(),
            _ => &[],
        },
        _ => &[],
    }
}
