//! The numbers of statuses and reasons, as C knows them.
ghost use Rattle.std.specs.Prelude.{◌≡◌};
ghost use Rattle.amihunk_c.specs.Codes.{memory_code, place_status, reason_code, reason_number, link_status, status_code};

use hunk_link::LinkRefusal;
use hunk_loader::PlaceFault;
use hunk_words::{Memory, Reason};

/// What became of a call.
#[derive(Clone, Copy)]
pub enum Status {
    /// It did what it says.
    Ok,
    /// The bytes are not a file of their kind.
    File,
    /// There is not one base for each hunk.
    WrongCount,
    /// A hunk ends after the last address.
    PastEnd,
    /// Two hunks share an address.
    Overlap,
    /// The units have no hunks.
    NoHunks,
    /// The units have more than 65,535 hunks.
    TooManyHunks,
    /// The hunks, or their symbols and debug blocks, are too large to be linked.
    TooLarge,
    /// A site adds the base of a hunk that its unit does not have.
    NoSuchHunk,
    /// A name is defined again.
    DuplicateName,
    /// A name is not defined.
    UndefinedName,
    /// An allocation failed.
    OutOfMemory,
    /// The call is out of turn.
    WrongState,
    /// There is nothing with that number.
    OutOfRange,
    /// The header is whole, and its hunks are to be placed.
    NeedsBases,
}

impl Status {
    /// The number of the status.
    pub(crate) fn code(self) -> u32
        ensures { result ≡ status_code self }
    {
        self as u32
    }

    /// The status for hunks that cannot be placed.
    pub(crate) fn of_place(fault: PlaceFault) -> Status
        ensures { result ≡ place_status fault }
    {
        match fault {
            PlaceFault::WrongCount => Status::WrongCount,
            PlaceFault::PastEnd(_) => Status::PastEnd,
            PlaceFault::Overlap(..) => Status::Overlap,
        }
    }

    /// The status for units that do not link.
    pub(crate) fn of_link(refusal: &LinkRefusal) -> Status
        ensures { result ≡ link_status refusal.now }
    {
        match refusal {
            LinkRefusal::NoHunks => Status::NoHunks,
            LinkRefusal::TooManyHunks => Status::TooManyHunks,
            LinkRefusal::TooLarge => Status::TooLarge,
            LinkRefusal::NoSuchHunk { .. } => Status::NoSuchHunk,
            LinkRefusal::DuplicateName { .. } => Status::DuplicateName,
            LinkRefusal::UndefinedName { .. } => Status::UndefinedName,
            LinkRefusal::OutOfMemory => Status::OutOfMemory,
        }
    }
}

/// The number of a reason, from 1.
pub(crate) fn reason_code(reason: Reason) -> u32
    ensures { result ≡ reason_code reason }
{
    match reason {
        Reason::PartialLongword => 1,
        Reason::UnexpectedEnd => 2,
        Reason::WrongStart => 3,
        Reason::UnknownType(_) => 4,
        Reason::MisplacedType(_) => 5,
        Reason::UnsupportedBlock(_) => 6,
        Reason::UnsupportedExt(_) => 7,
        Reason::BothMemoryBits => 8,
        Reason::ResidentNames => 9,
        Reason::HunkTable => 10,
        Reason::TooLarge => 11,
        Reason::ContentTooLong => 12,
        Reason::NoSuchHunk(_) => 13,
        Reason::SiteOutside(_) => 14,
        Reason::SiteOverlap(_) => 15,
        Reason::SymbolKind(_) => 16,
        Reason::TrailingData => 17,
    }
}

/// The number that a reason tells: a type, a hunk, an offset or a kind. 0 if it tells none.
pub(crate) fn reason_number(reason: Reason) -> u32
    ensures { result ≡ reason_number reason }
{
    match reason {
        Reason::UnknownType(number)
        | Reason::MisplacedType(number)
        | Reason::UnsupportedBlock(number) => number,
        Reason::UnsupportedExt(number) => u32::from(number),
        Reason::NoSuchHunk(hunk) => hunk,
        Reason::SiteOutside(offset) | Reason::SiteOverlap(offset) => offset,
        Reason::SymbolKind(kind) => u32::from(kind),
        Reason::PartialLongword
        | Reason::UnexpectedEnd
        | Reason::WrongStart
        | Reason::BothMemoryBits
        | Reason::ResidentNames
        | Reason::HunkTable
        | Reason::TooLarge
        | Reason::ContentTooLong
        | Reason::TrailingData => 0,
    }
}

/// The number of a kind of memory, as C knows it.
pub(crate) fn memory_code(memory: Memory) -> u32
    ensures { result ≡ memory_code memory }
{
    match memory {
        Memory::Any => 0,
        Memory::Chip => 1,
        Memory::Fast => 2,
    }
}
