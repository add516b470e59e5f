//! Why an operation failed.

ghost use Rattle.std.specs.Prelude.{◌≡◌};
ghost use Rattle.hunk_tool.specs.ToolFault.{status, tool_fault_of_image, tool_fault_of_link, tool_fault_of_read, tool_fault_of_write};

use hunk_link::LinkRefusal;
use hunk_loader::{ImageFault, LoadRefusal, PlaceFault};
use hunk_words::{Fault, ReadFault, Refusal, WriteFault};
use std::alloc::{AllocError, Allocator, Global};

/// Why an operation failed. `file` is the index of an input, from 0. Of the text that was to be
/// written, the writer has taken exactly the first `written` bytes.
#[derive(Debug, Drop, PartialEq, Eq)]
pub enum ToolFault<A: Allocator + Copy = Global> {
    /// An input is not a file of its kind: the place and the reason of its first offence.
    Input { file: usize, fault: Fault },
    /// A read of an input failed.
    InputDevice { file: usize },
    /// The units of the inputs do not link, or the copy of a load file has more than a linked file may
    /// have. It is never the refusal `OutOfMemory`.
    Link(LinkRefusal<A>),
    /// The addresses are rejected: there is not one for each hunk, a hunk passes the end of memory,
    /// or two hunks overlap.
    Place(PlaceFault),
    /// A write failed, or took no byte.
    Output { written: u64 },
    /// An allocation failed.
    OutOfMemory { written: u64 },
}

/// The only input has the number 0, and nothing is written yet.
impl<A: Allocator + Copy> From<ImageFault> for ToolFault<A> {
    ghost from_gives = { λ fault tool. tool ≡ tool_fault_of_image fault };

    fn from(fault: ImageFault) -> ToolFault<A> {
        match fault {
            ImageFault::Refused(LoadRefusal::File(fault)) => ToolFault::Input { file: 0, fault },
            ImageFault::Refused(LoadRefusal::Place(fault)) => ToolFault::Place(fault),
            ImageFault::Refused(LoadRefusal::OutOfMemory) => ToolFault::OutOfMemory { written: 0 },
            ImageFault::Device => ToolFault::InputDevice { file: 0 },
        }
    }
}

impl<A: Allocator + Copy> ToolFault<A> {
    /// A fault of reading the input with the number `file`. Nothing is written yet.
    pub(crate) fn of_read(file: usize, fault: ReadFault) -> ToolFault<A>
        ensures { result ≡ tool_fault_of_read file fault }
    {
        match fault {
            ReadFault::Refused(Refusal::Fault(fault)) => ToolFault::Input { file, fault },
            ReadFault::Refused(Refusal::OutOfMemory) => ToolFault::OutOfMemory { written: 0 },
            ReadFault::Device => ToolFault::InputDevice { file },
        }
    }
}

/// The only input has the number 0, and nothing is written yet.
impl<A: Allocator + Copy> From<ReadFault> for ToolFault<A> {
    ghost from_gives = { λ fault tool. tool ≡ tool_fault_of_read 0 fault };

    fn from(fault: ReadFault) -> ToolFault<A> {
        ToolFault::of_read(0, fault)
    }
}

impl<A: Allocator + Copy> From<WriteFault> for ToolFault<A> {
    ghost from_gives = { λ fault tool. tool ≡ tool_fault_of_write fault };

    fn from(fault: WriteFault) -> ToolFault<A> {
        match fault {
            WriteFault::Device { written } => ToolFault::Output { written },
            WriteFault::OutOfMemory { written } => ToolFault::OutOfMemory { written },
        }
    }
}

/// Nothing is written yet.
impl<A: Allocator + Copy> From<AllocError> for ToolFault<A> {
    ghost use Rattle.hunk_tool.specs.declared.tool_fault.ToolFault.{ToolFault};

    ghost from_gives = { λ _ tool. tool ≡ ToolFault.OutOfMemory 0 };

    fn from(_: AllocError) -> ToolFault<A> {
        ToolFault::OutOfMemory { written: 0 }
    }
}

/// Nothing is written yet.
impl<A: Allocator + Copy> From<LinkRefusal<A>> for ToolFault<A> {
    ghost from_gives = { λ refusal tool. tool ≡ tool_fault_of_link refusal };

    fn from(refusal: LinkRefusal<A>) -> ToolFault<A> {
        match refusal {
            LinkRefusal::OutOfMemory => ToolFault::OutOfMemory { written: 0 },
            refusal => ToolFault::Link(refusal),
        }
    }
}

/// The exit status for a fault: 1 if an input, the link or the addresses are rejected, 3 if a read or a write
/// failed, 4 if memory ran out.
pub fn status_of<A: Allocator + Copy>(fault: &ToolFault<A>) -> u8
    ensures { result ≡ status fault.now }
{
    match fault {
        ToolFault::Input { .. } | ToolFault::Link(_) | ToolFault::Place(_) => 1,
        ToolFault::InputDevice { .. } | ToolFault::Output { .. } => 3,
        ToolFault::OutOfMemory { .. } => 4,
    }
}
