//! Why a failure is not explained, and the line that tells it.
ghost use Rattle.std.specs.Prelude.{◌≡◌};
ghost use Rattle.hunk_base.specs.Text.{Puts};
ghost use Rattle.hunk_commands.specs.Unexplained.{unexplained_line, unexplained_text};

use hunk_store::Failure;
use hunk_tool::ToolFault;
use hunk_words::{ReadFault, Refusal, Sink, Text};
use std::alloc::AllocError;

/// Why a failure is not explained, although that is asked for.
#[derive(Clone, Copy, Debug, PartialEq, Eq)]
pub enum Unexplained {
    /// Memory ran out while the files were read again.
    OutOfMemory,
    /// A file is not a regular file: a pipe can be read only once.
    NotRegular,
    /// A file cannot be opened or read again, or what is in it by now does not fail so.
    Changed,
}

impl From<AllocError> for Unexplained {
    ghost use Rattle.hunk_commands.specs.declared.unexplained.Unexplained.{Unexplained};

    ghost from_gives = { λ error why. why ≡ Unexplained.OutOfMemory };

    fn from(_: AllocError) -> Self {
        Unexplained::OutOfMemory
    }
}

impl From<ReadFault> for Unexplained {
    ghost use Rattle.hunk_commands.specs.Unexplained.{unexplained_of_read};

    ghost from_gives = { λ fault why. why ≡ unexplained_of_read fault };

    fn from(fault: ReadFault) -> Self {
        match fault {
            ReadFault::Refused(Refusal::OutOfMemory) => Unexplained::OutOfMemory,
            ReadFault::Refused(Refusal::Fault(_)) | ReadFault::Device => Unexplained::Changed,
        }
    }
}

impl From<Failure<'_>> for Unexplained {
    ghost use Rattle.hunk_commands.specs.Unexplained.{unexplained_of};

    ghost from_gives = { λ failure why. why ≡ unexplained_of failure };

    fn from(failure: Failure<'_>) -> Self {
        match failure {
            Failure::Tool(ToolFault::OutOfMemory { .. }) => Unexplained::OutOfMemory,
            _ => Unexplained::Changed,
        }
    }
}

/// Writes the line that tells why a failure is not explained, after two spaces.
pub(crate) fn write_unexplained_line<W: Sink>(text: &mut Text<'_, W>, why: Unexplained)
    ensures { Puts W.taken W.failed text.old text.new (unexplained_line why) }
{
    text.put(b"  not explained: ");
    text.put(unexplained_text(why).as_bytes());
    text.end_line();
}

/// The words for it.
fn unexplained_text(why: Unexplained) -> &'static str
    ensures { result.now ≡ unexplained_text why }
{
    match why {
        Unexplained::OutOfMemory => "out of memory",
        Unexplained::NotRegular => "only regular files can be read again",
        Unexplained::Changed => "a file has changed, or cannot be read again",
    }
}
