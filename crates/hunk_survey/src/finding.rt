//! What a survey finds of a file.

ghost use Rattle.std.specs.Prelude.{◌≡◌};
ghost use Rattle.hunk_survey.specs.Finding.{begins_hunk_file, is_load, is_object, is_refused, is_stranger, is_unreadable};

use crate::digest::Digest;
use hunk_words::Fault;

/// What a survey finds of a file.
#[derive(Clone, Copy, Debug, PartialEq, Eq)]
pub enum Finding {
    /// An object file, with so many units, and so many hunks of all units.
    Object { units: u64, hunks: u64 },
    /// A load file, with so many hunks, and with its digest if that was asked for.
    Load { hunks: u64, digest: Option<Digest> },
    /// Neither: the place and the reason of the first offence, for a file of its kind.
    Refused(Fault),
    /// A read of it failed.
    Unread,
    /// It cannot be opened.
    Unopened,
    /// It is a directory.
    Directory,
    /// It is a pipe, a socket or a device, which may wait for another program and was not opened.
    NotRegular,
}

impl Finding {
    /// Whether it is an object file.
    pub fn is_object(&self) -> bool
        ensures { result ≡ is_object self.now }
    {
        matches!(self, Finding::Object { .. })
    }

    /// Whether it is a load file.
    pub fn is_load(&self) -> bool
        ensures { result ≡ is_load self.now }
    {
        matches!(self, Finding::Load { .. })
    }

    /// Whether it is neither, for a reason that its bytes give.
    pub fn is_refused(&self) -> bool
        ensures { result ≡ is_refused self.now }
    {
        matches!(self, Finding::Refused(_))
    }

    /// Whether it is refused, and does not even begin as a hunk file does.
    pub fn is_stranger(&self) -> bool
        ensures { result ≡ is_stranger self.now }
    {
        match self {
            Finding::Refused(fault) => !begins_hunk_file(*fault),
            _ => false,
        }
    }

    /// Whether its bytes are not known: it was not opened, or a read of it failed.
    pub fn is_unreadable(&self) -> bool
        ensures { result ≡ is_unreadable self.now }
    {
        matches!(
            self,
            Finding::Unread | Finding::Unopened | Finding::Directory | Finding::NotRegular
        )
    }
}

/// Whether a file with this first offence begins as a hunk file does: its first longword is not the
/// offence.
pub(crate) fn begins_hunk_file(fault: Fault) -> bool
    ensures { result ≡ begins_hunk_file fault }
{
    fault.place > 0
}
