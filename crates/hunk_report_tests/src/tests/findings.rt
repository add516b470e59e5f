//! What may be found.

use hunk_survey::{Digest, Finding};
use hunk_words::{Fault, Reason};

pub(crate) const OBJECT: Finding = Finding::Object { units: 1, hunks: 2 };

pub(crate) const LOAD: Finding = Finding::Load {
    hunks: 2,
    digest: None,
};

pub(crate) const CUT: Finding = Finding::Refused(Fault {
    place: 3,
    reason: Reason::PartialLongword,
});

pub(crate) const STRANGE: Finding = Finding::Refused(Fault {
    place: 0,
    reason: Reason::WrongStart,
});

/// What no file is likely to have.
pub(crate) const DIGEST: Digest = [
    0x00, 0x01, 0x02, 0x03, 0x04, 0x05, 0x06, 0x07, 0x08, 0x09, 0x0A, 0x0B, 0x0C, 0x0D, 0x0E, 0x0F,
    0xF0, 0xF1, 0xF2, 0xF3, 0xF4, 0xF5, 0xF6, 0xF7, 0xF8, 0xF9, 0xFA, 0xFB, 0xFC, 0xFD, 0xFE, 0xFF,
];

pub(crate) const DIGITS: &str = "000102030405060708090a0b0c0d0e0ff0f1f2f3f4f5f6f7f8f9fafbfcfdfeff";

pub(crate) const DIGESTED: Finding = Finding::Load {
    hunks: 1,
    digest: Some(DIGEST),
};
