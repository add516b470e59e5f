//! The line that reports why units do not link.

ghost use Rattle.hunk_base.specs.Text.{Puts};
ghost use Rattle.hunk_tool.specs.FaultLine.{hunk_of_unit, link_text};

use crate::fault_line::write_number;
use hunk_link::LinkRefusal;
use hunk_words::{Sink, Text};
use std::alloc::Allocator;

/// Writes why units do not link. It does not allocate.
pub(crate) fn write_link_refusal<A: Allocator + Copy, W: Sink>(
    text: &mut Text<'_, W>,
    refusal: &LinkRefusal<A>,
)
    ensures { Puts W.taken W.failed text.old text.new (link_text refusal.now) }
{
    match refusal {
        LinkRefusal::NoHunks => text.put(b"no hunks"),
        LinkRefusal::TooManyHunks => text.put(b"more than 65535 hunks"),
        LinkRefusal::TooLarge => text.put(b"too large"),
        LinkRefusal::NoSuchHunk { unit, hunk, target } => {
            write_hunk_of_unit(text, *unit, *hunk);
            write_number(text, b"no hunk ", u64::from(*target), b" in its unit");
        }
        LinkRefusal::DuplicateName { unit, hunk, name } => {
            write_hunk_of_unit(text, *unit, *hunk);
            text.put_quoted(name.bytes());
            text.put(b" defined again");
        }
        LinkRefusal::UndefinedName { unit, hunk, name } => {
            write_hunk_of_unit(text, *unit, *hunk);
            text.put_quoted(name.bytes());
            text.put(b" not defined");
        }
        LinkRefusal::OutOfMemory => text.put(b"out of memory"),
    }
}

/// Writes the number of a hunk and that of its unit, before what is wrong with the hunk.
fn write_hunk_of_unit<W: Sink>(text: &mut Text<'_, W>, unit: usize, hunk: u32)
    ensures { Puts W.taken W.failed text.old text.new (hunk_of_unit unit hunk) }
{
    text.put(b"unit ");
    text.put_decimal(unit as u64);
    text.put(b" hunk ");
    text.put_decimal(u64::from(hunk));
    text.put(b": ");
}
