//! The line that reports why an operation failed.

ghost use Rattle.std.specs.Prelude.{◌≡◌, ◌^◌, ◌<◌, ◌++◌, codes, length, map, IfErr};
ghost use Rattle.std.specs.Fmt.{decimal};
ghost use Rattle.hunk_base.specs.Digits.{eight_digits};
ghost use Rattle.hunk_base.specs.Streams.{IsDevice, WroteAll, WroteText};
ghost use Rattle.hunk_base.specs.Text.{Puts};
ghost use Rattle.hunk_tool.specs.FaultLine.{fault_line, fault_text, name_of, place_text, program_line, reason_text};

use crate::file_name::{FileName, name_at};
use crate::link_line::write_link_refusal;
use crate::tool_fault::ToolFault;
use hunk_loader::PlaceFault;
use hunk_words::{Reason, Sink, Text, WriteFault};
use std::alloc::Allocator;

/// Writes the line that reports why an operation failed. `files` are the names of its inputs: a
/// `file` in the fault is an index into them, and an input that has no name there is told without
/// one. Does not allocate.
///
/// # Errors
///
/// [`WriteFault::Device`] if a write failed or took no byte, with the number of bytes of the line
/// that were written, if it has fewer than 2^64.
pub fn write_fault<N: FileName, A: Allocator + Copy, W: Sink>(
    files: &[N],
    fault: &ToolFault<A>,
    writer: &mut W,
) -> Result<(), WriteFault>
    ensures wrote { WroteText W.taken W.failed writer.old writer.new
        (fault_line (map N.bytes files.now) fault.now) result }
    ensures counted { length (fault_line (map N.bytes files.now) fault.now) < 2 ^ 64 →
        WroteAll W.taken W.failed writer.old writer.new
        (fault_line (map N.bytes files.now) fault.now) result }
    ensures device { IfErr result IsDevice }
{
    let name = named_file(files, fault);
    let mut text = Text::new(writer);
    write_fault_line(&mut text, name, fault);
    text.finish()
}

/// The name of the input that the fault is about; empty if it is about none, or it has none.
fn named_file<'a, N: FileName, A: Allocator + Copy>(
    files: &'a [N],
    fault: &ToolFault<A>,
) -> &'a [u8]
    ensures { result.now ≡ name_of (map N.bytes files.now) fault.now }
{
    match fault {
        ToolFault::Input { file, .. } | ToolFault::InputDevice { file } => name_at(files, *file),
        ToolFault::Link(_)
        | ToolFault::Place(_)
        | ToolFault::Output { .. }
        | ToolFault::OutOfMemory { .. } => b"",
    }
}

/// Writes the line, if the input that the fault is about has this name.
fn write_fault_line<A: Allocator + Copy, W: Sink>(
    text: &mut Text<'_, W>,
    name: &[u8],
    fault: &ToolFault<A>,
)
    ensures { Puts W.taken W.failed text.old text.new
        (program_line (fault_text name.now fault.now)) }
{
    text.put(b"amihunk: ");
    write_fault_text(text, name, fault);
    text.end_line();
}

/// Writes why an operation failed, if the input that the fault is about has this name.
fn write_fault_text<A: Allocator + Copy, W: Sink>(
    text: &mut Text<'_, W>,
    name: &[u8],
    fault: &ToolFault<A>,
)
    ensures { Puts W.taken W.failed text.old text.new (fault_text name.now fault.now) }
{
    match fault {
        ToolFault::Input { fault, .. } => {
            text.put(name);
            write_number(text, b": longword ", fault.place, b": ");
            write_reason(text, fault.reason);
        }
        ToolFault::InputDevice { .. } => {
            text.put(name);
            text.put(b": read failed");
        }
        ToolFault::Link(refusal) => {
            text.put(b"link: ");
            write_link_refusal(text, refusal);
        }
        ToolFault::Place(fault) => {
            text.put(b"places: ");
            write_place_fault(text, *fault);
        }
        ToolFault::Output { .. } => text.put(b"output: write failed"),
        ToolFault::OutOfMemory { .. } => text.put(b"out of memory"),
    }
}

/// Writes why addresses are rejected.
fn write_place_fault<W: Sink>(text: &mut Text<'_, W>, fault: PlaceFault)
    ensures { Puts W.taken W.failed text.old text.new (place_text fault) }
{
    match fault {
        PlaceFault::WrongCount => text.put(b"wrong number of addresses"),
        PlaceFault::PastEnd(hunk) => {
            write_number(text, b"hunk ", hunk as u64, b" passes the end of memory");
        }
        PlaceFault::Overlap(earlier, later) => {
            write_number(text, b"hunks ", earlier as u64, b" and ");
            write_number(text, b"", later as u64, b" overlap");
        }
    }
}

/// Writes why a longword is rejected, as [`write_fault`] tells it. It does not allocate.
pub fn write_reason<W: Sink>(text: &mut Text<'_, W>, reason: Reason)
    ensures { Puts W.taken W.failed text.old text.new (reason_text reason) }
{
    match reason {
        Reason::PartialLongword => text.put(b"file ends inside a longword"),
        Reason::UnexpectedEnd => text.put(b"file ends too early"),
        Reason::WrongStart => text.put(b"wrong first longword"),
        Reason::UnknownType(number) => write_last(text, b"unknown block type ", u64::from(number)),
        Reason::MisplacedType(number) => {
            write_number(
                text,
                b"block type ",
                u64::from(number),
                b" not allowed here",
            );
        }
        Reason::UnsupportedBlock(number) => {
            write_number(text, b"block type ", u64::from(number), b" not supported");
        }
        Reason::UnsupportedExt(number) => {
            write_number(
                text,
                b"external type ",
                u64::from(number),
                b" not supported",
            );
        }
        Reason::BothMemoryBits => text.put(b"both memory bits set"),
        Reason::ResidentNames => text.put(b"resident library names not supported"),
        Reason::HunkTable => text.put(b"bad hunk table"),
        Reason::TooLarge => text.put(b"too large"),
        Reason::ContentTooLong => text.put(b"block longer than its hunk"),
        Reason::NoSuchHunk(hunk) => write_last(text, b"no hunk ", u64::from(hunk)),
        Reason::SiteOutside(offset) => write_site(text, offset, b" outside its hunk"),
        Reason::SiteOverlap(offset) => write_site(text, offset, b" overlaps another"),
        Reason::SymbolKind(kind) => write_last(text, b"symbol of kind ", u64::from(kind)),
        Reason::TrailingData => text.put(b"data after the last hunk"),
    }
}

/// Writes a number in decimal digits, between two pieces.
pub(crate) fn write_number<W: Sink>(
    text: &mut Text<'_, W>,
    before: &[u8],
    number: u64,
    after: &[u8],
)
    ensures { Puts W.taken W.failed text.old text.new (before.now ++ decimal number ++ after.now) }
{
    text.put(before);
    text.put_decimal(number);
    text.put(after);
}

/// Writes a number in decimal digits, after a piece.
fn write_last<W: Sink>(text: &mut Text<'_, W>, before: &[u8], number: u64)
    ensures { Puts W.taken W.failed text.old text.new (before.now ++ decimal number) }
{
    text.put(before);
    text.put_decimal(number);
}

/// Writes the offset of a site, and what is wrong with it.
fn write_site<W: Sink>(text: &mut Text<'_, W>, offset: u32, after: &[u8])
    ensures { Puts W.taken W.failed text.old text.new
        (codes "site " ++ eight_digits offset ++ after.now) }
{
    text.put(b"site ");
    text.put_longword(offset);
    text.put(after);
}
