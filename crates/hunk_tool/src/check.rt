//! Checks a file, and writes what it is.

ghost use Rattle.std.specs.Prelude.{IsTrue, OnOk, IfErr};
ghost use Rattle.hunk_base.specs.Streams.{HasRead, IsDevice, WroteAll};
ghost use Rattle.hunk_text.specs.Listing.{load_line, object_line};
ghost use Rattle.hunk_tool.specs.Check.{check_text, line_of};
ghost use Rattle.hunk_tool.specs.FileText.{IsTextFault, IsWritten, of_value};
ghost use Rattle.hunk_tool.specs.Load.{ends_of};

use crate::tool_fault::ToolFault;
use hunk_files::{CountedFile, File, count_file};
use hunk_text::{write_load_line, write_object_line};
use hunk_words::{Sink, Source, Text, WriteFault};
use std::alloc::Allocator;

/// Reads a file to the reader's end, checks it, and writes one line: `object file: U units, H hunks`,
/// with the hunks of all units, or `load file: H hunks`, with decimal numbers.
///
/// A file is a load file if its first four bytes are there and the low 30 bits of that longword are
/// the block type 1011, `HUNK_HEADER` of `doshunks.h`. Otherwise it is read as an object file.
///
/// It keeps no content: of a file it keeps the sites of one hunk, and the sizes in the header of a
/// load file. Nothing is written before the whole file has been read. It does not flush.
///
/// # Errors
///
/// - [`ToolFault::Input`] with the place and the reason of the first offence of what was read, for
///   a file of its kind; where the file ends too early, at the reader's end.
/// - [`ToolFault::InputDevice`] where a read failed.
/// - [`ToolFault::Output`] if a write failed or took no byte, with the number of bytes of the line
///   that were written.
/// - [`ToolFault::OutOfMemory`] if an allocation failed, with nothing written.
pub fn check_run<A: Allocator + Copy, R: Source, W: Sink>(
    alloc: A,
    reader: &mut R,
    writer: &mut W,
) -> Result<(), ToolFault<A>>
    ensures ok { OnOk result (HasRead (R.left reader.old) (R.left reader.new)
        (IsWritten (of_value check_text) (W.taken writer.old) (W.taken writer.new))) }
    ensures ended { OnOk result (IsTrue (R.ended reader.new)) }
    ensures err { IfErr result (IsTextFault (of_value check_text) (ends_of
        (R.left reader.old) (R.left reader.new) (R.failed reader.new) (R.ended reader.new)
        (W.taken writer.old) (W.taken writer.new) (W.failed writer.new))) }
{
    let counted = count_file(alloc, reader)?;
    Ok(write_counts(&counted, writer)?)
}

/// Writes the line of a file that was counted. Does not allocate.
fn write_counts<A: Allocator + Copy, W: Sink>(
    counted: &CountedFile<A>,
    writer: &mut W,
) -> Result<(), WriteFault>
    ensures wrote { WroteAll W.taken W.failed writer.old writer.new (line_of counted.now) result }
    ensures device { IfErr result IsDevice }
{
    match counted {
        File::Object(counter) => write_object(counter.units(), counter.hunks(), writer),
        File::Load(counter) => write_load(counter.hunks(), writer),
    }
}

/// Writes the line of an object file with these numbers of units and hunks.
fn write_object<W: Sink>(units: u64, hunks: u64, writer: &mut W) -> Result<(), WriteFault>
    ensures wrote { WroteAll W.taken W.failed writer.old writer.new
        (object_line units hunks) result }
    ensures device { IfErr result IsDevice }
{
    let mut text = Text::new(writer);
    write_object_line(&mut text, units, hunks);
    text.finish()
}

/// Writes the line of a load file with this number of hunks.
fn write_load<W: Sink>(hunks: u64, writer: &mut W) -> Result<(), WriteFault>
    ensures wrote { WroteAll W.taken W.failed writer.old writer.new (load_line hunks) result }
    ensures device { IfErr result IsDevice }
{
    let mut text = Text::new(writer);
    write_load_line(&mut text, hunks);
    text.finish()
}
