//! Shows what is in a file.

ghost use Rattle.std.specs.Prelude.{◌^◌, ◌<◌, length, IsTrue, OnOk, IfErr};
ghost use Rattle.hunk_base.specs.Streams.{HasRead, IsDevice, WroteAll};
ghost use Rattle.hunk_base.specs.Text.{Puts};
ghost use Rattle.hunk_tool.specs.FileText.{IsTextFault, IsWritten, of_value};
ghost use Rattle.hunk_files.specs.HunkFile.{value_of};
ghost use Rattle.hunk_tool.specs.Load.{ends_of};
ghost use Rattle.hunk_tool.specs.Show.{show_text};

use crate::tool_fault::ToolFault;
use hunk_files::{File, HunkFile, read_hunk_file};
use hunk_text::{write_load_listing, write_object_listing};
use hunk_words::{Sink, Source, Text, WriteFault};
use std::alloc::Allocator;

/// Reads a file to the reader's end, and writes its listing: the line that
/// [`check_run`](crate::check_run) writes, and then a line for each unit and each hunk, followed by
/// the hunk's sites by rising offset, its definitions, its symbols and its debug blocks.
///
/// A file is a load file if its first four bytes are there and the low 30 bits of that longword are
/// the block type 1011, `HUNK_HEADER` of `doshunks.h`. Otherwise it is read as an object file.
///
/// It keeps the contents of the file. Nothing is written before the whole file has been read. It
/// does not flush.
///
/// # Errors
///
/// - [`ToolFault::Input`] with the place and the reason of the first offence of what was read, for
///   a file of its kind; where the file ends too early, at the reader's end.
/// - [`ToolFault::InputDevice`] where a read failed.
/// - [`ToolFault::Output`] if a write failed or took no byte, with the number of bytes of the
///   listing that were written.
/// - [`ToolFault::OutOfMemory`] if an allocation failed, with nothing written.
pub fn show_run<A: Allocator + Copy, R: Source, W: Sink>(
    alloc: A,
    reader: &mut R,
    writer: &mut W,
) -> Result<(), ToolFault<A>>
    ensures ok { OnOk result (HasRead (R.left reader.old) (R.left reader.new)
        (IsWritten (of_value show_text) (W.taken writer.old) (W.taken writer.new))) }
    ensures ended { OnOk result (IsTrue (R.ended reader.new)) }
    ensures err { IfErr result (IsTextFault (of_value show_text) (ends_of
        (R.left reader.old) (R.left reader.new) (R.failed reader.new) (R.ended reader.new)
        (W.taken writer.old) (W.taken writer.new) (W.failed writer.new))) }
{
    let file = read_hunk_file(alloc, reader)?;
    Ok(write_listing(&file, writer)?)
}

/// Writes the listing of a file. Does not allocate.
fn write_listing<A: Allocator + Copy, W: Sink>(
    file: &HunkFile<A>,
    writer: &mut W,
) -> Result<(), WriteFault>
    requires { length (show_text (value_of file.now)) < 2 ^ 64 }
    ensures wrote { WroteAll W.taken W.failed writer.old writer.new
        (show_text (value_of file.now)) result }
    ensures device { IfErr result IsDevice }
{
    let mut text = Text::new(writer);
    write_file(&mut text, file);
    text.finish()
}

/// Writes the listing of a file of its kind.
fn write_file<A: Allocator + Copy, W: Sink>(text: &mut Text<'_, W>, file: &HunkFile<A>)
    requires { length (show_text (value_of file.now)) < 2 ^ 64 }
    ensures { Puts W.taken W.failed text.old text.new (show_text (value_of file.now)) }
{
    match file {
        File::Object(units) => write_object_listing(text, units),
        File::Load(file) => write_load_listing(text, file.hunks()),
    }
}
