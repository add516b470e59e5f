//! Reads a file of either kind, and writes what is in it as JSON.

ghost use Rattle.std.specs.Prelude.{◌^◌, ◌<◌, length, IsTrue, OnOk, IfErr};
ghost use Rattle.hunk_base.specs.Streams.{HasRead, IsDevice, WroteAll};
ghost use Rattle.hunk_base.specs.Text.{Puts};
ghost use Rattle.hunk_tool.specs.FileText.{IsTextFault, IsWritten, of_value};
ghost use Rattle.hunk_files.specs.HunkFile.{value_of};
ghost use Rattle.hunk_tool.specs.Load.{ends_of};
ghost use Rattle.hunk_json.specs.Document.{document};
ghost use Rattle.hunk_json.specs.Run.{file_json, json_text, json_text_in, line_of};

use crate::content_offsets::{PlacedFile, read_placed};
use crate::form::JsonForm;
use crate::load::write_load_json;
use crate::object::write_object_json;
use hunk_tool::{File, ToolFault};
use hunk_words::{Sink, Source, Text, WriteFault};
use std::alloc::Allocator;

/// Reads a file to the reader's end, and writes what is in it as one JSON document, on one line: what
/// its listing tells of it. It is read as [`read_hunk_file`](hunk_tool::read_hunk_file) reads it.
///
/// It keeps the contents of the file, and no text: the document is written piece by piece. Nothing is
/// written before the whole file has been read. It does not flush.
///
/// # Errors
///
/// - [`ToolFault::Input`] with the place and the reason of the first offence of what was read, for
///   a file of its kind; where the file ends too early, at the reader's end.
/// - [`ToolFault::InputDevice`] if a read failed.
/// - [`ToolFault::Output`] if a write failed or took no byte, with the number of bytes of the text
///   that were written.
/// - [`ToolFault::OutOfMemory`] if an allocation failed, with nothing written.
pub fn json_run<A: Allocator + Copy, R: Source, W: Sink>(
    alloc: A,
    reader: &mut R,
    writer: &mut W,
) -> Result<(), ToolFault<A>>
    ensures ok { OnOk result (HasRead (R.left reader.old) (R.left reader.new)
        (IsWritten (of_value json_text) (W.taken writer.old) (W.taken writer.new))) }
    ensures ended { OnOk result (IsTrue (R.ended reader.new)) }
    ensures err { IfErr result (IsTextFault (of_value json_text) (ends_of
        (R.left reader.old) (R.left reader.new) (R.failed reader.new) (R.ended reader.new)
        (W.taken writer.old) (W.taken writer.new) (W.failed writer.new))) }
{
    json_run_with(alloc, reader, JsonForm::Plain, writer)
}

/// Does what [`json_run`] does, for the document in this form. Where that tells the offsets of
/// contents, it keeps them too, in four bytes for each hunk.
///
/// # Errors
///
/// Those of [`json_run`].
pub fn json_run_with<A: Allocator + Copy, R: Source, W: Sink>(
    alloc: A,
    reader: &mut R,
    form: JsonForm,
    writer: &mut W,
) -> Result<(), ToolFault<A>>
    ensures ok { OnOk result (HasRead (R.left reader.old) (R.left reader.new)
        (IsWritten (json_text_in form) (W.taken writer.old) (W.taken writer.new))) }
    ensures ended { OnOk result (IsTrue (R.ended reader.new)) }
    ensures err { IfErr result (IsTextFault (json_text_in form) (ends_of
        (R.left reader.old) (R.left reader.new) (R.failed reader.new) (R.ended reader.new)
        (W.taken writer.old) (W.taken writer.new) (W.failed writer.new))) }
{
    let file = read_placed(alloc, reader, form)?;
    Ok(write_line(form, &file, writer)?)
}

/// Writes the document of a file, and the end of its line. Does not allocate.
fn write_line<A: Allocator + Copy, W: Sink>(
    form: JsonForm,
    file: &PlacedFile<A>,
    writer: &mut W,
) -> Result<(), WriteFault>
    requires { length
        (line_of form file.now.watcher.found.items (value_of file.now.value)) < 2 ^ 64 }
    ensures wrote { WroteAll W.taken W.failed writer.old writer.new
        (line_of form file.now.watcher.found.items (value_of file.now.value)) result }
    ensures device { IfErr result IsDevice }
{
    let mut text = Text::new(writer);
    write_file(&mut text, form, file);
    text.end_line();
    text.finish()
}

/// Writes the document of a file of its kind.
pub(crate) fn write_file<A: Allocator + Copy, W: Sink>(
    text: &mut Text<'_, W>,
    form: JsonForm,
    file: &PlacedFile<A>,
)
    ensures { Puts W.taken W.failed text.old text.new
        (document form (file_json form file.now.watcher.found.items (value_of file.now.value))) }
{
    let offsets = file.watcher.as_slice();
    match &file.value {
        File::Object(units) => write_object_json(text, form, offsets, units),
        File::Load(file) => write_load_json(text, form, offsets, file.hunks()),
    }
}
