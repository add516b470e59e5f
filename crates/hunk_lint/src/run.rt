//! Reads a file of either kind, and writes what is ignored in it, and what is likely to be a mistake.

ghost use Rattle.std.specs.Prelude.{◌^◌, ◌<◌, length, IsTrue, OnOk, IfErr};
ghost use Rattle.hunk_base.specs.Streams.{HasRead, IsDevice, WroteAll};
ghost use Rattle.hunk_base.specs.Text.{Puts};
ghost use Rattle.hunk_lint.specs.Linted.{value_of};
ghost use Rattle.hunk_lint.specs.Run.{unit_hunks, lint_text, lint_text_of};
ghost use Rattle.hunk_tool.specs.Check.{check_text};
ghost use Rattle.hunk_tool.specs.FileText.{IsTextFault, IsWritten};
ghost use Rattle.hunk_tool.specs.Load.{ends_of};

use crate::lint_text::write_lints;
use crate::linted::{LintedFile, read_linted};
use hunk_objects::hunk_total;
use hunk_text::{write_load_line, write_object_line};
use hunk_tool::{File, ToolFault};
use hunk_words::{Sink, Source, Text, WriteFault};
use std::alloc::Allocator;

/// Reads a file to the reader's end, and writes the line that [`check_run`](hunk_tool::check_run)
/// writes, and then a line for each longword in which something is ignored, and for each thing in its
/// hunks that a loader or a processor stumbles over.
///
/// It keeps the contents of the file. Nothing is written before the whole file has been read. It does
/// not flush.
///
/// # Errors
///
/// - [`ToolFault::Input`] with the place and the reason of the first offence of what was read, for
///   a file of its kind; where the file ends too early, at the reader's end.
/// - [`ToolFault::InputDevice`] if a read failed.
/// - [`ToolFault::Output`] if a write failed or took no byte, with the number of bytes of the text
///   that were written.
/// - [`ToolFault::OutOfMemory`] if an allocation failed, with nothing written.
pub fn lint_run<A: Allocator + Copy, R: Source, W: Sink>(
    alloc: A,
    reader: &mut R,
    writer: &mut W,
) -> Result<(), ToolFault<A>>
    ensures ok { OnOk result (HasRead (R.left reader.old) (R.left reader.new)
        (IsWritten lint_text (W.taken writer.old) (W.taken writer.new))) }
    ensures ended { OnOk result (IsTrue (R.ended reader.new)) }
    ensures err { IfErr result (IsTextFault lint_text (ends_of
        (R.left reader.old) (R.left reader.new) (R.failed reader.new) (R.ended reader.new)
        (W.taken writer.old) (W.taken writer.new) (W.failed writer.new))) }
{
    let file = read_linted(alloc, reader)?;
    Ok(write_file(&file, writer)?)
}

/// Writes the text of a file. Does not allocate.
fn write_file<A: Allocator + Copy, W: Sink>(
    file: &LintedFile<A>,
    writer: &mut W,
) -> Result<(), WriteFault>
    requires few { unit_hunks (value_of file.now) < 2 ^ 64 }
    requires fits { length (lint_text_of file.now) < 2 ^ 64 }
    ensures wrote { WroteAll W.taken W.failed writer.old writer.new (lint_text_of file.now) result }
    ensures device { IfErr result IsDevice }
{
    let mut text = Text::new(writer);
    write_kind(&mut text, file);
    write_lints(&mut text, file);
    text.finish()
}

/// Writes the line of what a file is.
fn write_kind<A: Allocator + Copy, W: Sink>(text: &mut Text<'_, W>, file: &LintedFile<A>)
    requires { unit_hunks (value_of file.now) < 2 ^ 64 }
    ensures { Puts W.taken W.failed text.old text.new (check_text (value_of file.now)) }
{
    match file {
        File::Object(linted) => {
            let units = linted.value.as_slice();
            write_object_line(text, units.len() as u64, hunk_total(units));
        }
        File::Load(linted) => write_load_line(text, linted.value.hunks().len() as u64),
    }
}
