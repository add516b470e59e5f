//! Reads a file of either kind, and writes a page that shows what is in it.

ghost use Rattle.std.specs.Prelude.{◌≡◌, ◌^◌, ◌<◌, length, IsTrue, OnOk, IfErr};
ghost use Rattle.hunk_base.specs.Streams.{HasRead, IsDevice, WroteAll};
ghost use Rattle.hunk_tool.specs.FileText.{IsTextFault, IsWritten};
ghost use Rattle.hunk_files.specs.HunkFile.{value_of};
ghost use Rattle.hunk_tool.specs.Load.{ends_of};
ghost use Rattle.hunk_json.specs.Page.{page_head, page_of, page_tail, page_text};

use crate::content_offsets::{PlacedFile, read_placed};
use crate::form::JsonForm;
use crate::page_sources::{HEAD, TAIL};
use crate::run::write_file;
use hunk_tool::ToolFault;
use hunk_words::{Sink, Source, Text, WriteFault};
use std::alloc::Allocator;

/// Reads a file to the reader's end, and writes a page of HTML that shows what is in it: the document
/// of [`JsonForm::InPage`], between what begins and what ends every page. It is read as
/// [`read_hunk_file`](hunk_tool::read_hunk_file) reads it.
///
/// It keeps the contents of the file, and no text: the page is written piece by piece. Nothing is
/// written before the whole file has been read. It does not flush.
///
/// # Errors
///
/// Those of [`json_run`](crate::json_run), about the text of the page.
pub fn page_run<A: Allocator + Copy, R: Source, W: Sink>(
    alloc: A,
    reader: &mut R,
    writer: &mut W,
) -> Result<(), ToolFault<A>>
    ensures ok { OnOk result (HasRead (R.left reader.old) (R.left reader.new)
        (IsWritten page_text (W.taken writer.old) (W.taken writer.new))) }
    ensures ended { OnOk result (IsTrue (R.ended reader.new)) }
    ensures err { IfErr result (IsTextFault page_text (ends_of
        (R.left reader.old) (R.left reader.new) (R.failed reader.new) (R.ended reader.new)
        (W.taken writer.old) (W.taken writer.new) (W.failed writer.new))) }
{
    let file = read_placed(alloc, reader, JsonForm::InPage)?;
    Ok(write_page(&file, writer)?)
}

/// Writes the page of a file. Does not allocate.
fn write_page<A: Allocator + Copy, W: Sink>(
    file: &PlacedFile<A>,
    writer: &mut W,
) -> Result<(), WriteFault>
    requires { length (page_of file.now.watcher.found.items (value_of file.now.value)) < 2 ^ 64 }
    ensures wrote { WroteAll W.taken W.failed writer.old writer.new
        (page_of file.now.watcher.found.items (value_of file.now.value)) result }
    ensures device { IfErr result IsDevice }
{
    let mut text = Text::new(writer);
    text.put(page_head());
    write_file(&mut text, JsonForm::InPage, file);
    text.put(page_tail());
    text.finish()
}

/// What begins every page.
#[tactic(auto, unfolding(crate::specs::Page::page_head))]
fn page_head() -> &'static [u8]
    ensures { result.now ≡ page_head }
{
    HEAD.as_bytes()
}

/// What ends every page.
#[tactic(auto, unfolding(crate::specs::Page::page_tail))]
fn page_tail() -> &'static [u8]
    ensures { result.now ≡ page_tail }
{
    TAIL.as_bytes()
}
