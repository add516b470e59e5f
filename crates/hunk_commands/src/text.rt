//! The requests that print a text about a file.
ghost use Rattle.std.specs.Prelude.{IfErr, IsTrue, OnOk};
ghost use Rattle.hunk_base.specs.Streams.{HasRead};
ghost use Rattle.hunk_tool.specs.FileText.{IsTextFault, IsWritten};
ghost use Rattle.hunk_tool.specs.Load.{ends_of};
ghost use Rattle.hunk_store.specs.Output.{printed_of};
ghost use Rattle.hunk_commands.specs.Text.{IsTextFailure, IsTold, text_of};

use crate::devices::flush;
use hunk_json::{JsonForm, json_run, json_run_with, page_run};
use hunk_lint::lint_run;
use hunk_store::{Failure, Output, Store, open};
use hunk_tool::{ToolFault, check_run, show_run};
use hunk_words::{Sink, Source};
use std::alloc::Global;

/// A text about a file.
#[derive(Clone, Copy)]
pub enum Text {
    /// One line: the kind of the file, and how many units and hunks it has.
    Line,
    /// The same line, and then one for each thing in the file that is ignored or likely to be a mistake.
    Lint,
    /// What is in it.
    Shown(ShowText),
}

/// A text about what is in a file.
#[derive(Clone, Copy)]
pub enum ShowText {
    /// A listing of its units and hunks, and of what is in them.
    Listing,
    /// What the listing tells, as one JSON document.
    Json,
    /// Likewise, with the stored bytes of each hunk, and where they stand in the file.
    JsonWithContent,
    /// A page of HTML that shows all of this.
    Page,
}

/// Reads the file named `file`, and prints the text about it.
///
/// # Errors
///
/// - [`Failure::Opening`] if the file cannot be opened.
/// - [`Failure::Tool`] with what [`print_text_to`] returns.
/// - [`Failure::Printing`] if the output did not pass on all of the text.
pub fn print_text<'a, S: Store, O: Output>(
    alloc: Global,
    store: &S,
    output: &mut O,
    text: Text,
    file: &'a str,
) -> Result<(), Failure<'a>>
    ensures ok { OnOk result (IsTold text (S.content store.now) file.entry.now
        (printed_of O.taken O.failed O.waiting output.old output.new)) }
    ensures err { IfErr result (IsTextFailure text (S.content store.now) file.entry.now
        (printed_of O.taken O.failed O.waiting output.old output.new)) }
{
    let mut reader = open(store, file)?;
    print_text_to(alloc, text, &mut reader, output)?;
    flush(output)
}

/// Writes the text about the file that is read from `reader`, to its end.
///
/// # Errors
///
/// Those of [`check_run`] for a line, of [`lint_run`] for more of them, of [`show_run`] for a listing, of
/// [`json_run`] and [`json_run_with`] for a document, and of [`page_run`] for a page.
pub fn print_text_to<R: Source, W: Sink>(
    alloc: Global,
    text: Text,
    reader: &mut R,
    writer: &mut W,
) -> Result<(), ToolFault>
    ensures ok { OnOk result (HasRead (R.left reader.old) (R.left reader.new)
        (IsWritten (text_of text) (W.taken writer.old) (W.taken writer.new))) }
    ensures ended { OnOk result (IsTrue (R.ended reader.new)) }
    ensures err { IfErr result (IsTextFault (text_of text) (ends_of
        (R.left reader.old) (R.left reader.new) (R.failed reader.new) (R.ended reader.new)
        (W.taken writer.old) (W.taken writer.new) (W.failed writer.new))) }
{
    match text {
        Text::Line => check_run(alloc, reader, writer),
        Text::Lint => lint_run(alloc, reader, writer),
        Text::Shown(ShowText::Listing) => show_run(alloc, reader, writer),
        Text::Shown(ShowText::Json) => json_run(alloc, reader, writer),
        Text::Shown(ShowText::JsonWithContent) => {
            json_run_with(alloc, reader, JsonForm::WithContent, writer)
        }
        Text::Shown(ShowText::Page) => page_run(alloc, reader, writer),
    }
}
