//! How many files are what, and the lines that tell so.

ghost use Rattle.std.specs.Prelude.{◌≡◌, ◌∷◌, ◌++◌, ◌+◌, [], List, if◌then◌else◌};
ghost use Rattle.hunk_base.specs.Text.{counted_to, Puts};
ghost use Rattle.hunk_survey.specs.Tally.{files_line, refused_line, tally_of, tally_status, totals_text};
ghost use Rattle.hunk_survey.specs.declared.finding.Finding.{Finding};

use crate::finding::Finding;
use hunk_words::{Sink, Text};

/// How many files are what. A number that is too large for its counter stays at 2^64 - 1.
#[derive(Clone, Copy, Debug, PartialEq, Eq)]
pub struct Tally {
    files: u64,
    objects: u64,
    loads: u64,
    refused: u64,
    strangers: u64,
    unreadable: u64,
}

impl Tally {
    /// The tally of no file.
    pub fn new() -> Tally
        ensures { result ≡ tally_of [] }
    {
        Tally {
            files: 0,
            objects: 0,
            loads: 0,
            refused: 0,
            strangers: 0,
            unreadable: 0,
        }
    }

    /// Counts one more file, of which this was found.
    pub fn add(&mut self, finding: Finding)
        ensures { (findings : List Finding) → self.old ≡ tally_of findings →
            self.new ≡ tally_of (findings ++ finding ∷ []) }
    {
        self.files = counted(self.files, true);
        self.objects = counted(self.objects, finding.is_object());
        self.loads = counted(self.loads, finding.is_load());
        self.refused = counted(self.refused, finding.is_refused());
        self.strangers = counted(self.strangers, finding.is_stranger());
        self.unreadable = counted(self.unreadable, finding.is_unreadable());
    }

    /// The exit status after a survey: 0 if all files are hunk files, 3 if one could not be read, and
    /// otherwise 1.
    pub fn status(&self) -> u8
        ensures { result ≡ tally_status self.now }
    {
        if self.unreadable > 0 {
            3
        } else if self.refused > 0 {
            1
        } else {
            0
        }
    }
}

/// The counter after one more file, which counts or does not.
fn counted(counter: u64, counts: bool) -> u64
    ensures { result ≡ (if counts then counted_to (counter + 1) else counter) }
{
    if counts {
        counter.saturating_add(1)
    } else {
        counter
    }
}

/// Writes the last two lines of a survey: the number of files, and how many of them are object files,
/// load files, refused and unreadable; and how many of the refused files do not even begin as hunk files
/// do. It does not allocate.
pub fn write_totals<W: Sink>(text: &mut Text<'_, W>, tally: Tally)
    ensures { Puts W.taken W.failed text.old text.new (totals_text tally) }
{
    write_files(text, tally);
    write_refused(text, tally);
}

/// Writes the line with the number of files, and how many are of each kind.
fn write_files<W: Sink>(text: &mut Text<'_, W>, tally: Tally)
    ensures { Puts W.taken W.failed text.old text.new (files_line tally) }
{
    text.put_decimal(tally.files);
    text.put(b" files: ");
    text.put_decimal(tally.objects);
    text.put(b" object files, ");
    text.put_decimal(tally.loads);
    text.put(b" load files, ");
    text.put_decimal(tally.refused);
    text.put(b" refused, ");
    text.put_decimal(tally.unreadable);
    text.put(b" unreadable");
    text.end_line();
}

/// Writes the line that tells how many of the refused files are no hunk files.
fn write_refused<W: Sink>(text: &mut Text<'_, W>, tally: Tally)
    ensures { Puts W.taken W.failed text.old text.new (refused_line tally) }
{
    text.put_decimal(tally.refused);
    text.put(b" refused, of which ");
    text.put_decimal(tally.strangers);
    text.put(b" are no hunk files");
    text.end_line();
}
