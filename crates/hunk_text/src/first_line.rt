//! The line of what a file is, which begins its listing.

ghost use Rattle.hunk_base.specs.Text.{Puts};
ghost use Rattle.hunk_text.specs.Listing.{load_line, object_line};

use hunk_words::{Sink, Text};

/// Writes the line of an object file, with its numbers of units and of the hunks of all units.
pub fn write_object_line<W: Sink>(text: &mut Text<'_, W>, units: u64, hunks: u64)
    ensures { Puts W.taken W.failed text.old text.new (object_line units hunks) }
{
    text.put(b"object file: ");
    text.put_decimal(units);
    text.put(b" units, ");
    text.put_decimal(hunks);
    text.put(b" hunks");
    text.end_line();
}

/// Writes the line of a load file, with its number of hunks.
pub fn write_load_line<W: Sink>(text: &mut Text<'_, W>, hunks: u64)
    ensures { Puts W.taken W.failed text.old text.new (load_line hunks) }
{
    text.put(b"load file: ");
    text.put_decimal(hunks);
    text.put(b" hunks");
    text.end_line();
}
