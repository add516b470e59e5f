//! The names of files, as they stand in lines.

ghost use Rattle.std.specs.Prelude.{◌≡◌, drop};
ghost use Rattle.std.specs.List.{list_all, list_any, zip};
ghost use Rattle.hunk_base.specs.Text.{Puts};
ghost use Rattle.hunk_tool.specs.ShownName.{has_separator, is_clear, is_printable, shown_name};

use hunk_words::{Sink, Text};

/// Writes the name of a file so that it forges no line and that no terminal obeys it: as it is, if all of it
/// is printable ASCII and `: `, which ends a name in many lines, is not in it; and otherwise between quotes,
/// as the names in listings are.
pub fn write_name<W: Sink>(text: &mut Text<'_, W>, name: &[u8])
    ensures { Puts W.taken W.failed text.old text.new (shown_name name.now) }
{
    if is_clear(name) {
        text.put(name);
    } else {
        text.put_quoted(name);
    }
}

/// Whether the name of a file can stand in a line as it is.
fn is_clear(name: &[u8]) -> bool
    ensures { result ≡ is_clear name.now }
{
    is_all_printable(name) && !has_separator(name)
}

/// Whether all of the name of a file is printable ASCII.
fn is_all_printable(name: &[u8]) -> bool
    ensures { result ≡ list_all is_printable name.now }
{
    name.iter().all(|byte| is_printable(*byte))
}

/// Whether a byte is printable ASCII.
fn is_printable(byte: u8) -> bool
    ensures { result ≡ is_printable byte }
{
    matches!(byte, b' '..=b'~')
}

/// Whether a colon stands before a space in the name of a file.
fn has_separator(name: &[u8]) -> bool
    ensures { result ≡ has_separator name.now }
{
    let mut pairs = name.iter().zip(name.iter().skip(1));
    pairs.any(|(byte, next)| *byte == b':' && *next == b' ')
}
