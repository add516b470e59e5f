//! The line that tells why a file cannot be opened or created.
ghost use Rattle.std.specs.Prelude.{◌≡◌};
ghost use Rattle.hunk_base.specs.Text.{Puts};
ghost use Rattle.hunk_commands.specs.Reason.{reason_line, reason_text};

use hunk_tool::OpenFault;
use hunk_words::{Sink, Text};

/// Writes the line that tells the reason, after two spaces; nothing if there is no reason to tell.
pub(crate) fn write_reason_line<W: Sink>(text: &mut Text<'_, W>, reason: OpenFault)
    ensures { Puts W.taken W.failed text.old text.new (reason_line reason) }
{
    match reason {
        OpenFault::Unknown => {}
        OpenFault::Other(number) => {
            text.put(b"  reason: system error ");
            text.put_decimal(u64::from(number));
            text.end_line();
        }
        known => {
            text.put(b"  reason: ");
            text.put(reason_text(known).as_bytes());
            text.end_line();
        }
    }
}

/// The words for a reason that has a name.
fn reason_text(reason: OpenFault) -> &'static str
    ensures { result.now ≡ reason_text reason }
{
    match reason {
        OpenFault::NotFound => "no such file or directory",
        OpenFault::NotAllowed => "not allowed",
        OpenFault::Directory => "it is a directory",
        OpenFault::NoDirectory => "a part of its path is no directory",
        OpenFault::TooManyLinks => "too many symbolic links",
        OpenFault::ReadOnly => "the file system is read-only",
        OpenFault::TooManyFiles => "too many open files",
        OpenFault::Other(_) | OpenFault::Unknown => "",
    }
}
