//! The line of text about a file.

ghost use Rattle.std.specs.Prelude.{◌++◌, codes};
ghost use Rattle.hex.specs.Hex.{encode_lower};
ghost use Rattle.hunk_base.specs.Text.{line, Puts};
ghost use Rattle.hunk_survey.specs.FindingLine.{finding_line, finding_text, load_text};

use crate::digest::Digest;
use crate::finding::Finding;
use hunk_text::{write_load_line, write_object_line};
use hunk_tool::{write_name, write_reason};
use hunk_words::{Fault, Sink, Text};

/// Writes the line about the file named `name`: the name as [`write_name`] writes it, `: `, and what
/// [`check_run`](hunk_tool::check_run) writes of the file, with its digest if that was found; or the
/// reason why there is nothing to write. It does not allocate.
pub fn write_finding<W: Sink>(text: &mut Text<'_, W>, name: &[u8], finding: Finding)
    ensures { Puts W.taken W.failed text.old text.new (finding_line name.now finding) }
{
    write_name(text, name);
    text.put(b": ");
    match finding {
        Finding::Object { units, hunks } => write_object_line(text, units, hunks),
        Finding::Load { hunks, digest } => write_load(text, hunks, digest),
        Finding::Refused(fault) => write_refused(text, fault),
        Finding::Unread => write_words(text, b"read failed"),
        Finding::Unopened => write_words(text, b"cannot be opened"),
        Finding::Directory => write_words(text, b"is a directory"),
        Finding::NotRegular => write_words(text, b"not a regular file"),
    }
}

/// Writes what is found of a load file.
fn write_load<W: Sink>(text: &mut Text<'_, W>, hunks: u64, digest: Option<Digest>)
    ensures { Puts W.taken W.failed text.old text.new (load_text hunks digest) }
{
    match digest {
        None => write_load_line(text, hunks),
        Some(digest) => {
            text.put(b"load file: ");
            text.put_decimal(hunks);
            text.put(b" hunks, SHA-256 ");
            put_digest(text, &digest);
            text.end_line();
        }
    }
}

/// Puts a digest in lower-case hexadecimal digits at the end of the text.
pub(crate) fn put_digest<W: Sink>(text: &mut Text<'_, W>, digest: &Digest)
    ensures { Puts W.taken W.failed text.old text.new (encode_lower digest.now) }
{
    let mut digits = [0; 64];
    // There are two places for each byte, so this can't fail.
    let _ = hex::encode_to_slice(*digest, &mut digits);
    text.put(&digits);
}

/// Writes the place and the reason of the first offence of a file.
fn write_refused<W: Sink>(text: &mut Text<'_, W>, fault: Fault)
    ensures { Puts W.taken W.failed text.old text.new (finding_text (Finding.Refused fault)) }
{
    text.put(b"longword ");
    text.put_decimal(fault.place);
    text.put(b": ");
    write_reason(text, fault.reason);
    text.end_line();
}

/// Writes these words, and the end of their line.
fn write_words<W: Sink>(text: &mut Text<'_, W>, words: &[u8])
    ensures { Puts W.taken W.failed text.old text.new (line words.now) }
{
    text.put(words);
    text.end_line();
}
