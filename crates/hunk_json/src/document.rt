//! What has a JSON value, and how its text is written.

ghost use Rattle.std.specs.Prelude.{◌≡◌, ℕ, List, drop, slice_index};
ghost use Rattle.std.specs.Str.{IsUtf8};
ghost use Rattle.serde_json.specs.Data.{Data};
ghost use Rattle.serde_json.specs.Written.{comma_if, compact_text};
ghost use Rattle.hunk_base.specs.Text.{Puts};
ghost use Rattle.hunk_json.specs.Document.{document};
ghost use Rattle.hunk_json.specs.FileJson.{hunks_json, listed, natural};
ghost use Rattle.hunk_json.specs.declared.form.JsonForm.{JsonForm};

use crate::form::JsonForm;
use hunk_words::{Sink, Text};

/// A part of a file that has a JSON value.
pub(crate) trait WriteJson {
    ghost json: { JsonForm → Self → Data };

    /// Writes the JSON text of the part.
    fn write_json<W: Sink>(&self, text: &mut Text<'_, W>, form: JsonForm)
        ensures puts { Puts W.taken W.failed text.old text.new
            (document form (json form self.now)) }
        ensures utf8 { IsUtf8 (compact_text (json form self.now)) };
}

/// Writes the array of the values of these parts.
pub(crate) fn write_list<T: WriteJson, W: Sink>(text: &mut Text<'_, W>, form: JsonForm, parts: &[T])
    ensures { Puts W.taken W.failed text.old text.new
        (document form (listed (T.json form) parts.now)) }
{
    text.put(b"[");
    let mut later = false;
    for part in parts {
        write_comma(text, later);
        part.write_json(text, form);
        later = true;
    }
    text.put(b"]");
}

/// A hunk, which has a JSON value with the offset at which its content begins in the file.
pub(crate) trait WriteHunk {
    ghost json: { JsonForm → ℕ → Self → Data };

    /// Writes the JSON text of the hunk.
    fn write_hunk<W: Sink>(&self, text: &mut Text<'_, W>, form: JsonForm, offset: u32)
        ensures puts { Puts W.taken W.failed text.old text.new
            (document form (json form offset self.now)) }
        ensures utf8 { IsUtf8 (compact_text (json form offset self.now)) };
}

/// Writes the array of the values of these hunks, each with the next of these offsets, or with 0 where
/// there is none.
pub(crate) fn write_hunks<T: WriteHunk, W: Sink>(
    text: &mut Text<'_, W>,
    form: JsonForm,
    offsets: &[u32],
    hunks: &[T],
)
    ensures { Puts W.taken W.failed text.old text.new
        (document form (hunks_json (T.json form) offsets.now hunks.now)) }
{
    text.put(b"[");
    let mut later = false;
    let mut left = offsets;
    for hunk in hunks {
        write_comma(text, later);
        hunk.write_hunk(text, form, first_offset(left));
        left = offsets_behind(left, 1);
        later = true;
    }
    text.put(b"]");
}

/// The first of these offsets, or 0.
fn first_offset(offsets: &[u32]) -> u32
    ensures { result ≡ slice_index offsets.now 0 }
{
    match offsets.first() {
        Some(offset) => *offset,
        None => 0,
    }
}

/// The offsets behind this many of them.
pub(crate) fn offsets_behind(offsets: &[u32], count: usize) -> &[u32]
    ensures { result.now ≡ drop count offsets.now }
{
    if count < offsets.len() {
        &offsets[count..]
    } else {
        &[]
    }
}

/// Writes the comma before an element of an array, unless it is the first.
pub(crate) fn write_comma<W: Sink>(text: &mut Text<'_, W>, later: bool)
    ensures { Puts W.taken W.failed text.old text.new (comma_if later) }
{
    if later {
        text.put(b",");
    }
}
