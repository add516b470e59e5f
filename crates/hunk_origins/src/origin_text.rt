//! The text that tells where a hunk is from.

ghost use Rattle.std.specs.Prelude.{map};
ghost use Rattle.hunk_base.specs.Text.{Puts};
ghost use Rattle.hunk_origins.specs.OriginText.{origin_text};

use crate::origins::Origin;
use hunk_tool::{FileName, name_at, write_name};
use hunk_words::{Sink, Text};
use std::alloc::Allocator;

/// Writes where a hunk is from: its file, its unit and its own number and name. `names` are those of
/// the files.
pub(crate) fn write_origin<'x, N: FileName, A: Allocator + Copy, W: Sink>(
    text: &mut Text<'_, W>,
    names: &'x [N],
    origin: &'x Origin<'x, A>,
)
    ensures { Puts W.taken W.failed text.old text.new
        (origin_text (map N.bytes names.now) origin.now) }
{
    write_name(text, name_at(names, origin.place.file));
    text.put(b" unit ");
    text.put_decimal(origin.place.number as u64);
    text.put(b" ");
    text.put_quoted(origin.unit.name().bytes());
    text.put(b" hunk ");
    text.put_decimal(origin.number as u64);
    text.put(b" ");
    text.put_quoted(origin.hunk.name().bytes());
}
