//! The lines that explain why units do not link.

ghost use Rattle.std.specs.Prelude.{map};
ghost use Rattle.hunk_base.specs.Text.{Puts};
ghost use Rattle.hunk_origins.specs.LinkExplanation.{first_line, known_place_line, more_line, place_line, told_text, use_line, uses_text};

use crate::link_explanation::{LinkExplanation, Place};
use crate::origin_text::write_origin;
use crate::origins::Origin;
use crate::undefined::{Use, Uses};
use hunk_tool::FileName;
use hunk_words::{Sink, Text};
use std::alloc::Allocator;

/// The most undefined names that are told; of the others, their number is.
const MOST_TOLD: usize = 100;

/// Writes lines, each after two spaces: for the hunk that the refusal is about, its unit's index in
/// the link and its number there, and its file and its unit in that file; where its name was first
/// defined; and each undefined name, in the order of the first references, with the number of
/// references, the first 100 of them and then how many more there are. `names` are those of the files.
/// It does not allocate.
pub fn write_link_explanation<N: FileName, A: Allocator + Copy, W: Sink>(
    text: &mut Text<'_, W>,
    names: &[N],
    explanation: &LinkExplanation<'_, A>,
)
    ensures { Puts W.taken W.failed text.old text.new
        (told_text (map N.bytes names.now) explanation.now) }
{
    write_place(text, names, &explanation.place);
    write_first(text, names, &explanation.first);
    write_uses(text, names, &explanation.undefined);
}

/// Writes the line of the hunk that a refusal is about, if it is known.
fn write_place<N: FileName, A: Allocator + Copy, W: Sink>(
    text: &mut Text<'_, W>,
    names: &[N],
    place: &Option<Place<'_, A>>,
)
    ensures { Puts W.taken W.failed text.old text.new
        (place_line (map N.bytes names.now) place.now) }
{
    if let Some(place) = place {
        write_known_place(text, names, place);
    }
}

/// Writes the line of the hunk that a refusal is about.
fn write_known_place<N: FileName, A: Allocator + Copy, W: Sink>(
    text: &mut Text<'_, W>,
    names: &[N],
    place: &Place<'_, A>,
)
    ensures { Puts W.taken W.failed text.old text.new
        (known_place_line (map N.bytes names.now) place.now) }
{
    text.put(b"  unit ");
    text.put_decimal(place.unit as u64);
    text.put(b" hunk ");
    text.put_decimal(u64::from(place.hunk));
    text.put(b": ");
    write_origin(text, names, &place.origin);
    text.end_line();
}

/// Writes the line of the first definition of a name, if there is one.
fn write_first<N: FileName, A: Allocator + Copy, W: Sink>(
    text: &mut Text<'_, W>,
    names: &[N],
    first: &Option<Origin<'_, A>>,
)
    ensures { Puts W.taken W.failed text.old text.new
        (first_line (map N.bytes names.now) first.now) }
{
    if let Some(origin) = first {
        text.put(b"  first defined in ");
        write_origin(text, names, origin);
        text.end_line();
    }
}

/// Writes the lines of undefined names.
fn write_uses<N: FileName, A: Allocator + Copy, W: Sink>(
    text: &mut Text<'_, W>,
    names: &[N],
    uses: &Uses<'_, A>,
)
    ensures { Puts W.taken W.failed text.old text.new (uses_text (map N.bytes names.now) uses.now) }
{
    for index in 0..MOST_TOLD {
        match uses.get(index) {
            Some((name, used)) => write_use(text, names, name, used),
            None => return,
        }
    }
    write_more(text, uses.len() - MOST_TOLD);
}

/// Writes the line of an undefined name.
fn write_use<N: FileName, A: Allocator + Copy, W: Sink>(
    text: &mut Text<'_, W>,
    names: &[N],
    name: &[u8],
    used: &Use<'_, A>,
)
    ensures { Puts W.taken W.failed text.old text.new
        (use_line (map N.bytes names.now) (name.now, used.now)) }
{
    text.put(b"  ");
    text.put_quoted(name);
    text.put(b", references: ");
    text.put_decimal(used.count);
    text.put(b", first in ");
    write_origin(text, names, &used.origin);
    text.end_line();
}

/// Writes how many more undefined names there are, if there are any.
fn write_more<W: Sink>(text: &mut Text<'_, W>, count: usize)
    ensures { Puts W.taken W.failed text.old text.new (more_line count) }
{
    if count > 0 {
        text.put(b"  and ");
        text.put_decimal(count as u64);
        text.put(b" more");
        text.end_line();
    }
}
