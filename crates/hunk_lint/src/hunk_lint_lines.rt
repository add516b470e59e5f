//! The lines that tell what is wrong with a site or a symbol of a hunk, of either kind of file.

ghost use Rattle.std.specs.Prelude.{◌≡◌, ◌*◌, slice_index};
ghost use Rattle.std.specs.List.{flat_map};
ghost use Rattle.hunk_base.specs.Text.{Puts};
ghost use Rattle.hunk_lint.specs.HunkLintLines.{absent_lints, bytes_text, hunk_text, odd_lints, past_line, past_lints, place_text, pointed_to, site_text, symbol_lints};

use byteorder::{BigEndian, ByteOrder};
use hunk_words::{Name, Sink, Text};
use std::alloc::Allocator;

/// The hunk that a line is about. Hunks and units are counted from 0.
#[derive(Clone, Copy)]
pub(crate) enum HunkPlace {
    /// This hunk of a load file.
    InLoad { hunk: u64 },
    /// This hunk of this unit of an object file.
    InUnit { unit: u64, hunk: u64 },
}

/// Writes the line that a site is at an odd offset, if it is.
pub(crate) fn write_odd<W: Sink>(text: &mut Text<'_, W>, place: HunkPlace, site: u32)
    ensures { Puts W.taken W.failed text.old text.new (odd_lints place site) }
{
    if site % 2 == 1 {
        write_site(text, place, site);
        text.put(b" is at an odd offset");
        text.end_line();
    }
}

/// Writes the line that a site points past its target, if there is the target and it does. The size is
/// that of the target, in longwords.
pub(crate) fn write_past<W: Sink>(
    text: &mut Text<'_, W>,
    place: HunkPlace,
    content: &[u8],
    site: u32,
    target: u32,
    size: Option<u32>,
)
    ensures { Puts W.taken W.failed text.old text.new
        (past_lints place content.now site target size) }
{
    if let Some(size) = size {
        let offset = pointed_to(content, site);
        if u64::from(offset) > byte_count(size) {
            write_past_line(text, place, site, offset, target, size);
        }
    }
}

/// Writes the line that a site points to an offset past its target.
fn write_past_line<W: Sink>(
    text: &mut Text<'_, W>,
    place: HunkPlace,
    site: u32,
    offset: u32,
    target: u32,
    size: u32,
)
    ensures { Puts W.taken W.failed text.old text.new (past_line place site offset target size) }
{
    write_site(text, place, site);
    text.put(b" points to ");
    text.put_longword(offset);
    text.put(b" of hunk ");
    text.put_decimal(u64::from(target));
    write_bytes(text, size);
    text.end_line();
}

/// Writes the line that a site adds the base of a hunk that its unit, of `count` hunks, does not have,
/// if it does.
pub(crate) fn write_absent<W: Sink>(
    text: &mut Text<'_, W>,
    place: HunkPlace,
    site: u32,
    target: u32,
    count: u64,
)
    ensures { Puts W.taken W.failed text.old text.new (absent_lints place site target count) }
{
    if count <= u64::from(target) {
        write_site(text, place, site);
        text.put(b" adds hunk ");
        text.put_decimal(u64::from(target));
        text.put(b", and the unit has ");
        text.put_decimal(count);
        text.put(b" hunks");
        text.end_line();
    }
}

/// Writes a line for each symbol past its hunk, whose size is in longwords.
pub(crate) fn write_symbols<A: Allocator + Copy, W: Sink>(
    text: &mut Text<'_, W>,
    place: HunkPlace,
    size: u32,
    symbols: &[(Name<A>, u32)],
)
    ensures { Puts W.taken W.failed text.old text.new
        (flat_map (symbol_lints place size) symbols.now) }
{
    for symbol in symbols {
        write_symbol(text, place, size, symbol);
    }
}

/// Writes the line that a symbol is past its hunk, whose size is in longwords, if it is.
fn write_symbol<A: Allocator + Copy, W: Sink>(
    text: &mut Text<'_, W>,
    place: HunkPlace,
    size: u32,
    symbol: &(Name<A>, u32),
)
    ensures { Puts W.taken W.failed text.old text.new (symbol_lints place size symbol.now) }
{
    if u64::from(symbol.1) > byte_count(size) {
        write_place(text, place);
        text.put(b"symbol ");
        text.put_quoted(symbol.0.bytes());
        text.put(b" ");
        text.put_longword(symbol.1);
        text.put(b" is past the hunk");
        write_bytes(text, size);
        text.end_line();
    }
}

/// Writes how a line about a site begins.
fn write_site<W: Sink>(text: &mut Text<'_, W>, place: HunkPlace, site: u32)
    ensures { Puts W.taken W.failed text.old text.new (site_text place site) }
{
    write_place(text, place);
    text.put(b"site ");
    text.put_longword(site);
}

/// Writes how a line about a hunk begins.
fn write_place<W: Sink>(text: &mut Text<'_, W>, place: HunkPlace)
    ensures { Puts W.taken W.failed text.old text.new (place_text place) }
{
    match place {
        HunkPlace::InLoad { hunk } => write_hunk(text, hunk),
        HunkPlace::InUnit { unit, hunk } => {
            text.put(b"unit ");
            text.put_decimal(unit);
            text.put(b" ");
            write_hunk(text, hunk);
        }
    }
}

/// Writes how a line about the hunk with this number begins, after its unit if it has one.
fn write_hunk<W: Sink>(text: &mut Text<'_, W>, number: u64)
    ensures { Puts W.taken W.failed text.old text.new (hunk_text number) }
{
    text.put(b"hunk ");
    text.put_decimal(number);
    text.put(b": ");
}

/// Writes how a line ends that tells the size of a hunk, given in longwords.
fn write_bytes<W: Sink>(text: &mut Text<'_, W>, size: u32)
    ensures { Puts W.taken W.failed text.old text.new (bytes_text size) }
{
    text.put(b", which has ");
    text.put_decimal(byte_count(size));
    text.put(b" bytes");
}

/// The number of bytes of this many longwords.
fn byte_count(longwords: u32) -> u64
    ensures { result ≡ 4 * longwords }
{
    4 * u64::from(longwords)
}

/// The longword at a site: the offset that it has for its target. Bytes past the content are zeros.
fn pointed_to(content: &[u8], site: u32) -> u32
    ensures { result ≡ pointed_to content.now site }
{
    let at = site as usize;
    let bytes = [
        byte_at(content, at),
        byte_at(content, at + 1),
        byte_at(content, at + 2),
        byte_at(content, at + 3),
    ];
    BigEndian::read_u32(&bytes)
}

/// A byte of the content, or 0 after its end.
fn byte_at(content: &[u8], offset: usize) -> u8
    ensures { result ≡ slice_index content.now offset }
{
    if offset < content.len() {
        content[offset]
    } else {
        0
    }
}
