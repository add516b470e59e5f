//! The listing of a load file.

ghost use Rattle.std.specs.List.{enumerate_from, flat_map};
ghost use Rattle.hunk_base.specs.Text.{Puts};
ghost use Rattle.hunk_text.specs.Listing.{adds_hunk, load_hunk_line, load_hunk_lines, load_listing, site_line};

use crate::first_line::write_load_line;
use crate::hunk_lines::{write_debug_lines, write_hunk_front, write_hunk_site};
use hunk_loadfile::LoadHunk;
use hunk_words::{Sink, Sites, Text};
use std::alloc::Allocator;

/// Writes the listing of a load file with these hunks: the line of the file, and then for each hunk
/// the line of its number, kind, memory, size in longwords and number of longwords that the file has
/// for it, followed by a line for each site, by rising offset, each symbol and each debug block, in
/// file order. Does not allocate.
pub fn write_load_listing<A: Allocator + Copy, W: Sink>(
    text: &mut Text<'_, W>,
    hunks: &[LoadHunk<A>],
)
    ensures { Puts W.taken W.failed text.old text.new (load_listing hunks.now) }
{
    write_load_line(text, hunks.len() as u64);
    write_hunks(text, hunks);
}

/// Writes the lines of these hunks, which are numbered from 0.
fn write_hunks<A: Allocator + Copy, W: Sink>(text: &mut Text<'_, W>, hunks: &[LoadHunk<A>])
    ensures { Puts W.taken W.failed text.old text.new
        (flat_map load_hunk_lines (enumerate_from 0 hunks.now)) }
{
    for (number, hunk) in hunks.iter().enumerate() {
        write_hunk(text, number as u64, hunk);
    }
}

/// Writes all lines of a hunk.
fn write_hunk<A: Allocator + Copy, W: Sink>(text: &mut Text<'_, W>, number: u64, hunk: &LoadHunk<A>)
    ensures { Puts W.taken W.failed text.old text.new (load_hunk_lines (number, hunk.now)) }
{
    write_hunk_line(text, number, hunk);
    write_sites(text, &hunk.sites);
    write_debug_lines(text, &hunk.symbols, &hunk.debugs);
}

/// Writes the first line of a hunk.
fn write_hunk_line<A: Allocator + Copy, W: Sink>(
    text: &mut Text<'_, W>,
    number: u64,
    hunk: &LoadHunk<A>,
)
    ensures { Puts W.taken W.failed text.old text.new (load_hunk_line number hunk.now) }
{
    write_hunk_front(text, number, hunk.kind, hunk.memory, hunk.size);
    text.put(b", ");
    text.put_decimal((hunk.content.len() / 4) as u64);
    text.put(b" stored");
    text.end_line();
}

/// Writes a line for each site, by rising offset.
fn write_sites<A: Allocator + Copy, W: Sink>(text: &mut Text<'_, W>, sites: &Sites<u32, A>)
    ensures { Puts W.taken W.failed text.old text.new
        (flat_map (λ site. site_line site.0 (adds_hunk site.1)) sites.now.entries) }
{
    for (offset, hunk) in sites.walk() {
        write_hunk_site(text, offset, *hunk);
    }
}
