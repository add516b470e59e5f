//! The lines that tell what hunks need, beside their addresses.

ghost use Rattle.hunk_base.specs.Text.{Puts};
ghost use Rattle.hunk_loader.specs.Sizes.{sizes_of};
ghost use Rattle.hunk_addresses.specs.PlacesText.{address_text, hunk_line, numbers_line, places_text};

use hunk_loadfile::LoadHunk;
use hunk_words::{Sink, Text};
use std::alloc::Allocator;

/// Writes lines, each after two spaces: the numbers of hunks and of addresses; and then for each hunk
/// its size in bytes, and its address if it has one. `bases` are addresses. It does not allocate.
pub fn write_places<A: Allocator + Copy, W: Sink>(
    text: &mut Text<'_, W>,
    hunks: &[LoadHunk<A>],
    bases: &[u32],
)
    ensures { Puts W.taken W.failed text.old text.new (places_text (sizes_of hunks.now) bases.now) }
{
    write_numbers(text, hunks.len() as u64, bases.len() as u64);
    for (number, hunk) in hunks.iter().enumerate() {
        write_hunk(text, number, hunk.size, bases);
    }
}

/// Writes the first line.
fn write_numbers<W: Sink>(text: &mut Text<'_, W>, hunks: u64, bases: u64)
    ensures { Puts W.taken W.failed text.old text.new (numbers_line hunks bases) }
{
    text.put(b"  hunks: ");
    text.put_decimal(hunks);
    text.put(b", addresses: ");
    text.put_decimal(bases);
    text.end_line();
}

/// Writes the line of the hunk with this number, which has this size in longwords.
fn write_hunk<W: Sink>(text: &mut Text<'_, W>, number: usize, size: u32, bases: &[u32])
    ensures { Puts W.taken W.failed text.old text.new (hunk_line bases.now (number, size)) }
{
    text.put(b"  hunk ");
    text.put_decimal(number as u64);
    text.put(b": ");
    text.put_decimal(4 * u64::from(size));
    text.put(b" bytes");
    write_address(text, bases, number);
    text.end_line();
}

/// Writes the address of the hunk with this number.
fn write_address<W: Sink>(text: &mut Text<'_, W>, bases: &[u32], number: usize)
    ensures { Puts W.taken W.failed text.old text.new (address_text bases.now number) }
{
    match bases.get(number) {
        Some(base) => {
            text.put(b" at ");
            text.put_longword(*base);
        }
        None => text.put(b", no address"),
    }
}
