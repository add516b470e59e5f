//! The lines that tell what a loader or a processor will stumble over in the hunks of a file.

ghost use Rattle.std.specs.Prelude.{◌≡◌};
ghost use Rattle.std.specs.List.{enumerate_from, flat_map};
ghost use Rattle.hunk_base.specs.Text.{Puts};
ghost use Rattle.hunk_lint.specs.HunkLint.{hunkless_lints, load_hunk_lints, load_lints, load_site_lints, load_size, object_lints, target_lints, unit_hunk_lints, unit_lints, unit_site_lints, unit_size};

use crate::hunk_lint_lines::{HunkPlace, write_absent, write_odd, write_past, write_symbols};
use hunk_loadfile::LoadHunk;
use hunk_objects::{Adds, ProgramUnit, UnitHunk};
use hunk_words::{Sink, Sites, Text};
use std::alloc::Allocator;

/// Writes the lines about a load file with these hunks: of each hunk those about its sites, by rising
/// offset, and then those about its symbols, in file order.
///
/// A site has a line if its offset is odd: hunks are loaded at even addresses, and a 68000 cannot read a
/// longword at an odd one (M68000 User's Manual, "Exception Processing", address error). It has another
/// one if the longword there is larger than the size of the hunk whose base is added to it (The AmigaDOS
/// Manual, 3rd edition, "Amiga binary file structure", relocation blocks), since the sum then lies past
/// that hunk; what the file does not store of a hunk is zeros. A symbol has a line if its value is larger
/// than the size of its hunk. Offsets and sizes are in bytes, and the end of a hunk is not past it.
///
/// Takes time in proportion to the hunks, their sites and their symbols. Does not allocate.
pub(crate) fn write_load_lints<A: Allocator + Copy, W: Sink>(
    text: &mut Text<'_, W>,
    hunks: &[LoadHunk<A>],
)
    ensures { Puts W.taken W.failed text.old text.new (load_lints hunks.now) }
{
    for (number, hunk) in hunks.iter().enumerate() {
        write_load_hunk(text, hunks, number as u64, hunk);
    }
}

/// Writes the lines about one of these hunks, with its number.
fn write_load_hunk<A: Allocator + Copy, W: Sink>(
    text: &mut Text<'_, W>,
    hunks: &[LoadHunk<A>],
    number: u64,
    hunk: &LoadHunk<A>,
)
    ensures { Puts W.taken W.failed text.old text.new
        (load_hunk_lints hunks.now (number, hunk.now)) }
{
    let place = HunkPlace::InLoad { hunk: number };
    write_load_sites(text, hunks, place, &hunk.content, &hunk.sites);
    write_symbols(text, place, hunk.size, &hunk.symbols);
}

/// Writes the lines about the sites of one of these hunks, by rising offset.
fn write_load_sites<A: Allocator + Copy, W: Sink>(
    text: &mut Text<'_, W>,
    hunks: &[LoadHunk<A>],
    place: HunkPlace,
    content: &[u8],
    sites: &Sites<u32, A>,
)
    ensures { Puts W.taken W.failed text.old text.new
        (flat_map (load_site_lints hunks.now place content.now) sites.now.entries) }
{
    for (site, target) in sites.walk() {
        write_load_site(text, hunks, place, content, site, *target);
    }
}

/// Writes the lines about a site of one of these hunks.
fn write_load_site<A: Allocator + Copy, W: Sink>(
    text: &mut Text<'_, W>,
    hunks: &[LoadHunk<A>],
    place: HunkPlace,
    content: &[u8],
    site: u32,
    target: u32,
)
    ensures { Puts W.taken W.failed text.old text.new
        (load_site_lints hunks.now place content.now (site, target)) }
{
    write_odd(text, place, site);
    write_past(text, place, content, site, target, load_size(hunks, target));
}

/// The size, in longwords, of the hunk with this number, if there is one.
fn load_size<A: Allocator + Copy>(hunks: &[LoadHunk<A>], number: u32) -> Option<u32>
    ensures { result ≡ load_size hunks.now number }
{
    match hunks.get(number as usize) {
        Some(hunk) => Some(hunk.size),
        None => None,
    }
}

/// Writes the lines about an object file with these units: of each unit the one that it has no hunks, if it
/// has none, and then those about its hunks, as of a load file.
///
/// A site has a line too if the base of a hunk is added there that its unit does not have: a linker refuses
/// it. Of a site that adds a name only an odd offset is told. Does not allocate.
pub(crate) fn write_object_lints<A: Allocator + Copy, W: Sink>(
    text: &mut Text<'_, W>,
    units: &[ProgramUnit<A>],
)
    ensures { Puts W.taken W.failed text.old text.new (object_lints units.now) }
{
    for (number, unit) in units.iter().enumerate() {
        write_unit(text, number as u64, unit);
    }
}

/// Writes the lines about a unit, with its number.
fn write_unit<A: Allocator + Copy, W: Sink>(
    text: &mut Text<'_, W>,
    number: u64,
    unit: &ProgramUnit<A>,
)
    ensures { Puts W.taken W.failed text.old text.new (unit_lints (number, unit.now)) }
{
    let hunks = unit.hunks();
    write_hunkless(text, number, hunks.len() as u64);
    write_unit_hunks(text, number, hunks);
}

/// Writes the line that a unit has no hunks, if it has none: it has `count`.
fn write_hunkless<W: Sink>(text: &mut Text<'_, W>, unit: u64, count: u64)
    ensures { Puts W.taken W.failed text.old text.new (hunkless_lints unit count) }
{
    if count == 0 {
        text.put(b"unit ");
        text.put_decimal(unit);
        text.put(b": no hunks");
        text.end_line();
    }
}

/// Writes the lines about the hunks of the unit with this number.
fn write_unit_hunks<A: Allocator + Copy, W: Sink>(
    text: &mut Text<'_, W>,
    unit: u64,
    hunks: &[UnitHunk<A>],
)
    ensures { Puts W.taken W.failed text.old text.new
        (flat_map (unit_hunk_lints hunks.now unit) (enumerate_from 0 hunks.now)) }
{
    for (number, hunk) in hunks.iter().enumerate() {
        write_unit_hunk(text, hunks, unit, number as u64, hunk);
    }
}

/// Writes the lines about one of these hunks of a unit, with the numbers of both.
fn write_unit_hunk<A: Allocator + Copy, W: Sink>(
    text: &mut Text<'_, W>,
    hunks: &[UnitHunk<A>],
    unit: u64,
    number: u64,
    hunk: &UnitHunk<A>,
)
    ensures { Puts W.taken W.failed text.old text.new
        (unit_hunk_lints hunks.now unit (number, hunk.now)) }
{
    let place = HunkPlace::InUnit { unit, hunk: number };
    write_unit_sites(text, hunks, place, hunk.content(), hunk.sites());
    write_symbols(text, place, hunk.size(), hunk.symbols());
}

/// Writes the lines about the sites of one of these hunks, by rising offset.
fn write_unit_sites<A: Allocator + Copy, W: Sink>(
    text: &mut Text<'_, W>,
    hunks: &[UnitHunk<A>],
    place: HunkPlace,
    content: &[u8],
    sites: &Sites<Adds, A>,
)
    ensures { Puts W.taken W.failed text.old text.new
        (flat_map (unit_site_lints hunks.now place content.now) sites.now.entries) }
{
    for (site, adds) in sites.walk() {
        write_unit_site(text, hunks, place, content, site, *adds);
    }
}

/// Writes the lines about a site of one of these hunks.
fn write_unit_site<A: Allocator + Copy, W: Sink>(
    text: &mut Text<'_, W>,
    hunks: &[UnitHunk<A>],
    place: HunkPlace,
    content: &[u8],
    site: u32,
    adds: Adds,
)
    ensures { Puts W.taken W.failed text.old text.new
        (unit_site_lints hunks.now place content.now (site, adds)) }
{
    write_odd(text, place, site);
    write_target(text, hunks, place, content, site, adds);
}

/// Writes the lines about what is added at a site of one of these hunks.
fn write_target<A: Allocator + Copy, W: Sink>(
    text: &mut Text<'_, W>,
    hunks: &[UnitHunk<A>],
    place: HunkPlace,
    content: &[u8],
    site: u32,
    adds: Adds,
)
    ensures { Puts W.taken W.failed text.old text.new
        (target_lints hunks.now place content.now site adds) }
{
    match adds {
        Adds::Hunk(target) => {
            write_past(text, place, content, site, target, unit_size(hunks, target));
            write_absent(text, place, site, target, hunks.len() as u64);
        }
        Adds::Reference(_) => {}
    }
}

/// The size, in longwords, of the hunk with this number, if there is one.
fn unit_size<A: Allocator + Copy>(hunks: &[UnitHunk<A>], number: u32) -> Option<u32>
    ensures { result ≡ unit_size hunks.now number }
{
    match hunks.get(number as usize) {
        Some(hunk) => Some(hunk.size()),
        None => None,
    }
}
