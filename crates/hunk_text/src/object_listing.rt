//! The listing of an object file.

ghost use Rattle.std.specs.Prelude.{◌≡◌, ◌++◌, ◌<◌, ◌^◌, [], get_or, sum_by};
ghost use Rattle.std.specs.List.{enumerate_from, flat_map};
ghost use Rattle.hunk_base.specs.Digits.{eight_digits};
ghost use Rattle.hunk_base.specs.Text.{Puts};
ghost use Rattle.hunk_objects.specs.ProgramUnit.{hunk_count};
ghost use Rattle.hunk_text.specs.Listing.{adds_text, definition_line, definition_text, object_listing, site_line, unit_hunk_line, unit_hunk_lines, unit_line, unit_lines, unit_site_lines};

use crate::first_line::write_object_line;
use crate::hunk_lines::{write_debug_lines, write_hunk_front, write_hunk_site};
use hunk_objects::{Adds, Definition, ProgramUnit, UnitHunk, hunk_total};
use hunk_words::{Name, Sink, Text};
use std::alloc::Allocator;

/// Writes the listing of an object file with these units: the line of the file, and then for each
/// unit the line of its number and name, followed by the lines of its hunks. A hunk has the line of
/// its number in the unit, kind, memory, size in longwords and name, and then a line for each site,
/// by rising offset, each definition, each symbol and each debug block, in file order. Does not
/// allocate.
pub fn write_object_listing<A: Allocator + Copy, W: Sink>(
    text: &mut Text<'_, W>,
    units: &[ProgramUnit<A>],
)
    requires { sum_by hunk_count units.now < 2 ^ 64 }
    ensures { Puts W.taken W.failed text.old text.new (object_listing units.now) }
{
    write_object_line(text, units.len() as u64, hunk_total(units));
    write_units(text, units);
}

/// Writes the lines of these units, which are numbered from 0.
fn write_units<A: Allocator + Copy, W: Sink>(text: &mut Text<'_, W>, units: &[ProgramUnit<A>])
    ensures { Puts W.taken W.failed text.old text.new
        (flat_map unit_lines (enumerate_from 0 units.now)) }
{
    for (number, unit) in units.iter().enumerate() {
        write_unit(text, number as u64, unit);
    }
}

/// Writes all lines of a unit.
fn write_unit<A: Allocator + Copy, W: Sink>(
    text: &mut Text<'_, W>,
    number: u64,
    unit: &ProgramUnit<A>,
)
    ensures { Puts W.taken W.failed text.old text.new (unit_lines (number, unit.now)) }
{
    write_unit_line(text, number, unit.name().bytes());
    write_hunks(text, unit.hunks());
}

/// Writes the first line of a unit with this name.
fn write_unit_line<W: Sink>(text: &mut Text<'_, W>, number: u64, name: &[u8])
    ensures { Puts W.taken W.failed text.old text.new (unit_line number name.now) }
{
    text.put(b"unit ");
    text.put_decimal(number);
    text.put(b" ");
    text.put_quoted(name);
    text.end_line();
}

/// Writes the lines of the hunks of a unit, which are numbered from 0.
fn write_hunks<A: Allocator + Copy, W: Sink>(text: &mut Text<'_, W>, hunks: &[UnitHunk<A>])
    ensures { Puts W.taken W.failed text.old text.new
        (flat_map unit_hunk_lines (enumerate_from 0 hunks.now)) }
{
    for (number, hunk) in hunks.iter().enumerate() {
        write_hunk(text, number as u64, hunk);
    }
}

/// Writes all lines of a hunk.
fn write_hunk<A: Allocator + Copy, W: Sink>(text: &mut Text<'_, W>, number: u64, hunk: &UnitHunk<A>)
    ensures { Puts W.taken W.failed text.old text.new (unit_hunk_lines (number, hunk.now)) }
{
    write_hunk_line(text, number, hunk);
    write_sites(text, hunk);
    write_definitions(text, hunk.definitions());
    write_debug_lines(text, hunk.symbols(), hunk.debugs());
}

/// Writes the first line of a hunk.
fn write_hunk_line<A: Allocator + Copy, W: Sink>(
    text: &mut Text<'_, W>,
    number: u64,
    hunk: &UnitHunk<A>,
)
    ensures { Puts W.taken W.failed text.old text.new (unit_hunk_line number hunk.now) }
{
    write_hunk_front(text, number, hunk.kind(), hunk.memory(), hunk.size());
    text.put(b" ");
    text.put_quoted(hunk.name().bytes());
    text.end_line();
}

/// Writes a line for each site of a hunk, by rising offset.
fn write_sites<A: Allocator + Copy, W: Sink>(text: &mut Text<'_, W>, hunk: &UnitHunk<A>)
    ensures { Puts W.taken W.failed text.old text.new (unit_site_lines hunk.now) }
{
    let references = hunk.references();
    for (offset, adds) in hunk.sites().walk() {
        write_site(text, offset, *adds, references);
    }
}

/// Writes the line of a site of a hunk with these references.
fn write_site<A: Allocator + Copy, W: Sink>(
    text: &mut Text<'_, W>,
    offset: u32,
    adds: Adds,
    references: &[Name<A>],
)
    ensures { Puts W.taken W.failed text.old text.new
        (site_line offset (adds_text references.now adds)) }
{
    match adds {
        Adds::Hunk(hunk) => write_hunk_site(text, offset, hunk),
        Adds::Reference(index) => {
            text.put(b"  ");
            text.put_longword(offset);
            text.put(b" adds ");
            text.put_quoted(name_at(references, index));
            text.end_line();
        }
    }
}

/// The name with this index, empty if there is none.
fn name_at<A: Allocator + Copy>(names: &[Name<A>], index: u32) -> &[u8]
    ensures { result.now ≡ get_or names.now index [] }
{
    match names.get(index as usize) {
        Some(name) => name.bytes(),
        None => b"",
    }
}

/// Writes a line for each definition, in their order.
pub fn write_definitions<A: Allocator + Copy, W: Sink>(
    text: &mut Text<'_, W>,
    definitions: &[(Name<A>, Definition)],
)
    ensures { Puts W.taken W.failed text.old text.new (flat_map definition_line definitions.now) }
{
    for definition in definitions {
        write_definition(text, definition);
    }
}

/// Writes the line of a definition.
fn write_definition<A: Allocator + Copy, W: Sink>(
    text: &mut Text<'_, W>,
    definition: &(Name<A>, Definition),
)
    ensures { Puts W.taken W.failed text.old text.new (definition_line definition.now) }
{
    let (word, number) = definition_parts(definition.1);
    text.put(b"  define ");
    text.put_quoted(definition.0.bytes());
    text.put(word);
    text.put_longword(number);
    text.end_line();
}

/// The word between a name and what it stands for, and the offset or number that it stands for.
fn definition_parts(definition: Definition) -> (&'static [u8], u32)
    ensures { result.0.now ++ eight_digits result.1 ≡ definition_text definition }
{
    match definition {
        Definition::At(offset) => (b" at ", offset),
        Definition::Absolute(number) => (b" as ", number),
    }
}
