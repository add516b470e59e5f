//! Object files as JSON.

ghost use Rattle.std.specs.Prelude.{◌≡◌, [], get_or};
ghost use Rattle.serde_json.specs.Data.{boolean};
ghost use Rattle.serde_json.specs.Written.{compact_text};
ghost use Rattle.hunk_base.specs.Text.{Puts};
ghost use Rattle.hunk_json.specs.Document.{document};
ghost use Rattle.hunk_json.specs.FileJson.{adds_json, definition_json, listed, object_json, sites_json, stands_for_json, unit_hunk_json, unit_json, units_at};

use crate::content::write_content;
use crate::document::{WriteHunk, WriteJson, offsets_behind, write_comma, write_hunks, write_list};
use crate::escapes::write_string;
use crate::form::JsonForm;
use crate::parts::{kind_word, memory_word, write_hunk_site, write_name};
use hunk_objects::{Adds, Definition, ProgramUnit, UnitHunk};
use hunk_words::{Name, Sink, Text};
use std::alloc::Allocator;

/// Writes what is in an object file with these units, as one JSON value in this form: what its
/// listing tells of each unit and of each hunk, in order. `offsets` are those at which the contents of
/// all hunks begin in the file, in order, for the forms that tell them; 0 is told where one is missing.
/// Does not allocate.
pub fn write_object_json<A: Allocator + Copy, W: Sink>(
    text: &mut Text<'_, W>,
    form: JsonForm,
    offsets: &[u32],
    units: &[ProgramUnit<A>],
)
    ensures { Puts W.taken W.failed text.old text.new
        (document form (object_json form offsets.now units.now)) }
{
    text.put(b"{\"kind\":\"object file\",\"units\":");
    write_units(text, form, offsets, units);
    text.put(b"}");
}

/// Writes the array of the values of these units, with the offsets of the contents of their hunks.
fn write_units<A: Allocator + Copy, W: Sink>(
    text: &mut Text<'_, W>,
    form: JsonForm,
    offsets: &[u32],
    units: &[ProgramUnit<A>],
)
    ensures { Puts W.taken W.failed text.old text.new
        (document form (listed (unit_json form) (units_at offsets.now units.now))) }
{
    text.put(b"[");
    let mut later = false;
    let mut left = offsets;
    for unit in units {
        write_comma(text, later);
        write_unit(text, form, left, unit);
        left = offsets_behind(left, unit.hunks().len());
        later = true;
    }
    text.put(b"]");
}

/// Writes a unit, with the offsets of the contents from its first hunk on.
fn write_unit<A: Allocator + Copy, W: Sink>(
    text: &mut Text<'_, W>,
    form: JsonForm,
    offsets: &[u32],
    unit: &ProgramUnit<A>,
)
    ensures { Puts W.taken W.failed text.old text.new
        (document form (unit_json form (offsets.now, unit.now))) }
{
    text.put(b"{\"hunks\":");
    write_hunks(text, form, offsets, unit.hunks());
    text.put(b",\"name\":");
    write_name(text, form, unit.name().bytes());
    text.put(b"}");
}

impl<A: Allocator + Copy> WriteHunk for UnitHunk<A> {
    ghost json = { unit_hunk_json };

    fn write_hunk<W: Sink>(&self, text: &mut Text<'_, W>, form: JsonForm, offset: u32) {
        text.put(b"{\"debugs\":");
        write_list(text, form, self.debugs());
        text.put(b",\"definitions\":");
        write_list(text, form, self.definitions());
        text.put(b",\"kind\":");
        write_string(text, form, kind_word(self.kind()));
        text.put(b",\"memory\":");
        write_string(text, form, memory_word(self.memory()));
        text.put(b",\"name\":");
        write_name(text, form, self.name().bytes());
        text.put(b",\"sites\":");
        write_sites(text, form, self);
        text.put(b",\"size\":");
        text.put_decimal(u64::from(self.size()));
        write_content(text, form, offset, self.content());
        text.put(b",\"symbols\":");
        write_list(text, form, self.symbols());
        text.put(b"}");
    }
}

/// Writes the sites of a hunk, by rising offset.
fn write_sites<A: Allocator + Copy, W: Sink>(
    text: &mut Text<'_, W>,
    form: JsonForm,
    hunk: &UnitHunk<A>,
)
    ensures { Puts W.taken W.failed text.old text.new (document form (sites_json hunk.now)) }
{
    let references = hunk.references();
    text.put(b"[");
    let mut later = false;
    for (offset, adds) in hunk.sites().walk() {
        write_comma(text, later);
        write_site(text, form, references, offset, *adds);
        later = true;
    }
    text.put(b"]");
}

/// Writes a site to which the base of a hunk, or the value of one of these names, is added.
fn write_site<A: Allocator + Copy, W: Sink>(
    text: &mut Text<'_, W>,
    form: JsonForm,
    references: &[Name<A>],
    offset: u32,
    adds: Adds,
)
    ensures { Puts W.taken W.failed text.old text.new
        (document form (adds_json references.now offset adds)) }
{
    match adds {
        Adds::Hunk(hunk) => write_hunk_site(text, form, offset, hunk),
        Adds::Reference(index) => {
            text.put(b"{\"name\":");
            write_name(text, form, name_at(references, index));
            text.put(b",\"offset\":");
            text.put_decimal(u64::from(offset));
            text.put(b"}");
        }
    }
}

/// The name with this index, empty if there is none.
fn name_at<A: Allocator + Copy>(names: &[Name<A>], index: u32) -> &[u8]
    ensures { result.now ≡ get_or names.now index [] }
{
    match names.get(index as usize) {
        Some(name) => name.bytes(),
        None => b"",
    }
}

impl<A: Allocator + Copy> WriteJson for (Name<A>, Definition) {
    ghost json = { λ form. definition_json };

    fn write_json<W: Sink>(&self, text: &mut Text<'_, W>, form: JsonForm) {
        let name = self.0.bytes();
        match self.1 {
            Definition::At(offset) => write_meaning(text, form, name, false, offset),
            Definition::Absolute(number) => write_meaning(text, form, name, true, number),
        }
    }
}

/// Writes a name that stands for an offset in its hunk, or for an absolute number.
fn write_meaning<W: Sink>(
    text: &mut Text<'_, W>,
    form: JsonForm,
    name: &[u8],
    absolute: bool,
    value: u32,
)
    ensures { Puts W.taken W.failed text.old text.new
        (document form (stands_for_json name.now absolute value)) }
{
    text.put(b"{\"absolute\":");
    text.put(boolean_word(absolute));
    text.put(b",\"name\":");
    write_name(text, form, name);
    text.put(b",\"value\":");
    text.put_decimal(u64::from(value));
    text.put(b"}");
}

/// JSON's word for a truth value.
fn boolean_word(value: bool) -> &'static [u8]
    ensures { result.now ≡ compact_text (boolean value) }
{
    if value { b"true" } else { b"false" }
}
