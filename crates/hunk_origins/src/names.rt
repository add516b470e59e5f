//! The names in files: what stands for each, and where, sorted as `nm` sorts them.

ghost use Rattle.std.specs.Prelude.{◌≡◌, ◌++◌, [], List, map, Some, IfOk, OnOk};
ghost use Rattle.hunk_base.specs.Text.{Puts};
ghost use Rattle.hunk_origins.specs.DefinedNames.{AreDefinedBy};
ghost use Rattle.hunk_origins.specs.Names.{AreSorted, definition_entry, definition_role, entry_line, hunk_entries, load_names, names_of, names_text, object_names, role_letter, role_value, symbol_entry, undefined_entries, unit_entries, unit_text, value_text};
ghost use Rattle.hunk_origins.specs.Origins.{Origin as HunkOrigin};

use crate::defined_names::DefinedNames;
use crate::named_files::NamedFiles;
use crate::origins::{Origin, origins};
use crate::undefined::Uses;
use hunk_link::NameHasher;
use hunk_loadfile::LoadFile;
use hunk_objects::{Definition, ProgramUnit};
use hunk_tool::{ObjectFiles, UnitPlace};
use hunk_words::{HunkKind, Name, Sink, Text};
use std::alloc::{AllocError, Allocator, Global};
use std::marker::Model;

/// What a name is, where it stands in a file.
#[derive(Clone, Copy, Debug, PartialEq, Eq)]
pub enum NameRole {
    /// A symbol of a hunk of this kind, with this value.
    Symbol(HunkKind, u32),
    /// The definition of an offset, in bytes, in a hunk of this kind.
    Offset(HunkKind, u32),
    /// The definition of an absolute value.
    Absolute(u32),
    /// A reference to a name that no hunk defines.
    Undefined,
}

impl NameRole {
    /// What a definition is in a hunk of this kind.
    fn of_definition(kind: HunkKind, definition: Definition) -> NameRole
        ensures { result ≡ definition_role kind definition }
    {
        match definition {
            Definition::At(offset) => NameRole::Offset(kind, offset),
            Definition::Absolute(value) => NameRole::Absolute(value),
        }
    }

    /// The letter that `nm` has for it: `T`, `D` and `B` for what code, data and bss hunks define, `A` for absolute values,
    /// `U` for what is not defined, and small letters for symbols.
    fn letter(self) -> &'static [u8]
        ensures { result.now ≡ role_letter self }
    {
        match self {
            NameRole::Symbol(HunkKind::Code, _) => b"t",
            NameRole::Symbol(HunkKind::Data, _) => b"d",
            NameRole::Symbol(HunkKind::Bss, _) => b"b",
            NameRole::Offset(HunkKind::Code, _) => b"T",
            NameRole::Offset(HunkKind::Data, _) => b"D",
            NameRole::Offset(HunkKind::Bss, _) => b"B",
            NameRole::Absolute(_) => b"A",
            NameRole::Undefined => b"U",
        }
    }

    /// The value that is told of it; none of a name that is not defined.
    fn value(self) -> Option<u32>
        ensures { result ≡ role_value self }
    {
        match self {
            NameRole::Symbol(_, value) | NameRole::Offset(_, value) | NameRole::Absolute(value) => {
                Some(value)
            }
            NameRole::Undefined => None,
        }
    }
}

/// A name in a file, and where it stands.
#[derive(Drop)]
pub struct NameEntry<'a> {
    name: &'a [u8],
    role: NameRole,
    /// The number of its unit, from 0 over all files. A load file has no units.
    unit: Option<u64>,
    /// The number of its hunk in the unit or the load file, from 0.
    hunk: u64,
}

impl<'a> Model for NameEntry<'a> {
    ghost use Rattle.hunk_origins.specs.Names.{Entry};

    ghost Value = { Entry };

    ghost view = { λ e. record { name = e.name.now; role = e.role; unit = e.unit; hunk = e.hunk } };
}

/// The names in a load file, or in object files, sorted by their bytes. Names that are equal stand in the order of
/// their units and hunks; in a hunk, its symbols stand before its definitions, and both in file order.
#[derive(Drop)]
pub struct NameList<'a, A: Allocator + Copy = Global> {
    entries: Vec<NameEntry<'a>, A>,
}

impl<'a, A: Allocator + Copy> Model for NameList<'a, A> {
    ghost use Rattle.std.specs.Prelude.{List};
    ghost use Rattle.hunk_origins.specs.Names.{Entry};

    ghost Value = { List Entry };

    ghost view = { λ l. l.entries.items };
}

impl<'a, A: Allocator + Copy> NameList<'a, A> {
    /// The names of these files: of a load file, its symbols; and of object files, the symbols and the definitions of
    /// their units, and the names that they refer to and none of them defines, each of these once for each hunk that
    /// refers to it. Units are numbered from 0 over all files. They do not depend on `hasher`, by which names
    /// are looked up.
    ///
    /// # Errors
    ///
    /// [`AllocError`] only if an allocation failed.
    pub fn of(alloc: A, files: &'a NamedFiles<A>, hasher: NameHasher) -> Result<Self, AllocError>
        ensures { IfOk result (AreSorted (names_of files.now)) }
    {
        match files {
            NamedFiles::Load(file) => NameList::of_load_file(alloc, file),
            NamedFiles::Objects(files) => NameList::of_object_files(alloc, files, hasher),
        }
    }

    /// The symbols of a load file.
    fn of_load_file(alloc: A, file: &'a LoadFile<A>) -> Result<Self, AllocError>
        ensures { IfOk result (AreSorted (load_names file.now)) }
    {
        let mut names = NameList::none(alloc);
        for (number, hunk) in file.hunks().iter().enumerate() {
            names.add_symbols(None, number as u64, hunk.kind, &hunk.symbols)?;
        }
        names.sorted()
    }

    /// The names of object files.
    fn of_object_files(
        alloc: A,
        files: &'a ObjectFiles<A>,
        hasher: NameHasher,
    ) -> Result<Self, AllocError>
        ensures { IfOk result (AreSorted (object_names files.now)) }
    {
        let all = origins(alloc, files)?;
        let defined = DefinedNames::of_hunks(alloc, &all, hasher)?;
        let mut names = NameList::none(alloc);
        let places = files.places();
        for (index, unit) in files.units().iter().enumerate() {
            names.add_unit(alloc, &defined, index as u64, places[index], unit)?;
        }
        names.sorted()
    }

    /// Of no names.
    fn none(alloc: A) -> Self
        ensures { result ≡ [] }
    {
        NameList {
            entries: Vec::new(alloc),
        }
    }

    /// Adds the names of a unit, which has this number over all files and was read at this place.
    fn add_unit(
        &mut self,
        alloc: A,
        defined: &DefinedNames<'a, A>,
        index: u64,
        place: UnitPlace,
        unit: &'a ProgramUnit<A>,
    ) -> Result<(), AllocError>
        ensures { (all : List HunkOrigin) → AreDefinedBy all defined.now →
            OnOk result (self.new ≡ self.old ++ unit_entries all (index, (place, unit.now))) }
    {
        for (number, hunk) in unit.hunks().iter().enumerate() {
            let origin = Origin {
                place,
                unit,
                number,
                hunk,
            };
            self.add_hunk(alloc, defined, index, &origin)?;
        }
        Ok(())
    }

    /// Adds the names of a hunk of the unit with this number.
    fn add_hunk(
        &mut self,
        alloc: A,
        defined: &DefinedNames<'a, A>,
        index: u64,
        origin: &Origin<'a, A>,
    ) -> Result<(), AllocError>
        ensures { (all : List HunkOrigin) → AreDefinedBy all defined.now →
            OnOk result (self.new ≡ self.old ++ hunk_entries all (Some index) origin.now) }
    {
        let hunk = origin.hunk;
        let number = origin.number as u64;
        self.add_symbols(Some(index), number, hunk.kind(), hunk.symbols())?;
        self.add_definitions(index, number, hunk.kind(), hunk.definitions())?;
        self.add_undefined(alloc, defined, index, origin)
    }

    /// Adds the symbols of a hunk of this kind, which has this number in the unit with this number.
    fn add_symbols(
        &mut self,
        unit: Option<u64>,
        hunk: u64,
        kind: HunkKind,
        symbols: &'a [(Name<A>, u32)],
    ) -> Result<(), AllocError>
        ensures { OnOk result
            (self.new ≡ self.old ++ map (symbol_entry unit hunk kind) symbols.now) }
    {
        for (name, value) in symbols {
            self.entries.push(NameEntry {
                name: name.bytes(),
                role: NameRole::Symbol(kind, *value),
                unit,
                hunk,
            })?;
        }
        Ok(())
    }

    /// Adds the definitions of a hunk of this kind, which has this number in the unit with this number.
    fn add_definitions(
        &mut self,
        unit: u64,
        hunk: u64,
        kind: HunkKind,
        definitions: &'a [(Name<A>, Definition)],
    ) -> Result<(), AllocError>
        ensures { OnOk result
            (self.new ≡ self.old ++ map (definition_entry (Some unit) hunk kind) definitions.now) }
    {
        for (name, definition) in definitions {
            self.entries.push(NameEntry {
                name: name.bytes(),
                role: NameRole::of_definition(kind, *definition),
                unit: Some(unit),
                hunk,
            })?;
        }
        Ok(())
    }

    /// Adds the names that a hunk of the unit with this number refers to and that are not among the defined ones.
    fn add_undefined(
        &mut self,
        alloc: A,
        defined: &DefinedNames<'a, A>,
        unit: u64,
        origin: &Origin<'a, A>,
    ) -> Result<(), AllocError>
        ensures { (all : List HunkOrigin) → AreDefinedBy all defined.now →
            OnOk result (self.new ≡ self.old ++ undefined_entries all (Some unit) origin.now) }
    {
        let mut uses = Uses::none(alloc, defined.hasher());
        uses.add_hunk(defined, origin)?;
        for index in 0..uses.len() {
            if let Some((name, _)) = uses.get(index) {
                self.entries.push(NameEntry {
                    name,
                    role: NameRole::Undefined,
                    unit: Some(unit),
                    hunk: origin.number as u64,
                })?;
            }
        }
        Ok(())
    }

    /// The same names, sorted by their bytes.
    fn sorted(self) -> Result<Self, AllocError>
        ensures { IfOk result (AreSorted self.entry) }
    {
        let mut entries = self.entries;
        entries.sort_by(|first, second| first.name.cmp(second.name))?;
        Ok(NameList { entries })
    }
}

/// Writes a line for each name of a list: its value, a letter for what it is, the name between quotes, and the
/// numbers of its unit and its hunk. It does not allocate.
pub fn write_names<A: Allocator + Copy, W: Sink>(text: &mut Text<'_, W>, names: &NameList<'_, A>)
    ensures { Puts W.taken W.failed text.old text.new (names_text names.now) }
{
    for entry in &names.entries {
        write_entry(text, entry);
    }
}

/// Writes the line of a name.
fn write_entry<W: Sink>(text: &mut Text<'_, W>, entry: &NameEntry<'_>)
    ensures { Puts W.taken W.failed text.old text.new (entry_line entry.now) }
{
    write_value(text, entry.role.value());
    text.put(b" ");
    text.put(entry.role.letter());
    text.put(b" ");
    text.put_quoted(entry.name);
    write_unit(text, entry.unit);
    text.put(b" hunk ");
    text.put_decimal(entry.hunk);
    text.end_line();
}

/// Writes a value, or as many spaces in place of none.
fn write_value<W: Sink>(text: &mut Text<'_, W>, value: Option<u32>)
    ensures { Puts W.taken W.failed text.old text.new (value_text value) }
{
    match value {
        Some(value) => text.put_longword(value),
        None => text.put(b"        "),
    }
}

/// Writes the number of a unit, if there is one.
fn write_unit<W: Sink>(text: &mut Text<'_, W>, unit: Option<u64>)
    ensures { Puts W.taken W.failed text.old text.new (unit_text unit) }
{
    if let Some(unit) = unit {
        text.put(b" unit ");
        text.put_decimal(unit);
    }
}
