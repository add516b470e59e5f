//! The units of object files, with the places where they were read.

ghost use Rattle.std.specs.Prelude.{◌≡◌, ◌++◌, [], map, IfOk, IfErr};
ghost use Rattle.hunk_tool.specs.Inputs.{HaveRead, IsInputFault, inputs_of};
ghost use Rattle.hunk_tool.specs.LinkedUnits.{linked_files};
ghost use Rattle.hunk_tool.specs.ObjectFiles.{AreFileUnits, placed, places_of, units_of};

use crate::linked_units::linked_units;
use crate::tool_fault::ToolFault;
use hunk_link::NameHasher;
use hunk_objects::{ProgramUnit, read_object};
use hunk_words::Source;
use std::alloc::{AllocError, Allocator, Global};
use std::marker::Model;

/// Where a unit was read: the number of its file, and its number in that file, both from 0.
#[derive(Clone, Copy)]
pub struct UnitPlace {
    /// The number of its file in the link.
    pub file: usize,
    /// Its number in that file.
    pub number: usize,
}

/// The units of object files, in order, each with its place: the number of its file, and its number
/// in that file.
///
/// [`read_object_files`] reads them, and [`ObjectFiles::with_file`] takes those that are read already.
#[derive(Drop)]
pub struct ObjectFiles<A: Allocator + Copy = Global> {
    places: Vec<UnitPlace, A>,
    units: Vec<ProgramUnit<A>, A>,
}

impl<A: Allocator + Copy> Model for ObjectFiles<A> {
    ghost use Rattle.std.specs.Prelude.{◌≡◌, List, length};
    ghost use Rattle.std.specs.List.{zip};
    ghost use Rattle.hunk_tool.specs.ObjectFiles.{FileUnit};

    ghost Value = { List FileUnit };

    ghost view = { λ f. zip f.places.items f.units.items };

    ghost invariant = { λ f. length f.places.items ≡ length f.units.items };
}

impl<A: Allocator + Copy> ObjectFiles<A> {
    /// No units. Does not allocate.
    pub fn new(alloc: A) -> Self
        ensures { result ≡ [] }
    {
        ObjectFiles {
            places: Vec::new(alloc),
            units: Vec::new(alloc),
        }
    }

    /// These units and after them those of one more file, which has this number, from 0.
    ///
    /// # Errors
    ///
    /// [`AllocError`] only if an allocation failed. All units are dropped then.
    pub fn with_file(self, file: usize, units: Vec<ProgramUnit<A>, A>) -> Result<Self, AllocError>
        ensures { IfOk result (λ files. files ≡ self ++ placed file units.items) }
    {
        let ObjectFiles {
            mut places,
            units: mut all,
        } = self;
        let mut more = units;
        push_places(&mut places, file, more.len())?;
        all.append(&mut more)?;
        Ok(ObjectFiles { places, units: all })
    }

    /// The units, in order.
    pub fn units(&self) -> &[ProgramUnit<A>]
        ensures { result.now ≡ units_of self.now }
    {
        &self.units
    }

    /// The units, in order, moved out of it. Does not allocate.
    pub fn into_units(self) -> Vec<ProgramUnit<A>, A>
        ensures { result.items ≡ units_of self }
    {
        self.units
    }

    /// The units as they are linked, at the same places: with `globals`, the names that their hunks define
    /// are symbols, too, and with `strip` as well these are the only ones. Names are hashed by `hasher`.
    ///
    /// # Errors
    ///
    /// [`AllocError`] only if an allocation failed. All units are dropped then.
    pub fn linked(
        self,
        alloc: A,
        globals: bool,
        strip: bool,
        hasher: NameHasher,
    ) -> Result<Self, AllocError>
        ensures { IfOk result (λ files. files ≡ linked_files globals strip self) }
    {
        let ObjectFiles { places, units } = self;
        let units = linked_units(alloc, units, globals, strip, hasher)?;
        Ok(ObjectFiles { places, units })
    }

    /// The places of the units, in order.
    pub fn places(&self) -> &[UnitPlace]
        ensures { result.now ≡ map (λ unit. unit.0) self.now }
    {
        &self.places
    }
}

/// Reads every input in order, to its end, as an object file, and gives the units of all, with their
/// places.
///
/// # Errors
///
/// For the first input that is not read as an object file:
///
/// - [`ToolFault::Input`] with the place and the reason of the first offence of what was read, as
///   [`read_object`] returns it.
/// - [`ToolFault::InputDevice`] if a read failed.
/// - [`ToolFault::OutOfMemory`] if an allocation failed.
pub fn read_object_files<A: Allocator + Copy, R: Source>(
    alloc: A,
    inputs: &mut [R],
) -> Result<ObjectFiles<A>, ToolFault<A>>
    ensures read { IfOk result (λ files.
        HaveRead (inputs_of R.left R.failed R.ended inputs.old inputs.new) (AreFileUnits files)) }
    ensures stopped { IfErr result
        (IsInputFault (inputs_of R.left R.failed R.ended inputs.old inputs.new)) }
{
    let mut files = ObjectFiles::new(alloc);
    for file in 0..inputs.len() {
        match read_object(alloc, &mut inputs[file]) {
            Ok(units) => files = files.with_file(file, units)?,
            Err(fault) => return Err(ToolFault::of_read(file, fault)),
        }
    }
    Ok(files)
}

/// Puts the places of so many units of a file behind the others.
fn push_places<A: Allocator>(
    places: &mut Vec<UnitPlace, A>,
    file: usize,
    count: usize,
) -> Result<(), AllocError>
    ensures { IfOk result (λ done. places.new.items ≡ places.old.items ++ places_of file count) }
{
    for number in 0..count {
        places.push(UnitPlace { file, number })?;
    }
    Ok(())
}
