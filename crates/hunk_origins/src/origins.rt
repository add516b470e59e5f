//! Where the hunks of a link are from.

ghost use Rattle.std.specs.Prelude.{◌≡◌, IfOk};
ghost use Rattle.hunk_origins.specs.Origins.{origin_at, origins};

use hunk_objects::{ProgramUnit, UnitHunk};
use hunk_tool::{ObjectFiles, UnitPlace};
use std::alloc::{AllocError, Allocator, Global};
use std::marker::Model;

/// A hunk of a unit, and where it is.
#[derive(Drop)]
pub(crate) struct Origin<'a, A: Allocator + Copy = Global> {
    pub(crate) place: UnitPlace,
    pub(crate) unit: &'a ProgramUnit<A>,
    /// The number of the hunk in its unit, from 0.
    pub(crate) number: usize,
    pub(crate) hunk: &'a UnitHunk<A>,
}

impl<'a, A: Allocator + Copy> Model for Origin<'a, A> {
    ghost use Rattle.hunk_origins.specs.Origins.{Origin as HunkOrigin};

    ghost Value = { HunkOrigin };

    ghost view = { λ o.
        record { unit = (o.place, o.unit.now); number = o.number; hunk = o.hunk.now } };
}

impl<'a, A: Allocator + Copy> Origin<'a, A> {
    /// The same origin once more.
    pub(crate) fn copied(&self) -> Origin<'a, A>
        ensures { result ≡ self.now }
    {
        Origin {
            place: self.place,
            unit: self.unit,
            number: self.number,
            hunk: self.hunk,
        }
    }
}

/// All hunks of the files, in the order of linking.
///
/// # Errors
///
/// [`AllocError`] only if an allocation failed.
pub(crate) fn origins<'a, A: Allocator + Copy>(
    alloc: A,
    files: &'a ObjectFiles<A>,
) -> Result<Vec<Origin<'a, A>, A>, AllocError>
    ensures { IfOk result (λ all. all.items ≡ origins files.now) }
{
    let places = files.places();
    let mut all = Vec::new(alloc);
    for (index, unit) in files.units().iter().enumerate() {
        let place = places[index];
        for (number, hunk) in unit.hunks().iter().enumerate() {
            all.push(Origin {
                place,
                unit,
                number,
                hunk,
            })?;
        }
    }
    Ok(all)
}

/// The hunk with this number of the unit with this index in the link; `None` if there is none.
pub(crate) fn origin_at<'a, A: Allocator + Copy>(
    files: &'a ObjectFiles<A>,
    unit: usize,
    hunk: usize,
) -> Option<Origin<'a, A>>
    ensures { result ≡ origin_at files.now unit hunk }
{
    let place = *files.places().get(unit)?;
    let unit = files.units().get(unit)?;
    let own = unit.hunks().get(hunk)?;
    Some(Origin {
        place,
        unit,
        number: hunk,
        hunk: own,
    })
}
