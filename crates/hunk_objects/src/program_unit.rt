//! A program unit, made of hunks.
ghost use Rattle.std.specs.Prelude.{◌≡◌, ◌^◌, ◌<◌, length, sum_by};
ghost use Rattle.std.specs.List.{All};
ghost use Rattle.hunk_objects.specs.UnitHunk.{IsUnitHunk};
ghost use Rattle.hunk_objects.specs.ProgramUnit.{hunk_count};

use crate::unit_hunk::UnitHunk;
use hunk_words::Name;
use std::alloc::{Allocator, Global};
use std::marker::Model;

/// A program unit: its name, and its hunks in order (The AmigaDOS Manual, 3rd edition, "Amiga binary
/// file structure"). It may have no hunks.
///
/// It is made only by reading an object file, with [`ObjectDecoder`](crate::ObjectDecoder) or
/// [`read_object`](crate::read_object).
#[derive(Debug, Drop)]
pub struct ProgramUnit<A: Allocator + Copy = Global> {
    pub(crate) name: Name<A>,
    pub(crate) hunks: Vec<UnitHunk<A>, A>,
}

impl<A: Allocator + Copy> Model for ProgramUnit<A> {
    ghost use Rattle.std.specs.List.{All};
    ghost use Rattle.hunk_objects.specs.ProgramUnit.{ObjectUnit};
    ghost use Rattle.hunk_objects.specs.UnitHunk.{IsUnitHunk};

    ghost Value = { ObjectUnit };

    ghost view = { λ u. record { name = u.name; hunks = u.hunks.items } };

    ghost invariant = { λ u. All IsUnitHunk u.hunks.items };
}

impl<A: Allocator + Copy> ProgramUnit<A> {
    /// The name of the unit.
    pub fn name(&self) -> &Name<A>
        ensures { result.now ≡ self.now.name }
    {
        &self.name
    }

    /// Its hunks, in order.
    pub fn hunks(&self) -> &[UnitHunk<A>]
        ensures value { result.now ≡ self.now.hunks }
        ensures valid { All IsUnitHunk self.now.hunks }
    {
        &self.hunks
    }

    /// Its hunks, in order, moved out of it. Does not allocate.
    pub fn into_hunks(self) -> Vec<UnitHunk<A>, A>
        ensures value { result.items ≡ self.hunks }
        ensures valid { All IsUnitHunk self.hunks }
    {
        self.hunks
    }
}

/// The number of hunks of all units.
pub fn hunk_total<A: Allocator + Copy>(units: &[ProgramUnit<A>]) -> u64
    requires { sum_by hunk_count units.now < 2 ^ 64 }
    ensures { result ≡ sum_by hunk_count units.now }
{
    let mut total = 0;
    for unit in units {
        total += unit.hunks.len() as u64;
    }
    total
}
