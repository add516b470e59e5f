//! A hunk with its place in the order of linking.
ghost use Rattle.std.specs.Prelude.{◌≡◌, length, IfOk};
ghost use Rattle.std.specs.List.{All};
ghost use Rattle.hunk_link.specs.Limits.{IsHunkCount};
ghost use Rattle.hunk_link.specs.Ranks.{IsRanked, hunks_of};

use hunk_objects::{ProgramUnit, UnitHunk};
use std::alloc::{AllocError, Allocator, Global};
use std::marker::Model;

/// A hunk of some units. Its rank, its place in the order of linking, is `first + number`.
#[derive(Drop)]
pub(crate) struct RankedHunk<'a, A: Allocator + Copy = Global> {
    /// The index of its unit.
    pub(crate) unit: usize,
    /// Its number in the unit, from 0.
    pub(crate) number: u32,
    /// The rank of the first hunk of its unit.
    pub(crate) first: u32,
    /// The number of hunks of its unit.
    pub(crate) count: u32,
    pub(crate) hunk: &'a UnitHunk<A>,
}

impl<'a, A: Allocator + Copy> Model for RankedHunk<'a, A> {
    ghost use Rattle.hunk_link.specs.Ranks.{RankedHunk as Ranked};

    ghost Value = { Ranked };

    ghost view = { λ r. record {
      unit = r.unit;
      number = r.number;
      first = r.first;
      count = r.count;
      hunk = r.hunk.now;
    } };
}

/// All hunks of the units, in the order of linking. There are `total` of them.
pub(crate) fn ranked_hunks<'a, A: Allocator + Copy>(
    alloc: A,
    units: &'a [ProgramUnit<A>],
    total: usize,
) -> Result<Vec<RankedHunk<'a, A>, A>, AllocError>
    requires counted { IsHunkCount (hunks_of units.now) }
    requires total { total ≡ length (hunks_of units.now) }
    ensures value { IfOk result (λ ranked. ranked.items ≡ hunks_of units.now) }
    ensures ranks { IfOk result (λ ranked. All IsRanked ranked.items) }
{
    let mut ranked = Vec::with_capacity(alloc, total)?;
    for (unit, program_unit) in units.iter().enumerate() {
        let first = ranked.len() as u32;
        let count = program_unit.hunks().len() as u32;
        for (number, hunk) in program_unit.hunks().iter().enumerate() {
            ranked.push_reserved(RankedHunk {
                unit,
                number: number as u32,
                first,
                count,
                hunk,
            });
        }
    }
    Ok(ranked)
}
