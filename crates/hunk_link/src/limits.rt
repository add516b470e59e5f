//! How much units may have that are linked.
ghost use Rattle.std.specs.Prelude.{◌≡◌, ◌<◌, ◌≤◌, length, sum_by, MatchBool, MatchOption, IfOk, IfErr, OnOk, OnSome};
ghost use Rattle.std.specs.List.{All};
ghost use Rattle.hunk_loadfile.specs.Rules.{most_hunks};
ghost use Rattle.hunk_objects.specs.ProgramUnit.{hunk_count};
ghost use Rattle.hunk_link.specs.Limits.{IsHunkCount, IsOverLimit, IsSmall, Leaves, carried_by};
ghost use Rattle.hunk_link.specs.Ranks.{IsUnit, hunks_of};

use crate::refusal::LinkRefusal;
use hunk_loadfile::rules::{MOST_CARRIED, MOST_HUNKS, MOST_SIZE, room_behind};
use hunk_objects::{ProgramUnit, UnitHunk};
use std::alloc::Allocator;

/// The longwords that are left of the limits: in memory, and for symbols and debug blocks.
#[derive(Clone, Copy)]
struct Room {
    size: u64,
    carried: u64,
}

/// The number of hunks of the units, if they are neither too many nor too large.
pub(crate) fn check_limits<A: Allocator + Copy>(
    units: &[ProgramUnit<A>],
    strip: bool,
) -> Result<usize, LinkRefusal<A>>
    ensures total { IfOk result (λ total. total ≡ length (hunks_of units.now)) }
    ensures counted { OnOk result (IsHunkCount (hunks_of units.now)) }
    ensures small { OnOk result (IsSmall strip (hunks_of units.now)) }
    ensures typed { OnOk result (All IsUnit units.now) }
    ensures refused { IfErr result (IsOverLimit strip (hunks_of units.now)) }
{
    match hunk_count(units) {
        None => Err(LinkRefusal::TooManyHunks),
        Some(0) => Err(LinkRefusal::NoHunks),
        Some(total) => {
            if is_small(units, strip) {
                Ok(total)
            } else {
                Err(LinkRefusal::TooLarge)
            }
        }
    }
}

/// The number of hunks, if a load file may have as many.
fn hunk_count<A: Allocator + Copy>(units: &[ProgramUnit<A>]) -> Option<usize>
    ensures count { MatchOption result (most_hunks < sum_by hunk_count units.now)
        (λ count. (count ≡ sum_by hunk_count units.now) × (count ≤ most_hunks)) }
    ensures typed { OnSome result (All IsUnit units.now) }
{
    let mut count = 0;
    for unit in units {
        let more = unit.hunks().len();
        if more > MOST_HUNKS - count {
            return None;
        }
        count += more;
    }
    Some(count)
}

/// Whether the hunks are short enough.
fn is_small<A: Allocator + Copy>(units: &[ProgramUnit<A>], strip: bool) -> bool
    ensures { MatchBool result (IsSmall strip (hunks_of units.now))
        (¬ IsSmall strip (hunks_of units.now)) }
{
    let mut room = Room {
        size: MOST_SIZE,
        carried: MOST_CARRIED,
    };
    for unit in units {
        match room_behind_unit(room, unit, strip) {
            Some(left) => room = left,
            None => return false,
        }
    }
    true
}

/// What a unit leaves of the room, if it fits.
fn room_behind_unit<A: Allocator + Copy>(
    room: Room,
    unit: &ProgramUnit<A>,
    strip: bool,
) -> Option<Room>
    ensures { Leaves room (sum_by (λ hunk. hunk.size) unit.now.hunks)
        (sum_by (carried_by strip) unit.now.hunks) result }
{
    let mut left = room;
    for hunk in unit.hunks() {
        left = room_behind_hunk(left, hunk, strip)?;
    }
    Some(left)
}

/// The same for one hunk.
fn room_behind_hunk<A: Allocator + Copy>(
    room: Room,
    hunk: &UnitHunk<A>,
    strip: bool,
) -> Option<Room>
    ensures { Leaves room hunk.now.size (carried_by strip hunk.now) result }
{
    let size = room.size.checked_sub(u64::from(hunk.size()))?;
    let carried = if strip {
        room.carried
    } else {
        room_behind(room.carried, hunk.symbols(), hunk.debugs())?
    };
    Some(Room { size, carried })
}
