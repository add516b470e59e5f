//! Whether sites name hunks of their own unit.
ghost use Rattle.std.specs.Prelude.{◌≡◌, ℕ, OnOk, IfErr, MatchOption};
ghost use Rattle.hunk_objects.specs.declared.unit_hunk.Adds.{Adds};
ghost use Rattle.hunk_link.specs.FirstToBreak.{IsFirstToBreak};
ghost use Rattle.hunk_link.specs.OwnHunks.{AllNameOwnHunks, IsForeign, sites_in, sites_of};
ghost use Rattle.hunk_link.specs.Ranks.{items_of};

use crate::ranked_hunk::RankedHunk;
use crate::refusal::LinkRefusal;
use hunk_objects::Adds;
use std::alloc::Allocator;

/// Looks for the first site that adds the base of a hunk which its unit does not have.
pub(crate) fn check_own_hunks<A: Allocator + Copy>(
    hunks: &[RankedHunk<'_, A>],
) -> Result<(), LinkRefusal<A>>
    ensures own { OnOk result (AllNameOwnHunks (sites_of hunks.now)) }
    ensures foreign { IfErr result (IsForeign (sites_of hunks.now)) }
{
    for ranked in hunks {
        if let Some(target) = foreign_target(ranked) {
            return Err(LinkRefusal::NoSuchHunk {
                unit: ranked.unit,
                hunk: ranked.number,
                target,
            });
        }
    }
    Ok(())
}

/// The hunk that the first such site of one hunk names.
fn foreign_target<A: Allocator + Copy>(ranked: &RankedHunk<'_, A>) -> Option<u32>
    ensures { MatchOption result (AllNameOwnHunks (items_of sites_in ranked.now))
        (λ target. (offset : ℕ) × IsFirstToBreak AllNameOwnHunks (items_of sites_in ranked.now)
        (ranked.now, (offset, Adds.Hunk target))) }
{
    for (_, adds) in ranked.hunk.sites().walk() {
        if let Adds::Hunk(target) = *adds {
            if target >= ranked.count {
                return Some(target);
            }
        }
    }
    None
}
