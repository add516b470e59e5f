//! What the references of hunks add.
ghost use Rattle.std.specs.Prelude.{◌≡◌, ◌++◌, map, OnOk, IfOk, IfErr};
ghost use Rattle.std.specs.List.{flat_map};
ghost use Rattle.hunk_link.specs.Addend.{reference_addends};
ghost use Rattle.hunk_link.specs.Ranks.{items_of};
ghost use Rattle.hunk_link.specs.References.{AllDefined, IsUndefined, references_in, references_of};

use crate::addend::Addend;
use crate::ranked_hunk::RankedHunk;
use crate::refusal::LinkRefusal;
use crate::symbol_table::SymbolTable;
use std::alloc::Allocator;
use std::hash::BuildHasher;

/// What the references of the hunks add, in order, by the meanings of the table.
pub(crate) fn resolve<H: BuildHasher + Drop, A: Allocator + Copy>(
    alloc: A,
    hunks: &[RankedHunk<'_, A>],
    table: &SymbolTable<'_, H, A>,
) -> Result<Vec<Addend, A>, LinkRefusal<A>>
    ensures addends { IfOk result (λ addends. addends.items ≡ flat_map
        (λ ranked. reference_addends table.now ranked.hunk) hunks.now) }
    ensures defined { OnOk result (AllDefined table.now (references_of hunks.now)) }
    ensures undefined { IfErr result (IsUndefined table.now (references_of hunks.now)) }
{
    let counts = hunks.iter().map(|ranked| ranked.hunk.references().len());
    let count = counts.fold(0, usize::saturating_add);
    let mut addends = Vec::with_capacity(alloc, count)?;
    for ranked in hunks {
        resolve_hunk(alloc, &mut addends, ranked, table)?;
    }
    Ok(addends)
}

/// Appends what the references of one hunk add.
fn resolve_hunk<H: BuildHasher + Drop, A: Allocator + Copy>(
    alloc: A,
    addends: &mut Vec<Addend, A>,
    ranked: &RankedHunk<'_, A>,
    table: &SymbolTable<'_, H, A>,
) -> Result<(), LinkRefusal<A>>
    ensures addends { OnOk result
        (addends.new.items ≡ addends.old.items ++ reference_addends table.now ranked.now.hunk) }
    ensures defined { OnOk result (AllDefined table.now (items_of references_in ranked.now)) }
    ensures undefined { IfErr result (IsUndefined table.now (items_of references_in ranked.now)) }
{
    addends.reserve(ranked.hunk.references().len())?;
    for name in ranked.hunk.references() {
        match table.get(name) {
            Some(defined) => addends.push_reserved(Addend::of_name(defined)),
            None => {
                return Err(LinkRefusal::UndefinedName {
                    unit: ranked.unit,
                    hunk: ranked.number,
                    name: name.copy(alloc)?,
                });
            }
        }
    }
    Ok(())
}
