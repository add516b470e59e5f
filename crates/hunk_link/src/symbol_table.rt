//! What each name stands for that the hunks define.
ghost use Rattle.std.specs.Prelude.{◌≡◌, ◌≢◌, List, [], ◌∷◌, ◌++◌, map, None, IfOk, IfErr, OnOk, Ok, true, false};
ghost use Rattle.hunk_link.specs.SymbolTable.{Definition as TableDefinition, DefinedOnce, IsDuplicate, definitions_in, definitions_of, entry, look_up, table_of};
ghost use Rattle.std.specs.List.{All};
ghost use Rattle.hunk_link.specs.Ranks.{IsRanked, items_of};

use crate::name_key::NameKey;
use crate::ranked_hunk::RankedHunk;
use crate::refusal::LinkRefusal;
use hunk_objects::Definition;
use hunk_words::Name;
use indexmap::IndexMap;
use std::alloc::{AllocError, Allocator, Global};
use std::hash::BuildHasher;
use std::marker::Model;

/// What a name stands for: the definition, and the rank of the hunk that defines it.
#[derive(Clone, Copy)]
pub struct Defined {
    /// The rank of the hunk: its place among all hunks, in the order of linking.
    pub rank: u32,
    /// What the hunk says of the name.
    pub definition: Definition,
}

/// The names that hunks define, in the order of their definitions. The names stay in their hunks.
#[derive(Drop)]
pub(crate) struct SymbolTable<'a, H: BuildHasher + Drop, A: Allocator + Copy = Global> {
    entries: IndexMap<NameKey<'a>, Defined, H, A>,
}

impl<'a, H: BuildHasher + Drop, A: Allocator + Copy> Model for SymbolTable<'a, H, A> {
    ghost use Rattle.hunk_link.specs.SymbolTable.{Table};

    ghost Value = { Table };

    ghost view = { λ t. t.entries.entries };
}

impl<'a, H: BuildHasher + Drop, A: Allocator + Copy> SymbolTable<'a, H, A> {
    /// A table without names, with memory for `count` of them, which hashes them so.
    fn with_capacity(alloc: A, count: usize, hasher: H) -> Result<Self, AllocError>
        ensures { IfOk result (λ table. table ≡ []) }
    {
        let entries = IndexMap::with_capacity_and_hasher(alloc, count, hasher)?;
        Ok(SymbolTable { entries })
    }

    /// What a name stands for.
    pub(crate) fn get(&self, name: &Name<A>) -> Option<Defined>
        ensures { result ≡ look_up self.now name.now }
    {
        self.entries.get(&NameKey::new(name.bytes())).copied()
    }

    /// Adds a name, or returns false if it is there.
    fn add(&mut self, name: &'a Name<A>, defined: Defined) -> Result<bool, AllocError>
        ensures added { result ≡ Ok true → (look_up self.old name.now ≡ None) ×
            (self.new ≡ self.old ++ (name.now, defined) ∷ []) }
        ensures there { result ≡ Ok false → look_up self.old name.now ≢ None }
    {
        match self.entries.insert(NameKey::new(name.bytes()), defined) {
            Ok(before) => Ok(before.is_none()),
            Err(_) => Err(AllocError),
        }
    }

    /// Adds the definitions of a hunk after those in the table.
    fn add_definitions(&mut self, ranked: &RankedHunk<'a, A>) -> Result<(), LinkRefusal<A>>
        requires { IsRanked ranked.now }
        ensures added { (before : List TableDefinition) →
            self.old ≡ map entry before → DefinedOnce before →
            OnOk result ((self.new ≡ map entry (before ++ items_of definitions_in ranked.now)) ×
            DefinedOnce (before ++ items_of definitions_in ranked.now)) }
        ensures twice { (before : List TableDefinition) → self.old ≡ map entry before → DefinedOnce
            before → IfErr result (IsDuplicate (before ++ items_of definitions_in ranked.now)) }
    {
        for (name, definition) in ranked.hunk.definitions() {
            let defined = Defined {
                rank: ranked.first + ranked.number,
                definition: *definition,
            };
            if !self.add(name, defined)? {
                return Err(LinkRefusal::DuplicateName {
                    unit: ranked.unit,
                    hunk: ranked.number,
                    name: name.copy(*self.entries.allocator())?,
                });
            }
        }
        Ok(())
    }
}

/// The table of all names that the hunks define, which hashes them so.
pub(crate) fn symbol_table<'a, H: BuildHasher + Drop, A: Allocator + Copy>(
    alloc: A,
    hunks: &[RankedHunk<'a, A>],
    hasher: H,
) -> Result<SymbolTable<'a, H, A>, LinkRefusal<A>>
    requires { All IsRanked hunks.now }
    ensures table { IfOk result (λ table. table ≡ table_of hunks.now) }
    ensures once { OnOk result (DefinedOnce (definitions_of hunks.now)) }
    ensures twice { IfErr result (IsDuplicate (definitions_of hunks.now)) }
{
    let counts = hunks.iter().map(|ranked| ranked.hunk.definitions().len());
    let count = counts.fold(0, usize::saturating_add);
    let mut table = SymbolTable::with_capacity(alloc, count, hasher)?;
    for ranked in hunks {
        table.add_definitions(ranked)?;
    }
    Ok(table)
}
