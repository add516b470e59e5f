//! The names that hunks refer to and no hunk defines.

ghost use Rattle.std.specs.Prelude.{◌≡◌, ◌++◌, [], List, length, option_map, slice_get, IfOk, OnOk};
ghost use Rattle.indexmap.specs.IndexMap.{insert_entry};
ghost use Rattle.hunk_origins.specs.DefinedNames.{AreDefinedBy, is_name};
ghost use Rattle.hunk_origins.specs.Origins.{Origin as HunkOrigin};
ghost use Rattle.hunk_origins.specs.Undefined.{Reference, look_up, next_use, references_of, undefined, undefined_uses, uses_of};

use crate::defined_names::DefinedNames;
use crate::origins::Origin;
use hunk_link::{NameHasher, NameKey};
use indexmap::IndexMap;
use std::alloc::{AllocError, Allocator, Global};
use std::marker::Model;

/// Where a name is first referred to, and the number of references to it.
#[derive(Drop)]
pub(crate) struct Use<'a, A: Allocator + Copy = Global> {
    pub(crate) origin: Origin<'a, A>,
    pub(crate) count: u64,
}

impl<'a, A: Allocator + Copy> Model for Use<'a, A> {
    ghost use Rattle.hunk_origins.specs.Undefined.{Use as NameUse};

    ghost Value = { NameUse };

    ghost view = { λ u. record { origin = u.origin; count = u.count } };
}

/// The names of some references, in the order of the first reference to each. The names stay in their
/// hunks.
#[derive(Drop)]
pub(crate) struct Uses<'a, A: Allocator + Copy = Global> {
    entries: IndexMap<NameKey<'a>, Use<'a, A>, NameHasher, A>,
}

impl<'a, A: Allocator + Copy> Model for Uses<'a, A> {
    ghost use Rattle.hunk_origins.specs.Undefined.{Uses as NameUses};

    ghost Value = { NameUses };

    ghost view = { λ u. u.entries.entries };
}

impl<'a, A: Allocator + Copy> Uses<'a, A> {
    /// Of no names. Those that are added are hashed so.
    pub(crate) fn none(alloc: A, hasher: NameHasher) -> Self
        ensures { result ≡ [] }
    {
        Uses {
            entries: IndexMap::with_hasher(alloc, hasher),
        }
    }

    /// Of the names that these hunks refer to and none of them defines, which are hashed so.
    ///
    /// # Errors
    ///
    /// [`AllocError`] only if an allocation failed.
    pub(crate) fn undefined(
        alloc: A,
        hunks: &[Origin<'a, A>],
        hasher: NameHasher,
    ) -> Result<Self, AllocError>
        ensures { IfOk result (λ uses. uses ≡ undefined_uses hunks.now) }
    {
        let defined = DefinedNames::of_hunks(alloc, hunks, hasher)?;
        let mut uses = Uses::none(alloc, hasher);
        for origin in hunks {
            uses.add_hunk(&defined, origin)?;
        }
        Ok(uses)
    }

    /// How many names there are.
    pub(crate) fn len(&self) -> usize
        ensures { result ≡ length self.now }
    {
        self.entries.len()
    }

    /// The name with this index, and its use.
    pub(crate) fn get(&self, index: usize) -> Option<(&'a [u8], &Use<'a, A>)>
        ensures { option_map (λ used. (used.0.now, used.1.now)) result ≡ slice_get self.now index }
    {
        let (name, used) = self.entries.get_index(index)?;
        Some((name.bytes(), used))
    }

    /// Adds the references of a hunk to names that are not among the defined ones.
    pub(crate) fn add_hunk(
        &mut self,
        defined: &DefinedNames<'a, A>,
        origin: &Origin<'a, A>,
    ) -> Result<(), AllocError>
        ensures { (before : List Reference) (hunks : List HunkOrigin) →
            self.old ≡ uses_of before → AreDefinedBy hunks defined.now → OnOk result
            (self.new ≡ uses_of (before ++ undefined hunks (references_of origin.now))) }
    {
        for name in origin.hunk.references() {
            if !defined.has(name.bytes()) {
                self.add(name.bytes(), origin)?;
            }
        }
        Ok(())
    }

    /// Adds a reference to a name.
    fn add(&mut self, name: &'a [u8], origin: &Origin<'a, A>) -> Result<(), AllocError>
        ensures { OnOk result (self.new ≡ insert_entry is_name self.old name.now
            (next_use (look_up self.old name.now) origin.now)) }
    {
        let used = self.next_use(name, origin)?;
        match self.entries.insert(NameKey::new(name), used) {
            Ok(_) => Ok(()),
            Err(_) => Err(AllocError),
        }
    }

    /// The use of a name with one more reference, of this hunk.
    fn next_use(&self, name: &[u8], origin: &Origin<'a, A>) -> Result<Use<'a, A>, AllocError>
        ensures { IfOk result (λ used. used ≡ next_use (look_up self.now name.now) origin.now) }
    {
        match self.entries.get(&NameKey::new(name)) {
            Some(used) => match used.count.checked_add(1) {
                Some(count) => Ok(Use {
                    origin: used.origin.copied(),
                    count,
                }),
                // No memory holds so many references.
                None => Err(AllocError),
            },
            None => Ok(Use {
                origin: origin.copied(),
                count: 1,
            }),
        }
    }
}
