//! The names that hunks define.

ghost use Rattle.std.specs.Prelude.{◌≡◌, ◌||◌, ℕ, List, IfOk, OnOk};
ghost use Rattle.std.specs.List.{list_any};
ghost use Rattle.hunk_origins.specs.DefinedNames.{AreDefinedBy, defines, first_definition, is_name};

use crate::origins::Origin;
use hunk_link::{NameHasher, NameKey};
use hunk_objects::UnitHunk;
use indexmap::IndexSet;
use std::alloc::{AllocError, Allocator, Global};
use std::marker::Model;

/// The names that some hunks define. The names stay in their hunks.
#[derive(Drop)]
pub(crate) struct DefinedNames<'a, A: Allocator + Copy = Global> {
    names: IndexSet<NameKey<'a>, NameHasher, A>,
}

impl<'a, A: Allocator + Copy> Model for DefinedNames<'a, A> {
    ghost use Rattle.std.specs.Prelude.{ℕ, List};

    ghost Value = { List (List ℕ) };

    ghost view = { λ d. d.names.keys };
}

impl<'a, A: Allocator + Copy> DefinedNames<'a, A> {
    /// Those of these hunks, which are hashed so.
    ///
    /// # Errors
    ///
    /// [`AllocError`] only if an allocation failed.
    pub(crate) fn of_hunks(
        alloc: A,
        hunks: &[Origin<'a, A>],
        hasher: NameHasher,
    ) -> Result<Self, AllocError>
        ensures { IfOk result (AreDefinedBy hunks.now) }
    {
        let mut defined = DefinedNames {
            names: IndexSet::with_hasher(alloc, hasher),
        };
        for origin in hunks {
            defined.add_hunk(origin.hunk)?;
        }
        Ok(defined)
    }

    /// How they are hashed.
    pub(crate) fn hasher(&self) -> NameHasher {
        *self.names.hasher()
    }

    /// Whether this name is among them.
    pub(crate) fn has(&self, name: &[u8]) -> bool
        ensures { result ≡ list_any (is_name name.now) self.now }
    {
        self.names.contains(&NameKey::new(name))
    }

    /// Adds the names that a hunk defines.
    fn add_hunk(&mut self, hunk: &'a UnitHunk<A>) -> Result<(), AllocError>
        ensures { OnOk result ((name : List ℕ) → list_any (is_name name) self.new ≡
            (list_any (is_name name) self.old || defines name hunk.now)) }
    {
        for (name, _) in hunk.definitions() {
            self.add(name.bytes())?;
        }
        Ok(())
    }

    /// Adds a name.
    fn add(&mut self, name: &'a [u8]) -> Result<(), AllocError>
        ensures { OnOk result ((other : List ℕ) → list_any (is_name other) self.new ≡
            (list_any (is_name other) self.old || is_name other name.now)) }
    {
        match self.names.insert(NameKey::new(name)) {
            Ok(_) => Ok(()),
            Err(_) => Err(AllocError),
        }
    }
}

/// The first of these hunks that defines the name.
pub(crate) fn first_definition<'a, A: Allocator + Copy>(
    hunks: &[Origin<'a, A>],
    name: &[u8],
) -> Option<Origin<'a, A>>
    ensures { result ≡ first_definition name.now hunks.now }
{
    for origin in hunks {
        if defines(origin.hunk, name) {
            return Some(origin.copied());
        }
    }
    None
}

/// Whether a hunk defines the name.
fn defines<A: Allocator + Copy>(hunk: &UnitHunk<A>, name: &[u8]) -> bool
    ensures { result ≡ defines name.now hunk.now }
{
    for (own, _) in hunk.definitions() {
        if name == own.bytes() {
            return true;
        }
    }
    false
}
