//! The current unit of an object file.
ghost use Rattle.std.specs.Prelude.{◌≡◌, ℕ, Bool, false, List, [], ◌∷◌, ◌++◌, OnOk, OnErr};
ghost use Rattle.hunk_base.specs.OpenName.{Opens, bytes_so_far};
ghost use Rattle.hunk_words.specs.Values.{Hunk, empty};
ghost use Rattle.hunk_objects.specs.OpenHunk.{Shows};
ghost use Rattle.hunk_objects.specs.UnitHunk.{object_hunk};

use crate::kept_lists::reserve;
use crate::open_hunk::OpenHunk;
use crate::program_unit::ProgramUnit;
use crate::unit_hunk::UnitHunk;
use hunk_words::OpenName;
use std::alloc::{AllocError, Allocator};
use std::marker::Model;
use std::mem;

/// A unit that has not ended: its name so far, and its hunks that have ended. If an allocation
/// fails, it is left as it was.
#[derive(Drop)]
pub(crate) struct OpenUnit<A: Allocator + Copy> {
    name: OpenName<A>,
    hunks: Vec<UnitHunk<A>, A>,
}

impl<A: Allocator + Copy> Model for OpenUnit<A> {
    ghost use Rattle.std.specs.List.{All};
    ghost use Rattle.hunk_objects.specs.OpenUnit.{UnitSoFar};
    ghost use Rattle.hunk_objects.specs.UnitHunk.{IsUnitHunk};

    ghost Value = { UnitSoFar A };

    ghost view = { λ u. record { name = u.name; hunks = u.hunks.items } };

    ghost invariant = { λ u. All IsUnitHunk u.hunks.items };
}

impl<A: Allocator + Copy> OpenUnit<A> {
    /// A unit before the first longword of its name. Does not allocate.
    pub(crate) fn new(alloc: A) -> Self
        ensures name { Opens result.name [] }
        ensures hunks { result.hunks ≡ [] }
    {
        OpenUnit {
            name: OpenName::new(alloc),
            hunks: Vec::new(alloc),
        }
    }

    /// Takes a longword of its name.
    pub(crate) fn add_name_word(&mut self, word: u32) -> Result<(), AllocError>
        ensures same { self.new.hunks ≡ self.old.hunks }
        ensures takes { (words : List ℕ) → Opens self.old.name words →
            OnOk result (Opens self.new.name (words ++ word ∷ [])) }
        ensures refuses { (words : List ℕ) → Opens self.old.name words →
            OnErr result (Opens self.new.name words) }
    {
        self.name.push(word)
    }

    /// Takes the current hunk, whose place a new one takes. Also fails if its content is not whole.
    pub(crate) fn add_hunk(&mut self, alloc: A, hunk: &mut OpenHunk<A>) -> Result<(), AllocError>
        ensures name { self.new.name ≡ self.old.name }
        ensures adds { (limit : ℕ) (seen : List ℕ) (in_content : Bool) (told : Hunk) →
            Shows hunk.old limit seen in_content told →
            OnOk result (self.new.hunks ≡ self.old.hunks ++ object_hunk told ∷ []) }
        ensures begins { OnOk result (Shows hunk.new hunk.old.partial.sites.limit [] false empty) }
        ensures refused { OnErr result (self.new ≡ self.old) }
        ensures kept { OnErr result (hunk.new ≡ hunk.old) }
    {
        if !hunk.is_whole() {
            return Err(AllocError);
        }
        reserve(&mut self.hunks)?;
        let limit = hunk.limit();
        let whole = mem::replace(hunk, OpenHunk::new(alloc, limit));
        self.hunks.push_reserved(whole.close());
        Ok(())
    }

    /// The unit.
    pub(crate) fn close(self) -> ProgramUnit<A>
        ensures { result ≡ record { name = bytes_so_far self.name; hunks = self.hunks } }
    {
        ProgramUnit {
            name: self.name.close(),
            hunks: self.hunks,
        }
    }
}
