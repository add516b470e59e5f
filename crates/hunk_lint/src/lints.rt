//! What was found odd about the longwords of a file.

ghost use Rattle.std.specs.Prelude.{◌≡◌, [], ◌++◌, map, OnOk};
ghost use Rattle.hunk_lint.specs.Lints.{IsLintsOf};
ghost use Rattle.hunk_lint.specs.Oddity.{lint_at, told_again, told_if};

use crate::oddity::{
    LongwordLint, Oddity, has_no_references, ignores_size_bits, ignores_type_bits, names_load_hunk,
};
use crate::watch::Watch;
use hunk_files::Watcher;
use hunk_words::{Due, FileKind};
use std::alloc::{AllocError, Allocator};

/// What was found odd about the longwords of a file so far.
#[derive(Drop)]
pub(crate) struct Lints<A: Allocator + Copy> {
    watch: Watch<A>,
    /// The number of longwords, which is the place of the next one.
    place: u32,
    found: Vec<LongwordLint, A>,
}

/// Tells this of the longword at this place, if it is odd.
fn tell<A: Allocator>(
    found: &mut Vec<LongwordLint, A>,
    place: u32,
    is_odd: bool,
    oddity: Oddity,
) -> Result<(), AllocError>
    ensures { OnOk result
        (found.new.items ≡ found.old.items ++ map (lint_at place) (told_if is_odd oddity)) }
{
    if is_odd {
        found.push(LongwordLint { place, oddity })?;
    }
    Ok(())
}

/// Tells of a second group of relocations for a hunk at this place, if there is one.
fn tell_again<A: Allocator>(
    found: &mut Vec<LongwordLint, A>,
    place: u32,
    again: Option<u32>,
) -> Result<(), AllocError>
    ensures { OnOk result
        (found.new.items ≡ found.old.items ++ map (lint_at place) (told_again again)) }
{
    match again {
        Some(hunk) => tell(found, place, true, Oddity::SameHunk(hunk)),
        None => Ok(()),
    }
}

impl<A: Allocator + Copy> Lints<A> {
    /// Before the first longword. Does not allocate.
    pub(crate) fn new(alloc: A) -> Self
        ensures { (kind : FileKind) → IsLintsOf kind result [] }
    {
        Lints {
            watch: Watch::new(alloc),
            place: 0,
            found: Vec::new(alloc),
        }
    }

    /// What was found.
    pub(crate) fn into_found(self) -> Vec<LongwordLint, A>
        ensures { result ≡ self.found }
    {
        self.found
    }
}

impl<A: Allocator + Copy> Watcher for Lints<A> {
    ghost stands_for = { λ kind lints before. IsLintsOf kind lints before };

    fn take(&mut self, kind: FileKind, due: Due, word: u32) -> Result<(), AllocError> {
        let place = self.place;
        let found = &mut self.found;
        let odd = ignores_type_bits(kind, due, word);
        tell(found, place, odd, Oddity::TypeBits)?;
        let odd = names_load_hunk(due, word);
        tell(found, place, odd, Oddity::HunkName)?;
        let odd = ignores_size_bits(due, word);
        tell(found, place, odd, Oddity::SizeBits)?;
        let odd = self.watch.has_other_size(kind, due, word);
        tell(found, place, odd, Oddity::BssSize)?;
        let odd = self.watch.has_no_offsets(due, word);
        tell(found, place, odd, Oddity::NoOffsets)?;
        let again = self.watch.named_again(due, word);
        tell_again(found, place, again)?;
        let odd = has_no_references(due, word);
        tell(found, place, odd, Oddity::NoReferences)?;
        let odd = self.watch.ignores_name_bytes(due, word);
        tell(found, place, odd, Oddity::NameBytes)?;
        self.place = self.place.saturating_add(1);
        self.watch.take(due, word)?;
        Ok(())
    }
}
