//! What a linker has taken.
ghost use Rattle.std.specs.Prelude.{◌≡◌, ◌↔◌, ◌++◌, ◌∷◌, ℕ, List, [], length, Option, Some, None, IsSome, IsTrue, IfOk, IfErr, OnOk, OnErr};
ghost use Rattle.hunk_words.specs.Decoder.{RefusesBytes, RefusesInput, refusal_of};
ghost use Rattle.hunk_words.specs.Files.{IsValidPrefix};
ghost use Rattle.hunk_base.specs.Longwords.{longwords};
ghost use Rattle.hunk_words.specs.declared.event.FileKind.TheVariants.{Object};

use crate::linked::{LinkedFile, link_and_drop, link_and_keep};
use crate::refused::Refused;
use core::mem::replace;
use hunk_link::NameHasher;
use hunk_objects::ObjectDecoder;
use hunk_tool::{LinkOptions, ObjectFiles};
use hunk_words::Refusal;
use std::alloc::Global;

/// How a linker links.
#[derive(Clone, Copy)]
pub struct LinkerOptions {
    /// How object files are linked, and how their load file is written.
    pub(crate) link: LinkOptions,
    /// Whether what is in the object files is kept once they are linked.
    pub(crate) keep: bool,
}

/// The units of the inputs that have ended, and the current input.
#[derive(Drop)]
pub struct Linker {
    options: LinkerOptions,
    // how names are hashed
    hasher: NameHasher,
    files: ObjectFiles,
    // for each input that has ended, the number of units up to its end
    ends: Vec<usize>,
    current: Option<ObjectDecoder>,
}

impl Linker {
    ghost use Rattle.amihunk_c.specs.Linkers.{HasTaken, IsLinkStop, Reads, begun};
    ghost use Rattle.amihunk_c.specs.Linked.{IsLinkedFile};
    ghost use Rattle.hunk_objects.specs.ObjectDecoder.{StandsFor};

    /// A linker before the first input. It does not allocate.
    pub(crate) fn new(alloc: Global, options: LinkerOptions, hasher: NameHasher) -> Linker
        ensures taken { HasTaken options [] None result }
        ensures hasher { result.hasher ≡ hasher }
    {
        Linker {
            options,
            hasher,
            files: ObjectFiles::new(alloc),
            ends: Vec::new(alloc),
            current: None,
        }
    }

    /// The number of inputs that have ended.
    pub(crate) fn input_count(&self) -> usize
        ensures { result ≡ length self.now.ends.items }
    {
        self.ends.len()
    }

    /// Whether an input has begun and not ended.
    pub(crate) fn is_reading(&self) -> bool
        ensures { IsTrue result ↔ IsSome self.now.current }
    {
        self.current.is_some()
    }

    /// Takes out the decoder of the current input, a new one if the input has not begun.
    fn take_current(&mut self, alloc: Global) -> ObjectDecoder
        ensures stands { (current : Option (List ℕ)) → Reads current self.old.current →
            StandsFor result (begun current) }
        ensures none { (current : Option (List ℕ)) → Reads current self.old.current →
            refusal_of result ≡ None }
        ensures rest { self.new ≡ record self.old { current = None } }
    {
        match replace(&mut self.current, None) {
            Some(decoder) => decoder,
            None => ObjectDecoder::new(alloc),
        }
    }

    /// Takes the next bytes of the current input, which begins with the first call after the end of
    /// the last one.
    ///
    /// # Errors
    ///
    /// Those of [`ObjectDecoder::feed`].
    pub(crate) fn feed(&mut self, alloc: Global, piece: &[u8]) -> Result<(), Refusal>
        ensures taken { OnOk result ((options : LinkerOptions) (files : List (List ℕ))
            (current : Option (List ℕ)) → HasTaken options files current self.old →
            HasTaken options files (Some (begun current ++ piece.now)) self.new) }
        ensures front { OnOk result ((options : LinkerOptions) (files : List (List ℕ))
            (current : Option (List ℕ)) → HasTaken options files current self.old →
            IsValidPrefix Object (longwords (begun current ++ piece.now))) }
        ensures refused { IfErr result (λ refusal. (options : LinkerOptions) (files : List (List ℕ))
            (current : Option (List ℕ)) → HasTaken options files current self.old →
            RefusesBytes Object (begun current ++ piece.now) refusal) }
        ensures count { self.new.ends ≡ self.old.ends }
    {
        let mut decoder = self.take_current(alloc);
        match decoder.feed(piece) {
            Ok(()) => {
                self.current = Some(decoder);
                Ok(())
            }
            Err(refusal) => Err(refusal),
        }
    }

    /// Ends the current input, which has no bytes if it has not begun.
    ///
    /// # Errors
    ///
    /// Those of [`ObjectDecoder::finish`], and [`Refusal::OutOfMemory`] if an allocation failed.
    pub(crate) fn end_input(&mut self, alloc: Global) -> Result<(), Refusal>
        ensures taken { OnOk result ((options : LinkerOptions) (files : List (List ℕ))
            (current : Option (List ℕ)) → HasTaken options files current self.old →
            HasTaken options (files ++ begun current ∷ []) None self.new) }
        ensures refused { IfErr result (λ refusal. (options : LinkerOptions) (files : List (List ℕ))
            (current : Option (List ℕ)) → HasTaken options files current self.old →
            RefusesInput Object (begun current) refusal) }
        ensures count { OnErr result (self.new.ends.items ≡ self.old.ends.items) }
    {
        let decoder = self.take_current(alloc);
        let units = match decoder.finish() {
            Ok(units) => units,
            Err(refusal) => return Err(refusal),
        };
        let files = replace(&mut self.files, ObjectFiles::new(alloc));
        match files.with_file(self.ends.len(), units) {
            Ok(files) => self.files = files,
            Err(_) => return Err(Refusal::OutOfMemory),
        }
        match self.ends.push(self.files.units().len()) {
            Ok(()) => Ok(()),
            Err(_) => Err(Refusal::OutOfMemory),
        }
    }

    /// Links the units of all inputs. They are gone after it, but for what the options keep.
    ///
    /// # Errors
    ///
    /// Why the units do not link, with the input of the unit that the refusal tells.
    pub(crate) fn link(&mut self, alloc: Global) -> Result<LinkedFile, Refused>
        ensures linked { IfOk result (λ linked. (options : LinkerOptions) (files : List (List ℕ)) →
            HasTaken options files None self.old → IsLinkedFile options files linked) }
        ensures refused { IfErr result
            (λ refused. (options : LinkerOptions) (files : List (List ℕ)) →
            HasTaken options files None self.old → IsLinkStop options files refused refused.fault) }
    {
        let files = replace(&mut self.files, ObjectFiles::new(alloc));
        if self.options.keep {
            link_and_keep(alloc, files, &self.ends, self.options.link, self.hasher)
        } else {
            link_and_drop(alloc, files, &self.ends, self.options.link, self.hasher)
        }
    }
}
