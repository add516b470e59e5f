//! What takes the events of a file.

ghost use Rattle.std.specs.Prelude.{◌≡◌, ℕ, ◌+◌, ◌<◌, ◌^◌, List, [], ◌∷◌, ◌++◌, length, slice_index, OnOk, OnErr};
ghost use Rattle.hunk_words.specs.declared.event.Event.{Event};
ghost use Rattle.hunk_words.specs.declared.event.FileKind.{FileKind};
ghost use Rattle.hunk_words.specs.declared.event.FileKind.TheVariants.{Load};
ghost use Rattle.hunk_base.specs.Longwords.{IsWhole, longwords};
ghost use Rattle.hunk_words.specs.Taker.{Judges, RunTaken, context_of, sizes_told};

use crate::event::{Event, FileKind};
use hunk_base::sites::SiteRefusal;
use std::alloc::AllocError;

/// What takes the events of a file's longwords, in order.
///
/// It stands for the events that it has taken. A file of at most 2^28 longwords has at most two
/// events for each, so the laws hold for fewer than 2^29 events before the next one.
pub trait Taker: Drop {
    // What it holds after these events, in order.
    ghost stands_for: { Self → List Event → Type 0 };

    // The numbers that it was given before the first event. They never change.
    ghost given: { Self → List ℕ } = { λ _. [] };

    ghost KIND: { FileKind };

    /// The kind of file that it takes.
    const KIND: FileKind;

    /// Takes the next event.
    ///
    /// # Errors
    ///
    /// An error leaves what it stands for unchanged.
    ///
    /// - `Outside` and `Overlap` exactly for a site that breaks that rule, by the limit and the
    ///   sites of the earlier events, and for no other event.
    /// - `OutOfMemory` only if an allocation failed.
    fn take(&mut self, event: Event) -> Result<(), SiteRefusal>
        ensures takes { (told : List Event) → stands_for self.old told → length told < 2 ^ 29 →
            OnOk result (stands_for self.new (told ++ event ∷ [])) }
        ensures refuses { (told : List Event) → stands_for self.old told → length told < 2 ^ 29 →
            OnErr result (stands_for self.new told) }
        ensures judges { (told : List Event) → stands_for self.old told → length told < 2 ^ 29 →
            Judges (context_of KIND told) event result }
        ensures given { given self.new ≡ given self.old };

    /// Takes the events of a run of words at once: an [`Event::Word`] for each longword of these
    /// bytes, in order. The bytes are whole longwords.
    ///
    /// Returns `false`, and takes none of them, if it has no better way than to take one after the
    /// other; [`take`](Taker::take) then takes them. This is what it does unless an implementation
    /// does better.
    ///
    /// # Errors
    ///
    /// [`AllocError`] only if an allocation failed. An error leaves what it stands for unchanged.
    fn take_words(&mut self, bytes: &[u8]) -> Result<bool, AllocError>
        requires { IsWhole bytes.now }
        ensures takes { (told : List Event) → stands_for self.old told →
            length told + length (longwords bytes.now) < 2 ^ 29 →
            RunTaken (stands_for self.new) told (longwords bytes.now) result }
        ensures given { given self.new ≡ given self.old }
    {
        Ok(false)
    }

    /// The size of a hunk in the header, in longwords. It is called only for the kind `Load`, and
    /// only for a size that was taken.
    fn size_of(&self, hunk: u32) -> u32
        ensures { (told : List Event) → stands_for self.now told → KIND ≡ Load → hunk < length
            (sizes_told KIND told) → result ≡ slice_index (sizes_told KIND told) hunk };
}
