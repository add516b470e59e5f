//! What is shown the longwords of a file while it is read.

ghost use Rattle.std.specs.Prelude.{ℕ, ◌<◌, ◌^◌, List, ◌∷◌, length, OnOk};
ghost use Rattle.hunk_words.specs.declared.due.Due.{Due};
ghost use Rattle.hunk_words.specs.declared.event.FileKind.{FileKind};

use hunk_words::{Due, FileKind};
use std::alloc::AllocError;

/// What is shown each longword of a file, with what was due there, in file order.
pub trait Watcher: Drop {
    // It was shown these longwords of a file of this kind, the latest first.
    ghost stands_for: { FileKind → Self → List (Due × ℕ) → Type 0 };

    /// Takes the next longword of a file of this kind, where this was due.
    ///
    /// # Errors
    ///
    /// [`AllocError`] only if an allocation failed; then it stands for nothing.
    fn take(&mut self, kind: FileKind, due: Due, word: u32) -> Result<(), AllocError>
        ensures { (before : List (Due × ℕ)) → length before < 2 ^ 29 → stands_for kind self.old
            before → OnOk result (stands_for kind self.new ((due, word) ∷ before)) };
}

/// What is in a file, and what was shown its longwords.
#[derive(Drop)]
pub struct Watched<V, W> {
    /// What is in the file.
    pub value: V,
    /// What was shown its longwords.
    pub watcher: W,
}
