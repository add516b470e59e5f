//! The files that the program reads and replaces.

ghost use Rattle.std.specs.Prelude.{◌≡◌, ◌≢◌, true, false, IfErr, IfOk, Ok, OnErr, OnOk};
ghost use Rattle.hunk_link.specs.declared.name_hasher.NameHasher.{NameHasher as Hasher};
ghost use Rattle.hunk_store.specs.Store.{AreUnchanged, HasRun, IsBegun, IsCauseOf, IsKnown, IsReplaced};

use crate::failure::Failure;
use hunk_tool::{FileSystem, NameHasher, ToolFault};
use hunk_words::Sink;
use std::alloc::AllocError;

/// The files that the program reads and replaces, by their names.
///
/// Where it is known what is in files, names that differ are of files that differ.
pub trait Store: FileSystem {
    /// What is to take the place of a file.
    type New: Sink + Drop;

    /// Whether an open file is a regular file, which can be opened again by its name.
    fn can_be_opened_again(&self, file: &Self::File) -> bool;

    /// Whether two names are of one file.
    ///
    /// # Errors
    ///
    /// [`AllocError`] if an allocation failed.
    fn is_one_file(&self, first: &str, second: &str) -> Result<bool, AllocError>
        ensures same { first.now ≡ second.now → result ≡ Ok true }
        ensures apart { IsKnown (Self.content self.now first.now) → first.now ≢ second.now →
            IfOk result (λ is. is ≡ false) };

    ghost name_hasher: { Self → Hasher };

    /// How the names in files are hashed, which may be from strangers. No outcome depends on it.
    fn name_hasher(&self) -> NameHasher
        ensures { result ≡ name_hasher self.now };

    /// Begins what is to take the place of the file named `name`. No file is touched.
    ///
    /// # Errors
    ///
    /// [`AllocError`] if an allocation failed.
    fn begin(&self, name: &str) -> Result<Self::New, AllocError>
        ensures begun { IfOk result
            (λ new. IsBegun (Self.content self.now name.now) (Self.New.taken new)) }
        ensures fresh { IfOk result (λ new. Self.New.failed new ≡ false) };

    /// Ends it, after a run that wrote to it and returned `ran`: puts what was written in the place of
    /// the file named `name`, for which it was begun, if the run succeeded, and otherwise gives it up.
    ///
    /// # Errors
    ///
    /// - [`Failure::Tool`] with what the run returned, unless a write failed for one of the reasons below.
    /// - [`Failure::Opening`] if the file cannot be opened, or no file can be created or renamed for it.
    /// - [`Failure::Printing`] if it did not take everything.
    /// - [`Failure::out_of_memory`] if an allocation failed.
    ///
    /// After an error every file is what it was, unless this one is a device or a pipe.
    fn finish<'a>(
        &mut self,
        name: &'a str,
        new: Self::New,
        ran: Result<(), ToolFault>,
    ) -> Result<(), Failure<'a>>
        ensures ran { OnOk result (HasRun ran) }
        ensures replaced { OnOk result (IsReplaced name.entry.now (Self.New.taken new)
            (Self.content self.old) (Self.content self.new)) }
        ensures cause { IfErr result
            (IsCauseOf ran (Self.content self.old name.entry.now) name.entry.now) }
        ensures unchanged { OnErr result
            (AreUnchanged (Self.content self.old) (Self.content self.new)) };
}
