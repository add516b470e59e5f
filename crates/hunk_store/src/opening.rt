//! Opening a file of a store, and why it is not opened.
ghost use Rattle.std.specs.Prelude.{◌≡◌, false, IfErr, IfOk};
ghost use Rattle.hunk_tool.specs.FileSystem.{IsContent};
ghost use Rattle.hunk_store.specs.Opening.{IsOpening};

use crate::failure::Failure;
use crate::store::Store;

/// Opens the file named `file`.
///
/// # Errors
///
/// [`Failure::Opening`] if it cannot be opened.
pub fn open<'a, S: Store>(store: &S, file: &'a str) -> Result<S::File, Failure<'a>>
    ensures there { IfOk result
        (λ input. IsContent (S.content store.now file.entry.now) (S.File.left input)) }
    ensures unread { IfOk result
        (λ input. (S.File.failed input ≡ false) × (S.File.ended input ≡ false)) }
    ensures err { IfErr result (IsOpening (S.content store.now) file.entry) }
{
    match store.open(file) {
        Ok(input) => Ok(input),
        Err(reason) => Err(Failure::Opening(file, reason)),
    }
}
