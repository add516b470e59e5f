//! Reads the names in a list, one after another.

ghost use Rattle.std.specs.Prelude.{◌≡◌, ◌∷◌, [], ℕ, List, Some, false, true, Ok, Err, IfErr, IfOk, IsTrue};
ghost use Rattle.hunk_tool.specs.FileSystem.{IsContent};
ghost use Rattle.hunk_store.specs.FileList.{IsUnopenedList, list_of};
ghost use Rattle.hunk_store.specs.NameReader.{HasNoName, TakesNames, has_failed, unread};

use crate::failure::Failure;
use crate::file_list::{FileList, NameEnd};
use crate::list_bytes::ListBytes;
use crate::opening::open;
use crate::store::Store;
use hunk_words::Source;
use std::alloc::{AllocError, Global};
use std::io::{BufRead, BufReader};

/// Reads the names in a list. It keeps a piece of the list at a time.
#[derive(Drop)]
pub struct NameReader<F: Source + Drop> {
    bytes: BufReader<ListBytes<F>>,
    end: NameEnd,
}

/// Why a name was not read.
#[derive(Clone, Copy, Debug, PartialEq, Eq)]
pub enum NameFault {
    /// A read of the list failed.
    Device,
    /// An allocation failed.
    OutOfMemory,
}

impl<F: Source + Drop> NameReader<F> {
    /// The names in a list that was just opened.
    ///
    /// # Errors
    ///
    /// [`AllocError`] if an allocation failed.
    fn new(alloc: Global, file: F, end: NameEnd) -> Result<NameReader<F>, AllocError>
        requires { (other : F) (bytes : List ℕ) → IsTrue (F.ended other) →
            F.left other ≡ Some bytes → bytes ≡ [] }
        ensures unread { IfOk result (λ names. unread F.left names ≡ F.left file) }
        ensures end { IfOk result (λ names. names.end ≡ end) }
    {
        let Ok(bytes) = BufReader::new(alloc, ListBytes::new(file)) else {
            return Err(AllocError);
        };
        Ok(NameReader { bytes, end })
    }

    /// Reads the next name in the list into `name`, in the place of what is there, and returns whether
    /// there was one.
    ///
    /// # Errors
    ///
    /// - [`NameFault::Device`] if a read of the list failed.
    /// - [`NameFault::OutOfMemory`] if an allocation failed.
    pub fn next(&mut self, name: &mut Vec<u8>) -> Result<bool, NameFault>
        ensures end { self.new.end ≡ self.old.end }
        ensures some { result ≡ Ok true → TakesNames self.old.end (unread F.left self.old)
            (unread F.left self.new) (name.new.items ∷ []) }
        ensures none { result ≡ Ok false → HasNoName self.old.end (unread F.left self.old) }
        ensures device { result ≡ Err NameFault.Device → IsTrue (has_failed F.failed self.new) }
    {
        let end = self.end.byte();
        'pieces: for _number in 0..u64::MAX {
            name.clear();
            let count = match self.bytes.read_until(end, name) {
                Ok(0) => return Ok(false),
                Ok(count) => count,
                Err(_) if self.bytes.get_ref().file.failed() => return Err(NameFault::Device),
                // A name that takes more reads than can be counted has no place in memory either.
                Err(_) => return Err(NameFault::OutOfMemory),
            };
            if name[count - 1] == end {
                name.truncate(count - 1);
            }
            if !name.is_empty() {
                return Ok(true);
            }
        }
        Err(NameFault::OutOfMemory)
    }
}

/// Opens a list, to read the names in it.
///
/// # Errors
///
/// - [`Failure::Opening`] if the list cannot be opened.
/// - [`Failure::out_of_memory`] if an allocation failed.
pub fn open_list<'a, S: Store>(
    alloc: Global,
    store: &S,
    list: FileList<'a>,
) -> Result<NameReader<S::File>, Failure<'a>>
    ensures there { IfOk result
        (λ names. IsContent (S.content store.now list.entry.file.now) (unread S.File.left names)) }
    ensures end { IfOk result (λ names. names.end ≡ list.entry.end) }
    ensures err { IfErr result (IsUnopenedList (S.content store.now) (list_of list.entry)) }
{
    let file = open(store, list.file)?;
    match NameReader::new(alloc, file, list.end) {
        Ok(names) => Ok(names),
        Err(_) => Err(Failure::out_of_memory()),
    }
}
