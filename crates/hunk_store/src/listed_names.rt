//! The names in a list, all of them as texts.

ghost use Rattle.std.specs.Prelude.{◌≡◌, IfErr, IfOk, map};
ghost use Rattle.std.specs.String.{string_bytes};
ghost use Rattle.std.specs.Str.{IsUtf8};
ghost use Rattle.hunk_store.specs.FileList.{AreNamesIn, IsListFailure, list_of};
ghost use Rattle.hunk_store.specs.ListedNames.{IsNoText};

use crate::failure::Failure;
use crate::file_list::FileList;
use crate::name_reader::{NameFault, open_list};
use crate::store::Store;
use std::alloc::Global;

/// The names in a list, in order.
///
/// # Errors
///
/// - [`Failure::Opening`] if the list cannot be opened.
/// - [`Failure::Reading`] if a read of it failed.
/// - [`Failure::BadName`] with the index of the first name that is not UTF-8.
/// - [`Failure::out_of_memory`] if an allocation failed.
pub fn listed_names<'a, S: Store>(
    alloc: Global,
    store: &S,
    list: FileList<'a>,
) -> Result<Vec<String>, Failure<'a>>
    ensures ok { IfOk result (λ names. AreNamesIn
        (S.content store.now list.entry.file.now) list.entry.end (map string_bytes names.items)) }
    ensures err { IfErr result (IsListFailure (S.content store.now) (list_of list.entry)) }
{
    let mut reader = open_list(alloc, store, list)?;
    let mut names = Vec::new(alloc);
    let mut name = Vec::new(alloc);
    for index in 0..usize::MAX {
        match reader.next(&mut name) {
            Ok(true) => {}
            Ok(false) => return Ok(names),
            Err(NameFault::Device) => return Err(Failure::Reading(list.file)),
            Err(NameFault::OutOfMemory) => return Err(Failure::out_of_memory()),
        }
        let text = text_of(alloc, list.file, index, &name)?;
        let Ok(()) = names.push(text) else {
            return Err(Failure::out_of_memory());
        };
    }
    // More names than memory has bytes.
    Err(Failure::out_of_memory())
}

/// The name with this index in the list `file`, as a text.
fn text_of<'a>(
    alloc: Global,
    file: &'a str,
    index: usize,
    name: &[u8],
) -> Result<String, Failure<'a>>
    ensures ok { IfOk result (λ text. (string_bytes text ≡ name.now) × IsUtf8 name.now) }
    ensures err { IfErr result (IsNoText file.entry index name.now) }
{
    let Ok(text) = std::str::from_utf8(name) else {
        return Err(Failure::BadName { list: file, index });
    };
    match String::from_str(alloc, text) {
        Ok(text) => Ok(text),
        Err(_) => Err(Failure::out_of_memory()),
    }
}
