//! What is read once more to explain a failure.
ghost use Rattle.std.specs.Prelude.{◌≡◌, false, true, IfErr, IfOk};
ghost use Rattle.hunk_tool.specs.FileSystem.{IsContent, MayBeMissing};
ghost use Rattle.hunk_tool.specs.Inputs.{file_names};
ghost use Rattle.hunk_store.specs.Addresses.{HaveNumbers, source_of};
ghost use Rattle.hunk_commands.specs.Again.{AreNoAddressesAgain, AreNoUnitsAgain, HaveUnits, IsIrregular, IsNotLinkedAgain, IsNotOpenedAgain};
ghost use Rattle.hunk_commands.specs.Link.{DoLinkTo};

use crate::link::linked;
use crate::unexplained::Unexplained;
use hunk_loadfile::LoadFile;
use hunk_store::{Addresses, Failure, Store, addresses_of, open_inputs};
use hunk_tool::{FileType, ObjectFiles, read_object_files};
use std::alloc::Global;

/// Whether the file named `name` is a regular file, which can be read more than once.
fn is_regular<S: Store>(store: &S, name: &str) -> bool
    ensures { result ≡ false → MayBeMissing (S.content store.now name.now) }
{
    matches!(store.file_type(name), FileType::Regular)
}

/// Opens the file named `name` once more.
///
/// # Errors
///
/// - [`Unexplained::NotRegular`] if it is not a regular file.
/// - [`Unexplained::Changed`] if it cannot be opened.
pub(crate) fn open_again<S: Store>(store: &S, name: &str) -> Result<S::File, Unexplained>
    ensures there { IfOk result
        (λ file. IsContent (S.content store.now name.now) (S.File.left file)) }
    ensures err { IfErr result (IsNotOpenedAgain (S.content store.now name.now)) }
{
    if !is_regular(store, name) {
        return Err(Unexplained::NotRegular);
    }
    match store.open(name) {
        Ok(file) => Ok(file),
        Err(_) => Err(Unexplained::Changed),
    }
}

/// Whether all of these files can be read again.
///
/// # Errors
///
/// [`Unexplained::NotRegular`] if one of them is not a regular file.
fn all_regular<S: Store>(store: &S, files: &[&str]) -> Result<(), Unexplained>
    ensures err { IfErr result (IsIrregular (S.content store.now) (file_names files.now)) }
{
    for name in files {
        if !is_regular(store, name) {
            return Err(Unexplained::NotRegular);
        }
    }
    Ok(())
}

/// The units of the object files named `files`, which are read again.
///
/// # Errors
///
/// - [`Unexplained::NotRegular`] if one of the files is not a regular file.
/// - [`Unexplained::OutOfMemory`] if an allocation failed.
/// - [`Unexplained::Changed`] if one of the files cannot be opened or read, or is no object file.
pub(crate) fn units_again<S: Store>(
    alloc: Global,
    store: &S,
    files: &[&str],
) -> Result<ObjectFiles, Unexplained>
    ensures units { IfOk result
        (λ units. HaveUnits (S.content store.now) (file_names files.now) units) }
    ensures err { IfErr result (AreNoUnitsAgain (S.content store.now) (file_names files.now)) }
{
    all_regular(store, files)?;
    let mut inputs = open_inputs(alloc, store, files)?;
    match read_object_files(alloc, inputs.as_mut_slice()) {
        Ok(units) => Ok(units),
        Err(fault) => Err(Unexplained::from(Failure::Tool(fault))),
    }
}

/// The load file of the object files named `files`, without symbols and debug blocks, from the files read
/// again.
///
/// # Errors
///
/// - [`Unexplained::NotRegular`] if one of the files is not a regular file.
/// - [`Unexplained::OutOfMemory`] if an allocation failed.
/// - [`Unexplained::Changed`] if one of the files cannot be opened or read, or they do not link.
pub(crate) fn linked_again<S: Store>(
    alloc: Global,
    store: &S,
    files: &[&str],
) -> Result<LoadFile, Unexplained>
    ensures linked { IfOk result
        (DoLinkTo false true (S.content store.now) (file_names files.now)) }
    ensures err { IfErr result (IsNotLinkedAgain (S.content store.now) (file_names files.now)) }
{
    all_regular(store, files)?;
    Ok(linked(alloc, store, true, false, files)?)
}

/// The addresses, from their file read again if they are in one.
///
/// # Errors
///
/// - [`Unexplained::NotRegular`] if their file is not a regular file.
/// - [`Unexplained::OutOfMemory`] if an allocation failed.
/// - [`Unexplained::Changed`] if their file cannot be opened or read, or a part of them is no address.
pub(crate) fn addresses_again<S: Store>(
    alloc: Global,
    store: &S,
    addresses: Addresses<'_>,
) -> Result<Vec<u32>, Unexplained>
    ensures numbers { IfOk result
        (λ bases. HaveNumbers (S.content store.now) (source_of addresses.entry) bases.items) }
    ensures err { IfErr result
        (AreNoAddressesAgain (S.content store.now) (source_of addresses.entry)) }
{
    match addresses {
        Addresses::File(name) if !is_regular(store, name) => Err(Unexplained::NotRegular),
        addresses => Ok(addresses_of(alloc, store, addresses)?),
    }
}
