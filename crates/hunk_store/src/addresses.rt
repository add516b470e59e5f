//! Where the addresses of the hunks come from: a list, or a file.
ghost use Rattle.std.specs.Prelude.{◌≡◌, IfOk, IfErr, Some, map};
ghost use Rattle.hunk_addresses.specs.Bases.{numbers};
ghost use Rattle.hunk_store.specs.Addresses.{HasNumbers, HaveNumbers, IsAddressesFailure, IsListFailure, IsReadFailure, input_of, source_of};

use crate::failure::Failure;
use crate::opening::open;
use crate::store::Store;
use hunk_tool::{BasesFault, BasesFileFault, parse_bases, read_bases};
use hunk_words::Source;
use std::alloc::Global;

/// Where the addresses of the hunks come from.
#[derive(Clone, Copy, Debug, PartialEq, Eq)]
pub enum Addresses<'a> {
    /// A list: numbers with commas between.
    List(&'a str),
    /// The file with this name: numbers with commas, spaces, tabs or ends of lines between.
    File(&'a str),
}

/// The addresses of the hunks. A file of them is closed when it has been read.
///
/// # Errors
///
/// - [`Failure::BadNumber`] with the index of the first part that is no address.
/// - [`Failure::TooManyAddresses`] if a file of them has more than 65,535.
/// - [`Failure::TooLong`] if a file of them has more than 16 MiB.
/// - [`Failure::Opening`] if the file of addresses cannot be opened.
/// - [`Failure::Reading`] if a read of it failed.
/// - [`Failure::out_of_memory`] if an allocation failed.
pub fn addresses_of<'a, S: Store>(
    alloc: Global,
    store: &S,
    addresses: Addresses<'a>,
) -> Result<Vec<u32>, Failure<'a>>
    ensures ok { IfOk result
        (λ bases. HaveNumbers (S.content store.now) (source_of addresses.entry) bases.items) }
    ensures err { IfErr result
        (IsAddressesFailure (S.content store.now) (source_of addresses.entry)) }
{
    match addresses {
        Addresses::List(list) => parse_list(alloc, list),
        Addresses::File(name) => {
            let mut reader = open(store, name)?;
            read_addresses(alloc, name, &mut reader)
        }
    }
}

/// The addresses in a list.
fn parse_list<'a>(alloc: Global, list: &'a str) -> Result<Vec<u32>, Failure<'a>>
    ensures ok { IfOk result (λ bases. numbers list.entry.now ≡ map Some bases.items) }
    ensures err { IfErr result (IsListFailure list.entry.now) }
{
    match parse_bases(alloc, list) {
        Ok(bases) => Ok(bases),
        Err(BasesFault::BadNumber(index)) => {
            let addresses = Addresses::List(list);
            Err(Failure::BadNumber { addresses, index })
        }
        Err(BasesFault::OutOfMemory) => Err(Failure::out_of_memory()),
    }
}

/// Reads the addresses in the file named `name`, to the end of `reader`.
///
/// # Errors
///
/// - [`Failure::BadNumber`] with the index of the first part that is no address.
/// - [`Failure::TooManyAddresses`] if there are more than 65,535 addresses.
/// - [`Failure::TooLong`] if there are more than 16 MiB.
/// - [`Failure::Reading`] if a read failed.
/// - [`Failure::out_of_memory`] if an allocation failed.
pub fn read_addresses<'a, R: Source>(
    alloc: Global,
    name: &'a str,
    reader: &mut R,
) -> Result<Vec<u32>, Failure<'a>>
    ensures ok { IfOk result
        (λ bases. HasNumbers (input_of R.left R.failed R.ended reader.old reader.new) bases.items) }
    ensures err { IfErr result
        (IsReadFailure name.entry.now (input_of R.left R.failed R.ended reader.old reader.new)) }
{
    match read_bases(alloc, reader) {
        Ok(bases) => Ok(bases),
        Err(BasesFileFault::Refused(BasesFault::BadNumber(index))) => {
            let addresses = Addresses::File(name);
            Err(Failure::BadNumber { addresses, index })
        }
        Err(BasesFileFault::Refused(BasesFault::OutOfMemory)) => Err(Failure::out_of_memory()),
        Err(BasesFileFault::TooMany) => Err(Failure::TooManyAddresses(name)),
        Err(BasesFileFault::TooLong) => Err(Failure::TooLong(name)),
        Err(BasesFileFault::Device) => Err(Failure::Reading(name)),
    }
}
