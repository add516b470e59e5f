//! The list of addresses on a command line, one for each hunk.

ghost use Rattle.std.specs.Prelude.{◌≡◌, map, IfOk, IfErr};
ghost use Rattle.std.specs.Char.{is_ascii_hexdigit};
ghost use Rattle.std.specs.List.{list_all};
ghost use Rattle.hunk_addresses.specs.Bases.{numbers, number_of, IsBasesFault};

use std::alloc::Allocator;
use thiserror::Error;

/// Why a list of addresses is rejected.
#[derive(Clone, Copy, Debug, PartialEq, Eq, Error)]
pub enum BasesFault {
    /// The index in the list, from 0, of the first part that is not 1 to 8 hexadecimal digits.
    #[error("part {0} is not 1 to 8 hexadecimal digits")]
    BadNumber(usize),
    /// An allocation failed.
    #[error("out of memory")]
    OutOfMemory,
}

/// Parses a list of addresses: numbers of 1 to 8 hexadecimal digits of either case, separated by
/// commas (own rule). The empty text has one part, which is not a number.
///
/// # Errors
///
/// - [`BasesFault::BadNumber`] with the index of the first part that is not a number.
/// - [`BasesFault::OutOfMemory`] if an allocation failed.
pub fn parse_bases<A: Allocator + Copy>(alloc: A, text: &str) -> Result<Vec<u32, A>, BasesFault>
    ensures numbers { IfOk result (λ bases. numbers text.now ≡ map Some bases.items) }
    ensures refused { IfErr result (λ fault. IsBasesFault text.now fault) }
{
    let mut bases = Vec::new(alloc);
    for part in text.split(',') {
        let Some(base) = number(part) else {
            return Err(BasesFault::BadNumber(bases.len()));
        };
        bases.push(base).map_err(|_| BasesFault::OutOfMemory)?;
    }
    Ok(bases)
}

/// The number that 1 to 8 hexadecimal digits stand for.
fn number(part: &str) -> Option<u32>
    ensures { result ≡ number_of part.now }
{
    if 1 <= part.len() && part.len() <= 8 && is_digits(part) {
        u32::from_str_radix(part, 16).ok()
    } else {
        None
    }
}

fn is_digits(part: &str) -> bool
    ensures { result ≡ list_all is_ascii_hexdigit part.now }
{
    part.bytes().all(|digit| digit.is_ascii_hexdigit())
}
