//! Where two load files first differ, in numbers.
ghost use Rattle.std.specs.Prelude.{◌≡◌};
ghost use Rattle.amihunk_c.specs.Compared.{difference_between, difference_code, difference_told, differs_at, info_told, target_code};

use crate::codes::memory_code;
use crate::told::kind_code;
use hunk_loadfile::{
    Difference, InfoDifference, LoadFile, first_difference, first_info_difference,
};

/// What differs.
#[derive(Clone, Copy)]
enum DifferenceKind {
    /// Nothing does.
    Nothing,
    /// The numbers of hunks.
    HunkCount,
    /// What a hunk holds.
    Kind,
    /// Which memory a hunk asks for.
    Memory,
    /// The size of a hunk.
    Size,
    /// A byte of a hunk.
    Byte,
    /// A site of a hunk.
    Site,
    /// A symbol of a hunk.
    Symbol,
    /// A debug block of a hunk.
    Debug,
}

impl DifferenceKind {
    /// Its number.
    fn code(self) -> u32
        ensures { result ≡ difference_code self }
    {
        self as u32
    }
}

/// What is told in the place of a hunk where there is no site.
const NO_SITE: u64 = u64::MAX;

/// The number of the hunk whose base is added at a site.
fn target_code(target: Option<u32>) -> u64
    ensures { result ≡ target_code target }
{
    match target {
        Some(hunk) => u64::from(hunk),
        None => NO_SITE,
    }
}

/// Where two load files first differ. What is not told of a kind of difference is 0.
#[repr(C)]
#[derive(Clone, Copy)]
pub struct DifferenceTold {
    /// The number of the hunk.
    pub hunk: u64,
    /// The offset in the hunk, in bytes; of a symbol and a debug block its index.
    pub offset: u64,
    /// What the first file has there.
    pub first: u64,
    /// What the second file has there.
    pub second: u64,
    /// What differs.
    pub kind: u32,
}

impl DifferenceTold {
    /// What differs in a hunk, or at a place in it, and nothing more.
    fn at(kind: DifferenceKind, hunk: usize, offset: usize) -> DifferenceTold
        ensures { result ≡ differs_at kind hunk offset }
    {
        DifferenceTold {
            hunk: hunk as u64,
            offset: offset as u64,
            first: 0,
            second: 0,
            kind: kind.code(),
        }
    }

    /// The same with what the two files have there.
    fn by(self, first: u64, second: u64) -> DifferenceTold
        ensures { result ≡ record self { first = first; second = second } }
    {
        DifferenceTold {
            first,
            second,
            ..self
        }
    }

    /// A difference in what the files mean.
    fn of(difference: Difference) -> DifferenceTold
        ensures { result ≡ difference_told difference }
    {
        match difference {
            Difference::HunkCount { first, second } => {
                DifferenceTold::at(DifferenceKind::HunkCount, 0, 0).by(first as u64, second as u64)
            }
            Difference::Kind {
                hunk,
                first,
                second,
            } => {
                DifferenceTold::at(DifferenceKind::Kind, hunk, 0).by(
                    u64::from(kind_code(first)),
                    u64::from(kind_code(second)),
                )
            }
            Difference::Memory {
                hunk,
                first,
                second,
            } => {
                DifferenceTold::at(DifferenceKind::Memory, hunk, 0).by(
                    u64::from(memory_code(first)),
                    u64::from(memory_code(second)),
                )
            }
            Difference::Size {
                hunk,
                first,
                second,
            } => {
                DifferenceTold::at(DifferenceKind::Size, hunk, 0).by(
                    u64::from(first),
                    u64::from(second),
                )
            }
            Difference::Byte {
                hunk,
                offset,
                first,
                second,
            } => {
                DifferenceTold::at(DifferenceKind::Byte, hunk, offset as usize).by(
                    u64::from(first),
                    u64::from(second),
                )
            }
            Difference::Site {
                hunk,
                offset,
                first,
                second,
            } => {
                DifferenceTold::at(DifferenceKind::Site, hunk, offset as usize).by(
                    target_code(first),
                    target_code(second),
                )
            }
        }
    }

    /// A difference in what only debuggers read, if there is one.
    fn of_info(difference: Option<InfoDifference>) -> DifferenceTold
        ensures { result ≡ info_told difference }
    {
        match difference {
            None => DifferenceTold::at(DifferenceKind::Nothing, 0, 0),
            Some(InfoDifference::Symbol { hunk, index }) => {
                DifferenceTold::at(DifferenceKind::Symbol, hunk, index)
            }
            Some(InfoDifference::Debug { hunk, index }) => {
                DifferenceTold::at(DifferenceKind::Debug, hunk, index)
            }
        }
    }
}

/// Where two load files first differ. Symbols and debug blocks count if `with_symbols` says so, once
/// all else is the same.
pub(crate) fn compare(first: &LoadFile, second: &LoadFile, with_symbols: bool) -> DifferenceTold
    ensures { result ≡ difference_between first.now second.now with_symbols }
{
    match first_difference(first, second) {
        Some(difference) => DifferenceTold::of(difference),
        None => {
            let info = if with_symbols {
                first_info_difference(first, second)
            } else {
                None
            };
            DifferenceTold::of_info(info)
        }
    }
}
