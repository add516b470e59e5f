//! Load files as values, as they are read.

use super::asserts::equals;
use super::values::{EMPTY, Hunk, SCATTERED_HUNKS, has_hunks};
use hunk_loadfile::{HunkKind, LoadDecoder, LoadFile, Memory, read_load};
use hunk_test_support::load_words::{THREE_HUNKS, TWO_HUNKS, ZEROS};
use hunk_test_support::words::{SCATTERED, SHORT, WRITTEN};
use hunk_test_support::{CHUNKS, FILE, bytes_of};
use hunk_words::{Pieces, Refusal};
use std::alloc::{AllocError, Allocator, Global};
use std::process::Abort;
use std::test::Fail;

/// The load file of these bytes, which are fed in pieces of this size.
pub(crate) fn fed<A: Allocator + Copy>(
    rt: &impl Abort,
    alloc: A,
    bytes: &[u8],
    chunk: usize,
) -> Result<LoadFile<A>, Refusal> {
    assert!(rt; 1 <= chunk);
    let mut decoder = LoadDecoder::new(alloc);
    for piece in bytes.chunks(chunk) {
        equals(rt, decoder.feed(piece), Ok(()));
    }
    decoder.finish()
}

/// A reader of these bytes, at most `most` per read.
pub(crate) fn reader_of(
    rt: &impl Abort,
    alloc: Global,
    bytes: &[u8],
    most: usize,
) -> Result<Pieces, AllocError> {
    assert!(rt; 1 <= most);
    Ok(Pieces::new(bytes.to_vec(alloc)?, most, None))
}

/// The load file of these bytes, which are read from a reader.
pub(crate) fn read(
    rt: &impl Abort,
    alloc: Global,
    bytes: &[u8],
    most: usize,
) -> Result<LoadFile, Fail> {
    let mut reader = reader_of(rt, alloc, bytes, most)?;
    Ok(read_load(alloc, &mut reader)?)
}

/// These longwords are the file of these hunks, in pieces of each size and from a reader.
fn is_decoded(
    rt: &impl Abort,
    alloc: Global,
    words: &[u32],
    wanted: &[Hunk<'_>],
) -> Result<(), Fail> {
    let bytes = bytes_of(alloc, words, &[])?;
    for chunk in CHUNKS {
        has_hunks(rt, &fed(rt, alloc, &bytes, chunk)?, wanted);
        has_hunks(rt, &read(rt, alloc, &bytes, chunk)?, wanted);
    }
    Ok(())
}

/// A file and its written form have the same hunks.
#[test]
fn reads_a_file_that_is_not_in_written_form(rt: HostRuntime) -> Result<(), Fail> {
    is_decoded(&rt, rt.alloc(), &SCATTERED, &SCATTERED_HUNKS)?;
    is_decoded(&rt, rt.alloc(), &WRITTEN, &SCATTERED_HUNKS)
}

/// The hunk with relocations in 16-bit words.
const SHORT_HUNK: Hunk<'static> = Hunk {
    size: 2,
    content: &[0, 0, 0, 4, 0, 0, 0, 0],
    sites: &[(0, 0), (4, 0)],
    ..EMPTY
};

/// The hunks of the example.
static EXAMPLE_HUNKS: [Hunk<'static>; 2] = [
    Hunk {
        size: 4,
        content: &[
            0x20, 0x7C, 0, 0, 0, 0, 0x4E, 0xB9, 0, 0, 0, 0x0E, 0x4E, 0x75, 0x4E, 0x75,
        ],
        sites: &[(2, 1), (8, 0)],
        symbols: &[(b"main", 0), (b"sub", 14)],
        debugs: &[&[0x6C69_6E65, 0x0001_0002]],
        ..EMPTY
    },
    Hunk {
        kind: HunkKind::Data,
        memory: Memory::Chip,
        size: 2,
        content: b"hunk",
        debugs: &[&[]],
        ..EMPTY
    },
];

#[test]
fn reads_relocations_in_words(rt: HostRuntime) -> Result<(), Fail> {
    is_decoded(&rt, rt.alloc(), &SHORT, &[SHORT_HUNK])?;
    is_decoded(&rt, rt.alloc(), &TWO_HUNKS, &EXAMPLE_HUNKS)
}

/// The hunk of the file of most tests.
const CODE_HUNK: Hunk<'static> = Hunk {
    size: 1,
    content: &[0x4E, 0x75, 0x4E, 0x71],
    ..EMPTY
};

/// The same as data in fast memory.
const DATA_HUNK: Hunk<'static> = Hunk {
    kind: HunkKind::Data,
    memory: Memory::Fast,
    ..CODE_HUNK
};

const ZEROS_HUNK: Hunk<'static> = Hunk {
    kind: HunkKind::Bss,
    size: 5,
    ..EMPTY
};

/// Code, an address and zeros.
static THREE: [Hunk<'static>; 3] = [
    Hunk {
        size: 2,
        content: &[0x4E, 0x71, 0x4E, 0x71, 0x4E, 0x75, 0x4E, 0x71],
        ..EMPTY
    },
    Hunk {
        size: 1,
        content: &[0, 0, 0, 8],
        sites: &[(0, 2)],
        ..EMPTY
    },
    Hunk {
        size: 4,
        ..ZEROS_HUNK
    },
];

#[test]
fn reads_each_kind_and_memory(rt: HostRuntime) -> Result<(), Fail> {
    is_decoded(&rt, rt.alloc(), &FILE, &[CODE_HUNK])?;
    let mut fast = FILE;
    fast[5] = 0x8000_0001;
    fast[6] = 0x4000_03EA;
    is_decoded(&rt, rt.alloc(), &fast, &[DATA_HUNK])?;
    is_decoded(&rt, rt.alloc(), &ZEROS, &[ZEROS_HUNK])?;
    is_decoded(&rt, rt.alloc(), &THREE_HUNKS, &THREE)
}
