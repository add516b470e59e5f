//! Load files in memory: by `ImageLoader`, by `read_image`, by `HeaderLoader`, and by decoding whole
//! and then loading.

use super::asserts::{equals, equals_at};
use super::decoded::{fed, read, reader_of};
use super::sized::sized;
use hunk_loader::{Image, ImageLoader, LoadRefusal, load, read_image};
use hunk_loadfile::LoadFile;
use hunk_test_support::load_words::{EVEN_WORDS, NO_WORDS, THREE_HUNKS, TWO_HUNKS, ZEROS};
use hunk_test_support::words::{BEHIND_CONTENT, LINKED, LINKED_ALONE, SCATTERED, SHORT, WRITTEN};
use hunk_test_support::{BASE, CHUNKS, FILE, bytes_of};
use std::alloc::{Allocator, Global};
use std::process::Abort;
use std::test::Fail;

/// A load file, the addresses of its hunks, and the bytes of each hunk there.
type Row<'a> = (&'a [u32], &'a [u32], &'a [&'a [u8]]);

/// The image has these bytes at these addresses.
pub(crate) fn has_bytes<A: Allocator + Copy>(
    rt: &impl Abort,
    image: &Image<A>,
    bases: &[u32],
    wanted: &[&[u8]],
) {
    let hunks = image.hunks();
    equals(rt, (hunks.len(), bases.len()), (wanted.len(), wanted.len()));
    for (index, (base, bytes)) in hunks.iter().enumerate() {
        equals(rt, Some(*base), bases.get(index).copied());
        let (got, want) = (Some(bytes.as_slice()), wanted.get(index).copied());
        equals_at(rt, &("at", base), got, want);
        let mut address = *base;
        for byte in bytes.as_slice() {
            equals_at(rt, &("at", address), image.byte(address), Some(*byte));
            address = address.wrapping_add(1);
        }
    }
}

/// The image by `ImageLoader`.
fn streamed<A: Allocator + Copy>(
    rt: &impl Abort,
    alloc: A,
    bytes: &[u8],
    bases: &[u32],
    chunk: usize,
) -> Result<Image<A>, Fail> {
    let mut loader = ImageLoader::new(alloc, bases)?;
    assert!(rt; 1 <= chunk);
    for piece in bytes.chunks(chunk) {
        equals(rt, loader.feed(piece), Ok(()));
    }
    Ok(loader.finish()?)
}

/// The image of the bytes of a reader, without a file in between.
fn image_of(
    rt: &impl Abort,
    alloc: Global,
    bytes: &[u8],
    bases: &[u32],
    chunk: usize,
) -> Result<Image, Fail> {
    let mut reader = reader_of(rt, alloc, bytes, chunk)?;
    Ok(read_image(alloc, &mut reader, bases)?)
}

/// The file has these bytes at these addresses.
fn is_in_memory(
    rt: &impl Abort,
    alloc: Global,
    file: &LoadFile,
    bases: &[u32],
    wanted: &[&[u8]],
) -> Result<(), LoadRefusal> {
    has_bytes(rt, &load(alloc, file, bases)?, bases, wanted);
    Ok(())
}

/// In each way and in any pieces, these bytes are loaded to these hunks.
fn is_loaded(
    rt: &impl Abort,
    alloc: Global,
    bytes: &[u8],
    bases: &[u32],
    wanted: &[&[u8]],
) -> Result<(), Fail> {
    for chunk in CHUNKS {
        let image = streamed(rt, alloc, bytes, bases, chunk)?;
        has_bytes(rt, &image, bases, wanted);
        let file = fed(rt, alloc, bytes, chunk)?;
        is_in_memory(rt, alloc, &file, bases, wanted)?;
        let file = read(rt, alloc, bytes, chunk)?;
        is_in_memory(rt, alloc, &file, bases, wanted)?;
        let image = image_of(rt, alloc, bytes, bases, chunk)?;
        has_bytes(rt, &image, bases, wanted);
        let image = sized(rt, alloc, bytes, bases, chunk)?;
        has_bytes(rt, &image, bases, wanted);
    }
    Ok(())
}

/// These files are loaded to these hunks.
fn are_loaded(rt: &impl Abort, alloc: Global, rows: &[Row<'_>]) -> Result<(), Fail> {
    for (words, bases, wanted) in rows {
        let bytes = bytes_of(alloc, words, &[])?;
        is_loaded(rt, alloc, &bytes, bases, wanted)?;
    }
    Ok(())
}

#[test]
fn ignores_memory_bits_of_blocks(rt: HostRuntime) -> Result<(), Fail> {
    for (place, word) in [(6, 0xC000_03E9), (7, 0xC000_0001), (9, 0x4000_03F2)] {
        let mut words = FILE;
        *words.get_mut(place).ok_or("no such place")? = word;
        are_loaded(&rt, rt.alloc(), &[(&words, &[BASE], &[&RETURN])])?;
    }
    Ok(())
}

/// The bytes of hunks in memory.
const RETURN: [u8; 4] = [0x4E, 0x75, 0x4E, 0x71];

const RELOCATED: [u8; 12] = [0, 0, 0x20, 0, 0, 0, 0x10, 0, 0, 0, 0x20, 4];

const RETURNS: [u8; 8] = [0x4E, 0x71, 0x4E, 0x71, 0x4E, 0x75, 0x4E, 0x71];

const CALLS: [u8; 8] = [0x4E, 0xB9, 0, 2, 0, 4, 0x4E, 0x75];

const CALLS_ZEROS: [u8; 8] = [0x4E, 0xB9, 0, 2, 0, 0, 0x4E, 0x75];

const STRETCHED: [u8; 12] = [0x4E, 0x75, 0x4E, 0x71, 0, 0, 0, 0, 0, 1, 0, 0];

const EXAMPLE: [u8; 16] = [
    0x20, 0x7C, 0, 2, 0, 0, 0x4E, 0xB9, 0, 1, 0, 0x0E, 0x4E, 0x75, 0x4E, 0x75,
];

/// Load files of one hunk.
static ONE_HUNK: [Row<'static>; 6] = [
    (&FILE, &[BASE], &[&RETURN]),
    (&BEHIND_CONTENT, &[BASE], &[&STRETCHED]),
    (&ZEROS, &[0xFFFF_FFEC], &[&[0; 20]]),
    (&SHORT, &[BASE], &[&[0, 1, 0, 4, 0, 1, 0, 0]]),
    (&EVEN_WORDS, &[BASE], &[&[0, 0, 0, 4, 0, 1, 0, 0]]),
    (&NO_WORDS, &[BASE], &[&[0, 0, 0, 4, 0, 0, 0, 0]]),
];

#[test]
fn loads_one_hunk(rt: HostRuntime) -> Result<(), Fail> {
    are_loaded(&rt, rt.alloc(), &ONE_HUNK)
}

/// Load files of two or three hunks. The last one is the repository's example.
static SOME_HUNKS: [Row<'static>; 6] = [
    (&SCATTERED, &[0x1000, 0x2000], &[&RELOCATED, &[0; 4]]),
    (&WRITTEN, &[0x1000, 0x2000], &[&RELOCATED, &[0; 4]]),
    (&LINKED, &[BASE, 0x0002_0000], &[&CALLS, &RETURNS]),
    (
        &LINKED_ALONE,
        &[BASE, 0x0002_0000],
        &[&CALLS_ZEROS, &[0; 8]],
    ),
    (
        &THREE_HUNKS,
        &[0x1000, 0x2000, 0x3000],
        &[&RETURNS, &[0, 0, 0x30, 8], &[0; 16]],
    ),
    (
        &TWO_HUNKS,
        &[BASE, 0x0002_0000],
        &[&EXAMPLE, b"hunk\0\0\0\0"],
    ),
];

#[test]
fn loads_some_hunks(rt: HostRuntime) -> Result<(), Fail> {
    are_loaded(&rt, rt.alloc(), &SOME_HUNKS)
}
