//! Load files whose hunks get their addresses once the header is read.

use super::asserts::{equals, equals_at, holds};
use hunk_loader::{HeaderHunk, HeaderLoader, Image, LoadRefusal, PlaceFault, PlaceRefusal};
use hunk_loadfile::Memory;
use hunk_test_support::load_words::TWO_HUNKS;
use hunk_test_support::{CHUNKS, FILE, Refusing, bytes_of};
use hunk_words::{Fault, Reason};
use std::alloc::{Allocator, Global};
use std::process::Abort;
use std::test::Fail;

// The tests of a header are generic in its allocator: a call of its methods takes a fifth of the proof there that
// it takes at the global allocator.

/// Feeds these bytes in pieces of this size, and returns how many were taken.
fn feed_header<A: Allocator + Copy>(
    rt: &impl Abort,
    header: &mut HeaderLoader<A>,
    bytes: &[u8],
    chunk: usize,
) -> Result<usize, LoadRefusal> {
    assert!(rt; 1 <= chunk);
    let mut taken: usize = 0;
    for piece in bytes.chunks(chunk) {
        taken = taken.saturating_add(header.feed(piece)?);
    }
    Ok(taken)
}

/// The image of these bytes, fed in pieces of this size: first the header, then the rest at these
/// bases.
pub(crate) fn sized<A: Allocator + Copy>(
    rt: &impl Abort,
    alloc: A,
    bytes: &[u8],
    bases: &[u32],
    chunk: usize,
) -> Result<Image<A>, LoadRefusal> {
    assert!(rt; 1 <= chunk);
    let mut header = HeaderLoader::new(alloc);
    let taken = feed_header(rt, &mut header, bytes, chunk)?;
    let mut loader = match header.place(bases) {
        Ok(loader) => loader,
        Err(PlaceRefusal::HeaderIncomplete) => return Err(header.finish()),
        Err(PlaceRefusal::Place(fault)) => return Err(LoadRefusal::Place(fault)),
        Err(PlaceRefusal::OutOfMemory) => return Err(LoadRefusal::OutOfMemory),
    };
    for piece in bytes.get(taken..).unwrap_or(&[]).chunks(chunk) {
        loader.feed(piece)?;
    }
    loader.finish()
}

/// In any pieces, these bytes are refused for this reason, at this longword.
fn is_refused(
    rt: &impl Abort,
    alloc: Global,
    bytes: &[u8],
    place: u64,
    reason: Reason,
) -> Result<(), Fail> {
    for chunk in CHUNKS {
        match sized(rt, alloc, bytes, &[0x1000], chunk) {
            Ok(_) => holds(rt, &("loaded", place, chunk), false),
            Err(refusal) => equals_at(
                rt,
                &chunk,
                refusal,
                LoadRefusal::File(Fault { place, reason }),
            ),
        }
    }
    Ok(())
}

#[test]
fn refuses_each_longword_of_a_header(rt: HostRuntime) -> Result<(), Fail> {
    let rows = [
        (0, 0x3E7, Reason::WrongStart),
        (1, 1, Reason::ResidentNames),
        (2, 0, Reason::HunkTable),
        (2, 0x0001_0000, Reason::HunkTable),
        (3, 1, Reason::HunkTable),
        (4, 1, Reason::HunkTable),
        (5, 0xC000_0001, Reason::BothMemoryBits),
        (5, 0x0100_0001, Reason::TooLarge),
        (6, 0x3F2, Reason::MisplacedType(0x3F2)),
        (7, 2, Reason::ContentTooLong),
    ];
    for (place, word, reason) in rows {
        let mut words = FILE;
        *words.get_mut(place).ok_or("no such place")? = word;
        let bytes = bytes_of(rt.alloc(), &words, &[])?;
        is_refused(&rt, rt.alloc(), &bytes, place as u64, reason)?;
    }
    Ok(())
}

#[test]
fn refuses_a_file_that_ends_anywhere(rt: HostRuntime) -> Result<(), Fail> {
    let bytes = bytes_of(rt.alloc(), &FILE, &[])?;
    for size in 0..bytes.len() {
        let front = bytes.get(..size).ok_or("no such size")?;
        let reason = if size % 4 == 0 {
            Reason::UnexpectedEnd
        } else {
            Reason::PartialLongword
        };
        is_refused(&rt, rt.alloc(), front, size as u64 / 4, reason)?;
    }
    Ok(())
}

/// In any pieces, these bytes, of which the header takes 32, tell these sizes and memory.
fn tells<A: Allocator + Copy>(rt: &impl Abort, alloc: A, bytes: &[u8], wants: &[HeaderHunk]) {
    for chunk in CHUNKS {
        let mut header = HeaderLoader::new(alloc);
        let taken = feed_header(rt, &mut header, bytes, chunk);
        equals(rt, taken, Ok(32));
        equals(rt, header.hunks(), Some(wants));
        equals(rt, header.feed(bytes), Ok(0));
    }
}

#[test]
fn tells_sizes_and_memory(rt: HostRuntime) -> Result<(), Fail> {
    let words = [0x3F3, 0, 3, 0, 2, 5, 0x4000_0000, 0x80FF_FFFB, 0x3E9];
    let bytes = bytes_of(rt.alloc(), &words, &[])?;
    let wants = [
        HeaderHunk {
            size: 5,
            memory: Memory::Any,
        },
        HeaderHunk {
            size: 0,
            memory: Memory::Chip,
        },
        HeaderHunk {
            size: 0x00FF_FFFB,
            memory: Memory::Fast,
        },
    ];
    tells(&rt, rt.alloc(), &bytes, &wants);
    Ok(())
}

/// After this error, every later call of the header returns the same error.
fn answers_again<A: Allocator + Copy>(rt: &impl Abort, alloc: A, refusal: LoadRefusal) {
    let mut header = HeaderLoader::new(alloc);
    equals(rt, header.feed(&[0, 0, 3, 0xE7, 0]), Err(refusal));
    equals(rt, header.feed(&[]), Err(refusal));
    equals(rt, header.hunks(), None);
    let placed = header.place(&[0x1000]).err();
    equals(rt, placed, Some(PlaceRefusal::HeaderIncomplete));
    equals(rt, header.finish(), refusal);
}

#[test]
fn answers_a_refused_header_again(rt: HostRuntime) {
    let refusal = LoadRefusal::File(Fault {
        place: 0,
        reason: Reason::WrongStart,
    });
    answers_again(&rt, rt.alloc(), refusal);
}

/// These bytes are a header of two hunks, which is placed once it is whole, at bases that hold them.
fn is_placed_whole<A: Allocator + Copy>(rt: &impl Abort, alloc: A, bytes: &[u8]) {
    let mut header = HeaderLoader::new(alloc);
    for byte in bytes {
        equals(rt, header.hunks(), None);
        let placed = header.place(&[0x1000, 0x2000]).err();
        equals(rt, placed, Some(PlaceRefusal::HeaderIncomplete));
        equals(rt, header.feed(&[*byte]), Ok(1));
    }
    let rows: [(&[u32], PlaceFault); 4] = [
        (&[], PlaceFault::WrongCount),
        (&[0x1000], PlaceFault::WrongCount),
        (&[0x1000, 0xFFFF_FFFC], PlaceFault::PastEnd(1)),
        (&[0x1000, 0x100C], PlaceFault::Overlap(0, 1)),
    ];
    for (bases, fault) in rows {
        let placed = header.place(bases).err();
        equals(rt, placed, Some(PlaceRefusal::Place(fault)));
    }
}

#[test]
fn places_a_whole_header_alone(rt: HostRuntime) -> Result<(), Fail> {
    let bytes = bytes_of(rt.alloc(), &TWO_HUNKS, &[])?;
    is_placed_whole(&rt, rt.alloc(), &bytes[..28]);
    Ok(())
}

/// The bytes at offsets 2 to 5 of the first hunk: the base of the second one.
fn is_at<A: Allocator + Copy>(rt: &impl Abort, image: &Image<A>, base: u32, wanted: [u8; 4]) {
    let mut address = base.wrapping_add(2);
    for want in wanted {
        equals(rt, image.byte(address), Some(want));
        address = address.wrapping_add(1);
    }
}

/// Loads the file of these bytes twice, at other bases.
fn is_loaded_twice<A: Allocator + Copy>(
    rt: &impl Abort,
    alloc: A,
    bytes: &[u8],
) -> Result<(), Fail> {
    let mut header = HeaderLoader::new(alloc);
    let taken = header.feed(bytes)?;
    let rest = bytes.get(taken..).ok_or("no rest")?;
    let rows = [
        (0x1000, 0x0002_0000, [0, 2, 0, 0]),
        (0x3000, 0x0400_0000, [4, 0, 0, 0]),
    ];
    for (first, second, wanted) in rows {
        match header.place(&[first, second]) {
            Ok(mut loader) => {
                loader.feed(rest)?;
                is_at(rt, &loader.finish()?, first, wanted);
            }
            Err(refusal) => holds(rt, &refusal, false),
        }
    }
    Ok(())
}

#[test]
fn loads_a_file_twice(rt: HostRuntime) -> Result<(), Fail> {
    let bytes = bytes_of(rt.alloc(), &TWO_HUNKS, &[])?;
    is_loaded_twice(&rt, rt.alloc(), &bytes)
}

/// Rooms for these hunks, with bytes that are to be forgotten.
fn rooms_of<A: Allocator + Copy>(
    alloc: A,
    hunks: &[HeaderHunk],
) -> Result<Vec<Vec<u8, A>, A>, Fail> {
    let mut rooms = Vec::new(alloc);
    for hunk in hunks {
        let mut room = Vec::with_capacity(alloc, 4 * hunk.size as usize)?;
        room.resize(4 * hunk.size as usize, 0xFF)?;
        rooms.push(room)?;
    }
    Ok(rooms)
}

/// Loads the rest of `TWO_HUNKS` in these rooms, and returns how many allocations that takes.
fn allocations<A: Allocator + Copy>(
    rt: &impl Abort,
    heap: &Refusing,
    header: &HeaderLoader<A>,
    rest: &[u8],
    rooms: Vec<Vec<u8, A>, A>,
) -> Result<u64, Fail> {
    let before = heap.asked();
    let placed = header.place_in(&[0x1000, 0x0002_0000], rooms);
    let mut loader = placed.ok().ok_or("not placed")?;
    loader.feed(rest)?;
    let image = loader.finish()?;
    is_at(rt, &image, 0x1000, [0, 2, 0, 0]);
    Ok(heap.asked().wrapping_sub(before))
}

/// Loads `TWO_HUNKS` without rooms and with them, at an allocator that counts in `heap`.
fn loads_in_rooms<A: Allocator + Copy>(
    rt: &impl Abort,
    heap: &Refusing,
    alloc: A,
    bytes: &[u8],
) -> Result<(), Fail> {
    let mut header = HeaderLoader::new(alloc);
    let taken = header.feed(bytes)?;
    let rest = bytes.get(taken..).ok_or("no rest")?;
    let alone = allocations(rt, heap, &header, rest, Vec::new(alloc))?;
    for given in [1, 2] {
        let hunks = header.hunks().ok_or("no hunks")?;
        let rooms = rooms_of(alloc, hunks.get(..given).ok_or("too few hunks")?)?;
        // Each of the two hunks has bytes, and takes one allocation where it has no room.
        let beside = allocations(rt, heap, &header, rest, rooms)?;
        equals(rt, alone.wrapping_sub(beside), given as u64);
    }
    Ok(())
}

#[test]
fn makes_hunks_in_rooms(rt: HostRuntime) -> Result<(), Fail> {
    let bytes = bytes_of(rt.alloc(), &TWO_HUNKS, &[])?;
    let heap = Refusing::new(rt.alloc(), u64::MAX);
    loads_in_rooms(&rt, &heap, &heap, &bytes)
}
