//! What `ImageLoader` allocates, and which of two errors it returns.

use super::asserts::{equals, equals_at, holds};
use super::decoders::Judge;
use hunk_loader::{ImageLoader, LoadRefusal, PlaceFault, load};
use hunk_loadfile::LoadDecoder;
use hunk_test_support::{BASE, CHUNKS, FILE, REPORT, ROOM, Refusing, bytes_of};
use hunk_tool::load_run;
use hunk_words::{Fault, Pieces, Reason, Room};
use std::alloc::{Allocator, Global};
use std::process::Abort;
use std::test::Fail;

/// The longwords of a long debug block.
const DEBUG_LONGWORDS: u32 = 100_000;

/// The bytes are loaded at these addresses, with this result.
fn is_loaded_so<A: Allocator + Copy>(
    rt: &impl Abort,
    alloc: A,
    bytes: &[u8],
    bases: &[u32],
    answer: Result<(), LoadRefusal>,
) -> Result<(), Fail> {
    let mut loader = ImageLoader::new(alloc, bases)?;
    equals(rt, loader.judge(bytes), Ok(()));
    equals_at(rt, &bases, loader.close(), answer);
    Ok(())
}

/// The number of allocations of that.
fn growths(
    rt: &impl Abort,
    alloc: Global,
    bytes: &[u8],
    bases: &[u32],
    answer: Result<(), LoadRefusal>,
) -> Result<u64, Fail> {
    let heap = Refusing::new(alloc, u64::MAX);
    is_loaded_so(rt, &heap, bytes, bases, answer)?;
    Ok(heap.asked())
}

/// The number of allocations of a whole run with the report.
fn growths_of_run(rt: &impl Abort, alloc: Global, bytes: &[u8]) -> Result<u64, Fail> {
    let heap = Refusing::new(alloc, u64::MAX);
    let mut reader = Pieces::new(bytes.to_vec(alloc)?, 4096, None);
    let mut writer = Room::new(alloc, ROOM, ROOM, false)?;
    assert!(rt; load_run(&heap, &mut reader, &[BASE], &mut writer).is_ok());
    equals(rt, writer.bytes(), REPORT.as_bytes());
    Ok(heap.asked())
}

#[test]
fn answers_the_file_before_the_addresses(rt: HostRuntime) -> Result<(), Fail> {
    let bytes = bytes_of(rt.alloc(), &FILE, &[])?;
    let wrong = Err(LoadRefusal::Place(PlaceFault::WrongCount));
    let unended = Err(LoadRefusal::File(Fault {
        place: 9,
        reason: Reason::UnexpectedEnd,
    }));
    let front = bytes.get(..36).ok_or("too short")?;
    for bases in [[].as_slice(), &[BASE, 0x0002_0000]] {
        growths(&rt, rt.alloc(), front, bases, unended)?;
        growths(&rt, rt.alloc(), &bytes, bases, wrong)?;
    }
    Ok(())
}

#[test]
fn takes_no_image_that_cannot_be_placed(rt: HostRuntime) -> Result<(), Fail> {
    let bytes = bytes_of(rt.alloc(), &FILE, &[])?;
    let past = Err(LoadRefusal::Place(PlaceFault::PastEnd(0)));
    let refused = growths(&rt, rt.alloc(), &bytes, &[0xFFFF_FFFE], past)?;
    let placed = growths(&rt, rt.alloc(), &bytes, &[BASE], Ok(()))?;
    holds(&rt, &(refused, "of", placed, "growths"), refused < placed);
    Ok(())
}

#[test]
fn keeps_no_debug_block(rt: HostRuntime) -> Result<(), Fail> {
    let bytes = bytes_of(rt.alloc(), &FILE, &[])?;
    let mut words = FILE[..9].to_vec(rt.alloc())?;
    words.extend_from_slice(&[0x0000_03F1, DEBUG_LONGWORDS])?;
    for number in 0..DEBUG_LONGWORDS {
        words.push(number)?;
    }
    words.push(0x0000_03F2)?;
    let longer = bytes_of(rt.alloc(), &words, &[])?;
    equals(&rt, longer.len(), 400_048);
    equals(
        &rt,
        growths(&rt, rt.alloc(), &bytes, &[BASE], Ok(()))?,
        growths(&rt, rt.alloc(), &longer, &[BASE], Ok(()))?,
    );
    equals(
        &rt,
        growths_of_run(&rt, rt.alloc(), &bytes)?,
        growths_of_run(&rt, rt.alloc(), &longer)?,
    );
    Ok(())
}

/// In pieces of this size, the addresses are rejected for this reason by `ImageLoader`, and by
/// decoding the whole file and then loading it.
fn is_refused<A: Allocator + Copy>(
    rt: &impl Abort,
    alloc: A,
    bytes: &[u8],
    chunk: usize,
    bases: &[u32],
    fault: PlaceFault,
) -> Result<(), Fail> {
    assert!(rt; 1 <= chunk);
    let want = Some(LoadRefusal::Place(fault));
    let mut loader = ImageLoader::new(alloc, bases)?;
    let mut decoder = LoadDecoder::new(alloc);
    for piece in bytes.chunks(chunk) {
        equals(rt, loader.feed(piece), Ok(()));
        equals(rt, decoder.feed(piece), Ok(()));
    }
    equals_at(rt, &bases, loader.finish().err(), want);
    let file = decoder.finish()?;
    equals_at(rt, &bases, load(alloc, &file, bases).err(), want);
    Ok(())
}

#[test]
fn refuses_addresses_in_both_ways(rt: HostRuntime) -> Result<(), Fail> {
    let bytes = bytes_of(rt.alloc(), &FILE, &[])?;
    let past = PlaceFault::PastEnd(0);
    for chunk in CHUNKS {
        is_refused(&rt, rt.alloc(), &bytes, chunk, &[], PlaceFault::WrongCount)?;
        is_refused(&rt, rt.alloc(), &bytes, chunk, &[0xFFFF_FFFE], past)?;
    }
    Ok(())
}
