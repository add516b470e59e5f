//! Both calls that load a load file, with each of their allocations failing in turn.

use super::answers::bytes_of;
use super::asserts::{equals, equals_at, holds};
use hunk_loader::{Image, LoadRefusal, load, load_file};
use hunk_loadfile::{LoadFile, read_load};
use hunk_test_support::Refusing;
use hunk_words::Pieces;
use std::alloc::{Allocator, Global};
use std::process::Abort;
use std::test::Fail;

/// Bytes per read.
const PIECE: usize = 4096;

/// More allocations than a call of these tests makes.
const MOST_ALLOCATIONS: u64 = 16;

/// The longwords of a load file: code with zeros after its content, among them the address of the
/// second hunk; data with the address of the first one; and zeros alone.
static WORDS: [u32; 29] = [
    0x3F3, 0, 3, 0, 2, 3, 1, 2, //
    0x3E9, 1, 0x4E714E75, 0x3EC, 1, 1, 8, 0, 0x3F2, //
    0x3EA, 1, 8, 0x3EC, 1, 0, 0, 0, 0x3F2, //
    0x3EB, 2, 0x3F2,
];

/// Where its hunks are loaded.
static BASES: [u32; 3] = [0x0001_0000, 0x0002_0000, 0x0003_0000];

/// Their bytes there.
static MEMORY: [&[u8]; 3] = [
    &[0x4E, 0x71, 0x4E, 0x75, 0, 0, 0, 0, 0, 2, 0, 0],
    &[0, 1, 0, 8],
    &[0; 8],
];

/// What is called.
#[derive(Clone, Copy, Debug)]
enum Call {
    Copies,
    Moves,
}

/// The load file, allocated from `heap`.
fn file_of<A: Allocator + Copy>(global: Global, heap: A) -> Result<LoadFile<A>, Fail> {
    let mut reader = Pieces::new(bytes_of(global, &WORDS)?, PIECE, None);
    Ok(read_load(heap, &mut reader)?)
}

/// The number of allocations to read it.
fn allocations_of_reading(alloc: Global) -> Result<u64, Fail> {
    let heap = Refusing::new(alloc, u64::MAX);
    let _file = file_of(alloc, &heap)?;
    Ok(heap.asked())
}

/// The image is the memory of the load file.
fn is_memory<A: Allocator + Copy>(rt: &impl Abort, image: &Image<A>) {
    let hunks = image.hunks();
    equals(rt, hunks.len(), MEMORY.len());
    for (((base, bytes), at), want) in hunks.iter().zip(&BASES).zip(MEMORY) {
        equals(rt, *base, *at);
        equals_at(rt, &("at", base), bytes.as_slice(), want);
    }
}

/// Whether the load file was loaded with this allocation failing. If not, memory ran out.
fn is_loaded(rt: &impl Abort, alloc: Global, call: Call, refused: u64) -> Result<bool, Fail> {
    let heap = Refusing::new(alloc, refused);
    let file = file_of(alloc, &heap)?;
    let loaded = match call {
        Call::Copies => load(&heap, &file, &BASES),
        Call::Moves => load_file(&heap, file, &BASES),
    };
    match loaded {
        Ok(image) => {
            holds(rt, &(call, "allocation", refused), heap.asked() <= refused);
            is_memory(rt, &image);
            Ok(true)
        }
        Err(refusal) => {
            equals(rt, refusal, LoadRefusal::OutOfMemory);
            holds(rt, &(call, "allocation", refused), refused < heap.asked());
            Ok(false)
        }
    }
}

/// The number of allocations of the call, after those to read the load file: it runs out of memory
/// with each of them failing, and succeeds once none fails.
fn allocations_of(rt: &impl Abort, alloc: Global, call: Call) -> Result<u64, Fail> {
    let before = allocations_of_reading(alloc)?;
    for number in 0..MOST_ALLOCATIONS {
        if is_loaded(rt, alloc, call, before.saturating_add(number))? {
            return Ok(number);
        }
    }
    holds(
        rt,
        &("each call was out of memory", MOST_ALLOCATIONS),
        false,
    );
    Ok(0)
}

#[test]
fn is_out_of_memory_at_each_allocation_of_a_load(rt: HostRuntime) -> Result<(), Fail> {
    let rows = [
        // the hunks, and the bytes of each
        (Call::Copies, 4),
        // the hunks, and the bytes of the two that have zeros after their content
        (Call::Moves, 3),
    ];
    for (call, wanted) in rows {
        let allocations = allocations_of(&rt, rt.alloc(), call)?;
        equals_at(&rt, &call, allocations, wanted);
    }
    Ok(())
}
