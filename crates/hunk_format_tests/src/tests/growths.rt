//! Calls on load files with each of their allocations failing in turn.

use super::asserts::{equals, equals_at, holds};
use super::loaded::has_bytes;
use super::sized::sized;
use super::values::{SCATTERED_HUNKS, has_hunks};
use super::written::file_of;
use hunk_loader::{ImageFault, LoadRefusal, load, read_image};
use hunk_loadfile::{read_load, write_load};
use hunk_test_support::words::{SCATTERED, WRITTEN};
use hunk_test_support::{ROOM, Refusing, bytes_of};
use hunk_words::{Pieces, ReadFault, Refusal, Room, WriteFault};
use std::alloc::{Allocator, Global};
use std::process::Abort;
use std::test::Fail;

/// More allocations than a call of the tests makes.
const MOST_GROWTHS: u64 = 64;

/// Where the hunks are loaded.
const BASES: [u32; 2] = [0x0000_1000, 0x0000_2000];

/// Their bytes there.
const MEMORY: [&[u8]; 2] = [&[0, 0, 0x20, 0, 0, 0, 0x10, 0, 0, 0, 0x20, 4], &[0; 4]];

/// What is called.
#[derive(Clone, Copy, Debug)]
enum Call {
    Read,
    Image,
    Sized,
    Load,
    Write,
}

/// The number of allocations to read the file.
pub(crate) fn growths_of_reading(alloc: Global, bytes: &[u8]) -> Result<u64, Fail> {
    let heap = Refusing::new(alloc, u64::MAX);
    let _file = file_of(&heap, bytes.to_vec(alloc)?)?;
    Ok(heap.asked())
}

/// Whether the file was read. If not, memory ran out; likewise for the other calls.
fn is_read<A: Allocator + Copy>(
    rt: &impl Abort,
    alloc: Global,
    heap: A,
    bytes: &[u8],
) -> Result<bool, Fail> {
    let mut reader = Pieces::new(bytes.to_vec(alloc)?, ROOM, None);
    match read_load(heap, &mut reader) {
        Ok(file) => has_hunks(rt, &file, &SCATTERED_HUNKS),
        Err(fault) => {
            equals(rt, fault, ReadFault::Refused(Refusal::OutOfMemory));
            return Ok(false);
        }
    }
    Ok(true)
}

fn is_image<A: Allocator + Copy>(
    rt: &impl Abort,
    alloc: Global,
    heap: A,
    bytes: &[u8],
) -> Result<bool, Fail> {
    let mut reader = Pieces::new(bytes.to_vec(alloc)?, ROOM, None);
    match read_image(heap, &mut reader, &BASES) {
        Ok(image) => has_bytes(rt, &image, &BASES, &MEMORY),
        Err(fault) => {
            equals(rt, fault, ImageFault::Refused(LoadRefusal::OutOfMemory));
            return Ok(false);
        }
    }
    Ok(true)
}

fn is_sized<A: Allocator + Copy>(rt: &impl Abort, heap: A, bytes: &[u8]) -> bool {
    match sized(rt, heap, bytes, &BASES, ROOM) {
        Ok(image) => has_bytes(rt, &image, &BASES, &MEMORY),
        Err(refusal) => {
            equals(rt, refusal, LoadRefusal::OutOfMemory);
            return false;
        }
    }
    true
}

fn is_loaded<A: Allocator + Copy>(
    rt: &impl Abort,
    alloc: Global,
    heap: A,
    bytes: &[u8],
) -> Result<bool, Fail> {
    let file = file_of(heap, bytes.to_vec(alloc)?)?;
    match load(heap, &file, &BASES) {
        Ok(image) => has_bytes(rt, &image, &BASES, &MEMORY),
        Err(refusal) => {
            equals(rt, refusal, LoadRefusal::OutOfMemory);
            return Ok(false);
        }
    }
    Ok(true)
}

fn is_written<A: Allocator + Copy>(
    rt: &impl Abort,
    alloc: Global,
    heap: A,
    bytes: &[u8],
) -> Result<bool, Fail> {
    let file = file_of(heap, bytes.to_vec(alloc)?)?;
    let text = bytes_of(alloc, &WRITTEN, &[])?;
    let mut writer = Room::new(alloc, ROOM, ROOM, false)?;
    match write_load(heap, &file, &mut writer) {
        Ok(()) => equals(rt, writer.bytes(), text.as_slice()),
        Err(fault) => {
            let written = writer.bytes().len() as u64;
            equals(rt, fault, WriteFault::OutOfMemory { written });
            holds(rt, &written, text.starts_with(writer.bytes()));
            return Ok(false);
        }
    }
    Ok(true)
}

/// The number of allocations of the call: it runs out of memory with each of them failing, and
/// succeeds once none fails. The allocations to read the file that is loaded or written come before.
fn growths_of(rt: &impl Abort, alloc: Global, call: Call, bytes: &[u8]) -> Result<u64, Fail> {
    let before = match call {
        Call::Read | Call::Image | Call::Sized => 0,
        Call::Load | Call::Write => growths_of_reading(alloc, bytes)?,
    };
    for number in 0..MOST_GROWTHS {
        let refused = before.saturating_add(number);
        let heap = Refusing::new(alloc, refused);
        let done = match call {
            Call::Read => is_read(rt, alloc, &heap, bytes)?,
            Call::Image => is_image(rt, alloc, &heap, bytes)?,
            Call::Sized => is_sized(rt, &heap, bytes),
            Call::Load => is_loaded(rt, alloc, &heap, bytes)?,
            Call::Write => is_written(rt, alloc, &heap, bytes)?,
        };
        equals_at(
            rt,
            &(call, "growth", refused),
            done,
            heap.asked() <= refused,
        );
        if done {
            return Ok(number);
        }
    }
    holds(rt, &("each run was refused a growth", MOST_GROWTHS), false);
    Ok(0)
}

#[test]
fn refuses_each_growth_of_a_call(rt: HostRuntime) -> Result<(), Fail> {
    let bytes = bytes_of(rt.alloc(), &SCATTERED, &[])?;
    let rows = [
        // sizes, hunks, content, sites, symbols, a name, debug blocks, and one of them
        (Call::Read, 8),
        // the bases, the sizes, the hunks and the bytes of each
        (Call::Image, 5),
        // the bytes of the header, its sizes, its hunks, and what an image takes
        (Call::Sized, 8),
        // the hunks and the bytes of each
        (Call::Load, 3),
        // the sites of the first hunk
        (Call::Write, 1),
    ];
    for (call, least) in rows {
        let growths = growths_of(&rt, rt.alloc(), call, &bytes)?;
        holds(&rt, &(call, "growths", growths), least <= growths);
    }
    Ok(())
}
