//! Allocations that fail, each in turn.

use super::asserts::{equals, equals_at, holds};
use hunk_test_support::words::SCATTERED;
use hunk_test_support::{BASE, FILE, REPORT, Refusing, bytes_of};
use hunk_tool::{BasesFault, ToolFault, load_run, parse_bases};
use hunk_words::{Pieces, Room};
use std::alloc::{Allocator, Global};
use std::process::Abort;
use std::test::Fail;

/// More allocations than a call of the tests makes.
pub(crate) const MOST_GROWTHS: u64 = 64;

/// Whether a run wrote its text, since the allocation that was to fail never came. If it came, memory
/// ran out, and nothing was written.
pub(crate) fn is_done<A: Allocator + Copy>(
    rt: &impl Abort,
    heap: &Refusing,
    refused: u64,
    got: &Result<(), ToolFault<A>>,
    written: &[u8],
    text: &str,
) -> bool {
    if heap.asked() <= refused {
        holds(rt, &("growth", refused), got.is_ok());
        equals(rt, written, text.as_bytes());
        return true;
    }
    let out_of_memory = matches!(got, Err(ToolFault::OutOfMemory { written: 0 }));
    holds(rt, &("growth", refused), out_of_memory);
    holds(rt, &("growth", refused), written.is_empty());
    false
}

/// Whether the run wrote the report with this allocation failing.
fn is_run(
    rt: &impl Abort,
    alloc: Global,
    bytes: &[u8],
    bases: &[u32],
    text: &str,
    refused: u64,
) -> Result<bool, Fail> {
    let heap = Refusing::new(alloc, refused);
    let mut reader = Pieces::new(bytes.to_vec(alloc)?, 64, None);
    let mut writer = Room::new(alloc, 64, 256, false)?;
    let got = load_run(&heap, &mut reader, bases, &mut writer);
    Ok(is_done(rt, &heap, refused, &got, writer.bytes(), text))
}

/// The number of allocations: the run is out of memory with each of them failing, and succeeds once
/// none fails.
fn growths_of(
    rt: &impl Abort,
    alloc: Global,
    words: &[u32],
    bases: &[u32],
    text: &str,
) -> Result<u64, Fail> {
    let bytes = bytes_of(alloc, words, &[])?;
    for refused in 0..MOST_GROWTHS {
        if is_run(rt, alloc, &bytes, bases, text, refused)? {
            return Ok(refused);
        }
    }
    holds(rt, &("each run was refused a growth", MOST_GROWTHS), false);
    Ok(0)
}

/// A load file of nine longwords, of which the first has content.
const LONGER: [u32; 10] = [0x3F3, 0, 1, 0, 0, 9, 0x3E9, 1, 0x4E75_4E71, 0x3F2];

/// Load files, the addresses of their hunks, their reports, and the fewest allocations of a run: the
/// bases, the sizes, the hunks, and the bytes of each.
static RUNS: [(&[u32], &[u32], &str, u64); 3] = [
    (&FILE, &[BASE], REPORT, 4),
    (
        &LONGER,
        &[BASE],
        "hunk 0 at 00010000 size 36\n\
         00010000 4e754e71000000000000000000000000\n\
         00010010 00000000000000000000000000000000\n\
         00010020 00000000\n",
        4,
    ),
    (
        &SCATTERED,
        &[0x1000, 0x2000],
        "hunk 0 at 00001000 size 12\n00001000 000020000000100000002004\n\
         hunk 1 at 00002000 size 4\n00002000 00000000\n",
        5,
    ),
];

#[test]
fn loads_with_each_growth_refused(rt: HostRuntime) -> Result<(), Fail> {
    for &(words, bases, text, least) in &RUNS {
        let growths = growths_of(&rt, rt.alloc(), words, bases, text)?;
        holds(&rt, &("growths", growths), least <= growths);
    }
    Ok(())
}

/// Whether the addresses were parsed with this allocation failing. If not, memory ran out.
fn is_parsed(rt: &impl Abort, alloc: Global, refused: u64) -> bool {
    let heap = Refusing::new(alloc, refused);
    let got = parse_bases(&heap, "10000,FfFffff8");
    if heap.asked() <= refused {
        let bases = [0x0001_0000, 0xFFFF_FFF8];
        equals(rt, got.as_deref(), Ok(bases.as_slice()));
        return true;
    }
    equals_at(
        rt,
        &("growth", refused),
        got.err(),
        Some(BasesFault::OutOfMemory),
    );
    false
}

#[test]
fn parses_with_each_growth_refused(rt: HostRuntime) {
    assert!(rt; !is_parsed(&rt, rt.alloc(), 0));
    for refused in 1..MOST_GROWTHS {
        if is_parsed(&rt, rt.alloc(), refused) {
            return;
        }
    }
    holds(
        &rt,
        &("each call was refused a growth", MOST_GROWTHS),
        false,
    );
}

#[test]
fn makes_room_with_a_growth_refused(rt: HostRuntime) -> Result<(), Fail> {
    let heap = Refusing::new(rt.alloc(), 0);
    assert!(rt; Room::new(&heap, 1, 1, false).is_err());
    assert!(rt; Room::new(&heap, 1, 1, false)?.bytes().is_empty());
    equals(&rt, heap.asked(), 2);
    Ok(())
}
