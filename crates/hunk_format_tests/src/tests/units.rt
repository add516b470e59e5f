//! Program units, as they are read.

use super::asserts::{equals, equals_at, holds};
use super::unit_values::{EMPTY, Hunk, Unit, are_units, is_copied};
use hunk_objects::{Adds, Definition, HunkKind, Memory, ObjectDecoder, UnitHunk, read_object};
use hunk_test_support::words::{
    ADDRESS, ASSEMBLED, CHIP, DEFINES, DEFINES_LONGER, REFERS, TWO_NAMES,
};
use hunk_test_support::{CHUNKS, LATER_PIECES, ROOM, Refusing, bytes_of};
use hunk_words::{Fault, Pieces, ReadFault, Reason, Refusal};
use linked_list_allocator::LocalHeap;
use std::alloc::{Allocator, Global};
use std::process::Abort;
use std::test::Fail;

/// More allocations than an object file of the tests needs.
const MOST_GROWTHS: u64 = 128;

/// Bytes of memory, far fewer than a small file can announce.
const BUDGET: usize = 65_536;

/// A unit that announces 2^30 - 1 longwords of code, and has one of them.
const ANNOUNCES: [u32; 5] = [0x0000_03E7, 0, 0x0000_03E9, 0x3FFF_FFFF, 0x4E71_4E71];

/// The hunk that refers to `foo`.
const REFERS_HUNK: Hunk<'static> = Hunk {
    size: 2,
    content: &[0x4E, 0xB9, 0, 0, 0, 0, 0x4E, 0x75],
    sites: &[(2, Adds::Reference(0))],
    references: &[b"foo"],
    ..EMPTY
};

/// The hunk that defines `foo`.
const DEFINES_HUNK: Hunk<'static> = Hunk {
    size: 2,
    content: &[0x4E, 0x71, 0x4E, 0x71, 0x4E, 0x75, 0x4E, 0x71],
    definitions: &[(b"foo", Definition::At(4))],
    ..EMPTY
};

/// The same with a number in place of the offset.
const NUMBER_HUNK: Hunk<'static> = Hunk {
    definitions: &[(b"foo", Definition::Absolute(0xFFFF_FFFF))],
    ..DEFINES_HUNK
};

/// The hunk with two references to `x`.
const TWO_NAMES_HUNK: Hunk<'static> = Hunk {
    size: 3,
    content: &[0; 12],
    sites: &[
        (0, Adds::Reference(1)),
        (4, Adds::Hunk(0)),
        (8, Adds::Reference(0)),
    ],
    references: &[b"x", b"x"],
    ..EMPTY
};

const CHIP_HUNK: Hunk<'static> = Hunk {
    kind: HunkKind::Data,
    memory: Memory::Chip,
    size: 1,
    content: &[0; 4],
    ..EMPTY
};

/// The hunk that has the address of hunk 1.
const ADDRESS_HUNK: Hunk<'static> = Hunk {
    size: 1,
    content: &[0, 0, 0, 8],
    sites: &[(0, Adds::Hunk(1))],
    ..EMPTY
};

/// The same with a hunk that its unit does not have.
const BEYOND_HUNK: Hunk<'static> = Hunk {
    sites: &[(0, Adds::Hunk(2))],
    ..ADDRESS_HUNK
};

/// Zeros after the hunk that has their address.
const ZEROS_HUNK: Hunk<'static> = Hunk {
    kind: HunkKind::Bss,
    size: 4,
    ..EMPTY
};

/// The hunks that an assembler wrote.
const ASSEMBLED_HUNKS: [Hunk<'static>; 2] = [
    Hunk {
        name: b"CODE",
        size: 2,
        content: &[0x4E, 0xB9, 0, 0, 0, 0, 0x4E, 0x75],
        sites: &[(2, Adds::Hunk(1))],
        definitions: &[(b"main", Definition::At(0))],
        symbols: &[(b"loop", 6)],
        debugs: &[&[0x1234_5678]],
        ..EMPTY
    },
    Hunk {
        kind: HunkKind::Bss,
        memory: Memory::Chip,
        size: 2,
        ..EMPTY
    },
];

const EMPTY_UNIT: Unit<'static> = Unit {
    name: b"",
    hunks: &[],
};

const REFERS_UNIT: Unit<'static> = Unit {
    name: b"",
    hunks: &[REFERS_HUNK],
};

const DEFINES_UNIT: Unit<'static> = Unit {
    name: b"",
    hunks: &[DEFINES_HUNK],
};

const NUMBER_UNIT: Unit<'static> = Unit {
    name: b"",
    hunks: &[NUMBER_HUNK],
};

const TWO_NAMES_UNIT: Unit<'static> = Unit {
    name: b"U",
    hunks: &[TWO_NAMES_HUNK],
};

const CHIP_UNIT: Unit<'static> = Unit {
    name: b"",
    hunks: &[CHIP_HUNK],
};

const ADDRESS_UNIT: Unit<'static> = Unit {
    name: b"",
    hunks: &[ADDRESS_HUNK, ZEROS_HUNK],
};

const BEYOND_UNIT: Unit<'static> = Unit {
    name: b"",
    hunks: &[BEYOND_HUNK, ZEROS_HUNK],
};

/// Two equal hunks.
const TWICE_UNIT: Unit<'static> = Unit {
    name: b"",
    hunks: &[REFERS_HUNK, REFERS_HUNK],
};

const ASSEMBLED_UNIT: Unit<'static> = Unit {
    name: b"test",
    hunks: &ASSEMBLED_HUNKS,
};

/// These bytes are the file of these units, in pieces of this size and from a reader.
fn is_decoded_by(
    rt: &impl Abort,
    alloc: Global,
    bytes: &[u8],
    chunk: usize,
    wanted: &[Unit<'_>],
) -> Result<(), Fail> {
    equals(rt, is_taken(rt, alloc, bytes, chunk, wanted)?, true);
    let read = is_read(rt, alloc, bytes.to_vec(alloc)?, chunk, wanted);
    equals(rt, read, true);
    Ok(())
}

/// The same in pieces of each size.
fn is_decoded(
    rt: &impl Abort,
    alloc: Global,
    words: &[u32],
    wanted: &[Unit<'_>],
) -> Result<(), Fail> {
    let bytes = bytes_of(alloc, words, &[])?;
    for chunk in CHUNKS {
        is_decoded_by(rt, alloc, &bytes, chunk, wanted)?;
    }
    Ok(())
}

#[test]
fn decodes_references_and_definitions(rt: HostRuntime) -> Result<(), Fail> {
    is_decoded(&rt, rt.alloc(), &REFERS, &[REFERS_UNIT])?;
    is_decoded(&rt, rt.alloc(), &DEFINES, &[DEFINES_UNIT])?;
    is_decoded(&rt, rt.alloc(), &DEFINES_LONGER, &[DEFINES_UNIT])?;
    // a number in place of an offset
    let mut number = DEFINES;
    number[7] = 0x0200_0001;
    number[9] = 0xFFFF_FFFF;
    is_decoded(&rt, rt.alloc(), &number, &[NUMBER_UNIT])
}

/// Two references to one name, and a third one without offsets, which is dropped.
#[test]
fn keeps_each_reference_with_offsets(rt: HostRuntime) -> Result<(), Fail> {
    is_decoded(&rt, rt.alloc(), &TWO_NAMES, &[TWO_NAMES_UNIT])
}

#[test]
fn decodes_what_an_assembler_writes(rt: HostRuntime) -> Result<(), Fail> {
    is_decoded(&rt, rt.alloc(), &ASSEMBLED, &[ASSEMBLED_UNIT])
}

/// A relocation may name a hunk that its unit does not have.
#[test]
fn decodes_hunks_of_each_kind(rt: HostRuntime) -> Result<(), Fail> {
    is_decoded(&rt, rt.alloc(), &CHIP, &[CHIP_UNIT])?;
    is_decoded(&rt, rt.alloc(), &ADDRESS, &[ADDRESS_UNIT])?;
    let mut beyond = ADDRESS;
    beyond[7] = 2;
    is_decoded(&rt, rt.alloc(), &beyond, &[BEYOND_UNIT])
}

/// References are numbered hunk by hunk, and units follow one another.
#[test]
fn decodes_units_in_order(rt: HostRuntime) -> Result<(), Fail> {
    is_decoded(&rt, rt.alloc(), &[0x0000_03E7, 0], &[EMPTY_UNIT])?;
    let mut words = REFERS.to_vec(rt.alloc())?;
    words.extend_from_slice(&REFERS[2..])?;
    words.extend_from_slice(&[0x0000_03E7, 0])?;
    words.extend_from_slice(&ASSEMBLED)?;
    is_decoded(
        &rt,
        rt.alloc(),
        &words,
        &[TWICE_UNIT, EMPTY_UNIT, ASSEMBLED_UNIT],
    )
}

/// What these hunks copy for a debugger is this.
fn are_copied<A: Allocator + Copy>(
    rt: &impl Abort,
    alloc: A,
    hunks: &[UnitHunk<A>],
    wanted: &[Hunk<'_>],
) -> Result<(), Fail> {
    equals(rt, hunks.len(), wanted.len());
    for (hunk, want) in hunks.iter().zip(wanted) {
        let symbols = hunk.copy_symbols(alloc)?;
        let debugs = hunk.copy_debugs(alloc)?;
        is_copied(rt, &symbols, &debugs, want);
    }
    Ok(())
}

#[test]
fn copies_symbols_and_debug_blocks(rt: HostRuntime) -> Result<(), Fail> {
    let bytes = bytes_of(rt.alloc(), &ASSEMBLED, &[])?;
    let mut reader = Pieces::new(bytes, ROOM, None);
    let units = read_object(rt.alloc(), &mut reader)?;
    equals(&rt, units.len(), 1);
    for unit in &units {
        are_copied(&rt, rt.alloc(), unit.hunks(), &ASSEMBLED_HUNKS)?;
    }
    Ok(())
}

/// After an error, every later call returns the same error.
fn answers_again<A: Allocator + Copy>(rt: &impl Abort, begun: ObjectDecoder<A>, refusal: Refusal) {
    let mut decoder = begun;
    for piece in LATER_PIECES {
        equals(rt, decoder.feed(piece), Err(refusal));
    }
    equals(rt, decoder.finish().err(), Some(refusal));
}

/// Whether a decoder took the file in pieces of this size. If not, memory ran out, and it returns that
/// error again.
fn is_taken<A: Allocator + Copy>(
    rt: &impl Abort,
    alloc: A,
    bytes: &[u8],
    chunk: usize,
    wanted: &[Unit<'_>],
) -> Result<bool, Fail> {
    let mut decoder = ObjectDecoder::new(alloc);
    assert!(rt; 1 <= chunk);
    for piece in bytes.chunks(chunk) {
        match decoder.feed(piece) {
            Ok(()) => {}
            Err(refusal) => {
                equals(rt, refusal, Refusal::OutOfMemory);
                answers_again(rt, decoder, refusal);
                return Ok(false);
            }
        }
    }
    are_units(rt, &decoder.finish()?, wanted);
    Ok(true)
}

/// Whether they were read from a reader, at most `most` bytes a read. If not, memory ran out.
fn is_read<A: Allocator + Copy>(
    rt: &impl Abort,
    alloc: A,
    bytes: Vec<u8>,
    most: usize,
    wanted: &[Unit<'_>],
) -> bool {
    assert!(rt; 1 <= most);
    let mut reader = Pieces::new(bytes, most, None);
    match read_object(alloc, &mut reader) {
        Ok(units) => {
            are_units(rt, &units, wanted);
            true
        }
        Err(fault) => {
            equals(rt, fault, ReadFault::Refused(Refusal::OutOfMemory));
            false
        }
    }
}

/// A file is decoded and read with each of its allocations failing in turn, until none fails.
fn refuses_each_growth_of(
    rt: &impl Abort,
    alloc: Global,
    words: &[u32],
    wanted: &[Unit<'_>],
    least: u64,
) -> Result<(), Fail> {
    let bytes = bytes_of(alloc, words, &[])?;
    let mut ended = [false, false];
    for number in 0..MOST_GROWTHS {
        let heap = Refusing::new(alloc, number);
        let taken = is_taken(rt, &heap, &bytes, 5, wanted)?;
        equals_at(rt, &("growth", number), taken, heap.asked() <= number);
        holds(rt, &("growths", number), !taken || least <= number);
        let heap = Refusing::new(alloc, number);
        let read = is_read(rt, &heap, bytes.clone()?, ROOM, wanted);
        equals_at(rt, &("growth", number), read, heap.asked() <= number);
        ended = [taken, read];
    }
    equals(rt, ended, [true, true]);
    Ok(())
}

#[test]
fn refuses_each_growth_of_an_object_file(rt: HostRuntime) -> Result<(), Fail> {
    // units, hunks, three names, content, sites, a definition, symbols, and debug blocks
    refuses_each_growth_of(&rt, rt.alloc(), &ASSEMBLED, &[ASSEMBLED_UNIT], 10)?;
    // units, hunks, content, sites, references, and a name
    refuses_each_growth_of(&rt, rt.alloc(), &REFERS, &[REFERS_UNIT], 6)
}

/// Reads these bytes, and returns why they are refused.
fn fault_of<A: Allocator + Copy>(alloc: A, bytes: Vec<u8>) -> Option<ReadFault> {
    let mut reader = Pieces::new(bytes, ROOM, None);
    read_object(alloc, &mut reader).err()
}

/// Decodes these bytes, which are taken, and returns why the end is refused.
fn end_of<A: Allocator + Copy>(rt: &impl Abort, alloc: A, bytes: &[u8]) -> Option<Refusal> {
    let mut decoder = ObjectDecoder::new(alloc);
    equals(rt, decoder.feed(bytes), Ok(()));
    decoder.finish().err()
}

/// A number in the file reserves no memory.
#[test]
fn allocates_for_what_has_come(rt: HostRuntime) -> Result<(), Fail> {
    let bytes = bytes_of(rt.alloc(), &ANNOUNCES, &[])?;
    equals(&rt, bytes.len(), 20);
    let early = Refusal::Fault(Fault {
        place: 5,
        reason: Reason::UnexpectedEnd,
    });
    let heap = Refusing::new(rt.alloc(), u64::MAX);
    let got = fault_of(&heap, bytes.clone()?);
    equals(&rt, got, Some(ReadFault::Refused(early)));
    holds(&rt, &("growths", heap.asked()), heap.asked() <= 4);
    let small = LocalHeap::new(rt.alloc(), BUDGET)?;
    equals(&rt, end_of(&rt, &small, &bytes), Some(early));
    Ok(())
}
