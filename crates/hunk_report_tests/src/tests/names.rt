//! The names in files.

use super::MOST_GROWTHS;
use super::asserts::{equals, equals_at, holds};
use hunk_origins::{NameList, NamedFiles, read_named_files, write_names};
use hunk_test_support::{KEY, ROOM, Refusing, bytes_of};
use hunk_tool::{NameHasher, ToolFault};
use hunk_words::{Fault, Pieces, Reason, Room, Text, WriteFault};
use std::alloc::{AllocError, Allocator, Global};
use std::process::Abort;
use std::test::Fail;

/// A unit of code, which defines `foo` at 0 and refers to `bar` twice and to `baz` once, with the symbol `loop`; of
/// data, which defines `x` at 4 and the number `abs`; and of a bss hunk, which defines `buf` at 8 and has the symbol `a"`.
static ONE: [u32; 60] = [
    0x3E7,
    0,
    // Code of three longwords.
    0x3E9,
    3,
    0,
    0,
    0,
    0x3EF,
    0x0100_0001,
    0x666F_6F00,
    0,
    0x8100_0001,
    0x6261_7200,
    1,
    0,
    0x8100_0001,
    0x6261_7A00,
    1,
    4,
    0x8100_0001,
    0x6261_7200,
    1,
    8,
    0,
    0x3F0,
    1,
    0x6C6F_6F70,
    4,
    0,
    0x3F2,
    // Data of two longwords.
    0x3EA,
    2,
    0,
    0,
    0x3EF,
    0x0100_0001,
    0x7800_0000,
    4,
    0x0200_0001,
    0x6162_7300,
    0x00DF_F000,
    0,
    0x3F2,
    // A bss hunk of three longwords.
    0x3EB,
    3,
    0x3EF,
    0x0100_0001,
    0x6275_6600,
    8,
    0,
    0x3F0,
    1,
    0x6122_0000,
    0x8000_0000,
    1,
    0x6122_0000,
    0,
    0,
    0x3F2,
    // A second unit, of no hunks.
    0x3E7,
];

/// The name of the second unit, and a third one.
const NO_NAME: [u8; 4] = [0; 4];

/// A unit of code that defines `baz` at 0 and refers to `bar`, with the symbols `foo` and `fo`.
static TWO: [u32; 22] = [
    0x3E7,
    0,
    0x3E9,
    1,
    0,
    0x3EF,
    0x0100_0001,
    0x6261_7A00,
    0,
    0x8100_0001,
    0x6261_7200,
    1,
    0,
    0,
    0x3F0,
    1,
    0x666F_6F00,
    8,
    1,
    0x666F_0000,
    0,
    0,
];

/// The end of its hunk.
const END: [u8; 4] = [0, 0, 0x03, 0xF2];

const NAMES: &str = "80000000 b \"a\\x22\" unit 0 hunk 2\n\
                     00000000 b \"a\\x22\" unit 0 hunk 2\n\
                     00dff000 A \"abs\" unit 0 hunk 1\n\
                     \x20        U \"bar\" unit 0 hunk 0\n\
                     \x20        U \"bar\" unit 2 hunk 0\n\
                     00000000 T \"baz\" unit 2 hunk 0\n\
                     00000008 B \"buf\" unit 0 hunk 2\n\
                     00000000 t \"fo\" unit 2 hunk 0\n\
                     00000000 T \"foo\" unit 0 hunk 0\n\
                     00000008 t \"foo\" unit 2 hunk 0\n\
                     00000004 t \"loop\" unit 0 hunk 0\n\
                     00000004 D \"x\" unit 0 hunk 1\n";

/// The names of the second file alone.
const TWO_NAMES: &str = "         U \"bar\" unit 0 hunk 0\n\
                         00000000 T \"baz\" unit 0 hunk 0\n\
                         00000000 t \"fo\" unit 0 hunk 0\n\
                         00000008 t \"foo\" unit 0 hunk 0\n";

/// A load file of code with the symbols `loop` and `a`, data with the symbol `loop`, and a bss hunk with `b`.
static LOAD: [u32; 37] = [
    0x3F3,
    0,
    3,
    0,
    2,
    1,
    1,
    1,
    0x3E9,
    1,
    0x4E75_4E71,
    0x3F0,
    1,
    0x6C6F_6F70,
    4,
    1,
    0x6100_0000,
    2,
    0,
    0x3F2,
    0x3EA,
    1,
    7,
    0x3F0,
    1,
    0x6C6F_6F70,
    0,
    0,
    0x3F2,
    0x3EB,
    1,
    0x3F0,
    1,
    0x6200_0000,
    0xFFFF_FFFF,
    0,
    0x3F2,
];

const LOAD_NAMES: &str = "00000002 t \"a\" hunk 0\n\
                          ffffffff b \"b\" hunk 2\n\
                          00000004 t \"loop\" hunk 0\n\
                          00000000 d \"loop\" hunk 1\n";

/// The files of some inputs; an error only if an allocation failed.
fn files_of<A: Allocator + Copy>(
    rt: &impl Abort,
    alloc: A,
    inputs: &mut [Pieces],
) -> Result<NamedFiles<A>, AllocError> {
    match read_named_files(alloc, inputs) {
        Ok(files) => Ok(files),
        Err(ToolFault::OutOfMemory { .. }) => Err(AllocError),
        Err(_) => panic!(rt; "not read"),
    }
}

/// Readers of the object files.
fn object_inputs(alloc: Global) -> Result<[Pieces; 2], AllocError> {
    Ok([
        Pieces::new(bytes_of(alloc, &ONE, &NO_NAME)?, 64, None),
        Pieces::new(bytes_of(alloc, &TWO, &END)?, 3, None),
    ])
}

/// A reader of the second object file alone.
fn object_input(alloc: Global) -> Result<[Pieces; 1], AllocError> {
    Ok([Pieces::new(bytes_of(alloc, &TWO, &END)?, 7, None)])
}

/// A reader of the load file.
fn load_input(alloc: Global) -> Result<[Pieces; 1], AllocError> {
    Ok([Pieces::new(bytes_of(alloc, &LOAD, &[])?, 5, None)])
}

/// Whether these are the lines, as far as there is room, in a writer that takes at most `most` bytes per write.
fn are_written<A: Allocator + Copy>(
    rt: &impl Abort,
    alloc: Global,
    names: &NameList<'_, A>,
    wanted: &'static str,
    room: usize,
    most: usize,
) -> Result<(), AllocError> {
    assert!(rt; 1 <= most);
    let mut writer = Room::new(alloc, most, room, false)?;
    let mut text = Text::new(&mut writer);
    write_names(&mut text, names);
    let got = text.finish();
    let length = room.min(wanted.len());
    let whole = if length == wanted.len() {
        Ok(())
    } else {
        Err(WriteFault::Device {
            written: length as u64,
        })
    };
    equals_at(rt, &(room, most), got, whole);
    equals_at(
        rt,
        &(room, most),
        writer.bytes(),
        &wanted.as_bytes()[..length],
    );
    Ok(())
}

/// Whether all lines are written, and the first ones where the room ends, for each room and by writes of at most one
/// byte or of many.
fn stop_at_each_byte<A: Allocator + Copy>(
    rt: &impl Abort,
    alloc: Global,
    names: &NameList<'_, A>,
    wanted: &'static str,
) -> Result<(), AllocError> {
    for room in 0..wanted.len() + 1 {
        are_written(rt, alloc, names, wanted, room, 1)?;
        are_written(rt, alloc, names, wanted, room, ROOM)?;
    }
    Ok(())
}

/// Whether these are the names of some inputs, however they are written.
fn are_names(
    rt: &impl Abort,
    alloc: Global,
    inputs: &mut [Pieces],
    wanted: &'static str,
) -> Result<(), Fail> {
    let files = files_of(rt, alloc, inputs)?;
    let names = NameList::of(alloc, &files, NameHasher::new(KEY))?;
    stop_at_each_byte(rt, alloc, &names, wanted)?;
    Ok(())
}

#[test]
fn lists_the_names_of_object_files(rt: HostRuntime) -> Result<(), Fail> {
    are_names(&rt, rt.alloc(), &mut object_inputs(rt.alloc())?, NAMES)
}

#[test]
fn lists_the_names_of_one_object_file(rt: HostRuntime) -> Result<(), Fail> {
    are_names(&rt, rt.alloc(), &mut object_input(rt.alloc())?, TWO_NAMES)
}

#[test]
fn lists_the_names_of_a_load_file(rt: HostRuntime) -> Result<(), Fail> {
    are_names(&rt, rt.alloc(), &mut load_input(rt.alloc())?, LOAD_NAMES)
}

#[test]
fn lists_no_names_of_no_files(rt: HostRuntime) -> Result<(), Fail> {
    are_names(&rt, rt.alloc(), &mut [], "")
}

/// Lists the names of the inputs; an error only if an allocation failed.
fn lists<A: Allocator + Copy>(
    rt: &impl Abort,
    heap: A,
    alloc: Global,
    inputs: &mut [Pieces],
    wanted: &'static str,
) -> Result<(), AllocError> {
    let files = files_of(rt, heap, inputs)?;
    let names = NameList::of(heap, &files, NameHasher::new(KEY))?;
    are_written(rt, alloc, &names, wanted, ROOM, ROOM)
}

/// Whether the names of the object files and of the load file are listed while an allocation is refused.
fn lists_both<A: Allocator + Copy>(
    rt: &impl Abort,
    heap: A,
    alloc: Global,
) -> Result<(), AllocError> {
    lists(rt, heap, alloc, &mut object_inputs(alloc)?, NAMES)?;
    lists(rt, heap, alloc, &mut load_input(alloc)?, LOAD_NAMES)
}

#[test]
fn lists_names_with_each_allocation_refused(rt: HostRuntime) -> Result<(), Fail> {
    for refused in 0..MOST_GROWTHS {
        let heap = Refusing::new(rt.alloc(), refused);
        let got = lists_both(&rt, &heap, rt.alloc());
        let all_given = heap.asked() <= refused;
        equals_at(&rt, &refused, got.is_ok(), all_given);
        if all_given {
            return Ok(());
        }
    }
    holds(
        &rt,
        &("each list was refused an allocation", MOST_GROWTHS),
        false,
    );
    Ok(())
}

/// The fault of inputs that are not read.
fn fault_of(rt: &impl Abort, alloc: Global, inputs: &mut [Pieces]) -> Result<ToolFault, Fail> {
    match read_named_files(alloc, inputs) {
        Ok(_) => panic!(rt; "read"),
        Err(fault) => Ok(fault),
    }
}

#[test]
fn refuses_a_load_file_among_several_files(rt: HostRuntime) -> Result<(), Fail> {
    let alloc = rt.alloc();
    let mut inputs = [
        Pieces::new(bytes_of(alloc, &TWO, &END)?, 7, None),
        Pieces::new(bytes_of(alloc, &LOAD, &[])?, 5, None),
    ];
    let fault = Fault {
        place: 0,
        reason: Reason::WrongStart,
    };
    equals(
        &rt,
        fault_of(&rt, alloc, &mut inputs)?,
        ToolFault::Input { file: 1, fault },
    );
    Ok(())
}

#[test]
fn tells_a_read_that_failed_before_names(rt: HostRuntime) -> Result<(), Fail> {
    let alloc = rt.alloc();
    let mut inputs = [Pieces::new(bytes_of(alloc, &LOAD, &[])?, 5, Some(20))];
    equals(
        &rt,
        fault_of(&rt, alloc, &mut inputs)?,
        ToolFault::InputDevice { file: 0 },
    );
    let mut inputs = [
        Pieces::new(bytes_of(alloc, &TWO, &END)?, 7, None),
        Pieces::new(bytes_of(alloc, &TWO, &END)?, 7, Some(3)),
    ];
    equals(
        &rt,
        fault_of(&rt, alloc, &mut inputs)?,
        ToolFault::InputDevice { file: 1 },
    );
    Ok(())
}
