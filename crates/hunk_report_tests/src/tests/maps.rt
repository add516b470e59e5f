//! Maps of linked files.

use super::MOST_GROWTHS;
use super::asserts::{equals_at, holds};
use hunk_origins::{link_files, write_map};
use hunk_test_support::{KEY, Refusing, bytes_of};
use hunk_tool::{NameHasher, ToolFault};
use hunk_words::{Pieces, Room, Text, WriteFault};
use std::alloc::Global;
use std::process::Abort;
use std::test::Fail;

/// Unit `one`, of code named `text` that defines `main` and, as a number, `q"`, and of chip memory
/// without a name; and a unit without a name, of data named `d` that defines `x`.
static ONE: [u32; 34] = [
    0x3E7,
    1,
    0x6F6E_6500,
    0x3E8,
    1,
    0x7465_7874,
    0x3E9,
    1,
    0x4E75_4E71,
    0x3EF,
    0x0100_0001,
    0x6D61_696E,
    0,
    0x0200_0001,
    0x7122_0000,
    0x00DF_F000,
    0,
    0x3F2,
    0x4000_03EB,
    2,
    0x3F2,
    0x3E7,
    0,
    0x3E8,
    1,
    0x6400_0000,
    0x3EA,
    1,
    0x0000_0001,
    0x3EF,
    0x0100_0001,
    0x7800_0000,
    4,
    0,
];

/// The end of the last hunk.
const END: [u8; 4] = [0, 0, 0x03, 0xF2];

/// Unit `two`, of code without a name in fast memory.
static TWO: [u32; 5] = [0x3E7, 1, 0x7477_6F00, 0x8000_03E9, 1];

/// That code, and its end.
const CODE: [u8; 8] = [0x4E, 0x75, 0x4E, 0x71, 0, 0, 0x03, 0xF2];

const MAP: &str = "hunk 0 code any 1 longwords one.o unit 0 \"one\" hunk 0 \"text\"\n\
                   \x20 define \"main\" at 00000000\n\
                   \x20 define \"q\\x22\" as 00dff000\n\
                   hunk 1 bss chip 2 longwords one.o unit 0 \"one\" hunk 1 \"\"\n\
                   hunk 2 data any 1 longwords one.o unit 1 \"\" hunk 0 \"d\"\n\
                   \x20 define \"x\" at 00000004\n\
                   hunk 3 code fast 1 longwords \"t: w/o\" unit 0 \"two\" hunk 0 \"\"\n";

/// More bytes than the map has.
const ROOM: usize = 512;

/// The map of both files, written to a writer with this room that takes at most `most` bytes per write.
fn is_mapped(
    rt: &impl Abort,
    alloc: Global,
    strip: bool,
    room: usize,
    most: usize,
    wanted: Result<(), WriteFault>,
) -> Result<(), Fail> {
    assert!(rt; 1 <= most);
    let mut inputs = [
        Pieces::new(bytes_of(alloc, &ONE, &END)?, 64, None),
        Pieces::new(bytes_of(alloc, &TWO, &CODE)?, 64, None),
    ];
    let names = [
        String::from_str(alloc, "one.o")?,
        String::from_str(alloc, "t: w/o")?,
    ];
    let mut writer = Room::new(alloc, most, room, false)?;
    let (files, file) = match link_files(alloc, &mut inputs, strip, false, NameHasher::new(KEY)) {
        Ok(linked) => linked,
        Err(fault) => panic!(rt; "{fault:?}"),
    };
    let mut text = Text::new(&mut writer);
    write_map(&mut text, &files, &names, &file);
    let got = text.finish();
    let length = room.min(MAP.len());
    equals_at(rt, &("room", room, most), got, wanted);
    equals_at(
        rt,
        &("room", room, most),
        writer.bytes(),
        &MAP.as_bytes()[..length],
    );
    Ok(())
}

#[test]
fn tells_where_each_hunk_is_from(rt: HostRuntime) -> Result<(), Fail> {
    for strip in [false, true] {
        for most in [ROOM, 1, 7] {
            is_mapped(&rt, rt.alloc(), strip, ROOM, most, Ok(()))?;
        }
    }
    Ok(())
}

#[test]
fn stops_at_each_byte_of_a_map(rt: HostRuntime) -> Result<(), Fail> {
    for room in 0..MAP.len() {
        let written = room as u64;
        let wanted = Err(WriteFault::Device { written });
        is_mapped(&rt, rt.alloc(), false, room, ROOM, wanted)?;
    }
    is_mapped(&rt, rt.alloc(), false, MAP.len(), ROOM, Ok(()))
}

/// Whether both files were linked with this allocation refused. If not, memory ran out.
fn is_linked(rt: &impl Abort, alloc: Global, refused: u64) -> Result<bool, Fail> {
    let heap = Refusing::new(alloc, refused);
    let mut inputs = [
        Pieces::new(bytes_of(alloc, &ONE, &END)?, 64, None),
        Pieces::new(bytes_of(alloc, &TWO, &CODE)?, 64, None),
    ];
    let got = link_files(&heap, &mut inputs, false, false, NameHasher::new(KEY));
    if heap.asked() <= refused {
        holds(rt, &("growth", refused), got.is_ok());
        return Ok(true);
    }
    let out_of_memory = matches!(got, Err(ToolFault::OutOfMemory { written: 0 }));
    holds(rt, &("growth", refused), out_of_memory);
    Ok(false)
}

#[test]
fn links_with_each_growth_refused(rt: HostRuntime) -> Result<(), Fail> {
    assert!(rt; !is_linked(&rt, rt.alloc(), 0)?);
    for refused in 1..MOST_GROWTHS {
        if is_linked(&rt, rt.alloc(), refused)? {
            return Ok(());
        }
    }
    holds(
        &rt,
        &("each link was refused a growth", MOST_GROWTHS),
        false,
    );
    Ok(())
}
