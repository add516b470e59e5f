//! What is told of the first offence of a file, and of hunks beside their addresses.

use super::asserts::{equals_at, holds};
use super::memory::MOST_GROWTHS;
use hunk_loadfile::read_load;
use hunk_test_support::load_words::TWO_HUNKS;
use hunk_test_support::words::{ASSEMBLED, DEFINES};
use hunk_test_support::{Refusing, bytes_of};
use hunk_tool::{
    Explanation, explain_file, explain_load, explain_object, write_explanation, write_places,
};
use hunk_words::{Fault, Pieces, ReadFault, Reason, Refusal, Room, Text, WriteFault};
use std::alloc::{Allocator, Global};
use std::process::Abort;
use std::test::Fail;

/// As what a file is read.
#[derive(Clone, Copy, Debug, PartialEq, Eq)]
enum As {
    Object,
    Load,
    Either,
}

/// A file, as what it is read, and what is told of it.
type Row = (As, &'static [u32], &'static [u8], &'static str);

static ROWS: [Row; 13] = [
    (
        As::Either,
        &[0x3E7, 0, 0x3E9, 1, 0x4E714E71, 0x3FF],
        &[],
        "  at byte 20 (00000014)\n  found 000003ff\n  path: unit 0, hunk 0, after HUNK_CODE\n  \
         due: the type of a block\n",
    ),
    (
        As::Object,
        &[
            0x3E7, 0, 0x3EB, 1, 0x3F2, 0x3E7, 0, 0x3E9, 1, 0, 0x3F2, 0x3E9, 1, 0, 0x3EC, 1, 0, 8,
        ],
        &[],
        "  at byte 68 (00000044)\n  found 00000008\n  path: unit 1, hunk 1, in HUNK_RELOC32\n  \
         due: the offset of a relocation\n",
    ),
    (
        As::Object,
        &[],
        &[],
        "  at byte 0 (00000000)\n  found the end of the file\n  path: start of the file\n  \
         due: HUNK_UNIT, which begins an object file\n",
    ),
    (
        As::Load,
        &[0x3F3, 0],
        &[0, 0],
        "  at byte 8 (00000008)\n  \
         found the end of the file, after 2 of the 4 bytes of a longword\n  path: in HUNK_HEADER\n  \
         due: the number of hunks\n",
    ),
    (
        As::Load,
        &[0x3F3, 0, 1, 0, 0, 5, 0x3EB, 5, 0x3F2, 0x1234],
        &[],
        "  at byte 36 (00000024)\n  found 00001234\n  path: hunk 0, after HUNK_END\n  \
         due: the end of the file\n",
    ),
    (
        As::Either,
        &[0x3F3, 0, 1, 0, 0, 2, 0x3E9, 2, 4, 0, 0x3FC, 0x00010001],
        &[1],
        "  at byte 44 (0000002c)\n  found 00010001\n  path: hunk 0, in HUNK_RELOC32SHORT\n  \
         due: 16-bit words, first a count of relocations\n",
    ),
    (
        As::Object,
        &[0x3E7, 0, 0x3EB, 1, 0x3F2, 0x3EC],
        &[],
        "  at byte 20 (00000014)\n  found 000003ec\n  path: unit 0, hunk 0, after HUNK_END\n  \
         due: the type of a block that begins a hunk or a unit\n",
    ),
    (
        As::Either,
        &[0x3E7, 0, 0x3E9, 1, 0, 0x3EF, 0x81000001, 0x61000000, 1, 2],
        &[],
        "  at byte 36 (00000024)\n  found 00000002\n  path: unit 0, hunk 0, in HUNK_EXT\n  \
         due: the offset of a reference\n",
    ),
    (
        As::Object,
        &[0x3E7, 0, 0x3E9, 0, 0x3F0, 1],
        &[],
        "  at byte 24 (00000018)\n  found the end of the file\n  \
         path: unit 0, hunk 0, in HUNK_SYMBOL\n  \
         due: a longword of content, of a name or of a debug block\n",
    ),
    (
        As::Load,
        &[0x3E7, 0],
        &[],
        "  at byte 0 (00000000)\n  found 000003e7\n  path: start of the file\n  \
         due: HUNK_HEADER, which begins a load file\n  kind: object file\n",
    ),
    (
        As::Object,
        &[0x3F3, 0, 1, 0, 0, 0, 0x3EB, 0],
        &[],
        "  at byte 0 (00000000)\n  found 000003f3\n  path: start of the file\n  \
         due: HUNK_UNIT, which begins an object file\n  kind: load file\n",
    ),
    (As::Either, &DEFINES, &[], ""),
    (As::Load, &TWO_HUNKS, &[], ""),
];

/// What is told of a file.
fn explained<A: Allocator + Copy>(
    alloc: A,
    read_as: As,
    reader: &mut Pieces,
) -> Result<Option<Explanation>, ReadFault> {
    match read_as {
        As::Object => explain_object(alloc, reader),
        As::Load => explain_load(alloc, reader),
        As::Either => explain_file(alloc, reader),
    }
}

/// Whether this is told of the file of a row, read in pieces of so many bytes.
fn is_told(rt: &impl Abort, alloc: Global, row: &Row, most: usize) -> Result<(), Fail> {
    assert!(rt; 1 <= most);
    let (read_as, words, rest, text) = row;
    let mut reader = Pieces::new(bytes_of(alloc, words, rest)?, most, None);
    let mut writer = Room::new(alloc, 256, 256, false)?;
    match explained(alloc, *read_as, &mut reader) {
        Ok(Some(explanation)) => {
            let mut told = Text::new(&mut writer);
            write_explanation(&mut told, &explanation);
            holds(rt, &(text, most), told.finish().is_ok());
            holds(rt, &(text, most), !text.is_empty());
        }
        got => holds(rt, &(text, most), got.is_ok()),
    }
    equals_at(rt, &(text, most), writer.bytes(), text.as_bytes());
    Ok(())
}

#[test]
fn tells_where_a_file_offends_and_what_was_due(rt: HostRuntime) -> Result<(), Fail> {
    for row in &ROWS {
        for most in [1, 3, 64] {
            is_told(&rt, rt.alloc(), row, most)?;
        }
    }
    Ok(())
}

/// As what a file is read, the file, and the place and the reason of its first offence.
static FAULTS: [(As, &[u32], &[u8], u64, Reason); 4] = [
    (
        As::Either,
        &[0x3E7, 0, 0x3E9, 1, 0x4E714E71, 0x3FF],
        &[],
        5,
        Reason::UnknownType(0x3FF),
    ),
    (As::Object, &[], &[], 0, Reason::UnexpectedEnd),
    (As::Load, &[0x3F3, 0], &[0, 0], 2, Reason::PartialLongword),
    (As::Load, &[0x3E7, 0], &[], 0, Reason::WrongStart),
];

#[test]
fn gives_the_place_and_the_reason_of_an_offence(rt: HostRuntime) -> Result<(), Fail> {
    for (read_as, words, rest, place, reason) in &FAULTS {
        let mut reader = Pieces::new(bytes_of(rt.alloc(), words, rest)?, 64, None);
        let got = match explained(rt.alloc(), *read_as, &mut reader) {
            Ok(Some(explanation)) => Some(explanation.fault()),
            _ => None,
        };
        let wanted = Fault {
            place: *place,
            reason: *reason,
        };
        equals_at(&rt, &(place, reason), got, Some(wanted));
    }
    Ok(())
}

#[test]
fn tells_nothing_where_a_read_fails(rt: HostRuntime) -> Result<(), Fail> {
    for read_as in [As::Object, As::Load, As::Either] {
        for failing in [0, 1, 5] {
            let bytes = bytes_of(rt.alloc(), &ASSEMBLED, &[])?;
            let mut reader = Pieces::new(bytes, 4, Some(failing));
            let got = explained(rt.alloc(), read_as, &mut reader);
            let failed = matches!(got, Err(ReadFault::Device));
            // The first longword is no load file, so no further one is read.
            let stops = read_as == As::Load && failing > 0;
            holds(&rt, &(read_as, failing), failed != stops);
        }
    }
    Ok(())
}

/// Whether the file of a row is explained with this allocation refused. If not, memory ran out.
fn is_explained(rt: &impl Abort, alloc: Global, row: &Row, refused: u64) -> Result<bool, Fail> {
    let heap = Refusing::new(alloc, refused);
    let (read_as, words, rest, text) = row;
    let mut reader = Pieces::new(bytes_of(alloc, words, rest)?, 64, None);
    let got = explained(&heap, *read_as, &mut reader);
    if heap.asked() <= refused {
        holds(rt, &(text, refused), got.is_ok());
        return Ok(true);
    }
    let out_of_memory = matches!(got, Err(ReadFault::Refused(Refusal::OutOfMemory)));
    holds(rt, &(text, refused), out_of_memory);
    Ok(false)
}

/// Whether the file of a row is explained once no allocation is refused. Until then, memory ran out.
fn is_explained_at_last(rt: &impl Abort, alloc: Global, row: &Row) -> Result<bool, Fail> {
    for refused in 0..MOST_GROWTHS {
        if is_explained(rt, alloc, row, refused)? {
            return Ok(true);
        }
    }
    Ok(false)
}

#[test]
fn explains_with_each_growth_refused(rt: HostRuntime) -> Result<(), Fail> {
    for row in &ROWS {
        let at_last = is_explained_at_last(&rt, rt.alloc(), row)?;
        holds(&rt, &row.3, at_last);
    }
    Ok(())
}

#[test]
fn stops_at_each_byte_of_an_explanation(rt: HostRuntime) -> Result<(), Fail> {
    let (_, words, rest, text) = &ROWS[0];
    let mut reader = Pieces::new(bytes_of(rt.alloc(), words, rest)?, 64, None);
    let Ok(Some(explanation)) = explain_object(rt.alloc(), &mut reader) else {
        panic!(rt; "not explained");
    };
    for room in 0..text.len() {
        let mut writer = Room::new(rt.alloc(), 7, room, false)?;
        let mut told = Text::new(&mut writer);
        write_explanation(&mut told, &explanation);
        let written = room as u64;
        equals_at(
            &rt,
            &room,
            told.finish(),
            Err(WriteFault::Device { written }),
        );
        equals_at(&rt, &room, writer.bytes(), &text.as_bytes()[..room]);
    }
    Ok(())
}

/// Addresses, and what is told of them and of two hunks.
static PLACES: [(&[u32], &str); 4] = [
    (
        &[0x1000, 0x2000],
        "  hunks: 2, addresses: 2\n  hunk 0: 16 bytes at 00001000\n  hunk 1: 8 bytes at 00002000\n",
    ),
    (
        &[0xFFFF_FFFF],
        "  hunks: 2, addresses: 1\n  hunk 0: 16 bytes at ffffffff\n  hunk 1: 8 bytes, no address\n",
    ),
    (
        &[],
        "  hunks: 2, addresses: 0\n  hunk 0: 16 bytes, no address\n  hunk 1: 8 bytes, no address\n",
    ),
    (
        &[0, 0, 4],
        "  hunks: 2, addresses: 3\n  hunk 0: 16 bytes at 00000000\n  hunk 1: 8 bytes at 00000000\n",
    ),
];

#[test]
fn tells_the_sizes_of_hunks_beside_their_addresses(rt: HostRuntime) -> Result<(), Fail> {
    let mut reader = Pieces::new(bytes_of(rt.alloc(), &TWO_HUNKS, &[])?, 64, None);
    let Ok(file) = read_load(rt.alloc(), &mut reader) else {
        panic!(rt; "no load file");
    };
    for (bases, text) in &PLACES {
        for room in 0..=text.len() {
            let mut writer = Room::new(rt.alloc(), 7, room, false)?;
            let mut told = Text::new(&mut writer);
            write_places(&mut told, file.hunks(), bases);
            let written = room as u64;
            let wanted = if room == text.len() {
                Ok(())
            } else {
                Err(WriteFault::Device { written })
            };
            equals_at(&rt, &(text, room), told.finish(), wanted);
            equals_at(&rt, &(text, room), writer.bytes(), &text.as_bytes()[..room]);
        }
    }
    Ok(())
}
