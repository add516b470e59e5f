//! What is told of units that do not link.

use super::MOST_GROWTHS;
use super::asserts::{equals_at, holds};
use super::unlinked::{AGAIN, END, FAR, NONE, ONE, OTHER};
use hunk_link::{LinkRefusal, link};
use hunk_origins::{explain_link, write_link_explanation};
use hunk_test_support::{KEY, Refusing, bytes_of};
use hunk_tool::{NameHasher, ObjectFiles, ToolFault, read_object_files};
use hunk_words::{Pieces, Room, Text, WriteFault};
use std::alloc::{AllocError, Allocator, Global};
use std::process::Abort;
use std::test::Fail;

/// The longwords of a file, the bytes after them, and its name; those of a second file; and what is told
/// of their link.
type Row = (
    &'static [u32],
    &'static [u8],
    &'static str,
    &'static [u32],
    &'static [u8],
    &'static str,
    &'static str,
);

static ROWS: [Row; 5] = [
    (
        &ONE,
        &END,
        "one.o",
        &NONE,
        &[0; 4],
        "none.o",
        "  unit 0 hunk 0: one.o unit 0 \"one\" hunk 0 \"text\"\n  \
         \"go\", references: 2, first in one.o unit 0 \"one\" hunk 0 \"text\"\n  \
         \"run\", references: 1, first in one.o unit 0 \"one\" hunk 0 \"text\"\n",
    ),
    (
        &OTHER,
        &END,
        "\"t w\"/o",
        &NONE,
        &[0; 4],
        "none.o",
        "  unit 0 hunk 0: \"t w\"/o unit 0 \"\" hunk 0 \"q\\x22\"\n  \
         \"run\", references: 1, first in \"t w\"/o unit 0 \"\" hunk 0 \"q\\x22\"\n  \
         \"main\", references: 1, first in \"t w\"/o unit 0 \"\" hunk 0 \"q\\x22\"\n",
    ),
    (
        &ONE,
        &END,
        "one.o",
        &OTHER,
        &END,
        "other.o",
        "  unit 0 hunk 0: one.o unit 0 \"one\" hunk 0 \"text\"\n  \
         \"run\", references: 2, first in one.o unit 0 \"one\" hunk 0 \"text\"\n",
    ),
    (
        &ONE,
        &END,
        "one.o",
        &AGAIN,
        &END,
        "again.o",
        "  unit 2 hunk 0: again.o unit 0 \"dup\" hunk 0 \"\"\n  \
         first defined in one.o unit 0 \"one\" hunk 0 \"text\"\n",
    ),
    (
        &ONE,
        &END,
        "one.o",
        &FAR,
        &END,
        "far.o",
        "  unit 2 hunk 1: far.o unit 0 \"far\" hunk 1 \"\"\n",
    ),
];

/// More bytes than what is told in a row has.
const ROOM: usize = 512;

/// The names of the files of a row.
fn names_of(alloc: Global, row: &Row) -> Result<[String; 2], AllocError> {
    let (_, _, first, _, _, second, _) = row;
    Ok([
        String::from_str(alloc, first)?,
        String::from_str(alloc, second)?,
    ])
}

/// Readers of the files of a row.
fn inputs_of(alloc: Global, row: &Row) -> Result<[Pieces; 2], AllocError> {
    let (words, rest, _, other_words, other_rest, _, _) = row;
    Ok([
        Pieces::new(bytes_of(alloc, words, rest)?, 64, None),
        Pieces::new(bytes_of(alloc, other_words, other_rest)?, 3, None),
    ])
}

/// What is read of these files.
fn read(rt: &impl Abort, alloc: Global, inputs: &mut [Pieces]) -> ObjectFiles {
    match read_object_files(alloc, inputs) {
        Ok(files) => files,
        Err(fault) => panic!(rt; "{fault:?}"),
    }
}

/// The files of a row.
fn files_of(rt: &impl Abort, alloc: Global, row: &Row) -> Result<ObjectFiles, Fail> {
    Ok(read(rt, alloc, &mut inputs_of(alloc, row)?))
}

/// Why the units of these files do not link.
fn refusal_of(rt: &impl Abort, alloc: Global, files: &ObjectFiles) -> LinkRefusal {
    match link(alloc, files.units(), false) {
        Ok(_) => panic!(rt; "linked"),
        Err(refusal) => refusal,
    }
}

/// What is told of files whose units do not link, to a writer with this room that takes at most `most`
/// bytes per write, and what the call returns.
fn told_of(
    rt: &impl Abort,
    alloc: Global,
    files: &ObjectFiles,
    names: &[String],
    room: usize,
    most: usize,
) -> Result<(Room, Result<(), WriteFault>), Fail> {
    assert!(rt; 1 <= most);
    let refusal = refusal_of(rt, alloc, files);
    let explanation = explain_link(alloc, files, &refusal, NameHasher::new(KEY))?;
    let mut writer = Room::new(alloc, most, room, false)?;
    let mut text = Text::new(&mut writer);
    write_link_explanation(&mut text, names, &explanation);
    let got = text.finish();
    Ok((writer, got))
}

/// Whether this is told of the files of a row, to such a writer.
fn is_told(
    rt: &impl Abort,
    alloc: Global,
    row: &Row,
    room: usize,
    most: usize,
    wanted: Result<(), WriteFault>,
) -> Result<(), Fail> {
    let files = files_of(rt, alloc, row)?;
    let (writer, got) = told_of(rt, alloc, &files, &names_of(alloc, row)?, room, most)?;
    let told = row.6.as_bytes();
    let length = room.min(told.len());
    equals_at(rt, &(row.6, room, most), got, wanted);
    equals_at(rt, &(row.6, room, most), writer.bytes(), &told[..length]);
    Ok(())
}

#[test]
fn tells_the_files_of_units_that_do_not_link(rt: HostRuntime) -> Result<(), Fail> {
    for row in &ROWS {
        for most in [ROOM, 1, 7] {
            is_told(&rt, rt.alloc(), row, ROOM, most, Ok(()))?;
        }
    }
    Ok(())
}

#[test]
fn stops_at_each_byte_of_what_is_told(rt: HostRuntime) -> Result<(), Fail> {
    for row in [&ROWS[0], &ROWS[3]] {
        for room in 0..row.6.len() {
            let written = room as u64;
            let wanted = Err(WriteFault::Device { written });
            is_told(&rt, rt.alloc(), row, room, ROOM, wanted)?;
        }
    }
    Ok(())
}

/// Whether it is told of these files why they do not link. If not, memory ran out.
fn explains<A: Allocator + Copy>(rt: &impl Abort, alloc: A, inputs: &mut [Pieces]) -> bool {
    let files = match read_object_files(alloc, inputs) {
        Ok(files) => files,
        Err(ToolFault::OutOfMemory { written: 0 }) => return false,
        Err(_) => panic!(rt; "not read"),
    };
    match link(alloc, files.units(), false) {
        Ok(_) => panic!(rt; "linked"),
        Err(LinkRefusal::OutOfMemory) => false,
        Err(refusal) => explain_link(alloc, &files, &refusal, NameHasher::new(KEY)).is_ok(),
    }
}

/// Whether that is told of the files of a row with this allocation refused.
fn is_explained(rt: &impl Abort, alloc: Global, row: &Row, refused: u64) -> Result<bool, Fail> {
    let heap = Refusing::new(alloc, refused);
    let mut inputs = inputs_of(alloc, row)?;
    let got = explains(rt, &heap, &mut inputs);
    let all_given = heap.asked() <= refused;
    equals_at(rt, &(row.6, refused), got, all_given);
    Ok(got)
}

/// Whether it is told once no allocation is refused.
fn is_explained_at_last(rt: &impl Abort, alloc: Global, row: &Row) -> Result<bool, Fail> {
    for refused in 0..MOST_GROWTHS {
        if is_explained(rt, alloc, row, refused)? {
            return Ok(true);
        }
    }
    Ok(false)
}

#[test]
fn explains_links_with_each_growth_refused(rt: HostRuntime) -> Result<(), Fail> {
    for row in &ROWS {
        let at_last = is_explained_at_last(&rt, rt.alloc(), row)?;
        holds(&rt, &row.6, at_last);
    }
    Ok(())
}

/// The digits of an index below 1000 in a name of four bytes.
fn name_of(index: u32) -> [u8; 4] {
    let digit = |power: u32| b'0' + (index / power % 10) as u8;
    [b'n', digit(100), digit(10), digit(1)]
}

/// A unit of one hunk that refers to so many names, `n000` first.
fn refers_to(alloc: Global, count: u32) -> Result<Vec<u32>, AllocError> {
    let mut words = Vec::new(alloc);
    words.extend_from_slice(&[0x3E7, 0, 0x3E9, count])?;
    for _ in 0..count {
        words.push(0)?;
    }
    words.push(0x3EF)?;
    for index in 0..count {
        let name = u32::from_be_bytes(name_of(index));
        words.extend_from_slice(&[0x8100_0001, name, 1, index.wrapping_mul(4)])?;
    }
    words.extend_from_slice(&[0, 0x3F2])?;
    Ok(words)
}

/// What is told of the first `count` of those names, and then this.
fn text_of(alloc: Global, count: u32, rest: &str) -> Result<Vec<u8>, AllocError> {
    let mut text = Vec::new(alloc);
    text.extend_from_slice(b"  unit 0 hunk 0: many.o unit 0 \"\" hunk 0 \"\"\n")?;
    for index in 0..count {
        text.extend_from_slice(b"  \"")?;
        text.extend_from_slice(&name_of(index))?;
        text.extend_from_slice(b"\", references: 1, first in many.o unit 0 \"\" hunk 0 \"\"\n")?;
    }
    text.extend_from_slice(rest.as_bytes())?;
    Ok(text)
}

/// A number of undefined names, how many of them are told, and what is told of the others.
static MANY: [(u32, u32, &str); 4] = [
    (99, 99, ""),
    (100, 100, ""),
    (101, 100, "  and 1 more\n"),
    (112, 100, "  and 12 more\n"),
];

/// The file of such a unit.
fn file_of(rt: &impl Abort, alloc: Global, count: u32) -> Result<ObjectFiles, Fail> {
    let bytes = bytes_of(alloc, &refers_to(alloc, count)?, &[])?;
    Ok(read(rt, alloc, &mut [Pieces::new(bytes, 64, None)]))
}

#[test]
fn tells_at_most_a_hundred_names(rt: HostRuntime) -> Result<(), Fail> {
    let alloc = rt.alloc();
    let names = [String::from_str(alloc, "many.o")?];
    for (count, told, rest) in &MANY {
        let files = file_of(&rt, alloc, *count)?;
        let (writer, got) = told_of(&rt, alloc, &files, &names, 16384, 64)?;
        let text = text_of(alloc, *told, rest)?;
        equals_at(&rt, count, got, Ok(()));
        equals_at(&rt, count, writer.bytes(), text.as_slice());
    }
    Ok(())
}

/// Refusals that are about no hunk, or about one that the files do not have.
const ABOUT_NONE: [LinkRefusal; 6] = [
    LinkRefusal::NoHunks,
    LinkRefusal::TooManyHunks,
    LinkRefusal::TooLarge,
    LinkRefusal::OutOfMemory,
    LinkRefusal::NoSuchHunk {
        unit: 3,
        hunk: 0,
        target: 1,
    },
    LinkRefusal::NoSuchHunk {
        unit: 1,
        hunk: 2,
        target: 1,
    },
];

#[test]
fn tells_nothing_of_hunks_that_are_not_there(rt: HostRuntime) -> Result<(), Fail> {
    let files = files_of(&rt, rt.alloc(), &ROWS[0])?;
    let names: [String; 0] = [];
    for refusal in &ABOUT_NONE {
        let explanation = explain_link(rt.alloc(), &files, refusal, NameHasher::new(KEY))?;
        let mut writer = Room::new(rt.alloc(), 64, ROOM, false)?;
        let mut text = Text::new(&mut writer);
        write_link_explanation(&mut text, &names, &explanation);
        equals_at(&rt, refusal, text.finish(), Ok(()));
        equals_at(&rt, refusal, writer.bytes(), b"");
    }
    Ok(())
}
