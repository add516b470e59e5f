//! Load files that are written: their bytes, and writers that fail.

use super::asserts::{equals, equals_at, holds};
use super::growths::growths_of_reading;
use hunk_loadfile::{LoadFile, LoadForm, read_load, write_load_with};
use hunk_test_support::load_words::{THREE_HUNKS, TWO_HUNKS, ZEROS};
use hunk_test_support::words::{BEHIND_CONTENT, LINKED, LINKED_ALONE, SCATTERED, SHORT, WRITTEN};
use hunk_test_support::{CHUNKS, FILE, ROOM, Refusing, bytes_of};
use hunk_words::{Pieces, Room, Sink, WriteFault};
use std::alloc::{Allocator, Global};
use std::process::Abort;
use std::test::Fail;

/// More allocations than writing a file of the tests makes.
const MOST_GROWTHS: u64 = 64;

/// The load file of these bytes.
pub(crate) fn file_of<A: Allocator + Copy>(alloc: A, bytes: Vec<u8>) -> Result<LoadFile<A>, Fail> {
    let mut reader = Pieces::new(bytes, ROOM, None);
    Ok(read_load(alloc, &mut reader)?)
}

/// The file of most tests, with memory bits that are ignored.
const IGNORED_BITS: [u32; 10] = [
    0x3F3,
    0,
    1,
    0,
    0,
    0x8000_0001,
    0xC000_03EA,
    0xC000_0001,
    0x4E75_4E71,
    0x3F2,
];

/// The same as it is written.
const FAST_DATA: [u32; 10] = [0x3F3, 0, 1, 0, 0, 0x8000_0001, 0x3EA, 1, 0x4E75_4E71, 0x3F2];

/// Relocations in longwords in place of 16-bit words.
const LONGER: [u32; 17] = [
    0x3F3, 0, 1, 0, 0, 2, 0x3E9, 2, 4, 0, 0x3EC, 2, 0, 0, 4, 0, 0x3F2,
];

const EXAMPLE: [u32; 40] = [
    0x3F3, 0, 2, 0, 1, 4, 0x40000002, //
    0x3E9, 4, 0x207C0000, 0x00004EB9, 0x0000000E, 0x4E754E75, //
    0x3EC, 1, 0, 8, 1, 1, 2, 0, //
    0x3F0, 1, 0x6D61696E, 0, 1, 0x73756200, 0x0E, 0, //
    0x3F1, 2, 0x6C696E65, 0x00010002, 0x3F2, //
    0x3EA, 1, 0x68756E6B, 0x3F1, 0, 0x3F2,
];

/// Three hunks, the second of which names both others.
const TWO_TARGETS: [u32; 29] = [
    0x3F3, 0, 3, 0, 2, 2, 2, 4, //
    0x3E9, 2, 0x4E714E71, 0x4E754E75, 0x3F2, //
    0x3E9, 2, 8, 0, 0x3EC, 1, 0, 4, 1, 2, 0, 0, 0x3F2, //
    0x3EB, 4, 0x3F2,
];

/// Load files, and each as it is written.
static FILES: [(&[u32], &[u32]); 12] = [
    (&FILE, &FILE),
    (&IGNORED_BITS, &FAST_DATA),
    (&BEHIND_CONTENT, &BEHIND_CONTENT),
    (&LINKED, &LINKED),
    (&LINKED_ALONE, &LINKED_ALONE),
    (&SCATTERED, &WRITTEN),
    (&WRITTEN, &WRITTEN),
    (&ZEROS, &ZEROS),
    (&THREE_HUNKS, &THREE_HUNKS),
    (&TWO_TARGETS, &TWO_TARGETS),
    (&SHORT, &LONGER),
    (&TWO_HUNKS, &EXAMPLE),
];

/// A load file, and the bytes of it in one of its forms.
#[derive(Clone, Copy)]
pub(crate) struct Text<'a> {
    pub(crate) file: &'a LoadFile,
    pub(crate) form: LoadForm,
    pub(crate) bytes: &'a [u8],
}

/// The file is written as these bytes, at most `most` bytes per write.
fn writes(rt: &impl Abort, alloc: Global, text: Text<'_>, most: usize) -> Result<(), Fail> {
    assert!(rt; 1 <= most);
    let mut writer = Room::new(alloc, most, text.bytes.len(), false)?;
    let got = write_load_with(alloc, text.file, text.form, &mut writer);
    equals(rt, got, Ok(()));
    equals_at(rt, &(most, "a write"), writer.bytes(), text.bytes);
    holds(rt, &most, !Sink::failed(&writer));
    Ok(())
}

/// The file is written as these bytes, however many of them a write takes.
pub(crate) fn writes_in_pieces(rt: &impl Abort, alloc: Global, text: Text<'_>) -> Result<(), Fail> {
    for most in CHUNKS {
        writes(rt, alloc, text, most)?;
    }
    Ok(())
}

#[test]
fn writes_files(rt: HostRuntime) -> Result<(), Fail> {
    for (words, wanted) in &FILES {
        let file = file_of(rt.alloc(), bytes_of(rt.alloc(), words, &[])?)?;
        let bytes = bytes_of(rt.alloc(), wanted, &[])?;
        let text = Text {
            file: &file,
            form: LoadForm::Plain,
            bytes: &bytes,
        };
        writes_in_pieces(&rt, rt.alloc(), text)?;
    }
    Ok(())
}

/// Writes the file into a writer that takes this many bytes, at most `most` per write.
fn fails_to_write(
    rt: &impl Abort,
    alloc: Global,
    text: Text<'_>,
    room: usize,
    (most, zero): (usize, bool),
) -> Result<(), Fail> {
    assert!(rt; 1 <= most);
    let mut writer = Room::new(alloc, most, room, zero)?;
    let got = write_load_with(alloc, text.file, text.form, &mut writer);
    let written = room as u64;
    equals_at(
        rt,
        &("room for", room),
        got,
        Err(WriteFault::Device { written }),
    );
    equals_at(
        rt,
        &("room for", room),
        Some(writer.bytes()),
        text.bytes.get(..room),
    );
    holds(rt, &room, Sink::failed(&writer));
    Ok(())
}

/// A writer with room for each proper prefix of the bytes takes that prefix of the file.
pub(crate) fn fails_at_each_byte(
    rt: &impl Abort,
    alloc: Global,
    text: Text<'_>,
) -> Result<(), Fail> {
    for room in 0..text.bytes.len() {
        for way in [(ROOM, false), (ROOM, true), (1, false), (7, true)] {
            fails_to_write(rt, alloc, text, room, way)?;
        }
    }
    Ok(())
}

#[test]
fn tells_what_a_writer_took_of_a_file(rt: HostRuntime) -> Result<(), Fail> {
    let text = bytes_of(rt.alloc(), &LINKED, &[])?;
    let file = file_of(rt.alloc(), text.clone()?)?;
    equals(&rt, text.len(), 88);
    let text = Text {
        file: &file,
        form: LoadForm::Plain,
        bytes: &text,
    };
    fails_at_each_byte(&rt, rt.alloc(), text)
}

/// Reads the file of these bytes, and writes it in this form.
fn rewrite<A: Allocator + Copy>(
    alloc: A,
    bytes: Vec<u8>,
    form: LoadForm,
    writer: &mut Room,
) -> Result<Result<(), WriteFault>, Fail> {
    let file = file_of(alloc, bytes)?;
    Ok(write_load_with(alloc, &file, form, writer))
}

/// A file in this form is written with each allocation failing in turn: exactly the bytes up to the
/// relocation blocks of the first hunk that has sites, and then, after at least `least` allocations,
/// with none failing. The allocations to read the file come before those to write it.
pub(crate) fn is_written_up_to(
    rt: &impl Abort,
    alloc: Global,
    form: LoadForm,
    text: &[u8],
    front: usize,
    least: u64,
) -> Result<(), Fail> {
    let before = growths_of_reading(alloc, text)?;
    let mut growths = 0;
    for number in 0..MOST_GROWTHS {
        let refused = before.saturating_add(number);
        let heap = Refusing::new(alloc, refused);
        let mut writer = Room::new(alloc, 64, text.len(), false)?;
        let got = rewrite(&heap, text.to_vec(alloc)?, form, &mut writer)?;
        if heap.asked() <= refused {
            equals(rt, got, Ok(()));
            equals(rt, writer.bytes(), text);
            growths = number;
            break;
        }
        let written = front as u64;
        equals_at(
            rt,
            &("growth", number),
            got,
            Err(WriteFault::OutOfMemory { written }),
        );
        equals_at(
            rt,
            &("growth", number),
            text.get(..front),
            Some(writer.bytes()),
        );
        holds(rt, &number, !Sink::failed(&writer));
    }
    holds(rt, &("growths", growths), least <= growths);
    Ok(())
}

/// The header, the first hunk, which has no site, and the content of the second one need no
/// allocation. They are written whichever allocation fails.
#[test]
fn writes_hunk_by_hunk(rt: HostRuntime) -> Result<(), Fail> {
    let bytes = bytes_of(rt.alloc(), &TWO_TARGETS, &[])?;
    is_written_up_to(&rt, rt.alloc(), LoadForm::Plain, &bytes, 68, 1)
}

/// Sites that all name one hunk, more of them than are written at once, need no allocation.
#[test]
fn writes_sites_of_one_target_without_memory(rt: HostRuntime) -> Result<(), Fail> {
    let mut words = [0x3F3, 0, 1, 0, 0, 600, 0x3E9, 600].to_vec(rt.alloc())?;
    for _ in 0..600 {
        words.push(0)?;
    }
    words.extend_from_slice(&[0x3EC, 600, 0])?;
    for site in 0..600 {
        words.push(4 * site)?;
    }
    words.extend_from_slice(&[0, 0x3F2])?;
    let bytes = bytes_of(rt.alloc(), &words, &[])?;
    let heap = Refusing::new(rt.alloc(), growths_of_reading(rt.alloc(), &bytes)?);
    let mut writer = Room::new(rt.alloc(), ROOM, bytes.len(), false)?;
    let got = rewrite(&heap, bytes.clone()?, LoadForm::Plain, &mut writer)?;
    equals(&rt, got, Ok(()));
    equals(&rt, writer.bytes(), bytes.as_slice());
    Ok(())
}

/// Sites that name four hunks in turn, more of each hunk than are written at once. They need memory,
/// and so does sorting them.
#[test]
fn sorts_before_it_writes_relocations(rt: HostRuntime) -> Result<(), Fail> {
    let mut words = [0x3F3, 0, 4, 0, 3, 1200, 0, 0, 0, 0x3E9, 1200].to_vec(rt.alloc())?;
    for _ in 0..1200 {
        words.push(0)?;
    }
    words.push(0x3EC)?;
    for target in 0..4 {
        words.extend_from_slice(&[300, target])?;
        for site in 0..300 {
            words.push(16 * site + 4 * target)?;
        }
    }
    words.extend_from_slice(&[0, 0x3F2])?;
    for _ in 0..3 {
        words.extend_from_slice(&[0x3EB, 0, 0x3F2])?;
    }
    let bytes = bytes_of(rt.alloc(), &words, &[])?;
    is_written_up_to(&rt, rt.alloc(), LoadForm::Plain, &bytes, 4844, 2)
}
