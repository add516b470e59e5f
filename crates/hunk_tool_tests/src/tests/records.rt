//! Images as S-records.

use super::asserts::{equals, equals_at, holds};
use super::files::one_hunk;
use super::reports::EMPTY_BETWEEN;
use hunk_test_support::load_words::TWO_HUNKS;
use hunk_test_support::{BASE, CHUNKS, FILE, KEY, ROOM, bytes_of};
use hunk_tool::{ImageForm, NameHasher, ToolFault, image_run_with, load_run_with};
use hunk_words::{Pieces, Room, Sink};
use std::alloc::Global;
use std::process::Abort;
use std::test::Fail;

/// The records of `FILE` at `BASE`.
const RECORDS: &str = "S00A0000616D6968756E6B08\nS309000100004E754E7173\nS70500000000FA\n";

/// Loads these bytes in pieces of each size, and compares the records that were written.
fn loads_to_records(
    rt: &impl Abort,
    alloc: Global,
    bytes: &[u8],
    bases: &[u32],
    text: &str,
) -> Result<(), Fail> {
    for chunk in CHUNKS {
        assert!(rt; 1 <= chunk);
        let mut reader = Pieces::new(bytes.to_vec(alloc)?, chunk, None);
        let mut writer = Room::new(alloc, chunk, ROOM, false)?;
        let form = ImageForm::SRecords;
        let got = load_run_with(alloc, &mut reader, bases, form, &mut writer);
        equals_at(rt, &(bytes, chunk, "a read"), got, Ok(()));
        equals_at(
            rt,
            &(bytes, chunk, "a read"),
            writer.bytes(),
            text.as_bytes(),
        );
    }
    Ok(())
}

/// Load files, the addresses of their hunks, and the records.
static FILES: [(&[u32], &[u32], &str); 3] = [
    (&FILE, &[BASE], RECORDS),
    (
        &TWO_HUNKS,
        &[BASE, 0x0002_0000],
        "S00A0000616D6968756E6B08\n\
         S31500010000207C000200004EB90001000E4E754E75AF\n\
         S30D0002000068756E6B000000003A\n\
         S70500000000FA\n",
    ),
    (
        &EMPTY_BETWEEN,
        &[0x1000, 0x2000, 0x3000],
        "S00A0000616D6968756E6B08\n\
         S3090000100000003000B6\n\
         S3090000300012345678B2\n\
         S70500000000FA\n",
    ),
];

#[test]
fn writes_the_records_of_files(rt: HostRuntime) -> Result<(), Fail> {
    for &(words, bases, text) in &FILES {
        let bytes = bytes_of(rt.alloc(), words, &[])?;
        loads_to_records(&rt, rt.alloc(), &bytes, bases, text)?;
    }
    Ok(())
}

/// An object file with the hunk of `FILE`.
static OBJECT: [u32; 6] = [0x3E7, 0, 0x3E9, 1, 0x4E75_4E71, 0x3F2];

#[test]
fn writes_the_records_of_object_files(rt: HostRuntime) -> Result<(), Fail> {
    let mut inputs = [Pieces::new(bytes_of(rt.alloc(), &OBJECT, &[])?, 5, None)];
    let mut writer = Room::new(rt.alloc(), 7, ROOM, false)?;
    let form = ImageForm::SRecords;
    let got = image_run_with(
        rt.alloc(),
        &mut inputs,
        &[BASE],
        form,
        NameHasher::new(KEY),
        &mut writer,
    );
    equals(&rt, got, Ok(()));
    equals(&rt, writer.bytes(), RECORDS.as_bytes());
    Ok(())
}

/// The size of a hunk, its longwords, its address, and the records: a whole row and a part of one,
/// a whole row alone, and none.
static HUNKS: [(u32, &[u32], u32, &str); 3] = [
    (
        9,
        &[
            0x0001_0203,
            0x0405_0607,
            0x0809_0A0B,
            0x0C0D_0E0F,
            0x1011_1213,
            0x1415_1617,
            0x1819_1A1B,
            0x1C1D_1E1F,
            0x2021_2223,
        ],
        0xFFFF_FFDC,
        "S00A0000616D6968756E6B08\n\
         S325FFFFFFDC000102030405060708090A0B0C0D0E0F101112131415161718191A1B1C1D1E1F11\n\
         S309FFFFFFFC2021222377\n\
         S70500000000FA\n",
    ),
    (
        8,
        &[0xFFFF_FFFF; 8],
        0x1001,
        "S00A0000616D6968756E6B08\n\
         S32500001001FFFFFFFFFFFFFFFFFFFFFFFFFFFFFFFFFFFFFFFFFFFFFFFFFFFFFFFFFFFFFFFFE9\n\
         S70500000000FA\n",
    ),
    (
        0,
        &[],
        0xFFFF_FFFF,
        "S00A0000616D6968756E6B08\nS70500000000FA\n",
    ),
];

#[test]
fn writes_the_records_of_hunks(rt: HostRuntime) -> Result<(), Fail> {
    for &(size, content, base, text) in &HUNKS {
        let bytes = one_hunk(rt.alloc(), size, content)?;
        loads_to_records(&rt, rt.alloc(), &bytes, &[base], text)?;
    }
    Ok(())
}

/// The records of a hunk of zeros at address 0: all rows but the last have 32 bytes, of which the
/// record tells nothing but the address.
fn records_of_zeros(alloc: Global, size: u32) -> Result<Vec<u8>, Fail> {
    let mut text = b"S00A0000616D6968756E6B08\n".to_vec(alloc)?;
    for row in 0..size.div_ceil(32) {
        let address = 32 * row;
        let count = 32.min(size - address);
        let sum = 5 + count + address / 256 + address % 256;
        let head = format!(in alloc; "S3{:02X}{:08X}", 5 + count, address)?;
        text.extend_from_slice(head.as_bytes())?;
        for _ in 0..count {
            text.extend_from_slice(b"00")?;
        }
        let tail = format!(in alloc; "{:02X}\n", 255 - sum % 256)?;
        text.extend_from_slice(tail.as_bytes())?;
    }
    text.extend_from_slice(b"S70500000000FA\n")?;
    Ok(text)
}

/// Rows that fill one block of 1,024 bytes, and more than one.
#[test]
fn writes_the_records_of_long_hunks(rt: HostRuntime) -> Result<(), Fail> {
    let alloc = rt.alloc();
    for size in [1020, 1024, 1028, 2048, 2052] {
        let bytes = one_hunk(alloc, size / 4, &[])?;
        let mut reader = Pieces::new(bytes, ROOM, None);
        let mut writer = Room::new(alloc, ROOM, 8192, false)?;
        let form = ImageForm::SRecords;
        let got = load_run_with(alloc, &mut reader, &[0], form, &mut writer);
        equals(&rt, got, Ok(()));
        let text = records_of_zeros(alloc, size)?;
        equals_at(&rt, &size, writer.bytes(), text.as_slice());
    }
    Ok(())
}

/// A writer with this room took as much of the records, and that is told.
fn is_cut(rt: &impl Abort, room: usize, got: Result<(), ToolFault>, writer: &Room<Global>) {
    let written = room as u64;
    equals_at(rt, &room, got, Err(ToolFault::Output { written }));
    let taken = RECORDS.as_bytes().get(..room);
    equals_at(rt, &room, Some(writer.bytes()), taken);
    holds(rt, &room, Sink::failed(writer));
}

#[test]
fn tells_what_a_writer_took_of_the_records(rt: HostRuntime) -> Result<(), Fail> {
    let alloc = rt.alloc();
    let bytes = bytes_of(alloc, &FILE, &[])?;
    for room in 0..RECORDS.len() {
        for (most, zero) in [(64, false), (1, true), (7, false)] {
            assert!(rt; 1 <= most);
            let mut reader = Pieces::new(bytes.to_vec(alloc)?, 64, None);
            let mut writer = Room::new(alloc, most, room, zero)?;
            let form = ImageForm::SRecords;
            let got = load_run_with(alloc, &mut reader, &[BASE], form, &mut writer);
            is_cut(&rt, room, got, &writer);
        }
    }
    Ok(())
}

#[test]
fn tells_what_a_writer_took_of_the_records_of_object_files(rt: HostRuntime) -> Result<(), Fail> {
    let alloc = rt.alloc();
    for room in 0..RECORDS.len() {
        let mut inputs = [Pieces::new(bytes_of(alloc, &OBJECT, &[])?, 64, None)];
        let mut writer = Room::new(alloc, 7, room, false)?;
        let form = ImageForm::SRecords;
        let got = image_run_with(
            alloc,
            &mut inputs,
            &[BASE],
            form,
            NameHasher::new(KEY),
            &mut writer,
        );
        is_cut(&rt, room, got, &writer);
    }
    Ok(())
}
