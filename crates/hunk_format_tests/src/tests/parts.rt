//! Each part of a load file, as it is written.

use super::asserts::{equals, equals_at};
use super::made::file_of_parts;
use hunk_loadfile::{
    HunkKind, LoadFile, LoadForm, LoadHunk, Memory, write_load, write_load_with, written_bytes,
    written_length,
};
use hunk_test_support::bytes_of;
use hunk_words::{Name, Room, Sites, Watched, WriteFault};
use std::alloc::{AllocError, Allocator, Global};
use std::process::Abort;
use std::test::Fail;

/// The longwords of the file of two hunks below: the header, the first hunk's data, its sites
/// by target, its four symbols and its two debug blocks, and the second hunk.
const FILE: [&[u32]; 12] = [
    &[1011, 0, 2, 0, 1, 0x8000_0003, 0x4000_0005],
    &[1002, 3, 0x4E71_0000, 0x0000_0001, 0x0000_4E75],
    &[1004, 1, 0, 8, 2, 1, 0, 4, 0],
    &[1008, 1, 0x4100_0000, 4],
    &[1, 0, 8],
    &[2, 0x6D61_696E, 0x5F31_0000, 12],
    &[1, 0x666F_6F64, 0],
    &[0],
    &[1009, 2, 0xDEAD_BEEF, 7],
    &[1009, 0],
    &[1010],
    &[1003, 5, 1010],
];

/// The first hunk's sites in 16-bit words.
const SHORT_SITES: [u32; 5] = [1020, 0x0001_0000, 0x0008_0002, 0x0001_0000, 0x0004_0000];

fn symbols<A: Allocator + Copy>(alloc: A) -> Result<Vec<(Name<A>, u32), A>, Fail> {
    let rows: [(&[u32], u32); 4] = [
        (&[0x4100_0000], 4),
        (&[], 8),
        (&[0x6D61_696E, 0x5F31_0000], 12),
        (&[0x666F_6F64], 0),
    ];
    let mut symbols = Vec::new(alloc);
    for (words, value) in rows {
        symbols.push((Name::from_words(alloc, words)?, value))?;
    }
    Ok(symbols)
}

fn debugs<A: Allocator + Copy>(alloc: A) -> Result<Vec<Vec<u32, A>, A>, AllocError> {
    let mut debugs = Vec::new(alloc);
    debugs.push(Vec::from_slice(alloc, &[0xDEAD_BEEF, 7])?)?;
    debugs.push(Vec::new(alloc))?;
    Ok(debugs)
}

fn sites<A: Allocator + Copy>(alloc: A) -> Result<Sites<u32, A>, Fail> {
    let mut sites = Sites::new(alloc, 12);
    for (offset, target) in [(4, 1), (8, 0), (0, 1)] {
        sites.try_add(offset, target)?;
    }
    Ok(sites)
}

fn file<A: Allocator + Copy>(alloc: A) -> Result<LoadFile<A>, Fail> {
    let content = [0x4E, 0x71, 0, 0, 0, 0, 0, 1, 0, 0, 0x4E, 0x75];
    let mut hunks = Vec::new(alloc);
    hunks.push(LoadHunk {
        kind: HunkKind::Data,
        memory: Memory::Fast,
        size: 3,
        content: Vec::from_slice(alloc, &content)?,
        sites: sites(alloc)?,
        symbols: symbols(alloc)?,
        debugs: debugs(alloc)?,
    })?;
    hunks.push(LoadHunk {
        kind: HunkKind::Bss,
        memory: Memory::Chip,
        size: 5,
        content: Vec::new(alloc),
        sites: Sites::new(alloc, 20),
        symbols: Vec::new(alloc),
        debugs: Vec::new(alloc),
    })?;
    file_of_parts(hunks)
}

fn bytes(alloc: Global, form: LoadForm) -> Result<Vec<u8>, Fail> {
    let mut rows = FILE;
    if form == LoadForm::Short {
        rows[2] = &SHORT_SITES;
    }
    Ok(bytes_of(alloc, &rows.concat(alloc)?, &[])?)
}

#[test]
fn writes_each_part_of_a_file(rt: HostRuntime) -> Result<(), Fail> {
    let want = bytes(rt.alloc(), LoadForm::Plain)?;
    let mut writer = Watched::new(Vec::new(rt.alloc()));
    equals(
        &rt,
        write_load(rt.alloc(), &file(rt.alloc())?, &mut writer),
        Ok(()),
    );
    equals(&rt, writer.into_inner().as_slice(), want.as_slice());
    Ok(())
}

const FORMS: [LoadForm; 2] = [LoadForm::Plain, LoadForm::Short];

#[test]
fn writes_a_file_into_memory_that_holds_it_exactly(rt: HostRuntime) -> Result<(), Fail> {
    let file = file(rt.alloc())?;
    for form in FORMS {
        let want = bytes(rt.alloc(), form)?;
        let length = want.len() as u64;
        equals(&rt, written_length(rt.alloc(), &file, form), Ok(length));
        let text = written_bytes(rt.alloc(), &file, form)?;
        equals_at(&rt, &form, text.as_slice(), want.as_slice());
        equals_at(&rt, &form, text.capacity(), want.len());
    }
    Ok(())
}

/// A device that takes fewer bytes than this text, the file's in this form, took as many as it has
/// room for.
fn tells_how_much_was_taken(
    rt: &impl Abort,
    alloc: Global,
    file: &LoadFile,
    form: LoadForm,
    text: &[u8],
) -> Result<(), Fail> {
    for zero in [false, true] {
        for room in 0..text.len() {
            let mut writer = Room::new(alloc, 3, room, zero)?;
            let fault = WriteFault::Device {
                written: room as u64,
            };
            let got = write_load_with(alloc, file, form, &mut writer);
            equals_at(rt, &form, got, Err(fault));
            equals_at(rt, &form, writer.bytes(), &text[..room]);
        }
    }
    Ok(())
}

#[test]
fn tells_how_much_a_device_took(rt: HostRuntime) -> Result<(), Fail> {
    let file = file(rt.alloc())?;
    for form in FORMS {
        let text = bytes(rt.alloc(), form)?;
        tells_how_much_was_taken(&rt, rt.alloc(), &file, form, &text)?;
    }
    Ok(())
}
