//! Pages of files, whatever begins and ends every page.

use super::asserts::{equals_at, holds};
use super::runs::{Devices, Text, growths};
use hunk_test_support::bytes_of;
use hunk_tool::ToolFault;
use hunk_words::{Pieces, Room};
use std::alloc::Global;
use std::process::Abort;
use std::test::Fail;

/// Room for every page.
const ENOUGH: usize = 0x4_0000;

/// The most bytes of each read and each write.
const CHUNK: usize = 4096;

const WHOLE: Devices = Devices {
    chunk: CHUNK,
    failing: None,
    room: ENOUGH,
};

/// A unit without a name, and its document.
static UNNAMED: [u32; 2] = [0x3E7, 0];

static UNNAMED_TEXT: &str = "{\"kind\":\"object file\",\"units\":[{\"hunks\":[],\"name\":\"\"}]}";

/// A unit whose name ends a script, and its document in a page.
static TAG: [u32; 5] = [0x3E7, 3, 0x3C2F7363, 0x72697074, 0x3E000000];

static TAG_TEXT: &str =
    "{\"kind\":\"object file\",\"units\":[{\"hunks\":[],\"name\":\"\\u003c/script>\"}]}";

/// A run over these longwords ends so, and its writer has room for this many bytes; what it took.
fn taken(
    rt: &impl Abort,
    alloc: Global,
    words: &[u32],
    room: usize,
    wanted: Result<(), ToolFault>,
) -> Result<Vec<u8>, Fail> {
    let mut reader = Pieces::new(bytes_of(alloc, words, &[])?, CHUNK, None);
    let mut writer = Room::new(alloc, CHUNK, room, false)?;
    let got = Text::Page.run(alloc, &mut reader, &mut writer);
    equals_at(rt, &room, got, wanted);
    Ok(writer.bytes().to_vec(alloc)?)
}

/// What stands before the document in its page, and behind it.
fn around<'p>(page: &'p [u8], document: &str) -> Result<(&'p [u8], &'p [u8]), Fail> {
    for start in 0..page.len() {
        if let Some(behind) = page[start..].strip_prefix(document.as_bytes()) {
            return Ok((&page[..start], behind));
        }
    }
    Err("no document")?
}

#[test]
fn has_the_document_of_a_file(rt: HostRuntime) -> Result<(), Fail> {
    let alloc = rt.alloc();
    let page = taken(&rt, alloc, &UNNAMED, ENOUGH, Ok(()))?;
    let (before, behind) = around(&page, UNNAMED_TEXT)?;
    let mut wanted = before.to_vec(alloc)?;
    wanted.extend_from_slice(TAG_TEXT.as_bytes())?;
    wanted.extend_from_slice(behind)?;
    let page = taken(&rt, alloc, &TAG, ENOUGH, Ok(()))?;
    equals_at(&rt, &"page", page.as_slice(), wanted.as_slice());
    Ok(())
}

#[test]
fn refuses_what_is_no_file(rt: HostRuntime) -> Result<(), Fail> {
    let mut reader = Pieces::new(bytes_of(rt.alloc(), &[0x3F3], &[])?, CHUNK, None);
    let mut writer = Room::new(rt.alloc(), CHUNK, ENOUGH, false)?;
    let got = Text::Page.run(rt.alloc(), &mut reader, &mut writer);
    holds(
        &rt,
        &"no file",
        matches!(got, Err(ToolFault::Input { file: 0, .. })),
    );
    holds(&rt, &"no page", writer.bytes().is_empty());
    Ok(())
}

/// A writer with room for this many bytes takes so many of this page.
fn takes_front(rt: &impl Abort, alloc: Global, page: &[u8], room: usize) -> Result<(), Fail> {
    let written = room as u64;
    let front = taken(rt, alloc, &TAG, room, Err(ToolFault::Output { written }))?;
    let wanted = page.get(..room).ok_or("a shorter page")?;
    equals_at(rt, &room, front.as_slice(), wanted);
    Ok(())
}

#[test]
fn tells_what_a_writer_took(rt: HostRuntime) -> Result<(), Fail> {
    let alloc = rt.alloc();
    let page = taken(&rt, alloc, &TAG, ENOUGH, Ok(()))?;
    let (before, behind) = around(&page, TAG_TEXT)?;
    let end = page.len().saturating_sub(behind.len());
    for room in before.len().saturating_sub(1)..end.saturating_add(2) {
        takes_front(&rt, alloc, &page, room)?;
    }
    for room in [0, 1, page.len().saturating_sub(1)] {
        takes_front(&rt, alloc, &page, room)?;
    }
    Ok(())
}

#[test]
fn is_out_of_memory_with_each_growth_refused(rt: HostRuntime) -> Result<(), Fail> {
    let alloc = rt.alloc();
    let page = taken(&rt, alloc, &TAG, ENOUGH, Ok(()))?;
    let growths = growths(&rt, alloc, Text::Page, WHOLE, &TAG, &page)?;
    holds(&rt, &("growths", growths), 1 <= growths);
    Ok(())
}
