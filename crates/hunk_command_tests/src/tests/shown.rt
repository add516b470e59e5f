//! What `show` prints of a file in memory.

use super::asserts::{equals, equals_at};
use super::stores::{Unbuffered, are_unchanged_but, store_in};
use bumpalo::Bump;
use hunk_commands::{Request, ShowText, answer};
use hunk_fake_files::ONE_HUNK;
use hunk_json::page_run;
use hunk_words::{Room, Watched};
use std::alloc::Global;
use std::process::Abort;
use std::test::Fail;

/// The texts about `one-hunk` that are no page.
static TEXTS: [(ShowText, &str); 3] = [
    (
        ShowText::Listing,
        "load file: 1 hunks\nhunk 0 code any 1 longwords, 1 stored\n",
    ),
    (
        ShowText::Json,
        "{\"hunks\":[{\"debugs\":[],\"kind\":\"code\",\"memory\":\"any\",\"sites\":[],\
         \"size\":1,\"stored\":1,\"symbols\":[]}],\"kind\":\"load file\"}\n",
    ),
    (
        ShowText::JsonWithContent,
        "{\"hunks\":[{\"debugs\":[],\"kind\":\"code\",\"memory\":\"any\",\"sites\":[],\
         \"size\":1,\"stored\":1,\"content\":\"TnVOcQ==\",\"content_offset\":32,\"symbols\":[]}],\
         \"kind\":\"load file\"}\n",
    ),
];

/// Room for every text.
const ENOUGH: usize = 0x4_0000;

/// The most bytes of each write.
const CHUNK: usize = 4096;

/// An output with room for this many bytes. After that it takes nothing if `zero` is set, and fails otherwise.
#[derive(Clone, Copy)]
struct Device {
    room: usize,
    zero: bool,
}

/// What is printed on the device of `one-hunk`, where the request ends with this status and this line on
/// standard error.
fn printed(
    rt: &impl Abort,
    alloc: Global,
    device: Device,
    text: ShowText,
    (status, line): (u8, &str),
) -> Result<Vec<u8>, Fail> {
    let arena = Bump::new(alloc);
    let mut store = store_in(alloc, &arena)?;
    let mut output = Unbuffered {
        sink: Room::new(alloc, CHUNK, device.room, device.zero)?,
    };
    let mut errors = Watched::new(Vec::new(alloc));
    let request = Request::Show {
        text,
        explain: false,
        file: "one-hunk",
    };
    let got = answer(alloc, &mut store, &mut output, &mut errors, request);
    equals_at(rt, &device.room, got, status);
    equals_at(
        rt,
        &device.room,
        errors.into_inner().as_slice(),
        line.as_bytes(),
    );
    are_unchanged_but(rt, &store, "");
    Ok(output.sink.bytes().to_vec(alloc)?)
}

/// What is printed on a device that takes all of it.
fn printed_whole(rt: &impl Abort, alloc: Global, text: ShowText) -> Result<Vec<u8>, Fail> {
    let device = Device {
        room: ENOUGH,
        zero: false,
    };
    printed(rt, alloc, device, text, (0, ""))
}

#[test]
fn prints_each_text_of_a_file(rt: HostRuntime) -> Result<(), Fail> {
    for (text, wanted) in &TEXTS {
        let bytes = printed_whole(&rt, rt.alloc(), *text)?;
        equals_at(&rt, wanted, bytes.as_slice(), wanted.as_bytes());
    }
    Ok(())
}

#[test]
fn prints_the_page_of_a_file(rt: HostRuntime) -> Result<(), Fail> {
    let alloc = rt.alloc();
    let page = printed_whole(&rt, alloc, ShowText::Page)?;
    let mut writer = Watched::new(Vec::new(alloc));
    let mut reader = Watched::new(ONE_HUNK.as_slice());
    equals(&rt, page_run(alloc, &mut reader, &mut writer), Ok(()));
    equals(&rt, page.as_slice(), writer.into_inner().as_slice());
    Ok(())
}

/// A device with less room takes so much of the text, and that is told.
fn takes_front(
    rt: &impl Abort,
    alloc: Global,
    room: usize,
    text: ShowText,
    whole: &[u8],
) -> Result<(), Fail> {
    let wanted = whole.get(..room).ok_or("a shorter text")?;
    for zero in [false, true] {
        let device = Device { room, zero };
        let told = (3, "amihunk: output: write failed\n");
        let front = printed(rt, alloc, device, text, told)?;
        equals_at(rt, &room, front.as_slice(), wanted);
    }
    Ok(())
}

#[test]
fn tells_of_each_byte_that_is_not_printed(rt: HostRuntime) -> Result<(), Fail> {
    let alloc = rt.alloc();
    for (text, whole) in &TEXTS {
        for room in 0..whole.len() {
            takes_front(&rt, alloc, room, *text, whole.as_bytes())?;
        }
    }
    let page = printed_whole(&rt, alloc, ShowText::Page)?;
    for room in [0, 1, page.len() / 2, page.len().saturating_sub(1)] {
        takes_front(&rt, alloc, room, ShowText::Page, page.as_slice())?;
    }
    Ok(())
}
