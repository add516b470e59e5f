//! Object files as JSON texts, written by hand.

use super::asserts::equals_at;
use super::runs::ENOUGH;
use hunk_json::{JsonForm, write_object_json};
use hunk_objects::{ProgramUnit, read_object};
use hunk_test_support::{ROOM, bytes_of};
use hunk_words::{Pieces, Room, Text};
use std::alloc::Global;
use std::test::Fail;

/// Two units. The first has a hunk with a site that adds a hunk and two that add names, one with a
/// quote, a backslash and a newline, and one that is not UTF-8; a name at an offset, and a name of two
/// bytes that are one character, for the greatest number; a symbol with control characters; and a
/// debug block. Its second hunk and the one of the second unit have nothing but a kind and a memory.
const TWO_UNITS: [u32; 47] = [
    0x3E7, 1, 0x6D61696E, //
    0x3E8, 1, 0x434F4445, //
    0x3E9, 3, 0, 0, 0, //
    0x3EC, 1, 1, 0, 0, //
    0x3EF, 0x81000001, 0x61225C0A, 1, 4, 0x81000001, 0xFF410000, 1, 8, //
    0x01000001, 0x6D61696E, 0, 0x02000001, 0xC3A90000, 0xFFFFFFFF, 0, //
    0x3F0, 1, 0x011F4100, 6, 0, //
    0x3F1, 2, 7, 8, 0x3F2, //
    0x400003EB, 4, 0x3F2, //
    0x3E7, 0,
];

/// A unit without hunks.
const NO_HUNKS: [u32; 2] = [0x3E7, 0];

/// Object files and their texts.
pub(super) static FILES: [(&[u32], &str); 3] = [
    (
        &TWO_UNITS,
        "{\"kind\":\"object file\",\"units\":[\
         {\"hunks\":[\
         {\"debugs\":[2],\
         \"definitions\":[{\"absolute\":false,\"name\":\"main\",\"value\":0},\
         {\"absolute\":true,\"name\":\"\u{e9}\",\"value\":4294967295}],\
         \"kind\":\"code\",\"memory\":\"any\",\"name\":\"CODE\",\
         \"sites\":[{\"hunk\":1,\"offset\":0},{\"name\":\"a\\\"\\\\\\n\",\"offset\":4},\
         {\"name\":[255,65],\"offset\":8}],\
         \"size\":3,\"symbols\":[{\"name\":\"\\u0001\\u001fA\",\"value\":6}]},\
         {\"debugs\":[],\"definitions\":[],\"kind\":\"bss\",\"memory\":\"chip\",\"name\":\"\",\
         \"sites\":[],\"size\":4,\"symbols\":[]}\
         ],\"name\":\"main\"},\
         {\"hunks\":[],\"name\":\"\"}]}",
    ),
    (
        &[0x3E7, 0, 0x800003EA, 0, 0x3F2],
        "{\"kind\":\"object file\",\"units\":[\
         {\"hunks\":[\
         {\"debugs\":[],\"definitions\":[],\"kind\":\"data\",\"memory\":\"fast\",\"name\":\"\",\
         \"sites\":[],\"size\":0,\"symbols\":[]}\
         ],\"name\":\"\"}]}",
    ),
    (
        &NO_HUNKS,
        "{\"kind\":\"object file\",\"units\":[{\"hunks\":[],\"name\":\"\"}]}",
    ),
];

/// The most bytes that are taken by each write.
const CHUNK: usize = 64;

/// The units of the object file of these longwords.
fn units_of(alloc: Global, words: &[u32]) -> Result<Vec<ProgramUnit>, Fail> {
    let mut reader = Pieces::new(bytes_of(alloc, words, &[])?, ROOM, None);
    Ok(read_object(alloc, &mut reader)?)
}

#[test]
fn writes_object_files(rt: HostRuntime) -> Result<(), Fail> {
    for (row, (words, wanted)) in FILES.iter().enumerate() {
        let units = units_of(rt.alloc(), words)?;
        let mut writer = Room::new(rt.alloc(), CHUNK, ENOUGH, false)?;
        let mut text = Text::new(&mut writer);
        write_object_json(&mut text, JsonForm::Plain, &[], &units);
        equals_at(&rt, &row, text.finish(), Ok(()));
        equals_at(&rt, &row, writer.bytes(), wanted.as_bytes());
    }
    Ok(())
}

/// Three units: one with two hunks, one without hunks, and one with a hunk.
const THREE_UNITS: [u32; 18] = [
    0x3E7, 0, 0x3EB, 1, 0x3F2, 0x3E9, 1, 0x4E754E71, 0x3F2, //
    0x3E7, 0, //
    0x3E7, 1, 0x61000000, 0x3EA, 1, 0xFF000000, 0x3F2,
];

/// Offsets for its hunks, and those that are told.
static PLACED: [(&[u32], [u32; 3]); 4] = [
    (&[16, 28, 64], [16, 28, 64]),
    (&[5, 6], [5, 6, 0]),
    (&[7], [7, 0, 0]),
    (&[1, 2, 3, 4], [1, 2, 3]),
];

/// Its document with these offsets.
fn placed_text(alloc: Global, [zeros, code, data]: [u32; 3]) -> Result<String, Fail> {
    Ok(format!(in alloc;
        "{{\"kind\":\"object file\",\"units\":[\
         {{\"hunks\":[\
         {{\"debugs\":[],\"definitions\":[],\"kind\":\"bss\",\"memory\":\"any\",\"name\":\"\",\
         \"sites\":[],\"size\":1,\"content\":\"\",\"content_offset\":{zeros},\"symbols\":[]}},\
         {{\"debugs\":[],\"definitions\":[],\"kind\":\"code\",\"memory\":\"any\",\"name\":\"\",\
         \"sites\":[],\"size\":1,\"content\":\"TnVOcQ==\",\"content_offset\":{code},\"symbols\":[]}}\
         ],\"name\":\"\"}},\
         {{\"hunks\":[],\"name\":\"\"}},\
         {{\"hunks\":[\
         {{\"debugs\":[],\"definitions\":[],\"kind\":\"data\",\"memory\":\"any\",\"name\":\"\",\
         \"sites\":[],\"size\":1,\"content\":\"/wAAAA==\",\"content_offset\":{data},\"symbols\":[]}}\
         ],\"name\":\"a\"}}]}}"
    )?)
}

#[test]
fn writes_contents_with_their_offsets(rt: HostRuntime) -> Result<(), Fail> {
    let alloc = rt.alloc();
    let units = units_of(alloc, &THREE_UNITS)?;
    for (offsets, told) in &PLACED {
        for form in [JsonForm::WithContent, JsonForm::InPage] {
            let mut writer = Room::new(alloc, CHUNK, ENOUGH, false)?;
            let mut text = Text::new(&mut writer);
            write_object_json(&mut text, form, offsets, &units);
            equals_at(&rt, &offsets.len(), text.finish(), Ok(()));
            let wanted = placed_text(alloc, *told)?;
            equals_at(&rt, &offsets.len(), writer.bytes(), wanted.as_bytes());
        }
    }
    Ok(())
}
