//! Load files as JSON texts, written by hand.

use super::asserts::equals_at;
use super::runs::ENOUGH;
use hunk_json::{JsonForm, write_load_json};
use hunk_loadfile::{LoadFile, read_load};
use hunk_test_support::load_words::{TWO_HUNKS, ZEROS};
use hunk_test_support::{ROOM, bytes_of};
use hunk_words::{Pieces, Room, Text};
use std::alloc::Global;
use std::test::Fail;

/// Load files and their texts: sites of both kinds of relocation, symbols and debug blocks, and
/// content that is shorter than its hunk; and a hunk of which every list is empty.
pub(super) static FILES: [(&[u32], &str); 2] = [
    (
        &TWO_HUNKS,
        "{\"hunks\":[\
         {\"debugs\":[2],\"kind\":\"code\",\"memory\":\"any\",\
         \"sites\":[{\"hunk\":1,\"offset\":2},{\"hunk\":0,\"offset\":8}],\
         \"size\":4,\"stored\":4,\
         \"symbols\":[{\"name\":\"main\",\"value\":0},{\"name\":\"sub\",\"value\":14}]},\
         {\"debugs\":[0],\"kind\":\"data\",\"memory\":\"chip\",\
         \"sites\":[],\"size\":2,\"stored\":1,\"symbols\":[]}\
         ],\"kind\":\"load file\"}",
    ),
    (
        &ZEROS,
        "{\"hunks\":[\
         {\"debugs\":[],\"kind\":\"bss\",\"memory\":\"any\",\
         \"sites\":[],\"size\":5,\"stored\":0,\"symbols\":[]}\
         ],\"kind\":\"load file\"}",
    ),
];

/// The most bytes that are taken by each write.
const CHUNK: usize = 64;

/// The load file of these longwords.
fn file_of(alloc: Global, words: &[u32]) -> Result<LoadFile, Fail> {
    let mut reader = Pieces::new(bytes_of(alloc, words, &[])?, ROOM, None);
    Ok(read_load(alloc, &mut reader)?)
}

#[test]
fn writes_load_files(rt: HostRuntime) -> Result<(), Fail> {
    for (row, (words, wanted)) in FILES.iter().enumerate() {
        let file = file_of(rt.alloc(), words)?;
        let mut writer = Room::new(rt.alloc(), CHUNK, ENOUGH, false)?;
        let mut text = Text::new(&mut writer);
        write_load_json(&mut text, JsonForm::Plain, &[], file.hunks());
        equals_at(&rt, &row, text.finish(), Ok(()));
        equals_at(&rt, &row, writer.bytes(), wanted.as_bytes());
    }
    Ok(())
}

/// The first of these files with its contents, and with these offsets: one for each hunk, too few and
/// too many.
static PLACED: [(&[u32], [u32; 2]); 4] = [
    (&[36, 160], [36, 160]),
    (&[4294967295], [4294967295, 0]),
    (&[], [0, 0]),
    (&[1, 2, 3], [1, 2]),
];

/// The document of the file of two hunks with these offsets.
fn placed_text(alloc: Global, [code, data]: [u32; 2]) -> Result<String, Fail> {
    Ok(format!(in alloc;
        "{{\"hunks\":[\
         {{\"debugs\":[2],\"kind\":\"code\",\"memory\":\"any\",\
         \"sites\":[{{\"hunk\":1,\"offset\":2}},{{\"hunk\":0,\"offset\":8}}],\
         \"size\":4,\"stored\":4,\"content\":\"IHwAAAAATrkAAAAOTnVOdQ==\",\"content_offset\":{code},\
         \"symbols\":[{{\"name\":\"main\",\"value\":0}},{{\"name\":\"sub\",\"value\":14}}]}},\
         {{\"debugs\":[0],\"kind\":\"data\",\"memory\":\"chip\",\
         \"sites\":[],\"size\":2,\"stored\":1,\"content\":\"aHVuaw==\",\"content_offset\":{data},\
         \"symbols\":[]}}],\"kind\":\"load file\"}}"
    )?)
}

#[test]
fn writes_contents_with_their_offsets(rt: HostRuntime) -> Result<(), Fail> {
    let alloc = rt.alloc();
    let file = file_of(alloc, &TWO_HUNKS)?;
    for (offsets, told) in &PLACED {
        for form in [JsonForm::WithContent, JsonForm::InPage] {
            let mut writer = Room::new(alloc, CHUNK, ENOUGH, false)?;
            let mut text = Text::new(&mut writer);
            write_load_json(&mut text, form, offsets, file.hunks());
            equals_at(&rt, &offsets.len(), text.finish(), Ok(()));
            let wanted = placed_text(alloc, *told)?;
            equals_at(&rt, &offsets.len(), writer.bytes(), wanted.as_bytes());
        }
    }
    Ok(())
}
