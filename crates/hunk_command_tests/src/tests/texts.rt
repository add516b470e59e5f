//! The texts about a file.

use super::asserts::{equals, holds};
use hunk_commands::{ShowText, Text, print_text_to};
use hunk_fake_files::{Broken, ONE_HUNK, ONE_UNIT};
use hunk_json::page_run;
use hunk_tool::ToolFault;
use hunk_words::{Fault, Reason, Watched};
use std::alloc::Global;
use std::io::Read;
use std::process::Abort;

/// All texts about a file.
const TEXTS: [Text; 6] = [
    Text::Line,
    Text::Lint,
    Text::Shown(ShowText::Listing),
    Text::Shown(ShowText::Json),
    Text::Shown(ShowText::JsonWithContent),
    Text::Shown(ShowText::Page),
];

/// What is written about a file, and what the call returns.
fn text_about<I: Read + Drop>(
    alloc: Global,
    text: Text,
    input: I,
) -> (Vec<u8>, Result<(), ToolFault>) {
    let mut writer = Watched::new(Vec::new(alloc));
    let got = print_text_to(alloc, text, &mut Watched::new(input), &mut writer);
    (writer.into_inner(), got)
}

/// Whether this is written about a file.
fn has_text(rt: &impl Abort, alloc: Global, file: &[u8], text: Text, lines: &str) {
    let (bytes, got) = text_about(alloc, text, file);
    holds(rt, &lines, got.is_ok());
    holds(rt, &lines, bytes.as_slice() == lines.as_bytes());
}

#[test]
fn tells_what_a_file_is(rt: HostRuntime) {
    let alloc = rt.alloc();
    let files: [(&[u8], &str); 2] = [
        (&ONE_UNIT, "object file: 1 units, 2 hunks\n"),
        (&ONE_HUNK, "load file: 1 hunks\n"),
    ];
    for (file, line) in &files {
        has_text(&rt, alloc, file, Text::Line, line);
    }
}

#[test]
fn lists_what_is_in_a_file(rt: HostRuntime) {
    let alloc = rt.alloc();
    let files: [(&[u8], &str); 2] = [
        (
            &ONE_UNIT,
            "object file: 1 units, 2 hunks\nunit 0 \"test\"\n\
             hunk 0 code any 2 longwords \"CODE\"\n  00000002 adds hunk 1\n  \
             define \"main\" at 00000000\n  symbol \"loop\" 00000006\n  debug 1\n\
             hunk 1 bss chip 2 longwords \"\"\n",
        ),
        (
            &ONE_HUNK,
            "load file: 1 hunks\nhunk 0 code any 1 longwords, 1 stored\n",
        ),
    ];
    for (file, lines) in &files {
        has_text(&rt, alloc, file, Text::Shown(ShowText::Listing), lines);
    }
}

#[test]
fn tells_why_there_is_no_text(rt: HostRuntime) {
    let alloc = rt.alloc();
    let fault = Fault {
        place: 31,
        reason: Reason::PartialLongword,
    };
    for text in TEXTS {
        let (bytes, got) = text_about(alloc, text, &ONE_UNIT[..126]);
        equals(&rt, got, Err(ToolFault::Input { file: 0, fault }));
        equals(&rt, bytes.as_slice(), b"");
        let (bytes, got) = text_about(alloc, text, Broken);
        equals(&rt, got, Err(ToolFault::InputDevice { file: 0 }));
        equals(&rt, bytes.as_slice(), b"");
        let mut reader = Watched::new(ONE_UNIT.as_slice());
        let mut writer = Watched::new(Broken);
        let got = print_text_to(alloc, text, &mut reader, &mut writer);
        equals(&rt, got, Err(ToolFault::Output { written: 0 }));
    }
}

#[test]
fn tells_what_is_in_a_file_as_json(rt: HostRuntime) {
    let alloc = rt.alloc();
    let files: [(&[u8], &str); 2] = [
        (
            &ONE_UNIT,
            "{\"kind\":\"object file\",\"units\":[{\"hunks\":[\
             {\"debugs\":[1],\"definitions\":[{\"absolute\":false,\"name\":\"main\",\"value\":0}],\
             \"kind\":\"code\",\"memory\":\"any\",\"name\":\"CODE\",\
             \"sites\":[{\"hunk\":1,\"offset\":2}],\
             \"size\":2,\"symbols\":[{\"name\":\"loop\",\"value\":6}]},\
             {\"debugs\":[],\"definitions\":[],\"kind\":\"bss\",\"memory\":\"chip\",\"name\":\"\",\
             \"sites\":[],\"size\":2,\"symbols\":[]}],\"name\":\"test\"}]}\n",
        ),
        (
            &ONE_HUNK,
            "{\"hunks\":[{\"debugs\":[],\"kind\":\"code\",\"memory\":\"any\",\"sites\":[],\
             \"size\":1,\"stored\":1,\"symbols\":[]}],\"kind\":\"load file\"}\n",
        ),
    ];
    for (file, line) in &files {
        has_text(&rt, alloc, file, Text::Shown(ShowText::Json), line);
    }
}

#[test]
fn tells_contents_as_json(rt: HostRuntime) {
    let alloc = rt.alloc();
    let files: [(&[u8], &str); 2] = [
        (
            &ONE_UNIT,
            "{\"kind\":\"object file\",\"units\":[{\"hunks\":[\
             {\"debugs\":[1],\"definitions\":[{\"absolute\":false,\"name\":\"main\",\"value\":0}],\
             \"kind\":\"code\",\"memory\":\"any\",\"name\":\"CODE\",\
             \"sites\":[{\"hunk\":1,\"offset\":2}],\
             \"size\":2,\"content\":\"TrkAAAAATnU=\",\"content_offset\":32,\
             \"symbols\":[{\"name\":\"loop\",\"value\":6}]},\
             {\"debugs\":[],\"definitions\":[],\"kind\":\"bss\",\"memory\":\"chip\",\"name\":\"\",\
             \"sites\":[],\"size\":2,\"content\":\"\",\"content_offset\":124,\"symbols\":[]}],\
             \"name\":\"test\"}]}\n",
        ),
        (
            &ONE_HUNK,
            "{\"hunks\":[{\"debugs\":[],\"kind\":\"code\",\"memory\":\"any\",\"sites\":[],\
             \"size\":1,\"stored\":1,\"content\":\"TnVOcQ==\",\"content_offset\":32,\"symbols\":[]}],\
             \"kind\":\"load file\"}\n",
        ),
    ];
    for (file, line) in &files {
        has_text(
            &rt,
            alloc,
            file,
            Text::Shown(ShowText::JsonWithContent),
            line,
        );
    }
}

#[test]
fn shows_what_is_in_a_file_in_a_page(rt: HostRuntime) {
    let alloc = rt.alloc();
    let files: [&[u8]; 2] = [&ONE_UNIT, &ONE_HUNK];
    for file in files {
        let mut writer = Watched::new(Vec::new(alloc));
        let got = page_run(alloc, &mut Watched::new(file), &mut writer);
        equals(&rt, got, Ok(()));
        let (page, got) = text_about(alloc, Text::Shown(ShowText::Page), file);
        equals(&rt, got, Ok(()));
        equals(&rt, page.as_slice(), writer.into_inner().as_slice());
    }
}
