//! The lines of text and of JSON about files.

use super::asserts::{equals, equals_at};
use super::findings::{CUT, DIGESTED, LOAD, OBJECT, STRANGE};
use hunk_survey::{Finding, write_finding, write_finding_json};
use hunk_words::{Fault, Reason, Room, Text, WriteFault};
use std::alloc::Global;
use std::process::Abort;
use std::test::Fail;

/// What is refused at a later place, for reasons with and without a number.
const LONG: Finding = Finding::Refused(Fault {
    place: 7,
    reason: Reason::ContentTooLong,
});

const UNKNOWN: Finding = Finding::Refused(Fault {
    place: 9,
    reason: Reason::UnknownType(4_294_967_295),
});

const EXTERNAL: Finding = Finding::Refused(Fault {
    place: 9,
    reason: Reason::UnsupportedExt(255),
});

const OVERLAP: Finding = Finding::Refused(Fault {
    place: 9,
    reason: Reason::SiteOverlap(16),
});

/// Names of files, what was found of them, and the line about each.
static LINES: [(&[u8], Finding, &str); 13] = [
    (b"a.o", OBJECT, "a.o: object file: 1 units, 2 hunks\n"),
    (b"c/Dir", LOAD, "c/Dir: load file: 2 hunks\n"),
    (b"x", CUT, "x: longword 3: file ends inside a longword\n"),
    (b"ls", STRANGE, "ls: longword 0: wrong first longword\n"),
    (b"", Finding::Unread, ": read failed\n"),
    (
        b"\xC3\x9Cber",
        Finding::Unopened,
        "\"\\xc3\\x9cber\": cannot be opened\n",
    ),
    (b"a \"b\\:c", LOAD, "a \"b\\:c: load file: 2 hunks\n"),
    (
        b"a: \"b\\",
        LOAD,
        "\"a: \\x22b\\x5c\": load file: 2 hunks\n",
    ),
    (
        b"a\n\x1B[2J",
        OBJECT,
        "\"a\\x0a\\x1b[2J\": object file: 1 units, 2 hunks\n",
    ),
    (
        b"~\x7F",
        CUT,
        "\"~\\x7f\": longword 3: file ends inside a longword\n",
    ),
    (
        b"c",
        DIGESTED,
        "c: load file: 1 hunks, SHA-256 000102030405060708090a0b0c0d0e0ff0f1f2f3f4f5f6f7f8f9fafbfcfdfeff\n",
    ),
    (b"\xFF", Finding::Directory, "\"\\xff\": is a directory\n"),
    (b"fifo", Finding::NotRegular, "fifo: not a regular file\n"),
];

/// The same as JSON.
static JSON: [(&[u8], Finding, &str); 15] = [
    (
        b"a.o",
        OBJECT,
        "{\"file\":\"a.o\",\"kind\":\"object file\",\"units\":1,\"hunks\":2}\n",
    ),
    (
        b"c/Dir",
        LOAD,
        "{\"file\":\"c/Dir\",\"kind\":\"load file\",\"hunks\":2}\n",
    ),
    (
        b"c",
        DIGESTED,
        "{\"file\":\"c\",\"kind\":\"load file\",\"hunks\":1,\"sha256\":\"000102030405060708090a0b0c0d0e0ff0f1f2f3f4f5f6f7f8f9fafbfcfdfeff\"}\n",
    ),
    (
        b"x",
        CUT,
        "{\"file\":\"x\",\"kind\":\"refused\",\"place\":3,\"reason\":\"file ends inside a longword\",\"number\":null,\"hunk file\":true}\n",
    ),
    (
        b"ls",
        STRANGE,
        "{\"file\":\"ls\",\"kind\":\"refused\",\"place\":0,\"reason\":\"wrong first longword\",\"number\":null,\"hunk file\":false}\n",
    ),
    (
        b"t",
        LONG,
        "{\"file\":\"t\",\"kind\":\"refused\",\"place\":7,\"reason\":\"block longer than its hunk\",\"number\":null,\"hunk file\":true}\n",
    ),
    (
        b"u",
        UNKNOWN,
        "{\"file\":\"u\",\"kind\":\"refused\",\"place\":9,\"reason\":\"unknown block type 4294967295\",\"number\":4294967295,\"hunk file\":true}\n",
    ),
    (
        b"v",
        EXTERNAL,
        "{\"file\":\"v\",\"kind\":\"refused\",\"place\":9,\"reason\":\"external type 255 not supported\",\"number\":255,\"hunk file\":true}\n",
    ),
    (
        b"w",
        OVERLAP,
        "{\"file\":\"w\",\"kind\":\"refused\",\"place\":9,\"reason\":\"site 00000010 overlaps another\",\"number\":16,\"hunk file\":true}\n",
    ),
    (
        b"",
        Finding::Unread,
        "{\"file\":\"\",\"kind\":\"unreadable\"}\n",
    ),
    (
        b"\xC3\x9Cber",
        Finding::Unopened,
        "{\"file\":\"Über\",\"kind\":\"unreadable\"}\n",
    ),
    (
        b"\xFFd",
        Finding::Directory,
        "{\"file\":[255,100],\"kind\":\"unreadable\"}\n",
    ),
    (
        b"a\"b\\c\n\x1B<",
        Finding::NotRegular,
        "{\"file\":\"a\\\"b\\\\c\\n\\u001b<\",\"kind\":\"unreadable\"}\n",
    ),
    (
        b"\xE2\x80\xAE\xC2\x9B",
        OBJECT,
        "{\"file\":\"\\u202e\\u009b\",\"kind\":\"object file\",\"units\":1,\"hunks\":2}\n",
    ),
    (
        b"big",
        Finding::Object {
            units: 18_446_744_073_709_551_615,
            hunks: 0,
        },
        "{\"file\":\"big\",\"kind\":\"object file\",\"units\":18446744073709551615,\"hunks\":0}\n",
    ),
];

/// The form of a line.
#[derive(Clone, Copy, Debug)]
enum Form {
    Plain,
    Json,
}

impl Form {
    /// Writes the line, and returns how many bytes were written.
    fn write(
        self,
        name: &[u8],
        finding: Finding,
        writer: &mut Room<Global>,
    ) -> Result<u64, WriteFault> {
        let mut text = Text::new(writer);
        match self {
            Form::Plain => write_finding(&mut text, name, finding),
            Form::Json => write_finding_json(&mut text, name, finding),
        }
        let written = text.written();
        text.finish()?;
        Ok(written)
    }
}

/// The line is written, and as much of it as there is room for, at most 7 bytes per write.
fn is_written(
    rt: &impl Abort,
    alloc: Global,
    form: Form,
    name: &[u8],
    finding: Finding,
    text: &str,
) -> Result<(), Fail> {
    for room in 0..text.len() {
        let mut writer = Room::new(alloc, 7, room, false)?;
        let got = form.write(name, finding, &mut writer);
        let written = room as u64;
        equals_at(rt, &(form, room), got, Err(WriteFault::Device { written }));
        equals(rt, Some(writer.bytes()), text.as_bytes().get(..room));
    }
    let mut writer = Room::new(alloc, 7, text.len(), false)?;
    let got = form.write(name, finding, &mut writer);
    equals_at(rt, &(form, text), got, Ok(text.len() as u64));
    equals_at(rt, &(form, text), writer.bytes(), text.as_bytes());
    Ok(())
}

#[test]
fn writes_a_line_about_each_file(rt: HostRuntime) -> Result<(), Fail> {
    for &(name, finding, text) in &LINES {
        is_written(&rt, rt.alloc(), Form::Plain, name, finding, text)?;
    }
    Ok(())
}

#[test]
fn writes_a_line_of_json_about_each_file(rt: HostRuntime) -> Result<(), Fail> {
    for &(name, finding, text) in &JSON {
        is_written(&rt, rt.alloc(), Form::Json, name, finding, text)?;
    }
    Ok(())
}
