//! The texts that are written about files: what they are, and what stops them.

use super::asserts::{equals, equals_at, holds};
use super::memory::is_done;
use hunk_test_support::words::{ASSEMBLED, LINKED_ALONE, TWO_NAMES};
use hunk_test_support::{CHUNKS, ROOM, Refusing, bytes_of};
use hunk_tool::{ToolFault, check_run, show_run};
use hunk_words::{Pieces, Room, Sink, Source};
use std::alloc::{Allocator, Global};
use std::process::Abort;
use std::test::Fail;

/// More allocations than a run of the tests makes.
const MOST_GROWTHS: u64 = 128;

/// An object file of one unit without hunks, whose name has a quote, a backslash and a byte that is
/// not ASCII.
const QUOTED: [u32; 3] = [0x0000_03E7, 1, 0x4122_5CFF];

/// What is written of it.
const QUOTED_TEXT: &str = "object file: 1 units, 0 hunks\nunit 0 \"A\\x22\\x5c\\xff\"\n";

const ASSEMBLED_TEXT: &str = "object file: 1 units, 2 hunks\n\
                              unit 0 \"test\"\n\
                              hunk 0 code any 2 longwords \"CODE\"\n  \
                              00000002 adds hunk 1\n  \
                              define \"main\" at 00000000\n  \
                              symbol \"loop\" 00000006\n  \
                              debug 1\n\
                              hunk 1 bss chip 2 longwords \"\"\n";

const LINKED_TEXT: &str = "load file: 2 hunks\n\
                           hunk 0 code any 2 longwords, 2 stored\n  \
                           00000002 adds hunk 1\n  \
                           symbol \"loop\" 00000006\n  \
                           debug 1\n\
                           hunk 1 bss chip 2 longwords, 0 stored\n";

const TWO_NAMES_TEXT: &str = "object file: 1 units, 1 hunks\n\
                              unit 0 \"U\"\n\
                              hunk 0 code any 3 longwords \"\"\n  \
                              00000000 adds \"x\"\n  \
                              00000004 adds hunk 0\n  \
                              00000008 adds \"x\"\n";

/// Two units. The code of the first refers to two names, the first of them at the higher offset, and
/// defines a number; the second has data in fast memory, and a quote in its name.
const TWO_UNITS: [u32; 28] = [
    0x3E7, 0, 0x3E9, 3, 0x4EB90000, 0, 0x4E750000, //
    0x3EF, 0x81000001, 0x62617200, 1, 6, 0x81000001, 0x71757800, 1, 0, //
    0x02000001, 0x666F6F00, 0xDEADBEEF, 0, 0x3F2, //
    0x3E7, 1, 0x41220000, 0x800003EA, 1, 7, 0x3F2,
];

const TWO_UNITS_TEXT: &str = "object file: 2 units, 2 hunks\n\
                              unit 0 \"\"\n\
                              hunk 0 code any 3 longwords \"\"\n  \
                              00000000 adds \"qux\"\n  \
                              00000006 adds \"bar\"\n  \
                              define \"foo\" as deadbeef\n\
                              unit 1 \"A\\x22\"\n\
                              hunk 0 data fast 1 longwords \"\"\n";

/// A unit with an empty hunk, and then one without hunks.
const EMPTY_UNITS: [u32; 7] = [0x3E7, 0, 0x3EB, 0, 0x3F2, 0x3E7, 0];

const EMPTY_UNITS_TEXT: &str = "object file: 2 units, 1 hunks\n\
                                unit 0 \"\"\n\
                                hunk 0 bss any 0 longwords \"\"\n\
                                unit 1 \"\"\n";

/// The file of most tests. The upper two bits of its first longword are ignored.
const MARKED: [u32; 10] = [0xC00003F3, 0, 1, 0, 0, 1, 0x3E9, 1, 0x4E754E71, 0x3F2];

const MARKED_TEXT: &str = "load file: 1 hunks\n\
                           hunk 0 code any 1 longwords, 1 stored\n";

/// A text about a file.
#[derive(Clone, Copy, Debug)]
pub(crate) enum Text {
    /// The line of what it is.
    Check,
    /// The listing of what is in it.
    Show,
}

impl Text {
    /// Reads a file, and writes the text.
    pub(crate) fn run<A: Allocator + Copy, R: Source, W: Sink>(
        self,
        alloc: A,
        reader: &mut R,
        writer: &mut W,
    ) -> Result<(), ToolFault<A>> {
        match self {
            Text::Check => check_run(alloc, reader, writer),
            Text::Show => show_run(alloc, reader, writer),
        }
    }

    /// What is written of a file with this listing: all of it, or its first line.
    fn of(self, listing: &str) -> Result<&str, Fail> {
        match self {
            Text::Check => {
                let end = listing.find('\n').ok_or("no line")?;
                Ok(listing.get(..=end).ok_or("no line")?)
            }
            Text::Show => Ok(listing),
        }
    }
}

/// Files, and their listings.
static LISTINGS: [(&[u32], &str); 7] = [
    (&QUOTED, QUOTED_TEXT),
    (&TWO_UNITS, TWO_UNITS_TEXT),
    (&EMPTY_UNITS, EMPTY_UNITS_TEXT),
    (&MARKED, MARKED_TEXT),
    (&ASSEMBLED, ASSEMBLED_TEXT),
    (&LINKED_ALONE, LINKED_TEXT),
    (&TWO_NAMES, TWO_NAMES_TEXT),
];

/// The text is written of these bytes, at most `chunk` bytes per read and per write.
fn writes(
    rt: &impl Abort,
    alloc: Global,
    text: Text,
    bytes: &[u8],
    chunk: usize,
    wanted: &str,
) -> Result<(), Fail> {
    assert!(rt; 1 <= chunk);
    let mut reader = Pieces::new(bytes.to_vec(alloc)?, chunk, None);
    let mut writer = Room::new(alloc, chunk, ROOM, false)?;
    equals(rt, text.run(alloc, &mut reader, &mut writer), Ok(()));
    equals_at(rt, &(text, "by", chunk), writer.bytes(), wanted.as_bytes());
    Ok(())
}

/// Both texts are written of this file.
fn writes_both(
    rt: &impl Abort,
    alloc: Global,
    bytes: &[u8],
    chunk: usize,
    listing: &str,
) -> Result<(), Fail> {
    for text in [Text::Check, Text::Show] {
        writes(rt, alloc, text, bytes, chunk, text.of(listing)?)?;
    }
    Ok(())
}

#[test]
fn writes_what_is_in_a_file(rt: HostRuntime) -> Result<(), Fail> {
    for &(words, listing) in &LISTINGS {
        let bytes = bytes_of(rt.alloc(), words, &[])?;
        for chunk in CHUNKS {
            writes_both(&rt, rt.alloc(), &bytes, chunk, listing)?;
        }
    }
    Ok(())
}

/// Names of units, and each in quotes: the ends of what is plain, and names that are written in
/// several pieces.
static NAMES: [(&[u8], &str); 4] = [
    (b"_main: ~!", "_main: ~!"),
    (&[31, 32, 126, 127, 255], "\\x1f ~\\x7f\\xff"),
    (
        b"_a_name_of_more_than_sixty-four_bytes_that_a_compiler_may_have_written",
        "_a_name_of_more_than_sixty-four_bytes_that_a_compiler_may_have_written",
    ),
    (
        &[0xA9; 66],
        "\\xa9\\xa9\\xa9\\xa9\\xa9\\xa9\\xa9\\xa9\\xa9\\xa9\\xa9\
         \\xa9\\xa9\\xa9\\xa9\\xa9\\xa9\\xa9\\xa9\\xa9\\xa9\\xa9\
         \\xa9\\xa9\\xa9\\xa9\\xa9\\xa9\\xa9\\xa9\\xa9\\xa9\\xa9\
         \\xa9\\xa9\\xa9\\xa9\\xa9\\xa9\\xa9\\xa9\\xa9\\xa9\\xa9\
         \\xa9\\xa9\\xa9\\xa9\\xa9\\xa9\\xa9\\xa9\\xa9\\xa9\\xa9\
         \\xa9\\xa9\\xa9\\xa9\\xa9\\xa9\\xa9\\xa9\\xa9\\xa9\\xa9",
    ),
];

/// An object file of one unit with this name and without hunks.
fn unit_of(alloc: Global, name: &[u8]) -> Result<Vec<u8>, Fail> {
    let count = u32::try_from(name.len().div_ceil(4))?;
    let mut bytes = bytes_of(alloc, &[0x0000_03E7, count], name)?;
    let zeros: &[u8] = match name.len() % 4 {
        0 => &[],
        1 => &[0, 0, 0],
        2 => &[0, 0],
        _ => &[0],
    };
    bytes.extend_from_slice(zeros)?;
    Ok(bytes)
}

#[test]
fn quotes_names(rt: HostRuntime) -> Result<(), Fail> {
    for &(name, quoted) in &NAMES {
        let bytes = unit_of(rt.alloc(), name)?;
        let listing = format!(in rt.alloc();
            "object file: 1 units, 0 hunks\nunit 0 \"{quoted}\"\n"
        )?;
        writes_both(&rt, rt.alloc(), &bytes, 64, &listing)?;
    }
    Ok(())
}

/// Whether the text was written with this allocation failing.
fn is_written(
    rt: &impl Abort,
    alloc: Global,
    text: Text,
    bytes: &[u8],
    wanted: &str,
    refused: u64,
) -> Result<bool, Fail> {
    let heap = Refusing::new(alloc, refused);
    let mut reader = Pieces::new(bytes.to_vec(alloc)?, 5, None);
    let mut writer = Room::new(alloc, ROOM, ROOM, false)?;
    let got = text.run(&heap, &mut reader, &mut writer);
    Ok(is_done(rt, &heap, refused, &got, writer.bytes(), wanted))
}

/// The number of allocations: the run is out of memory with each of them failing, and succeeds once
/// none fails.
fn growths_of(
    rt: &impl Abort,
    alloc: Global,
    text: Text,
    bytes: &[u8],
    wanted: &str,
) -> Result<u64, Fail> {
    for refused in 0..MOST_GROWTHS {
        if is_written(rt, alloc, text, bytes, wanted, refused)? {
            return Ok(refused);
        }
    }
    holds(rt, &("each run was refused a growth", MOST_GROWTHS), false);
    Ok(0)
}

/// A unit without hunks, whose name is too long to be in place.
const LONG_NAMED: [u32; 12] = [
    0x3E7,
    10,
    0x5F61_5F6E,
    0x616D_655F,
    0x6F66_5F66,
    0x6F72_7479,
    0x5F62_7974,
    0x6573_5F74,
    0x6861_745F,
    0x6973_5F61,
    0x6C6C_6F63,
    0x6174_6564,
];

/// Texts of files, and the fewest allocations of each. A short name takes none.
static GROWTHS: [(Text, &[u32], &str, u64); 5] = [
    // the sites of the first hunk
    (Text::Check, &ASSEMBLED, ASSEMBLED_TEXT, 1),
    // the sizes in the header, and the sites
    (Text::Check, &LINKED_ALONE, LINKED_TEXT, 2),
    // units, hunks, content, sites, a definition, symbols, and debug blocks
    (Text::Show, &ASSEMBLED, ASSEMBLED_TEXT, 7),
    // sizes, hunks, content, sites, symbols, debug blocks, and one of them
    (Text::Show, &LINKED_ALONE, LINKED_TEXT, 7),
    // units, and the name
    (
        Text::Show,
        &LONG_NAMED,
        "object file: 1 units, 0 hunks\nunit 0 \"_a_name_of_forty_bytes_that_is_allocated\"\n",
        2,
    ),
];

#[test]
fn refuses_each_growth_of_a_text(rt: HostRuntime) -> Result<(), Fail> {
    for &(text, words, listing, least) in &GROWTHS {
        let bytes = bytes_of(rt.alloc(), words, &[])?;
        let growths = growths_of(&rt, rt.alloc(), text, &bytes, text.of(listing)?)?;
        holds(&rt, &(text, "growths", growths), least <= growths);
    }
    Ok(())
}

/// Runs the text over a file, at most `chunk` bytes per read. The read with this number fails, if it
/// comes.
fn fails_to_read(
    rt: &impl Abort,
    alloc: Global,
    text: Text,
    chunk: usize,
    number: u64,
    wanted: Result<(), ToolFault>,
) -> Result<(), Fail> {
    assert!(rt; 1 <= chunk);
    let bytes = bytes_of(alloc, &ASSEMBLED, &[])?;
    let mut reader = Pieces::new(bytes, chunk, Some(number));
    let mut writer = Room::new(alloc, ROOM, ROOM, false)?;
    let got = text.run(alloc, &mut reader, &mut writer);
    equals_at(rt, &(text, "read", number, "of", chunk), &got, &wanted);
    let nothing = writer.bytes().is_empty();
    equals_at(rt, &("read", number, "of", chunk), nothing, got.is_err());
    Ok(())
}

/// Each of so many reads fails in turn, including the one that would report the end.
fn fails_to_read_each(
    rt: &impl Abort,
    alloc: Global,
    text: Text,
    chunk: usize,
    reads: u64,
) -> Result<(), Fail> {
    for number in 0..reads {
        let fault = ToolFault::InputDevice { file: 0 };
        fails_to_read(rt, alloc, text, chunk, number, Err(fault))?;
    }
    fails_to_read(rt, alloc, text, chunk, reads, Ok(()))
}

#[test]
fn tells_a_read_that_failed_before_a_text(rt: HostRuntime) -> Result<(), Fail> {
    for (chunk, reads) in [(64, 3), (1, 129), (3, 44), (5, 27)] {
        for text in [Text::Check, Text::Show] {
            fails_to_read_each(&rt, rt.alloc(), text, chunk, reads)?;
        }
    }
    Ok(())
}

/// Runs the text into a writer that takes this many bytes.
fn fails_to_write(
    rt: &impl Abort,
    alloc: Global,
    (text, bytes): (Text, &[u8]),
    wanted: &[u8],
    room: usize,
    zero: bool,
) -> Result<(), Fail> {
    let mut reader = Pieces::new(bytes.to_vec(alloc)?, 64, None);
    let mut writer = Room::new(alloc, 7, room, zero)?;
    let got = text.run(alloc, &mut reader, &mut writer);
    let written = room as u64;
    equals_at(
        rt,
        &("room for", room),
        got,
        Err(ToolFault::Output { written }),
    );
    equals_at(
        rt,
        &("room for", room),
        Some(writer.bytes()),
        wanted.get(..room),
    );
    Ok(())
}

/// A writer with room for each prefix of the text.
fn fails_to_write_each(
    rt: &impl Abort,
    alloc: Global,
    text: Text,
    words: &[u32],
    listing: &str,
) -> Result<(), Fail> {
    let bytes = bytes_of(alloc, words, &[])?;
    let wanted = text.of(listing)?.as_bytes();
    for room in 0..wanted.len() {
        fails_to_write(rt, alloc, (text, &bytes), wanted, room, false)?;
        fails_to_write(rt, alloc, (text, &bytes), wanted, room, true)?;
    }
    Ok(())
}

#[test]
fn tells_what_a_writer_took_of_a_text(rt: HostRuntime) -> Result<(), Fail> {
    for text in [Text::Check, Text::Show] {
        fails_to_write_each(&rt, rt.alloc(), text, &ASSEMBLED, ASSEMBLED_TEXT)?;
        fails_to_write_each(&rt, rt.alloc(), text, &LINKED_ALONE, LINKED_TEXT)?;
    }
    Ok(())
}
