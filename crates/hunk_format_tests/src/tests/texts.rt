//! Texts on their way to a writer: what is put into them, and what stops them.

use super::asserts::{equals, equals_at};
use hunk_test_support::Refusing;
use hunk_words::{Room, Sink, Text, Watched, WriteFault};
use std::alloc::{Allocator, Global};
use std::process::Abort;
use std::test::Fail;

/// What is put into each text here.
const WHOLE: &str = "a0 18446744073709551615 0000beef \"q\\x22~\\x5c\\x7f\\x00\"\n\n";

fn put_whole<W: Sink>(text: &mut Text<'_, W>) {
    text.put(b"");
    text.put(b"a");
    text.put_decimal(0);
    text.put(b" ");
    text.put_decimal(u64::MAX);
    text.put(b" ");
    text.put_longword(0xBEEF);
    text.put(b" ");
    text.put_quoted(b"q\"~\\\x7F\0");
    text.end_line();
    text.end_line();
}

/// Whether the whole text is put, to a writer that takes at most `most` bytes per write.
fn is_put(rt: &impl Abort, alloc: Global, most: usize) -> Result<(), Fail> {
    assert!(rt; 1 <= most);
    let mut writer = Room::new(alloc, most, WHOLE.len(), false)?;
    let mut text = Text::new(&mut writer);
    put_whole(&mut text);
    equals_at(rt, &most, text.is_stopped(), false);
    equals_at(rt, &most, text.written(), WHOLE.len() as u64);
    equals_at(rt, &most, text.finish(), Ok(()));
    equals_at(rt, &most, writer.bytes(), WHOLE.as_bytes());
    Ok(())
}

#[test]
fn puts_bytes_numbers_and_names(rt: HostRuntime) -> Result<(), Fail> {
    for most in [1, 2, 7, 64] {
        is_put(&rt, rt.alloc(), most)?;
    }
    Ok(())
}

/// How a text is ended.
#[derive(Clone, Copy, Debug)]
enum End {
    Finish,
    OutOfMemory,
}

impl End {
    fn of<W: Sink>(self, text: Text<'_, W>) -> Result<(), WriteFault> {
        match self {
            End::Finish => text.finish(),
            End::OutOfMemory => Err(text.out_of_memory()),
        }
    }
}

/// Whether the text stops where a writer has no more room, and says so at this end. The writer fails
/// then, or takes no byte if `zero` is set.
fn is_stopped(
    rt: &impl Abort,
    alloc: Global,
    room: usize,
    zero: bool,
    end: End,
) -> Result<(), Fail> {
    let mut writer = Room::new(alloc, 7, room, zero)?;
    let mut text = Text::new(&mut writer);
    put_whole(&mut text);
    let row = (room, zero, end);
    let written = room as u64;
    equals_at(rt, &row, text.is_stopped(), true);
    equals_at(rt, &row, text.written(), written);
    equals_at(rt, &row, end.of(text), Err(WriteFault::Device { written }));
    equals_at(rt, &row, Some(writer.bytes()), WHOLE.as_bytes().get(..room));
    Ok(())
}

#[test]
fn stops_at_each_byte(rt: HostRuntime) -> Result<(), Fail> {
    for room in 0..WHOLE.len() {
        for zero in [false, true] {
            is_stopped(&rt, rt.alloc(), room, zero, End::Finish)?;
            is_stopped(&rt, rt.alloc(), room, zero, End::OutOfMemory)?;
        }
    }
    Ok(())
}

/// Puts bytes to a writer that fails after so many of them. Later it would take more.
fn stops_after<W: Sink>(rt: &impl Abort, writer: &mut W, room: u64) {
    let mut text = Text::new(writer);
    text.put(b"a");
    text.put(&[b'b'; 64]);
    text.put(b"c");
    text.end_line();
    equals_at(rt, &room, text.written(), room);
    let fault = WriteFault::Device { written: room };
    equals_at(rt, &room, text.finish(), Err(fault));
}

/// The same to memory of which one allocation fails.
fn takes_only<A: Allocator + Copy>(rt: &impl Abort, alloc: A, front: &[u8]) {
    let mut writer = Watched::new(Vec::new(alloc));
    stops_after(rt, &mut writer, front.len() as u64);
    equals_at(rt, &front, writer.into_inner().as_slice(), front);
}

/// After a write that failed, each of these writers would take more bytes.
#[test]
fn writes_nothing_after_a_failed_write(rt: HostRuntime) -> Result<(), Fail> {
    for (refused, front) in [(0, ""), (1, "a")] {
        let heap = Refusing::new(rt.alloc(), refused);
        takes_only(&rt, &heap, front.as_bytes());
    }
    Ok(())
}

#[test]
fn tells_what_was_written_where_memory_ran_out(rt: HostRuntime) -> Result<(), Fail> {
    let mut writer = Room::new(rt.alloc(), 2, 8, false)?;
    let mut text = Text::new(&mut writer);
    text.put_decimal(1234);
    equals(
        &rt,
        text.out_of_memory(),
        WriteFault::OutOfMemory { written: 4 },
    );
    equals(&rt, writer.bytes(), b"1234".as_slice());
    Ok(())
}
