//! Readers and writers that fail.

use super::asserts::{equals, equals_at};
use hunk_test_support::{BASE, FILE, REPORT, ROOM, Refusing, bytes_of};
use hunk_tool::{ToolFault, load_run};
use hunk_words::{Pieces, Room, Sink, Source, Watched};
use std::alloc::Global;
use std::io;
use std::io::{ErrorKind, Read};
use std::process::Abort;
use std::test::Fail;

/// Readers of one file or of two, at most `chunk` bytes per read, of which these reads of the first and of the
/// second file fail; and a writer that takes `room` bytes, at most `most` per write. Then it fails, or takes
/// none if `zero` is set.
#[derive(Clone, Copy, Debug)]
pub(crate) struct Devices {
    pub(crate) chunk: usize,
    pub(crate) failing: (Option<u64>, Option<u64>),
    pub(crate) most: usize,
    pub(crate) room: usize,
    pub(crate) zero: bool,
}

/// Whole files, and room for any text of the tests.
pub(crate) const WHOLE: Devices = Devices {
    chunk: ROOM,
    failing: (None, None),
    most: ROOM,
    room: ROOM,
    zero: false,
};

/// Devices whose writer has room for each prefix of this text but for all of it, and that prefix.
pub(crate) fn short_of<'t>(
    alloc: Global,
    text: &'t [u8],
) -> Result<Vec<(Devices, &'t [u8])>, Fail> {
    let mut rows = Vec::new(alloc);
    for room in 0..text.len() {
        let taken = text.get(..room).ok_or("no such prefix")?;
        for (most, zero) in [(64, false), (64, true), (1, false), (7, true)] {
            let devices = Devices {
                most,
                room,
                zero,
                ..WHOLE
            };
            rows.push((devices, taken))?;
        }
    }
    Ok(rows)
}

/// Runs the file, at most `chunk` bytes per read. The read with this number fails, if it comes.
fn reads(
    rt: &impl Abort,
    alloc: Global,
    bytes: &[u8],
    chunk: usize,
    number: u64,
    wanted: Result<(), ToolFault>,
) -> Result<(), Fail> {
    assert!(rt; 1 <= chunk);
    let mut reader = Pieces::new(bytes.to_vec(alloc)?, chunk, Some(number));
    let mut writer = Room::new(alloc, 64, 64, false)?;
    let got = load_run(alloc, &mut reader, &[BASE], &mut writer);
    let text = if wanted.is_ok() { REPORT } else { "" };
    equals(rt, Source::failed(&reader), wanted.is_err());
    equals_at(rt, &("read", number, "of", chunk), got, wanted);
    equals_at(
        rt,
        &("read", number, "of", chunk),
        writer.bytes(),
        text.as_bytes(),
    );
    Ok(())
}

/// Each read of a run fails in turn, including the one that would report the end.
#[test]
fn tells_a_read_that_failed(rt: HostRuntime) -> Result<(), Fail> {
    let bytes = bytes_of(rt.alloc(), &FILE, &[])?;
    for (chunk, count) in [(64, 2), (1, 41), (3, 15), (5, 9)] {
        for number in 0..count {
            let fault = ToolFault::InputDevice { file: 0 };
            reads(&rt, rt.alloc(), &bytes, chunk, number, Err(fault))?;
        }
        reads(&rt, rt.alloc(), &bytes, chunk, count, Ok(()))?;
    }
    Ok(())
}

/// Runs the file into a writer that takes this part of the report.
fn fails_to_write(
    rt: &impl Abort,
    alloc: Global,
    devices: Devices,
    bytes: &[u8],
    taken: &[u8],
) -> Result<(), Fail> {
    assert!(rt; 1 <= devices.most);
    let mut reader = Pieces::new(bytes.to_vec(alloc)?, 64, None);
    let mut writer = Room::new(alloc, devices.most, devices.room, devices.zero)?;
    let got = load_run(alloc, &mut reader, &[BASE], &mut writer);
    let written = taken.len() as u64;
    equals_at(rt, &devices, got, Err(ToolFault::Output { written }));
    equals_at(rt, &devices, writer.bytes(), taken);
    assert!(rt; Sink::failed(&writer));
    Ok(())
}

/// A writer with room for each prefix of the report.
#[test]
fn tells_what_a_writer_took(rt: HostRuntime) -> Result<(), Fail> {
    let bytes = bytes_of(rt.alloc(), &FILE, &[])?;
    for (devices, taken) in &short_of(rt.alloc(), REPORT.as_bytes())? {
        fails_to_write(&rt, rt.alloc(), *devices, &bytes, taken)?;
    }
    Ok(())
}

/// A reader that fails.
#[derive(Drop)]
struct Broken;

impl Read for Broken {
    fn read(&mut self, _buffer: &mut [u8]) -> io::Result<usize> {
        Err(ErrorKind::Other.into())
    }
}

#[test]
fn watches_readers_and_writers_of_std(rt: HostRuntime) -> Result<(), Fail> {
    let bytes = bytes_of(rt.alloc(), &FILE, &[])?;
    let mut reader = Watched::new(bytes.as_slice());
    let mut writer = Watched::new(Vec::new(rt.alloc()));
    let got = load_run(rt.alloc(), &mut reader, &[BASE], &mut writer);
    equals(&rt, got, Ok(()));
    assert!(rt; Source::ended(&reader) && !Source::failed(&reader));
    assert!(rt; !Sink::failed(&writer));
    equals(&rt, writer.into_inner().as_slice(), REPORT.as_bytes());
    Ok(())
}

#[test]
fn watches_a_writer_of_std_that_fails(rt: HostRuntime) -> Result<(), Fail> {
    let bytes = bytes_of(rt.alloc(), &FILE, &[])?;
    let heap = Refusing::new(rt.alloc(), 0);
    let mut reader = Watched::new(bytes.as_slice());
    let mut writer = Watched::new(Vec::new(&heap));
    let got = load_run(rt.alloc(), &mut reader, &[BASE], &mut writer);
    equals(&rt, got, Err(ToolFault::Output { written: 0 }));
    assert!(rt; Sink::failed(&writer));
    Ok(())
}

#[test]
fn watches_a_reader_of_std_that_fails(rt: HostRuntime) -> Result<(), Fail> {
    let mut reader = Watched::new(Broken);
    let mut writer = Room::new(rt.alloc(), 64, 64, false)?;
    let got = load_run(rt.alloc(), &mut reader, &[BASE], &mut writer);
    equals(&rt, got, Err(ToolFault::InputDevice { file: 0 }));
    assert!(rt; Source::failed(&reader) && !Source::ended(&reader));
    assert!(rt; writer.bytes().is_empty());
    Ok(())
}
