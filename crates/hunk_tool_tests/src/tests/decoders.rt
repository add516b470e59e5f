//! What checks the bytes of a file: where it rejects them, why, and when.

use super::asserts::{equals, equals_at};
use super::texts::Text;
use hunk_loader::{ImageLoader, LoadRefusal, PlaceFault};
use hunk_loadfile::{LoadDecoder, read_load};
use hunk_objects::{ObjectDecoder, read_object};
use hunk_test_support::{BASE, CHUNKS, LATER_PIECES, ROOM};
use hunk_tool::{HunkFileDecoder, LoadCounter, ObjectCounter, ToolFault, load_run};
use hunk_words::FileKind::{Load, Object};
use hunk_words::{Decoder, Fault, FileKind, Pieces, ReadFault, Reason, Refusal, Room, Taker};
use std::alloc::{Allocator, Global};
use std::process::Abort;
use std::test::Fail;

/// The place and the reason of a file's fault; `None` for a file without one.
pub(crate) type Answer = Option<(u64, Reason)>;

/// What checks the bytes of a file, in any pieces.
pub(crate) trait Judge: Drop {
    /// The result for the next bytes.
    fn judge(&mut self, piece: &[u8]) -> Result<(), LoadRefusal>;

    /// The result at the end of the bytes.
    fn close(self) -> Result<(), LoadRefusal>;
}

impl<T: Taker> Judge for Decoder<T> {
    fn judge(&mut self, piece: &[u8]) -> Result<(), LoadRefusal> {
        Ok(self.feed(piece)?)
    }

    fn close(self) -> Result<(), LoadRefusal> {
        self.finish()?;
        Ok(())
    }
}

impl<A: Allocator + Copy> Judge for ObjectDecoder<A> {
    fn judge(&mut self, piece: &[u8]) -> Result<(), LoadRefusal> {
        Ok(self.feed(piece)?)
    }

    fn close(self) -> Result<(), LoadRefusal> {
        self.finish()?;
        Ok(())
    }
}

impl<A: Allocator + Copy> Judge for LoadDecoder<A> {
    fn judge(&mut self, piece: &[u8]) -> Result<(), LoadRefusal> {
        Ok(self.feed(piece)?)
    }

    fn close(self) -> Result<(), LoadRefusal> {
        self.finish()?;
        Ok(())
    }
}

impl<A: Allocator + Copy> Judge for HunkFileDecoder<A> {
    fn judge(&mut self, piece: &[u8]) -> Result<(), LoadRefusal> {
        Ok(self.feed(piece)?)
    }

    fn close(self) -> Result<(), LoadRefusal> {
        self.finish()?;
        Ok(())
    }
}

impl<A: Allocator + Copy> Judge for ImageLoader<A> {
    fn judge(&mut self, piece: &[u8]) -> Result<(), LoadRefusal> {
        self.feed(piece)
    }

    fn close(self) -> Result<(), LoadRefusal> {
        self.finish()?;
        Ok(())
    }
}

/// The fault of an answer.
pub(crate) fn fault_of(answer: Answer) -> Option<Fault> {
    match answer {
        Some((place, reason)) => Some(Fault { place, reason }),
        None => None,
    }
}

/// Each piece is taken, up to the one with the last byte of the offending longword. From there on
/// the same error is returned. An empty piece changes nothing. After a whole file comes `placed`.
fn answers_in_time<J: Judge>(
    rt: &impl Abort,
    begun: J,
    bytes: &[u8],
    chunk: usize,
    answer: Answer,
    placed: Result<(), LoadRefusal>,
) {
    let (known, refused) = match fault_of(answer) {
        Some(fault) => (
            fault.place.saturating_add(1).saturating_mul(4),
            Err(LoadRefusal::File(fault)),
        ),
        None => (u64::MAX, placed),
    };
    let mut judge = begun;
    let mut fed: u64 = 0;
    assert!(rt; 1 <= chunk);
    for piece in bytes.chunks(chunk) {
        fed = fed.saturating_add(piece.len() as u64);
        let wanted = if fed < known { Ok(()) } else { refused };
        equals_at(
            rt,
            &(bytes, fed, "fed by", chunk),
            judge.judge(piece),
            wanted,
        );
        equals_at(rt, &(bytes, fed, "fed by", chunk), judge.judge(&[]), wanted);
    }
    equals_at(rt, &(bytes, "by", chunk), judge.close(), refused);
}

/// What comes after a whole load file for hunks at these addresses: whether there is one for each of
/// its hunks, of which the tests have fewer than 256.
fn placed_at(bytes: &[u8], bases: &[u32]) -> Result<(), LoadRefusal> {
    match bytes.get(11) {
        Some(count) if usize::from(*count) == bases.len() => Ok(()),
        _ => Err(LoadRefusal::Place(PlaceFault::WrongCount)),
    }
}

/// A reader of these bytes has this result.
fn is_read_so(
    rt: &impl Abort,
    alloc: Global,
    kind: FileKind,
    bytes: &[u8],
    chunk: usize,
    answer: Answer,
) -> Result<(), Fail> {
    let wanted = match fault_of(answer) {
        Some(fault) => Some(ReadFault::Refused(Refusal::Fault(fault))),
        None => None,
    };
    assert!(rt; 1 <= chunk);
    let mut reader = Pieces::new(bytes.to_vec(alloc)?, chunk, None);
    let got = match kind {
        Object => read_object(alloc, &mut reader).err(),
        Load => read_load(alloc, &mut reader).err(),
    };
    equals_at(rt, &(bytes, "read by", chunk), got, wanted);
    Ok(())
}

/// A run over a reader of these bytes has this result. It writes nothing if they are rejected.
fn is_run_so(
    rt: &impl Abort,
    alloc: Global,
    bytes: &[u8],
    chunk: usize,
    answer: Answer,
) -> Result<(), Fail> {
    let wanted = match fault_of(answer) {
        Some(fault) => Err(ToolFault::Input { file: 0, fault }),
        None => match placed_at(bytes, &[BASE]) {
            Ok(()) => Ok(()),
            Err(_) => Err(ToolFault::Place(PlaceFault::WrongCount)),
        },
    };
    assert!(rt; 1 <= chunk);
    let mut reader = Pieces::new(bytes.to_vec(alloc)?, chunk, None);
    let mut writer = Room::new(alloc, ROOM, ROOM, false)?;
    let got = load_run(alloc, &mut reader, &[BASE], &mut writer);
    equals_at(rt, &(bytes, "run by", chunk), &got, &wanted);
    equals_at(
        rt,
        &(bytes, "run by", chunk),
        writer.bytes().is_empty(),
        got.is_err(),
    );
    Ok(())
}

/// Whether the first four bytes tell a load file: block type 1011 in the low 30 bits.
fn is_told_load(bytes: &[u8]) -> bool {
    match bytes {
        [first, 0, 0x03, 0xF3, ..] => first & 0x3F == 0,
        _ => false,
    }
}

/// A text about the file has this result. Nothing is written of bytes that are rejected.
fn is_text_so(
    rt: &impl Abort,
    alloc: Global,
    text: Text,
    bytes: &[u8],
    chunk: usize,
    answer: Answer,
) -> Result<(), Fail> {
    let wanted = match fault_of(answer) {
        Some(fault) => Err(ToolFault::Input { file: 0, fault }),
        None => Ok(()),
    };
    assert!(rt; 1 <= chunk);
    let mut reader = Pieces::new(bytes.to_vec(alloc)?, chunk, None);
    let mut writer = Room::new(alloc, ROOM, ROOM, false)?;
    let got = text.run(alloc, &mut reader, &mut writer);
    equals_at(rt, &(text, "of", bytes, "by", chunk), &got, &wanted);
    let nothing = writer.bytes().is_empty();
    equals_at(rt, &(text, "of", bytes, "by", chunk), nothing, got.is_err());
    Ok(())
}

// The decoders are tested at any allocator: a call at one of them is then proved in a fifth of the
// steps that it takes at the global allocator.

/// A decoder of either kind has this result.
fn is_told_in_time<A: Allocator + Copy>(
    rt: &impl Abort,
    alloc: A,
    bytes: &[u8],
    chunk: usize,
    answer: Answer,
) {
    let judge = HunkFileDecoder::new(alloc);
    answers_in_time(rt, judge, bytes, chunk, answer, Ok(()));
}

/// Both decoders of an object file have this result.
fn is_object_in_time<A: Allocator + Copy>(
    rt: &impl Abort,
    alloc: A,
    bytes: &[u8],
    chunk: usize,
    answer: Answer,
) {
    let judge = Decoder::new(ObjectCounter::new(alloc));
    answers_in_time(rt, judge, bytes, chunk, answer, Ok(()));
    answers_in_time(rt, ObjectDecoder::new(alloc), bytes, chunk, answer, Ok(()));
}

/// Both decoders of a load file, and the loader with any number of addresses, have this result.
fn is_load_in_time<A: Allocator + Copy>(
    rt: &impl Abort,
    alloc: A,
    bytes: &[u8],
    chunk: usize,
    answer: Answer,
) -> Result<(), Fail> {
    let judge = Decoder::new(LoadCounter::new(alloc));
    answers_in_time(rt, judge, bytes, chunk, answer, Ok(()));
    answers_in_time(rt, LoadDecoder::new(alloc), bytes, chunk, answer, Ok(()));
    let places: [&[u32]; 3] = [&[], &[BASE], &[BASE, 0x0002_0000]];
    for bases in places {
        let loader = ImageLoader::new(alloc, bases)?;
        let placed = placed_at(bytes, bases);
        answers_in_time(rt, loader, bytes, chunk, answer, placed);
    }
    Ok(())
}

/// A decoder of either kind, and both texts about the file, have this result, if the first four bytes
/// tell a file of this kind.
fn is_told_so(
    rt: &impl Abort,
    alloc: Global,
    kind: FileKind,
    bytes: &[u8],
    chunk: usize,
    answer: Answer,
) -> Result<(), Fail> {
    if is_told_load(bytes) != (kind == Load) {
        return Ok(());
    }
    is_told_in_time(rt, alloc, bytes, chunk, answer);
    is_text_so(rt, alloc, Text::Check, bytes, chunk, answer)?;
    is_text_so(rt, alloc, Text::Show, bytes, chunk, answer)
}

/// Everything that reads an object file has this result for these bytes.
fn is_object_judged(
    rt: &impl Abort,
    alloc: Global,
    bytes: &[u8],
    chunk: usize,
    answer: Answer,
) -> Result<(), Fail> {
    is_object_in_time(rt, alloc, bytes, chunk, answer);
    is_told_so(rt, alloc, Object, bytes, chunk, answer)?;
    is_read_so(rt, alloc, Object, bytes, chunk, answer)
}

/// Everything that reads a load file has this result for these bytes.
fn is_load_judged(
    rt: &impl Abort,
    alloc: Global,
    bytes: &[u8],
    chunk: usize,
    answer: Answer,
) -> Result<(), Fail> {
    is_load_in_time(rt, alloc, bytes, chunk, answer)?;
    is_told_so(rt, alloc, Load, bytes, chunk, answer)?;
    is_read_so(rt, alloc, Load, bytes, chunk, answer)?;
    is_run_so(rt, alloc, bytes, chunk, answer)
}

/// Everything that reads a file of this kind has this result for these bytes, in any pieces.
pub(crate) fn is_judged(
    rt: &impl Abort,
    alloc: Global,
    kind: FileKind,
    bytes: &[u8],
    answer: Answer,
) -> Result<(), Fail> {
    for chunk in CHUNKS {
        match kind {
            Object => is_object_judged(rt, alloc, bytes, chunk, answer)?,
            Load => is_load_judged(rt, alloc, bytes, chunk, answer)?,
        }
    }
    Ok(())
}

/// After an error, every later call returns the same error.
pub(crate) fn answers_again<J: Judge>(rt: &impl Abort, begun: J, refusal: LoadRefusal) {
    let mut judge = begun;
    for piece in LATER_PIECES {
        equals(rt, judge.judge(piece), Err(refusal));
    }
    equals(rt, judge.close(), Err(refusal));
}
