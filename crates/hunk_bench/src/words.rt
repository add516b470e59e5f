//! The decoder compared with a plain sum of the same longwords.

use crate::count::Count;
use byteorder::{BigEndian, ByteOrder};
use hunk_words::{Decoder, Feed, Refusal};
use std::io;
use std::time::Instant;

/// An object file of one unit with one hunk, up to its content of 2^24 longwords.
const START: [u8; 16] = [0, 0, 3, 0xE7, 0, 0, 0, 0, 0, 0, 3, 0xE9, 1, 0, 0, 0];

/// The bytes of its content, and of each piece that is fed.
const CONTENT: usize = 0x0400_0000;

const PIECE: usize = 65536;

/// Sums the longwords of 64 MB of content, and decodes them.
pub fn measure(rt: &HostRuntime) -> io::Result<()> {
    let content = vec![in rt.alloc(); 0x4E; CONTENT]?;
    let start = Instant::now(rt)?;
    let total = sum_all(&content);
    let sum_time = start.elapsed(rt)?.as_nanos();
    let start = Instant::now(rt)?;
    let counted = decode_all(&content);
    let decode_time = start.elapsed(rt)?.as_nanos();
    match counted {
        Ok((words, decoded)) => rt.println(format_args!(
            "sum {total}: {sum_time} ns; decoder, {words} longwords, {decoded}: {decode_time} ns"
        )),
        Err(_) => rt.println("the decoder refused the file"),
    }
}

/// The sum of the longwords.
#[inline(never)]
fn sum_all(content: &[u8]) -> u64 {
    let mut total = 0u64;
    for word in content.chunks_exact(4) {
        total = total.wrapping_add(u64::from(BigEndian::read_u32(word)));
    }
    total
}

/// The number of longwords that a taker counts, and their sum.
#[inline(never)]
fn decode_all(content: &[u8]) -> Result<(u64, u64), Refusal> {
    let mut decoder = Decoder::new(Count::new());
    decoder.feed(&START)?;
    for piece in content.chunks(PIECE) {
        decoder.feed(piece)?;
    }
    // END
    decoder.feed(&[0, 0, 3, 0xF2])?;
    let taker = decoder.finish()?;
    Ok((taker.words(), taker.total()))
}
