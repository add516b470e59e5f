//! The bytes of files, and what loading them writes.

use super::asserts::equals_at;
use hunk_test_support::{CHUNKS, ROOM, bytes_of};
use hunk_tool::{ToolFault, load_run};
use hunk_words::{Pieces, Room};
use std::alloc::Global;
use std::process::Abort;
use std::test::Fail;

/// The bytes of a file with another longword at this place.
pub(crate) fn with_word(
    alloc: Global,
    words: &[u32],
    place: usize,
    word: u32,
) -> Result<Vec<u8>, Fail> {
    let mut other = words.to_vec(alloc)?;
    *other.get_mut(place).ok_or("no such place")? = word;
    Ok(bytes_of(alloc, &other, &[])?)
}

/// The bytes of a load file of one hunk of this size, in longwords, and these longwords.
pub(crate) fn one_hunk(alloc: Global, size: u32, content: &[u32]) -> Result<Vec<u8>, Fail> {
    let mut words = [0x0000_03F3, 0, 1, 0, 0, size, 0x0000_03E9].to_vec(alloc)?;
    words.push(u32::try_from(content.len())?)?;
    words.extend_from_slice(content)?;
    words.push(0x0000_03F2)?;
    Ok(bytes_of(alloc, &words, &[])?)
}

/// Loads these bytes in pieces of each size, and compares the result and the text that was written.
pub(crate) fn loads_to(
    rt: &impl Abort,
    alloc: Global,
    bytes: &[u8],
    bases: &[u32],
    answer: Result<(), ToolFault>,
    text: &str,
) -> Result<(), Fail> {
    for chunk in CHUNKS {
        assert!(rt; 1 <= chunk);
        let mut reader = Pieces::new(bytes.to_vec(alloc)?, chunk, None);
        let mut writer = Room::new(alloc, chunk, ROOM, false)?;
        let got = load_run(alloc, &mut reader, bases, &mut writer);
        equals_at(rt, &(bytes, chunk, "a read"), &got, &answer);
        equals_at(
            rt,
            &(bytes, chunk, "a read"),
            writer.bytes(),
            text.as_bytes(),
        );
    }
    Ok(())
}
