//! What units link to is compared with what it is to be.

use super::asserts::{equals, equals_at, holds};
use super::hashers::Alike;
use hunk_link::{LinkRefusal, link, link_units, link_units_with, link_with};
use hunk_loadfile::{LoadFile, LoadForm, write_load_with};
use hunk_objects::{ProgramUnit, read_object};
use hunk_tool::LinkOptions;
use hunk_words::{Pieces, Room};
use std::alloc::{AllocError, Allocator, Global};
use std::process::Abort;
use std::test::Fail;

/// What a link is to give: the longwords of a load file, or why there is none.
pub(crate) type Answer<'a> = Result<&'a [u32], &'a LinkRefusal>;

/// Bytes per read and per write.
const PIECE: usize = 4096;

/// The bytes of these longwords.
pub(crate) fn bytes_of(alloc: Global, words: &[u32]) -> Result<Vec<u8>, AllocError> {
    let mut bytes = Vec::new(alloc);
    for word in words {
        bytes.extend_from_slice(&word.to_be_bytes())?;
    }
    Ok(bytes)
}

/// The units of these object files, in order, allocated from `alloc`.
pub(crate) fn units_of<A: Allocator + Copy>(
    global: Global,
    alloc: A,
    objects: &[&[u32]],
) -> Result<Vec<ProgramUnit<A>, A>, Fail> {
    let mut units = Vec::new(alloc);
    for words in objects {
        let mut reader = Pieces::new(bytes_of(global, words)?, PIECE, None);
        for unit in read_object(alloc, &mut reader)? {
            units.push(unit).map_err(AllocError::from)?;
        }
    }
    Ok(units)
}

/// The load file is written in this form as these longwords.
pub(crate) fn is_file<A: Allocator + Copy>(
    rt: &impl Abort,
    global: Global,
    alloc: A,
    file: &LoadFile<A>,
    form: LoadForm,
    words: &[u32],
) -> Result<(), Fail> {
    let bytes = bytes_of(global, words)?;
    let mut writer = Room::new(global, PIECE, bytes.len(), false)?;
    let got = write_load_with(alloc, file, form, &mut writer);
    equals_at(rt, &words, got, Ok(()));
    equals_at(rt, &words, writer.bytes(), bytes.as_slice());
    Ok(())
}

/// This is the answer, as the options say.
fn is_answer(
    rt: &impl Abort,
    alloc: Global,
    linked: Result<LoadFile, LinkRefusal>,
    options: LinkOptions,
    wanted: Answer<'_>,
) -> Result<(), Fail> {
    match (linked, wanted) {
        (Ok(file), Ok(words)) => {
            let file = options.trimmed(file);
            is_file(rt, alloc, alloc, &file, options.form(), words)?;
        }
        (Err(refusal), Err(other)) => equals(rt, &refusal, other),
        (Ok(_), Err(other)) => holds(rt, &("a file in place of", other), false),
        (Err(refusal), Ok(words)) => holds(rt, &(refusal, "in place of", words), false),
    }
    Ok(())
}

/// Each call that links gives this answer for the units of these object files, as the options say, also
/// if all names have the same hash.
pub(crate) fn links_to(
    rt: &impl Abort,
    alloc: Global,
    objects: &[&[u32]],
    options: LinkOptions,
    wanted: Answer<'_>,
) -> Result<(), Fail> {
    let units = units_of(alloc, alloc, objects)?;
    let copied = link(alloc, &units, options.strip);
    is_answer(rt, alloc, copied, options, wanted)?;
    let alike = link_with(alloc, &units, options.strip, Alike);
    is_answer(rt, alloc, alike, options, wanted)?;
    let moved = link_units(alloc, units, options.strip);
    is_answer(rt, alloc, moved, options, wanted)?;
    let units = units_of(alloc, alloc, objects)?;
    let alike = link_units_with(alloc, units, options.strip, Alike);
    is_answer(rt, alloc, alike, options, wanted)
}
