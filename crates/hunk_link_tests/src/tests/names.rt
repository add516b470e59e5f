//! Names in one longword, and refusals that tell them.

use hunk_link::LinkRefusal;
use hunk_words::Name;
use std::alloc::{AllocError, Global};

/// The longword of the name that is `n` and this number, which has at most three digits.
pub(crate) fn name_word(alloc: Global, number: u32) -> Result<u32, AllocError> {
    let text = format!(in alloc; "n{number}")?;
    let mut bytes = [0; 4];
    for (place, byte) in bytes.iter_mut().zip(text.as_bytes()) {
        *place = *byte;
    }
    Ok(u32::from_be_bytes(bytes))
}

/// The refusal of a hunk that defines this name, which was defined before.
pub(crate) fn duplicate(
    alloc: Global,
    unit: usize,
    hunk: u32,
    word: u32,
) -> Result<LinkRefusal, AllocError> {
    let name = Name::from_words(alloc, &[word])?;
    Ok(LinkRefusal::DuplicateName { unit, hunk, name })
}

/// The refusal of a hunk that refers to this name, which no hunk defines.
pub(crate) fn undefined(
    alloc: Global,
    unit: usize,
    hunk: u32,
    word: u32,
) -> Result<LinkRefusal, AllocError> {
    let name = Name::from_words(alloc, &[word])?;
    Ok(LinkRefusal::UndefinedName { unit, hunk, name })
}
