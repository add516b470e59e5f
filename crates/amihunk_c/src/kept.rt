//! What a linker keeps, and tells.
ghost use Rattle.std.specs.Prelude.{◌≡◌, ◌==◌, ◌<◌, [], ◌∷◌, length, map, position, Some, Ok, Err, IfOk, IfErr, IfNone, IfSome};
ghost use Rattle.hunk_origins.specs.Map.{map_text};
ghost use Rattle.amihunk_c.specs.Keeping.{IsUndefinedTold, TellsMap, names_in, undefined_at, undefined_names_in};
ghost use Rattle.amihunk_c.specs.Looking.{Tells};

use crate::codes::Status;
use crate::copying::copy_from;
use crate::linked::Kept;
use crate::session::Session;
use crate::told::UndefinedTold;
use hunk_origins::UndefinedName;
use std::alloc::{AllocError, Global};

/// The names that no hunk defines, if they are kept.
fn undefined_names_in(session: &Session) -> Result<&[UndefinedName], Status>
    ensures names { IfOk result (λ names. undefined_names_in session.now ≡ Ok names.now) }
    ensures none { IfErr result (λ error. undefined_names_in session.now ≡ Err error) }
{
    match session {
        Session::Stopped(refused) => match &refused.undefined {
            Some(names) => Ok(names),
            None => Err(Status::WrongState),
        },
        _ => Err(Status::WrongState),
    }
}

/// Tells a name that no hunk defines.
pub(crate) fn tell_undefined(session: &Session, index: u64, told: &mut UndefinedTold) -> u32
    ensures { Tells IsUndefinedTold (undefined_at session.now index) told.old told.new result }
{
    match undefined_names_in(session) {
        Ok(names) => match names.get(index as usize) {
            Some(name) => {
                *told = UndefinedTold::of(name);
                Status::Ok.code()
            }
            None => Status::OutOfRange.code(),
        },
        Err(error) => error.code(),
    }
}

/// Where the first name of a list ends, which is the index of the first zero byte.
fn end_of_first(list: &[u8]) -> Option<usize>
    ensures { result ≡ position (λ byte. byte == 0) list.now }
{
    list.iter().position(|byte| *byte == 0)
}

/// The first name of a list, and the list of the others.
fn split_first(list: &[u8]) -> Option<(&[u8], &[u8])>
    ensures first { IfSome result
        (λ split. names_in list.now ≡ split.0.now ∷ names_in split.1.now) }
    ensures shorter { IfSome result (λ split. length split.1.now < length list.now) }
    ensures none { IfNone result (names_in list.now ≡ []) }
{
    let end = end_of_first(list)?;
    Some((&list[..end], &list[end + 1..]))
}

/// The names in a list, each of them ended by a zero byte.
fn names_in(alloc: Global, list: &[u8]) -> Result<Vec<&[u8]>, AllocError>
    ensures { IfOk result (λ names. map (λ name. name.now) names.items ≡ names_in list.now) }
{
    let mut names = Vec::new(alloc);
    let mut rest = list;
    while let Some((name, others)) = split_first(rest) {
        names.push(name)?;
        rest = others;
    }
    Ok(names)
}

/// The text of the map, if the object files have the names in this list.
fn map_of(alloc: Global, kept: &Kept, list: &[u8]) -> Result<Vec<u8>, AllocError>
    ensures { IfOk result
        (λ text. text.items ≡ map_text (names_in list.now) kept.now.1 kept.now.0) }
{
    kept.map(alloc, &names_in(alloc, list)?)
}

/// Copies the map of the load file into the buffer, and returns its length.
pub(crate) fn copy_map(alloc: Global, session: &Session, list: &[u8], buffer: &mut [u8]) -> u64
    ensures { TellsMap list.now session.now buffer.old buffer.new result }
{
    let Session::Linked(linked) = session else {
        return 0;
    };
    let Some(kept) = &linked.kept else {
        return 0;
    };
    match map_of(alloc, kept, list) {
        Ok(text) => {
            let _copied = copy_from(&text, 0, buffer);
            text.len() as u64
        }
        Err(_) => 0,
    }
}
