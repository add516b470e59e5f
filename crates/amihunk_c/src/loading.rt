//! The calls that load a file.
ghost use Rattle.std.specs.Prelude.{◌≡◌, None, [], length, drop, min};
ghost use Rattle.amihunk_c.specs.Copying.{laid_over};
ghost use Rattle.amihunk_c.specs.LoadedHunks.{LocatesHandleHunk, bytes_in, hunks_in};
ghost use Rattle.amihunk_c.specs.Loading.{BeginsLoader, FeedsLoader, FinishesLoader};
ghost use Rattle.amihunk_c.specs.Sessions.{OpensHandle, StepsHandle, shown};

use crate::answer::Answer;
use crate::codes::Status;
use crate::copying::copy_from;
use crate::handle::Handle;
use crate::image::{bytes_in, hunks_in, locate_hunk};
use crate::loader::{feed_loader, finish_loader};
use crate::session::Session;
use crate::span::Span;
use hunk_loader::ImageLoader;
use std::alloc::Global;

/// Begins to load a file at these bases, which are addresses, one for each hunk. The handle has no
/// session yet. The bases are copied.
///
/// It answers `OK`, or `OUT_OF_MEMORY`, and then the handle still has no session; `WRONG_STATE` if
/// the handle has one, which stays.
#[unsafe(no_mangle)]
pub extern "C" fn amihunk_c_open(alloc: Global, handle: &mut Handle, bases: &[u32]) -> u32
    ensures { OpensHandle (BeginsLoader bases.now) handle.old.session handle.new.session result }
{
    let begun = match handle.take(alloc) {
        Some(session) => {
            handle.put(session);
            Status::WrongState
        }
        None => match ImageLoader::new(alloc, bases) {
            Ok(loader) => handle.begin(alloc, Session::Loading(loader)),
            Err(_) => Status::OutOfMemory,
        },
    };
    begun.code()
}

/// Takes the next bytes of the file, any number of them.
///
/// It answers `OK`, `FILE` with the first offence of all bytes so far, or `OUT_OF_MEMORY`. After a
/// refusal the memory of the file is free again, and every later call of this one and of
/// [`amihunk_c_finish`] tells the same refusal. It answers `WRONG_STATE` if the handle does not load
/// a file.
#[unsafe(no_mangle)]
pub extern "C" fn amihunk_c_feed(
    alloc: Global,
    handle: &mut Handle,
    piece: &[u8],
    answer: &mut Answer,
) -> u32
    ensures fed { StepsHandle
        (FeedsLoader piece.now) handle.old.session handle.new.session answer.new }
    ensures status { result ≡ answer.new.status }
{
    *answer = match handle.take(alloc) {
        Some(mut session) => {
            let told = feed_loader(&mut session, piece);
            handle.put(session);
            told
        }
        None => Answer::plain(Status::WrongState),
    };
    answer.status
}

/// Ends the file, and loads it.
///
/// It answers `OK`; `FILE` with the first offence of the file, which may be that it ends too early,
/// as one does that ends in its header, or before its hunks are placed; or `WRONG_COUNT`, `PAST_END`
/// or `OVERLAP` if its hunks cannot be placed at the bases of [`amihunk_c_open`]. It allocates
/// nothing: it tells `OUT_OF_MEMORY` only again. It answers `WRONG_STATE` if the handle does not load
/// a file.
#[unsafe(no_mangle)]
pub extern "C" fn amihunk_c_finish(alloc: Global, handle: &mut Handle, answer: &mut Answer) -> u32
    ensures finished { StepsHandle FinishesLoader handle.old.session handle.new.session answer.new }
    ensures status { result ≡ answer.new.status }
{
    *answer = match handle.take(alloc) {
        Some(mut session) => {
            let told = finish_loader(&mut session);
            handle.put(session);
            told
        }
        None => Answer::plain(Status::WrongState),
    };
    answer.status
}

/// The number of hunks that are loaded; 0 if no file is.
#[unsafe(no_mangle)]
pub extern "C" fn amihunk_c_hunk_count(alloc: Global, handle: &mut Handle) -> u64
    ensures session { handle.new.session ≡ handle.old.session }
    ensures count { result ≡ length (shown [] hunks_in handle.old.session) }
{
    match handle.take(alloc) {
        Some(session) => {
            let count = hunks_in(&session).len() as u64;
            handle.put(session);
            count
        }
        None => 0,
    }
}

/// Tells where the bytes of the hunk with this number are, from 0, how many they are, and the base
/// of the hunk. They stay there until the handle is closed.
///
/// It answers `OK`; `OUT_OF_RANGE` if there is no such hunk; `WRONG_STATE` if no file is loaded. With
/// these two it writes nothing.
#[unsafe(no_mangle)]
pub extern "C" fn amihunk_c_get_hunk(
    alloc: Global,
    handle: &mut Handle,
    number: u64,
    span: &mut Span,
    base: &mut u32,
) -> u32
    ensures session { handle.new.session ≡ handle.old.session }
    ensures located { LocatesHandleHunk handle.old.session number (span.old, base.old)
        (span.new, base.new) result }
{
    let status = match handle.take(alloc) {
        Some(session) => {
            let status = locate_hunk(&session, number, span, base);
            handle.put(session);
            status
        }
        None => Status::WrongState,
    };
    status.code()
}

/// Copies the bytes of the hunk with this number, from 0, into the buffer: from `offset` on, as many
/// as there are and as fit. It answers their number, which is 0 if there is no such hunk or no file
/// is loaded. What the buffer holds after them stays.
#[unsafe(no_mangle)]
pub extern "C" fn amihunk_c_read(
    alloc: Global,
    handle: &mut Handle,
    number: u64,
    offset: u64,
    buffer: &mut [u8],
) -> u64
    ensures session { handle.new.session ≡ handle.old.session }
    ensures count { result ≡ min
        (length (drop offset (shown [] (bytes_in number) handle.old.session))) (length buffer.old) }
    ensures bytes { buffer.new ≡ laid_over
        (drop offset (shown [] (bytes_in number) handle.old.session)) buffer.old }
{
    match handle.take(alloc) {
        Some(session) => {
            let count = copy_from(bytes_in(&session, number), offset, buffer);
            handle.put(session);
            count
        }
        None => copy_from(&[], offset, buffer),
    }
}

/// Ends the session of the handle, if it has one, and frees its memory.
#[unsafe(no_mangle)]
pub extern "C" fn amihunk_c_close(alloc: Global, handle: &mut Handle)
    ensures { handle.new.session ≡ None }
{
    if let Some(session) = handle.take(alloc) {
        drop(session);
    }
}
