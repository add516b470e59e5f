//! The calls that link object files.
ghost use Rattle.std.specs.Prelude.{◌≡◌, [], length, drop, min};
ghost use Rattle.amihunk_c.specs.Copying.{laid_over};
ghost use Rattle.amihunk_c.specs.LinkedBytes.{LocatesHandleLinked};
ghost use Rattle.amihunk_c.specs.Linking.{BeginsLinker, EndsInput, FeedsInput, Links, linked_in};
ghost use Rattle.amihunk_c.specs.Sessions.{OpensHandle, StepsHandle, shown};

use crate::answer::Answer;
use crate::codes::Status;
use crate::copying::copy_from;
use crate::handle::Handle;
use crate::inputs::{end_input, feed_input, link_inputs, linked_in, locate_linked};
use crate::linker::{Linker, LinkerOptions};
use crate::session::Session;
use crate::span::Span;
use hunk_link::NameHasher;
use hunk_tool::LinkOptions;
use std::alloc::Global;

/// Begins to link object files. The handle has no session yet. With `strip`, symbols and debug
/// blocks are left out of the load file; with `short_form` its relocations have 16-bit numbers where
/// these hold the offset; with `trim` the zeros at the end of contents are cut off; with `keep` what is
/// in the object files is kept once they are linked, or not linked since a name is not defined. Names
/// are hashed with a key of two numbers, on which no answer depends.
///
/// It answers `OK`, or `OUT_OF_MEMORY`, and then the handle still has no session; `WRONG_STATE` if
/// the handle has one, which stays.
#[unsafe(no_mangle)]
pub extern "C" fn amihunk_c_open_linker(
    alloc: Global,
    handle: &mut Handle,
    strip: bool,
    short_form: bool,
    trim: bool,
    keep: bool,
    key0: u64,
    key1: u64,
) -> u32
    ensures { OpensHandle (BeginsLinker
        (record { link = record { strip = strip; short = short_form; trim = trim }; keep = keep })
        key0 key1) handle.old.session handle.new.session result }
{
    let status = match handle.take(alloc) {
        Some(session) => {
            handle.put(session);
            Status::WrongState
        }
        None => {
            let link = LinkOptions {
                strip,
                short: short_form,
                trim,
            };
            let options = LinkerOptions { link, keep };
            let hasher = NameHasher::new([key0, key1]);
            handle.begin(alloc, Session::Linking(Linker::new(alloc, options, hasher)))
        }
    };
    status.code()
}

/// Takes the next bytes of the current input, any number of them. An input begins with the first
/// call after the end of the last one.
///
/// It answers `OK`, `FILE` with the first offence of all bytes of the input so far and its number,
/// or `OUT_OF_MEMORY`. After a refusal the memory of all inputs is free again, and every later call of
/// this one, of [`amihunk_c_end_input`] and of [`amihunk_c_link`] tells the same refusal. It answers
/// `WRONG_STATE` if the handle does not take inputs.
#[unsafe(no_mangle)]
pub extern "C" fn amihunk_c_feed_input(
    alloc: Global,
    handle: &mut Handle,
    piece: &[u8],
    answer: &mut Answer,
) -> u32
    ensures fed { StepsHandle
        (FeedsInput piece.now) handle.old.session handle.new.session answer.new }
    ensures status { result ≡ answer.new.status }
{
    *answer = match handle.take(alloc) {
        Some(mut session) => {
            let told = feed_input(&mut session, alloc, piece);
            handle.put(session);
            told
        }
        None => Answer::plain(Status::WrongState),
    };
    answer.status
}

/// Ends the current input. One that has not begun has no bytes, and is refused.
///
/// It answers `OK`; `FILE` with the first offence of the input, which may be that it ends too early,
/// and its number; or `OUT_OF_MEMORY`. It answers `WRONG_STATE` if the handle does not take inputs.
#[unsafe(no_mangle)]
pub extern "C" fn amihunk_c_end_input(
    alloc: Global,
    handle: &mut Handle,
    answer: &mut Answer,
) -> u32
    ensures ended { StepsHandle EndsInput handle.old.session handle.new.session answer.new }
    ensures status { result ≡ answer.new.status }
{
    *answer = match handle.take(alloc) {
        Some(mut session) => {
            let told = end_input(&mut session, alloc);
            handle.put(session);
            told
        }
        None => Answer::plain(Status::WrongState),
    };
    answer.status
}

/// Links the units of all inputs, and writes the load file into memory.
///
/// It answers `OK`; the first reason why the units do not link, with the unit over all inputs, its
/// input and its hunk; or `OUT_OF_MEMORY`, once the hunks are known to be neither too many nor too
/// large. It answers `WRONG_STATE` if an input has begun and not ended, or the handle does not take
/// inputs.
#[unsafe(no_mangle)]
pub extern "C" fn amihunk_c_link(alloc: Global, handle: &mut Handle, answer: &mut Answer) -> u32
    ensures linked { StepsHandle Links handle.old.session handle.new.session answer.new }
    ensures status { result ≡ answer.new.status }
{
    *answer = match handle.take(alloc) {
        Some(mut session) => {
            let told = link_inputs(&mut session, alloc);
            handle.put(session);
            told
        }
        None => Answer::plain(Status::WrongState),
    };
    answer.status
}

/// Tells where the bytes of the load file are, and how many. They stay there until the handle is
/// closed.
///
/// It answers `OK`, or `WRONG_STATE` if none is linked; then it writes nothing.
#[unsafe(no_mangle)]
pub extern "C" fn amihunk_c_get_linked(alloc: Global, handle: &mut Handle, span: &mut Span) -> u32
    ensures session { handle.new.session ≡ handle.old.session }
    ensures located { LocatesHandleLinked handle.old.session span.old span.new result }
{
    let status = match handle.take(alloc) {
        Some(session) => {
            let status = locate_linked(&session, span);
            handle.put(session);
            status
        }
        None => Status::WrongState,
    };
    status.code()
}

/// Copies the bytes of the load file into the buffer: from `offset` on, as many as there are and as
/// fit. It answers their number, which is 0 if none is linked. What the buffer holds after them
/// stays.
#[unsafe(no_mangle)]
pub extern "C" fn amihunk_c_read_linked(
    alloc: Global,
    handle: &mut Handle,
    offset: u64,
    buffer: &mut [u8],
) -> u64
    ensures session { handle.new.session ≡ handle.old.session }
    ensures count { result ≡ min
        (length (drop offset (shown [] linked_in handle.old.session))) (length buffer.old) }
    ensures bytes { buffer.new ≡ laid_over
        (drop offset (shown [] linked_in handle.old.session)) buffer.old }
{
    match handle.take(alloc) {
        Some(session) => {
            let count = copy_from(linked_in(&session), offset, buffer);
            handle.put(session);
            count
        }
        None => copy_from(&[], offset, buffer),
    }
}
