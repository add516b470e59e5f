//! The calls that read a file to look into, and load it.
ghost use Rattle.std.specs.Prelude.{◌≡◌};
ghost use Rattle.amihunk_c.specs.LoadRead.{LoadsFile};
ghost use Rattle.amihunk_c.specs.Reading.{BeginsFile, FeedsFile, FinishesFile};
ghost use Rattle.amihunk_c.specs.Sessions.{OpensHandle, StepsHandle};

use crate::answer::Answer;
use crate::codes::Status;
use crate::handle::Handle;
use crate::load_read::load_read;
use crate::reader::{feed_file, finish_file};
use crate::session::Session;
use hunk_tool::HunkFileDecoder;
use std::alloc::Global;

/// Begins to read a file of either kind. The handle has no session yet.
///
/// It answers `OK`, or `OUT_OF_MEMORY`, and then the handle still has no session; `WRONG_STATE` if
/// the handle has one, which stays.
#[unsafe(no_mangle)]
pub extern "C" fn amihunk_c_open_file(alloc: Global, handle: &mut Handle) -> u32
    ensures { OpensHandle BeginsFile handle.old.session handle.new.session result }
{
    let begun = match handle.take(alloc) {
        Some(session) => {
            handle.put(session);
            Status::WrongState
        }
        None => handle.begin(alloc, Session::Reading(HunkFileDecoder::new(alloc))),
    };
    begun.code()
}

/// Takes the next bytes of the file, any number of them.
///
/// It answers `OK`, `FILE` with the first offence of all bytes so far, or `OUT_OF_MEMORY`. After a
/// refusal the memory of the file is free again, and every later call of this one and of
/// [`amihunk_c_finish_file`] tells the same refusal. It answers `WRONG_STATE` if the handle does not
/// read a file.
#[unsafe(no_mangle)]
pub extern "C" fn amihunk_c_feed_file(
    alloc: Global,
    handle: &mut Handle,
    piece: &[u8],
    answer: &mut Answer,
) -> u32
    ensures fed { StepsHandle
        (FeedsFile piece.now) handle.old.session handle.new.session answer.new }
    ensures status { result ≡ answer.new.status }
{
    *answer = match handle.take(alloc) {
        Some(mut session) => {
            let told = feed_file(&mut session, piece);
            handle.put(session);
            told
        }
        None => Answer::plain(Status::WrongState),
    };
    answer.status
}

/// Ends the file, and makes what is in it known.
///
/// It answers `OK`; `FILE` with the first offence of the file, which may be that it ends too early;
/// or `OUT_OF_MEMORY`. It answers `WRONG_STATE` if the handle does not read a file.
#[unsafe(no_mangle)]
pub extern "C" fn amihunk_c_finish_file(
    alloc: Global,
    handle: &mut Handle,
    answer: &mut Answer,
) -> u32
    ensures finished { StepsHandle FinishesFile handle.old.session handle.new.session answer.new }
    ensures status { result ≡ answer.new.status }
{
    *answer = match handle.take(alloc) {
        Some(mut session) => {
            let told = finish_file(&mut session, alloc);
            handle.put(session);
            told
        }
        None => Answer::plain(Status::WrongState),
    };
    answer.status
}

/// Loads the load file that the handle `file` has read, at these bases, which are addresses, one for
/// each hunk, into the handle `loader`, which has no session yet. The file stays as it is.
///
/// It answers `OK`; `WRONG_COUNT`, `PAST_END` or `OVERLAP` if the hunks cannot be placed at the
/// bases, or `OUT_OF_MEMORY`, and then `loader` still has no session. It answers `WRONG_STATE` if
/// `loader` has a session, which stays, or `file` has read no load file.
#[unsafe(no_mangle)]
pub extern "C" fn amihunk_c_load_file(
    alloc: Global,
    loader: &mut Handle,
    file: &mut Handle,
    bases: &[u32],
    answer: &mut Answer,
) -> u32
    ensures file { file.new.session ≡ file.old.session }
    ensures loaded { LoadsFile bases.now file.old.session loader.old.session
        loader.new.session answer.new }
    ensures status { result ≡ answer.new.status }
{
    *answer = match loader.take(alloc) {
        Some(session) => {
            loader.put(session);
            Answer::plain(Status::WrongState)
        }
        None => {
            let loaded = match file.take(alloc) {
                Some(session) => {
                    let loaded = load_read(alloc, &session, bases);
                    file.put(session);
                    loaded
                }
                None => Err(Answer::plain(Status::WrongState)),
            };
            match loaded {
                Ok(image) => Answer::plain(loader.begin(alloc, Session::Loaded(image))),
                Err(answer) => answer,
            }
        }
    };
    answer.status
}
