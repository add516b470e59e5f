//! The calls that tell a refusal in words.
ghost use Rattle.std.specs.Prelude.{◌≡◌, [], length};
ghost use Rattle.amihunk_c.specs.Copying.{laid_over};
ghost use Rattle.amihunk_c.specs.Sessions.{shown};
ghost use Rattle.amihunk_c.specs.Texts.{TellsLine, refusal_name};

use crate::copying::copy_from;
use crate::handle::Handle;
use crate::line::copy_line;
use crate::refused::refusal_name;
use std::alloc::Global;

/// Copies the name of a refusal into the buffer, as much of it as fits, and answers its whole
/// length: the name that is defined again, or that is not defined. The answer is 0 if the handle
/// keeps no such refusal. What the buffer holds after the name stays.
#[unsafe(no_mangle)]
pub extern "C" fn amihunk_c_refusal_name(
    alloc: Global,
    handle: &mut Handle,
    buffer: &mut [u8],
) -> u64
    ensures session { handle.new.session ≡ handle.old.session }
    ensures count { result ≡ length (shown [] refusal_name handle.old.session) }
    ensures bytes { buffer.new ≡ laid_over (shown [] refusal_name handle.old.session) buffer.old }
{
    match handle.take(alloc) {
        Some(session) => {
            let name = refusal_name(&session);
            let count = name.len() as u64;
            let _copied = copy_from(name, 0, buffer);
            handle.put(session);
            count
        }
        None => 0,
    }
}

/// Copies the line with which the program reports the refusal into the buffer, as much of it as
/// fits, and answers its whole length. The input has the name `file` in it, any bytes. What the
/// buffer holds after the line stays.
///
/// The answer is 0, and the buffer stays, if the handle keeps no refusal, or if the line's memory
/// could not be had.
#[unsafe(no_mangle)]
pub extern "C" fn amihunk_c_refusal_line(
    alloc: Global,
    handle: &mut Handle,
    file: &[u8],
    buffer: &mut [u8],
) -> u64
    ensures session { handle.new.session ≡ handle.old.session }
    ensures line { TellsLine file.now handle.old.session buffer.old buffer.new result }
{
    match handle.take(alloc) {
        Some(session) => {
            let count = copy_line(alloc, &session, file, buffer);
            handle.put(session);
            count
        }
        None => 0,
    }
}
