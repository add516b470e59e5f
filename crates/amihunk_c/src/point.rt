//! Which byte of which hunk is at an address.
ghost use Rattle.std.specs.Prelude.{◌≡◌, None, MatchOption};
ghost use Rattle.amihunk_c.specs.Points.{IsFound, IsIn, TellsHandlePoint, TellsPoint};
ghost use Rattle.hunk_loader.specs.Image.{byte_in, hunks_of};

use crate::codes::Status;
use crate::handle::Handle;
use crate::session::Session;
use std::alloc::Global;

/// A byte of a hunk.
#[repr(C)]
#[derive(Clone, Copy)]
pub struct PointTold {
    /// The number of the hunk, from 0.
    pub hunk: u64,
    /// The offset of the byte in the hunk.
    pub offset: u32,
}

/// The offset of the byte of a hunk that is at this address, if it has one there.
fn offset_in(hunk: &(u32, Vec<u8>), address: u32) -> Option<u32>
    ensures { MatchOption result (byte_in hunk.now.0 hunk.now.1.items address ≡ None)
        (λ offset. IsIn hunk.now.0 hunk.now.1.items address offset) }
{
    let offset = address.checked_sub(hunk.0)?;
    if (offset as usize) < hunk.1.len() {
        Some(offset)
    } else {
        None
    }
}

/// The first of these hunks that has a byte at this address, and its offset there.
fn find(hunks: &[(u32, Vec<u8>)], address: u32) -> Option<PointTold>
    ensures { IsFound (hunks_of hunks.now) address result }
{
    for (number, hunk) in hunks.iter().enumerate() {
        if let Some(offset) = offset_in(hunk, address) {
            return Some(PointTold {
                hunk: number as u64,
                offset,
            });
        }
    }
    None
}

/// Tells which byte of the hunks that were loaded is at an address.
fn tell_point(session: &Session, address: u32, told: &mut PointTold) -> Status
    ensures { TellsPoint session.now address told.old told.new result }
{
    match session {
        Session::Loaded(image) => match find(image.hunks(), address) {
            Some(point) => {
                *told = point;
                Status::Ok
            }
            None => Status::OutOfRange,
        },
        _ => Status::WrongState,
    }
}

/// Tells which byte of which hunk is at an address.
///
/// It answers `OK`; `OUT_OF_RANGE` if no hunk has a byte there; `WRONG_STATE` if no file is loaded.
/// With these two it writes nothing.
#[unsafe(no_mangle)]
pub extern "C" fn amihunk_c_find(
    alloc: Global,
    handle: &mut Handle,
    address: u32,
    told: &mut PointTold,
) -> u32
    ensures session { handle.new.session ≡ handle.old.session }
    ensures told { TellsHandlePoint handle.old.session address told.old told.new result }
{
    let status = match handle.take(alloc) {
        Some(session) => {
            let status = tell_point(&session, address, told);
            handle.put(session);
            status
        }
        None => Status::WrongState,
    };
    status.code()
}
