//! What C is told of the hunks in a header.
ghost use Rattle.std.specs.Prelude.{◌≡◌};
ghost use Rattle.amihunk_c.specs.Tables.{TellsHunk, table_hunk};

use crate::codes::{Status, memory_code};
use crate::session::Session;
use hunk_loader::HeaderHunk;

/// A hunk in a header, in numbers.
#[repr(C)]
#[derive(Clone, Copy)]
pub struct TableHunk {
    /// The number of hunks in the header.
    pub hunks: u64,
    /// The size of this one, in longwords.
    pub size: u32,
    /// Which memory it asks for.
    pub memory: u32,
}

impl TableHunk {
    /// One of so many hunks.
    fn of(hunks: usize, hunk: &HeaderHunk) -> TableHunk
        ensures { result ≡ table_hunk hunks hunk.now }
    {
        TableHunk {
            hunks: hunks as u64,
            size: hunk.size,
            memory: memory_code(hunk.memory),
        }
    }
}

/// Tells of the hunk with this number, if the header is whole and has one.
pub(crate) fn tell_hunk(session: &Session, number: u64, told: &mut TableHunk) -> Status
    ensures { TellsHunk session.now number told.old told.new result }
{
    let hunks = match session {
        Session::Sizing(header) => header.loader.hunks(),
        _ => None,
    };
    match hunks {
        Some(hunks) => match hunks.get(number as usize) {
            Some(hunk) => {
                *told = TableHunk::of(hunks.len(), hunk);
                Status::Ok
            }
            None => Status::OutOfRange,
        },
        None => Status::WrongState,
    }
}
