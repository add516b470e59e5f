//! The steps of a load file's header.

ghost use Rattle.std.specs.Prelude.{ℕ, List};
ghost use Rattle.hunk_words.specs.State.{StepsFrom};

use crate::doshunks::HUNK_HEADER;
use crate::event::Event;
use crate::kinds::{low, memory_bits};
use crate::state::{Expected, State, Step};
use hunk_base::fault::Reason;

/// The most longwords of all sizes in a header.
const ROOM: u32 = 0x100_0000;

pub fn load_start(state: State, number: u32) -> Result<Step, Reason>
    ensures { StepsFrom state Expected.LoadStart number result }
{
    if low(number) == HUNK_HEADER {
        Ok(state.then(Expected::Resident, None))
    } else {
        Err(Reason::WrongStart)
    }
}

pub fn resident(state: State, number: u32) -> Result<Step, Reason>
    ensures { StepsFrom state Expected.Resident number result }
{
    if number == 0 {
        Ok(state.then(Expected::TableSize, None))
    } else {
        Err(Reason::ResidentNames)
    }
}

pub fn table_size(state: State, number: u32) -> Result<Step, Reason>
    ensures { StepsFrom state Expected.TableSize number result }
{
    match number {
        1..=65535 => {
            let next = State {
                last: number - 1,
                ..state
            };
            Ok(next.then(Expected::FirstHunk, Some(Event::Table(number))))
        }
        _ => Err(Reason::HunkTable),
    }
}

pub fn first_hunk(state: State, number: u32) -> Result<Step, Reason>
    ensures { StepsFrom state Expected.FirstHunk number result }
{
    if number == 0 {
        Ok(state.then(Expected::LastHunk, None))
    } else {
        Err(Reason::HunkTable)
    }
}

pub fn last_hunk(state: State, number: u32) -> Result<Step, Reason>
    ensures { StepsFrom state Expected.LastHunk number result }
{
    if number == state.last {
        let due = Expected::HeaderSize {
            room: ROOM,
            left: state.last,
        };
        Ok(state.then(due, None))
    } else {
        Err(Reason::HunkTable)
    }
}

pub fn header_size(state: State, room: u32, left: u32, number: u32) -> Result<Step, Reason>
    ensures { StepsFrom state (Expected.HeaderSize room left) number result }
{
    let bits = memory_bits(number);
    let size = low(number);
    if bits >= 3 {
        return Err(Reason::BothMemoryBits);
    }
    if size > room {
        return Err(Reason::TooLarge);
    }
    let event = Some(Event::HunkSize { bits, size });
    if left == 0 {
        Ok(State { hunk: 0, ..state }.then(Expected::HunkType, event))
    } else {
        let due = Expected::HeaderSize {
            room: room - size,
            left: left - 1,
        };
        Ok(state.then(due, event))
    }
}
