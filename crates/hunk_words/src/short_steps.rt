//! The steps of a list of relocations in 16-bit words.

ghost use Rattle.std.specs.Prelude.{◌≡◌, ℕ, List, Ok};
ghost use Rattle.hunk_words.specs.Kinds as kinds;
ghost use Rattle.hunk_words.specs.State.{StepsFrom};

use crate::event::Event;
use crate::kinds::Half;
use crate::state::{Expected, State, Step};
use hunk_base::fault::Reason;

fn other(half: Half) -> Half
    ensures { result ≡ kinds.flip half }
{
    match half {
        Half::Upper => Half::Lower,
        Half::Lower => Half::Upper,
    }
}

pub fn short_count(state: State, half: Half, number: u32) -> Step
    ensures { StepsFrom state (Expected.ShortCount half) number (Ok result) }
{
    let due = match half {
        Half::Upper => match number {
            0 => Expected::ShortPad,
            _ => Expected::ShortHunk {
                half: Half::Lower,
                more: number - 1,
            },
        },
        Half::Lower => match number {
            0 => Expected::BlockType,
            _ => Expected::ShortHunk {
                half: Half::Upper,
                more: number - 1,
            },
        },
    };
    state.then(due, None)
}

pub fn short_hunk(state: State, half: Half, more: u32, number: u32) -> Result<Step, Reason>
    ensures { StepsFrom state (Expected.ShortHunk half more) number result }
{
    if number > state.last {
        return Err(Reason::NoSuchHunk(number));
    }
    let due = Expected::ShortOffset {
        half: other(half),
        more,
        target: number,
    };
    Ok(state.then(due, None))
}

pub fn short_offset(state: State, half: Half, more: u32, target: u32, number: u32) -> Step
    ensures { StepsFrom state (Expected.ShortOffset half more target) number (Ok result) }
{
    let half = other(half);
    let due = match more {
        0 => Expected::ShortCount { half },
        _ => Expected::ShortOffset {
            half,
            more: more - 1,
            target,
        },
    };
    state.then(
        due,
        Some(Event::Site {
            offset: number,
            target,
        }),
    )
}

pub fn short_pad(state: State, number: u32) -> Step
    ensures { StepsFrom state Expected.ShortPad number (Ok result) }
{
    state.then(Expected::BlockType, None)
}
