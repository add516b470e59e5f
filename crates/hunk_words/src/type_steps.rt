//! The steps of type longwords, names and sizes of content.

ghost use Rattle.std.specs.Prelude.{◌≡◌, ℕ, List, Ok};
ghost use Rattle.hunk_words.specs.FaultTable.{refused_type};
ghost use Rattle.hunk_words.specs.State.{StepsFrom, EndsHunk};

use crate::doshunks::HUNK_UNIT;
use crate::event::{Event, FileKind};
use crate::kinds::{BlockType, Half, block_type, is_unsupported, low, memory_bits};
use crate::state::{AfterWords, Expected, State, Step};
use hunk_base::fault::Reason;

/// Why a block type is rejected where it is not allowed. 1020 is known only in a load file after the
/// header.
fn refused(known: bool, block: BlockType, number: u32) -> Reason
    ensures { result ≡ refused_type known block number }
{
    match block {
        BlockType::Unsupported => Reason::UnsupportedBlock(number),
        BlockType::Unknown => Reason::UnknownType(number),
        BlockType::Short => {
            if known {
                Reason::MisplacedType(number)
            } else {
                Reason::UnknownType(number)
            }
        }
        _ => Reason::MisplacedType(number),
    }
}

pub fn object_start(state: State, number: u32) -> Result<Step, Reason>
    ensures { StepsFrom state Expected.ObjectStart number result }
{
    if low(number) == HUNK_UNIT {
        Ok(state.then(Expected::UnitLength, None))
    } else {
        Err(Reason::WrongStart)
    }
}

pub fn unit_type(state: State, number: u32) -> Result<Step, Reason>
    ensures { StepsFrom state Expected.UnitType number result }
{
    let bits = memory_bits(number);
    match block_type(low(number)) {
        BlockType::Unit => Ok(state.then(Expected::UnitLength, None)),
        BlockType::Name => Ok(state.then(Expected::NameLength, None)),
        BlockType::Content(content) => {
            if bits < 3 {
                Ok(state.then(Expected::ContentSize { content, bits }, None))
            } else {
                Err(Reason::BothMemoryBits)
            }
        }
        block => Err(refused(false, block, low(number))),
    }
}

pub fn hunk_type(state: State, number: u32) -> Result<Step, Reason>
    ensures { StepsFrom state Expected.HunkType number result }
{
    match block_type(low(number)) {
        BlockType::Name => Ok(state.then(Expected::NameLength, None)),
        BlockType::Content(content) => Ok(state.then(
            Expected::ContentSize { content, bits: 0 },
            None,
        )),
        block => Err(refused(true, block, low(number))),
    }
}

pub fn content_type(state: State, number: u32) -> Result<Step, Reason>
    ensures { StepsFrom state Expected.ContentType number result }
{
    let block = block_type(low(number));
    match state.file {
        FileKind::Object => match block {
            BlockType::Content(content) => {
                let bits = memory_bits(number);
                if bits < 3 {
                    Ok(state.then(Expected::ContentSize { content, bits }, None))
                } else {
                    Err(Reason::BothMemoryBits)
                }
            }
            _ => Err(refused(false, block, low(number))),
        },
        FileKind::Load => match block {
            BlockType::Content(content) => Ok(state.then(
                Expected::ContentSize { content, bits: 0 },
                None,
            )),
            _ => Err(refused(true, block, low(number))),
        },
    }
}

/// What is expected after a hunk.
fn hunk_end(state: State) -> Step
    ensures { EndsHunk state (Ok result) }
{
    let event = Some(Event::HunkEnd);
    match state.file {
        FileKind::Object => state.then(Expected::UnitType, event),
        FileKind::Load => {
            if state.hunk < state.last {
                let next = State {
                    hunk: state.hunk + 1,
                    ..state
                };
                next.then(Expected::HunkType, event)
            } else {
                state.then(Expected::PastEnd, event)
            }
        }
    }
}

pub fn next_block(state: State, number: u32) -> Result<Step, Reason>
    ensures { StepsFrom state Expected.BlockType number result }
{
    let block = block_type(low(number));
    match block {
        BlockType::Reloc => Ok(state.then(Expected::RelocCount, None)),
        BlockType::Symbol => Ok(state.then(Expected::SymbolEntry, None)),
        BlockType::Debug => Ok(state.then(Expected::DebugLength, None)),
        BlockType::End => Ok(hunk_end(state)),
        _ => match state.file {
            FileKind::Object => match block {
                BlockType::Ext => Ok(state.then(Expected::ExtEntry, None)),
                _ => Err(refused(false, block, low(number))),
            },
            FileKind::Load => match block {
                BlockType::Short => Ok(state.then(
                    Expected::ShortCount { half: Half::Upper },
                    None,
                )),
                _ => Err(refused(true, block, low(number))),
            },
        },
    }
}

pub fn past_end(state: State, number: u32) -> Result<Step, Reason>
    ensures { StepsFrom state Expected.PastEnd number result }
{
    let number = low(number);
    if is_unsupported(number) {
        Err(Reason::UnsupportedBlock(number))
    } else {
        Err(Reason::TrailingData)
    }
}
