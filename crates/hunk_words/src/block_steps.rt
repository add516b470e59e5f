//! The steps of names, of content and of the blocks after it.

ghost use Rattle.std.specs.Prelude.{◌≡◌, ℕ, List, Ok, slice_index};
ghost use Rattle.hunk_words.specs.Machine.{times};
ghost use Rattle.hunk_words.specs.Kinds.{word};
ghost use Rattle.hunk_words.specs.State.{Around, StepsFrom, SizedStepsFrom, expected_view, after_words_view, IsExpectedIn, IsAfterWordsIn, SizesIn};
ghost use Rattle.hunk_words.specs.declared.event.FileKind.{FileKind};

use crate::event::{Event, FileKind};
use crate::kinds::{EntryType, HunkKind, entry, entry_length, entry_type, low};
use crate::state::{AfterWords, Expected, State, Step};
use hunk_base::fault::Reason;

/// What is expected when this many words follow.
fn words(count: u32, then: AfterWords) -> Expected
    ensures due { (a : Around) → expected_view result a ≡ times count word
        (after_words_view then a) }
    ensures file { (file : FileKind) → IsAfterWordsIn then file → IsExpectedIn result file }
    ensures sizes { (file : FileKind) (last hunk : ℕ) (sizes : List ℕ) →
        SizesIn file Expected.BlockType last hunk sizes → SizesIn file result last hunk sizes }
{
    if count > 0 {
        return Expected::Word {
            more: count - 1,
            then,
        };
    }
    match then {
        AfterWords::UnitType => Expected::UnitType,
        AfterWords::ContentType => Expected::ContentType,
        AfterWords::BlockType => Expected::BlockType,
        AfterWords::SymbolValue => Expected::SymbolValue,
        AfterWords::EntryValue => Expected::EntryValue,
        AfterWords::RefCount => Expected::RefCount,
    }
}

pub fn unit_length(state: State, number: u32) -> Step
    ensures { StepsFrom state Expected.UnitLength number (Ok result) }
{
    state.then(words(number, AfterWords::UnitType), Some(Event::Unit))
}

pub fn name_length(state: State, number: u32) -> Step
    ensures { StepsFrom state Expected.NameLength number (Ok result) }
{
    state.then(
        words(number, AfterWords::ContentType),
        Some(Event::HunkName),
    )
}

pub fn next_word(state: State, more: u32, then: AfterWords, number: u32) -> Step
    ensures { StepsFrom state (Expected.Word more then) number (Ok result) }
{
    state.then(words(more, then), Some(Event::Word(number)))
}

pub fn debug_length(state: State, number: u32) -> Step
    ensures { StepsFrom state Expected.DebugLength number (Ok result) }
{
    state.then(
        words(number, AfterWords::BlockType),
        Some(Event::Debug(number)),
    )
}

pub fn reloc_count(state: State, number: u32) -> Step
    ensures { StepsFrom state Expected.RelocCount number (Ok result) }
{
    let due = match number {
        0 => Expected::BlockType,
        _ => Expected::HunkNumber { more: number - 1 },
    };
    state.then(due, None)
}

pub fn hunk_number(state: State, more: u32, number: u32) -> Result<Step, Reason>
    ensures { StepsFrom state (Expected.HunkNumber more) number result }
{
    let due = Expected::Offset {
        more,
        target: number,
    };
    match state.file {
        FileKind::Object => Ok(state.then(due, None)),
        FileKind::Load => {
            if number <= state.last {
                Ok(state.then(due, None))
            } else {
                Err(Reason::NoSuchHunk(number))
            }
        }
    }
}

pub fn offset(state: State, more: u32, target: u32, number: u32) -> Step
    ensures { StepsFrom state (Expected.Offset more target) number (Ok result) }
{
    let due = match more {
        0 => Expected::RelocCount,
        _ => Expected::Offset {
            more: more - 1,
            target,
        },
    };
    state.then(
        due,
        Some(Event::Site {
            offset: number,
            target,
        }),
    )
}

pub fn symbol_entry(state: State, number: u32) -> Result<Step, Reason>
    ensures { StepsFrom state Expected.SymbolEntry number result }
{
    let kind = entry_type(number);
    if kind != 0 {
        return Err(Reason::SymbolKind(kind));
    }
    match number {
        0 => Ok(state.then(Expected::BlockType, None)),
        _ => {
            let due = Expected::Word {
                more: number - 1,
                then: AfterWords::SymbolValue,
            };
            Ok(state.then(due, Some(Event::Symbol)))
        }
    }
}

pub fn symbol_value(state: State, number: u32) -> Step
    ensures { StepsFrom state Expected.SymbolValue number (Ok result) }
{
    state.then(Expected::SymbolEntry, Some(Event::Value(number)))
}

pub fn ext_entry(state: State, number: u32) -> Result<Step, Reason>
    ensures { StepsFrom state Expected.ExtEntry number result }
{
    if number == 0 {
        return Ok(state.then(Expected::BlockType, None));
    }
    let kind = entry_type(number);
    let then = match entry(number) {
        EntryType::Definition | EntryType::Absolute => AfterWords::EntryValue,
        EntryType::Reference => AfterWords::RefCount,
        EntryType::Other => return Err(Reason::UnsupportedExt(kind)),
    };
    Ok(state.then(words(entry_length(number), then), Some(Event::Entry(kind))))
}

pub fn entry_value(state: State, number: u32) -> Step
    ensures { StepsFrom state Expected.EntryValue number (Ok result) }
{
    state.then(Expected::ExtEntry, Some(Event::Value(number)))
}

pub fn ref_count(state: State, number: u32) -> Step
    ensures { StepsFrom state Expected.RefCount number (Ok result) }
{
    let due = match number {
        0 => Expected::ExtEntry,
        _ => Expected::RefOffset { more: number - 1 },
    };
    state.then(due, Some(Event::Count(number)))
}

pub fn ref_offset(state: State, more: u32, number: u32) -> Step
    ensures { StepsFrom state (Expected.RefOffset more) number (Ok result) }
{
    let due = match more {
        0 => Expected::ExtEntry,
        _ => Expected::RefOffset { more: more - 1 },
    };
    state.then(due, Some(Event::RefSite(number)))
}

/// The size of content, in longwords. In a load file, `size` is that of the hunk in the header.
pub fn content_size(
    state: State,
    content: HunkKind,
    bits: u8,
    size: u32,
    number: u32,
) -> Result<Step, Reason>
    ensures { SizedStepsFrom state (Expected.ContentSize content bits) size number result }
{
    let length = low(number);
    let limit = match state.file {
        FileKind::Object => match content {
            HunkKind::Bss => 0,
            _ => 4 * length as u64,
        },
        FileKind::Load => {
            if length > size {
                return Err(Reason::ContentTooLong);
            }
            4 * size as u64
        }
    };
    let due = match content {
        HunkKind::Bss => Expected::BlockType,
        _ => words(length, AfterWords::BlockType),
    };
    let event = Event::Content {
        kind: content.block_type(),
        bits,
        size: length,
    };
    Ok(State { limit, ..state }.then(due, Some(event)))
}
