//! One number of a file: whether it is accepted, and what is expected after it.

ghost use Rattle.std.specs.Prelude.{◌≡◌, ℕ, List, IsTrue, ◌↔◌};
ghost use Rattle.hunk_words.specs.State.{IsState, SizeIs, SizeIsGiven, Stepped};

use crate::state::{Expected, State, Step};
use crate::{
    block_steps as blocks, header_steps as header, short_steps as short, type_steps as types,
};
use hunk_base::fault::Reason;

/// Judges a number, and returns what is expected after it and its event. If the size of content is
/// expected in a load file, `size` is the size of this hunk in the header, in longwords.
pub fn step(state: State, size: u32, number: u32) -> Result<Step, Reason>
    ensures { (sizes : List ℕ) → IsState state sizes → SizeIsGiven state sizes size →
        Stepped state sizes number result }
{
    match state.due {
        Expected::ObjectStart => types::object_start(state, number),
        Expected::LoadStart => header::load_start(state, number),
        Expected::Resident => header::resident(state, number),
        Expected::TableSize => header::table_size(state, number),
        Expected::FirstHunk => header::first_hunk(state, number),
        Expected::LastHunk => header::last_hunk(state, number),
        Expected::HeaderSize { room, left } => header::header_size(state, room, left, number),
        Expected::UnitType => types::unit_type(state, number),
        Expected::HunkType => types::hunk_type(state, number),
        Expected::ContentType => types::content_type(state, number),
        Expected::BlockType => types::next_block(state, number),
        Expected::PastEnd => types::past_end(state, number),
        Expected::UnitLength => Ok(blocks::unit_length(state, number)),
        Expected::NameLength => Ok(blocks::name_length(state, number)),
        Expected::Word { more, then } => Ok(blocks::next_word(state, more, then, number)),
        Expected::ContentSize { content, bits } => blocks::content_size(
            state, content, bits, size, number,
        ),
        Expected::RelocCount => Ok(blocks::reloc_count(state, number)),
        Expected::HunkNumber { more } => blocks::hunk_number(state, more, number),
        Expected::Offset { more, target } => Ok(blocks::offset(state, more, target, number)),
        Expected::DebugLength => Ok(blocks::debug_length(state, number)),
        Expected::SymbolEntry => blocks::symbol_entry(state, number),
        Expected::SymbolValue => Ok(blocks::symbol_value(state, number)),
        Expected::ExtEntry => blocks::ext_entry(state, number),
        Expected::EntryValue => Ok(blocks::entry_value(state, number)),
        Expected::RefCount => Ok(blocks::ref_count(state, number)),
        Expected::RefOffset { more } => Ok(blocks::ref_offset(state, more, number)),
        Expected::ShortCount { half } => Ok(short::short_count(state, half, number)),
        Expected::ShortHunk { half, more } => short::short_hunk(state, half, more, number),
        Expected::ShortOffset { half, more, target } => Ok(short::short_offset(
            state, half, more, target, number,
        )),
        Expected::ShortPad => Ok(short::short_pad(state, number)),
    }
}
