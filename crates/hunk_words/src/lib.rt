//! The words of the Amiga hunk format: which longwords are object files and load files, and what they tell.
//!
//! What files are made of, such as names and sites, is in `hunk_base`. Callers find its items here as well.
//!
//! - `doshunks`: the numbers of block types and of external symbols.
//! - `kinds`: the kinds of blocks, hunks, memory, external symbols and half longwords.
//! - `event`: the events of a file's longwords, in order.
//! - `laws`: laws about the definitions of the format.
//! - `partial_hunk`: the current hunk of a reader: its sites, and its content so far.
//! - `debug_info`: its symbols and debug blocks so far.
//! - `taker`: what takes the events of a file.
//! - `decoder_core`, `decoder`: decode the longwords and the bytes of a file, and send its events
//!   to a taker.
//! - `value_decoder`: decodes the bytes of a file to the value that a builder makes of them.
//! - `state`: what is expected next in a file; `due`: the same, as it is told to a person.
//! - `step`: judges a number by the function for what is expected, which is in one of the next four.
//! - `type_steps`, `header_steps`, `block_steps`, `short_steps`: numbers of type longwords, headers,
//!   blocks and lists of 16-bit relocations.
//! - `numbers`: judges the numbers of a longword, and sends their events to the taker.
#![tactic(auto)]

mod block_steps;
pub mod debug_info;
pub mod decoder;
pub mod decoder_core;
pub mod doshunks;
mod due;
pub mod event;
mod header_steps;
pub mod kinds;
pub mod laws;
mod numbers;
pub mod partial_hunk;
mod short_steps;
mod state;
mod step;
pub mod taker;
mod type_steps;
pub mod value_decoder;

pub use debug_info::DebugInfo;
pub use decoder::Decoder;
pub use decoder_core::{Core, CoreState};
pub use due::Due;
pub use event::{Event, FileKind};
pub use hunk_base::{
    DeviceFault, Fault, Feed, Name, OpenName, Pieces, ReadFault, Reason, Refusal, Room, Sink,
    SiteRefusal, Sites, Source, Splitter, Text, Walk, Watched, WriteFault, read_all,
};
pub use kinds::{BlockType, EntryType, Half, HunkKind, Memory};
pub use partial_hunk::PartialHunk;
pub use taker::Taker;
pub use value_decoder::{Builder, ValueDecoder, read_value};
