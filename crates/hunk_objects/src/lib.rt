//! Object files: program units, as an assembler writes them.
//!
//! - `unit_hunk`: a hunk of a program unit.
//! - `program_unit`: a program unit, made of hunks.
//! - `kept_lists`: how the lists of a unit grow.
//! - `open_hunk`: the current hunk of a unit.
//! - `open_unit`: the current unit of an object file.
//! - `unit_builder`: a builder of program units from the events of their longwords.
//! - `object_decoder`: program units from bytes.
//! - `globals`: program units whose hunks have the names that they define as symbols too.
//! - `laws`: laws about object files.
//!
//! The kinds of hunks and of memory, which load files have too, are those of `hunk_words`.
#![tactic(auto)]

pub mod globals;
mod kept_lists;
pub mod laws;
pub mod object_decoder;
mod open_hunk;
mod open_unit;
pub mod program_unit;
pub mod unit_builder;
pub mod unit_hunk;

pub use globals::with_globals;
pub use hunk_words::{HunkKind, Memory};
pub use object_decoder::{ObjectDecoder, read_object};
pub use program_unit::{ProgramUnit, hunk_total};
pub use unit_builder::UnitBuilder;
pub use unit_hunk::{Adds, Definition, HunkParts, UnitHunk};
