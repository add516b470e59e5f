//! The addresses of hunks: as they are read, and the lines that tell what hunks need beside them.
//!
//! - `bases`: the list of addresses on the command line.
//! - `bases_file`: the addresses in a file; `part_digits`: the digits of one, as they come.
//! - `places_text`: the lines that tell what hunks need, beside their addresses.
#![tactic(auto)]

pub mod bases;
pub mod bases_file;
mod part_digits;
mod places_text;

pub use bases::{BasesFault, parse_bases};
pub use bases_file::{BasesFileFault, read_bases};
pub use places_text::write_places;
