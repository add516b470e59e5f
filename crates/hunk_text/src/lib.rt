//! The texts that `amihunk` prints about the files it reads.
//!
//! - `first_line`: the line of what a file is.
//! - `hunk_lines`: the lines that hunks of either kind of file have.
//! - `object_listing`: the listing of an object file.
//! - `load_listing`: the listing of a load file.
//! - `difference_text`: the lines that tell where two load files differ.
//! - `laws`: laws about the sizes of listings and of those lines.
#![tactic(auto)]

pub mod difference_text;
pub mod first_line;
pub mod hunk_lines;
pub mod laws;
pub mod load_listing;
pub mod object_listing;

pub use difference_text::{write_difference, write_info_difference};
pub use first_line::{write_load_line, write_object_line};
pub use hunk_lines::write_hunk_front;
pub use load_listing::write_load_listing;
pub use object_listing::{write_definitions, write_object_listing};
