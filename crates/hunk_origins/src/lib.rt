//! Where the hunks and the names of a link are from, and what is told of it besides its load file: its map, the names in
//! its files, and why its units do not link.
//!
//! - `laws`: the law that hunks are of the form of those that they are from.
//! - `origins`: where the hunks of a link are from; `origin_text`: the text of that.
//! - `map`: the map of a link: where each hunk is from.
//! - `link_explanation`: what is told of units that do not link; `link_explanation_text`: the lines of
//!   that.
//! - `defined_names`: the names that hunks define; `undefined`: those that none defines.
//! - `undefined_name`: what callers are told of a name that none defines.
//! - `names`: the names in files, what stands for each and where, sorted.
//! - `named_files`: the files whose names are listed.
#![tactic(auto)]

mod defined_names;
pub mod laws;
pub mod link_explanation;
mod link_explanation_text;
pub mod map;
pub mod named_files;
pub mod names;
mod origin_text;
mod origins;
mod undefined;
pub mod undefined_name;

pub use link_explanation::{LinkExplanation, explain_link};
pub use link_explanation_text::write_link_explanation;
pub use map::{link_files, write_map};
pub use named_files::{NamedFiles, read_named_files};
pub use names::{NameList, write_names};
pub use undefined_name::{UndefinedName, undefined_names};
