//! Files of either kind: reading them, counting what they have, and telling where and why one is refused.
//!
//! - `file_decoder`: reads a file of either kind; `first_bytes` tell which.
//! - `hunk_file`: files of either kind, as values.
//! - `counters`: takers that check sites, and count what a file has.
//! - `counting`: files of either kind, checked and counted.
//! - `explain`: reads a file once more, to tell where and why it is refused.
//! - `explanation`: what is told of its first offence; `explanation_text`: the lines of that.
//! - `follower`: follows the longwords of a file up to it; `path`: in which unit, hunk and block.
//! - `watched_file`: reads a file of either kind, and shows its longwords to a `watcher`.
//! - `watched_decoder`, `watched_reader`: the same for one kind.
#![tactic(auto)]

pub mod counters;
pub mod counting;
pub mod explain;
pub mod explanation;
mod explanation_text;
pub mod file_decoder;
mod first_bytes;
mod follower;
pub mod hunk_file;
mod path;
mod watched_decoder;
pub mod watched_file;
mod watched_reader;
pub mod watcher;

pub use counters::{LoadCounter, ObjectCounter};
pub use counting::{CountedFile, count_file};
pub use explain::{explain_file, explain_load, explain_object};
pub use explanation::{Explanation, Found};
pub use explanation_text::write_explanation;
pub use file_decoder::{File, KindDecoder, read_file};
pub use hunk_file::{HunkFile, HunkFileDecoder, read_hunk_file};
pub use watched_file::read_watched;
pub use watcher::{Watched, Watcher};
