//! Surveys: what each of some files is, in lines of text or of JSON, and how many of them are what.
//!
//! - `finding`: what is found of a file.
//! - `find`: finds it.
//! - `digest`: the digest of what a load file means.
//! - `finding_line`: the line of text about a file; `finding_json`: its line of JSON.
//! - `tally`: how many files are what, and the lines that tell so.
//! - `laws`: laws about digests, and about which files are no hunk files.
#![tactic(auto)]

pub mod digest;
pub mod find;
pub mod finding;
pub mod finding_json;
pub mod finding_line;
pub mod laws;
pub mod tally;

pub use digest::{Digest, normal_digest};
pub use find::{FindOptions, find_file, survey_file};
pub use finding::Finding;
pub use finding_json::write_finding_json;
pub use finding_line::write_finding;
pub use tally::{Tally, write_totals};
