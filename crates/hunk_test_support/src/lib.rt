//! What the tests of several crates share: files, and an allocator that fails.
//!
//! - `files`: the file of most tests, and the bytes of longwords.
//! - `load_words`: the longwords of further load files.
//! - `refusing`: an allocator that fails one allocation.
//! - `words`: the longwords of object files and load files.
#![tactic(auto)]

mod files;
pub mod load_words;
pub mod refusing;
pub mod words;

pub use files::{BASE, CHUNKS, FILE, KEY, LATER_PIECES, REPORT, ROOM, bytes_of};
pub use refusing::Refusing;
