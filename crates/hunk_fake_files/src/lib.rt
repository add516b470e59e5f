//! What the tests of commands and of stores share: files that stand for those of a system, and what is in them.
//!
//! - `fake_files`: a file system in memory.
//! - `fake_handle`: its open files.
//! - `fake_log`: what was done, and what is to fail.
//! - `fake_disk`: the files that were written.
//! - `named_files`: the files that it has from the start.
//! - `samples`: files, options and a device.
#![tactic(auto)]

mod fake_disk;
mod fake_files;
mod fake_handle;
mod fake_log;
mod named_files;
mod samples;

pub use fake_files::FakeFiles;
pub use fake_log::Log;
pub use samples::{
    Broken, CALLEE, CALLER, MISTYPED, ONE_HUNK, ONE_SYMBOL, ONE_UNIT, PLAIN, PROGRAM, TRAILING,
    TRIMMED, UNENDED, WITH_GLOBALS, ZERO_TAIL,
};
