//! The files that commands read and replace, in any store, the outputs that they print to, and why a command failed.
//!
//! - `failure`: why a command failed, the line that reports it, and the exit status.
//! - `store`: the files that are read and replaced; `opening`: one that is opened; `output`: what is printed to.
//! - `addresses`: where the addresses of the hunks come from.
//! - `inputs`: the files that a command reads, if there are several; `input`: one of them.
//! - `file_list`: lists of the names of files; `name_reader`: what reads the names in one, by `list_bytes`.
//! - `listed_names`: all names in a list, as texts.
//!
//! And over the operating system:
//!
//! - `system`: its files, as a store; `system_file`: one that is read.
//! - `replacement`: what replaces a file in one step; `new_file`: a new file beside it; `buffers`: writers behind
//!   a buffer.
//! - `same_file`: whether two names are of one file.
//! - `open_fault`: why a file cannot be opened or created.
//! - `random`: a key from its source of random bytes.
//! - `printer`: the standard output behind a buffer; `lines`: lines that reach standard error whole.
//!
//! And over no system:
//!
//! - `memory_store`: files in memory, as a store.
#![tactic(auto)]

pub mod addresses;
mod buffers;
mod failure;
mod file_list;
mod input;
mod inputs;
mod lines;
mod list_bytes;
pub mod listed_names;
mod memory_store;
mod name_reader;
mod new_file;
mod open_fault;
mod opening;
mod output;
mod printer;
mod random;
mod replacement;
mod same_file;
mod store;
mod system;
mod system_file;

pub use addresses::{Addresses, addresses_of};
pub use failure::{COMMAND_LINE, DEVICE, DIFFERENT, DONE, Failure, report_failure};
pub use file_list::{FileList, NameEnd};
pub use input::Input;
pub use inputs::open_inputs;
pub use lines::Lines;
pub use memory_store::{MemoryFile, MemoryStore, NewBytes};
pub use name_reader::{NameFault, NameReader, open_list};
pub use opening::open;
pub use output::Output;
pub use printer::Printer;
pub use random::random_key;
pub use store::Store;
pub use system::System;
