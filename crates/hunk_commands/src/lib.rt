//! What the program `amihunk` does for each of its commands: with the files of any store, and any output.
//!
//! - `request`: what a command line asks for; `answers`: doing it; `refusal`: telling what is refused.
//! - `explain`: what is told of a failure after its line; `again`: what is read once more for it.
//! - `unexplained`: why nothing is told of a failure after its line.
//! - `reason`: why a file cannot be opened.
//! - `devices`: the file that a command replaces, and what it prints.
//! - `file_names`: the names of the files that a command reads.
//! - `load`: the command `load`.
//! - `link`: the command `link`; `link_request`: doing what it asks for, also with a list of files.
//! - `image`: the command `image`.
//! - `copy`: the command `copy`.
//! - `compare`: the command `compare`.
//! - `survey`: the command `survey`.
//! - `text`: the commands that print a text about a file; `names`: the one that lists names.
//! - `version`: the version of the program.
//! - `laws`: laws about the files of a store.
//!
//! Of `hunk_store` it re-exports what its callers need: stores, outputs, and why a command failed.
#![tactic(auto)]

mod again;
mod answers;
pub mod compare;
pub mod copy;
mod devices;
pub mod explain;
mod file_names;
pub mod image;
pub mod laws;
pub mod link;
mod link_request;
pub mod load;
pub mod names;
mod reason;
mod refusal;
mod request;
pub mod survey;
mod text;
mod unexplained;
mod version;

pub use hunk_store::{
    Addresses, COMMAND_LINE, DEVICE, DIFFERENT, DONE, Failure, FileList, Input, Lines, MemoryFile,
    MemoryStore, NameEnd, NewBytes, Output, Printer, Store, System, addresses, addresses_of,
    open_inputs, random_key, report_failure,
};
pub use load::LoadText;
pub use request::{Request, answer};
pub use survey::SurveyOptions;
pub use text::{ShowText, Text, print_text, print_text_to};
pub use version::{VERSION, print_version};
