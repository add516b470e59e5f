//! What is printed, standard errors, and files in memory, by public calls only.
//!
//! - `addresses`: addresses in a list, and in a file.
//! - `asserts`: assertions as functions.
//! - `comparisons`: whether two load files mean the same.
//! - `explanations`: what is told of a failure after its line; `explanation_rows`: its rows.
//! - `images`: the report of object files.
//! - `loads`: the report and the symbols of a load file.
//! - `names`: the names in files.
//! - `outcomes`: assertions about how a request ends, and about what it printed.
//! - `reasons`: why a file cannot be opened or read, after the line of its failure.
//! - `requests`: the status of each request, and the line of its failure.
//! - `shown`: what `show` prints of a file in memory.
//! - `stores`: commands over files in memory.
//! - `surveys`: what a survey tells of files.
//! - `systems`: requests and commands over the files of a system.
//! - `texts`: the texts about a file.
//! - `versions`: the version of the program.

mod addresses;
mod asserts;
mod comparisons;
mod explanation_rows;
mod explanations;
mod images;
mod loads;
mod names;
mod outcomes;
mod reasons;
mod requests;
mod shown;
mod stores;
mod surveys;
mod systems;
mod texts;
mod versions;
