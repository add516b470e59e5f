//! Files from bytes to reports and texts, by public calls only.
//!
//! - `asserts`: assertions as functions.
//! - `bases`: lists of addresses.
//! - `bases_file`: the addresses in a file.
//! - `compared`: load files that are compared; `comparing`: comparisons that fail.
//! - `copied`: copies of load files.
//! - `decoders`: what checks the bytes of a file.
//! - `devices`: readers and writers that fail.
//! - `endless`: a reader that never ends.
//! - `explanations`: what is told of the first offence of a file, and of hunks beside addresses.
//! - `faults`: the lines and statuses of errors.
//! - `files`: the bytes of files, and what loading them writes.
//! - `kept`: errors that are returned again.
//! - `memory`: allocations that fail.
//! - `records`: images as S-records.
//! - `refusals`: addresses that are rejected.
//! - `reports`: files that are loaded.
//! - `runs`: contents that are compared while they come.
//! - `streaming`: what `ImageLoader` allocates.
//! - `symbol_records`: the symbols of load files and of object files before their S-records.
//! - `symbols`: the symbols of load files, with their addresses.
//! - `texts`: the texts that are written about files.
//! - `vectors`: files of both kinds through everything that reads them.

mod asserts;
mod bases;
mod bases_file;
mod compared;
mod comparing;
mod copied;
mod decoders;
mod devices;
mod endless;
mod explanations;
mod faults;
mod files;
mod kept;
mod memory;
mod records;
mod refusals;
mod reports;
mod runs;
mod streaming;
mod symbol_records;
mod symbols;
mod texts;
mod vectors;
