//! What is told of files and of links, by public calls only.
//!
//! - `asserts`: assertions as functions.
//! - `digests`: the digests of load files.
//! - `documents`: files of either kind as JSON, from readers to writers.
//! - `findings`: what a survey may find.
//! - `finds`: what readers have, for a survey.
//! - `forms`: the forms of JSON documents.
//! - `lines`: lines of a survey, as text and as JSON.
//! - `link_explanations`: what is told of units that do not link.
//! - `lint_runs`: reading and writing that fails, while a file is linted.
//! - `lints`: files with what is odd in them.
//! - `load`, `object`: load files and object files as JSON texts.
//! - `maps`: the maps of linked files.
//! - `names`: the names in files.
//! - `pages`: pages of files.
//! - `runs`: runs over files, from readers to writers.
//! - `shelf`: files in memory, by their names.
//! - `shelved`: what a survey finds under names.
//! - `tallies`: the numbers of files of a survey, and the status.
//! - `undefined`: the names that no hunk defines.
//! - `unlinked`: object files whose units do not link.

mod asserts;
mod digests;
mod documents;
mod findings;
mod finds;
mod forms;
mod lines;
mod link_explanations;
mod lint_runs;
mod lints;
mod load;
mod maps;
mod names;
mod object;
mod pages;
mod runs;
mod shelf;
mod shelved;
mod tallies;
mod undefined;
mod unlinked;

/// More allocations than a call of the tests makes.
const MOST_GROWTHS: u64 = 256;
