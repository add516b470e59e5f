//! Tests of what is told of files and of links, as calls.
//!
//! - `tests`: maps, names, what is told of units that do not link, JSON, pages, surveys, and lints.
#![tactic(auto)]

#[cfg(test)]
mod tests;
