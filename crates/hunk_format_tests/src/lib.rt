//! Tests of the format: names and sites, program units, and load files from bytes to values and memory, and back.
//!
//! - `tests`: what is read, built, written and loaded, and the errors that it causes.
#![tactic(auto)]

#[cfg(test)]
mod tests;
