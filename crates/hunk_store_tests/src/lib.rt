//! Tests of the files that commands read and replace.
//!
//! - `tests`: files that are replaced, opened and listed, and what is told of them, by public calls only.
#![tactic(auto)]

#[cfg(test)]
mod tests;
