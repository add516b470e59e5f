//! Tests of what the program does, as calls, and of everything that checks the bytes of a file.
//!
//! - `tests`: files from bytes to reports and texts, and the errors that they cause.
#![tactic(auto)]

#[cfg(test)]
mod tests;
