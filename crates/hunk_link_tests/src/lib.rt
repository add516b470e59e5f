//! Tests of the linker, from object files to load files.
//!
//! - `tests`: what object files link to, by every call, what that is in memory, and why they do not.
#![tactic(auto)]

#[cfg(test)]
mod tests;
