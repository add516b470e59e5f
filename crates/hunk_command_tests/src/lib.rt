//! Tests of what the program does for each of its commands.
//!
//! - `tests`: what is printed, standard errors, and files in memory, by public calls only.
#![tactic(auto)]

#[cfg(test)]
mod tests;
