//! Programs that call the libraries, as their authors would write them; docs/CALLING.md quotes them.
//!
//! - `assembler`: an assembler that links what it has assembled, in memory.
//! - `boot`: a program that is loaded while its file comes, for the emulator.
//! - `debugger`: a debugger that asks the memory of a program for bytes.
//! - `emulator`: an emulator that loads a program inside a budget of memory.
//! - `machine`: a machine that chooses addresses by the sizes in a header.
#![tactic(auto)]

pub mod assembler;
mod boot;
pub mod debugger;
pub mod emulator;
pub mod machine;
