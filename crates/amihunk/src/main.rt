//! `amihunk`: an Amiga hunk linker and loader.
//!
//! - `program`: the arguments, what they ask for, and the exit status.
//! - `arguments`: the arguments of the command line, some of which may be bytes that are no text.
//! - `choices`: what the flags of a subcommand choose together.
//! - `command_line`: the arguments of the command line, as `clap` reads them.
//! - `conflict`: arguments that a command line may not have together, or not without others.
//! - `refusal`: what arguments ask for that `clap` answers, or the program itself refuses.
//! - `standard_input`: standard input, which the argument `-` names.
//! - `stack`: the stack that the program needs.
//! - `syntax`: the command line that the program accepts, as `clap` is told of it.
#![tactic(auto)]

mod arguments;
mod choices;
mod command_line;
mod conflict;
mod program;
mod refusal;
mod stack;
mod standard_input;
mod syntax;

use hunk_commands::Lines;
use hunk_words::Watched;
use std::process::ExitCode;

fn main(rt: HostRuntime) -> ExitCode {
    let has_stack = stack::take(rt.alloc());
    let status = match Lines::new(rt.alloc(), rt.stderr()) {
        Ok(lines) => program::begin(&rt, &mut Watched::new(lines), has_stack),
        // Lines that may be mixed with those of other programs are better than none.
        Err(_) => program::begin(&rt, &mut Watched::new(rt.stderr()), has_stack),
    };
    ExitCode::from(status)
}
