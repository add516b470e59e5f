//! What is odd about a file: what is ignored in it, and what a loader or a processor stumbles over.
//!
//! - `run`: reads a file of either kind, and writes what is odd about it.
//! - `linted`: reads a file of either kind, with what is odd about its longwords.
//! - `oddity`: what is odd about a longword, by itself; `watch`: what is known of the longwords before it; `lints`: what was
//!   found odd so far.
//! - `lint_text`: the lines about longwords, and all of them.
//! - `hunk_lint`: the lines about the hunks of a file; `hunk_lint_lines`: those about a site or a symbol.
#![tactic(auto)]

mod hunk_lint;
mod hunk_lint_lines;
pub mod lint_text;
pub mod linted;
mod lints;
pub mod oddity;
pub mod run;
mod watch;

pub use lint_text::write_lints;
pub use linted::{Linted, LintedFile, read_linted};
pub use oddity::{LongwordLint, Oddity};
pub use run::lint_run;
