//! The loader and the linker of `amihunk`, and what is in files, for programs in C, as a static
//! library.
//!
//! - `loading`: the calls that load a file.
//! - `sizing`: the calls that tell the sizes of its hunks before they have addresses.
//! - `linking`: the calls that link object files.
//! - `reading`: the calls that read a file to look into, and load it; `looking`: those that tell what
//!   is in it.
//! - `comparing`: the calls that compare load files that were read; `compared`: where these first
//!   differ.
//! - `texts`: the calls that tell a refusal in words.
//! - `places`: the call that checks whether hunks can be placed.
//! - `point`: the call that tells which byte of which hunk is at an address.
//! - `handle`: what C holds between calls, and `parts`: a box taken apart.
//! - `session`: what a handle is at.
//! - `header`: reading a header, step by step; `rooms`: where its hunks are to be made, and `table`:
//!   what C is told of them.
//! - `loader`: loading, step by step.
//! - `keeping`: the calls that tell what a linker keeps; `kept`: what these tell.
//! - `linker`: what a linker has taken, and `inputs`: linking, step by step; `linked`: what a link
//!   makes.
//! - `image`: the hunks that were loaded.
//! - `reader`: reading a file, step by step; `load_read`: loading one that was read.
//! - `looked`: a file that was read; `site_lists`: the sites of its hunks, in lists; `facts`: what is
//!   known of a hunk.
//! - `asked`: what is asked of a file, and `told`: what C is told; `symbol_before`: the symbol at an
//!   offset or before it.
//! - `refused`: why a session is refused.
//! - `line`: the line with which the program reports a refusal.
//! - `answer`: what C is told of a call.
//! - `codes`: the numbers of statuses and reasons.
//! - `copying`: copying bytes into a buffer of the caller.
//! - `span`: where bytes are.
#![tactic(auto)]

mod answer;
mod asked;
mod codes;
mod compared;
pub mod comparing;
mod copying;
mod facts;
mod handle;
mod header;
mod image;
mod inputs;
pub mod keeping;
mod kept;
mod line;
mod linked;
mod linker;
pub mod linking;
mod load_read;
mod loader;
pub mod loading;
mod looked;
pub mod looking;
pub mod places;
pub mod point;
mod reader;
pub mod reading;
mod refused;
mod rooms;
mod session;
mod site_lists;
pub mod sizing;
mod span;
mod symbol_before;
mod table;
pub mod texts;
pub mod told;
