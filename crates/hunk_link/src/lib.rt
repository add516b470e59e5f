//! The linker: one load file from program units.
//!
//! - `linking`: linking program units.
//! - `refusal`: why program units do not link.
//! - `limits`: how much units may have that are linked.
//! - `ranked_hunk`: a hunk with its place in the order of linking.
//! - `own_hunks`: whether sites name hunks of their own unit.
//! - `symbol_table`: what each name stands for; `name_key`: the bytes of a name, by which it is looked up; `name_hasher`: how names are
//!   hashed with a key.
//! - `addend`: what the linker knows of what is added at a site.
//! - `references`: what the references of hunks add.
//! - `carried`: the hunks of the load file.
//! - `laws`: laws about linking.
#![tactic(auto)]

mod addend;
mod carried;
pub mod laws;
mod limits;
pub mod linking;
pub mod name_hasher;
pub mod name_key;
mod own_hunks;
mod ranked_hunk;
mod references;
pub mod refusal;
pub mod symbol_table;

pub use linking::{link, link_units, link_units_with, link_with};
pub use name_hasher::NameHasher;
pub use name_key::NameKey;
pub use refusal::LinkRefusal;
