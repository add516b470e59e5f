//! What is in a hunk file, as JSON.
//!
//! - `form`: the forms of a document.
//! - `escapes`: strings, and which characters are escaped in them.
//! - `document`: what has a JSON value, and how its text is written.
//! - `parts`: names, and what hunks of either kind of file have.
//! - `content`: the stored bytes of a hunk; `content_offsets`: where they stand in the file.
//! - `load`: load files.
//! - `object`: object files.
//! - `run`: reads a file of either kind, and writes its JSON.
//! - `page`: reads a file of either kind, and writes a page with its JSON.
//! - `page_sources`: what stands in a page around the JSON.
//! - `laws`: laws about documents.
#![tactic(auto)]

mod content;
mod content_offsets;
mod document;
mod escapes;
pub mod form;
pub mod laws;
pub mod load;
pub mod object;
pub mod page;
mod page_sources;
mod parts;
pub mod run;

pub use form::JsonForm;
pub use load::write_load_json;
pub use object::write_object_json;
pub use page::page_run;
pub use parts::write_name_json;
pub use run::{json_run, json_run_with};
