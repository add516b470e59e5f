//! Load files: their hunks, and the form in which they are written.
//!
//! - `load_hunk`: a hunk of a load file.
//! - `rules`: the rules for the hunks of a load file.
//! - `load_file`: a load file, made of hunks.
//! - `load_builder`: a builder of load files from the events of their longwords.
//! - `hunk_builder`: a builder of hunks, one after another, from the events of load files.
//! - `open_hunk`: the current hunk of a load file.
//! - `load_decoder`: load files from bytes.
//! - `load_form`: the forms in which a load file is written.
//! - `load_writer`: load files as bytes.
//! - `written_form`: the written forms of a load file in memory, and their lengths.
//! - `relocation_writer`: writes the relocation blocks of a hunk; `one_target_writer`: those of one whose sites all
//!   have one target.
//! - `number_width`: how wide the numbers of a relocation block are.
//! - `debug_writer`: writes the symbols and debug blocks of a hunk.
//! - `longword_writer`: writes longwords and other numbers of a text.
//! - `patching`: adding numbers to the longwords at sites.
//! - `trimming`: cutting the zeros at the end of contents.
//! - `stripping`: leaving out symbols and debug blocks.
//! - `normal_form`: the least that a file can have for the same memory.
//! - `difference`: where two load files first differ in what they mean.
//! - `comparer`: how a load file compares with a first one, while its bytes come.
//! - `comparison`: how two load files compare.
//! - `content_comparer`: where a content that comes in runs first differs from another one.
//! - `info_difference`: where two load files first differ in what only debuggers read.
//! - `laws`: laws about load files, their written forms, what they mean, trimming and patching.
#![tactic(auto)]

pub mod comparer;
pub mod comparison;
mod content_comparer;
mod debug_writer;
pub mod difference;
mod hunk_builder;
pub mod info_difference;
pub mod laws;
pub mod load_builder;
pub mod load_decoder;
pub mod load_file;
pub mod load_form;
pub mod load_hunk;
pub mod load_writer;
mod longword_writer;
mod normal_form;
mod number_width;
mod one_target_writer;
mod open_hunk;
pub mod patching;
mod relocation_writer;
pub mod rules;
mod stripping;
mod trimming;
pub mod written_form;

pub use comparer::read_comparison;
pub use comparison::Comparison;
pub use difference::{Difference, first_difference};
pub use hunk_words::{HunkKind, Memory};
pub use info_difference::{InfoDifference, first_info_difference};
pub use load_builder::LoadBuilder;
pub use load_decoder::{LoadDecoder, read_load};
pub use load_file::LoadFile;
pub use load_form::LoadForm;
pub use load_hunk::LoadHunk;
pub use load_writer::{write_load, write_load_with};
pub use patching::{add_at, patch};
pub use rules::{BuildFault, BuildRefusal};
pub use written_form::{written_bytes, written_length};
