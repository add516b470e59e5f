//! The operations of `amihunk`, and what they tell where they fail.
//!
//! Files of either kind are read in `hunk_files`, addresses in `hunk_addresses`, and the texts of images are in
//! `hunk_image_text`. Callers of the operations find here what they need of these.
//!
//! - `laws`: laws about the outcomes of the operations.
//! - `check`: checks a file of either kind and writes what it is.
//! - `show`: reads a file of either kind and writes its listing.
//! - `file_system`: what opens files by their names.
//! - `link`: links object files and writes the load file.
//! - `link_options`: how object files are linked, and how their load file is written.
//! - `object_files`: the object files that an operation reads: their units, with their places.
//! - `linked_units`: the units that are linked: those that were read, or with the names that they define as symbols.
//! - `copy`: copies a load file, in another form.
//! - `compare`: tells where two load files first differ.
//! - `image`: writes the memory that object files define.
//! - `load`: loads a file and writes its image.
//! - `symbols`: writes the symbols of a load file, or of object files, with their addresses; `symbol_form`: in
//!   which form.
//! - `tool_fault`: why an operation failed.
//! - `fault_line`: the line that reports why an operation failed.
//! - `link_line`: the line that reports why units do not link.
//! - `file_name`: what files are called; `shown_name`: their names in lines.
#![tactic(auto)]

pub mod check;
pub mod compare;
pub mod copy;
pub mod fault_line;
pub mod file_name;
pub mod file_system;
pub mod image;
pub mod laws;
pub mod link;
mod link_line;
pub mod link_options;
mod linked_units;
pub mod load;
pub mod object_files;
pub mod show;
mod shown_name;
pub mod symbol_form;
pub mod symbols;
pub mod tool_fault;

pub use check::check_run;
pub use compare::compare_run;
pub use copy::{CopyForm, copy_run};
pub use fault_line::{write_fault, write_reason};
pub use file_name::{FileName, name_at};
pub use file_system::{FileSystem, FileType, OpenFault};
pub use hunk_addresses::{BasesFault, BasesFileFault, parse_bases, read_bases, write_places};
pub use hunk_files::{
    CountedFile, Explanation, File, Found, HunkFile, HunkFileDecoder, LoadCounter, ObjectCounter,
    count_file, explain_file, explain_load, explain_object, read_hunk_file, write_explanation,
};
pub use hunk_image_text::{ImageForm, write_image};
pub use hunk_link::NameHasher;
pub use hunk_loader::PlaceFault;
pub use image::{image_run, image_run_with};
pub use link::{link_inputs, link_run, link_run_with, link_to_vec};
pub use link_options::LinkOptions;
pub use linked_units::strips;
pub use load::{load_run, load_run_with};
pub use object_files::{ObjectFiles, UnitPlace, read_object_files};
pub use show::show_run;
pub use shown_name::write_name;
pub use symbol_form::SymbolForm;
pub use symbols::{image_symbols_run, symbols_run};
pub use tool_fault::{ToolFault, status_of};
