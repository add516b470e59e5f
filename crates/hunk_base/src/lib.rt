//! What the files of the Amiga hunk format are made of, whatever is in them: bytes and longwords, names and sites, and how
//! they are read, written and refused.
//!
//! - `longwords`: longwords to bytes; `splitter`: bytes to longwords.
//! - `fault`: what is wrong with a file, and where; errors of reading and writing.
//! - `streams`: readers and writers that report their bytes, their failure and their end.
//! - `watched`: readers and writers of std, watched.
//! - `pieces`, `room`: a reader and a writer over memory, which fail where they should.
//! - `name`: names in longwords, all at once or one longword at a time.
//! - `text`: a text on its way to a writer; `digits`, `quoted_name`: the numbers and names in it.
//! - `sites`: the sites of a hunk, no two of which share a byte; they are kept in `pages`, each a `page`.
//! - `list`, `slots`: the sites of a page, as a list by rising offset, or in a table with a slot for each four bytes.
#![tactic(auto)]

mod digits;
pub mod fault;
mod list;
pub mod longwords;
pub mod name;
mod page;
mod pages;
pub mod pieces;
mod quoted_name;
pub mod room;
pub mod sites;
mod slots;
pub mod splitter;
pub mod streams;
pub mod text;
pub mod watched;

pub use fault::{DeviceFault, Fault, ReadFault, Reason, Refusal, WriteFault};
pub use longwords::{LONGWORD, big_endian};
pub use name::Name;
pub use name::open_name::OpenName;
pub use page::Page;
pub use pieces::Pieces;
pub use room::Room;
pub use sites::{SiteRefusal, Sites, Walk};
pub use splitter::Splitter;
pub use streams::{Feed, Sink, Source, read_all};
pub use text::Text;
pub use watched::Watched;
