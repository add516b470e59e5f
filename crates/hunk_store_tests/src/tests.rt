//! Files that are replaced, opened and listed, and what is told of them, by public calls only.
//!
//! - `asserts`: assertions as functions.
//! - `copies`: a load file, written again.
//! - `failures`: the line of each failure, and its status.
//! - `inputs`: files that are open at once.
//! - `keys`: keys from sources of random bytes.
//! - `lines`: lines that reach a writer whole.
//! - `links`: the load file of object files.
//! - `lists`: links of the files in a list, and links that are written to the standard output.
//! - `maps`: the load file of object files, and its map.
//! - `outcomes`: assertions about how a request ends, and about what was done with files.
//! - `replacements`: each way in which a load file takes the place of another file.
//! - `systems`: requests and commands over the files of a system.
//! - `untold`: links to an OUT of which the system does not tell what it is, or where.

mod asserts;
mod copies;
mod failures;
mod inputs;
mod keys;
mod lines;
mod links;
mod lists;
mod maps;
mod outcomes;
mod replacements;
mod systems;
mod untold;
