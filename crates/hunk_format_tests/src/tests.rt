//! The parts of files, object files and load files, by public calls only.
//!
//! - `asserts`: assertions as functions.
//! - `builds`: hunks that make a load file, and hunks that don't.
//! - `compared`: load files that are compared, stripped or in normal form.
//! - `decoded`: load files as values.
//! - `failed_reads`: reads of object files and load files that fail.
//! - `growths`: allocations that fail in the calls on load files.
//! - `loaded`: load files in memory.
//! - `loading`: load files that are made of hunks, in memory.
//! - `made`: load files that are made of plain values.
//! - `names`: names from longwords and as longwords.
//! - `overlaps`: hunks that share an address, searched for with memory and without.
//! - `partial_hunks`: content and sites of a hunk as they come.
//! - `parts`: each part of a load file, as it is written.
//! - `places`: addresses of hunks.
//! - `short_form`: load files with relocations in 16-bit words, as they are written.
//! - `site_allocations`: sites that are added while allocations fail.
//! - `sized`: load files whose hunks get their addresses once the header is read.
//! - `sites`: sites that touch, overlap and stand outside.
//! - `texts`: texts on their way to a writer.
//! - `trimmed`: load files without the zeros at the end of contents.
//! - `unit_values`: the expected units of an object file.
//! - `units`: program units, as they are read.
//! - `values`: the expected hunks of a load file.
//! - `written`: load files that are written.

mod asserts;
mod builds;
mod compared;
mod decoded;
mod failed_reads;
mod growths;
mod loaded;
mod loading;
mod made;
mod names;
mod overlaps;
mod partial_hunks;
mod parts;
mod places;
mod short_form;
mod site_allocations;
mod sites;
mod sized;
mod texts;
mod trimmed;
mod unit_values;
mod units;
mod values;
mod written;
