//! Object files and what they link to, by public calls only.
//!
//! - `answers`: what units link to is compared with what it is to be.
//! - `asserts`: assertions as functions.
//! - `callers`: the programs of `hunk_uses`, which link and load.
//! - `cases`: files that link, by every call.
//! - `choices`: how files may be linked.
//! - `devices`: readers and writers that fail.
//! - `dice`: numbers that look random.
//! - `far_sites`: sites about the first offset that 16 bits do not hold.
//! - `files`: units that link.
//! - `forms`: one object file, and its load file for every choice of options.
//! - `globals`: links that keep the names of definitions.
//! - `growths`: allocations that fail.
//! - `hashers`: names that are hashed in other ways.
//! - `limits`: as many hunks as a link may have, and as large ones.
//! - `loads`: allocations of loading that fail.
//! - `made_places`: places made at random.
//! - `made_plans`: units made at random.
//! - `memory`: allocations of runs that fail.
//! - `names`: names in one longword, and refusals that tell them.
//! - `orders`: which of several faults is told.
//! - `plain_file`, `plain_link`, `plain_memory`: what units link to, and what they are in memory,
//!   found slowly.
//! - `plans`: units as the tests describe them.
//! - `random`: units made at random are linked, loaded and reported.
//! - `refusals`: units that do not link.
//! - `ring`: many units, each of which refers to the next.
//! - `runs`: links, loads and images from readers to writers.
//! - `words`: the longwords of object files, and reports.

mod answers;
mod asserts;
mod callers;
mod cases;
mod choices;
mod devices;
mod dice;
mod far_sites;
mod files;
mod forms;
mod globals;
mod growths;
mod hashers;
mod limits;
mod loads;
mod made_places;
mod made_plans;
mod memory;
mod names;
mod orders;
mod plain_file;
mod plain_link;
mod plain_memory;
mod plans;
mod random;
mod refusals;
mod ring;
mod runs;
mod words;
