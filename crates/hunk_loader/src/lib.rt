//! Load files in memory: where their hunks are placed, and their image.
//!
//! - `image`: the hunks in memory.
//! - `laws`: laws about the definitions of loading.
//! - `image_loader`: loading a load file while its bytes come.
//! - `header_loader`: its header alone, before its hunks have addresses.
//! - `header_bytes`: the bytes of a header, which are judged as they come.
//! - `header_hunks`: the hunks that a header tells of.
//! - `image_reader`: the image of a load file that a reader has.
//! - `image_builder`: a builder of images from the events of load files, with a bound on what it keeps.
//! - `placing`: whether hunks can be placed, as far as their sizes are known.
//! - `loading`: loading a load file at addresses.
//! - `overlaps`: the same as `places`, with memory for the search of hunks that share an address.
//! - `places`: whether hunks can be placed at given addresses, and if not, why.
//! - `sizes`: the sizes of hunks, as numbers or from the hunks themselves.
#![tactic(auto)]

mod header_bytes;
pub mod header_hunks;
pub mod header_loader;
pub mod image;
mod image_builder;
pub mod image_loader;
pub mod image_reader;
pub mod laws;
pub mod loading;
pub mod overlaps;
pub mod places;
mod placing;
pub mod sizes;

pub use header_hunks::HeaderHunk;
pub use header_loader::{HeaderLoader, PlaceRefusal};
pub use image::Image;
pub use image_loader::ImageLoader;
pub use image_reader::{ImageFault, read_image};
pub use loading::{LoadRefusal, load, load_file};
pub use overlaps::{check_places_with, check_sizes_with};
pub use places::{PlaceFault, check_places, check_sizes};
pub use sizes::Sizes;
