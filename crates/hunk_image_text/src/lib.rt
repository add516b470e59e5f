//! The texts of images: the report, and S-records.
//!
//! - `image_form`: the forms in which an image is written.
//! - `image_text`: writes an image in one of its forms.
//! - `rows`: the lines that hold the bytes of a hunk.
//! - `record`: the lines of S-records.
//! - `hex_digits`: the hexadecimal digits of bytes.
#![tactic(auto)]

mod hex_digits;
pub mod image_form;
mod image_text;
mod record;
mod rows;

pub use image_form::ImageForm;
pub use image_text::{put_image, write_image};
pub use record::put_left_out;
