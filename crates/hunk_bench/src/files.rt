//! A file read to its end, and decoded or loaded.

use hunk_loader::read_image;
use hunk_loadfile::read_load;
use hunk_objects::read_object;
use hunk_words::Watched;
use std::{fs, io};

/// Reads the load file, and decodes it.
pub fn decode_file(rt: &HostRuntime, name: &str) -> io::Result<()> {
    let mut reader = Watched::new(fs::open(rt, name)?);
    match read_load(rt.alloc(), &mut reader) {
        Ok(file) => rt.println(format_args!("{} hunks", file.hunks().len())),
        Err(_) => rt.println("the decoder refused the file"),
    }
}

/// Reads the object file, and decodes it.
pub fn decode_object(rt: &HostRuntime, name: &str) -> io::Result<()> {
    let mut reader = Watched::new(fs::open(rt, name)?);
    match read_object(rt.alloc(), &mut reader) {
        Ok(units) => rt.println(format_args!("{} units", units.len())),
        Err(_) => rt.println("the decoder refused the file"),
    }
}

/// Reads the load file, which has one hunk, and makes its image.
pub fn load_file(rt: &HostRuntime, name: &str) -> io::Result<()> {
    let mut reader = Watched::new(fs::open(rt, name)?);
    match read_image(rt.alloc(), &mut reader, &[0x1_0000]) {
        Ok(image) => rt.println(format_args!("an image of {} hunks", image.hunks().len())),
        Err(_) => rt.println("the loader refused the file"),
    }
}
