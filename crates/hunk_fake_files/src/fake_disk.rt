//! The files of the tests' file system that were created, or opened to be written, and their names.
ghost use Rattle.std.specs.Io.{ReadsAtMost};

use crate::named_files::Kind;
use std::alloc::{AllocError, Global};
use std::io;
use std::io::Read;

/// A file.
#[derive(Drop)]
struct Stored {
    name: String,
    /// Whether the name still leads to it.
    is_there: bool,
    kind: Kind,
    bytes: Vec<u8>,
}

/// Files. Each has a number, by which it is known while it is open, whatever becomes of its name.
#[derive(Drop)]
pub struct Disk {
    alloc: Global,
    files: Vec<Stored>,
}

/// Where a name leads.
#[derive(Clone, Copy, Debug, PartialEq, Eq)]
pub enum Place {
    /// To the file with this number.
    File(usize),
    /// To no file any more.
    Gone,
    /// To what it led to from the start.
    Unchanged,
}

impl Disk {
    /// No file was created or opened to be written.
    pub fn new(alloc: Global) -> Disk {
        Disk {
            alloc,
            files: Vec::new(alloc),
        }
    }

    /// Where this name leads.
    pub fn place_of(&self, name: &str) -> Place {
        let mut place = Place::Unchanged;
        for (number, file) in self.files.iter().enumerate() {
            if file.name.as_str() == name {
                if file.is_there {
                    return Place::File(number);
                }
                place = Place::Gone;
            }
        }
        place
    }

    /// Adds a file with this name and these bytes, and returns its number.
    pub fn add(&mut self, name: &str, kind: Kind, bytes: &[u8]) -> Result<usize, AllocError> {
        let number = self.files.len();
        let mut copy = Vec::new(self.alloc);
        copy.extend_from_slice(bytes)?;
        let file = Stored {
            name: String::from_str(self.alloc, name)?,
            is_there: true,
            kind,
            bytes: copy,
        };
        self.files.push(file)?;
        Ok(number)
    }

    /// The name of the file with this number leads to nothing any more.
    pub fn remove(&mut self, number: usize) {
        if let Some(file) = self.files.get_mut(number) {
            file.is_there = false;
        }
    }

    /// The file with this number has this name from now on, and no other file has it.
    pub fn rename(&mut self, number: usize, name: &str) -> Result<(), AllocError> {
        let name = String::from_str(self.alloc, name)?;
        if let Place::File(replaced) = self.place_of(name.as_str()) {
            self.remove(replaced);
        }
        if let Some(file) = self.files.get_mut(number) {
            file.name = name;
            file.is_there = true;
        }
        Ok(())
    }

    /// The file with this number has no bytes from now on.
    pub fn clear(&mut self, number: usize) {
        if let Some(file) = self.files.get_mut(number) {
            file.bytes.clear();
        }
    }

    /// The name of the file with this number.
    pub fn name(&self, number: usize) -> &str {
        match self.files.get(number) {
            Some(file) => file.name.as_str(),
            None => "",
        }
    }

    /// What the file with this number is.
    pub fn kind(&self, number: usize) -> Kind {
        match self.files.get(number) {
            Some(file) => file.kind,
            None => Kind::Regular,
        }
    }

    /// The bytes of the file with this number.
    pub fn bytes(&self, number: usize) -> &[u8] {
        match self.files.get(number) {
            Some(file) => file.bytes.as_slice(),
            None => &[],
        }
    }

    /// Reads bytes of the file with this number, from the byte `at` on.
    pub fn read(&self, number: usize, at: usize, buffer: &mut [u8]) -> io::Result<usize>
        ensures { ReadsAtMost result buffer.new }
    {
        match self.bytes(number).get(at..) {
            Some(mut rest) => rest.read(buffer),
            None => Ok(0),
        }
    }

    /// Writes bytes to the file with this number, from the byte `at` on.
    pub fn write(&mut self, number: usize, at: usize, piece: &[u8]) -> Result<(), AllocError> {
        let Some(file) = self.files.get_mut(number) else {
            return Ok(());
        };
        let mut place = at;
        for byte in piece {
            match file.bytes.get_mut(place) {
                Some(old) => *old = *byte,
                None => file.bytes.push(*byte)?,
            }
            place = place.saturating_add(1);
        }
        Ok(())
    }
}
