//! What was done with the files of the tests' file system, and what is to fail.

use crate::fake_disk::Disk;
use std::alloc::Global;
use std::cell::{Cell, RefCell};
use std::io;
use std::io::ErrorKind;

/// What is to fail.
#[derive(Drop)]
pub struct Faults {
    /// How many reads there are before one that fails.
    pub good_reads: Cell<usize>,
    /// How many bytes files and devices take, all together, before a write fails.
    pub room: Cell<usize>,
    /// How many bytes the standard output takes before a write to it fails.
    pub printable: Cell<usize>,
    /// Why no new file can be created under a name that no file may have, if none can.
    pub new_file: Cell<Option<ErrorKind>>,
    /// Why no file can be renamed, if none can.
    pub rename: Cell<Option<ErrorKind>>,
    /// Whether a file fails to reach the disk.
    pub sync: Cell<bool>,
    /// Why the path that a name leads to cannot be told, if none can.
    pub canonicalize: Cell<Option<ErrorKind>>,
    /// Why an open file does not tell what it is, if none does.
    pub metadata: Cell<Option<ErrorKind>>,
}

/// What was done with files.
#[derive(Drop)]
pub struct Log {
    /// How many files are open.
    pub open: Cell<usize>,
    /// How many files were open at once.
    pub most_open: Cell<usize>,
    /// How many files were opened to be read.
    pub opened: Cell<usize>,
    /// How many reads there were.
    pub reads: Cell<usize>,
    /// What was printed.
    pub printed: RefCell<Vec<u8>>,
    /// What was done with files that are written, each in a line of a word and the names.
    pub events: RefCell<String>,
    /// What is to fail.
    pub faults: Faults,
    /// The files that were created, or opened to be written.
    pub disk: RefCell<Disk>,
}

/// Adds one to a number of a log.
pub fn add_one(count: &Cell<usize>) {
    count.set(count.get().saturating_add(1));
}

impl Faults {
    /// Nothing is to fail but the first write to the standard output.
    fn none() -> Faults {
        Faults {
            good_reads: Cell::new(usize::MAX),
            room: Cell::new(usize::MAX),
            printable: Cell::new(0),
            new_file: Cell::new(None),
            rename: Cell::new(None),
            sync: Cell::new(false),
            canonicalize: Cell::new(None),
            metadata: Cell::new(None),
        }
    }
}

impl Log {
    /// Nothing has been done, and nothing is to fail but the first write to the standard output.
    pub fn new(alloc: Global) -> Log {
        Log {
            open: Cell::new(0),
            most_open: Cell::new(0),
            opened: Cell::new(0),
            reads: Cell::new(0),
            printed: RefCell::new(Vec::new(alloc)),
            events: RefCell::new(String::new(alloc)),
            faults: Faults::none(),
            disk: RefCell::new(Disk::new(alloc)),
        }
    }

    /// Adds a line: what was done, and the names that it was done with.
    pub fn tell(&self, done: &str, names: &[&str]) -> io::Result<()> {
        let mut events = self.events.try_borrow_mut()?;
        events.push_str(done)?;
        for name in names {
            events.push_str(" ")?;
            events.push_str(name)?;
        }
        events.push_str("\n")?;
        Ok(())
    }

    /// Adds a line about the file with this number.
    pub fn tell_of(&self, done: &str, number: usize) -> io::Result<()> {
        let disk = self.disk.try_borrow()?;
        let mut events = self.events.try_borrow_mut()?;
        events.push_str(done)?;
        events.push_str(" ")?;
        events.push_str(disk.name(number))?;
        events.push_str("\n")?;
        Ok(())
    }
}
