//! A file system in memory for the tests: it logs what is done with files, and fails on demand.

use crate::fake_disk::Place;
use crate::fake_handle::{Bytes, Handle};
use crate::fake_log::{Log, add_one};
use crate::named_files::{Kind, fault_at, find, link_at, metadata_of};
use std::alloc::{Allocator, Global};
use std::fmt::Display;
use std::fs::{Metadata, OpenOptions};
use std::io;
use std::io::{Empty, ErrorKind};
use std::path::PathBuf;
use std::rt::Files;

/// The file system. Names that are equal are one file, and so are a symbolic link and what it leads to.
#[derive(Clone, Copy)]
pub struct FakeFiles<'a> {
    /// How many times a file can be opened to be read.
    pub openings: usize,
    pub log: &'a Log,
}

fn failed<T>(kind: ErrorKind) -> io::Result<T> {
    Err(io::Error::from(kind))
}

/// What a name leads to.
fn followed(name: &str) -> &str {
    match link_at(name) {
        Some(target) => target,
        None => name,
    }
}

impl<'a> FakeFiles<'a> {
    /// A copy of the bytes under this name; `None` if there is no file.
    pub fn bytes_under(&self, alloc: Global, name: &str) -> io::Result<Option<Vec<u8>>> {
        let disk = self.log.disk.try_borrow()?;
        let bytes = match disk.place_of(name) {
            Place::File(number) => disk.bytes(number),
            Place::Gone => return Ok(None),
            Place::Unchanged => match find(name, self.log.opened.get()) {
                Some((_, bytes)) => bytes,
                None => return Ok(None),
            },
        };
        let mut copy = Vec::new(alloc);
        copy.extend_from_slice(bytes)?;
        Ok(Some(copy))
    }

    /// What the file with this name is, if there is one.
    fn kind(&self, name: &str) -> io::Result<Option<Kind>> {
        let disk = self.log.disk.try_borrow()?;
        Ok(match disk.place_of(name) {
            Place::File(number) => Some(disk.kind(number)),
            Place::Gone => None,
            Place::Unchanged => find(name, self.log.opened.get()).map(|(kind, _)| kind),
        })
    }

    /// The number of the file with this name, which it gets if it has none yet.
    fn number(&self, name: &str) -> io::Result<usize> {
        let mut disk = self.log.disk.try_borrow_mut()?;
        match disk.place_of(name) {
            Place::File(number) => Ok(number),
            Place::Gone => failed(ErrorKind::NotFound),
            Place::Unchanged => match find(name, self.log.opened.get()) {
                Some((Kind::Regular, bytes)) => Ok(disk.add(name, Kind::Regular, bytes)?),
                // What a device takes is not what it gives.
                Some((kind, _)) => Ok(disk.add(name, kind, &[])?),
                None => failed(ErrorKind::NotFound),
            },
        }
    }

    /// Opens a file to be read.
    fn read(&self, name: &str) -> io::Result<Handle<'a>> {
        let opened = self.log.opened.get();
        if opened >= self.openings {
            return failed(ErrorKind::NotFound);
        }
        let disk = self.log.disk.try_borrow()?;
        let (kind, bytes) = match disk.place_of(name) {
            Place::File(number) => (disk.kind(number), Bytes::Read(number, 0)),
            Place::Gone => return failed(ErrorKind::NotFound),
            Place::Unchanged => match find(name, opened) {
                Some((kind, bytes)) => (kind, Bytes::Fixed(bytes)),
                None => return failed(ErrorKind::NotFound),
            },
        };
        add_one(&self.log.opened);
        Ok(Handle::new(self.log, kind, bytes))
    }

    /// Opens a file to be written.
    fn write(&self, how: &OpenOptions, name: &str) -> io::Result<Handle<'a>> {
        let Some(kind) = self.kind(name)? else {
            return self.write_new(how, name);
        };
        if kind == Kind::Directory {
            return failed(ErrorKind::IsADirectory);
        }
        let number = self.number(name)?;
        self.begin(how, number, name)?;
        Ok(Handle::new(self.log, kind, Bytes::Written(number, 0)))
    }

    /// Opens a file that is not there to be written.
    fn write_new(&self, how: &OpenOptions, name: &str) -> io::Result<Handle<'a>> {
        if how.asks_create() {
            return self.create(name);
        }
        failed(ErrorKind::NotFound)
    }

    /// Begins to write a file: it is emptied, or keeps its bytes.
    fn begin(&self, how: &OpenOptions, number: usize, name: &str) -> io::Result<()> {
        if how.asks_truncate() {
            return self.truncate(number, name);
        }
        self.log.tell("open", &[name])
    }

    /// Empties a file.
    fn truncate(&self, number: usize, name: &str) -> io::Result<()> {
        let mut disk = self.log.disk.try_borrow_mut()?;
        disk.clear(number);
        self.log.tell("truncate", &[name])
    }

    /// Creates a file under a name that no file may have.
    fn create_new(&self, name: &str) -> io::Result<Handle<'a>> {
        if let Some(kind) = self.log.faults.new_file.get() {
            return failed(kind);
        }
        if link_at(name).is_some() || self.kind(name)?.is_some() {
            return failed(ErrorKind::AlreadyExists);
        }
        self.create(name)
    }

    /// Creates a file under a name that no file has.
    fn create(&self, name: &str) -> io::Result<Handle<'a>> {
        // There is no such directory.
        if name.starts_with("nowhere/") {
            return failed(ErrorKind::NotFound);
        }
        let number = self
            .log
            .disk
            .try_borrow_mut()?
            .add(name, Kind::Regular, &[])?;
        self.log.tell("create", &[name])?;
        let bytes = Bytes::Written(number, 0);
        Ok(Handle::new(self.log, Kind::Regular, bytes))
    }
}

impl<'a> Files for FakeFiles<'a> {
    type File = Handle<'a>;

    type Dir = Empty;

    fn open_file(&self, how: &OpenOptions, path: &str) -> io::Result<Handle<'a>> {
        how.check()?;
        if let Some(error) = fault_at(path) {
            return Err(error);
        }
        if how.asks_create_new() {
            self.create_new(path)
        } else if how.asks_write() {
            self.write(how, followed(path))
        } else {
            self.read(followed(path))
        }
    }

    fn open_dir(&self, _path: &str) -> io::Result<Empty> {
        failed(ErrorKind::Unsupported)
    }

    fn metadata(&self, path: &str) -> io::Result<Metadata> {
        match self.kind(followed(path))? {
            Some(kind) => metadata_of(kind),
            None => failed(ErrorKind::NotFound),
        }
    }

    fn symlink_metadata(&self, path: &str) -> io::Result<Metadata> {
        match link_at(path) {
            Some(_) => Ok(Metadata::of_symlink(0)),
            None => self.metadata(path),
        }
    }

    fn copy(&self, _from: &str, _to: &str) -> io::Result<u64> {
        failed(ErrorKind::Unsupported)
    }

    fn rename(&self, from: &str, to: &str) -> io::Result<()> {
        if let Some(kind) = self.log.faults.rename.get() {
            return failed(kind);
        }
        if self.kind(to)? == Some(Kind::Directory) {
            return failed(ErrorKind::IsADirectory);
        }
        let number = self.number(from)?;
        self.log.disk.try_borrow_mut()?.rename(number, to)?;
        self.log.tell("rename", &[from, to])
    }

    fn remove_file(&self, path: &str) -> io::Result<()> {
        let number = self.number(path)?;
        self.log.disk.try_borrow_mut()?.remove(number);
        self.log.tell("remove", &[path])
    }

    fn create_dir(&self, _path: &str) -> io::Result<()> {
        failed(ErrorKind::Unsupported)
    }

    fn remove_dir(&self, _path: &str) -> io::Result<()> {
        failed(ErrorKind::Unsupported)
    }

    fn remove_dir_all<B: Allocator>(&self, _alloc: B, _path: &str) -> io::Result<()> {
        failed(ErrorKind::Unsupported)
    }

    fn canonicalize<B: Allocator>(&self, alloc: B, path: &str) -> io::Result<PathBuf<B>> {
        if let Some(kind) = self.log.faults.canonicalize.get() {
            return failed(kind);
        }
        let target = followed(path);
        if self.kind(target)?.is_none() {
            return failed(ErrorKind::NotFound);
        }
        Ok(PathBuf::from_str(alloc, target)?)
    }
}

impl Print for FakeFiles<'_> {
    fn print<D: Display + Drop>(&self, _value: D) -> io::Result<()> {
        failed(ErrorKind::Unsupported)
    }

    fn println<D: Display + Drop>(&self, _value: D) -> io::Result<()> {
        failed(ErrorKind::Unsupported)
    }

    fn write_all(&self, bytes: &[u8]) -> io::Result<()> {
        if self.write_some(bytes)? == bytes.len() {
            Ok(())
        } else {
            failed(ErrorKind::StorageFull)
        }
    }

    fn write_some(&self, bytes: &[u8]) -> io::Result<usize> {
        let room = self.log.faults.printable.get();
        if room == 0 && !bytes.is_empty() {
            return Err(io::Error::from(ErrorKind::StorageFull));
        }
        let count = bytes.len().min(room);
        let mut printed = self.log.printed.try_borrow_mut()?;
        printed.extend_from_slice(&bytes[..count])?;
        self.log.faults.printable.set(room.saturating_sub(count));
        Ok(count)
    }
}
