//! An open file of the tests' file system.

use crate::fake_log::{Log, add_one};
use crate::named_files::{Kind, metadata_of};
use std::fs::{Metadata, OpenFile, Permissions};
use std::io;
use std::io::{ErrorKind, Read, Seek, SeekFrom, Write};

/// Where the bytes of an open file are.
#[derive(Clone, Copy)]
pub enum Bytes {
    /// In the file system from the start; the rest of them.
    Fixed(&'static [u8]),
    /// In the file with this number, which is read from this byte on.
    Read(usize, usize),
    /// In the file with this number, which is written from this byte on.
    Written(usize, usize),
}

/// An open file.
pub struct Handle<'a> {
    log: &'a Log,
    kind: Kind,
    bytes: Bytes,
}

impl<'a> Handle<'a> {
    /// Opens a file.
    pub fn new(log: &'a Log, kind: Kind, bytes: Bytes) -> Handle<'a> {
        add_one(&log.open);
        log.most_open.set(log.most_open.get().max(log.open.get()));
        Handle { log, kind, bytes }
    }

    /// The number of the file, if it is open to be written.
    fn number_written(&self) -> io::Result<usize> {
        match self.bytes {
            Bytes::Written(number, _) => Ok(number),
            Bytes::Fixed(_) | Bytes::Read(..) => Err(io::Error::from(ErrorKind::InvalidInput)),
        }
    }
}

impl Drop for Handle<'_> {
    fn drop(self) {
        self.log.open.set(self.log.open.get().saturating_sub(1));
        let Handle {
            log: _,
            kind: _,
            bytes: _,
        } = self;
    }
}

impl Read for Handle<'_> {
    fn read(&mut self, buf: &mut [u8]) -> io::Result<usize> {
        let reads = self.log.reads.get();
        add_one(&self.log.reads);
        if self.kind == Kind::Directory {
            return Err(io::Error::from(ErrorKind::IsADirectory));
        }
        if reads >= self.log.faults.good_reads.get() {
            return Err(io::Error::from(ErrorKind::Other));
        }
        match self.bytes {
            Bytes::Fixed(mut rest) => {
                let count = rest.read(buf)?;
                self.bytes = Bytes::Fixed(rest);
                Ok(count)
            }
            Bytes::Read(number, at) => {
                let count = self.log.disk.try_borrow()?.read(number, at, buf)?;
                self.bytes = Bytes::Read(number, at.saturating_add(count));
                Ok(count)
            }
            Bytes::Written(..) => Err(io::Error::from(ErrorKind::InvalidInput)),
        }
    }
}

impl Write for Handle<'_> {
    fn write(&mut self, buf: &[u8]) -> io::Result<usize> {
        match self.kind {
            Kind::Full => return Ok(0),
            Kind::FullAtFirst => {
                self.kind = Kind::Regular;
                return Ok(0);
            }
            Kind::Regular | Kind::Pipe | Kind::NamedPipe | Kind::Directory => {}
        }
        let Bytes::Written(number, at) = self.bytes else {
            return Err(io::Error::from(ErrorKind::InvalidInput));
        };
        let room = self.log.faults.room.get();
        if room == 0 && !buf.is_empty() {
            return Err(io::Error::from(ErrorKind::StorageFull));
        }
        let count = buf.len().min(room);
        let mut disk = self.log.disk.try_borrow_mut()?;
        disk.write(number, at, &buf[..count])?;
        self.bytes = Bytes::Written(number, at.saturating_add(count));
        self.log.faults.room.set(room.saturating_sub(count));
        Ok(count)
    }

    fn flush(&mut self) -> io::Result<()> {
        Ok(())
    }
}

impl Seek for Handle<'_> {
    fn seek(&mut self, _to: SeekFrom) -> io::Result<u64> {
        Err(io::Error::from(ErrorKind::Unsupported))
    }
}

impl OpenFile for Handle<'_> {
    // An open file tells what it is, also one of which its name tells nothing.
    fn metadata(&self) -> io::Result<Metadata> {
        match self.log.faults.metadata.get() {
            Some(kind) => Err(io::Error::from(kind)),
            None => Ok(metadata_of(self.kind).unwrap_or(Metadata::of_symlink(0))),
        }
    }

    fn set_len(&self, _size: u64) -> io::Result<()> {
        Err(io::Error::from(ErrorKind::Unsupported))
    }

    fn sync_all(&self) -> io::Result<()> {
        let number = self.number_written()?;
        if self.log.faults.sync.get() {
            return Err(io::Error::from(ErrorKind::Other));
        }
        self.log.tell_of("sync", number)
    }

    fn sync_data(&self) -> io::Result<()> {
        Err(io::Error::from(ErrorKind::Unsupported))
    }

    fn set_permissions(&self, _perm: Permissions) -> io::Result<()> {
        let number = self.number_written()?;
        self.log.tell_of("permissions", number)
    }
}
