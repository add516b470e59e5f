//! The files that the tests' file system has from the start, and the names that cannot be opened.

use crate::samples::{
    CALLEE, CALLER, LOOP, MISTYPED, ONE_HUNK, ONE_SYMBOL, PROGRAM, TRAILING, TRIMMED, UNENDED,
    ZERO_TAIL, ZEROS,
};
use std::fs::Metadata;
use std::io;
use std::io::ErrorKind;

/// What a file is.
#[derive(Clone, Copy, Debug, PartialEq, Eq)]
pub enum Kind {
    /// A regular file.
    Regular,
    /// A pipe, of which there is no metadata.
    Pipe,
    /// A pipe, which the system tells as what is neither a regular file nor a directory.
    NamedPipe,
    /// A directory: it can be opened, but neither read nor written.
    Directory,
    /// A device that takes no byte.
    Full,
    /// A device that takes no byte at the first write, and every byte after that.
    FullAtFirst,
}

/// The file with this name, once so many files have been opened: what it is, and its bytes.
pub fn find(name: &str, opened: usize) -> Option<(Kind, &'static [u8])> {
    match name {
        "caller" => Some((Kind::Regular, &CALLER)),
        "callee" | "folder/callee" => Some((Kind::Regular, &CALLEE)),
        "loop" => Some((Kind::Regular, &LOOP)),
        "zeros" => Some((Kind::Regular, &ZEROS)),
        "program" => Some((Kind::Regular, &PROGRAM)),
        "one-hunk" => Some((Kind::Regular, &ONE_HUNK)),
        "one-symbol" => Some((Kind::Regular, &ONE_SYMBOL)),
        "zero-tail" => Some((Kind::Regular, &ZERO_TAIL)),
        "trimmed" => Some((Kind::Regular, &TRIMMED)),
        "addresses" => Some((Kind::Regular, b"10000, 20000\r\n")),
        "mistyped" => Some((Kind::Regular, &MISTYPED)),
        "unended" => Some((Kind::Regular, &UNENDED)),
        "trailing" => Some((Kind::Regular, &TRAILING)),
        "mistyped-pipe" => Some((Kind::Pipe, &MISTYPED)),
        "addresses-pipe" => Some((Kind::Pipe, b"10000\n")),
        // These change once a file has been opened.
        "changed" if opened == 0 => Some((Kind::Regular, &MISTYPED)),
        "changed" => Some((Kind::Regular, &UNENDED)),
        "mended" if opened == 0 => Some((Kind::Regular, &MISTYPED)),
        "mended" => Some((Kind::Regular, &CALLEE)),
        "bad-addresses" => Some((Kind::Regular, b",10000 ,\r\n\r\n0x20,30000\n")),
        "pipe" => Some((Kind::Pipe, &LOOP)),
        "named-pipe" => Some((Kind::NamedPipe, &LOOP)),
        "names" => Some((Kind::Regular, b"\0caller\0\0x\0caller\xFF\0callee")),
        "lines" => Some((Kind::Regular, b"caller\n\ncallee\n")),
        "one-name" => Some((Kind::Regular, b"callee")),
        "no-names" => Some((Kind::Regular, b"\0\0")),
        "directory" | "folder" | "crowded" => Some((Kind::Directory, &[])),
        "full" => Some((Kind::Full, &[])),
        "full-at-first" => Some((Kind::FullAtFirst, &[])),
        // The first names for a new file are taken in this directory.
        "crowded/.amihunk-0" | "crowded/.amihunk-1" => Some((Kind::Regular, b"taken")),
        _ => None,
    }
}

/// The name that a symbolic link with this name leads to.
pub fn link_at(name: &str) -> Option<&'static str> {
    match name {
        "alias" => Some("folder/callee"),
        "dangling" => Some("folder/new"),
        _ => None,
    }
}

/// Why a file with this name cannot be opened, whatever for.
pub fn fault_at(name: &str) -> Option<io::Error> {
    let kind = match name {
        "not-allowed" => ErrorKind::PermissionDenied,
        "caller/x" => ErrorKind::NotADirectory,
        "looped" => ErrorKind::FilesystemLoop,
        "read-only" => ErrorKind::ReadOnlyFilesystem,
        "unknown" => ErrorKind::Other,
        "too-many" => return Some(io::Error::from_raw_os_error(24)),
        "too-many-of-all" => return Some(io::Error::from_raw_os_error(23)),
        "broken" => return Some(io::Error::from_raw_os_error(5)),
        _ => return None,
    };
    Some(io::Error::from(kind))
}

/// What the system tells of a file.
pub fn metadata_of(kind: Kind) -> io::Result<Metadata> {
    match kind {
        Kind::Pipe | Kind::Full | Kind::FullAtFirst => {
            Err(io::Error::from(ErrorKind::Unsupported))
        }
        Kind::NamedPipe => Ok(Metadata::of_symlink(0)),
        Kind::Directory => Ok(Metadata::of_dir()),
        Kind::Regular => Ok(Metadata::of_file(0)),
    }
}
