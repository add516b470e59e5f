//! Files, options and a device for the tests.

use hunk_tool::LinkOptions;
use std::io;
use std::io::{ErrorKind, Read, Write};

/// A load file of one hunk.
pub static ONE_HUNK: [u8; 40] = [
    0, 0, 3, 0xF3, 0, 0, 0, 0, 0, 0, 0, 1, 0, 0, 0, 0, 0, 0, 0, 0, 0, 0, 0, 1, 0, 0, 3, 0xE9, 0, 0,
    0, 1, 0x4E, 0x75, 0x4E, 0x71, 0, 0, 3, 0xF2,
];

/// A load file of one hunk with the symbol `loop`, whose value is 2.
pub static ONE_SYMBOL: [u8; 60] = [
    0, 0, 3, 0xF3, 0, 0, 0, 0, 0, 0, 0, 1, 0, 0, 0, 0, 0, 0, 0, 0, 0, 0, 0, 1, 0, 0, 3, 0xE9, 0, 0,
    0, 1, 0x4E, 0x75, 0x4E, 0x71, 0, 0, 3, 0xF0, 0, 0, 0, 1, 0x6C, 0x6F, 0x6F, 0x70, 0, 0, 0, 2, 0,
    0, 0, 0, 0, 0, 3, 0xF2,
];

/// An object file of one unit. Its first hunk has a name, a site, a definition, a symbol and a debug
/// block.
pub static ONE_UNIT: [u8; 128] = [
    0, 0, 3, 0xE7, 0, 0, 0, 1, 0x74, 0x65, 0x73, 0x74, 0, 0, 3, 0xE8, 0, 0, 0, 1, 0x43, 0x4F, 0x44,
    0x45, 0, 0, 3, 0xE9, 0, 0, 0, 2, 0x4E, 0xB9, 0, 0, 0, 0, 0x4E, 0x75, 0, 0, 3, 0xEC, 0, 0, 0, 1,
    0, 0, 0, 1, 0, 0, 0, 2, 0, 0, 0, 0, 0, 0, 3, 0xEF, 1, 0, 0, 1, 0x6D, 0x61, 0x69, 0x6E, 0, 0, 0,
    0, 0, 0, 0, 0, 0, 0, 3, 0xF0, 0, 0, 0, 1, 0x6C, 0x6F, 0x6F, 0x70, 0, 0, 0, 6, 0, 0, 0, 0, 0, 0,
    3, 0xF1, 0, 0, 0, 1, 0x12, 0x34, 0x56, 0x78, 0, 0, 3, 0xF2, 0x40, 0, 3, 0xEB, 0, 0, 0, 2, 0, 0,
    3, 0xF2,
];

/// An object file whose only hunk calls `foo`.
pub static CALLER: [u8; 52] = [
    0, 0, 3, 0xE7, 0, 0, 0, 0, 0, 0, 3, 0xE9, 0, 0, 0, 2, 0x4E, 0xB9, 0, 0, 0, 0, 0x4E, 0x75, 0, 0,
    3, 0xEF, 0x81, 0, 0, 1, 0x66, 0x6F, 0x6F, 0, 0, 0, 0, 1, 0, 0, 0, 2, 0, 0, 0, 0, 0, 0, 3, 0xF2,
];

/// An object file whose only hunk defines `foo`.
pub static CALLEE: [u8; 48] = [
    0, 0, 3, 0xE7, 0, 0, 0, 0, 0, 0, 3, 0xE9, 0, 0, 0, 2, 0x4E, 0x71, 0x4E, 0x71, 0x4E, 0x75, 0x4E,
    0x71, 0, 0, 3, 0xEF, 1, 0, 0, 1, 0x66, 0x6F, 0x6F, 0, 0, 0, 0, 4, 0, 0, 0, 0, 0, 0, 3, 0xF2,
];

/// The load file of [`CALLER`] and [`CALLEE`].
pub static PROGRAM: [u8; 88] = [
    0, 0, 3, 0xF3, 0, 0, 0, 0, 0, 0, 0, 2, 0, 0, 0, 0, 0, 0, 0, 1, 0, 0, 0, 2, 0, 0, 0, 2, 0, 0, 3,
    0xE9, 0, 0, 0, 2, 0x4E, 0xB9, 0, 0, 0, 4, 0x4E, 0x75, 0, 0, 3, 0xEC, 0, 0, 0, 1, 0, 0, 0, 1, 0,
    0, 0, 2, 0, 0, 0, 0, 0, 0, 3, 0xF2, 0, 0, 3, 0xE9, 0, 0, 0, 2, 0x4E, 0x71, 0x4E, 0x71, 0x4E,
    0x75, 0x4E, 0x71, 0, 0, 3, 0xF2,
];

/// The same with the definition of `foo` as a symbol.
pub static WITH_GLOBALS: [u8; 108] = [
    0, 0, 3, 0xF3, 0, 0, 0, 0, 0, 0, 0, 2, 0, 0, 0, 0, 0, 0, 0, 1, 0, 0, 0, 2, 0, 0, 0, 2, 0, 0, 3,
    0xE9, 0, 0, 0, 2, 0x4E, 0xB9, 0, 0, 0, 4, 0x4E, 0x75, 0, 0, 3, 0xEC, 0, 0, 0, 1, 0, 0, 0, 1, 0,
    0, 0, 2, 0, 0, 0, 0, 0, 0, 3, 0xF2, 0, 0, 3, 0xE9, 0, 0, 0, 2, 0x4E, 0x71, 0x4E, 0x71, 0x4E,
    0x75, 0x4E, 0x71, 0, 0, 3, 0xF0, 0, 0, 0, 1, 0x66, 0x6F, 0x6F, 0, 0, 0, 0, 4, 0, 0, 0, 0, 0, 0,
    3, 0xF2,
];

/// An object file whose only hunk has a symbol and defines nothing.
pub static LOOP: [u8; 44] = [
    0, 0, 3, 0xE7, 0, 0, 0, 0, 0, 0, 3, 0xE9, 0, 0, 0, 1, 0x4E, 0x75, 0x4E, 0x71, 0, 0, 3, 0xF0, 0,
    0, 0, 1, 0x6C, 0x6F, 0x6F, 0x70, 0, 0, 0, 2, 0, 0, 0, 0, 0, 0, 3, 0xF2,
];

/// An object file whose only hunk ends with two zero longwords. The first one is a site.
pub static ZEROS: [u8; 52] = [
    0, 0, 3, 0xE7, 0, 0, 0, 0, 0, 0, 3, 0xE9, 0, 0, 0, 3, 0x4E, 0x71, 0x4E, 0x75, 0, 0, 0, 0, 0, 0,
    0, 0, 0, 0, 3, 0xEC, 0, 0, 0, 1, 0, 0, 0, 0, 0, 0, 0, 4, 0, 0, 0, 0, 0, 0, 3, 0xF2,
];

/// An object file whose longword 5, after the content of a hunk, is no block type.
pub static MISTYPED: [u8; 24] = [
    0, 0, 3, 0xE7, 0, 0, 0, 0, 0, 0, 3, 0xE9, 0, 0, 0, 1, 0x4E, 0x75, 0x4E, 0x71, 0, 0, 3, 0xFF,
];

/// An object file that ends after two bytes of longword 5.
pub static UNENDED: [u8; 22] = [
    0, 0, 3, 0xE7, 0, 0, 0, 0, 0, 0, 3, 0xE9, 0, 0, 0, 1, 0x4E, 0x75, 0x4E, 0x71, 0, 0,
];

/// A load file of one hunk, and longword 10 after it.
pub static TRAILING: [u8; 44] = [
    0, 0, 3, 0xF3, 0, 0, 0, 0, 0, 0, 0, 1, 0, 0, 0, 0, 0, 0, 0, 0, 0, 0, 0, 1, 0, 0, 3, 0xE9, 0, 0,
    0, 1, 0x4E, 0x75, 0x4E, 0x71, 0, 0, 3, 0xF2, 0, 0, 0x12, 0x34,
];

/// A load file of one hunk that ends with a zero longword, and the same without it.
pub static ZERO_TAIL: [u8; 44] = [
    0, 0, 3, 0xF3, 0, 0, 0, 0, 0, 0, 0, 1, 0, 0, 0, 0, 0, 0, 0, 0, 0, 0, 0, 2, 0, 0, 3, 0xE9, 0, 0,
    0, 2, 0x4E, 0x75, 0x4E, 0x71, 0, 0, 0, 0, 0, 0, 3, 0xF2,
];

pub static TRIMMED: [u8; 40] = [
    0, 0, 3, 0xF3, 0, 0, 0, 0, 0, 0, 0, 1, 0, 0, 0, 0, 0, 0, 0, 0, 0, 0, 0, 2, 0, 0, 3, 0xE9, 0, 0,
    0, 1, 0x4E, 0x75, 0x4E, 0x71, 0, 0, 3, 0xF2,
];

/// A plain load file, with symbols and debug blocks.
pub const PLAIN: LinkOptions = LinkOptions {
    strip: false,
    short: false,
    trim: false,
};

/// A device that fails.
#[derive(Drop)]
pub struct Broken;

impl Read for Broken {
    fn read(&mut self, _buf: &mut [u8]) -> io::Result<usize> {
        Err(io::Error::from(ErrorKind::Other))
    }
}

impl Write for Broken {
    fn write(&mut self, _buf: &[u8]) -> io::Result<usize> {
        Err(io::Error::from(ErrorKind::Other))
    }

    fn flush(&mut self) -> io::Result<()> {
        Ok(())
    }
}
