//! Object files whose units do not link, in longwords.

/// Unit `one`, of code named `text` that refers to `go` and `run` and defines `main`; and unit `two`,
/// of chip memory without a name and of data named `d` that refers to `go`.
pub const ONE: [u32; 39] = [
    0x3E7,
    1,
    0x6F6E_6500,
    0x3E8,
    1,
    0x7465_7874,
    0x3E9,
    2,
    0,
    0,
    0x3EF,
    0x8100_0001,
    0x676F_0000,
    1,
    0,
    0x8100_0001,
    0x7275_6E00,
    1,
    4,
    0x0100_0001,
    0x6D61_696E,
    0,
    0,
    0x3F2,
    0x3E7,
    1,
    0x7477_6F00,
    0x4000_03EB,
    1,
    0x3F2,
    0x3EA,
    1,
    0,
    0x3EF,
    0x8100_0001,
    0x676F_0000,
    1,
    0,
    0,
];

/// The end of a hunk.
pub const END: [u8; 4] = [0, 0, 0x03, 0xF2];

/// A unit without a name, of data named `q"` that refers to `run` and `main`, and defines `go`.
pub const OTHER: [u32; 22] = [
    0x3E7,
    0,
    0x3E8,
    1,
    0x7122_0000,
    0x3EA,
    2,
    0,
    0,
    0x3EF,
    0x8100_0001,
    0x7275_6E00,
    1,
    0,
    0x8100_0001,
    0x6D61_696E,
    1,
    4,
    0x0100_0001,
    0x676F_0000,
    8,
    0,
];

/// Unit `dup`, of code that defines `run`, `go` and `main`.
pub const AGAIN: [u32; 16] = [
    0x3E7,
    1,
    0x6475_7000,
    0x3E9,
    0,
    0x3EF,
    0x0100_0001,
    0x7275_6E00,
    0,
    0x0100_0001,
    0x676F_0000,
    0,
    0x0200_0001,
    0x6D61_696E,
    7,
    0,
];

/// Unit `far`, of memory, and of data that adds the base of a hunk with the number 5.
pub const FAR: [u32; 14] = [
    0x3E7,
    1,
    0x6661_7200,
    0x3EB,
    1,
    0x3F2,
    0x3EA,
    1,
    0,
    0x3EC,
    1,
    5,
    0,
    0,
];

/// A unit without hunks. It needs no end, and so ends with its name, which is longer than it need be.
pub const NONE: [u32; 3] = [0x3E7, 2, 0x6E6F_6E65];

/// A unit without hunks; and one of memory, and of data that refers to `go`.
pub const LATER: [u32; 16] = [
    0x3E7,
    0,
    0x3E7,
    0,
    0x3EB,
    1,
    0x3F2,
    0x3EA,
    1,
    0,
    0x3EF,
    0x8100_0001,
    0x676F_0000,
    1,
    0,
    0,
];
