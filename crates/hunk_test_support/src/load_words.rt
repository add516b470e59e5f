//! The longwords of further load files.

/// Two longwords of code, the address of the third hunk, and four longwords of zeros.
pub const THREE_HUNKS: [u32; 25] = [
    0x3F3, 0, 3, 0, 2, 2, 1, 4, //
    0x3E9, 2, 0x4E714E71, 0x4E754E71, 0x3F2, //
    0x3E9, 1, 8, 0x3EC, 1, 2, 0, 0, 0x3F2, //
    0x3EB, 4, 0x3F2,
];

/// Zeros alone.
pub const ZEROS: [u32; 9] = [0x3F3, 0, 1, 0, 0, 5, 0x3EB, 5, 0x3F2];

/// The load file of the examples with two hunks: code with relocations in longwords and in 16-bit
/// words, symbols and a debug block; and data in chip memory that is longer than its content.
pub const TWO_HUNKS: [u32; 40] = [
    0x3F3, 0, 2, 0, 1, 4, 0x40000002, //
    0x3E9, 4, 0x207C0000, 0x00004EB9, 0x0000000E, 0x4E754E75, //
    0x3EC, 1, 1, 2, 0, //
    0x3FC, 0x00010000, 0x00080000, //
    0x3F0, 1, 0x6D61696E, 0, 1, 0x73756200, 0x0E, 0, //
    0x3F1, 2, 0x6C696E65, 0x00010002, 0x3F2, //
    0x3EA, 1, 0x68756E6B, 0x3F1, 0, 0x3F2,
];

/// One hunk whose relocations take an even number of 16-bit words: one site.
pub const EVEN_WORDS: [u32; 14] = [
    0x3F3, 0, 1, 0, 0, 2, 0x3E9, 2, 4, 0, 0x3FC, 0x00010000, 0x00040000, 0x3F2,
];

/// The same with no site.
pub const NO_WORDS: [u32; 13] = [0x3F3, 0, 1, 0, 0, 2, 0x3E9, 2, 4, 0, 0x3FC, 0, 0x3F2];
