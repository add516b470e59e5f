//! The longwords of object files.

/// Its hunk refers to `foo`.
pub(crate) static REFERS: [u32; 13] = [
    0x3E7, 0, 0x3E9, 2, 0x4EB90000, 0x00004E75, //
    0x3EF, 0x81000001, 0x666F6F00, 1, 2, 0, 0x3F2,
];

/// Its hunk defines `foo` as an offset.
pub(crate) static DEFINES: [u32; 12] = [
    0x3E7, 0, 0x3E9, 2, 0x4E714E71, 0x4E754E71, //
    0x3EF, 0x01000001, 0x666F6F00, 4, 0, 0x3F2,
];

/// Its hunk defines `foo` as a number.
pub(crate) static DEFINES_NUMBER: [u32; 12] = [
    0x3E7, 0, 0x3E9, 2, 0x4E714E71, 0x4E754E71, //
    0x3EF, 0x02000001, 0x666F6F00, 0xFFFFFFFF, 0, 0x3F2,
];

/// Its first hunk has the address of its second one.
pub(crate) static ADDRESS: [u32; 14] = [
    0x3E7, 0, 0x3E9, 1, 8, 0x3EC, 1, 1, 0, 0, 0x3F2, //
    0x3EB, 4, 0x3F2,
];

/// The same with the address of a hunk that it does not have.
pub(crate) static FOREIGN: [u32; 14] = [
    0x3E7, 0, 0x3E9, 1, 8, 0x3EC, 1, 2, 0, 0, 0x3F2, //
    0x3EB, 4, 0x3F2,
];

/// A unit as an assembler writes it, with names, a symbol, and a debug block.
pub(crate) static ASSEMBLED: [u32; 32] = [
    0x3E7, 1, 0x74657374, 0x3E8, 1, 0x434F4445, //
    0x3E9, 2, 0x4EB90000, 0x00004E75, 0x3EC, 1, 1, 2, 0, //
    0x3EF, 0x01000001, 0x6D61696E, 0, 0, //
    0x3F0, 1, 0x6C6F6F70, 6, 0, 0x3F1, 1, 0x12345678, 0x3F2, //
    0x400003EB, 2, 0x3F2,
];

/// `examples/main.o`: code that calls `print`, with the address of a text in its second hunk.
pub(crate) static EXAMPLE_MAIN: [u32; 32] = [
    0x3E7, 1, 0x6D61696E, //
    0x3E9, 4, 0x41F90000, 0x00004EB9, 0, 0x4E754E71, 0x3EC, 1, 1, 2, 0, //
    0x3EF, 0x01000001, 0x6D61696E, 0, 0x81000002, 0x7072696E, 0x74000000, 1, 8, 0, 0x3F2, //
    0x3EA, 4, 0x48656C6C, 0x6F2C2041, 0x6D696761, 0x210A0000, 0x3F2,
];

/// `examples/library.o`: it defines `print`, which copies a text into chip memory.
pub(crate) static EXAMPLE_LIBRARY: [u32; 40] = [
    0x3E7, 2, 0x6C696272, 0x61727900, //
    0x3E9, 5, 0x42390000, 0x00004E75, 0x43F90000, 0x000012D8, 0x66FC4E75, //
    0x3EC, 2, 1, 2, 10, 0, //
    0x3EF, 0x01000002, 0x636C6561, 0x72000000, 0, 0x01000002, 0x7072696E, 0x74000000, 8, 0, //
    0x3F0, 1, 0x6C6F6F70, 14, 0, 0x3F1, 2, 0, 0x4C494E45, 0x3F2, //
    0x400003EB, 4, 0x3F2,
];

/// A unit without hunks.
pub(crate) static NO_HUNKS: [u32; 2] = [0x3E7, 0];

/// The load file of the first two units.
pub(crate) static LINKED: [u32; 22] = [
    0x3F3, 0, 2, 0, 1, 2, 2, //
    0x3E9, 2, 0x4EB90000, 0x00044E75, 0x3EC, 1, 1, 2, 0, 0x3F2, //
    0x3E9, 2, 0x4E714E71, 0x4E754E71, 0x3F2,
];

/// The same with relocations in 16-bit words.
pub(crate) static LINKED_SHORT: [u32; 20] = [
    0x3F3, 0, 2, 0, 1, 2, 2, //
    0x3E9, 2, 0x4EB90000, 0x00044E75, 0x3FC, 0x00010001, 0x00020000, 0x3F2, //
    0x3E9, 2, 0x4E714E71, 0x4E754E71, 0x3F2,
];

/// The load file of the assembler's unit.
pub(crate) static LINKED_ALONE: [u32; 28] = [
    0x3F3, 0, 2, 0, 1, 2, 0x40000002, //
    0x3E9, 2, 0x4EB90000, 0x00004E75, 0x3EC, 1, 1, 2, 0, //
    0x3F0, 1, 0x6C6F6F70, 6, 0, 0x3F1, 1, 0x12345678, 0x3F2, //
    0x3EB, 2, 0x3F2,
];

/// The same without symbols and debug blocks.
pub(crate) static STRIPPED: [u32; 20] = [
    0x3F3, 0, 2, 0, 1, 2, 0x40000002, //
    0x3E9, 2, 0x4EB90000, 0x00004E75, 0x3EC, 1, 1, 2, 0, 0x3F2, //
    0x3EB, 2, 0x3F2,
];

/// The same with relocations in 16-bit words.
pub(crate) static SMALLEST_ALONE: [u32; 18] = [
    0x3F3, 0, 2, 0, 1, 2, 0x40000002, //
    0x3E9, 2, 0x4EB90000, 0x00004E75, 0x3FC, 0x00010001, 0x00020000, 0x3F2, //
    0x3EB, 2, 0x3F2,
];

/// The memory of the first two units, at 00010000 and 00020000.
pub(crate) const REPORT: &str = "hunk 0 at 00010000 size 8\n00010000 4eb9000200044e75\n\
                                 hunk 1 at 00020000 size 8\n00020000 4e714e714e754e71\n";

/// The memory of the assembler's unit there.
pub(crate) const REPORT_ALONE: &str = "hunk 0 at 00010000 size 8\n00010000 4eb9000200004e75\n\
                                       hunk 1 at 00020000 size 8\n00020000 0000000000000000\n";
