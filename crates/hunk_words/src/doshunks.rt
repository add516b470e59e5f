//! The numbers of block types and of external symbols, as `doshunks.h` names them.

/// Begins a program unit.
pub const HUNK_UNIT: u32 = 999;
/// The name of a hunk.
pub const HUNK_NAME: u32 = 1000;
/// Code.
pub const HUNK_CODE: u32 = 1001;
/// Data.
pub const HUNK_DATA: u32 = 1002;
/// Memory that begins as zeros.
pub const HUNK_BSS: u32 = 1003;
/// A list of 32-bit relocations.
pub const HUNK_RELOC32: u32 = 1004;
/// A list of 16-bit relocations.
pub const HUNK_RELOC16: u32 = 1005;
/// A list of 8-bit relocations.
pub const HUNK_RELOC8: u32 = 1006;
/// A list of external symbols.
pub const HUNK_EXT: u32 = 1007;
/// A list of symbols for a debugger.
pub const HUNK_SYMBOL: u32 = 1008;
/// Anything for a debugger.
pub const HUNK_DEBUG: u32 = 1009;
/// Ends a hunk.
pub const HUNK_END: u32 = 1010;
/// Begins a load file.
pub const HUNK_HEADER: u32 = 1011;
/// An overlay table: the first of the types 1013 to 1019, none of which is supported.
pub const HUNK_OVERLAY: u32 = 1013;
/// The index of a library: the last of these types.
pub const HUNK_INDEX: u32 = 1019;
/// A list of 32-bit relocations in 16-bit words.
pub const HUNK_RELOC32SHORT: u32 = 1020;
/// A list of relocations relative to their own position.
pub const HUNK_RELRELOC32: u32 = 1021;
/// A list of 16-bit absolute relocations.
pub const HUNK_ABSRELOC16: u32 = 1022;

/// An offset in the hunk has a name.
pub const EXT_DEF: u8 = 1;
/// A number has a name.
pub const EXT_ABS: u8 = 2;
/// The value of a name is added to longwords of the hunk.
pub const EXT_REF32: u8 = 129;
