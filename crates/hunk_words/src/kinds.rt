//! The kinds of blocks, of hunks, of memory, of external symbols and of half longwords, and the
//! parts of a longword that determine them.

ghost use Rattle.std.specs.Prelude.{◌≡◌, ◌<◌};
ghost use Rattle.hunk_words.specs.Kinds as kinds;

use crate::doshunks::*;

/// The meaning of a block's type longword: its low 30 bits, by the block types of `doshunks.h`.
#[derive(Clone, Copy, Debug)]
pub enum BlockType {
    /// 999, which begins a program unit.
    Unit,
    /// 1000, the name of a hunk.
    Name,
    /// 1001 to 1003, which begin the content of a hunk.
    Content(HunkKind),
    /// 1004, a list of 32-bit relocations.
    Reloc,
    /// 1007, a list of external symbols.
    Ext,
    /// 1008, a list of symbols for a debugger.
    Symbol,
    /// 1009, anything for a debugger.
    Debug,
    /// 1010, which ends a hunk.
    End,
    /// 1011, which begins a load file.
    Header,
    /// 1020, a list of relocations in 16-bit words.
    Short,
    /// A block type that is deliberately left out: 1005, 1006, 1013 to 1019, 1021 or 1022.
    Unsupported,
    /// Any other number.
    Unknown,
}

/// The kind of a hunk (The AmigaDOS Manual, 3rd edition, "Amiga binary file structure").
#[derive(Clone, Copy, Debug, PartialEq, Eq)]
pub enum HunkKind {
    /// Code, block type 1001.
    Code,
    /// Data, block type 1002.
    Data,
    /// Memory that begins as zeros and has no longwords in the file, block type 1003.
    Bss,
}

/// The memory that a hunk asks for (The AmigaDOS Manual, 3rd edition, "Amiga binary file
/// structure").
#[derive(Clone, Copy, Debug, PartialEq, Eq)]
pub enum Memory {
    /// Any memory.
    Any,
    /// Memory that the custom chips can reach: bit 30 of a longword.
    Chip,
    /// Memory that only the processor can reach: bit 31 of a longword.
    Fast,
}

/// The kind of an entry of an EXT block, by the upper 8 bits of its first longword.
#[derive(Clone, Copy)]
pub enum EntryType {
    /// 1, ext_def: an offset in the hunk has a name.
    Definition,
    /// 2, ext_abs: a number has a name.
    Absolute,
    /// 129, ext_ref32: the value of a name is added to longwords of the hunk.
    Reference,
    /// Any other type, which is deliberately left out.
    Other,
}

/// One of the two 16-bit halves of a longword.
#[derive(Clone, Copy)]
pub enum Half {
    /// Bits 16 to 31, which come first in the file.
    Upper,
    /// Bits 0 to 15.
    Lower,
}

/// The low 30 bits.
pub(crate) fn low(number: u32) -> u32
    ensures { result ≡ kinds.low number }
{
    number % 0x4000_0000
}

/// The upper 2 bits, which ask for memory: bit 0 for chip, bit 1 for fast.
pub(crate) fn memory_bits(number: u32) -> u8
    ensures { result ≡ kinds.bits number }
{
    (number / 0x4000_0000) as u8
}

/// The low 24 bits, the length of the name of an external symbol.
pub(crate) fn entry_length(number: u32) -> u32
    ensures { result ≡ kinds.entry_length number }
{
    number % 0x100_0000
}

/// The upper 8 bits, the type of an external symbol.
pub(crate) fn entry_type(number: u32) -> u8
    ensures { result ≡ kinds.entry_type number }
{
    (number / 0x100_0000) as u8
}

/// The block type with this number.
#[tactic(auto, unfolding(crate::specs::Kinds::type_of))]
pub(crate) fn block_type(number: u32) -> BlockType
    ensures { result ≡ kinds.type_of number }
{
    match number {
        HUNK_UNIT => BlockType::Unit,
        HUNK_NAME => BlockType::Name,
        HUNK_CODE => BlockType::Content(HunkKind::Code),
        HUNK_DATA => BlockType::Content(HunkKind::Data),
        HUNK_BSS => BlockType::Content(HunkKind::Bss),
        HUNK_RELOC32 => BlockType::Reloc,
        HUNK_EXT => BlockType::Ext,
        HUNK_SYMBOL => BlockType::Symbol,
        HUNK_DEBUG => BlockType::Debug,
        HUNK_END => BlockType::End,
        HUNK_HEADER => BlockType::Header,
        HUNK_RELOC32SHORT => BlockType::Short,
        _ => {
            if is_unsupported(number) {
                BlockType::Unsupported
            } else {
                BlockType::Unknown
            }
        }
    }
}

impl BlockType {
    /// The type of the block that a type longword begins. The two upper bits are not part of it.
    pub fn of_longword(longword: u32) -> BlockType
        ensures { result ≡ kinds.type_of (kinds.low longword) }
    {
        block_type(low(longword))
    }
}

impl HunkKind {
    /// The kind of a hunk with a content block of this type, 1001 to 1003.
    pub fn of_block_type(number: u32) -> HunkKind
        ensures { result ≡ kinds.hunk_kind_of number }
    {
        match number {
            HUNK_CODE => HunkKind::Code,
            HUNK_DATA => HunkKind::Data,
            _ => HunkKind::Bss,
        }
    }

    /// The block type of such content.
    pub fn block_type(self) -> u32
        ensures { result ≡ kinds.hunk_kind_number self }
    {
        match self {
            HunkKind::Code => HUNK_CODE,
            HunkKind::Data => HUNK_DATA,
            HunkKind::Bss => HUNK_BSS,
        }
    }
}

impl Memory {
    /// What the two memory bits ask for: bit 0 for chip, bit 1 for fast. Both together are rejected
    /// in every file.
    pub fn of_bits(bits: u8) -> Memory
        ensures { result ≡ kinds.memory_of bits }
    {
        match bits {
            0 => Memory::Any,
            1 => Memory::Chip,
            _ => Memory::Fast,
        }
    }
}

/// The kind of an external symbol, by its first longword.
#[tactic(auto, unfolding(crate::specs::Kinds::entry_of))]
pub(crate) fn entry(number: u32) -> EntryType
    ensures { result ≡ kinds.entry_of number }
{
    match entry_type(number) {
        EXT_DEF => EntryType::Definition,
        EXT_ABS => EntryType::Absolute,
        EXT_REF32 => EntryType::Reference,
        _ => EntryType::Other,
    }
}

/// Whether a block type is deliberately left out.
pub(crate) fn is_unsupported(number: u32) -> bool
    ensures { result ≡ kinds.is_unsupported number }
{
    matches!(
        number,
        HUNK_RELOC16 | HUNK_RELOC8 | HUNK_OVERLAY..=HUNK_INDEX | HUNK_RELRELOC32 | HUNK_ABSRELOC16
    )
}
