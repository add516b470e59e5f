//! The events of a file's longwords, in order.

/// One of the two kinds of file.
#[derive(Clone, Copy, Debug, PartialEq, Eq)]
pub enum FileKind {
    /// Program units, as an assembler writes them.
    Object,
    /// The hunks of one program, as a linker writes them.
    Load,
}

/// The meaning of one longword of a file, or of one half of a longword in a list of 16-bit
/// relocations. Longwords without a meaning of their own have no event.
///
/// Block types and layouts are those of The AmigaDOS Manual, 3rd edition, "Amiga binary file
/// structure".
#[derive(Clone, Copy)]
pub enum Event {
    /// A program unit begins (object files only). The words of its name follow.
    Unit,
    /// The number of hunks, 1 to 65,535 (load files only).
    Table(u32),
    /// The size of the next hunk of the header, in longwords, and its memory: bit 0 is chip, bit 1
    /// is fast (load files only).
    HunkSize { bits: u8, size: u32 },
    /// A hunk begins, with a name. Its words follow.
    HunkName,
    /// A content block of type 1001 to 1003 and of this size in longwords. The hunk begins here, or
    /// with its name if it has one. In an object file the bits are its memory, as in a header; in a
    /// load file they are 0. The words of CODE and DATA follow.
    Content { kind: u32, bits: u8, size: u32 },
    /// A longword of a name, of content or of a debug block.
    Word(u32),
    /// The base of hunk `target` is added at this byte offset.
    Site { offset: u32, target: u32 },
    /// An external symbol of this type begins (object files only). The words of its name follow.
    Entry(u8),
    /// The number of offsets that refer to the external symbol.
    Count(u32),
    /// The value of the external symbol is added at this byte offset.
    RefSite(u32),
    /// A symbol begins. The words of its name follow.
    Symbol,
    /// The offset or value of the external symbol, or the value of the symbol.
    Value(u32),
    /// A debug block of this many longwords. They follow as words.
    Debug(u32),
    /// The hunk ends.
    HunkEnd,
}
