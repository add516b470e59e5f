//! What is wrong with a file, and where; errors of reading and writing.

ghost use Rattle.std.specs.Prelude.{◌≡◌};
ghost use Rattle.hunk_base.specs.declared.fault.ReadFault.TheVariants as read_fault;

/// Why a longword is refused, or the end of the input.
///
/// Block types are those of `doshunks.h`. Which reason applies where is the table of faults;
/// docs/FORMAT.md has every row of it.
#[derive(Clone, Copy, Debug, PartialEq, Eq)]
pub enum Reason {
    /// The input ends after one to three bytes of a longword.
    PartialLongword,
    /// The input ends at a whole longword, but the file is not complete.
    UnexpectedEnd,
    /// The first longword does not begin a file of this kind.
    WrongStart,
    /// A number that is not a block type.
    UnknownType(u32),
    /// A block type that is not allowed here.
    MisplacedType(u32),
    /// A block type that is deliberately left out.
    UnsupportedBlock(u32),
    /// An external symbol type that is deliberately left out.
    UnsupportedExt(u8),
    /// Chip and fast memory are asked for together.
    BothMemoryBits,
    /// A header that names resident libraries.
    ResidentNames,
    /// A table size, first hunk or last hunk that is not allowed.
    HunkTable,
    /// The sizes of a header add up to more than 2^24 longwords, or a file has more than 2^28.
    TooLarge,
    /// A block that is longer than its hunk.
    ContentTooLong,
    /// A relocation that names a hunk that the file does not have.
    NoSuchHunk(u32),
    /// The four bytes from this byte offset do not lie in the hunk.
    SiteOutside(u32),
    /// The four bytes from this byte offset share a byte with another site of the hunk.
    SiteOverlap(u32),
    /// A symbol entry whose upper 8 bits are not 0.
    SymbolKind(u8),
    /// Something follows the last hunk of a load file.
    TrailingData,
}

/// A longword of a file that is rejected, and why.
#[derive(Clone, Copy, Debug, PartialEq, Eq)]
pub struct Fault {
    /// The index of the longword in the file, from 0.
    pub place: u64,
    /// Why it is rejected.
    pub reason: Reason,
}

/// Why bytes are rejected.
#[derive(Clone, Copy, Debug, PartialEq, Eq)]
pub enum Refusal {
    /// No file begins with these bytes, or they end too early to be one.
    Fault(Fault),
    /// An allocation failed.
    OutOfMemory,
}

/// Why a reader's bytes could not be read as a file.
#[derive(Clone, Copy, Debug, PartialEq, Eq)]
pub enum ReadFault {
    /// The bytes are rejected.
    Refused(Refusal),
    /// A read failed.
    Device,
}

impl From<Refusal> for ReadFault {
    ghost from_gives = { λ refusal fault. fault ≡ read_fault.Refused refusal };

    fn from(refusal: Refusal) -> ReadFault {
        ReadFault::Refused(refusal)
    }
}

impl From<DeviceFault> for ReadFault {
    ghost from_gives = { λ _ fault. fault ≡ read_fault.Device };

    fn from(_failure: DeviceFault) -> ReadFault {
        ReadFault::Device
    }
}

/// Why a text or a file was not written in full. The writer has taken exactly its first `written`
/// bytes.
#[derive(Clone, Copy, Debug, PartialEq, Eq)]
pub enum WriteFault {
    /// A write failed, or took no byte.
    Device { written: u64 },
    /// An allocation failed.
    OutOfMemory { written: u64 },
}

/// A read or a write of a device failed.
#[derive(Clone, Copy, Debug, PartialEq, Eq)]
pub struct DeviceFault;
