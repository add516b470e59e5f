//! How wide the numbers of a relocation block are.
ghost use Rattle.std.specs.Prelude.{◌≡◌};
ghost use Rattle.hunk_loadfile.specs.NumberWidth.{block_type, width_bytes};

use hunk_words::doshunks::{HUNK_RELOC32, HUNK_RELOC32SHORT};

/// The width of the numbers of a relocation block.
#[derive(Clone, Copy)]
pub(crate) enum NumberWidth {
    /// 16 bits, in a short relocation block.
    Word,
    /// 32 bits.
    Longword,
}

impl NumberWidth {
    /// The number of bytes of a number.
    pub(crate) fn bytes(self) -> usize
        ensures { result ≡ width_bytes self }
    {
        match self {
            NumberWidth::Word => 2,
            NumberWidth::Longword => 4,
        }
    }

    /// The type of the block.
    pub(crate) fn block_type(self) -> u32
        ensures { result ≡ block_type self }
    {
        match self {
            NumberWidth::Word => HUNK_RELOC32SHORT,
            NumberWidth::Longword => HUNK_RELOC32,
        }
    }
}
