//! The forms in which a load file is written.
ghost use Rattle.std.specs.Prelude.{◌≡◌};
ghost use Rattle.hunk_loadfile.specs.LoadForm.{is_short};

/// The form in which a load file is written. Both are read back as the same file.
#[derive(Clone, Copy, Debug, PartialEq, Eq)]
pub enum LoadForm {
    /// Every relocation is in the relocation block of its hunk, block type 1004, with 32-bit
    /// numbers.
    Plain,
    /// The relocations at offsets of at most 65,535 bytes are in a short relocation block before
    /// it, block type 1020 (`HUNK_RELOC32SHORT` of `doshunks.h`), with 16-bit numbers.
    Short,
}

impl LoadForm {
    /// The lowest offset that 16 bits cannot hold, in bytes.
    const FIRST_LONG: u32 = 1 << 16;

    /// Whether a site at this offset is in the short relocation block.
    pub(crate) fn is_short(self, offset: u32) -> bool
        ensures { result ≡ is_short self offset }
    {
        self == LoadForm::Short && offset < LoadForm::FIRST_LONG
    }
}
