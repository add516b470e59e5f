//! How object files are linked, and how their load file is written.
ghost use Rattle.std.specs.Prelude.{◌≡◌};
ghost use Rattle.hunk_tool.specs.LinkOptions.{form_of, trimmed_if};

use hunk_loadfile::{LoadFile, LoadForm};
use std::alloc::Allocator;

/// How object files are linked, and how their load file is written. Whatever the choice, the file is
/// the same in memory.
#[derive(Clone, Copy, Debug, PartialEq, Eq)]
pub struct LinkOptions {
    /// Whether symbols and debug blocks are left out.
    pub strip: bool,
    /// Whether the load file is written in its short form ([`LoadForm::Short`]).
    pub short: bool,
    /// Whether the load file is trimmed ([`LoadFile::trimmed`]).
    pub trim: bool,
}

impl LinkOptions {
    /// The form in which the load file is written.
    pub fn form(self) -> LoadForm
        ensures { result ≡ form_of self }
    {
        if self.short {
            LoadForm::Short
        } else {
            LoadForm::Plain
        }
    }

    /// The load file, trimmed if that was asked for. It does not allocate.
    pub fn trimmed<A: Allocator + Copy>(self, file: LoadFile<A>) -> LoadFile<A>
        ensures { result ≡ trimmed_if self.trim file }
    {
        if self.trim { file.trimmed() } else { file }
    }
}
