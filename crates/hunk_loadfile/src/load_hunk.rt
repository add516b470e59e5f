//! A hunk of a load file.

ghost use Rattle.std.specs.Prelude.{◌≡◌, ◌≤◌, ◌*◌, ◌%◌, length};

use hunk_words::{HunkKind, Memory, Name, Sites};
use std::alloc::{Allocator, Global};
use std::marker::Model;

/// A hunk of a load file (The AmigaDOS Manual, 3rd edition, "Amiga binary file structure").
///
/// Contracts see it as the record of its fields, with lists of bytes, of longwords and of symbols.
#[derive(Debug, Drop)]
pub struct LoadHunk<A: Allocator + Copy = Global> {
    /// What the hunk holds.
    pub kind: HunkKind,
    /// Which memory it asks for.
    pub memory: Memory,
    /// Its size in longwords, in memory.
    pub size: u32,
    /// The bytes that the file has for it; after them the hunk is zeros up to its size.
    pub content: Vec<u8, A>,
    /// The offsets, in bytes, of the longwords to which the base of a hunk is added, each with the
    /// number of that hunk, from 0.
    pub sites: Sites<u32, A>,
    /// The symbols for a debugger, each a name and a value, in file order.
    pub symbols: Vec<(Name<A>, u32), A>,
    /// The debug blocks, each a list of longwords, in file order.
    pub debugs: Vec<Vec<u32, A>, A>,
}

impl<A: Allocator + Copy> Model for LoadHunk<A> {
    ghost use Rattle.hunk_words.specs.DebugInfo.{lists_of};
    ghost use Rattle.hunk_loadfile.specs.LoadHunk.{FileHunk};

    ghost Value = { FileHunk };

    ghost view = { λ h.
        record {
          kind = h.kind;
          memory = h.memory;
          size = h.size;
          content = h.content.items;
          sites = h.sites;
          symbols = h.symbols.items;
          debugs = lists_of h.debugs.items;
        } };
}

impl<A: Allocator + Copy> LoadHunk<A> {
    /// The number of longwords that the file has for the hunk: those of its content.
    pub fn stored(&self) -> u32
        requires whole { length self.now.content % 4 ≡ 0 }
        requires within { length self.now.content ≤ 4 * self.now.size }
        ensures { 4 * result ≡ length self.now.content }
    {
        let (size, stored) = (self.size as usize, self.content.len() / 4);
        prove!(stored <= size);
        stored as u32
    }
}
