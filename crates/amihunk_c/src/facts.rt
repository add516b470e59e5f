//! A hunk of a file of either kind, and what is known of it.
ghost use Rattle.std.specs.Prelude.{◌≡◌, [], map};
ghost use Rattle.amihunk_c.specs.Facts.{load_hunk, load_site, unit_hunk, unit_site};

use crate::told::SiteTold;
use hunk_loadfile::LoadHunk;
use hunk_objects::{Definition, UnitHunk};
use hunk_words::{HunkKind, Memory, Name};
use std::marker::Model;

/// What is known of a hunk. What its kind of file does not have is empty.
#[derive(Drop)]
pub struct HunkFacts<'a> {
    pub(crate) name: &'a [u8],
    pub(crate) kind: HunkKind,
    pub(crate) memory: Memory,
    pub(crate) size: u32,
    pub(crate) stored: &'a [u8],
    pub(crate) sites: &'a [SiteTold],
    pub(crate) symbols: &'a [(Name, u32)],
    pub(crate) definitions: &'a [(Name, Definition)],
    pub(crate) references: &'a [Name],
    pub(crate) debugs: &'a [Vec<u32>],
}

impl<'a> Model for HunkFacts<'a> {
    ghost use Rattle.hunk_words.specs.DebugInfo.{lists_of};
    ghost use Rattle.amihunk_c.specs.Facts.{HunkFacts as Facts};

    ghost Value = { Facts };

    ghost view = { λ h. record {
      name = h.name.now;
      kind = h.kind;
      memory = h.memory;
      size = h.size;
      stored = h.stored.now;
      sites = h.sites.now;
      symbols = h.symbols.now;
      definitions = h.definitions.now;
      references = h.references.now;
      debugs = lists_of h.debugs.now;
    } };
}

impl<'a> HunkFacts<'a> {
    /// A hunk of a unit, with its sites.
    pub(crate) fn of_unit(hunk: &'a UnitHunk, sites: &'a [SiteTold]) -> HunkFacts<'a>
        requires { sites.now ≡ map unit_site hunk.now.sites.entries }
        ensures { result ≡ unit_hunk hunk.now }
    {
        HunkFacts {
            name: hunk.name().bytes(),
            kind: hunk.kind(),
            memory: hunk.memory(),
            size: hunk.size(),
            stored: hunk.content(),
            sites,
            symbols: hunk.symbols(),
            definitions: hunk.definitions(),
            references: hunk.references(),
            debugs: hunk.debugs(),
        }
    }

    /// A hunk of a load file, with its sites.
    pub(crate) fn of_load(hunk: &'a LoadHunk, sites: &'a [SiteTold]) -> HunkFacts<'a>
        requires { sites.now ≡ map load_site hunk.now.sites.entries }
        ensures { result ≡ load_hunk hunk.now }
    {
        HunkFacts {
            name: &[],
            kind: hunk.kind,
            memory: hunk.memory,
            size: hunk.size,
            stored: &hunk.content,
            sites,
            symbols: &hunk.symbols,
            definitions: &[],
            references: &[],
            debugs: &hunk.debugs,
        }
    }
}
