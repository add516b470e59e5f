//! A load file, made of hunks.
ghost use Rattle.std.specs.Prelude.{◌≡◌, IfOk, IfErr};
ghost use Rattle.hunk_loadfile.specs.NormalForm.{normal_form};
ghost use Rattle.hunk_loadfile.specs.Rules.{IsLoadFile, build_fault};
ghost use Rattle.hunk_loadfile.specs.Stripping.{stripped};
ghost use Rattle.hunk_loadfile.specs.Trimming.{trimmed};

use crate::load_hunk::LoadHunk;
use crate::normal_form::normalize;
use crate::rules::{BuildRefusal, build_fault};
use crate::stripping::strip;
use crate::trimming::trim;
use std::alloc::{Allocator, Global};
use std::marker::Model;

/// A load file: its hunks in order.
///
/// It is made by [`LoadFile::new`], or by reading one with [`LoadDecoder`](crate::LoadDecoder) or
/// [`read_load`](crate::read_load).
#[derive(Debug, Drop)]
pub struct LoadFile<A: Allocator + Copy = Global> {
    hunks: Vec<LoadHunk<A>, A>,
}

impl<A: Allocator + Copy> Model for LoadFile<A> {
    ghost use Rattle.std.specs.Prelude.{List};
    ghost use Rattle.hunk_loadfile.specs.LoadHunk.{FileHunk};
    ghost use Rattle.hunk_loadfile.specs.Rules.{IsLoadFile};

    ghost Value = { List FileHunk };

    ghost view = { λ f. f.hunks.items };

    ghost invariant = { λ f. IsLoadFile f.hunks.items };
}

impl<A: Allocator + Copy> LoadFile<A> {
    /// The load file of these hunks, which are handed back if they do not make one. Does not
    /// allocate.
    ///
    /// # Errors
    ///
    /// The first [`BuildFault`](crate::BuildFault) in the order of its list, with the hunks as they
    /// were passed in.
    pub fn new(hunks: Vec<LoadHunk<A>, A>) -> Result<Self, BuildRefusal<A>>
        ensures accepted { IfOk result
            (λ file. (build_fault hunks.items ≡ None) × (file ≡ hunks.items)) }
        ensures refused { IfErr result
            (λ r. (build_fault hunks.items ≡ Some r.fault) × (r.hunks.items ≡ hunks.items)) }
    {
        match build_fault(&hunks) {
            None => Ok(LoadFile { hunks }),
            Some(fault) => Err(BuildRefusal { fault, hunks }),
        }
    }

    /// The load file of hunks that are known to make one. Does not allocate.
    pub(crate) fn of_hunks(hunks: Vec<LoadHunk<A>, A>) -> Self
        requires { IsLoadFile hunks.items }
        ensures { result ≡ hunks.items }
    {
        LoadFile { hunks }
    }

    /// The hunks, in order.
    pub fn hunks(&self) -> &[LoadHunk<A>]
        ensures value { result.now ≡ self.now }
        ensures valid { IsLoadFile self.now }
    {
        &self.hunks
    }

    /// The hunks, in order, moved out of the file. Does not allocate.
    pub fn into_hunks(self) -> Vec<LoadHunk<A>, A>
        ensures value { result.items ≡ self }
        ensures valid { IsLoadFile self }
    {
        self.hunks
    }

    /// The file with the zero longwords at the end of each content cut off. A longword with a byte of
    /// a site stays, and so do all longwords before it. The sizes of the hunks stay, so memory is the
    /// same. Does not allocate.
    pub fn trimmed(self) -> Self
        ensures { result ≡ trimmed self }
    {
        let mut hunks = self.into_hunks();
        trim(&mut hunks);
        Self::of_hunks(hunks)
    }
    /// The file without its symbols and debug blocks, which only debuggers read: memory is the same.
    /// Does not allocate.
    pub fn stripped(self) -> Self
        ensures { result ≡ stripped self }
    {
        let mut hunks = self.into_hunks();
        strip(&mut hunks);
        Self::of_hunks(hunks)
    }

    /// The normal form of the file: it has no symbols and no debug blocks, and each content ends with
    /// its last longword that is not 0, whether or not there are sites after it. Memory is the same, and
    /// two files that mean the same have one normal form. Does not allocate.
    pub fn normal_form(self) -> Self
        ensures { result ≡ normal_form self }
    {
        let mut hunks = self.into_hunks();
        normalize(&mut hunks);
        Self::of_hunks(hunks)
    }
}
