//! Reads a file of either kind, with what is odd about its longwords.

ghost use Rattle.std.specs.Prelude.{◌≡◌, IsTrue, OnOk, IfOk, IfErr};
ghost use Rattle.hunk_base.specs.Streams.{HasRead};
ghost use Rattle.hunk_files.specs.FileDecoder.{IsReadFault};
ghost use Rattle.hunk_lint.specs.Linted.{IsLinted, linted_file};

use crate::lints::Lints;
use crate::oddity::LongwordLint;
use hunk_files::{File, HunkFile, Watched, read_watched};
use hunk_loadfile::LoadFile;
use hunk_objects::ProgramUnit;
use hunk_words::{ReadFault, Source};
use std::alloc::{Allocator, Global};

/// What is in a file, and what is odd about its longwords, in file order.
#[derive(Drop)]
pub struct Linted<V, A: Allocator + Copy = Global> {
    /// What is in the file.
    pub value: V,
    /// What is odd about its longwords.
    pub oddities: Vec<LongwordLint, A>,
}

/// What is in a hunk file, the units of an object file or a load file, and what is odd about its longwords.
pub type LintedFile<A = Global> = File<Linted<Vec<ProgramUnit<A>, A>, A>, Linted<LoadFile<A>, A>>;

/// Reads a file to the reader's end, and returns what is in it and what is odd about its longwords.
///
/// A file is a load file if its first four bytes are there and the low 30 bits of that longword are
/// the block type 1011, `HUNK_HEADER` of `doshunks.h`. Otherwise it is read as an object file.
///
/// # Errors
///
/// - [`ReadFault::Refused`] with the first offence of the bytes read, for a file of its kind; where
///   the file ends too early only once the reader has ended.
/// - [`ReadFault::Refused`] with out of memory if an allocation failed.
/// - [`ReadFault::Device`] if a read failed.
pub fn read_linted<A: Allocator + Copy, R: Source>(
    alloc: A,
    reader: &mut R,
) -> Result<LintedFile<A>, ReadFault>
    ensures file { IfOk result
        (λ file. HasRead (R.left reader.old) (R.left reader.new) (IsLinted file)) }
    ensures ended { OnOk result (IsTrue (R.ended reader.new)) }
    ensures refused { IfErr result (IsReadFault (R.left reader.old) (R.left reader.new)
        (R.failed reader.new) (R.ended reader.new)) }
{
    let object = Lints::new(alloc);
    let load = Lints::new(alloc);
    match read_watched(alloc, reader, object, load) {
        Ok(watched) => Ok(linted_file(watched)),
        Err(fault) => Err(fault),
    }
}

/// A file that was read, with what was found odd beside its value.
fn linted_file<A: Allocator + Copy>(watched: Watched<HunkFile<A>, Lints<A>>) -> LintedFile<A>
    ensures { result ≡ linted_file watched }
{
    let oddities = watched.watcher.into_found();
    match watched.value {
        File::Object(value) => File::Object(Linted { value, oddities }),
        File::Load(value) => File::Load(Linted { value, oddities }),
    }
}
