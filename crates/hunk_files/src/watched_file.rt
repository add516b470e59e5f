//! Reads a file of either kind, and shows its longwords to a watcher.

ghost use Rattle.std.specs.Prelude.{◌≡◌, [], IsTrue, OnOk, IfOk, IfErr};
ghost use Rattle.hunk_base.specs.Streams.{HasRead};
ghost use Rattle.hunk_files.specs.FileDecoder.{IsReadFault};
ghost use Rattle.hunk_files.specs.WatchedFile.{IsWatchedFile, watched_file};
ghost use Rattle.hunk_words.specs.declared.event.FileKind.TheVariants.{Object, Load};

use crate::file_decoder::{File, read_file};
use crate::hunk_file::HunkFile;
use crate::watched_decoder::WatchedDecoder;
use crate::watcher::{Watched, Watcher};
use hunk_loadfile::LoadBuilder;
use hunk_objects::UnitBuilder;
use hunk_words::{Builder, ReadFault, Source};
use std::alloc::Allocator;

/// Reads a file to the reader's end, and returns what is in it, and the watcher that was shown its
/// longwords: the first one if it is an object file, the second one if it is a load file. Both are new.
///
/// It is read as [`read_hunk_file`](crate::read_hunk_file) reads it.
///
/// # Errors
///
/// - [`ReadFault::Refused`] with the first offence of the bytes read, for a file of its kind; where
///   the file ends too early only once the reader has ended.
/// - [`ReadFault::Refused`] with out of memory if an allocation failed.
/// - [`ReadFault::Device`] if a read failed.
pub fn read_watched<A: Allocator + Copy, R: Source, W: Watcher>(
    alloc: A,
    reader: &mut R,
    object: W,
    load: W,
) -> Result<Watched<HunkFile<A>, W>, ReadFault>
    requires object { W.stands_for Object object [] }
    requires load { W.stands_for Load load [] }
    ensures file { IfOk result (λ watched. HasRead (R.left reader.old) (R.left reader.new)
        (IsWatchedFile W.stands_for watched)) }
    ensures ended { OnOk result (IsTrue (R.ended reader.new)) }
    ensures refused { IfErr result (IsReadFault (R.left reader.old) (R.left reader.new)
        (R.failed reader.new) (R.ended reader.new)) }
{
    let units: UnitBuilder<A> = UnitBuilder::new(alloc);
    let hunks: LoadBuilder<A> = LoadBuilder::new(alloc);
    let object = WatchedDecoder::new(object, units);
    let load = WatchedDecoder::new(load, hunks);
    match read_file(reader, object, load) {
        Ok(file) => Ok(watched_file(file)),
        Err(fault) => Err(fault),
    }
}

/// The same file, with the watcher beside it.
fn watched_file<O, L, W>(file: File<Watched<O, W>, Watched<L, W>>) -> Watched<File<O, L>, W>
    ensures { result ≡ watched_file file }
{
    match file {
        File::Object(watched) => Watched {
            value: File::Object(watched.value),
            watcher: watched.watcher,
        },
        File::Load(watched) => Watched {
            value: File::Load(watched.value),
            watcher: watched.watcher,
        },
    }
}
