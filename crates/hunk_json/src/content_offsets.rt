//! Where the contents of the hunks of a file stand in it.

ghost use Rattle.std.specs.Prelude.{◌≡◌, [], IsTrue, OnOk, IfOk, IfErr};
ghost use Rattle.hunk_base.specs.Streams.{HasRead};
ghost use Rattle.hunk_files.specs.FileDecoder.{IsReadFault};
ghost use Rattle.hunk_files.specs.Watched.{is_content_size};
ghost use Rattle.hunk_json.specs.ContentOffsets.{IsOffsetsOf, IsPlaced};

use crate::form::JsonForm;
use hunk_files::{HunkFile, Watched, Watcher, read_hunk_file, read_watched};
use hunk_words::{Due, FileKind, ReadFault, Source};
use std::alloc::{AllocError, Allocator};

/// How many bytes a longword has.
const LONGWORD: u32 = 4;

/// The offsets at which the contents of the hunks of a file begin, as far as its longwords came.
#[derive(Drop)]
pub(crate) struct ContentOffsets<A: Allocator> {
    /// How many bytes the longwords have.
    end: u32,
    /// The offset just after each size of content, in file order.
    found: Vec<u32, A>,
}

impl<A: Allocator> ContentOffsets<A> {
    /// Before the first longword. Does not allocate.
    pub(crate) fn new(alloc: A) -> Self
        ensures { IsOffsetsOf result [] }
    {
        ContentOffsets {
            end: 0,
            found: Vec::new(alloc),
        }
    }

    /// The offsets, in file order.
    pub(crate) fn as_slice(&self) -> &[u32]
        ensures { result.now ≡ self.now.found.items }
    {
        &self.found
    }
}

impl<A: Allocator> Watcher for ContentOffsets<A> {
    ghost stands_for = { λ kind offsets before. IsOffsetsOf offsets before };

    fn take(&mut self, kind: FileKind, due: Due, word: u32) -> Result<(), AllocError> {
        self.end = self.end.saturating_add(LONGWORD);
        if is_content_size(due) {
            self.found.push(self.end)?;
        }
        Ok(())
    }
}

/// Whether the size of a hunk's content is due.
fn is_content_size(due: Due) -> bool
    ensures { result ≡ is_content_size due }
{
    match due {
        Due::ContentSize => true,
        _ => false,
    }
}

/// What is in a file, and the offsets that a document tells of it.
pub(crate) type PlacedFile<A> = Watched<HunkFile<A>, ContentOffsets<A>>;

/// Reads a file as [`read_hunk_file`] does, with the offsets that a document in this form tells. None
/// are looked for where it tells none.
///
/// # Errors
///
/// Those of [`read_hunk_file`].
pub(crate) fn read_placed<A: Allocator + Copy, R: Source>(
    alloc: A,
    reader: &mut R,
    form: JsonForm,
) -> Result<PlacedFile<A>, ReadFault>
    ensures file { IfOk result
        (λ file. HasRead (R.left reader.old) (R.left reader.new) (IsPlaced form file)) }
    ensures ended { OnOk result (IsTrue (R.ended reader.new)) }
    ensures refused { IfErr result (IsReadFault (R.left reader.old) (R.left reader.new)
        (R.failed reader.new) (R.ended reader.new)) }
{
    match form {
        JsonForm::Plain => match read_hunk_file(alloc, reader) {
            Ok(value) => Ok(Watched {
                value,
                watcher: ContentOffsets::new(alloc),
            }),
            Err(fault) => Err(fault),
        },
        JsonForm::WithContent | JsonForm::InPage => {
            let object = ContentOffsets::new(alloc);
            let load = ContentOffsets::new(alloc);
            read_watched(alloc, reader, object, load)
        }
    }
}
