//! Reads a file once more, to tell where and why it is refused.

ghost use Rattle.std.specs.Prelude.{◌≡◌, [], true, false, Ok, IfOk, IfErr, OnOk, IsTrue};
ghost use Rattle.hunk_base.specs.Streams.{HasRead};
ghost use Rattle.hunk_words.specs.declared.event.FileKind.TheVariants.{Load, Object};
ghost use Rattle.hunk_base.specs.declared.fault.Fault.{Fault};
ghost use Rattle.hunk_files.specs.Explanation.{EndsWith, IsExplained, IsUnexplained};
ghost use Rattle.hunk_files.specs.FileValue.{kind_of_bytes};
ghost use Rattle.hunk_files.specs.Follower.{StandsFor};

use crate::counters::{LoadCounter, ObjectCounter};
use crate::explanation::Explanation;
use crate::file_decoder::FileDecoder;
use crate::follower::Follower;
use hunk_words::{Feed, ReadFault, Refusal, Source, Taker, read_all};
use std::alloc::Allocator;

/// Reads an object file to its first offence, and returns what is there; `None` if it is an object
/// file.
///
/// It keeps no content: of a file it keeps the sites of one hunk.
///
/// # Errors
///
/// - [`ReadFault::Refused`] with out of memory, only if an allocation failed.
/// - [`ReadFault::Device`] only if a read failed.
pub fn explain_object<A: Allocator + Copy, R: Source>(
    alloc: A,
    reader: &mut R,
) -> Result<Option<Explanation>, ReadFault>
    ensures explained { IfOk result
        (λ given. HasRead (R.left reader.old) (R.left reader.new) (IsExplained Object given)) }
    ensures ended { IfOk result (λ given. EndsWith given (R.ended reader.new)) }
    ensures stopped { IfErr result (IsUnexplained (R.failed reader.new)) }
{
    explain_with(reader, Follower::new(ObjectCounter::new(alloc)))
}

/// Reads a load file to its first offence, and returns what is there; `None` if it is a load file.
///
/// It keeps no content: of a file it keeps the sites of one hunk, and the sizes in its header.
///
/// # Errors
///
/// Those of [`explain_object`].
pub fn explain_load<A: Allocator + Copy, R: Source>(
    alloc: A,
    reader: &mut R,
) -> Result<Option<Explanation>, ReadFault>
    ensures explained { IfOk result
        (λ given. HasRead (R.left reader.old) (R.left reader.new) (IsExplained Load given)) }
    ensures ended { IfOk result (λ given. EndsWith given (R.ended reader.new)) }
    ensures stopped { IfErr result (IsUnexplained (R.failed reader.new)) }
{
    explain_with(reader, Follower::new(LoadCounter::new(alloc)))
}

/// Reads a file of either kind to its first offence, and returns what is there; `None` if it is a file
/// of its kind.
///
/// A file is a load file if its first four bytes are there and the low 30 bits of that longword are
/// the block type 1011, `HUNK_HEADER` of `doshunks.h`. Otherwise it is read as an object file.
///
/// # Errors
///
/// Those of [`explain_object`].
pub fn explain_file<A: Allocator + Copy, R: Source>(
    alloc: A,
    reader: &mut R,
) -> Result<Option<Explanation>, ReadFault>
    ensures explained { IfOk result (λ given. HasRead (R.left reader.old) (R.left reader.new)
        (λ bytes. IsExplained (kind_of_bytes bytes) given bytes)) }
    ensures ended { IfOk result (λ given. EndsWith given (R.ended reader.new)) }
    ensures stopped { IfErr result (IsUnexplained (R.failed reader.new)) }
{
    let object = Follower::new(ObjectCounter::new(alloc));
    let load = Follower::new(LoadCounter::new(alloc));
    let mut decoder = FileDecoder::new(object, load);
    read_through(reader, &mut decoder)?;
    match decoder.finish() {
        Ok(file) => Ok(file.into_inner()),
        // A follower has no other error.
        Err(_) => Err(ReadFault::Refused(Refusal::OutOfMemory)),
    }
}

/// The same with a follower before the first byte.
fn explain_with<T: Taker, R: Source>(
    reader: &mut R,
    follower: Follower<T>,
) -> Result<Option<Explanation>, ReadFault>
    requires { StandsFor T.KIND T.stands_for follower [] }
    ensures explained { IfOk result
        (λ given. HasRead (R.left reader.old) (R.left reader.new) (IsExplained T.KIND given)) }
    ensures ended { IfOk result (λ given. EndsWith given (R.ended reader.new)) }
    ensures stopped { IfErr result (IsUnexplained (R.failed reader.new)) }
{
    let mut follower = follower;
    read_through(reader, &mut follower)?;
    Ok(follower.explanation()?)
}

/// Feeds what the reader has to a new decoder, up to the end or to a fault, which the decoder keeps.
/// Returns whether it came to the end.
fn read_through<R: Source, D: Feed>(reader: &mut R, decoder: &mut D) -> Result<bool, ReadFault>
    requires { D.stands_for decoder.old [] }
    ensures read { OnOk result
        (HasRead (R.left reader.old) (R.left reader.new) (D.stands_for decoder.new)) }
    ensures ended { result ≡ Ok true → IsTrue (R.ended reader.new) }
    ensures faulty { result ≡ Ok false → (fault : Fault) ×
        D.refused decoder.new (Refusal.Fault fault) }
    ensures stopped { IfErr result (IsUnexplained (R.failed reader.new)) }
{
    match read_all(reader, decoder) {
        Ok(()) => Ok(true),
        Err(ReadFault::Refused(Refusal::Fault(_))) => Ok(false),
        Err(stopped) => Err(stopped),
    }
}
