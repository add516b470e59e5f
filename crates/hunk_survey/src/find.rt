//! Finds what a file is.

ghost use Rattle.std.specs.Prelude.{◌≡◌, true, false, IfOk, Ok};
ghost use Rattle.std.specs.Str.{is_utf8};
ghost use Rattle.hunk_survey.specs.Finding.{content_of, finding_of_type, IsFound, IsOfFile};
ghost use Rattle.hunk_survey.specs.declared.finding.Finding.TheVariants as finding;

use crate::digest::normal_digest;
use crate::finding::Finding;
use hunk_objects::hunk_total;
use hunk_tool::{File, FileSystem, FileType, OpenFault, count_file, read_hunk_file};
use hunk_words::{ReadFault, Refusal, Source};
use std::alloc::{AllocError, Allocator};

/// How files are surveyed.
#[derive(Clone, Copy, Debug, PartialEq, Eq)]
pub struct FindOptions {
    /// The digest of each load file is found too.
    pub digest: bool,
    /// Pipes, sockets and devices are opened and read as well, although they may wait for another
    /// program.
    pub wait: bool,
}

/// Reads a file to the reader's end and checks it, as [`check_run`](hunk_tool::check_run) does, and
/// returns what it is; with `digest`, also the digest of a load file ([`normal_digest`]). What is wrong
/// with the file is no error here, so that a survey goes on.
///
/// Without `digest` it keeps no content: of a file it keeps the sites of one hunk, and the sizes in the
/// header of a load file. With `digest` it keeps the contents of the file, and those of its normal form.
///
/// # Errors
///
/// [`AllocError`] if an allocation failed.
pub fn survey_file<A: Allocator + Copy, R: Source>(
    alloc: A,
    reader: &mut R,
    digest: bool,
) -> Result<Finding, AllocError>
    ensures { IfOk result (IsFound digest (R.left reader.old) (R.left reader.new)
        (R.failed reader.new) (R.ended reader.new)) }
{
    if digest {
        find_with_digest(alloc, reader)
    } else {
        find_by_counting(alloc, reader)
    }
}

/// Finds what a file is, without a digest. It keeps no content.
fn find_by_counting<A: Allocator + Copy, R: Source>(
    alloc: A,
    reader: &mut R,
) -> Result<Finding, AllocError>
    ensures { IfOk result (IsFound false (R.left reader.old) (R.left reader.new)
        (R.failed reader.new) (R.ended reader.new)) }
{
    match count_file(alloc, reader) {
        Ok(File::Object(counter)) => Ok(Finding::Object {
            units: counter.units(),
            hunks: counter.hunks(),
        }),
        Ok(File::Load(counter)) => Ok(Finding::Load {
            hunks: counter.hunks(),
            digest: None,
        }),
        Err(ReadFault::Refused(Refusal::Fault(fault))) => Ok(Finding::Refused(fault)),
        Err(ReadFault::Refused(Refusal::OutOfMemory)) => Err(AllocError),
        Err(ReadFault::Device) => Ok(Finding::Unread),
    }
}

/// Finds what a file is, with the digest of a load file.
fn find_with_digest<A: Allocator + Copy, R: Source>(
    alloc: A,
    reader: &mut R,
) -> Result<Finding, AllocError>
    ensures { IfOk result (IsFound true (R.left reader.old) (R.left reader.new)
        (R.failed reader.new) (R.ended reader.new)) }
{
    match read_hunk_file(alloc, reader) {
        Ok(File::Object(units)) => Ok(Finding::Object {
            units: units.len() as u64,
            hunks: hunk_total(&units),
        }),
        Ok(File::Load(file)) => {
            let hunks = file.hunks().len() as u64;
            let digest = normal_digest(alloc, file)?;
            Ok(Finding::Load {
                hunks,
                digest: Some(digest),
            })
        }
        Err(ReadFault::Refused(Refusal::Fault(fault))) => Ok(Finding::Refused(fault)),
        Err(ReadFault::Refused(Refusal::OutOfMemory)) => Err(AllocError),
        Err(ReadFault::Device) => Ok(Finding::Unread),
    }
}

/// What is found of the file named `name`, as [`survey_file`] finds it. The file is closed again.
///
/// Bytes that are no UTF-8 are the name of no file that can be opened. A directory is told as one.
/// Where `options` say not to wait, what is neither a regular file nor a directory is not opened.
///
/// # Errors
///
/// [`AllocError`] if an allocation failed.
pub fn find_file<A: Allocator + Copy, S: FileSystem>(
    alloc: A,
    system: &S,
    name: &[u8],
    options: FindOptions,
) -> Result<Finding, AllocError>
    ensures file { IfOk result (IsOfFile options (content_of (S.content system.now) name.now)) }
    ensures no_name { is_utf8 name.now ≡ false → result ≡ Ok finding.Unopened }
{
    let Ok(name) = std::str::from_utf8(name) else {
        return Ok(Finding::Unopened);
    };
    find_named(alloc, system, name, options)
}

/// What is found of the file named `name`.
fn find_named<A: Allocator + Copy, S: FileSystem>(
    alloc: A,
    system: &S,
    name: &str,
    options: FindOptions,
) -> Result<Finding, AllocError>
    ensures { IfOk result (IsOfFile options (S.content system.now name.now)) }
{
    if let Some(finding) = finding_of_type(system.file_type(name), options.wait) {
        return Ok(finding);
    }
    match system.open(name) {
        Ok(mut file) => survey_file(alloc, &mut file, options.digest),
        Err(OpenFault::Directory) => Ok(Finding::Directory),
        Err(_) => Ok(Finding::Unopened),
    }
}

/// What is found of what stands under a name, if it is not to be opened.
fn finding_of_type(found: FileType, wait: bool) -> Option<Finding>
    ensures { result ≡ finding_of_type found wait }
{
    match found {
        FileType::Directory => Some(Finding::Directory),
        FileType::Other if !wait => Some(Finding::NotRegular),
        FileType::Regular | FileType::Other | FileType::Unknown => None,
    }
}
