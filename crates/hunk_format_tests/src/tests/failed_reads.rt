//! Reads of object files and load files that fail.

use super::asserts::equals_at;
use hunk_loadfile::read_load;
use hunk_objects::read_object;
use hunk_test_support::words::REFERS;
use hunk_test_support::{FILE, bytes_of};
use hunk_words::{FileKind, Pieces, ReadFault, Source};
use std::alloc::Global;
use std::process::Abort;
use std::test::Fail;

/// Reads a file of this kind, at most `chunk` bytes per read. The read with this number fails, if it
/// comes.
fn fails_to_read(
    rt: &impl Abort,
    alloc: Global,
    kind: FileKind,
    chunk: usize,
    number: u64,
    fails: bool,
) -> Result<(), Fail> {
    assert!(rt; 1 <= chunk);
    let bytes = match kind {
        FileKind::Load => bytes_of(alloc, &FILE, &[])?,
        FileKind::Object => bytes_of(alloc, &REFERS, &[])?,
    };
    let mut reader = Pieces::new(bytes, chunk, Some(number));
    let fault = match kind {
        FileKind::Load => read_load(alloc, &mut reader).err(),
        FileKind::Object => read_object(alloc, &mut reader).err(),
    };
    let got = (fault, Source::failed(&reader), Source::ended(&reader));
    let wanted = (fails.then_some(ReadFault::Device), fails, !fails);
    equals_at(rt, &("read", number, "of", chunk), got, wanted);
    Ok(())
}

/// Each read fails in turn, including the one that would report the end. Each row has the most bytes
/// of a read, and how many reads there are.
fn each_read_fails(
    rt: &impl Abort,
    alloc: Global,
    kind: FileKind,
    rows: &[(usize, u64)],
) -> Result<(), Fail> {
    for &(chunk, reads) in rows {
        for number in 0..=reads {
            fails_to_read(rt, alloc, kind, chunk, number, number < reads)?;
        }
    }
    Ok(())
}

#[test]
fn tells_a_read_of_a_load_file_that_failed(rt: HostRuntime) -> Result<(), Fail> {
    each_read_fails(
        &rt,
        rt.alloc(),
        FileKind::Load,
        &[(64, 2), (1, 41), (3, 15), (5, 9)],
    )
}

#[test]
fn tells_a_read_of_an_object_file_that_failed(rt: HostRuntime) -> Result<(), Fail> {
    each_read_fails(
        &rt,
        rt.alloc(),
        FileKind::Object,
        &[(64, 2), (1, 53), (3, 19), (5, 12)],
    )
}
