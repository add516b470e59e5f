//! What is found of what readers have.

use super::asserts::{equals, equals_at, holds};
use super::findings::{CUT, LOAD, OBJECT, STRANGE};
use hunk_survey::{Finding, survey_file};
use hunk_test_support::words::{ASSEMBLED, LINKED_ALONE};
use hunk_test_support::{CHUNKS, Refusing, bytes_of};
use hunk_words::{Fault, Pieces, Reason};
use std::alloc::{AllocError, Global};
use std::process::Abort;
use std::test::Fail;

/// More allocations than a survey of a file makes.
const MOST_GROWTHS: u64 = 64;

const EMPTY: Finding = Finding::Refused(Fault {
    place: 0,
    reason: Reason::UnexpectedEnd,
});

/// Longwords and bytes of files, and what they are.
static FILES: [(&[u32], &[u8], Finding); 6] = [
    (&ASSEMBLED, &[], OBJECT),
    (&LINKED_ALONE, &[], LOAD),
    (&[0x3F3, 0, 1], &[0, 0], CUT),
    (&[0x3E7, 0, 0x3E9], &[0], CUT),
    (&[0x7F45_4C46], &[], STRANGE),
    (&[], &[], EMPTY),
];

/// What is found of a file, but for its digest.
fn without_digest(finding: Finding) -> Finding {
    match finding {
        Finding::Load { hunks, digest: _ } => Finding::Load {
            hunks,
            digest: None,
        },
        other => other,
    }
}

/// This is found of the file, at most `chunk` bytes per read.
fn is_found(
    rt: &impl Abort,
    alloc: Global,
    bytes: &[u8],
    chunk: usize,
    wanted: Finding,
) -> Result<(), Fail> {
    assert!(rt; 1 <= chunk);
    let mut reader = Pieces::new(bytes.to_vec(alloc)?, chunk, None);
    let got = survey_file(alloc, &mut reader, false);
    equals_at(rt, &("by", chunk), got, Ok(wanted));
    let mut reader = Pieces::new(bytes.to_vec(alloc)?, chunk, None);
    let got = survey_file(alloc, &mut reader, true).map(without_digest);
    equals_at(rt, &("digest, by", chunk), got, Ok(wanted));
    Ok(())
}

#[test]
fn finds_what_a_file_is(rt: HostRuntime) -> Result<(), Fail> {
    for &(words, rest, wanted) in &FILES {
        let bytes = bytes_of(rt.alloc(), words, rest)?;
        for chunk in CHUNKS {
            is_found(&rt, rt.alloc(), &bytes, chunk, wanted)?;
        }
    }
    Ok(())
}

#[test]
fn finds_that_a_read_failed(rt: HostRuntime) -> Result<(), Fail> {
    for digest in [false, true] {
        for number in 0..3 {
            let bytes = bytes_of(rt.alloc(), &ASSEMBLED, &[])?;
            let mut reader = Pieces::new(bytes, 64, Some(number));
            let got = survey_file(rt.alloc(), &mut reader, digest);
            equals_at(&rt, &("read", number), got, Ok(Finding::Unread));
        }
    }
    Ok(())
}

/// The number of allocations: the survey is out of memory with each of them failing, and finds what
/// the file is once none fails.
fn growths_of(
    rt: &impl Abort,
    alloc: Global,
    words: &[u32],
    digest: bool,
    wanted: Finding,
) -> Result<u64, Fail> {
    for refused in 0..MOST_GROWTHS {
        let heap = Refusing::new(alloc, refused);
        let mut reader = Pieces::new(bytes_of(alloc, words, &[])?, 5, None);
        let got = survey_file(&heap, &mut reader, digest).map(without_digest);
        if heap.asked() <= refused {
            equals(rt, got, Ok(wanted));
            return Ok(refused);
        }
        equals_at(rt, &("growth", refused), got, Err(AllocError));
    }
    holds(rt, &("each run was refused a growth", MOST_GROWTHS), false);
    Ok(0)
}

#[test]
fn is_out_of_memory_with_each_growth_refused(rt: HostRuntime) -> Result<(), Fail> {
    let rows = [
        // the sites of the first hunk
        (&ASSEMBLED[..], false, OBJECT, 1),
        // the sizes in the header, and the sites
        (&LINKED_ALONE[..], false, LOAD, 2),
        // units, hunks, contents, names and more
        (&ASSEMBLED[..], true, OBJECT, 8),
        // and the sites of a hunk that is written, and the bytes of the normal form
        (&LINKED_ALONE[..], true, LOAD, 8),
    ];
    for (words, digest, wanted, least) in rows {
        let growths = growths_of(&rt, rt.alloc(), words, digest, wanted)?;
        holds(&rt, &("growths", growths), least <= growths);
    }
    Ok(())
}
