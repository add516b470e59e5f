//! What is found of files under names.

use super::asserts::{equals, equals_at, holds};
use super::findings::{LOAD, OBJECT, STRANGE};
use super::shelf::Shelf;
use hunk_survey::{FindOptions, Finding, find_file};
use hunk_test_support::Refusing;
use std::alloc::AllocError;
use std::test::Fail;

const PLAIN: FindOptions = FindOptions {
    digest: false,
    wait: false,
};

const WAITING: FindOptions = FindOptions {
    digest: false,
    wait: true,
};

/// Names, and what is found there without and with waiting.
static ROWS: [(&[u8], Finding, Finding); 11] = [
    (b"a.o", OBJECT, OBJECT),
    (b"\xC3\x9Cber", OBJECT, OBJECT),
    (b"ls", LOAD, LOAD),
    (b"x", STRANGE, STRANGE),
    (b"bad", Finding::Unread, Finding::Unread),
    (b"gone", Finding::Unopened, Finding::Unopened),
    (b"away", Finding::Unopened, Finding::Unopened),
    (b"dir", Finding::Directory, Finding::Directory),
    (b"late", Finding::Directory, Finding::Directory),
    (b"pipe", Finding::NotRegular, OBJECT),
    (b"a\xFF.o", Finding::Unopened, Finding::Unopened),
];

#[test]
fn finds_what_is_under_a_name(rt: HostRuntime) {
    let alloc = rt.alloc();
    let shelf = Shelf { alloc };
    for &(name, wanted, waited) in &ROWS {
        let got = find_file(alloc, &shelf, name, PLAIN);
        equals_at(&rt, &name, got, Ok(wanted));
        let got = find_file(alloc, &shelf, name, WAITING);
        equals_at(&rt, &name, got, Ok(waited));
    }
}

#[test]
fn finds_a_digest_only_where_it_is_asked_for(rt: HostRuntime) -> Result<(), Fail> {
    let alloc = rt.alloc();
    let shelf = Shelf { alloc };
    for digest in [false, true] {
        let options = FindOptions {
            digest,
            wait: false,
        };
        match find_file(alloc, &shelf, b"ls", options)? {
            Finding::Load {
                hunks,
                digest: found,
            } => equals(&rt, (hunks, found.is_some()), (2, digest)),
            other => holds(&rt, &other, false),
        }
    }
    Ok(())
}

#[test]
fn is_out_of_memory_where_no_growth_is_left(rt: HostRuntime) {
    let shelf = Shelf { alloc: rt.alloc() };
    let heap = Refusing::new(rt.alloc(), 0);
    let got = find_file(&heap, &shelf, b"a.o", PLAIN);
    equals(&rt, got, Err(AllocError));
}
