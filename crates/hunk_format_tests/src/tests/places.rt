//! Addresses that hold the hunks of a file, and addresses that do not.

use super::asserts::{equals, equals_at};
use hunk_loader::{ImageFault, LoadRefusal, PlaceFault, check_places, read_image};
use hunk_test_support::words::LINKED;
use hunk_test_support::{BASE, bytes_of};
use hunk_words::{Fault, Pieces, Reason};
use std::test::Fail;

#[test]
fn answers_the_worked_rows(rt: HostRuntime) {
    let rows: [(&[u32], &[u32], Result<(), PlaceFault>); 11] = [
        (&[2], &[0xFFFF_FFF8], Ok(())),
        (&[2], &[0xFFFF_FFFC], Err(PlaceFault::PastEnd(0))),
        (&[0, 0], &[0x1000, 0x1000], Ok(())),
        (&[2, 1], &[0x1000, 0x1008], Ok(())),
        (&[2, 1], &[0x1000, 0x1007], Err(PlaceFault::Overlap(0, 1))),
        (&[0, 2], &[0x1004, 0x1000], Ok(())),
        (&[0], &[0xFFFF_FFFF], Ok(())),
        (
            &[1, 1, 4],
            &[0x1008, 0x1000, 0x1000],
            Err(PlaceFault::Overlap(0, 2)),
        ),
        (&[1], &[], Err(PlaceFault::WrongCount)),
        (&[1, 0, 2], &[0x2000, 0x1004, 0x1000], Ok(())),
        (&[1, 1], &[0x1004, 0x1000], Ok(())),
    ];
    for (sizes, bases, want) in rows {
        equals_at(&rt, &(sizes, "at", bases), check_places(sizes, bases), want);
    }
}

/// Faults, and what is told of each.
static FAULTS: [(PlaceFault, &str); 3] = [
    (
        PlaceFault::WrongCount,
        "there is not one base for each hunk",
    ),
    (
        PlaceFault::PastEnd(3),
        "hunk 3 ends behind the last address",
    ),
    (PlaceFault::Overlap(0, 2), "hunks 0 and 2 share an address"),
];

#[test]
fn tells_each_fault(rt: HostRuntime) -> Result<(), Fail> {
    for (fault, want) in &FAULTS {
        let text = fault.to_string(rt.alloc())?;
        equals(&rt, text.as_str(), *want);
    }
    Ok(())
}

/// What a reader of the longwords of `LINKED` answers at these addresses: the first so many of its
/// bytes, at most 25 a read, one of which may fail.
static READS: [(&[u32], usize, Option<u64>, ImageFault); 7] = [
    (
        &[],
        88,
        None,
        ImageFault::Refused(LoadRefusal::Place(PlaceFault::WrongCount)),
    ),
    (
        &[BASE, 0xFFFF_FFFA],
        88,
        None,
        ImageFault::Refused(LoadRefusal::Place(PlaceFault::PastEnd(1))),
    ),
    (
        &[BASE, 0x0001_0004],
        88,
        None,
        ImageFault::Refused(LoadRefusal::Place(PlaceFault::Overlap(0, 1))),
    ),
    (
        &[],
        84,
        None,
        ImageFault::Refused(LoadRefusal::File(Fault {
            place: 21,
            reason: Reason::UnexpectedEnd,
        })),
    ),
    (&[], 88, Some(0), ImageFault::Device),
    (&[BASE, 0x0002_0000], 88, Some(3), ImageFault::Device),
    (&[BASE, 0x0002_0000], 88, Some(4), ImageFault::Device),
];

#[test]
fn tells_why_there_is_no_image(rt: HostRuntime) -> Result<(), Fail> {
    let file = bytes_of(rt.alloc(), &LINKED, &[])?;
    for (bases, count, fails_at, want) in &READS {
        let bytes = file.get(..*count).ok_or("no such bytes")?;
        let mut reader = Pieces::new(bytes.to_vec(rt.alloc())?, 25, *fails_at);
        let got = read_image(rt.alloc(), &mut reader, bases).err();
        equals(&rt, got, Some(*want));
    }
    Ok(())
}
