//! The addresses in a file.

use super::asserts::{equals, equals_at, holds};
use super::endless::Endless;
use super::memory::MOST_GROWTHS;
use hunk_test_support::Refusing;
use hunk_tool::{BasesFault, BasesFileFault, read_bases};
use hunk_words::Pieces;
use std::alloc::{AllocError, Global};
use std::process::Abort;
use std::test::Fail;

/// Files, and the addresses in them.
static READ: [(&str, &[u32]); 9] = [
    ("", &[]),
    (" ,\r\n", &[]),
    ("0", &[0]),
    ("10000,FfFffff8", &[0x1_0000, 0xFFFF_FFF8]),
    ("\r\n10000\r\nabcdef\r\n", &[0x1_0000, 0x00AB_CDEF]),
    (",,1 2,\n3,", &[1, 2, 3]),
    ("\t4\t5,\t6\r\n\t", &[4, 5, 6]),
    ("12345678\n9", &[0x1234_5678, 9]),
    ("00000001 ABCDEF01", &[1, 0xABCD_EF01]),
];

/// Files, and their first part that is no address.
static REFUSED: [(&str, usize); 7] = [
    ("123456789", 0),
    ("0x10", 0),
    ("1 2\n3,,+3 zz", 3),
    ("1\x0b2", 0),
    (" 1,g", 1),
    ("1 2 3 4 5 000000006", 5),
    ("-", 0),
];

/// This is what is read of a file, at most so many bytes at a time, with this read failing.
fn is_read(
    rt: &impl Abort,
    alloc: Global,
    text: &str,
    most: usize,
    fails_at: Option<u64>,
    wanted: Result<&[u32], BasesFileFault>,
) -> Result<(), Fail> {
    assert!(rt; 1 <= most);
    let mut reader = Pieces::new(text.as_bytes().to_vec(alloc)?, most, fails_at);
    let got = read_bases(alloc, &mut reader);
    let got = got.as_deref().map_err(|fault| *fault);
    equals_at(rt, &(text, most, fails_at), got, wanted);
    Ok(())
}

#[test]
fn reads_files(rt: HostRuntime) -> Result<(), Fail> {
    for &(text, wanted) in &READ {
        for most in [1, 2, 3, 100] {
            is_read(&rt, rt.alloc(), text, most, None, Ok(wanted))?;
        }
    }
    Ok(())
}

#[test]
fn tells_the_first_part_that_is_no_address(rt: HostRuntime) -> Result<(), Fail> {
    for &(text, index) in &REFUSED {
        let fault = BasesFileFault::Refused(BasesFault::BadNumber(index));
        for most in [1, 2, 3, 100] {
            is_read(&rt, rt.alloc(), text, most, None, Err(fault))?;
        }
    }
    Ok(())
}

/// The file is read in two reads, and a third one finds its end.
#[test]
fn tells_that_a_read_failed(rt: HostRuntime) -> Result<(), Fail> {
    let alloc = rt.alloc();
    let device = BasesFileFault::Device;
    for read in 0..3 {
        is_read(&rt, alloc, "1,2\n", 2, Some(read), Err(device))?;
    }
    is_read(&rt, alloc, "1,2\n", 2, Some(3), Ok(&[1, 2]))?;
    is_read(&rt, alloc, "1x,2", 2, Some(0), Err(device))?;
    let refused = BasesFileFault::Refused(BasesFault::BadNumber(0));
    is_read(&rt, alloc, "1x,2", 2, Some(1), Err(refused))
}

/// Whether a file was read with this allocation failing. If not, memory ran out.
fn is_read_with(rt: &impl Abort, alloc: Global, refused: u64) -> Result<bool, Fail> {
    let heap = Refusing::new(alloc, refused);
    let mut reader = Pieces::new(b"1 2 3 4 5 6 7 8 9".to_vec(alloc)?, 64, None);
    let got = read_bases(&heap, &mut reader);
    if heap.asked() <= refused {
        let bases = [1, 2, 3, 4, 5, 6, 7, 8, 9];
        equals(rt, got.as_deref(), Ok(bases.as_slice()));
        return Ok(true);
    }
    let memory = BasesFileFault::Refused(BasesFault::OutOfMemory);
    equals_at(rt, &("growth", refused), got.err(), Some(memory));
    Ok(false)
}

#[test]
fn is_out_of_memory_with_each_growth_refused(rt: HostRuntime) -> Result<(), Fail> {
    assert!(rt; !is_read_with(&rt, rt.alloc(), 0)?);
    for refused in 1..MOST_GROWTHS {
        if is_read_with(&rt, rt.alloc(), refused)? {
            return Ok(());
        }
    }
    let row = ("each call was refused a growth", MOST_GROWTHS);
    holds(&rt, &row, false);
    Ok(())
}

#[test]
fn stops_at_a_part_that_never_ends(rt: HostRuntime) {
    let alloc = rt.alloc();
    for (digit, index) in [(b'1', 1), (b'x', 1)] {
        let mut reader = Endless {
            front: b"7\n",
            after: digit,
        };
        let refused = BasesFileFault::Refused(BasesFault::BadNumber(index));
        equals(&rt, read_bases(alloc, &mut reader).err(), Some(refused));
    }
}

/// A file with this line for each of 65,535 hunks, and these bytes after it.
fn file_of_most(alloc: Global, line: &[u8], after: &[u8]) -> Result<Vec<u8>, AllocError> {
    let mut text = Vec::new(alloc);
    for _hunk in 0..65_535 {
        text.extend_from_slice(line)?;
    }
    text.extend_from_slice(after)?;
    Ok(text)
}

#[test]
fn reads_an_address_for_each_of_65_535_hunks(rt: HostRuntime) -> Result<(), Fail> {
    let text = file_of_most(rt.alloc(), b"89abcdef\n", b"\n, \t")?;
    let mut reader = Pieces::new(text, 4_096, None);
    let got = read_bases(rt.alloc(), &mut reader)?;
    equals(&rt, got.len(), 65_535);
    holds(&rt, &"all", got.iter().all(|base| *base == 0x89AB_CDEF));
    Ok(())
}

/// The address after the last one that a file may have, each with what is wrong with the file: it is there
/// once it ends, with a separator or with the file.
#[test]
fn tells_that_there_are_more_addresses_than_hunks(rt: HostRuntime) -> Result<(), Fail> {
    let bad = BasesFileFault::Refused(BasesFault::BadNumber(65_535));
    for (after, fault) in [
        ("0", BasesFileFault::TooMany),
        ("0\n", BasesFileFault::TooMany),
        ("0 x", BasesFileFault::TooMany),
        ("x", bad),
        ("123456789 0", bad),
    ] {
        let text = file_of_most(rt.alloc(), b"1 ", after.as_bytes())?;
        let mut reader = Pieces::new(text, 4_096, None);
        let got = read_bases(rt.alloc(), &mut reader);
        equals_at(&rt, &after, got.err(), Some(fault));
    }
    Ok(())
}

/// Spaces and one address, in 16 MiB and in a byte more.
#[test]
fn reads_16_mib_and_no_more(rt: HostRuntime) -> Result<(), Fail> {
    let alloc = rt.alloc();
    for (spaces, wanted) in [
        (16_777_215, Ok([10].as_slice())),
        (16_777_216, Err(BasesFileFault::TooLong)),
    ] {
        let mut text = vec![in alloc; b' '; spaces]?;
        text.push(b'a')?;
        let mut reader = Pieces::new(text, 65_536, None);
        let got = read_bases(alloc, &mut reader);
        let got = got.as_deref().map_err(|fault| *fault);
        equals_at(&rt, &spaces, got, wanted);
    }
    Ok(())
}

/// An address more than a file may have, and ends of lines without end after it; and spaces alone.
#[test]
fn stops_at_addresses_that_never_end(rt: HostRuntime) -> Result<(), Fail> {
    let text = file_of_most(rt.alloc(), b"1 ", b"0\n")?;
    for (front, after, fault) in [
        (text.as_slice(), b'\n', BasesFileFault::TooMany),
        (b"".as_slice(), b' ', BasesFileFault::TooLong),
    ] {
        let mut reader = Endless { front, after };
        let got = read_bases(rt.alloc(), &mut reader);
        equals_at(&rt, &after, got.err(), Some(fault));
    }
    Ok(())
}
