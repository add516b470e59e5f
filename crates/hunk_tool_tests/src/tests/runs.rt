//! Contents that are compared while they come, in runs.

use super::compared::is_compared;
use super::devices::{Devices, WHOLE};
use hunk_test_support::{ROOM, bytes_of};
use std::alloc::Global;
use std::process::Abort;
use std::test::Fail;

/// What stands before the content of a file of one hunk of ten longwords.
const FRONT: [u32; 7] = [0x3F3, 0, 1, 0, 0, 10, 0x3E9];

/// The content of the first file.
const CONTENT: [u32; 8] = [
    0x0001_0203,
    0x0405_0607,
    0x0809_0A0B,
    0x0C0D_0E0F,
    0x1011_1213,
    0x1415_1617,
    0x1819_1A1B,
    0x1C1D_1E1F,
];

/// Most bytes per read: the content comes in runs of one longword and more, which begin and end elsewhere.
const READS: [usize; 7] = [4, 8, 12, 20, 28, 33, ROOM];

/// How many longwords of the content another file begins with, what follows them, and what is told where it is
/// the second file, and where it is the first.
static ROWS: [(usize, &[u32], &str, &str); 10] = [
    (8, &[], "", ""),
    // zeros that the first file has not
    (8, &[0, 0], "", ""),
    // a byte of the first run, and of each of the others
    (
        0,
        &[0x8001_0203, 0x0405_0607],
        "hunk 0 offset 00000000: 00 and 80\n",
        "hunk 0 offset 00000000: 80 and 00\n",
    ),
    (
        1,
        &[0x0405_0687, 0x0809_0A0B],
        "hunk 0 offset 00000007: 07 and 87\n",
        "hunk 0 offset 00000007: 87 and 07\n",
    ),
    (
        4,
        &[0x1011_9213, 0x9415_1617, 0x1819_1A1B, 0x1C1D_1E1F],
        "hunk 0 offset 00000012: 12 and 92\n",
        "hunk 0 offset 00000012: 92 and 12\n",
    ),
    (
        7,
        &[0x1C1D_1E9F, 1],
        "hunk 0 offset 0000001f: 1f and 9f\n",
        "hunk 0 offset 0000001f: 9f and 1f\n",
    ),
    // a shorter content
    (
        7,
        &[],
        "hunk 0 offset 0000001c: 1c and 00\n",
        "hunk 0 offset 0000001c: 00 and 1c\n",
    ),
    (
        0,
        &[],
        "hunk 0 offset 00000001: 01 and 00\n",
        "hunk 0 offset 00000001: 00 and 01\n",
    ),
    // a longer one
    (
        8,
        &[1],
        "hunk 0 offset 00000023: 00 and 01\n",
        "hunk 0 offset 00000023: 01 and 00\n",
    ),
    (
        8,
        &[0, 0x8000_0000],
        "hunk 0 offset 00000024: 00 and 80\n",
        "hunk 0 offset 00000024: 80 and 00\n",
    ),
];

/// The bytes of a file with so many longwords of the content, and then these.
fn file_with(alloc: Global, count: usize, more: &[u32]) -> Result<Vec<u8>, Fail> {
    let mut words = FRONT.to_vec(alloc)?;
    let size = u32::try_from(count.saturating_add(more.len()));
    words.push(size.ok().ok_or("too many longwords")?)?;
    words.extend_from_slice(CONTENT.get(..count).ok_or("no such place")?)?;
    words.extend_from_slice(more)?;
    words.push(0x3F2)?;
    Ok(bytes_of(alloc, &words, &[])?)
}

/// They compare so, whatever each read brings.
fn compares_to(
    rt: &impl Abort,
    alloc: Global,
    files: (&[u8], &[u8]),
    text: &str,
) -> Result<(), Fail> {
    for chunk in READS {
        let devices = Devices { chunk, ..WHOLE };
        let same = Ok(text.is_empty());
        is_compared(rt, alloc, devices, files, true, same, text.as_bytes())?;
    }
    Ok(())
}

#[test]
fn tells_the_first_byte_that_differs_in_any_run(rt: HostRuntime) -> Result<(), Fail> {
    let first = file_with(rt.alloc(), CONTENT.len(), &[])?;
    for &(count, more, text, reverse) in &ROWS {
        let other = file_with(rt.alloc(), count, more)?;
        compares_to(&rt, rt.alloc(), (&first, &other), text)?;
        compares_to(&rt, rt.alloc(), (&other, &first), reverse)?;
    }
    Ok(())
}
