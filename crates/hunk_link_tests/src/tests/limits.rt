//! As many hunks as a link may have, and as large ones.

use super::answers::{bytes_of, links_to};
use super::choices::{CHOICES, PLAIN, STRIP_SHORT_TRIM};
use super::refusals::is_refused;
use super::runs::{Run, writes};
use hunk_link::LinkRefusal;
use hunk_tool::LinkOptions;
use std::alloc::{AllocError, Global};
use std::process::Abort;
use std::test::Fail;

/// The most longwords of all hunks.
const MOST_SIZE: u32 = 0x0100_0000;

/// An object file of units that are made of zeros, which take no memory: for each unit, how many
/// hunks it has, and the size of each.
fn zeros(alloc: Global, units: &[(u32, u32)]) -> Result<Vec<u32>, AllocError> {
    let mut words = Vec::new(alloc);
    for (count, size) in units {
        words.extend_from_slice(&[0x3E7, 0])?;
        for _ in 0..*count {
            words.extend_from_slice(&[0x3EB, *size, 0x3F2])?;
        }
    }
    Ok(words)
}

/// The load file of such hunks of one size.
fn linked_zeros(alloc: Global, count: u32, size: u32) -> Result<Vec<u32>, AllocError> {
    let mut words = Vec::from_slice(alloc, &[0x3F3, 0, count, 0, count.wrapping_sub(1)])?;
    for _ in 0..count {
        words.push(size)?;
    }
    for _ in 0..count {
        words.extend_from_slice(&[0x3EB, size, 0x3F2])?;
    }
    Ok(words)
}

/// The units link to this file, and so they do in runs with these options. Such hunks have neither
/// content nor sites, so each choice gives the same bytes, and with them the same memory.
fn links_alike(
    rt: &impl Abort,
    alloc: Global,
    object: &[u32],
    choices: &[LinkOptions],
    linked: &[u32],
) -> Result<(), Fail> {
    links_to(rt, alloc, &[object], PLAIN, Ok(linked))?;
    let bytes = bytes_of(alloc, linked)?;
    for options in choices {
        let run = Run::Link { options: *options };
        writes(rt, alloc, &[object], run, 4096, &bytes)?;
    }
    Ok(())
}

#[test]
fn links_as_many_hunks_as_a_file_may_have(rt: HostRuntime) -> Result<(), Fail> {
    let most = zeros(rt.alloc(), &[(32_768, 0), (32_767, 0)])?;
    let linked = linked_zeros(rt.alloc(), 65_535, 0)?;
    links_alike(&rt, rt.alloc(), &most, &[STRIP_SHORT_TRIM], &linked)
}

#[test]
fn refuses_one_hunk_more(rt: HostRuntime) -> Result<(), Fail> {
    let more = zeros(rt.alloc(), &[(32_768, 0), (32_768, 0)])?;
    is_refused(&rt, rt.alloc(), &[&more], LinkRefusal::TooManyHunks)
}

#[test]
fn links_as_many_longwords_as_a_file_may_have(rt: HostRuntime) -> Result<(), Fail> {
    let most = zeros(rt.alloc(), &[(1, MOST_SIZE)])?;
    let linked = linked_zeros(rt.alloc(), 1, MOST_SIZE)?;
    links_alike(&rt, rt.alloc(), &most, &CHOICES, &linked)
}

#[test]
fn refuses_one_longword_more(rt: HostRuntime) -> Result<(), Fail> {
    let more = zeros(rt.alloc(), &[(1, MOST_SIZE), (1, 1)])?;
    is_refused(&rt, rt.alloc(), &[&more], LinkRefusal::TooLarge)
}
