//! Sites about the first offset that 16 bits do not hold.

use super::answers::links_to;
use super::cases::{Case, runs_to};
use super::choices::{PLAIN, SHORT, SHORT_TRIM, TRIM};
use super::plain_memory::direct_report;
use super::plans::{Added, Plan, object_words};
use hunk_objects::{HunkKind, Memory};
use hunk_tool::LinkOptions;
use std::alloc::{AllocError, Global};
use std::process::Abort;
use std::test::Fail;

/// The number of longwords of the hunk with the sites.
const SIZE: u32 = 16_400;

/// The longword that it begins with. Zeros follow it.
const FIRST: u32 = 0x4E71_4E75;

/// The number of longwords of the hunk after it.
const NEXT_SIZE: u32 = 4;

/// Bytes per read and per write.
const PIECE: usize = 4096;

/// Where the two hunks are placed.
static FAR_BASES: [u32; 2] = [0x0010_0000, 0x0020_0000];

/// Sites of the first hunk, and what the load file has of them.
#[derive(Clone, Copy)]
struct Far<'a> {
    // The offset of each, and the number of the hunk whose base is added.
    sites: &'a [(u32, u32)],
    // The number of longwords up to the last one with a byte of a site.
    kept: u32,
    // The longwords of their blocks in the plain form.
    plain: &'a [u32],
    // The same in the short form.
    short: &'a [u32],
}

/// The last offset of a longword that 16 bits hold is 65,532, and the first that they do not is 65,536.
const ALIGNED: Far<'static> = Far {
    sites: &[(4, 1), (65_532, 0), (65_536, 1)],
    kept: 16_385,
    plain: &[0x3EC, 1, 0, 65_532, 2, 1, 4, 65_536, 0],
    short: &[
        0x3FC,
        0x0001_0000,
        0xFFFC_0001,
        0x0001_0004,
        0,
        0x3EC,
        1,
        1,
        65_536,
        0,
    ],
};

/// The last offset of all that 16 bits hold.
const ODD: Far<'static> = Far {
    sites: &[(65_535, 0), (65_539, 0)],
    kept: 16_386,
    plain: &[0x3EC, 2, 0, 65_535, 65_539, 0],
    short: &[0x3FC, 0x0001_0000, 0xFFFF_0000, 0x3EC, 1, 0, 65_539, 0],
};

/// Without a site that 16 bits hold there is no short block.
const BEHIND: Far<'static> = Far {
    sites: &[(65_536, 0)],
    kept: 16_385,
    plain: &[0x3EC, 1, 0, 65_536, 0],
    short: &[0x3EC, 1, 0, 65_536, 0],
};

/// A hunk in which nothing is, with this number and this many longwords.
fn empty_hunk(alloc: Global, number: u32, kind: HunkKind, size: u32) -> Plan {
    Plan {
        unit: 0,
        number,
        rank: number,
        kind,
        memory: Memory::Any,
        size,
        content: Vec::new(alloc),
        sites: Vec::new(alloc),
        definitions: Vec::new(alloc),
        symbols: Vec::new(alloc),
        debugs: Vec::new(alloc),
    }
}

/// The first longword and zeros, this many in all.
fn content_of(alloc: Global, count: u32) -> Result<Vec<u32>, AllocError> {
    let mut content = Vec::from_slice(alloc, &[FIRST])?;
    for _ in 1..count {
        content.push(0)?;
    }
    Ok(content)
}

/// Both hunks, of which the first one has these sites.
fn hunks_of(alloc: Global, sites: &[(u32, u32)]) -> Result<Vec<Plan>, AllocError> {
    let mut first = empty_hunk(alloc, 0, HunkKind::Code, SIZE);
    first.content = content_of(alloc, SIZE)?;
    for (offset, target) in sites {
        first.sites.push((*offset, Added::Base(*target)))?;
    }
    let mut plans = Vec::new(alloc);
    plans.push(first)?;
    plans.push(empty_hunk(alloc, 1, HunkKind::Bss, NEXT_SIZE))?;
    Ok(plans)
}

/// The load file of both hunks.
fn linked_far(alloc: Global, far: Far<'_>, options: LinkOptions) -> Result<Vec<u32>, AllocError> {
    let mut words = Vec::from_slice(alloc, &[0x3F3, 0, 2, 0, 1, SIZE, NEXT_SIZE])?;
    let count = if options.trim { far.kept } else { SIZE };
    words.extend_from_slice(&[0x3E9, count])?;
    words.extend_from_slice(&content_of(alloc, count)?)?;
    words.extend_from_slice(if options.short { far.short } else { far.plain })?;
    words.extend_from_slice(&[0x3F2, 0x3EB, NEXT_SIZE, 0x3F2])?;
    Ok(words)
}

/// Both hunks link to this load file with each of these options, and their memory is the same.
fn becomes_far(rt: &impl Abort, alloc: Global, far: Far<'_>) -> Result<(), Fail> {
    let plans = hunks_of(alloc, far.sites)?;
    let object = object_words(alloc, 0, 1, &plans)?;
    let report = direct_report(alloc, &plans, &FAR_BASES)?;
    for options in [PLAIN, SHORT, TRIM, SHORT_TRIM] {
        let linked = linked_far(alloc, far, options)?;
        let case = Case {
            objects: &[&object],
            options,
            linked: &linked,
            bases: &FAR_BASES,
            report: &report,
        };
        links_to(rt, alloc, &[&object], options, Ok(&linked))?;
        runs_to(rt, alloc, &case, PIECE)?;
    }
    Ok(())
}

#[test]
fn puts_far_sites_in_a_block_of_their_own(rt: HostRuntime) -> Result<(), Fail> {
    for far in [ALIGNED, ODD, BEHIND] {
        becomes_far(&rt, rt.alloc(), far)?;
    }
    Ok(())
}
