//! Hunks that make a load file, and hunks that don't.

use super::asserts::{equals, equals_at, holds};
use hunk_loadfile::{BuildFault, HunkKind, LoadFile, LoadHunk, Memory};
use hunk_words::{Name, Sites};
use std::alloc::{AllocError, Global};
use std::process::Abort;
use std::test::Fail;

/// A hunk to build: its size, the number of its zero bytes of content, and the target of its site at
/// 0.
#[derive(Clone, Copy, Debug, PartialEq)]
struct Plan {
    kind: HunkKind,
    size: u32,
    content: usize,
    limit: u64,
    target: Option<u32>,
}

const GOOD: Plan = Plan {
    kind: HunkKind::Code,
    size: 2,
    content: 8,
    limit: 8,
    target: Some(0),
};

const ZEROS: Plan = Plan {
    kind: HunkKind::Bss,
    content: 0,
    ..GOOD
};

/// As large as all hunks of a file may be together.
const LARGE: Plan = Plan {
    size: 0x0100_0000,
    content: 0,
    limit: 0x0400_0000,
    ..GOOD
};

/// Content that is not a whole number of longwords, is too long, or belongs to a BSS hunk.
const UNEVEN: Plan = Plan { content: 7, ..GOOD };

const LONG: Plan = Plan {
    content: 12,
    ..GOOD
};

const STORED: Plan = Plan {
    kind: HunkKind::Bss,
    content: 4,
    ..GOOD
};

/// Sites with a limit lower or higher than the bytes of the hunk.
const TIGHT: Plan = Plan { limit: 4, ..GOOD };

const WIDE: Plan = Plan { limit: 12, ..GOOD };

/// A site for the fourth hunk.
const FAR: Plan = Plan {
    target: Some(3),
    ..GOOD
};

/// The hunk of a plan.
fn hunk_of(rt: &impl Abort, alloc: Global, plan: &Plan) -> Result<LoadHunk, AllocError> {
    let mut sites = Sites::new(alloc, plan.limit);
    if let Some(target) = plan.target {
        equals_at(rt, &plan, sites.try_add(0, target), Ok(()));
    }
    Ok(LoadHunk {
        kind: plan.kind,
        memory: Memory::Any,
        size: plan.size,
        content: vec![in alloc; 0; plan.content]?,
        sites,
        symbols: Vec::new(alloc),
        debugs: Vec::new(alloc),
    })
}

/// These hunks are those of the plans.
fn are_planned(rt: &impl Abort, hunks: &[LoadHunk], plans: &[Plan]) {
    equals(rt, hunks.len(), plans.len());
    for (index, hunk) in hunks.iter().enumerate() {
        let planned = Plan {
            kind: hunk.kind,
            size: hunk.size,
            content: hunk.content.len(),
            limit: hunk.sites.limit(),
            target: hunk.sites.get(0).copied(),
        };
        equals_at(rt, &plans, Some(planned), plans.get(index).copied());
    }
}

/// The hunks of these plans make a load file if there is no fault, and are handed back if there is
/// one.
fn is_built(
    rt: &impl Abort,
    alloc: Global,
    plans: &[Plan],
    fault: Option<BuildFault>,
) -> Result<(), Fail> {
    let mut hunks = Vec::new(alloc);
    for plan in plans {
        hunks.push(hunk_of(rt, alloc, plan)?)?;
    }
    match LoadFile::new(hunks) {
        Ok(file) => {
            equals_at(rt, &plans, fault, None);
            are_planned(rt, file.hunks(), plans);
        }
        Err(refusal) => {
            equals_at(rt, &plans, Some(refusal.fault), fault);
            are_planned(rt, &refusal.hunks, plans);
        }
    }
    Ok(())
}

/// A hunk without bytes.
const BARE: Plan = Plan {
    size: 0,
    content: 0,
    limit: 0,
    target: None,
    ..GOOD
};

const LARGER: Plan = Plan {
    size: 0x0100_0001,
    ..LARGE
};

/// Hunks, and the first rule that they break.
static LISTS: [(&[Plan], Option<BuildFault>); 20] = [
    (&[GOOD], None),
    (&[BARE], None),
    (&[GOOD, ZEROS, GOOD], None),
    (&[GOOD, ZEROS, FAR, GOOD], None),
    (&[LARGE], None),
    (&[BARE, LARGE, BARE], None),
    (&[], Some(BuildFault::HunkCount)),
    (&[LARGER], Some(BuildFault::TooLarge)),
    (&[LARGE, GOOD], Some(BuildFault::TooLarge)),
    (&[UNEVEN, WIDE, LARGE], Some(BuildFault::TooLarge)),
    (&[UNEVEN], Some(BuildFault::Content(0))),
    (&[GOOD, LONG], Some(BuildFault::Content(1))),
    (&[GOOD, STORED, UNEVEN], Some(BuildFault::Content(1))),
    (&[FAR, WIDE, UNEVEN], Some(BuildFault::Content(2))),
    (&[TIGHT], Some(BuildFault::SiteLimit(0))),
    (&[GOOD, WIDE, TIGHT], Some(BuildFault::SiteLimit(1))),
    (&[FAR, GOOD, TIGHT], Some(BuildFault::SiteLimit(2))),
    (&[FAR], Some(BuildFault::Target(0))),
    (&[GOOD, GOOD, FAR], Some(BuildFault::Target(2))),
    (&[GOOD, FAR, FAR], Some(BuildFault::Target(1))),
];

#[test]
fn tells_the_first_rule_and_the_lowest_hunk(rt: HostRuntime) -> Result<(), Fail> {
    for (plans, fault) in &LISTS {
        is_built(&rt, rt.alloc(), plans, *fault)?;
    }
    Ok(())
}

#[test]
fn counts_hunks(rt: HostRuntime) -> Result<(), Fail> {
    let plan = Plan {
        size: 0x0100_0000,
        limit: 0,
        content: 0,
        target: None,
        ..GOOD
    };
    for (count, fault) in [
        (65_535, BuildFault::TooLarge),
        (65_536, BuildFault::HunkCount),
    ] {
        let plans = vec![in rt.alloc(); plan; count]?;
        is_built(&rt, rt.alloc(), &plans, Some(fault))?;
    }
    Ok(())
}

/// A hunk with a symbol whose name is `words` longwords of letters and then `last`.
fn named(rt: &impl Abort, alloc: Global, words: usize, last: u32) -> Result<LoadHunk, Fail> {
    let mut longwords = vec![in alloc; 0x4141_4141; words]?;
    longwords.push(last)?;
    let mut hunk = hunk_of(rt, alloc, &GOOD)?;
    let name = Name::from_words(alloc, &longwords)?;
    hunk.symbols.push((name, 1))?;
    Ok(hunk)
}

/// The longwords of a name are counted in 24 bits.
#[test]
fn counts_the_bytes_of_a_name(rt: HostRuntime) -> Result<(), Fail> {
    let alloc = rt.alloc();
    let hunks = vec![in alloc; named(&rt, alloc, 0x00FF_FFFE, 0x4141_4141)?]?;
    let file = LoadFile::new(hunks)?;
    for hunk in file.hunks() {
        for (name, _) in &hunk.symbols {
            equals(&rt, name.bytes().len(), 0x03FF_FFFC);
        }
    }
    let hunks = vec![in alloc; named(&rt, alloc, 0x00FF_FFFF, 0x4100_0000)?]?;
    match LoadFile::new(hunks) {
        Ok(_) => holds(&rt, &"the name is too long", false),
        Err(refusal) => equals(&rt, refusal.fault, BuildFault::LongName(0)),
    }
    Ok(())
}
