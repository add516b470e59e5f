//! Hunks that share an address, searched for with memory and without.

use super::asserts::{equals_at, holds};
use super::made::file_of_hunks;
use super::values::{EMPTY, Hunk};
use hunk_loader::{LoadRefusal, PlaceFault, check_places, check_places_with, load};
use hunk_test_support::Refusing;
use std::alloc::{AllocError, Allocator, Global};
use std::process::Abort;
use std::test::Fail;

/// The search with memory answers as the one without.
fn agree<A: Allocator + Copy>(rt: &impl Abort, alloc: A, sizes: &[u32], bases: &[u32]) {
    let got = check_places_with(alloc, sizes, bases);
    equals_at(rt, &(sizes, "at", bases), got, check_places(sizes, bases));
}

#[test]
fn answers_the_worked_rows(rt: HostRuntime) {
    let rows: [(&[u32], &[u32], Result<(), PlaceFault>); 12] = [
        (&[], &[], Ok(())),
        (&[1], &[], Err(PlaceFault::WrongCount)),
        (&[1, 2], &[0, 0xFFFF_FFFC], Err(PlaceFault::PastEnd(1))),
        // between the others, with room to spare, and with none
        (&[1, 1, 1], &[0, 16, 8], Ok(())),
        (&[1, 1, 1], &[0, 8, 4], Ok(())),
        (&[1, 1, 1], &[0, 8, 5], Err(PlaceFault::Overlap(1, 2))),
        (&[1, 1, 1], &[0, 8, 3], Err(PlaceFault::Overlap(0, 2))),
        // the last one meets both others
        (&[1, 1, 4], &[8, 0, 0], Err(PlaceFault::Overlap(0, 2))),
        // the first overlap by number has the highest bases
        (
            &[1, 2, 1, 4, 1],
            &[64, 60, 4, 0, 1],
            Err(PlaceFault::Overlap(0, 1)),
        ),
        // a hunk around another, and a hunk twice
        (&[1, 1, 8], &[0, 44, 36], Err(PlaceFault::Overlap(1, 2))),
        (&[1, 1, 1], &[8, 0, 8], Err(PlaceFault::Overlap(0, 2))),
        // an empty hunk inside another one
        (&[4, 0, 1, 1], &[0, 8, 32, 16], Ok(())),
    ];
    for (sizes, bases, want) in rows {
        let got = check_places_with(rt.alloc(), sizes, bases);
        equals_at(&rt, &(sizes, "at", bases), got, want);
        agree(&rt, rt.alloc(), sizes, bases);
    }
}

/// Sizes and bases of small hunks: apart, touching, overlapping and empty.
const SIZES: [u32; 3] = [0, 1, 2];

const BASES: [u32; 5] = [0, 2, 4, 8, 12];

#[test]
fn answers_alike_for_every_list_of_four_small_hunks(rt: HostRuntime) {
    for choice in 0..50_625u32 {
        let mut left = choice;
        let mut sizes = [0; 4];
        let mut bases = [0; 4];
        for hunk in 0..4 {
            let pick = (left % 15) as usize;
            left /= 15;
            sizes[hunk] = SIZES[pick % 3];
            bases[hunk] = BASES[pick / 3];
        }
        agree(&rt, rt.alloc(), &sizes, &bases);
    }
}

/// The next number of a linear congruential generator. Its high bits are the random ones.
fn random_after(state: u32) -> u32 {
    state.wrapping_mul(1_664_525).wrapping_add(1_013_904_223)
}

/// So many hunks of at most 3 longwords, below 64, 4096 or 65536.
fn check_random_list(rt: &impl Abort, alloc: Global, seed: u32, count: u32) -> Result<(), Fail> {
    let bits = [10, 4, 0][seed as usize % 3];
    let mut state = seed.wrapping_mul(0x9E37_79B9);
    let mut sizes = Vec::new(alloc);
    let mut bases = Vec::new(alloc);
    for _ in 0..count {
        state = random_after(state);
        sizes.push(state >> 30)?;
        state = random_after(state);
        bases.push((state >> 16) >> bits)?;
    }
    agree(rt, alloc, &sizes, &bases);
    Ok(())
}

#[test]
fn answers_alike_for_random_lists(rt: HostRuntime) -> Result<(), Fail> {
    for seed in 0..6000 {
        check_random_list(&rt, rt.alloc(), seed, seed % 64)?;
    }
    for seed in 0..60 {
        check_random_list(&rt, rt.alloc(), seed, 1000)?;
    }
    Ok(())
}

/// Bases of so many hunks, each 16 above the one before.
fn rising_bases(alloc: Global, count: u32) -> Result<Vec<u32>, AllocError> {
    let mut bases = Vec::with_capacity(alloc, count as usize)?;
    for number in 0..count {
        bases.push(number.wrapping_mul(16))?;
    }
    Ok(bases)
}

#[test]
fn answers_alike_for_lists_that_rise_but_for_one(rt: HostRuntime) -> Result<(), Fail> {
    let mut bases = rising_bases(rt.alloc(), 48)?;
    let sizes = vec![in rt.alloc(); 1u32; 48]?;
    for moved in 0..bases.len() {
        let kept = bases[moved];
        for place in 0..48u32 {
            for shift in [0, 3, 4, 12, 13] {
                bases[moved] = place.wrapping_mul(16).wrapping_add(shift);
                agree(&rt, rt.alloc(), &sizes, &bases);
            }
        }
        bases[moved] = kept;
    }
    Ok(())
}

#[test]
fn answers_alike_for_long_lists_that_rise_but_for_the_last(rt: HostRuntime) -> Result<(), Fail> {
    let mut bases = rising_bases(rt.alloc(), 3000)?;
    let sizes = vec![in rt.alloc(); 1u32; 3000]?;
    for (base, want) in [
        (20_000, Err(PlaceFault::Overlap(1250, 2999))),
        (20_004, Ok(())),
        (20_013, Err(PlaceFault::Overlap(1251, 2999))),
    ] {
        if let Some(last) = bases.last_mut() {
            *last = base;
        }
        let got = check_places_with(rt.alloc(), &sizes, &bases);
        equals_at(&rt, &("the last at", base), got, want);
        agree(&rt, rt.alloc(), &sizes, &bases);
    }
    Ok(())
}

#[test]
fn answers_alike_where_no_memory_is_given(rt: HostRuntime) {
    // sizes, bases, and how many allocations are asked for
    let rows: [(&[u32], &[u32], u64); 7] = [
        (&[1, 1, 1], &[0, 8, 4], 1),
        (&[1, 1, 1], &[0, 8, 3], 1),
        (&[1, 1, 4], &[8, 0, 0], 1),
        // in order, or wrong for another reason
        (&[1, 1, 1], &[0, 4, 8], 0),
        (&[1, 0, 1], &[8, 20, 4], 0),
        (&[1, 1], &[0], 0),
        (&[1, 2, 1], &[8, 0xFFFF_FFFC, 0], 0),
    ];
    for (sizes, bases, asked) in rows {
        let heap = Refusing::new(rt.alloc(), 0);
        agree(&rt, &heap, sizes, bases);
        equals_at(&rt, &(sizes, "at", bases), heap.asked(), asked);
    }
}

/// A hunk of one longword.
const LONGWORD: Hunk<'static> = Hunk { size: 1, ..EMPTY };

/// Allocations of making a file of three such hunks.
fn allocations_of_making(alloc: Global) -> Result<u64, Fail> {
    let heap = Refusing::new(alloc, u64::MAX);
    let _file = file_of_hunks(&heap, &[LONGWORD; 3])?;
    Ok(heap.asked())
}

/// Loads such a file at these bases, and returns why it is refused.
fn refusal_at<A: Allocator + Copy>(alloc: A, bases: &[u32]) -> Result<Option<LoadRefusal>, Fail> {
    let file = file_of_hunks(alloc, &[LONGWORD; 3])?;
    Ok(load(alloc, &file, bases).err())
}

#[test]
fn loads_without_memory_for_the_search(rt: HostRuntime) -> Result<(), Fail> {
    let before = allocations_of_making(rt.alloc())?;
    let rows = [
        ([0, 8, 4], None),
        (
            [0, 8, 3],
            Some(LoadRefusal::Place(PlaceFault::Overlap(0, 2))),
        ),
    ];
    for (bases, want) in rows {
        let heap = Refusing::new(rt.alloc(), before);
        equals_at(&rt, &bases, refusal_at(&heap, &bases)?, want);
        holds(&rt, &bases, before < heap.asked());
    }
    Ok(())
}
