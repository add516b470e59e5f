//! Links with each of their allocations failing in turn.

use super::answers::{is_file, units_of};
use super::asserts::{equals_at, holds};
use super::words::{ASSEMBLED, DEFINES, LINKED, LINKED_ALONE, REFERS};
use hunk_link::{LinkRefusal, link, link_units};
use hunk_loadfile::{LoadFile, LoadForm};
use hunk_objects::ProgramUnit;
use hunk_test_support::Refusing;
use std::alloc::{Allocator, Global};
use std::process::Abort;
use std::test::Fail;

/// More allocations than a link of the tests makes.
const MOST_GROWTHS: u64 = 64;

/// What is called.
#[derive(Clone, Copy, Debug)]
enum Call {
    Copies,
    Moves,
}

/// What is wanted of a link: a load file, or the refusal of a name, which is `foo`.
#[derive(Clone, Copy)]
enum Wanted<'a> {
    File(&'a [u32]),
    Refusal,
}

fn linked<A: Allocator + Copy>(
    alloc: A,
    call: Call,
    units: Vec<ProgramUnit<A>, A>,
) -> Result<LoadFile<A>, LinkRefusal<A>> {
    match call {
        Call::Copies => link(alloc, &units, false),
        Call::Moves => link_units(alloc, units, false),
    }
}

/// Whether the link of the units of these files ended as it is wanted, with this allocation failing. If
/// not, memory ran out. The units are read, and the load file is written, without a failure.
fn is_linked(
    rt: &impl Abort,
    alloc: Global,
    call: Call,
    objects: &[&[u32]],
    wanted: Wanted<'_>,
    refused: u64,
) -> Result<bool, Fail> {
    let unlimited = Refusing::new(alloc, u64::MAX);
    let heap = Refusing::new(alloc, refused);
    let units = units_of(alloc, &unlimited, objects)?;
    let row = ("growth", refused);
    let linked = linked(&heap, call, units);
    let ran_out = matches!(&linked, Err(LinkRefusal::OutOfMemory));
    equals_at(rt, &row, refused < heap.asked(), ran_out);
    match (linked, wanted) {
        (Ok(file), Wanted::File(words)) => {
            is_file(rt, alloc, &unlimited, &file, LoadForm::Plain, words)?;
        }
        (Err(LinkRefusal::DuplicateName { name, .. }), Wanted::Refusal) => {
            equals_at(rt, &row, name.bytes(), b"foo".as_slice());
        }
        (Err(LinkRefusal::UndefinedName { name, .. }), Wanted::Refusal) => {
            equals_at(rt, &row, name.bytes(), b"foo".as_slice());
        }
        _ => holds(rt, &row, ran_out),
    }
    Ok(!ran_out)
}

/// The number of allocations of the call: it runs out of memory with each of them failing, and
/// succeeds once none fails.
fn growths_of(
    rt: &impl Abort,
    alloc: Global,
    call: Call,
    objects: &[&[u32]],
    wanted: Wanted<'_>,
) -> Result<u64, Fail> {
    for number in 0..MOST_GROWTHS {
        if is_linked(rt, alloc, call, objects, wanted, number)? {
            return Ok(number);
        }
    }
    holds(rt, &("each link was refused a growth", MOST_GROWTHS), false);
    Ok(0)
}

#[test]
fn refuses_each_growth_of_a_link(rt: HostRuntime) -> Result<(), Fail> {
    let pair: [&[u32]; 2] = [&REFERS, &DEFINES];
    let alone: [&[u32]; 1] = [&ASSEMBLED];
    let undefined: [&[u32]; 1] = [&REFERS];
    let twice: [&[u32]; 2] = [&DEFINES, &DEFINES];
    let rows: [(Call, &[&[u32]], Wanted<'_>, u64); 8] = [
        // the hunks in order, the names, what references add, the hunks of the load file, a site,
        // and two contents
        (Call::Copies, &pair, Wanted::File(&LINKED), 7),
        // the same without the contents
        (Call::Moves, &pair, Wanted::File(&LINKED), 5),
        // the hunks in order, the names, the hunks of the load file, a site, a content, the symbols,
        // the name of one, the debug blocks, and one of them
        (Call::Copies, &alone, Wanted::File(&LINKED_ALONE), 9),
        // the same without the content, the symbols and the debug blocks
        (Call::Moves, &alone, Wanted::File(&LINKED_ALONE), 4),
        // the hunks in order, and the name
        (Call::Copies, &undefined, Wanted::Refusal, 2),
        (Call::Moves, &undefined, Wanted::Refusal, 2),
        // the hunks in order, the names, and the name
        (Call::Copies, &twice, Wanted::Refusal, 3),
        (Call::Moves, &twice, Wanted::Refusal, 3),
    ];
    for (call, objects, wanted, least) in rows {
        let growths = growths_of(&rt, rt.alloc(), call, objects, wanted)?;
        holds(&rt, &(call, "growths", growths), least <= growths);
    }
    Ok(())
}
