//! An emulator, an assembler and a debugger, on files whose bytes are written by hand.

use super::asserts::{equals, equals_at};
use hunk_link::LinkRefusal;
use hunk_loader::{Image, ImageFault, LoadRefusal, PlaceFault};
use hunk_tool::ToolFault;
use hunk_uses::assembler::link_objects;
use hunk_uses::debugger::{dump, longword_at};
use hunk_uses::emulator::load_program;
use hunk_uses::machine::load_from_memory;
use hunk_words::{Fault, Pieces, Reason};
use linked_list_allocator::LocalHeap;
use std::alloc::Global;
use std::process::Abort;
use std::test::Fail;

/// An object file whose hunk calls `foo`.
const CALLS: &[u8] =
    b"\x00\x00\x03\xE7\x00\x00\x00\x00\x00\x00\x03\xE9\x00\x00\x00\x02\x4E\xB9\x00\x00\x00\x00\x4E\x75\x00\x00\x03\xEF\x81\x00\x00\x01\x66\x6F\x6F\x00\x00\x00\x00\x01\x00\x00\x00\x02\x00\x00\x00\x00\x00\x00\x03\xF2";

/// An object file whose hunk defines `foo`, 4 bytes from its beginning.
const DEFINES: &[u8] =
    b"\x00\x00\x03\xE7\x00\x00\x00\x00\x00\x00\x03\xE9\x00\x00\x00\x02\x4E\x71\x4E\x71\x4E\x75\x4E\x71\x00\x00\x03\xEF\x01\x00\x00\x01\x66\x6F\x6F\x00\x00\x00\x00\x04\x00\x00\x00\x00\x00\x00\x03\xF2";

/// The load file of the two: two hunks of two longwords each.
const PROGRAM: &[u8] =
    b"\x00\x00\x03\xF3\x00\x00\x00\x00\x00\x00\x00\x02\x00\x00\x00\x00\x00\x00\x00\x01\x00\x00\x00\x02\x00\x00\x00\x02\x00\x00\x03\xE9\x00\x00\x00\x02\x4E\xB9\x00\x00\x00\x04\x4E\x75\x00\x00\x03\xEC\x00\x00\x00\x01\x00\x00\x00\x01\x00\x00\x00\x02\x00\x00\x00\x00\x00\x00\x03\xF2\x00\x00\x03\xE9\x00\x00\x00\x02\x4E\x71\x4E\x71\x4E\x75\x4E\x71\x00\x00\x03\xF2";

/// The memory of its hunks from address 1000 on, in hexadecimal: their bases and bytes.
static MEMORY: [(u32, &[u8]); 2] = [
    (0x1000, b"\x4E\xB9\x00\x00\x10\x0C\x4E\x75"),
    (0x1008, b"\x4E\x71\x4E\x71\x4E\x75\x4E\x71"),
];

/// An object file whose hunk has a symbol, `foo`.
const LABELLED: &[u8] =
    b"\x00\x00\x03\xE7\x00\x00\x00\x00\x00\x00\x03\xE9\x00\x00\x00\x01\x4E\x71\x4E\x75\x00\x00\x03\xF0\x00\x00\x00\x01\x66\x6F\x6F\x00\x00\x00\x00\x02\x00\x00\x00\x00\x00\x00\x03\xF2";

/// The load file of it, with the symbol.
const LABELLED_PROGRAM: &[u8] =
    b"\x00\x00\x03\xF3\x00\x00\x00\x00\x00\x00\x00\x01\x00\x00\x00\x00\x00\x00\x00\x00\x00\x00\x00\x01\x00\x00\x03\xE9\x00\x00\x00\x01\x4E\x71\x4E\x75\x00\x00\x03\xF0\x00\x00\x00\x01\x66\x6F\x6F\x00\x00\x00\x00\x02\x00\x00\x00\x00\x00\x00\x03\xF2";

/// The memory of a small machine, in bytes.
const BUDGET: usize = 4096;

/// The bytes that the disk of the tests hands over at a time.
const SECTOR: usize = 16;

/// Checks that this is the memory of the program.
fn is_in_memory(rt: &impl Abort, image: &Image<&LocalHeap>) {
    let hunks = image.hunks();
    equals(rt, hunks.len(), MEMORY.len());
    for ((base, bytes), (wanted, content)) in hunks.iter().zip(&MEMORY) {
        equals(rt, *base, *wanted);
        equals_at(rt, base, bytes.as_slice(), *content);
    }
}

#[test]
fn a_program_is_loaded_from_a_disk(rt: HostRuntime) -> Result<(), Fail> {
    let budget = LocalHeap::new(rt.alloc(), BUDGET)?;
    let mut disk = Pieces::new(PROGRAM.to_vec(rt.alloc())?, SECTOR, None);
    is_in_memory(&rt, &load_program(&budget, &mut disk, 0x1000)?);
    Ok(())
}

#[test]
fn a_program_is_loaded_after_its_header(rt: HostRuntime) -> Result<(), Fail> {
    let budget = LocalHeap::new(rt.alloc(), BUDGET)?;
    is_in_memory(&rt, &load_from_memory(&budget, PROGRAM, 0x1000)?);
    Ok(())
}

#[test]
fn a_machine_says_what_is_wrong(rt: HostRuntime) -> Result<(), Fail> {
    let early = |place| {
        LoadRefusal::File(Fault {
            place,
            reason: Reason::UnexpectedEnd,
        })
    };
    let past = LoadRefusal::Place(PlaceFault::PastEnd(1));
    let rows = [
        (&PROGRAM[..84], BUDGET, 0x1000, early(21)),
        (&PROGRAM[..24], BUDGET, 0x1000, early(6)),
        (PROGRAM, BUDGET, 0xFFFF_FFF8, past),
        (PROGRAM, 64, 0x1000, LoadRefusal::OutOfMemory),
    ];
    for (file, size, first, refusal) in rows {
        let budget = LocalHeap::new(rt.alloc(), size)?;
        equals(
            &rt,
            load_from_memory(&budget, file, first).err(),
            Some(refusal),
        );
    }
    Ok(())
}

/// Checks that a disk with these bytes, whose read with the number beside them fails, is refused.
fn is_refused(
    rt: &impl Abort,
    alloc: Global,
    disk: (&[u8], Option<u64>),
    budget: usize,
    first: u32,
    fault: ImageFault,
) -> Result<(), Fail> {
    let budget = LocalHeap::new(alloc, budget)?;
    let mut disk = Pieces::new(disk.0.to_vec(alloc)?, SECTOR, disk.1);
    equals(
        rt,
        load_program(&budget, &mut disk, first).err(),
        Some(fault),
    );
    Ok(())
}

#[test]
fn a_refusal_says_what_is_wrong(rt: HostRuntime) -> Result<(), Fail> {
    let alloc = rt.alloc();
    let early = ImageFault::Refused(LoadRefusal::File(Fault {
        place: 21,
        reason: Reason::UnexpectedEnd,
    }));
    let in_header = ImageFault::Refused(LoadRefusal::File(Fault {
        place: 6,
        reason: Reason::UnexpectedEnd,
    }));
    let past = ImageFault::Refused(LoadRefusal::Place(PlaceFault::PastEnd(1)));
    let memory = ImageFault::Refused(LoadRefusal::OutOfMemory);
    is_refused(&rt, alloc, (&PROGRAM[..84], None), BUDGET, 0x1000, early)?;
    is_refused(
        &rt,
        alloc,
        (&PROGRAM[..24], None),
        BUDGET,
        0x1000,
        in_header,
    )?;
    // The file comes before the addresses.
    is_refused(
        &rt,
        alloc,
        (&PROGRAM[..84], None),
        BUDGET,
        0xFFFF_FFF8,
        early,
    )?;
    is_refused(&rt, alloc, (PROGRAM, None), BUDGET, 0xFFFF_FFF8, past)?;
    is_refused(&rt, alloc, (PROGRAM, None), 64, 0x1000, memory)?;
    is_refused(
        &rt,
        alloc,
        (PROGRAM, Some(2)),
        BUDGET,
        0x1000,
        ImageFault::Device,
    )
}

#[test]
fn two_object_files_are_linked_in_memory(rt: HostRuntime) -> Result<(), Fail> {
    let alloc = rt.alloc();
    let objects = [CALLS.to_vec(alloc)?, DEFINES.to_vec(alloc)?];
    equals(&rt, link_objects(alloc, &objects)?.as_slice(), PROGRAM);
    Ok(())
}

#[test]
fn symbols_are_linked_too(rt: HostRuntime) -> Result<(), Fail> {
    let alloc = rt.alloc();
    let objects = [LABELLED.to_vec(alloc)?];
    equals(
        &rt,
        link_objects(alloc, &objects)?.as_slice(),
        LABELLED_PROGRAM,
    );
    Ok(())
}

#[test]
fn files_that_do_not_link_are_told(rt: HostRuntime) -> Result<(), Fail> {
    let alloc = rt.alloc();
    let undefined = [CALLS.to_vec(alloc)?];
    match link_objects(alloc, &undefined) {
        Err(ToolFault::Link(LinkRefusal::UndefinedName { unit, hunk, name })) => {
            equals(&rt, (unit, hunk), (0, 0));
            equals(&rt, name.bytes(), b"foo");
        }
        _ => return Err(Fail::from("linked")),
    }
    let wrong = Fault {
        place: 0,
        reason: Reason::WrongStart,
    };
    let mixed = [CALLS.to_vec(alloc)?, PROGRAM.to_vec(alloc)?];
    let refused = ToolFault::Input {
        file: 1,
        fault: wrong,
    };
    equals(&rt, link_objects(alloc, &mixed).err(), Some(refused));
    Ok(())
}

#[test]
fn memory_is_shown_where_hunks_lie(rt: HostRuntime) -> Result<(), Fail> {
    let alloc = rt.alloc();
    let budget = LocalHeap::new(alloc, BUDGET)?;
    let mut disk = Pieces::new(PROGRAM.to_vec(alloc)?, SECTOR, None);
    let image = load_program(&budget, &mut disk, 0x1000)?;
    equals(&rt, longword_at(&image, 0x1002), Some(0x0000_100C));
    equals(&rt, longword_at(&image, 0x1006), Some(0x4E75_4E71));
    equals(&rt, longword_at(&image, 0x100D), None);
    equals(&rt, longword_at(&image, 0xFFFF_FFFE), None);
    let shown = dump(alloc, &image, 0x100E..0x1011)?;
    let wanted = [Some(0x4E), Some(0x71), None];
    equals(&rt, shown.as_slice(), wanted.as_slice());
    Ok(())
}
