//! Units that link.

use super::cases::{BASES, Case, becomes};
use super::choices::{PLAIN, STRIP, STRIP_SHORT_TRIM};
use super::words::{
    ADDRESS, ASSEMBLED, DEFINES, DEFINES_NUMBER, EXAMPLE_LIBRARY, EXAMPLE_MAIN, LINKED,
    LINKED_ALONE, REFERS, REPORT, REPORT_ALONE, SMALLEST_ALONE, STRIPPED,
};
use hunk_tool::LinkOptions;
use std::test::Fail;

#[test]
fn links_two_units(rt: HostRuntime) -> Result<(), Fail> {
    let case = Case {
        objects: &[&REFERS, &DEFINES],
        options: PLAIN,
        linked: &LINKED,
        bases: &BASES,
        report: REPORT,
    };
    becomes(&rt, rt.alloc(), &case)
}

/// A number is added modulo 2^32, and nothing is left for the loader to add.
#[test]
fn adds_a_number_that_has_a_name(rt: HostRuntime) -> Result<(), Fail> {
    let mut refers = REFERS;
    refers[5] = 0x00014E75;
    let case = Case {
        objects: &[&refers, &DEFINES_NUMBER],
        options: PLAIN,
        linked: &[
            0x3F3, 0, 2, 0, 1, 2, 2, //
            0x3E9, 2, 0x4EB90000, 0x00004E75, 0x3F2, //
            0x3E9, 2, 0x4E714E71, 0x4E754E71, 0x3F2,
        ],
        bases: &BASES,
        report: "hunk 0 at 00010000 size 8\n00010000 4eb9000000004e75\n\
                 hunk 1 at 00020000 size 8\n00020000 4e714e714e754e71\n",
    };
    becomes(&rt, rt.alloc(), &case)
}

/// A name may stand for an offset far behind its hunk.
#[test]
fn adds_an_offset_modulo_2_to_the_32(rt: HostRuntime) -> Result<(), Fail> {
    let mut refers = REFERS;
    refers[4] = 0x4EB9FFFF;
    refers[5] = 0xFFFF4E75;
    let mut defines = DEFINES;
    defines[9] = 0xFFFFFFFF;
    let case = Case {
        objects: &[&refers, &defines],
        options: PLAIN,
        linked: &[
            0x3F3, 0, 2, 0, 1, 2, 2, //
            0x3E9, 2, 0x4EB9FFFF, 0xFFFE4E75, 0x3EC, 1, 1, 2, 0, 0x3F2, //
            0x3E9, 2, 0x4E714E71, 0x4E754E71, 0x3F2,
        ],
        bases: &BASES,
        report: "hunk 0 at 00010000 size 8\n00010000 4eb90001fffe4e75\n\
                 hunk 1 at 00020000 size 8\n00020000 4e714e714e754e71\n",
    };
    becomes(&rt, rt.alloc(), &case)
}

#[test]
fn numbers_hunks_over_all_units(rt: HostRuntime) -> Result<(), Fail> {
    let case = Case {
        objects: &[&DEFINES, &ADDRESS],
        options: PLAIN,
        linked: &[
            0x3F3, 0, 3, 0, 2, 2, 1, 4, //
            0x3E9, 2, 0x4E714E71, 0x4E754E71, 0x3F2, //
            0x3E9, 1, 8, 0x3EC, 1, 2, 0, 0, 0x3F2, //
            0x3EB, 4, 0x3F2,
        ],
        bases: &[0x1000, 0x2000, 0x3000],
        report: "hunk 0 at 00001000 size 8\n00001000 4e714e714e754e71\n\
                 hunk 1 at 00002000 size 4\n00002000 00003008\n\
                 hunk 2 at 00003000 size 16\n00003000 00000000000000000000000000000000\n",
    };
    becomes(&rt, rt.alloc(), &case)
}

/// Without an offset, a reference to a name that no hunk defines is none.
#[test]
fn links_a_reference_without_offsets(rt: HostRuntime) -> Result<(), Fail> {
    let refers = [
        0x3E7, 0, 0x3E9, 2, 0x4EB90000, 0x00004E75, //
        0x3EF, 0x81000001, 0x666F6F00, 0, 0, 0x3F2,
    ];
    let case = Case {
        objects: &[&refers],
        options: PLAIN,
        linked: &[
            0x3F3, 0, 1, 0, 0, 2, 0x3E9, 2, 0x4EB90000, 0x00004E75, 0x3F2,
        ],
        bases: &[0x10000],
        report: "hunk 0 at 00010000 size 8\n00010000 4eb9000000004e75\n",
    };
    becomes(&rt, rt.alloc(), &case)
}

#[test]
fn adds_a_name_at_each_of_its_offsets(rt: HostRuntime) -> Result<(), Fail> {
    let refers = [
        0x3E7, 0, 0x3E9, 3, 1, 2, 3, //
        0x3EF, 0x81000001, 0x666F6F00, 2, 8, 0, 0, 0x3F2,
    ];
    let case = Case {
        objects: &[&refers, &DEFINES],
        options: PLAIN,
        linked: &[
            0x3F3, 0, 2, 0, 1, 3, 2, //
            0x3E9, 3, 5, 2, 7, 0x3EC, 2, 1, 0, 8, 0, 0x3F2, //
            0x3E9, 2, 0x4E714E71, 0x4E754E71, 0x3F2,
        ],
        bases: &BASES,
        report: "hunk 0 at 00010000 size 12\n00010000 000200050000000200020007\n\
                 hunk 1 at 00020000 size 8\n00020000 4e714e714e754e71\n",
    };
    becomes(&rt, rt.alloc(), &case)
}

#[test]
fn keeps_the_memory_of_a_hunk(rt: HostRuntime) -> Result<(), Fail> {
    let case = Case {
        objects: &[&[0x3E7, 0, 0x400003EA, 1, 0, 0x3F2]],
        options: PLAIN,
        linked: &[0x3F3, 0, 1, 0, 0, 0x40000001, 0x3EA, 1, 0, 0x3F2],
        bases: &[0x10000],
        report: "hunk 0 at 00010000 size 4\n00010000 00000000\n",
    };
    becomes(&rt, rt.alloc(), &case)
}

#[test]
fn keeps_symbols_and_debug_blocks_unless_stripped(rt: HostRuntime) -> Result<(), Fail> {
    let rows: [(LinkOptions, &[u32]); 3] = [
        (PLAIN, &LINKED_ALONE),
        (STRIP, &STRIPPED),
        (STRIP_SHORT_TRIM, &SMALLEST_ALONE),
    ];
    for (options, linked) in rows {
        let case = Case {
            objects: &[&ASSEMBLED],
            options,
            linked,
            bases: &BASES,
            report: REPORT_ALONE,
        };
        becomes(&rt, rt.alloc(), &case)?;
    }
    Ok(())
}

#[test]
fn links_the_examples(rt: HostRuntime) -> Result<(), Fail> {
    let case = Case {
        objects: &[&EXAMPLE_MAIN, &EXAMPLE_LIBRARY],
        options: PLAIN,
        linked: &[
            0x3F3, 0, 4, 0, 3, 4, 4, 5, 0x40000004, //
            0x3E9, 4, 0x41F90000, 0x00004EB9, 0x00000008, 0x4E754E71, //
            0x3EC, 1, 1, 2, 1, 2, 8, 0, 0x3F2, //
            0x3EA, 4, 0x48656C6C, 0x6F2C2041, 0x6D696761, 0x210A0000, 0x3F2, //
            0x3E9, 5, 0x42390000, 0x00004E75, 0x43F90000, 0x000012D8, 0x66FC4E75, //
            0x3EC, 2, 3, 2, 10, 0, //
            0x3F0, 1, 0x6C6F6F70, 14, 0, 0x3F1, 2, 0, 0x4C494E45, 0x3F2, //
            0x3EB, 4, 0x3F2,
        ],
        bases: &[0x10000, 0x20000, 0x30000, 0x40000],
        report: "hunk 0 at 00010000 size 16\n00010000 41f9000200004eb9000300084e754e71\n\
                 hunk 1 at 00020000 size 16\n00020000 48656c6c6f2c20416d696761210a0000\n\
                 hunk 2 at 00030000 size 20\n00030000 4239000400004e7543f90004000012d8\n\
                 00030010 66fc4e75\n\
                 hunk 3 at 00040000 size 16\n00040000 00000000000000000000000000000000\n",
    };
    becomes(&rt, rt.alloc(), &case)
}
