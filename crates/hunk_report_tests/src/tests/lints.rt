//! Files with what is told of them, both written by hand.

use super::runs::{Text, is_written};
use std::test::Fail;

/// Files with their texts.
static FILES: [(&[u32], &str); 14] = [
    // Nothing is odd in it. The header asks for memory.
    (
        &[0x3F3, 0, 1, 0, 0, 0x4000_0001, 0x3E9, 1, 0x4E75_4E71, 0x3F2],
        "load file: 1 hunks\n",
    ),
    // Bits that are ignored, and a name.
    (
        &[
            0x8000_03F3,
            0,
            1,
            0,
            0,
            1,
            0x8000_03E8,
            1,
            0x6162_0000,
            0xC000_03E9,
            0x8000_0001,
            0x4E75_4E71,
            0x4000_03F2,
        ],
        "load file: 1 hunks\n\
         longword 0: the upper bits of the type are ignored\n\
         longword 6: the upper bits of the type are ignored\n\
         longword 6: the name of a hunk of a load file is ignored\n\
         longword 9: the upper bits of the type are ignored\n\
         longword 10: the upper bits of the size are ignored\n\
         longword 12: the upper bits of the type are ignored\n",
    ),
    // Bits of the types of content are memory in an object file.
    (
        &[
            0x3E7,
            0,
            0x8000_03E9,
            0x8000_0001,
            0x4E75_4E71,
            0x8000_03F1,
            1,
            0xFFFF_FFFF,
            0x3F2,
        ],
        "object file: 1 units, 1 hunks\n\
         longword 3: the upper bits of the size are ignored\n\
         longword 5: the upper bits of the type are ignored\n",
    ),
    // The second hunk has another size in its block than in the header.
    (
        &[0x3F3, 0, 2, 0, 1, 3, 5, 0x3EB, 3, 0x3F2, 0x3EB, 3, 0x3F2],
        "load file: 2 hunks\n\
         longword 11: the size of the BSS block is not the one in the header, which counts\n",
    ),
    // Odd offsets, also in 16 bits, the second of a longword.
    (
        &[
            0x3F3,
            0,
            1,
            0,
            0,
            4,
            0x3E9,
            1,
            0,
            0x3FC,
            0x0002_0000,
            0x0005_000A,
            0,
            0x3F2,
        ],
        "load file: 1 hunks\nhunk 0: site 00000005 is at an odd offset\n",
    ),
    // The ends of hunks, and what is past them. What is not stored is zeros.
    (
        &[
            0x3F3,
            0,
            2,
            0,
            1,
            4,
            2,
            0x3E9,
            3,
            8,
            9,
            0x0000_0001,
            0x3EC,
            3,
            1,
            11,
            4,
            0,
            0,
            0x3F2,
            0x3EA,
            0,
            0x3F0,
            1,
            0x6500_0000,
            8,
            1,
            0x6622_0000,
            9,
            0,
            0x3F2,
        ],
        "load file: 2 hunks\n\
         hunk 0: site 00000004 points to 00000009 of hunk 1, which has 8 bytes\n\
         hunk 0: site 0000000b is at an odd offset\n\
         hunk 0: site 0000000b points to 01000000 of hunk 1, which has 8 bytes\n\
         hunk 1: symbol \"f\\x22\" 00000009 is past the hunk, which has 8 bytes\n",
    ),
    // Blocks without offsets, and a second group for a hunk.
    (
        &[
            0x3F3,
            0,
            1,
            0,
            0,
            2,
            0x3E9,
            0,
            0x3EC,
            0,
            0x3FC,
            0x0000_BEEF,
            0x3EC,
            1,
            0,
            0,
            1,
            0,
            4,
            0,
            0x3EC,
            0,
            0x3F2,
        ],
        "load file: 1 hunks\n\
         longword 9: a relocation block without offsets\n\
         longword 11: a relocation block without offsets\n\
         longword 17: a second group of relocations for hunk 0\n\
         longword 21: a relocation block without offsets\n",
    ),
    // Groups of two blocks, and of two hunks.
    (
        &[
            0x3F3, 0, 2, 0, 1, 2, 2, 0x3E9, 0, 0x3EC, 1, 1, 0, 1, 0, 4, 0, 0x3F2, 0x3E9, 0, 0x3EC,
            1, 1, 0, 0, 0x3EC, 1, 1, 4, 0, 0x3F2,
        ],
        "load file: 2 hunks\n",
    ),
    // Names: of symbols, of a unit, and of what is defined and referred to.
    (
        &[
            0x3F3,
            0,
            1,
            0,
            0,
            0,
            0x3E9,
            0,
            0x3F0,
            2,
            0x6100_6200,
            0x6363_0000,
            0,
            2,
            0x6162_0000,
            0,
            0,
            3,
            0x6162_6364,
            0x0000_0000,
            0x0000_0001,
            0,
            0,
            0x3F2,
        ],
        "load file: 1 hunks\n\
         longword 10: bytes after a zero byte of the name are ignored\n\
         longword 20: bytes after a zero byte of the name are ignored\n",
    ),
    (
        &[
            0x3E7,
            1,
            0x7500_7600,
            0x3E8,
            1,
            0x6E00_0001,
            0x3E9,
            0,
            0x3EF,
            0x0100_0001,
            0x6100_0062,
            0,
            0x8100_0001,
            0x7800_0000,
            0,
            0,
            0x3F2,
        ],
        "object file: 1 units, 1 hunks\n\
         longword 2: bytes after a zero byte of the name are ignored\n\
         longword 5: bytes after a zero byte of the name are ignored\n\
         longword 10: bytes after a zero byte of the name are ignored\n\
         longword 14: a reference without offsets is ignored\n",
    ),
    // A reference is odd as a relocation is, and points nowhere.
    (
        &[
            0x3E7,
            0,
            0x3E9,
            2,
            0xFFFF_FFFF,
            0,
            0x3EF,
            0x8100_0001,
            0x7800_0000,
            1,
            3,
            0,
            0x3F2,
        ],
        "object file: 1 units, 1 hunks\nunit 0 hunk 0: site 00000003 is at an odd offset\n",
    ),
    // A hunk that the unit does not have, and one of another unit.
    (
        &[
            0x3E7, 0, 0x3E7, 0, 0x3EA, 1, 9, 0x3EC, 1, 1, 0, 0, 0x3F2, 0x3E7, 0, 0x3EB, 2, 0x3F2,
            0x3EA, 1, 9, 0x3EC, 1, 0, 0, 0, 0x3F2,
        ],
        "object file: 3 units, 3 hunks\n\
         unit 0: no hunks\n\
         unit 1 hunk 0: site 00000000 adds hunk 1, and the unit has 1 hunks\n\
         unit 2 hunk 1: site 00000000 points to 00000009 of hunk 0, which has 8 bytes\n",
    ),
    (
        &[0x3E7, 0],
        "object file: 1 units, 0 hunks\nunit 0: no hunks\n",
    ),
    (
        &[0x3E7, 0, 0x3EB, 1, 0x3F0, 1, 0x6162_6364, 5, 0, 0x3F2],
        "object file: 1 units, 1 hunks\n\
         unit 0 hunk 0: symbol \"abcd\" 00000005 is past the hunk, which has 4 bytes\n",
    ),
];

#[test]
fn tells_what_is_odd_in_a_file(rt: HostRuntime) -> Result<(), Fail> {
    for &(words, text) in &FILES {
        is_written(&rt, rt.alloc(), Text::Lints, words, text.as_bytes())?;
    }
    Ok(())
}
