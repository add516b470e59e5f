//! One object file, and its load file for every choice of options.

use super::cases::{Case, becomes};
use super::choices::{
    PLAIN, SHORT, SHORT_TRIM, STRIP, STRIP_SHORT, STRIP_SHORT_TRIM, STRIP_TRIM, TRIM,
};
use hunk_tool::LinkOptions;
use std::test::Fail;

/// Three hunks that end with zeros: code with a site that lies across two longwords, data with two
/// sites, and data without a site. The sites of the second hunk have targets in descending order.
pub(crate) static ZEROS_LAST: [u32; 44] = [
    0x3E7, 0, //
    0x3E9, 4, 0x4E714E71, 0, 0, 0, 0x3EC, 1, 0, 6, 0, //
    0x3F0, 1, 0x6C6F6F70, 2, 0, 0x3F2, //
    0x3EA, 3, 0, 0, 0, 0x3EC, 1, 2, 0, 1, 0, 4, 0, 0x3F2, //
    0x400003EA, 2, 0, 0, 0x3F1, 1, 0x12345678, 0x3F2, //
    0x3EB, 1, 0x3F2,
];

/// Where its hunks are placed.
pub(crate) static FORM_BASES: [u32; 4] = [0x0001_0000, 0x0002_0000, 0x0003_0000, 0x0004_0000];

/// Their memory there.
pub(crate) const FORM_REPORT: &str = "hunk 0 at 00010000 size 16\n\
                                      00010000 4e714e71000000010000000000000000\n\
                                      hunk 1 at 00020000 size 12\n\
                                      00020000 000300000001000000000000\n\
                                      hunk 2 at 00030000 size 8\n\
                                      00030000 0000000000000000\n\
                                      hunk 3 at 00040000 size 4\n\
                                      00040000 00000000\n";

/// Every choice of options, in the order of `CHOICES`, and the longwords of the load file.
///
/// The relocations of the first hunk are four words in the short form. Those of the second one are
/// seven, and one more that fills the last longword.
pub(crate) static FORMS: [(LinkOptions, &[u32]); 8] = [
    (
        PLAIN,
        &[
            0x3F3, 0, 4, 0, 3, 4, 3, 0x40000002, 1, //
            0x3E9, 4, 0x4E714E71, 0, 0, 0, 0x3EC, 1, 0, 6, 0, //
            0x3F0, 1, 0x6C6F6F70, 2, 0, 0x3F2, //
            0x3EA, 3, 0, 0, 0, 0x3EC, 1, 0, 4, 1, 2, 0, 0, 0x3F2, //
            0x3EA, 2, 0, 0, 0x3F1, 1, 0x12345678, 0x3F2, //
            0x3EB, 1, 0x3F2,
        ],
    ),
    (
        STRIP,
        &[
            0x3F3, 0, 4, 0, 3, 4, 3, 0x40000002, 1, //
            0x3E9, 4, 0x4E714E71, 0, 0, 0, 0x3EC, 1, 0, 6, 0, 0x3F2, //
            0x3EA, 3, 0, 0, 0, 0x3EC, 1, 0, 4, 1, 2, 0, 0, 0x3F2, //
            0x3EA, 2, 0, 0, 0x3F2, //
            0x3EB, 1, 0x3F2,
        ],
    ),
    (
        SHORT,
        &[
            0x3F3, 0, 4, 0, 3, 4, 3, 0x40000002, 1, //
            0x3E9, 4, 0x4E714E71, 0, 0, 0, 0x3FC, 0x00010000, 0x00060000, //
            0x3F0, 1, 0x6C6F6F70, 2, 0, 0x3F2, //
            0x3EA, 3, 0, 0, 0, 0x3FC, 0x00010000, 0x00040001, 0x00020000, 0, 0x3F2, //
            0x3EA, 2, 0, 0, 0x3F1, 1, 0x12345678, 0x3F2, //
            0x3EB, 1, 0x3F2,
        ],
    ),
    (
        STRIP_SHORT,
        &[
            0x3F3, 0, 4, 0, 3, 4, 3, 0x40000002, 1, //
            0x3E9, 4, 0x4E714E71, 0, 0, 0, 0x3FC, 0x00010000, 0x00060000, 0x3F2, //
            0x3EA, 3, 0, 0, 0, 0x3FC, 0x00010000, 0x00040001, 0x00020000, 0, 0x3F2, //
            0x3EA, 2, 0, 0, 0x3F2, //
            0x3EB, 1, 0x3F2,
        ],
    ),
    (
        TRIM,
        &[
            0x3F3, 0, 4, 0, 3, 4, 3, 0x40000002, 1, //
            0x3E9, 3, 0x4E714E71, 0, 0, 0x3EC, 1, 0, 6, 0, //
            0x3F0, 1, 0x6C6F6F70, 2, 0, 0x3F2, //
            0x3EA, 2, 0, 0, 0x3EC, 1, 0, 4, 1, 2, 0, 0, 0x3F2, //
            0x3EA, 0, 0x3F1, 1, 0x12345678, 0x3F2, //
            0x3EB, 1, 0x3F2,
        ],
    ),
    (
        STRIP_TRIM,
        &[
            0x3F3, 0, 4, 0, 3, 4, 3, 0x40000002, 1, //
            0x3E9, 3, 0x4E714E71, 0, 0, 0x3EC, 1, 0, 6, 0, 0x3F2, //
            0x3EA, 2, 0, 0, 0x3EC, 1, 0, 4, 1, 2, 0, 0, 0x3F2, //
            0x3EA, 0, 0x3F2, //
            0x3EB, 1, 0x3F2,
        ],
    ),
    (
        SHORT_TRIM,
        &[
            0x3F3, 0, 4, 0, 3, 4, 3, 0x40000002, 1, //
            0x3E9, 3, 0x4E714E71, 0, 0, 0x3FC, 0x00010000, 0x00060000, //
            0x3F0, 1, 0x6C6F6F70, 2, 0, 0x3F2, //
            0x3EA, 2, 0, 0, 0x3FC, 0x00010000, 0x00040001, 0x00020000, 0, 0x3F2, //
            0x3EA, 0, 0x3F1, 1, 0x12345678, 0x3F2, //
            0x3EB, 1, 0x3F2,
        ],
    ),
    (
        STRIP_SHORT_TRIM,
        &[
            0x3F3, 0, 4, 0, 3, 4, 3, 0x40000002, 1, //
            0x3E9, 3, 0x4E714E71, 0, 0, 0x3FC, 0x00010000, 0x00060000, 0x3F2, //
            0x3EA, 2, 0, 0, 0x3FC, 0x00010000, 0x00040001, 0x00020000, 0, 0x3F2, //
            0x3EA, 0, 0x3F2, //
            0x3EB, 1, 0x3F2,
        ],
    ),
];

#[test]
fn writes_the_load_file_of_every_choice(rt: HostRuntime) -> Result<(), Fail> {
    for &(options, linked) in &FORMS {
        let case = Case {
            objects: &[&ZEROS_LAST],
            options,
            linked,
            bases: &FORM_BASES,
            report: FORM_REPORT,
        };
        becomes(&rt, rt.alloc(), &case)?;
    }
    Ok(())
}
