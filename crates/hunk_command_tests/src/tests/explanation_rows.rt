//! The rows of `explanations`: what is asked for, the line of its failure, and what is told after it.

use hunk_commands::Addresses;

/// What is asked for, but for `--explain`.
#[derive(Clone, Copy, Debug, PartialEq, Eq)]
pub(super) enum Asked {
    /// `link --out out` of these files.
    Link(&'static [&'static str]),
    /// `link --out` this, of `caller` and `callee`.
    LinkTo(&'static str),
    Image(Addresses<'static>, &'static [&'static str]),
    Load(Addresses<'static>, &'static str),
    Check(&'static str),
    Show(&'static str),
}

/// What is asked for, the line of its failure, and what is told after it.
pub(super) type Row = (Asked, &'static str, &'static str);

/// Files that are refused.
pub(super) static REFUSED: [Row; 10] = [
    (
        Asked::Check("mistyped"),
        "amihunk: mistyped: longword 5: unknown block type 1023\n",
        "  at byte 20 (00000014)\n  found 000003ff\n  path: unit 0, hunk 0, after HUNK_CODE\n  \
         due: the type of a block\n",
    ),
    (
        Asked::Show("unended"),
        "amihunk: unended: longword 5: file ends inside a longword\n",
        "  at byte 20 (00000014)\n  \
         found the end of the file, after 2 of the 4 bytes of a longword\n  \
         path: unit 0, hunk 0, after HUNK_CODE\n  due: the type of a block\n",
    ),
    (
        Asked::Check("trailing"),
        "amihunk: trailing: longword 10: data after the last hunk\n",
        "  at byte 40 (00000028)\n  found 00001234\n  path: hunk 0, after HUNK_END\n  \
         due: the end of the file\n",
    ),
    (
        Asked::Show("trailing"),
        "amihunk: trailing: longword 10: data after the last hunk\n",
        "  at byte 40 (00000028)\n  found 00001234\n  path: hunk 0, after HUNK_END\n  \
         due: the end of the file\n",
    ),
    (
        Asked::Load(Addresses::List("10000"), "caller"),
        "amihunk: caller: longword 0: wrong first longword\n",
        "  at byte 0 (00000000)\n  found 000003e7\n  path: start of the file\n  \
         due: HUNK_HEADER, which begins a load file\n  kind: object file\n",
    ),
    (
        Asked::Load(Addresses::File("addresses-pipe"), "trailing"),
        "amihunk: trailing: longword 10: data after the last hunk\n",
        "  at byte 40 (00000028)\n  found 00001234\n  path: hunk 0, after HUNK_END\n  \
         due: the end of the file\n",
    ),
    (
        Asked::Link(&["callee", "mistyped", "trailing"]),
        "amihunk: mistyped: longword 5: unknown block type 1023\n",
        "  at byte 20 (00000014)\n  found 000003ff\n  path: unit 0, hunk 0, after HUNK_CODE\n  \
         due: the type of a block\n",
    ),
    (
        Asked::Link(&["program"]),
        "amihunk: program: longword 0: wrong first longword\n",
        "  at byte 0 (00000000)\n  found 000003f3\n  path: start of the file\n  \
         due: HUNK_UNIT, which begins an object file\n  kind: load file\n",
    ),
    (
        Asked::Image(Addresses::List("0"), &["caller", "unended"]),
        "amihunk: unended: longword 5: file ends inside a longword\n",
        "  at byte 20 (00000014)\n  \
         found the end of the file, after 2 of the 4 bytes of a longword\n  \
         path: unit 0, hunk 0, after HUNK_CODE\n  due: the type of a block\n",
    ),
    // Only the file that is refused is read again.
    (
        Asked::Image(Addresses::List("0"), &["pipe", "mistyped"]),
        "amihunk: mistyped: longword 5: unknown block type 1023\n",
        "  at byte 20 (00000014)\n  found 000003ff\n  path: unit 0, hunk 0, after HUNK_CODE\n  \
         due: the type of a block\n",
    ),
];

/// Hunks that cannot be placed.
pub(super) static UNPLACED: [Row; 5] = [
    (
        Asked::Load(Addresses::List("10000"), "program"),
        "amihunk: places: wrong number of addresses\n",
        "  hunks: 2, addresses: 1\n  hunk 0: 8 bytes at 00010000\n  hunk 1: 8 bytes, no address\n",
    ),
    (
        Asked::Load(Addresses::List("10000,10004"), "program"),
        "amihunk: places: hunks 0 and 1 overlap\n",
        "  hunks: 2, addresses: 2\n  hunk 0: 8 bytes at 00010000\n  hunk 1: 8 bytes at 00010004\n",
    ),
    (
        Asked::Load(Addresses::List("10000,fffffffc"), "program"),
        "amihunk: places: hunk 1 passes the end of memory\n",
        "  hunks: 2, addresses: 2\n  hunk 0: 8 bytes at 00010000\n  hunk 1: 8 bytes at fffffffc\n",
    ),
    (
        Asked::Image(Addresses::File("addresses"), &["loop"]),
        "amihunk: places: wrong number of addresses\n",
        "  hunks: 1, addresses: 2\n  hunk 0: 4 bytes at 00010000\n",
    ),
    (
        Asked::Image(Addresses::List("0,4"), &["caller", "callee"]),
        "amihunk: places: hunks 0 and 1 overlap\n",
        "  hunks: 2, addresses: 2\n  hunk 0: 8 bytes at 00000000\n  hunk 1: 8 bytes at 00000004\n",
    ),
];

/// Units that do not link.
pub(super) static UNLINKED: [Row; 3] = [
    (
        Asked::Link(&["loop", "caller", "caller"]),
        "amihunk: link: unit 1 hunk 0: \"foo\" not defined\n",
        "  unit 1 hunk 0: caller unit 0 \"\" hunk 0 \"\"\n  \
         \"foo\", references: 2, first in caller unit 0 \"\" hunk 0 \"\"\n",
    ),
    (
        Asked::Link(&["loop", "callee", "callee"]),
        "amihunk: link: unit 2 hunk 0: \"foo\" defined again\n",
        "  unit 2 hunk 0: callee unit 0 \"\" hunk 0 \"\"\n  \
         first defined in callee unit 0 \"\" hunk 0 \"\"\n",
    ),
    (
        Asked::Image(Addresses::List("0"), &["caller"]),
        "amihunk: link: unit 0 hunk 0: \"foo\" not defined\n",
        "  unit 0 hunk 0: caller unit 0 \"\" hunk 0 \"\"\n  \
         \"foo\", references: 1, first in caller unit 0 \"\" hunk 0 \"\"\n",
    ),
];

/// Failures that are not explained, since a file is not read again, and why.
pub(super) static UNEXPLAINED: [Row; 6] = [
    (
        Asked::Link(&["pipe", "caller"]),
        "amihunk: link: unit 1 hunk 0: \"foo\" not defined\n",
        NOT_REGULAR,
    ),
    (
        Asked::Check("changed"),
        "amihunk: changed: longword 5: unknown block type 1023\n",
        CHANGED,
    ),
    (
        Asked::Link(&["mended"]),
        "amihunk: mended: longword 5: unknown block type 1023\n",
        CHANGED,
    ),
    (
        Asked::Show("mistyped-pipe"),
        "amihunk: mistyped-pipe: longword 5: unknown block type 1023\n",
        NOT_REGULAR,
    ),
    (
        Asked::Load(Addresses::File("addresses-pipe"), "program"),
        "amihunk: places: wrong number of addresses\n",
        NOT_REGULAR,
    ),
    (
        Asked::Image(Addresses::List("0"), &["pipe", "loop"]),
        "amihunk: places: wrong number of addresses\n",
        NOT_REGULAR,
    ),
];

/// What is told where a file is not a regular one.
const NOT_REGULAR: &str = "  not explained: only regular files can be read again\n";

/// What is told where a file cannot be read as it was.
pub(super) const CHANGED: &str = "  not explained: a file has changed, or cannot be read again\n";

/// Failures of which nothing is told after their lines.
pub(super) static WITHOUT_MORE: [(Asked, u8, &str); 2] = [
    (
        Asked::Load(Addresses::List("0,x"), "program"),
        2,
        "amihunk: --at: part 1 is not 1 to 8 hexadecimal digits\n",
    ),
    (Asked::Check("caller"), 3, "amihunk: output: write failed\n"),
];
