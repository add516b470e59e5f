//! Errors: their lines and their statuses.

use super::asserts::{equals, equals_at};
use hunk_link::LinkRefusal;
use hunk_tool::{PlaceFault, ToolFault, status_of, write_fault};
use hunk_words::{Fault, Name, Reason, Room};
use std::alloc::Global;
use std::process::Abort;

/// The name in one longword.
fn name_in(rt: &impl Abort, alloc: Global, word: u32) -> Name {
    Name::from_words(alloc, &[word]).expect(rt, "a name")
}

/// Writes the line of a fault of the inputs `x` and `y`.
fn is_told(rt: &impl Abort, alloc: Global, fault: ToolFault, line: &str) {
    let files = [
        String::from_str(alloc, "x").expect(rt, "a name"),
        String::from_str(alloc, "y").expect(rt, "a name"),
    ];
    let mut room = Room::new(alloc, 7, 100, false).expect(rt, "room");
    equals(rt, write_fault(&files, &fault, &mut room), Ok(()));
    equals(rt, room.bytes(), line.as_bytes());
}

fn is_told_of_link(rt: &impl Abort, alloc: Global, refusal: LinkRefusal, line: &str) {
    is_told(rt, alloc, ToolFault::Link(refusal), line);
}

#[test]
fn tells_each_refusal(rt: HostRuntime) {
    let alloc = rt.alloc();
    let fault = Fault {
        place: 7,
        reason: Reason::ContentTooLong,
    };
    is_told(
        &rt,
        alloc,
        ToolFault::Input { file: 0, fault },
        "amihunk: x: longword 7: block longer than its hunk\n",
    );
    let fault = Fault {
        place: 15,
        reason: Reason::SiteOverlap(4),
    };
    is_told(
        &rt,
        alloc,
        ToolFault::Input { file: 1, fault },
        "amihunk: y: longword 15: site 00000004 overlaps another\n",
    );
    is_told(
        &rt,
        alloc,
        ToolFault::InputDevice { file: 1 },
        "amihunk: y: read failed\n",
    );
    // There is no name for it.
    is_told(
        &rt,
        alloc,
        ToolFault::InputDevice { file: 2 },
        "amihunk: : read failed\n",
    );
    is_told(
        &rt,
        alloc,
        ToolFault::Place(PlaceFault::Overlap(0, 12)),
        "amihunk: places: hunks 0 and 12 overlap\n",
    );
    is_told(
        &rt,
        alloc,
        ToolFault::OutOfMemory { written: 0 },
        "amihunk: out of memory\n",
    );
    is_told_of_link(
        &rt,
        alloc,
        LinkRefusal::NoHunks,
        "amihunk: link: no hunks\n",
    );
    is_told_of_link(
        &rt,
        alloc,
        LinkRefusal::TooManyHunks,
        "amihunk: link: more than 65535 hunks\n",
    );
    is_told_of_link(
        &rt,
        alloc,
        LinkRefusal::TooLarge,
        "amihunk: link: too large\n",
    );
    is_told_of_link(
        &rt,
        alloc,
        LinkRefusal::NoSuchHunk {
            unit: 0,
            hunk: 0,
            target: 2,
        },
        "amihunk: link: unit 0 hunk 0: no hunk 2 in its unit\n",
    );
    is_told_of_link(
        &rt,
        alloc,
        LinkRefusal::DuplicateName {
            unit: 2,
            hunk: 0,
            name: name_in(&rt, alloc, 0x666F_6F00),
        },
        "amihunk: link: unit 2 hunk 0: \"foo\" defined again\n",
    );
    for (word, line) in [
        (
            0x666F_6F00,
            "amihunk: link: unit 0 hunk 0: \"foo\" not defined\n",
        ),
        (
            0x6122_FF00,
            "amihunk: link: unit 0 hunk 0: \"a\\x22\\xff\" not defined\n",
        ),
    ] {
        let refusal = LinkRefusal::UndefinedName {
            unit: 0,
            hunk: 0,
            name: name_in(&rt, alloc, word),
        };
        is_told_of_link(&rt, alloc, refusal, line);
    }
}

#[test]
fn has_a_status_for_each_fault(rt: HostRuntime) {
    let fault = Fault {
        place: 9,
        reason: Reason::UnexpectedEnd,
    };
    let rows: [(ToolFault, u8); 6] = [
        (ToolFault::Input { file: 2, fault }, 1),
        (ToolFault::Link(LinkRefusal::NoHunks), 1),
        (ToolFault::Place(PlaceFault::WrongCount), 1),
        (ToolFault::InputDevice { file: 0 }, 3),
        (ToolFault::Output { written: 10 }, 3),
        (ToolFault::OutOfMemory { written: 0 }, 4),
    ];
    for (fault, status) in rows {
        equals_at(&rt, &fault, status_of(&fault), status);
    }
}
