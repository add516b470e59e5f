//! Lists of addresses.

use super::asserts::{equals, equals_at};
use hunk_tool::{BasesFault, parse_bases};

#[test]
fn reads_lists(rt: HostRuntime) {
    let bases = parse_bases(rt.alloc(), "10000,FfFffff8");
    equals(
        &rt,
        bases.as_deref(),
        Ok([0x1_0000, 0xFFFF_FFF8].as_slice()),
    );
    for (text, index) in [
        ("", 0),
        ("1,,2", 1),
        ("1,", 1),
        ("123456789", 0),
        ("0x10", 0),
        ("1,2,+3", 2),
    ] {
        equals_at(
            &rt,
            &text,
            parse_bases(rt.alloc(), text).err(),
            Some(BasesFault::BadNumber(index)),
        );
    }
}
