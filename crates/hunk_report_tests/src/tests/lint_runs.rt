//! Reading and writing that fails, while a file is linted.

use super::asserts::holds;
use super::runs::{Devices, Text, WHOLE, growths, is_run, is_taken};
use hunk_tool::ToolFault;
use hunk_words::{Fault, Reason};
use std::test::Fail;

/// A load file in which bits are ignored, with a second group for a hunk and a symbol past the hunk, and its text.
static ODD: [u32; 24] = [
    0x8000_03F3,
    0,
    1,
    0,
    0,
    2,
    0x3E9,
    0,
    0x3EC,
    1,
    0,
    0,
    1,
    0,
    4,
    0,
    0x3F0,
    1,
    0x6162_6364,
    9,
    0,
    0x3F1,
    0,
    0x3F2,
];

static TEXT: &[u8] = b"load file: 1 hunks\n\
    longword 0: the upper bits of the type are ignored\n\
    longword 13: a second group of relocations for hunk 0\n\
    hunk 0: symbol \"abcd\" 00000009 is past the hunk, which has 8 bytes\n";

#[test]
fn refuses_what_is_no_file(rt: HostRuntime) -> Result<(), Fail> {
    for (words, place) in [(&ODD[..23], 23), (&ODD[..2], 2), (&[], 0)] {
        let reason = Reason::UnexpectedEnd;
        let fault = Fault { place, reason };
        let wanted = Err(ToolFault::Input { file: 0, fault });
        is_run(&rt, rt.alloc(), Text::Lints, WHOLE, words, wanted, b"")?;
    }
    Ok(())
}

#[test]
fn tells_a_read_that_failed(rt: HostRuntime) -> Result<(), Fail> {
    for number in 0..3 {
        let failing = Some(number);
        let devices = Devices { failing, ..WHOLE };
        let wanted = Err(ToolFault::InputDevice { file: 0 });
        is_run(&rt, rt.alloc(), Text::Lints, devices, &ODD, wanted, b"")?;
    }
    Ok(())
}

#[test]
fn tells_what_a_writer_took(rt: HostRuntime) -> Result<(), Fail> {
    is_taken(&rt, rt.alloc(), Text::Lints, &ODD, TEXT)
}

#[test]
fn is_out_of_memory_with_each_growth_refused(rt: HostRuntime) -> Result<(), Fail> {
    let growths = growths(&rt, rt.alloc(), Text::Lints, WHOLE, &ODD, TEXT)?;
    holds(&rt, &("growths", growths), 1 <= growths);
    Ok(())
}
