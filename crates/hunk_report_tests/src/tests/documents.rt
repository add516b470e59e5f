//! Files of either kind as JSON, from readers to writers.

use super::asserts::holds;
use super::runs::{Devices, Text, WHOLE, growths, is_run, is_taken, is_written};
use super::{load, object};
use hunk_tool::ToolFault;
use hunk_words::{Fault, Reason};
use std::alloc::Global;
use std::process::Abort;
use std::test::Fail;

/// A file of three longwords, and its line. The bytes of its unit's name are not UTF-8.
static NAMED: [u32; 3] = [0x3E7, 1, 0x41225CFF];

static LINE: &[u8] =
    b"{\"kind\":\"object file\",\"units\":[{\"hunks\":[],\"name\":[65,34,92,255]}]}\n";

/// The line of these longwords is this text and its end, however they are read.
fn is_told(rt: &impl Abort, alloc: Global, words: &[u32], text: &str) -> Result<(), Fail> {
    let mut line = String::from_str(alloc, text)?;
    line.push_str("\n")?;
    is_written(rt, alloc, Text::Document, words, line.as_bytes())
}

#[test]
fn writes_files_of_either_kind(rt: HostRuntime) -> Result<(), Fail> {
    for (words, text) in &load::FILES {
        is_told(&rt, rt.alloc(), words, text)?;
    }
    for (words, text) in &object::FILES {
        is_told(&rt, rt.alloc(), words, text)?;
    }
    is_run(&rt, rt.alloc(), Text::Document, WHOLE, &NAMED, Ok(()), LINE)
}

#[test]
fn refuses_what_is_no_file(rt: HostRuntime) -> Result<(), Fail> {
    for (words, place) in [(&NAMED[..2], 2), (&[0x3F3], 1), (&[], 0)] {
        let reason = Reason::UnexpectedEnd;
        let fault = Fault { place, reason };
        let wanted = Err(ToolFault::Input { file: 0, fault });
        is_run(&rt, rt.alloc(), Text::Document, WHOLE, words, wanted, b"")?;
    }
    Ok(())
}

#[test]
fn tells_a_read_that_failed(rt: HostRuntime) -> Result<(), Fail> {
    for (chunk, count) in [(64, 2), (5, 4)] {
        for number in 0..count {
            let failing = Some(number);
            let devices = Devices {
                chunk,
                failing,
                ..WHOLE
            };
            let wanted = Err(ToolFault::InputDevice { file: 0 });
            is_run(
                &rt,
                rt.alloc(),
                Text::Document,
                devices,
                &NAMED,
                wanted,
                b"",
            )?;
        }
    }
    Ok(())
}

#[test]
fn tells_what_a_writer_took(rt: HostRuntime) -> Result<(), Fail> {
    is_taken(&rt, rt.alloc(), Text::Document, &NAMED, LINE)
}

#[test]
fn is_out_of_memory_with_each_growth_refused(rt: HostRuntime) -> Result<(), Fail> {
    let growths = growths(&rt, rt.alloc(), Text::Document, WHOLE, &NAMED, LINE)?;
    holds(&rt, &("growths", growths), 1 <= growths);
    Ok(())
}
