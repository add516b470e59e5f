//! Readers that never end.

use super::asserts::equals;
use hunk_test_support::{BASE, FILE, bytes_of};
use hunk_tool::{ToolFault, load_run};
use hunk_words::{DeviceFault, Fault, Reason, Room, Source};
use std::test::Fail;

/// Some bytes, and then one byte without end.
#[derive(Drop)]
pub(crate) struct Endless<'a> {
    pub front: &'a [u8],
    pub after: u8,
}

impl Source for Endless<'_> {
    ghost use Rattle.std.specs.Prelude.{None, false};

    ghost left = { λ _. None };

    ghost failed = { λ _. false };

    ghost ended = { λ _. false };

    fn read(&mut self, buffer: &mut [u8]) -> Result<usize, DeviceFault> {
        let count = self.front.len().min(buffer.len());
        buffer[..count].copy_from_slice(&self.front[..count]);
        buffer[count..].fill(self.after);
        self.front = &self.front[count..];
        Ok(buffer.len())
    }

    fn failed(&self) -> bool {
        false
    }

    fn ended(&self) -> bool {
        false
    }
}

/// A hunk's name of 2^32 - 1 longwords. The first longword that no file may have is rejected.
#[test]
fn stops_at_the_longest_file(rt: HostRuntime) -> Result<(), Fail> {
    let mut words = FILE[..6].to_vec(rt.alloc())?;
    words.extend_from_slice(&[0x0000_03E8, 0xFFFF_FFFF])?;
    let bytes = bytes_of(rt.alloc(), &words, &[])?;
    let mut reader = Endless {
        front: &bytes,
        after: 0,
    };
    let mut writer = Room::new(rt.alloc(), 64, 64, false)?;
    let fault = Fault {
        place: 268_435_456,
        reason: Reason::TooLarge,
    };
    let got = load_run(rt.alloc(), &mut reader, &[BASE], &mut writer);
    equals(&rt, got, Err(ToolFault::Input { file: 0, fault }));
    equals(&rt, writer.bytes(), b"".as_slice());
    Ok(())
}
