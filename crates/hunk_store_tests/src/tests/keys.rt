//! Keys from sources of random bytes.

use super::asserts::equals;
use hunk_store::random_key;
use std::cell::Cell;
use std::io;
use std::io::ErrorKind;
use std::random::RandomSource;

/// Gives the numbers from 1 on, one a byte, at most so many of them.
#[derive(Drop)]
struct Counting {
    next: Cell<u8>,
    most: u8,
}

impl RandomSource for Counting {
    fn fill_bytes(&self, buf: &mut [u8]) -> io::Result<()> {
        for byte in buf {
            let next = self.next.get();
            if next > self.most {
                return Err(io::Error::from(ErrorKind::Other));
            }
            *byte = next;
            self.next.set(next.wrapping_add(1));
        }
        Ok(())
    }
}

/// The key from a source of so many bytes.
fn key_of(most: u8) -> [u64; 2] {
    random_key(&Counting {
        next: Cell::new(1),
        most,
    })
}

#[test]
fn a_key_is_of_the_bytes_that_are_there(rt: HostRuntime) {
    let first = 0x0807_0605_0403_0201;
    equals(&rt, key_of(16), [first, 0x100F_0E0D_0C0B_0A09]);
    equals(&rt, key_of(15), [first, 0]);
    equals(&rt, key_of(7), [0, 0]);
    equals(&rt, key_of(0), [0, 0]);
}
