//! Names that are hashed in other ways: what units link to stays the same.

use super::answers::{is_file, units_of};
use super::asserts::{equals_at, holds};
use super::choices::PLAIN;
use super::dice::Dice;
use super::made_plans::made_plans;
use super::plain_link::plain_link;
use super::plans::object_words;
use hunk_link::{NameHasher, link_units_with};
use hunk_loadfile::LoadForm;
use std::hash::{BuildHasher, Hasher};
use std::test::Fail;

/// How many units are linked, each with a key of its own.
const KEYS: u32 = 100;

const SEED: u32 = 7;

/// Gives every name the same hash.
#[derive(Clone, Copy)]
pub(crate) struct Alike;

impl Hasher for Alike {
    ghost write = { λ hasher bytes. hasher };

    ghost finish = { λ hasher. 7 };

    fn finish(&self) -> u64 {
        7
    }

    fn write(&mut self, _bytes: &[u8]) {}
}

impl BuildHasher for Alike {
    type Hasher = Alike;

    ghost build_hasher = { λ hasher. hasher };

    fn build_hasher(&self) -> Alike {
        *self
    }
}

#[test]
fn links_units_with_any_key(rt: HostRuntime) -> Result<(), Fail> {
    let alloc = rt.alloc();
    let mut dice = Dice::new(SEED);
    let mut files = 0u32;
    for row in 0..KEYS {
        let key = [dice.roll(u32::MAX) as u64, dice.roll(u32::MAX) as u64];
        let plans = made_plans(alloc, &mut dice, 3)?;
        let words = object_words(alloc, 0, 3, &plans)?;
        let units = units_of(alloc, alloc, &[&words])?;
        let linked = link_units_with(alloc, units, false, NameHasher::new(key));
        match (linked, plain_link(alloc, &plans, PLAIN)) {
            (Ok(file), Ok(wanted)) => {
                files = files.wrapping_add(1);
                is_file(&rt, alloc, alloc, &file, LoadForm::Plain, &wanted)?;
            }
            (Err(refusal), Err(wanted)) => equals_at(&rt, &row, refusal, wanted),
            _ => holds(&rt, &("a link and a refusal", row), false),
        }
    }
    holds(&rt, &files, 8 <= files);
    Ok(())
}

#[test]
fn hashes_the_key_before_the_name(rt: HostRuntime) {
    // What CPython's SipHash-1-3 with the key 0 gives for the key, the length of the name and the name.
    let rows: [([u64; 2], &[u8], u64); 5] = [
        ([0, 0], b"", 0xF900_3207_CF9E_4D4C),
        ([0, 0], b"foo", 0x1668_F2C7_133B_916E),
        ([1, 0], b"foo", 0x8D1C_B671_E655_804B),
        ([0, 1], b"foo", 0xBC6B_DD42_F741_BAEF),
        (
            [0x0123_4567_89AB_CDEF, u64::MAX],
            b"a name of more than sixteen bytes",
            0xA946_0178_8AB1_16B6,
        ),
    ];
    for (key, name, wanted) in rows {
        equals_at(
            &rt,
            &(key, name),
            NameHasher::new(key).hash_one(name),
            wanted,
        );
    }
}
