//! A key from the system's source of random bytes.

use std::random::RandomSource;

/// A key from this source of random bytes, or one of zeros where it gives none.
pub fn random_key(source: &impl RandomSource) -> [u64; 2] {
    let mut key = [0; 2];
    for half in &mut key {
        let mut bytes = [0; 8];
        if source.fill_bytes(&mut bytes).is_ok() {
            *half = u64::from_le_bytes(bytes);
        }
    }
    key
}
