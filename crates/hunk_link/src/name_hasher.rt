//! How names are hashed that may come from strangers.
ghost use Rattle.std.specs.Prelude.{◌≡◌, slice_index};
ghost use Rattle.hunk_link.specs.NameHasher.{begun_with};

use std::hash::{BuildHasher, DefaultHasher, Hasher};

/// Hashes names with a secret key, so that nobody who does not know it can make names that collide.
///
/// It is SipHash-1-3 of the key and of what is hashed after it. What is linked never depends on the key.
#[derive(Clone, Copy)]
pub struct NameHasher {
    begun: DefaultHasher,
}

impl NameHasher {
    /// A hasher with this key. It is as secret as the key is: take one that is random, such as from the
    /// system's source of random bytes, and a new one for each process.
    pub fn new(key: [u64; 2]) -> NameHasher
        ensures { result.begun ≡ begun_with (slice_index key 0) (slice_index key 1) }
    {
        let mut begun = DefaultHasher::new();
        begun.write_u64(key[0]);
        begun.write_u64(key[1]);
        NameHasher { begun }
    }
}

impl BuildHasher for NameHasher {
    type Hasher = DefaultHasher;

    ghost build_hasher = { λ hasher. hasher.begun };

    fn build_hasher(&self) -> DefaultHasher {
        self.begun
    }
}
