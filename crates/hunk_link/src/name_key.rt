//! The bytes of a name, as the key of a table.
ghost use Rattle.std.specs.Prelude.{◌≡◌, [], ◌∷◌, nat_eq};
ghost use Rattle.std.specs.Cmp.Lexicographic.{nat_list_eq_equiv, pointwise};
ghost use Rattle.std.specs.Cmp.{partial_equiv_from_equiv};
ghost use Rattle.std.specs.Cmp.Rules.{hashing};
ghost use Rattle.std.proofs.Common.{rules};

use std::hash::{Hash, Hasher};
use std::marker::Model;

/// The bytes of a name, as the key of a table. They are hashed at once, where those of a slice are hashed
/// one by one.
#[derive(Drop)]
pub struct NameKey<'a> {
    bytes: &'a [u8],
}

impl<'a> Model for NameKey<'a> {
    ghost use Rattle.std.specs.Prelude.{ℕ, List};

    ghost Value = { List ℕ };

    ghost view = { λ key. key.bytes.now };
}

impl<'a> NameKey<'a> {
    /// The key of the name with these bytes.
    pub fn new(bytes: &'a [u8]) -> NameKey<'a>
        ensures { result ≡ bytes.now }
    {
        NameKey { bytes }
    }

    /// The bytes of the name.
    pub fn bytes(&self) -> &'a [u8]
        ensures { result.now ≡ self.now }
    {
        self.bytes
    }
}

impl PartialEq for NameKey<'_> {
    ghost eq = { pointwise nat_eq };

    ghost laws = { partial_equiv_from_equiv nat_list_eq_equiv };

    fn eq(&self, other: &Self) -> bool {
        self.bytes == other.bytes
    }
}

impl Eq for NameKey<'_> {
    ghost laws = { nat_list_eq_equiv };
}

impl Hash for NameKey<'_> {
    ghost hash_input = { λ bytes. bytes ∷ [] };

    ghost respects_eq = { Prim.search (hashing, rules) };

    fn hash<H: Hasher>(&self, state: &mut H) {
        state.write(self.bytes);
    }
}
