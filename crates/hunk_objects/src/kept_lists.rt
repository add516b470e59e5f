//! Lists that are kept as long as the units whose parts they are.
ghost use Rattle.std.specs.Prelude.{◌≡◌, ◌+◌, ◌≤◌, OnOk, vec_capacity, vec_len};

use std::alloc::{AllocError, Allocator};

/// Makes room for one more item. A full list gets room for half as many again as it has, where `Vec::reserve` would double it
/// or more: most lists of a unit are short, and what they have too much is kept with them.
pub fn reserve<T, A: Allocator>(list: &mut Vec<T, A>) -> Result<(), AllocError>
    ensures items { list.new.items ≡ list.old.items }
    ensures len { vec_len list.new ≡ vec_len list.old }
    ensures ok { OnOk result (vec_len list.new + 1 ≤ vec_capacity list.new) }
    ensures capacity { vec_capacity list.old ≤ vec_capacity list.new }
{
    if list.len() < list.capacity() {
        return Ok(());
    }
    list.reserve_exact(list.len() / 2 + 1)
}
