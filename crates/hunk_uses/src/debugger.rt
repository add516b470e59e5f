//! A debugger that asks the memory of a program for bytes.
ghost use Rattle.std.specs.Prelude.{◌≡◌, ◌+◌, ◌-◌, ◌^◌, ◌<◌, ◌≤◌, map, None, IfOk};
ghost use Rattle.std.specs.List.{range_with_len};
ghost use Rattle.hunk_loader.specs.Image.{memory_map};
ghost use Rattle.hunk_uses.specs.Debugger.{longword_at};

use hunk_loader::Image;
use std::alloc::{AllocError, Allocator, Global};
use std::ops::Range;

/// The longword at an address, its most significant byte first; `None` unless hunks have all four of
/// its bytes.
pub fn longword_at<A: Allocator + Copy>(image: &Image<A>, address: u32) -> Option<u32>
    ensures value { address + 3 < 2 ^ 32 → result ≡ longword_at (memory_map image.now) address }
    ensures past { 2 ^ 32 ≤ address + 3 → result ≡ None }
{
    let last = address.checked_add(3)?;
    let bytes = [
        image.byte(address)?,
        image.byte(address + 1)?,
        image.byte(address + 2)?,
        image.byte(last)?,
    ];
    Some(u32::from_be_bytes(bytes))
}

/// The bytes at these addresses, each `None` where no hunk lies.
///
/// # Errors
///
/// [`AllocError`] only if an allocation failed.
pub fn dump<A: Allocator + Copy>(
    alloc: Global,
    image: &Image<A>,
    addresses: Range<u32>,
) -> Result<Vec<Option<u8>>, AllocError>
    ensures { IfOk result (λ bytes. bytes.items ≡ map (memory_map image.now)
        (range_with_len addresses.start (addresses.end - addresses.start))) }
{
    addresses.map(|address| image.byte(address)).collect(alloc)
}
