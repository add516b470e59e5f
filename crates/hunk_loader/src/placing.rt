//! Whether the hunks of a load file can be placed at the bases, as far as it is known.

ghost use Rattle.hunk_loader.specs.Placing.{Decides};

use crate::overlaps::check_places_with;
use crate::places::PlaceFault;
use std::alloc::Allocator;

/// What is known about it.
#[derive(Clone, Copy)]
pub(crate) enum Placing {
    /// Nothing yet: not all sizes are known.
    Unknown,
    /// They can.
    Placed,
    /// They cannot.
    Refused(PlaceFault),
}

/// Whether hunks of these sizes can be placed at the bases. What it allocates, it gives back.
pub(crate) fn decide<A: Allocator + Copy>(alloc: A, sizes: &[u32], bases: &[u32]) -> Placing
    ensures { Decides sizes.now bases.now result }
{
    match check_places_with(alloc, sizes, bases) {
        Ok(()) => Placing::Placed,
        Err(fault) => Placing::Refused(fault),
    }
}
