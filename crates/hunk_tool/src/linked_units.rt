//! The units that are linked: those that were read, or with the names that they define as symbols.

ghost use Rattle.std.specs.Prelude.{◌≡◌, IfOk};
ghost use Rattle.hunk_tool.specs.LinkedUnits.{linked_units, strips};

use hunk_link::NameHasher;
use hunk_objects::{ProgramUnit, with_globals};
use std::alloc::{AllocError, Allocator};

/// The units as they are linked, of which names are hashed so.
pub(crate) fn linked_units<A: Allocator + Copy>(
    alloc: A,
    units: Vec<ProgramUnit<A>, A>,
    globals: bool,
    strip: bool,
    hasher: NameHasher,
) -> Result<Vec<ProgramUnit<A>, A>, AllocError>
    ensures { IfOk result (λ linked. linked.items ≡ linked_units globals strip units.items) }
{
    if !globals {
        return Ok(units);
    }
    with_globals(alloc, units, strip, hasher)
}

/// Whether the linker is to leave out the symbols and debug blocks of the units. With `globals` it keeps
/// all that they have: what is to go has been left out where the definitions became symbols.
pub fn strips(globals: bool, strip: bool) -> bool
    ensures { result ≡ strips globals strip }
{
    strip && !globals
}
