//! What the linker knows of what is added at a site.
ghost use Rattle.std.specs.Prelude.{◌≡◌, length, Some};
ghost use Rattle.hunk_link.specs.Addend.{addend_of, defined_addend};
ghost use Rattle.hunk_link.specs.Carried.{IsKnown};

use crate::symbol_table::Defined;
use hunk_objects::{Adds, Definition};

/// What is added at a site: a number that the linker adds, and the rank of the hunk whose base the
/// loader is to add, if there is one.
#[derive(Clone, Copy)]
pub(crate) struct Addend {
    pub(crate) known: u32,
    pub(crate) base: Option<u32>,
}

impl Addend {
    /// What a defined name adds.
    pub(crate) fn of_name(defined: Defined) -> Addend
        ensures { result ≡ defined_addend (Some defined) }
    {
        match defined.definition {
            Definition::At(offset) => Addend {
                known: offset,
                base: Some(defined.rank),
            },
            Definition::Absolute(value) => Addend {
                known: value,
                base: None,
            },
        }
    }
}

/// What is added at a site of a hunk. The first hunk of its unit has the rank `first`, and its
/// references add `references`, in order.
pub(crate) fn addend_of(first: u32, references: &[Addend], adds: Adds) -> Addend
    requires { IsKnown first (length references.now) adds }
    ensures { result ≡ addend_of first references.now adds }
{
    match adds {
        Adds::Hunk(target) => Addend {
            known: 0,
            base: Some(first + target),
        },
        Adds::Reference(index) => references[index as usize],
    }
}
