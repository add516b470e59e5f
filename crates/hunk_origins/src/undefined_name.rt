//! The names that hunks refer to and no hunk defines, as callers are told of them.

ghost use Rattle.std.specs.Prelude.{◌≡◌, map, IfOk};
ghost use Rattle.hunk_origins.specs.UndefinedName.{undefined_name, undefined_names};

use crate::origins::origins;
use crate::undefined::{Use, Uses};
use hunk_link::NameHasher;
use hunk_tool::ObjectFiles;
use std::alloc::{AllocError, Allocator, Global};
use std::marker::Model;

/// A name that hunks refer to and no hunk defines. Everything is counted from 0.
#[derive(Debug, Drop)]
pub struct UndefinedName<A: Allocator + Copy = Global> {
    /// The name.
    pub name: Vec<u8, A>,
    /// The file of the first reference to it.
    pub file: usize,
    /// The unit of that reference, in its file.
    pub unit: usize,
    /// The hunk of that reference, in its unit.
    pub hunk: usize,
    /// How many references to it there are.
    pub references: u64,
}

impl<A: Allocator + Copy> Model for UndefinedName<A> {
    ghost use Rattle.hunk_origins.specs.UndefinedName.{UndefinedName as NameTold};

    ghost Value = { NameTold };

    ghost view = { λ n. record {
      name = n.name.items;
      file = n.file;
      unit = n.unit;
      hunk = n.hunk;
      references = n.references;
    } };
}

/// The names that hunks of these files refer to and none of them defines, each once, in the order in
/// which they are first referred to. What is returned does not depend on `hasher`, by which names are
/// looked up.
///
/// # Errors
///
/// [`AllocError`] only if an allocation failed.
pub fn undefined_names<A: Allocator + Copy>(
    alloc: A,
    files: &ObjectFiles<A>,
    hasher: NameHasher,
) -> Result<Vec<UndefinedName<A>, A>, AllocError>
    ensures { IfOk result (λ names. names.items ≡ undefined_names files.now) }
{
    let hunks = origins(alloc, files)?;
    told_of(alloc, &Uses::undefined(alloc, &hunks, hasher)?)
}

/// What is told of names that are used so.
fn told_of<A: Allocator + Copy>(
    alloc: A,
    uses: &Uses<'_, A>,
) -> Result<Vec<UndefinedName<A>, A>, AllocError>
    ensures { IfOk result (λ names. names.items ≡ map undefined_name uses.now) }
{
    let mut names = Vec::new(alloc);
    for index in 0..uses.len() {
        if let Some((name, used)) = uses.get(index) {
            names.push(told(alloc, name, used)?)?;
        }
    }
    Ok(names)
}

/// What is told of a name that is used so.
fn told<A: Allocator + Copy>(
    alloc: A,
    name: &[u8],
    used: &Use<'_, A>,
) -> Result<UndefinedName<A>, AllocError>
    ensures { IfOk result (λ told. told ≡ undefined_name (name.now, used.now)) }
{
    Ok(UndefinedName {
        name: Vec::from_slice(alloc, name)?,
        file: used.origin.place.file,
        unit: used.origin.place.number,
        hunk: used.origin.number,
        references: used.count,
    })
}
