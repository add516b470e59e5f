//! What units link to, found slowly: each name and each hunk is sought from the front.

use super::names::{duplicate, undefined};
use super::plain_file::load_words;
use super::plans::{Added, Plan};
use hunk_link::LinkRefusal;
use hunk_objects::Definition;
use hunk_tool::LinkOptions;
use std::alloc::{AllocError, Global};

/// The longwords of the load file of these hunks, or the first reason why there is none.
pub(crate) fn plain_link(
    alloc: Global,
    plans: &[Plan],
    options: LinkOptions,
) -> Result<Vec<u32>, LinkRefusal> {
    if plans.is_empty() {
        return Err(LinkRefusal::NoHunks);
    }
    check_bases(plans)?;
    check_definitions(alloc, plans)?;
    check_references(alloc, plans)?;
    Ok(load_words(alloc, plans, options)?)
}

/// The number over all units of a hunk of this unit.
fn rank_of(plans: &[Plan], unit: usize, number: u32) -> Option<u32> {
    let found = plans
        .iter()
        .find(|plan| plan.unit == unit && plan.number == number);
    found.map(|plan| plan.rank)
}

/// The first definition of a name, and the number over all units of its hunk.
fn definition_of(plans: &[Plan], name: u32) -> Option<(u32, Definition)> {
    for plan in plans {
        for (other, definition) in &plan.definitions {
            if *other == name {
                return Some((plan.rank, *definition));
            }
        }
    }
    None
}

/// Each base that is added is that of a hunk of the same unit.
fn check_bases(plans: &[Plan]) -> Result<(), LinkRefusal> {
    for plan in plans {
        for (_, added) in &plan.sites {
            if let Added::Base(target) = *added {
                if rank_of(plans, plan.unit, target).is_none() {
                    return Err(LinkRefusal::NoSuchHunk {
                        unit: plan.unit,
                        hunk: plan.number,
                        target,
                    });
                }
            }
        }
    }
    Ok(())
}

/// No name is defined twice.
fn check_definitions(alloc: Global, plans: &[Plan]) -> Result<(), LinkRefusal> {
    let mut names = Vec::new(alloc);
    for plan in plans {
        for (name, _) in &plan.definitions {
            if names.iter().any(|other| other == name) {
                return Err(duplicate(alloc, plan.unit, plan.number, *name)?);
            }
            names.push(*name).map_err(AllocError::from)?;
        }
    }
    Ok(())
}

/// Each name that is referred to is defined. In the file, the references of a hunk come in descending
/// order of offset.
fn check_references(alloc: Global, plans: &[Plan]) -> Result<(), LinkRefusal> {
    for plan in plans {
        for (_, added) in plan.sites.iter().rev() {
            if let Added::Name(name) = *added {
                if definition_of(plans, name).is_none() {
                    return Err(undefined(alloc, plan.unit, plan.number, name)?);
                }
            }
        }
    }
    Ok(())
}

/// The number that is added at a site of this unit, and the hunk whose base is added too.
pub(crate) fn addend(plans: &[Plan], unit: usize, added: Added) -> (u32, Option<u32>) {
    match added {
        Added::Base(number) => (0, rank_of(plans, unit, number)),
        Added::Name(name) => match definition_of(plans, name) {
            Some((rank, Definition::At(offset))) => (offset, Some(rank)),
            Some((_, Definition::Absolute(value))) => (value, None),
            None => (0, None),
        },
    }
}
