//! What is told of units that do not link.

ghost use Rattle.std.specs.Prelude.{◌≡◌, IfOk};
ghost use Rattle.hunk_origins.specs.LinkExplanation.{place_at, told_of};

use crate::defined_names::first_definition;
use crate::origins::{Origin, origin_at, origins};
use crate::undefined::Uses;
use hunk_link::{LinkRefusal, NameHasher};
use hunk_tool::ObjectFiles;
use std::alloc::{AllocError, Allocator, Global};
use std::marker::Model;

/// A hunk by its numbers in a link, and where it is from.
#[derive(Drop)]
pub(crate) struct Place<'a, A: Allocator + Copy = Global> {
    /// The index of its unit in the link, from 0.
    pub(crate) unit: usize,
    /// Its number in the unit, from 0.
    pub(crate) hunk: u32,
    pub(crate) origin: Origin<'a, A>,
}

impl<'a, A: Allocator + Copy> Model for Place<'a, A> {
    ghost use Rattle.hunk_origins.specs.LinkExplanation.{Place as LinkPlace};

    ghost Value = { LinkPlace };

    ghost view = { λ p. record { unit = p.unit; hunk = p.hunk; origin = p.origin } };
}

/// What is told of units that do not link: where the hunk is from that the refusal is about; where the
/// name that is defined again was first defined; or all names that are not defined.
#[derive(Drop)]
pub struct LinkExplanation<'a, A: Allocator + Copy = Global> {
    pub(crate) place: Option<Place<'a, A>>,
    pub(crate) first: Option<Origin<'a, A>>,
    pub(crate) undefined: Uses<'a, A>,
}

impl<'a, A: Allocator + Copy> Model for LinkExplanation<'a, A> {
    ghost use Rattle.hunk_origins.specs.LinkExplanation.{Told};

    ghost Value = { Told };

    ghost view = { λ e. record { place = e.place; first = e.first; undefined = e.undefined } };
}

/// Explains why the units of these files do not link. `refusal` is what [`link`](hunk_link::link)
/// returned for them. A unit or a hunk that the files do not have is not told of.
///
/// The names stay in the files; for undefined names it takes memory for each name that is defined or
/// not, once. What is told does not depend on `hasher`, by which names are looked up.
///
/// # Errors
///
/// [`AllocError`] only if an allocation failed.
pub fn explain_link<'a, A: Allocator + Copy>(
    alloc: A,
    files: &'a ObjectFiles<A>,
    refusal: &LinkRefusal<A>,
    hasher: NameHasher,
) -> Result<LinkExplanation<'a, A>, AllocError>
    ensures { IfOk result (λ told. told ≡ told_of files.now refusal.now) }
{
    match refusal {
        LinkRefusal::NoSuchHunk { unit, hunk, .. } => Ok(LinkExplanation {
            place: place_at(files, *unit, *hunk),
            first: None,
            undefined: Uses::none(alloc, hasher),
        }),
        LinkRefusal::DuplicateName { unit, hunk, name } => {
            let hunks = origins(alloc, files)?;
            Ok(LinkExplanation {
                place: place_at(files, *unit, *hunk),
                first: first_definition(&hunks, name.bytes()),
                undefined: Uses::none(alloc, hasher),
            })
        }
        LinkRefusal::UndefinedName { unit, hunk, .. } => {
            let hunks = origins(alloc, files)?;
            Ok(LinkExplanation {
                place: place_at(files, *unit, *hunk),
                first: None,
                undefined: Uses::undefined(alloc, &hunks, hasher)?,
            })
        }
        LinkRefusal::NoHunks
        | LinkRefusal::TooManyHunks
        | LinkRefusal::TooLarge
        | LinkRefusal::OutOfMemory => Ok(LinkExplanation {
            place: None,
            first: None,
            undefined: Uses::none(alloc, hasher),
        }),
    }
}

/// Where the hunk with this number of the unit with this index in the link is from.
fn place_at<'a, A: Allocator + Copy>(
    files: &'a ObjectFiles<A>,
    unit: usize,
    hunk: u32,
) -> Option<Place<'a, A>>
    ensures { result ≡ place_at files.now unit hunk }
{
    let origin = origin_at(files, unit, hunk as usize)?;
    Some(Place { unit, hunk, origin })
}
