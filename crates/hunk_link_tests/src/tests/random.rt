//! Units made at random are linked, loaded and reported.

use super::answers::links_to;
use super::asserts::holds;
use super::cases::{Case, runs_to};
use super::choices::{
    CHOICES, PLAIN, SHORT, SHORT_TRIM, STRIP, STRIP_SHORT, STRIP_SHORT_TRIM, STRIP_TRIM, TRIM,
};
use super::dice::Dice;
use super::made_places::made_bases;
use super::made_plans::{made_files, made_plans};
use super::plain_link::plain_link;
use super::plain_memory::direct_report;
use super::plans::{Plan, object_files, object_words};
use super::runs::{Run, refuses, writes};
use hunk_link::LinkRefusal;
use hunk_tool::{LinkOptions, ToolFault};
use std::alloc::{AllocError, Global};
use std::process::Abort;
use std::test::Fail;

/// The object files that are linked by both calls that link, the sets of files that are run, and what
/// all of them are made from.
const OBJECTS: u32 = 200;

const SETS: u32 = 2000;

const SEED: u32 = 1;

/// How many links of object files have each answer, at least. Of sets there are five times as many.
const LEAST: u32 = 8;

/// How many links had each answer, and how many load files were smaller in the short form, and trimmed.
#[derive(Debug, Default, Drop)]
struct Tally {
    files: u32,
    shorter: u32,
    trimmed: u32,
    without_hunks: u32,
    foreign: u32,
    duplicate: u32,
    undefined: u32,
}

impl Tally {
    /// Counts one more answer.
    fn count(&mut self, answer: &Result<Vec<u32>, LinkRefusal>) {
        let number = match answer {
            Ok(_) => &mut self.files,
            Err(LinkRefusal::NoHunks) => &mut self.without_hunks,
            Err(LinkRefusal::NoSuchHunk { .. }) => &mut self.foreign,
            Err(LinkRefusal::DuplicateName { .. }) => &mut self.duplicate,
            Err(LinkRefusal::UndefinedName { .. }) => &mut self.undefined,
            Err(_) => return,
        };
        *number = number.wrapping_add(1);
    }

    /// Counts the load file of these hunks if it is smaller in the short form, or trimmed.
    fn count_smaller(&mut self, alloc: Global, plans: &[Plan]) {
        let whole = linked_length(alloc, plans, PLAIN);
        if linked_length(alloc, plans, SHORT) < whole {
            self.shorter = self.shorter.wrapping_add(1);
        }
        if linked_length(alloc, plans, TRIM) < whole {
            self.trimmed = self.trimmed.wrapping_add(1);
        }
    }

    /// Whether load files were smaller in the short form, and trimmed, this often.
    fn has_smaller(&self, least: u32) -> bool {
        least <= self.shorter && least <= self.trimmed
    }

    /// Whether each answer came this often.
    fn is_mixed(&self, least: u32) -> bool {
        let counts = [
            self.files,
            self.without_hunks,
            self.foreign,
            self.duplicate,
            self.undefined,
        ];
        counts.iter().all(|count| least <= *count)
    }
}

/// The number of longwords of the load file of these hunks, or 0 if they do not link.
fn linked_length(alloc: Global, plans: &[Plan], options: LinkOptions) -> usize {
    plain_link(alloc, plans, options).map_or(0, |words| words.len())
}

#[test]
fn links_units_made_at_random(rt: HostRuntime) -> Result<(), Fail> {
    let mut dice = Dice::new(SEED);
    let mut tally = Tally::default();
    for _ in 0..OBJECTS {
        let units = dice.roll(4).saturating_add(1) as usize;
        let plans = made_plans(rt.alloc(), &mut dice, units)?;
        let words = object_words(rt.alloc(), 0, units, &plans)?;
        for &options in &CHOICES {
            let wanted = plain_link(rt.alloc(), &plans, options);
            tally.count(&wanted);
            links_to(&rt, rt.alloc(), &[&words], options, wanted.as_deref())?;
        }
        tally.count_smaller(rt.alloc(), &plans);
    }
    holds(&rt, &tally, tally.is_mixed(LEAST));
    holds(&rt, &tally, tally.has_smaller(LEAST));
    Ok(())
}

/// The files, lent.
fn lent<'a>(alloc: Global, objects: &'a [Vec<u32>]) -> Result<Vec<&'a [u32]>, AllocError> {
    let mut slices = Vec::new(alloc);
    for words in objects {
        slices.push(words.as_slice())?;
    }
    Ok(slices)
}

/// A set of files.
#[derive(Clone, Copy)]
struct Set<'a> {
    // What is in them.
    plans: &'a [Plan],
    // The longwords of each.
    objects: &'a [&'a [u32]],
    // Where the hunks are placed.
    bases: &'a [u32],
    // The most bytes per read and per write.
    most: usize,
}

/// The files are linked as wanted with these options, and loaded with this report, or refused.
fn links_as_wanted(
    rt: &impl Abort,
    alloc: Global,
    set: Set<'_>,
    options: LinkOptions,
    report: &str,
    wanted: Result<Vec<u32>, LinkRefusal>,
) -> Result<(), Fail> {
    let Set { objects, bases, .. } = set;
    match wanted {
        Ok(linked) => {
            let case = Case {
                objects,
                options,
                linked: &linked,
                bases,
                report,
            };
            runs_to(rt, alloc, &case, set.most)
        }
        Err(refusal) => {
            let fault = ToolFault::Link(refusal);
            refuses(rt, alloc, objects, Run::Link { options }, &fault)
        }
    }
}

/// An image of the files has this report, or they are refused.
fn reports_as_wanted(
    rt: &impl Abort,
    alloc: Global,
    set: Set<'_>,
    report: &str,
) -> Result<(), Fail> {
    let Set { objects, bases, .. } = set;
    let run = Run::Image { bases };
    match plain_link(alloc, set.plans, PLAIN) {
        Ok(_) => writes(rt, alloc, objects, run, set.most, report.as_bytes()),
        Err(refusal) => refuses(rt, alloc, objects, run, &ToolFault::Link(refusal)),
    }
}

/// The files are linked and loaded as wanted, or refused. Whatever the options, the memory that is
/// wanted is the same. An image has no options, so it is made once.
fn runs_as_wanted(
    rt: &impl Abort,
    alloc: Global,
    set: Set<'_>,
    options: LinkOptions,
    tally: &mut Tally,
) -> Result<(), Fail> {
    let report = direct_report(alloc, set.plans, set.bases)?;
    let wanted = plain_link(alloc, set.plans, options);
    tally.count(&wanted);
    links_as_wanted(rt, alloc, set, options, &report, wanted)?;
    if options == PLAIN {
        reports_as_wanted(rt, alloc, set, &report)?;
    }
    Ok(())
}

/// The most bytes per read and per write: more than a set has, or a few.
fn made_most(dice: &mut Dice) -> usize {
    match dice.roll(8) {
        0 => 4096,
        most => most as usize,
    }
}

/// All sets are linked with these options, and their memory is as it is to be.
fn reports_sets(rt: &impl Abort, alloc: Global, options: LinkOptions) -> Result<(), Fail> {
    let mut dice = Dice::new(SEED);
    let mut tally = Tally::default();
    for _ in 0..SETS {
        let files = made_files(alloc, &mut dice)?;
        let units = files
            .iter()
            .fold(0usize, |sum, units| sum.saturating_add(*units));
        let plans = made_plans(alloc, &mut dice, units)?;
        let bases = made_bases(alloc, &mut dice, &plans)?;
        let made = object_files(alloc, &files, &plans)?;
        let objects = lent(alloc, &made)?;
        let set = Set {
            plans: &plans,
            objects: &objects,
            bases: &bases,
            most: made_most(&mut dice),
        };
        runs_as_wanted(rt, alloc, set, options, &mut tally)?;
    }
    holds(rt, &tally, tally.is_mixed(5 * LEAST));
    Ok(())
}

/// The sets are made anew for each test, always the same ones, so together the tests link each set with
/// every choice of options. They are eight since a test has a limit of time.
#[test]
fn reports_files_made_at_random(rt: HostRuntime) -> Result<(), Fail> {
    reports_sets(&rt, rt.alloc(), PLAIN)
}

#[test]
fn reports_stripped_files(rt: HostRuntime) -> Result<(), Fail> {
    reports_sets(&rt, rt.alloc(), STRIP)
}

#[test]
fn reports_short_files(rt: HostRuntime) -> Result<(), Fail> {
    reports_sets(&rt, rt.alloc(), SHORT)
}

#[test]
fn reports_stripped_short_files(rt: HostRuntime) -> Result<(), Fail> {
    reports_sets(&rt, rt.alloc(), STRIP_SHORT)
}

#[test]
fn reports_trimmed_files(rt: HostRuntime) -> Result<(), Fail> {
    reports_sets(&rt, rt.alloc(), TRIM)
}

#[test]
fn reports_stripped_trimmed_files(rt: HostRuntime) -> Result<(), Fail> {
    reports_sets(&rt, rt.alloc(), STRIP_TRIM)
}

#[test]
fn reports_short_trimmed_files(rt: HostRuntime) -> Result<(), Fail> {
    reports_sets(&rt, rt.alloc(), SHORT_TRIM)
}

#[test]
fn reports_stripped_short_trimmed_files(rt: HostRuntime) -> Result<(), Fail> {
    reports_sets(&rt, rt.alloc(), STRIP_SHORT_TRIM)
}
