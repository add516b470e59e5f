//! The relocation blocks of a hunk, as they are written.
ghost use Rattle.std.specs.Prelude.{◌≡◌, ◌≢◌, ◌*◌, ◌<◌, ◌≤◌, ◌^◌, ℕ, [], length, map, slice_index_or, IfOk, OnErr, OnOk};
ghost use Rattle.std.specs.List.{All};
ghost use Rattle.std.specs.List.Sorted.{IsNonDecreasingBy};
ghost use Rattle.hunk_base.specs.Name.{bytes_of};
ghost use Rattle.hunk_base.specs.Sites.{AreApart};
ghost use Rattle.hunk_base.specs.Text.{Puts};
ghost use Rattle.hunk_loadfile.specs.LoadForm.{long_sites, short_sites};
ghost use Rattle.hunk_loadfile.specs.NumberWidth.{bytes_in, width_bytes};
ghost use Rattle.hunk_loadfile.specs.RelocationWriter.{AreByTarget, IsGroup, block_bytes, block_end};
ghost use Rattle.hunk_loadfile.specs.WrittenForm.{group_words, groups_words, relocation_words};

use crate::load_form::LoadForm;
use crate::longword_writer::{write_longwords, write_numbers};
use crate::number_width::NumberWidth;
use crate::one_target_writer::{only_target, write_to_one_target};
use hunk_words::{Sink, Sites, Text};
use std::alloc::{AllocError, Allocator};

/// Writes the relocation blocks of a hunk. A block without sites is not written. Each has a group
/// for each target, in ascending order, with its offsets in ascending order (The AmigaDOS Manual,
/// 3rd edition, "Amiga binary file structure"; the order is our own).
///
/// If all sites have one target, they are written as they stand, and nothing is allocated. Else it keeps the
/// pairs of offset and target of this hunk, and allocates them before it writes.
///
/// # Errors
///
/// [`AllocError`] only if an allocation failed: nothing of the blocks is written then.
pub(crate) fn write_sites<W: Sink, A: Allocator + Copy>(
    alloc: A,
    text: &mut Text<'_, W>,
    form: LoadForm,
    sites: &Sites<u32, A>,
) -> Result<(), AllocError>
    requires apart { AreApart sites.now }
    requires targets { All (λ site. site.1 < 2 ^ 16) sites.now.entries }
    ensures wrote { (count : ℕ) → All (λ site. site.1 < count) sites.now.entries →
        OnOk result (Puts W.taken W.failed text.old text.new
        (bytes_of (relocation_words form count sites.now.entries))) }
    ensures nothing { OnErr result (Puts W.taken W.failed text.old text.new []) }
{
    match only_target(sites) {
        Some(target) => {
            write_to_one_target(text, form, sites, target);
            Ok(())
        }
        None => write_by_target(alloc, text, form, sites),
    }
}

/// Writes the relocation blocks of a hunk whose sites have any targets.
fn write_by_target<W: Sink, A: Allocator + Copy>(
    alloc: A,
    text: &mut Text<'_, W>,
    form: LoadForm,
    sites: &Sites<u32, A>,
) -> Result<(), AllocError>
    requires apart { AreApart sites.now }
    requires targets { All (λ site. site.1 < 2 ^ 16) sites.now.entries }
    ensures wrote { (count : ℕ) → All (λ site. site.1 < count) sites.now.entries →
        OnOk result (Puts W.taken W.failed text.old text.new
        (bytes_of (relocation_words form count sites.now.entries))) }
    ensures nothing { OnErr result (Puts W.taken W.failed text.old text.new []) }
{
    let (short, long) = by_target(alloc, form, sites)?;
    write_block(text, NumberWidth::Word, &short);
    write_block(text, NumberWidth::Longword, &long);
    Ok(())
}

/// The sites of the short relocation block and those of the other, each in ascending order of
/// target, and those of one target in ascending order of offset.
fn by_target<A: Allocator + Copy>(
    alloc: A,
    form: LoadForm,
    sites: &Sites<u32, A>,
) -> Result<(Vec<(u32, u32), A>, Vec<(u32, u32), A>), AllocError>
    ensures short { IfOk result
        (λ pairs. AreByTarget (short_sites form sites.now.entries) pairs.0.items) }
    ensures long { IfOk result
        (λ pairs. AreByTarget (long_sites form sites.now.entries) pairs.1.items) }
    ensures few { IfOk result
        (λ pairs. (length pairs.0.items ≤ 2 ^ 30) × (length pairs.1.items ≤ 2 ^ 30)) }
{
    let (short_count, long_count) = block_counts(form, sites);
    let mut short = Vec::with_capacity(alloc, short_count)?;
    let mut long = Vec::with_capacity(alloc, long_count)?;
    for (offset, target) in sites.walk() {
        if form.is_short(offset) {
            short.push((offset, *target))?;
        } else {
            long.push((offset, *target))?;
        }
    }
    short.sort_by_key(|pair| pair.1)?;
    long.sort_by_key(|pair| pair.1)?;
    Ok((short, long))
}

/// The number of sites in the short relocation block, and in the other.
pub(crate) fn block_counts<A: Allocator + Copy>(
    form: LoadForm,
    sites: &Sites<u32, A>,
) -> (usize, usize)
    ensures short { result.0 ≡ length (short_sites form sites.now.entries) }
    ensures long { result.1 ≡ length (long_sites form sites.now.entries) }
{
    let mut short = 0;
    let mut long = 0;
    for (offset, _) in sites.walk() {
        if form.is_short(offset) {
            short += 1;
        } else {
            long += 1;
        }
    }
    (short, long)
}

/// Writes a relocation block whose sites are in ascending order of target, if there are sites.
fn write_block<W: Sink>(text: &mut Text<'_, W>, width: NumberWidth, pairs: &[(u32, u32)])
    requires rise { IsNonDecreasingBy (λ pair. pair.1) pairs.now }
    requires few { length pairs.now < 2 ^ 32 }
    ensures { (count : ℕ) → All (λ pair. pair.1 < count) pairs.now →
        Puts W.taken W.failed text.old text.new (block_bytes width count pairs.now) }
{
    if pairs.is_empty() {
        return;
    }
    write_longwords(text, &[width.block_type()]);
    let numbers = write_groups(text, width, pairs);
    write_block_end(text, width, numbers);
}

/// Writes the zeros that end a relocation block, which has so many numbers before them.
pub(crate) fn write_block_end<W: Sink>(text: &mut Text<'_, W>, width: NumberWidth, numbers: usize)
    requires few { numbers < 2 ^ 34 }
    ensures { Puts W.taken W.failed text.old text.new (block_end (width_bytes width * numbers)) }
{
    let zeros = 4 - width.bytes() * numbers % 4;
    text.put(&[0; 4][..zeros]);
}

/// Writes the groups of sites that are in ascending order of target, and returns how many numbers
/// they have.
fn write_groups<W: Sink>(text: &mut Text<'_, W>, width: NumberWidth, pairs: &[(u32, u32)]) -> usize
    requires rise { IsNonDecreasingBy (λ pair. pair.1) pairs.now }
    requires few { length pairs.now < 2 ^ 32 }
    ensures wrote { (count : ℕ) → All (λ pair. pair.1 < count) pairs.now →
        Puts W.taken W.failed text.old text.new (bytes_in width (groups_words count pairs.now)) }
    ensures counts { (count : ℕ) → All (λ pair. pair.1 < count) pairs.now →
        result ≡ length (groups_words count pairs.now) }
    ensures few { result ≤ 3 * length pairs.now }
{
    let mut numbers = 0;
    let mut rest = pairs;
    'groups: while !rest.is_empty() {
        let target = rest[0].1;
        let (group, behind) = split_group(rest, target);
        write_group(text, width, target, group);
        numbers += 2 + group.len();
        rest = behind;
    }
    numbers
}

/// The sites of the first target, and those after them.
fn split_group(pairs: &[(u32, u32)], target: u32) -> (&[(u32, u32)], &[(u32, u32)])
    requires rise { IsNonDecreasingBy (λ pair. pair.1) pairs.now }
    requires some { 0 < length pairs.now }
    requires first { (slice_index_or pairs.now 0 (0, 0)).1 ≡ target }
    ensures { IsGroup target result.0.now result.1.now pairs.now }
{
    pairs.split_at(group_length(pairs, target))
}

/// The number of sites at the start that have this target.
fn group_length(pairs: &[(u32, u32)], target: u32) -> usize
    ensures within { result ≤ length pairs.now }
    ensures before { (k : ℕ) (d : ℕ × ℕ) → k < result → (slice_index_or pairs.now k d).1 ≡ target }
    ensures stops { (d : ℕ × ℕ) → result < length pairs.now →
        (slice_index_or pairs.now result d).1 ≢ target }
{
    for (index, pair) in pairs.iter().enumerate() {
        if pair.1 != target {
            return index;
        }
    }
    pairs.len()
}

/// Writes a group: the number of its sites, the target and the offsets.
fn write_group<W: Sink>(
    text: &mut Text<'_, W>,
    width: NumberWidth,
    target: u32,
    group: &[(u32, u32)],
)
    requires some { 0 < length group.now }
    requires few { length group.now < 2 ^ 32 }
    ensures { Puts W.taken W.failed text.old text.new
        (bytes_in width (group_words target (map (λ pair. pair.0) group.now))) }
{
    write_numbers(text, width, &[group.len() as u32, target]);
    write_offsets(text, width, group);
}

/// The number of offsets that are written at once.
const CHUNK: usize = 256;

/// Writes the offsets of these sites. They go through an array of fixed size.
fn write_offsets<W: Sink>(text: &mut Text<'_, W>, width: NumberWidth, group: &[(u32, u32)])
    ensures { Puts W.taken W.failed text.old text.new
        (bytes_in width (map (λ pair. pair.0) group.now)) }
{
    let mut room = [0; CHUNK];
    for chunk in group.chunks(CHUNK) {
        let offsets = &mut room[..chunk.len()];
        fill_offsets(offsets, chunk);
        write_numbers(text, width, offsets);
    }
}

/// Fills `offsets` with the offsets of the sites.
fn fill_offsets(offsets: &mut [u32], pairs: &[(u32, u32)])
    requires each { length offsets.old ≡ length pairs.now }
    ensures { offsets.new ≡ map (λ pair. pair.0) pairs.now }
{
    for (index, pair) in pairs.iter().enumerate() {
        offsets[index] = pair.0;
    }
}
