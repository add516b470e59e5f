//! The relocation blocks of a hunk whose sites all have one target, as they are written.
ghost use Rattle.std.specs.Prelude.{◌≡◌, ◌++◌, ◌<◌, ◌≤◌, ◌^◌, ℕ, drop, length, map, take, IfSome};
ghost use Rattle.std.specs.List.{All};
ghost use Rattle.hunk_base.specs.Sites.{AreApart};
ghost use Rattle.hunk_base.specs.Text.{Puts};
ghost use Rattle.hunk_loadfile.specs.LoadForm.{long_sites, short_sites};
ghost use Rattle.hunk_loadfile.specs.declared.number_width.NumberWidth.TheVariants.{Word, Longword};
ghost use Rattle.hunk_loadfile.specs.NumberWidth.{bytes_in};
ghost use Rattle.hunk_loadfile.specs.RelocationWriter.{block_bytes};

use crate::load_form::LoadForm;
use crate::longword_writer::{write_longwords, write_numbers};
use crate::number_width::NumberWidth;
use crate::relocation_writer::{block_counts, write_block_end};
use hunk_words::{Sink, Sites, Text, Walk};
use std::alloc::Allocator;

/// The target of all sites of a hunk, if there are sites and they have only one.
pub(crate) fn only_target<A: Allocator + Copy>(sites: &Sites<u32, A>) -> Option<u32>
    ensures same { IfSome result (λ target. All (λ site. site.1 ≡ target) sites.now.entries) }
    ensures some { IfSome result (λ target. 0 < length sites.now.entries) }
    ensures few { IfSome result (λ target. length sites.now.entries ≤ 2 ^ 30) }
{
    let mut walk = sites.walk();
    let (_, first) = walk.next()?;
    let only = *first;
    for (_, target) in walk {
        if *target != only {
            return None;
        }
    }
    Some(only)
}

/// Writes the relocation blocks of a hunk whose sites all have this target. Those of the short block
/// come first.
pub(crate) fn write_to_one_target<W: Sink, A: Allocator + Copy>(
    text: &mut Text<'_, W>,
    form: LoadForm,
    sites: &Sites<u32, A>,
    target: u32,
)
    requires apart { AreApart sites.now }
    requires few { length sites.now.entries ≤ 2 ^ 30 }
    requires same { All (λ site. site.1 ≡ target) sites.now.entries }
    ensures { (count : ℕ) → target < count → Puts W.taken W.failed text.old text.new
        (block_bytes Word count (short_sites form sites.now.entries) ++ block_bytes Longword count
        (long_sites form sites.now.entries)) }
{
    let (short, long) = block_counts(form, sites);
    let mut walk = sites.walk();
    write_only_group(text, NumberWidth::Word, target, short, &mut walk);
    write_only_group(text, NumberWidth::Longword, target, long, &mut walk);
}

/// Writes a relocation block with one group, of the next `count` sites of a walk, unless that is 0.
fn write_only_group<W: Sink, A: Allocator + Copy>(
    text: &mut Text<'_, W>,
    width: NumberWidth,
    target: u32,
    count: usize,
    walk: &mut Walk<'_, u32, A>,
)
    requires few { count ≤ 2 ^ 30 }
    requires enough { count ≤ length walk.old }
    ensures wrote { (hunks : ℕ) → target < hunks → All (λ site. site.1 ≡ target) walk.old →
        Puts W.taken W.failed text.old text.new (block_bytes width hunks (take count walk.old)) }
    ensures rest { walk.new ≡ drop count walk.old }
{
    if count == 0 {
        return;
    }
    write_longwords(text, &[width.block_type()]);
    write_numbers(text, width, &[count as u32, target]);
    write_next_offsets(text, width, count, walk);
    write_block_end(text, width, 2 + count);
}

/// The number of offsets that are written at once.
const CHUNK: usize = 256;

/// Writes the offsets of the next `count` sites of a walk. They go through an array of fixed size.
fn write_next_offsets<W: Sink, A: Allocator + Copy>(
    text: &mut Text<'_, W>,
    width: NumberWidth,
    count: usize,
    walk: &mut Walk<'_, u32, A>,
)
    requires enough { count ≤ length walk.old }
    ensures wrote { Puts W.taken W.failed text.old text.new
        (bytes_in width (map (λ site. site.0) (take count walk.old))) }
    ensures rest { walk.new ≡ drop count walk.old }
{
    let mut room = [0; CHUNK];
    let mut left = count;
    'chunks: while left > 0 {
        let size = if left < CHUNK { left } else { CHUNK };
        let offsets = &mut room[..size];
        take_offsets(offsets, walk);
        write_numbers(text, width, offsets);
        left -= size;
    }
}

/// Fills `offsets` with those of the next sites of a walk.
fn take_offsets<A: Allocator + Copy>(offsets: &mut [u32], walk: &mut Walk<'_, u32, A>)
    requires enough { length offsets.old ≤ length walk.old }
    ensures taken { offsets.new ≡ map (λ site. site.0) (take (length offsets.old) walk.old) }
    ensures rest { walk.new ≡ drop (length offsets.old) walk.old }
{
    for index in 0..offsets.len() {
        if let Some((offset, _)) = walk.next() {
            offsets[index] = offset;
        }
    }
}
