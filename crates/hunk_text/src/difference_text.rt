//! The lines that tell where two load files differ.

ghost use Rattle.std.specs.Prelude.{◌≡◌, ◌++◌, option_copied};
ghost use Rattle.std.specs.Fmt.{decimal};
ghost use Rattle.hunk_base.specs.Text.{Puts, line};
ghost use Rattle.hunk_loadfile.specs.declared.difference.Difference.{Difference};
ghost use Rattle.hunk_text.specs.Listing.{adds_hunk};
ghost use Rattle.hunk_text.specs.DifferenceText.{both, difference_line, difference_text, info_difference_told, symbol_at, symbols_text, target_text, two_digits, unlike_symbols};

use crate::hunk_lines::{kind_word, memory_word, write_hunk_number};
use hunk_loadfile::{Difference, InfoDifference, LoadHunk};
use hunk_words::{HunkKind, Memory, Name, Sink, Text};
use std::alloc::Allocator;

/// Writes the line that tells where two load files first differ in what they mean: what differs, with the
/// number of its hunk, and then what the first file has and what the second one has. Hunks are counted
/// from 0. Sizes and offsets are in bytes. Does not allocate.
pub fn write_difference<W: Sink>(text: &mut Text<'_, W>, difference: &Difference)
    ensures { Puts W.taken W.failed text.old text.new (difference_line difference.now) }
{
    match *difference {
        Difference::HunkCount { first, second } => write_counts(text, first as u64, second as u64),
        Difference::Kind {
            hunk,
            first,
            second,
        } => write_kinds(text, hunk as u64, first, second),
        Difference::Memory {
            hunk,
            first,
            second,
        } => write_memories(text, hunk as u64, first, second),
        Difference::Size {
            hunk,
            first,
            second,
        } => write_sizes(text, hunk as u64, first, second),
        Difference::Byte {
            hunk,
            offset,
            first,
            second,
        } => write_bytes(text, hunk as u64, offset, first, second),
        Difference::Site {
            hunk,
            offset,
            first,
            second,
        } => write_targets(text, hunk as u64, offset, first, second),
    }
    text.end_line();
}

/// Writes the numbers of hunks of the two files.
fn write_counts<W: Sink>(text: &mut Text<'_, W>, first: u64, second: u64)
    ensures { Puts W.taken W.failed text.old text.new
        (difference_text (Difference.HunkCount first second)) }
{
    text.put(b"hunks: ");
    text.put_decimal(first);
    text.put(b" and ");
    text.put_decimal(second);
}

/// Writes two kinds of a hunk with this number.
fn write_kinds<W: Sink>(text: &mut Text<'_, W>, hunk: u64, first: HunkKind, second: HunkKind)
    ensures { Puts W.taken W.failed text.old text.new
        (difference_text (Difference.Kind hunk first second)) }
{
    let (first, second) = (kind_word(first), kind_word(second));
    write_words(text, hunk, b" kind: ", first, second);
}

/// Writes two memories that a hunk with this number asks for.
fn write_memories<W: Sink>(text: &mut Text<'_, W>, hunk: u64, first: Memory, second: Memory)
    ensures { Puts W.taken W.failed text.old text.new
        (difference_text (Difference.Memory hunk first second)) }
{
    let (first, second) = (memory_word(first), memory_word(second));
    write_words(text, hunk, b" memory: ", first, second);
}

/// Writes two words of a hunk with this number, after what they are about.
fn write_words<W: Sink>(
    text: &mut Text<'_, W>,
    hunk: u64,
    about: &[u8],
    first: &[u8],
    second: &[u8],
)
    ensures { Puts W.taken W.failed text.old text.new
        (adds_hunk hunk ++ about.now ++ both first.now second.now) }
{
    write_hunk_number(text, hunk);
    text.put(about);
    text.put(first);
    text.put(b" and ");
    text.put(second);
}

/// Writes two sizes, given in longwords, of a hunk with this number.
fn write_sizes<W: Sink>(text: &mut Text<'_, W>, hunk: u64, first: u32, second: u32)
    ensures { Puts W.taken W.failed text.old text.new
        (difference_text (Difference.Size hunk first second)) }
{
    write_hunk_number(text, hunk);
    text.put(b" size: ");
    text.put_decimal(4 * u64::from(first));
    text.put(b" and ");
    text.put_decimal(4 * u64::from(second));
}

/// Writes two bytes at an offset in a hunk with this number.
fn write_bytes<W: Sink>(text: &mut Text<'_, W>, hunk: u64, offset: u32, first: u8, second: u8)
    ensures { Puts W.taken W.failed text.old text.new
        (difference_text (Difference.Byte hunk offset first second)) }
{
    write_hunk_number(text, hunk);
    text.put(b" offset ");
    text.put_longword(offset);
    text.put(b": ");
    write_byte(text, first);
    text.put(b" and ");
    write_byte(text, second);
}

/// Writes a byte in two lower-case hexadecimal digits.
fn write_byte<W: Sink>(text: &mut Text<'_, W>, byte: u8)
    ensures { Puts W.taken W.failed text.old text.new (two_digits byte) }
{
    let mut digits = [0; 2];
    // There are two places for one byte, so this can't fail.
    let _ = hex::encode_to_slice([byte], &mut digits);
    text.put(&digits);
}

/// Writes two targets of a site at an offset in a hunk with this number.
fn write_targets<W: Sink>(
    text: &mut Text<'_, W>,
    hunk: u64,
    offset: u32,
    first: Option<u32>,
    second: Option<u32>,
)
    ensures { Puts W.taken W.failed text.old text.new
        (difference_text (Difference.Site hunk offset first second)) }
{
    write_hunk_number(text, hunk);
    text.put(b" site ");
    text.put_longword(offset);
    text.put(b": ");
    write_target(text, first);
    text.put(b" and ");
    write_target(text, second);
}

/// Writes the hunk whose base is added at a site, if there is a site.
fn write_target<W: Sink>(text: &mut Text<'_, W>, target: Option<u32>)
    ensures { Puts W.taken W.failed text.old text.new (target_text target) }
{
    match target {
        Some(hunk) => write_hunk_number(text, u64::from(hunk)),
        None => text.put(b"none"),
    }
}

/// Writes the line that tells where two load files first differ in what only debuggers read: the number of the
/// hunk, the index of its symbol or debug block, and of a symbol what the first file has and what the second
/// one has. All are counted from 0. Of the first file it is given the hunks, and of the second one the symbol
/// there, if there is one. Does not allocate.
///
/// Of a symbol that neither file has, there is nothing to tell: only its index is written.
pub fn write_info_difference<A: Allocator + Copy, B: Allocator + Copy, W: Sink>(
    text: &mut Text<'_, W>,
    first: &[LoadHunk<A>],
    second: Option<&(Name<B>, u32)>,
    difference: &InfoDifference,
)
    ensures { Puts W.taken W.failed text.old text.new
        (line (info_difference_told first.now (option_copied second.entry) difference.now)) }
{
    match *difference {
        InfoDifference::Symbol { hunk, index } => {
            write_index(text, hunk as u64, b" symbol ", index as u64);
            text.put(b": ");
            write_symbols(text, symbol_at(first, hunk, index), second);
        }
        InfoDifference::Debug { hunk, index } => {
            write_index(text, hunk as u64, b" debug ", index as u64);
        }
    }
    text.end_line();
}

/// Writes the index of something in a hunk with this number.
fn write_index<W: Sink>(text: &mut Text<'_, W>, hunk: u64, what: &[u8], index: u64)
    ensures { Puts W.taken W.failed text.old text.new
        (adds_hunk hunk ++ what.now ++ decimal index) }
{
    write_hunk_number(text, hunk);
    text.put(what);
    text.put_decimal(index);
}

/// The symbol with this index of the hunk with this number, if there is one.
fn symbol_at<A: Allocator + Copy>(
    hunks: &[LoadHunk<A>],
    hunk: usize,
    index: usize,
) -> Option<&(Name<A>, u32)>
    ensures { option_copied result ≡ symbol_at hunks.now hunk index }
{
    match hunks.get(hunk) {
        Some(hunk) => hunk.symbols.get(index),
        None => None,
    }
}

/// Writes the symbols that two files have in one place.
fn write_symbols<A: Allocator + Copy, B: Allocator + Copy, W: Sink>(
    text: &mut Text<'_, W>,
    first: Option<&(Name<A>, u32)>,
    second: Option<&(Name<B>, u32)>,
)
    ensures { Puts W.taken W.failed text.old text.new
        (symbols_text (option_copied first.entry) (option_copied second.entry)) }
{
    match (first, second) {
        (Some(first), Some(second)) => write_unlike(text, first, second),
        (Some(first), None) => {
            text.put_quoted(first.0.bytes());
            text.put(b" ");
            text.put_longword(first.1);
            text.put(b" and none");
        }
        (None, Some(second)) => {
            text.put_quoted(second.0.bytes());
            text.put(b" none and ");
            text.put_longword(second.1);
        }
        (None, None) => {}
    }
}

/// Writes the values of two symbols with one name, or else their names.
fn write_unlike<A: Allocator + Copy, B: Allocator + Copy, W: Sink>(
    text: &mut Text<'_, W>,
    first: &(Name<A>, u32),
    second: &(Name<B>, u32),
)
    ensures { Puts W.taken W.failed text.old text.new (unlike_symbols first.now second.now) }
{
    let (name, other) = (first.0.bytes(), second.0.bytes());
    text.put_quoted(name);
    if name == other {
        text.put(b" ");
        text.put_longword(first.1);
        text.put(b" and ");
        text.put_longword(second.1);
    } else {
        text.put(b" and ");
        text.put_quoted(other);
    }
}
