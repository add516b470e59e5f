//! The lines of what is odd about a file.

ghost use Rattle.std.specs.Prelude.{◌≡◌};
ghost use Rattle.std.specs.List.{flat_map};
ghost use Rattle.hunk_base.specs.Text.{Puts};
ghost use Rattle.hunk_lint.specs.Linted.{oddities_of, value_of};
ghost use Rattle.hunk_lint.specs.LintText.{lint_lines, longword_line, oddity_front, oddity_text};

use crate::hunk_lint::{write_load_lints, write_object_lints};
use crate::linted::LintedFile;
use crate::oddity::{LongwordLint, Oddity};
use hunk_files::File;
use hunk_words::{Sink, Text};
use std::alloc::Allocator;

/// Writes a line for each thing that is odd about a file: first about its longwords, by rising place and
/// for one longword in the order of [`Oddity`], and then about its hunks. Does not allocate.
pub fn write_lints<A: Allocator + Copy, W: Sink>(text: &mut Text<'_, W>, file: &LintedFile<A>)
    ensures { Puts W.taken W.failed text.old text.new
        (lint_lines (oddities_of file.now) (value_of file.now)) }
{
    match file {
        File::Object(linted) => {
            write_longwords(text, &linted.oddities);
            write_object_lints(text, &linted.value);
        }
        File::Load(linted) => {
            write_longwords(text, &linted.oddities);
            write_load_lints(text, linted.value.hunks());
        }
    }
}

/// Writes a line for each of these.
fn write_longwords<W: Sink>(text: &mut Text<'_, W>, lints: &[LongwordLint])
    ensures { Puts W.taken W.failed text.old text.new (flat_map longword_line lints.now) }
{
    for lint in lints {
        write_longword(text, *lint);
    }
}

/// Writes the line of what is odd about a longword.
fn write_longword<W: Sink>(text: &mut Text<'_, W>, lint: LongwordLint)
    ensures { Puts W.taken W.failed text.old text.new (longword_line lint) }
{
    text.put(b"longword ");
    text.put_decimal(u64::from(lint.place));
    text.put(b": ");
    write_oddity(text, lint.oddity);
    text.end_line();
}

/// Writes what is odd.
fn write_oddity<W: Sink>(text: &mut Text<'_, W>, oddity: Oddity)
    ensures { Puts W.taken W.failed text.old text.new (oddity_text oddity) }
{
    text.put(oddity_front(oddity).as_bytes());
    if let Oddity::SameHunk(hunk) = oddity {
        text.put_decimal(u64::from(hunk));
    }
}

/// What is odd, up to a number that follows.
fn oddity_front(oddity: Oddity) -> &'static str
    ensures { result.now ≡ oddity_front oddity }
{
    match oddity {
        Oddity::TypeBits => "the upper bits of the type are ignored",
        Oddity::HunkName => "the name of a hunk of a load file is ignored",
        Oddity::SizeBits => "the upper bits of the size are ignored",
        Oddity::BssSize => "the size of the BSS block is not the one in the header, which counts",
        Oddity::NoOffsets => "a relocation block without offsets",
        Oddity::SameHunk(_) => "a second group of relocations for hunk ",
        Oddity::NoReferences => "a reference without offsets is ignored",
        Oddity::NameBytes => "bytes after a zero byte of the name are ignored",
    }
}
