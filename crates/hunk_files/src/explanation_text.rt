//! The lines that explain the first offence of a file.

ghost use Rattle.std.specs.Prelude.{◌≡◌};
ghost use Rattle.hunk_base.specs.Text.{Puts};
ghost use Rattle.hunk_files.specs.ExplanationText.{block_name, due_text, end_text, explanation_text, first_type_text, found_text, hunk_place, hunk_text, kind_text, side_text, unit_text};

use crate::explanation::{Explanation, Found};
use crate::path::{Path, is_type};
use hunk_words::{BlockType, Due, HunkKind, Reason, Sink, Text};

/// Writes four lines, each after two spaces: where the offence is, in bytes from 0; what is there; in
/// which unit, hunk and block it is, or after which; and what was due. A fifth line follows if the file
/// begins as one of the other kind does, and tells that kind. It does not allocate.
pub fn write_explanation<W: Sink>(text: &mut Text<'_, W>, explanation: &Explanation)
    ensures { Puts W.taken W.failed text.old text.new (explanation_text explanation.now) }
{
    let Explanation {
        fault,
        offset,
        found,
        due,
        path,
    } = *explanation;
    text.put(b"  at byte ");
    text.put_decimal(u64::from(offset));
    text.put(b" (");
    text.put_longword(offset);
    text.put(b")\n  found ");
    write_found(text, found);
    text.put(b"\n  path: ");
    write_unit(text, path);
    write_hunk(text, path);
    text.put(side_text(path, due).as_bytes());
    text.put(block_name(path).as_bytes());
    text.put(b"\n  due: ");
    text.put(due_text(due).as_bytes());
    text.end_line();
    text.put(kind_text(fault.reason, found).as_bytes());
}

/// The line that tells the kind of a file whose first longword was found to begin one of the other
/// kind; nothing of any other file.
fn kind_text(reason: Reason, found: Found) -> &'static str
    ensures { result.now ≡ kind_text reason found }
{
    match (reason, found) {
        (Reason::WrongStart, Found::Longword(word)) => first_type_text(BlockType::of_longword(
            word,
        )),
        _ => "",
    }
}

/// The line that tells the kind of a file that begins with a block of this type, if there is one.
fn first_type_text(first: BlockType) -> &'static str
    ensures { result.now ≡ first_type_text first }
{
    match first {
        BlockType::Unit => "  kind: object file\n",
        BlockType::Header => "  kind: load file\n",
        _ => "",
    }
}

/// Writes what was found.
fn write_found<W: Sink>(text: &mut Text<'_, W>, found: Found)
    ensures { Puts W.taken W.failed text.old text.new (found_text found) }
{
    match found {
        Found::Longword(word) => text.put_longword(word),
        Found::End(count) => write_end(text, count),
    }
}

/// Writes that the file ends, after `count` bytes of a longword.
fn write_end<W: Sink>(text: &mut Text<'_, W>, count: u8)
    ensures { Puts W.taken W.failed text.old text.new (end_text count) }
{
    text.put(b"the end of the file");
    if count > 0 {
        text.put(b", after ");
        text.put_decimal(u64::from(count));
        text.put(b" of the 4 bytes of a longword");
    }
}

/// Writes the unit of a path; nothing in a load file.
fn write_unit<W: Sink>(text: &mut Text<'_, W>, path: Path)
    ensures { Puts W.taken W.failed text.old text.new (unit_text path) }
{
    if path.units > 0 {
        text.put(b"unit ");
        text.put_decimal(path.units - 1);
        text.put(b", ");
    }
}

/// Writes the hunk of a path; nothing before the first one. The block that ends a hunk belongs to it.
fn write_hunk<W: Sink>(text: &mut Text<'_, W>, path: Path)
    ensures { Puts W.taken W.failed text.old text.new (hunk_text path) }
{
    match path.block {
        None | Some(BlockType::Unit | BlockType::Header) => {}
        Some(BlockType::End) => write_hunk_number(text, path.hunks.saturating_sub(1)),
        Some(_) => write_hunk_number(text, path.hunks),
    }
}

/// Writes the number of a hunk, before what is in it.
fn write_hunk_number<W: Sink>(text: &mut Text<'_, W>, number: u64)
    ensures { Puts W.taken W.failed text.old text.new (hunk_place number) }
{
    text.put(b"hunk ");
    text.put_decimal(number);
    text.put(b", ");
}

/// Whether the offence is in the last block, or after it.
fn side_text(path: Path, due: Due) -> &'static str
    ensures { result.now ≡ side_text path due }
{
    if path.block.is_none() {
        ""
    } else if is_type(due) || due == Due::PastEnd {
        "after "
    } else {
        "in "
    }
}

/// The name of the last block, as `doshunks.h` has it.
fn block_name(path: Path) -> &'static str
    ensures { result.now ≡ block_name path }
{
    match path.block {
        None => "start of the file",
        Some(BlockType::Unit) => "HUNK_UNIT",
        Some(BlockType::Name) => "HUNK_NAME",
        Some(BlockType::Content(HunkKind::Code)) => "HUNK_CODE",
        Some(BlockType::Content(HunkKind::Data)) => "HUNK_DATA",
        Some(BlockType::Content(HunkKind::Bss)) => "HUNK_BSS",
        Some(BlockType::Reloc) => "HUNK_RELOC32",
        Some(BlockType::Ext) => "HUNK_EXT",
        Some(BlockType::Symbol) => "HUNK_SYMBOL",
        Some(BlockType::Debug) => "HUNK_DEBUG",
        Some(BlockType::End) => "HUNK_END",
        Some(BlockType::Header) => "HUNK_HEADER",
        Some(BlockType::Short) => "HUNK_RELOC32SHORT",
        Some(BlockType::Unsupported | BlockType::Unknown) => "a block",
    }
}

/// What was due.
fn due_text(due: Due) -> &'static str
    ensures { result.now ≡ due_text due }
{
    match due {
        Due::ObjectStart => "HUNK_UNIT, which begins an object file",
        Due::LoadStart => "HUNK_HEADER, which begins a load file",
        Due::Resident => "0, the end of the resident library names",
        Due::TableSize => "the number of hunks",
        Due::FirstHunk => "0, the number of the first hunk",
        Due::LastHunk => "the number of the last hunk",
        Due::HeaderSize => "the size of a hunk and its memory",
        Due::UnitType => "the type of a block that begins a hunk or a unit",
        Due::HunkType => "the type of a block that begins a hunk",
        Due::ContentType => "the type of a content block",
        Due::BlockType => "the type of a block",
        Due::PastEnd => "the end of the file",
        Due::UnitLength => "the length of the unit's name",
        Due::NameLength => "the length of the hunk's name",
        Due::Word => "a longword of content, of a name or of a debug block",
        Due::ContentSize => "the size of the content",
        Due::RelocCount => "a count of relocations, or 0 after the last of them",
        Due::HunkNumber => "the number of the hunk that relocations refer to",
        Due::Offset => "the offset of a relocation",
        Due::DebugLength => "the length of the debug block",
        Due::SymbolEntry => "a symbol, or 0 after the last of them",
        Due::ExtEntry => "an external symbol, or 0 after the last of them",
        Due::Value => "the value of a symbol",
        Due::RefCount => "a count of references",
        Due::RefOffset => "the offset of a reference",
        Due::ShortCount => "16-bit words, first a count of relocations",
        Due::ShortHunk => "16-bit words, first the number of a hunk",
        Due::ShortOffset => "16-bit words, first the offset of a relocation",
        Due::ShortPad => "16-bit words, first a pad",
    }
}
