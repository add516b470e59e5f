//! The lines that hunks of either kind of file have.

ghost use Rattle.std.specs.Prelude.{◌≡◌};
ghost use Rattle.std.specs.List.{flat_map};
ghost use Rattle.hunk_base.specs.Text.{Puts};
ghost use Rattle.hunk_words.specs.DebugInfo.{lists_of};
ghost use Rattle.hunk_text.specs.Listing.{adds_hunk, debug_line, debug_lines, hunk_front, kind_word, memory_word, site_line, symbol_line};

use hunk_words::{HunkKind, Memory, Name, Sink, Text};
use std::alloc::Allocator;

/// Writes how the line of a hunk begins: its number, its kind, its memory and its size in longwords.
pub fn write_hunk_front<W: Sink>(
    text: &mut Text<'_, W>,
    number: u64,
    kind: HunkKind,
    memory: Memory,
    size: u32,
)
    ensures { Puts W.taken W.failed text.old text.new (hunk_front number kind memory size) }
{
    write_hunk_number(text, number);
    text.put(b" ");
    text.put(kind_word(kind));
    text.put(b" ");
    text.put(memory_word(memory));
    text.put(b" ");
    text.put_decimal(u64::from(size));
    text.put(b" longwords");
}

/// Writes a hunk by its number.
pub(crate) fn write_hunk_number<W: Sink>(text: &mut Text<'_, W>, number: u64)
    ensures { Puts W.taken W.failed text.old text.new (adds_hunk number) }
{
    text.put(b"hunk ");
    text.put_decimal(number);
}

/// The word for the kind of a hunk.
pub(crate) fn kind_word(kind: HunkKind) -> &'static [u8]
    ensures { result.now ≡ kind_word kind }
{
    match kind {
        HunkKind::Code => b"code",
        HunkKind::Data => b"data",
        HunkKind::Bss => b"bss",
    }
}

/// The word for the memory that a hunk asks for.
pub(crate) fn memory_word(memory: Memory) -> &'static [u8]
    ensures { result.now ≡ memory_word memory }
{
    match memory {
        Memory::Any => b"any",
        Memory::Chip => b"chip",
        Memory::Fast => b"fast",
    }
}

/// Writes the line of a site to which the base of a hunk is added.
pub(crate) fn write_hunk_site<W: Sink>(text: &mut Text<'_, W>, offset: u32, hunk: u32)
    ensures { Puts W.taken W.failed text.old text.new (site_line offset (adds_hunk hunk)) }
{
    text.put(b"  ");
    text.put_longword(offset);
    text.put(b" adds ");
    write_hunk_number(text, u64::from(hunk));
    text.end_line();
}

/// Writes the lines of the symbols of a hunk, and then those of its debug blocks.
pub(crate) fn write_debug_lines<A: Allocator + Copy, W: Sink>(
    text: &mut Text<'_, W>,
    symbols: &[(Name<A>, u32)],
    debugs: &[Vec<u32, A>],
)
    ensures { Puts W.taken W.failed text.old text.new
        (debug_lines symbols.now (lists_of debugs.now)) }
{
    write_symbols(text, symbols);
    write_debugs(text, debugs);
}

/// Writes a line for each symbol.
fn write_symbols<A: Allocator + Copy, W: Sink>(text: &mut Text<'_, W>, symbols: &[(Name<A>, u32)])
    ensures { Puts W.taken W.failed text.old text.new (flat_map symbol_line symbols.now) }
{
    for symbol in symbols {
        write_symbol(text, symbol);
    }
}

/// Writes the line of a symbol.
fn write_symbol<A: Allocator + Copy, W: Sink>(text: &mut Text<'_, W>, symbol: &(Name<A>, u32))
    ensures { Puts W.taken W.failed text.old text.new (symbol_line symbol.now) }
{
    text.put(b"  symbol ");
    text.put_quoted(symbol.0.bytes());
    text.put(b" ");
    text.put_longword(symbol.1);
    text.end_line();
}

/// Writes a line for each debug block.
fn write_debugs<A: Allocator + Copy, W: Sink>(text: &mut Text<'_, W>, debugs: &[Vec<u32, A>])
    ensures { Puts W.taken W.failed text.old text.new (flat_map debug_line (lists_of debugs.now)) }
{
    for words in debugs {
        write_debug(text, words);
    }
}

/// Writes the line of a debug block of these longwords.
fn write_debug<W: Sink>(text: &mut Text<'_, W>, words: &[u32])
    ensures { Puts W.taken W.failed text.old text.new (debug_line words.now) }
{
    text.put(b"  debug ");
    text.put_decimal(words.len() as u64);
    text.end_line();
}
