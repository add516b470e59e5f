//! The symbols and debug blocks of a hunk, as they are written.
ghost use Rattle.std.specs.Prelude.{◌≡◌, ◌<◌, ◌≤◌, ◌^◌, length};
ghost use Rattle.std.specs.List.{All, flat_map};
ghost use Rattle.hunk_base.specs.Name.{bytes_of, longword_count, most_name, name_words};
ghost use Rattle.hunk_base.specs.Text.{Puts};
ghost use Rattle.hunk_loadfile.specs.WrittenForm.{debug_words, symbol_words, symbols_words};

use crate::longword_writer::write_longwords;
use hunk_words::doshunks::{HUNK_DEBUG, HUNK_SYMBOL};
use hunk_words::{Name, Sink, Text};
use std::alloc::Allocator;

/// Writes the symbol block, if there are symbols.
pub(crate) fn write_symbols<A: Allocator + Copy, W: Sink>(
    text: &mut Text<'_, W>,
    symbols: &[(Name<A>, u32)],
)
    requires { All (λ s. length s.0 ≤ most_name) symbols.now }
    ensures { Puts W.taken W.failed text.old text.new (bytes_of (symbols_words symbols.now)) }
{
    if symbols.is_empty() {
        return;
    }
    write_longwords(text, &[HUNK_SYMBOL]);
    write_each_symbol(text, symbols);
    write_longwords(text, &[0]);
}

/// Writes these symbols, one after another.
fn write_each_symbol<A: Allocator + Copy, W: Sink>(
    text: &mut Text<'_, W>,
    symbols: &[(Name<A>, u32)],
)
    requires { All (λ s. length s.0 ≤ most_name) symbols.now }
    ensures { Puts W.taken W.failed text.old text.new
        (flat_map (λ symbol. bytes_of (symbol_words symbol)) symbols.now) }
{
    for symbol in symbols {
        write_symbol(text, symbol);
    }
}

/// Writes a symbol: the length of its name in longwords, the name, and the value.
fn write_symbol<A: Allocator + Copy, W: Sink>(text: &mut Text<'_, W>, symbol: &(Name<A>, u32))
    requires { length symbol.now.0 ≤ most_name }
    ensures { Puts W.taken W.failed text.old text.new (bytes_of (symbol_words symbol.now)) }
{
    let (name, value) = (&symbol.0, symbol.1);
    let count = longword_count(name.bytes().len()) as u32;
    write_longwords(text, &[count]);
    write_name(text, name);
    write_longwords(text, &[value]);
}

/// The fewest longwords that hold a name of `bytes` bytes: at least one.
fn longword_count(bytes: usize) -> usize
    ensures { result ≡ longword_count bytes }
{
    bytes.div_ceil(4).max(1)
}

/// Writes the longwords of a name: its bytes, padded with zeros.
fn write_name<A: Allocator + Copy, W: Sink>(text: &mut Text<'_, W>, name: &Name<A>)
    requires { length name.now ≤ most_name }
    ensures { Puts W.taken W.failed text.old text.new (bytes_of (name_words name.now)) }
{
    let bytes = name.bytes();
    let zeros = 4 * longword_count(bytes.len()) - bytes.len();
    text.put(bytes);
    text.put(&[0; 4][..zeros]);
}

/// Writes the debug blocks, one after another.
pub(crate) fn write_debugs<A: Allocator + Copy, W: Sink>(
    text: &mut Text<'_, W>,
    debugs: &[Vec<u32, A>],
)
    requires { All (λ debug. length debug.items < 2 ^ 32) debugs.now }
    ensures { Puts W.taken W.failed text.old text.new
        (flat_map (λ debug. bytes_of (debug_words debug.items)) debugs.now) }
{
    for debug in debugs {
        write_debug(text, debug);
    }
}

/// Writes a debug block.
fn write_debug<W: Sink>(text: &mut Text<'_, W>, debug: &[u32])
    requires { length debug.now < 2 ^ 32 }
    ensures { Puts W.taken W.failed text.old text.new (bytes_of (debug_words debug.now)) }
{
    write_longwords(text, &[HUNK_DEBUG, debug.len() as u32]);
    write_longwords(text, debug);
}
