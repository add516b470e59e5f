//! The numbers of a text, as they are written.
ghost use Rattle.std.specs.Prelude.{◌≡◌, ◌*◌, ◌%◌, ◌≤◌, ◌^◌, length, map};
ghost use Rattle.hunk_base.specs.Name.{bytes_of};
ghost use Rattle.hunk_base.specs.Text.{Puts};
ghost use Rattle.hunk_loadfile.specs.NumberWidth.{bytes_in, width_bytes};

use crate::number_width::NumberWidth;
use byteorder::{BigEndian, ByteOrder};
use hunk_words::{Sink, Text};

/// The number of numbers that are written at once.
const CHUNK: usize = 256;

/// How many numbers a word can hold.
const WORDS: u32 = 1 << 16;

/// Writes these longwords, each with its most significant byte first.
pub(crate) fn write_longwords<W: Sink>(text: &mut Text<'_, W>, words: &[u32])
    ensures { Puts W.taken W.failed text.old text.new (bytes_of words.now) }
{
    write_numbers(text, NumberWidth::Longword, words);
}

/// Writes these numbers in the given width, of each its lowest bytes, the most significant one
/// first. They go through an array of fixed size.
pub(crate) fn write_numbers<W: Sink>(text: &mut Text<'_, W>, width: NumberWidth, numbers: &[u32])
    ensures { Puts W.taken W.failed text.old text.new (bytes_in width numbers.now) }
{
    let mut room = [0; 4 * CHUNK];
    for chunk in numbers.chunks(CHUNK) {
        let bytes = &mut room[..width.bytes() * chunk.len()];
        fill_bytes(bytes, width, chunk);
        text.put(bytes);
    }
}

/// Fills `bytes` with the numbers in the given width.
fn fill_bytes(bytes: &mut [u8], width: NumberWidth, numbers: &[u32])
    requires each { length bytes.old ≡ width_bytes width * length numbers.now }
    requires few { length numbers.now ≤ 256 }
    ensures { bytes.new ≡ bytes_in width numbers.now }
{
    match width {
        NumberWidth::Word => {
            let mut room = [0; CHUNK];
            let words = &mut room[..numbers.len()];
            fill_words(words, numbers);
            BigEndian::write_u16_into(words, bytes);
        }
        NumberWidth::Longword => BigEndian::write_u32_into(numbers, bytes),
    }
}

/// Fills `words` with the lowest 16 bits of each number.
fn fill_words(words: &mut [u16], numbers: &[u32])
    requires each { length words.old ≡ length numbers.now }
    ensures { words.new ≡ map (λ n. n % 2 ^ 16) numbers.now }
{
    for (index, number) in numbers.iter().enumerate() {
        words[index] = (*number % WORDS) as u16;
    }
}
