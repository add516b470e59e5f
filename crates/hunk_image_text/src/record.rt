//! The lines of S-records.
ghost use Rattle.std.specs.Prelude.{◌≡◌, ◌+◌, ◌*◌, ◌≤◌, ◌++◌, length, take};
ghost use Rattle.hex.specs.Hex.{encode_upper};
ghost use Rattle.hunk_base.specs.Text.{Puts, line};
ghost use Rattle.hunk_image_text.specs.Record.{checksum, data_record, end_record, header_record, left_out_record, left_out_words, record_line, text_record};

use crate::hex_digits::put_upper_digits;
use hunk_words::{Sink, Text};

/// The most bytes of data of a record: those of a text that counts symbols, with 20 digits.
const MOST_DATA: usize = LEFT_OUT.len() + 20;

/// The most bytes that a record spells out: their count, four of an address, its data, and the
/// checksum.
const MOST_BYTES: usize = 1 + 4 + MOST_DATA + 1;

/// The most bytes of a line: its kind, two digits for each byte, and the newline.
const MOST_LINE: usize = 2 + 2 * MOST_BYTES + 1;

/// What the text of a record that counts symbols begins with.
const LEFT_OUT: &[u8] = b"symbols left out: ";

/// The first record of an image.
pub(crate) fn header<'a>() -> &'a [u8]
    ensures { result.now ≡ header_record }
{
    b"S00A0000616D6968756E6B08\n"
}

/// The last record of an image.
pub(crate) fn end<'a>() -> &'a [u8]
    ensures { result.now ≡ end_record }
{
    b"S70500000000FA\n"
}

/// Fills `line` with the record of a row, whose first byte is at `address`.
pub(crate) fn put_data_record(line: &mut [u8], address: u32, row: &[u8])
    requires size { length line.old ≡ 15 + 2 * length row.now }
    requires short { length row.now ≤ 32 }
    ensures { line.new ≡ data_record address row.now }
{
    put_record(line, b"S3", &address.to_be_bytes(), row);
}

/// Writes the record that tells how many symbols are left out of the lines before it: an `S0`
/// record, which readers of S-records pass over. It does not allocate.
pub fn put_left_out<W: Sink>(text: &mut Text<'_, W>, count: u64)
    ensures { Puts W.taken W.failed text.old text.new (left_out_record count) }
{
    let mut words = [0; MOST_DATA];
    let end = put_words(&mut words, count);
    put_text_record(text, &words[..end]);
}

/// Puts the text that counts symbols at the start of `words`, and returns its length.
fn put_words(words: &mut [u8], count: u64) -> usize
    requires { length words.old ≡ 38 }
    ensures short { result ≤ 38 }
    ensures size { length words.new ≡ 38 }
    ensures text { take result words.new ≡ left_out_words count }
{
    let mut digits = itoa::Buffer::new();
    let end = put(words, 0, LEFT_OUT);
    put(words, end, digits.format(count).as_bytes())
}

/// Writes the record that tells a text.
fn put_text_record<W: Sink>(text: &mut Text<'_, W>, words: &[u8])
    requires { length words.now ≤ 38 }
    ensures { Puts W.taken W.failed text.old text.new (text_record words.now) }
{
    let mut line = [0; MOST_LINE];
    let size = 11 + 2 * words.len();
    put_record(&mut line[..size], b"S0", &[0, 0], words);
    text.put(&line[..size]);
}

/// Fills `line` with the record of this kind that spells out an address and these bytes.
fn put_record(line: &mut [u8], kind: &[u8], address: &[u8], content: &[u8])
    requires size { length line.old ≡ length kind.now + 2 *
        (length address.now + length content.now + 2) + 1 }
    requires narrow { length address.now ≤ 4 }
    requires short { length content.now ≤ 38 }
    ensures { line.new ≡ record_line kind.now (address.now ++ content.now) }
{
    let mut bytes = [0; MOST_BYTES];
    let count = (address.len() + content.len() + 1) as u8;
    let end = put(&mut bytes, 0, &[count]);
    let end = put(&mut bytes, end, address);
    let end = put(&mut bytes, end, content);
    let sum = checksum(&bytes[..end]);
    let end = put(&mut bytes, end, &[sum]);
    put_line(line, kind, &bytes[..end]);
}

/// The checksum of these bytes.
fn checksum(bytes: &[u8]) -> u8
    ensures { result ≡ checksum bytes.now }
{
    let mut total: u8 = 0;
    for byte in bytes {
        total = total.wrapping_add(*byte);
    }
    255 - total
}

/// Fills `place` with the line of a record of this kind, which spells out these bytes.
fn put_line(place: &mut [u8], kind: &[u8], bytes: &[u8])
    requires { length place.old ≡ length kind.now + 2 * length bytes.now + 1 }
    ensures { place.new ≡ line (kind.now ++ encode_upper bytes.now) }
{
    let end = put(place, 0, kind);
    let end = put_digits(place, end, bytes);
    put(place, end, b"\n");
}

/// Puts `part` after the first `end` bytes of `whole`, and returns where it ends.
fn put(whole: &mut [u8], end: usize, part: &[u8]) -> usize
    requires { end + length part.now ≤ length whole.old }
    ensures next { result ≡ end + length part.now }
    ensures size { length whole.new ≡ length whole.old }
    ensures front { take result whole.new ≡ take end whole.old ++ part.now }
{
    let next = end + part.len();
    whole[end..next].copy_from_slice(part);
    next
}

/// Puts two upper-case hexadecimal digits per byte after the first `end` bytes of `line`, and
/// returns where they end.
fn put_digits(line: &mut [u8], end: usize, bytes: &[u8]) -> usize
    requires { end + 2 * length bytes.now ≤ length line.old }
    ensures next { result ≡ end + 2 * length bytes.now }
    ensures size { length line.new ≡ length line.old }
    ensures front { take result line.new ≡ take end line.old ++ encode_upper bytes.now }
{
    let next = end + 2 * bytes.len();
    put_upper_digits(&mut line[end..next], bytes);
    next
}
