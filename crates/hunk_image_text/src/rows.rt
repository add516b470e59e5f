//! The lines that hold the bytes of a hunk, row by row as they are written.
ghost use Rattle.std.specs.Prelude.{◌≡◌, ◌+◌, ◌*◌, ◌≤◌, ◌^◌, length, take};
ghost use Rattle.hunk_base.specs.Text.{Puts};
ghost use Rattle.hunk_image_text.specs.Rows.{line_overhead, longest_line, report_line, row_count, row_line, row_lines, row_size};

use crate::hex_digits::put_digits;
use crate::image_form::ImageForm;
use crate::record::put_data_record;
use hunk_words::{Sink, Text};

/// Bytes of the rows that are written at once: 256 rows of a report, or 128 of S-records. Their lines are longer
/// than the buffer of a writer of std, which then passes them on as they are.
const BLOCK: usize = 4096;

/// The most bytes of the lines of these rows: 42 for each row of a report.
const MOST_LINES: usize = 256 * 42;

/// Writes the lines of the rows of a hunk, block by block.
pub(crate) fn write_rows<W: Sink>(text: &mut Text<'_, W>, form: ImageForm, base: u32, bytes: &[u8])
    requires { base + length bytes.now ≤ 2 ^ 32 }
    ensures { Puts W.taken W.failed text.old text.new (row_lines form base bytes.now) }
{
    for index in 0..bytes.len().div_ceil(BLOCK) {
        // No digits are made for a writer that takes no more.
        if text.is_stopped() {
            return;
        }
        let start = BLOCK * index;
        let end = bytes.len().min(start + BLOCK);
        write_block(text, form, base + start as u32, &bytes[start..end]);
    }
}

/// Writes the lines of the rows of a block at once. `address` is that of the block's first byte.
fn write_block<W: Sink>(text: &mut Text<'_, W>, form: ImageForm, address: u32, block: &[u8])
    requires inside { address + length block.now ≤ 2 ^ 32 }
    requires short { length block.now ≤ 4096 }
    ensures { Puts W.taken W.failed text.old text.new (row_lines form address block.now) }
{
    let mut lines = [0; MOST_LINES];
    let end = put_rows(&mut lines, form, address, block);
    text.put(&lines[..end]);
}

/// Puts the lines of the rows of a block at the start of `lines`, and returns their length.
fn put_rows(lines: &mut [u8], form: ImageForm, address: u32, block: &[u8]) -> usize
    requires inside { address + length block.now ≤ 2 ^ 32 }
    requires room { longest_line form * row_count form block.now ≤ length lines.old }
    ensures within { result ≤ length lines.new }
    ensures lines { take result lines.new ≡ row_lines form address block.now }
{
    let size = form.row_size();
    let overhead = form.line_overhead();
    let mut end = 0;
    for index in 0..block.len().div_ceil(size) {
        let start = size * index;
        let stop = block.len().min(start + size);
        let next = end + overhead + 2 * (stop - start);
        put_row(
            &mut lines[end..next],
            form,
            address + start as u32,
            &block[start..stop],
        );
        end = next;
    }
    end
}

impl ImageForm {
    /// Bytes per row.
    fn row_size(self) -> usize
        ensures { result ≡ row_size self }
    {
        match self {
            ImageForm::Report => 16,
            ImageForm::SRecords => 32,
        }
    }

    /// How many bytes the line of a row has besides two for each byte of the row.
    fn line_overhead(self) -> usize
        ensures { result ≡ line_overhead self }
    {
        match self {
            ImageForm::Report => 10,
            ImageForm::SRecords => 15,
        }
    }
}

/// Fills `line` with the line of a row, whose first byte is at `address`.
fn put_row(line: &mut [u8], form: ImageForm, address: u32, row: &[u8])
    requires size { length line.old ≡ line_overhead form + 2 * length row.now }
    requires short { length row.now ≤ row_size form }
    ensures { line.new ≡ row_line form address row.now }
{
    match form {
        ImageForm::Report => put_report_line(line, address, row),
        ImageForm::SRecords => put_data_record(line, address, row),
    }
}

/// Fills `line` with the line of a row of a report.
fn put_report_line(line: &mut [u8], address: u32, row: &[u8])
    requires { length line.old ≡ 10 + 2 * length row.now }
    ensures { line.new ≡ report_line address row.now }
{
    let last = line.len() - 1;
    put_digits(&mut line[..8], &address.to_be_bytes());
    line[8] = b' ';
    put_digits(&mut line[9..last], row);
    line[last] = b'\n';
}
