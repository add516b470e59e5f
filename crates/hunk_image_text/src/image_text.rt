//! The text of an image, line by line as it is written.
ghost use Rattle.std.specs.Prelude.{◌≡◌, ◌+◌, ◌<◌, ◌≤◌, ◌^◌, length, IfErr};
ghost use Rattle.std.specs.List.{All};
ghost use Rattle.hunk_base.specs.Streams.{IsDevice, WroteAll};
ghost use Rattle.hunk_base.specs.Text.{Puts};
ghost use Rattle.hunk_loader.specs.Image.{hunks_of};
ghost use Rattle.hunk_image_text.specs.ImageText.{all_hunk_lines, closing, hunk_heading, hunk_line, hunk_lines, image_text};
ghost use Rattle.hunk_image_text.specs.ImageText.{opening, EndsInside};

use crate::image_form::ImageForm;
use crate::record;
use crate::rows::write_rows;
use hunk_words::{Sink, Text, WriteFault};
use std::alloc::Allocator;

/// Writes an image with these hunks in this form: each is a base, which is an address, and bytes,
/// the last of which has an address too. A report has every hunk, even an empty one. It does not
/// allocate, and does not flush.
///
/// # Errors
///
/// [`WriteFault::Device`] if a write failed or took no byte, with the number of bytes of the text
/// that were written.
pub fn write_image<A: Allocator, W: Sink>(
    form: ImageForm,
    hunks: &[(u32, Vec<u8, A>)],
    writer: &mut W,
) -> Result<(), WriteFault>
    requires few { length hunks.now < 2 ^ 16 }
    requires inside { All EndsInside (hunks_of hunks.now) }
    ensures wrote { WroteAll W.taken W.failed writer.old writer.new
        (image_text form (hunks_of hunks.now)) result }
    ensures device { IfErr result IsDevice }
{
    let mut text = Text::new(writer);
    put_image(&mut text, form, hunks);
    text.finish()
}

/// Puts an image with these hunks in this form at the end of a text, as [`write_image`] writes it.
pub fn put_image<A: Allocator, W: Sink>(
    text: &mut Text<'_, W>,
    form: ImageForm,
    hunks: &[(u32, Vec<u8, A>)],
)
    requires { All EndsInside (hunks_of hunks.now) }
    ensures { Puts W.taken W.failed text.old text.new (image_text form (hunks_of hunks.now)) }
{
    text.put(form.opening());
    write_hunks(text, form, hunks);
    text.put(form.closing());
}

/// Writes all lines of the hunks.
fn write_hunks<A: Allocator, W: Sink>(
    text: &mut Text<'_, W>,
    form: ImageForm,
    hunks: &[(u32, Vec<u8, A>)],
)
    requires { All EndsInside (hunks_of hunks.now) }
    ensures { Puts W.taken W.failed text.old text.new (all_hunk_lines form (hunks_of hunks.now)) }
{
    for (number, (base, bytes)) in hunks.iter().enumerate() {
        write_hunk(text, form, number as u64, *base, bytes);
    }
}

impl ImageForm {
    /// What comes before the first hunk.
    fn opening<'a>(self) -> &'a [u8]
        ensures { result.now ≡ opening self }
    {
        match self {
            ImageForm::Report => b"",
            ImageForm::SRecords => record::header(),
        }
    }

    /// What comes after the last hunk.
    fn closing<'a>(self) -> &'a [u8]
        ensures { result.now ≡ closing self }
    {
        match self {
            ImageForm::Report => b"",
            ImageForm::SRecords => record::end(),
        }
    }
}

/// Writes all lines of a hunk.
fn write_hunk<W: Sink>(
    text: &mut Text<'_, W>,
    form: ImageForm,
    number: u64,
    base: u32,
    bytes: &[u8],
)
    requires { base + length bytes.now ≤ 2 ^ 32 }
    ensures { Puts W.taken W.failed text.old text.new (hunk_lines form number base bytes.now) }
{
    write_heading(text, form, number, base, bytes.len() as u64);
    write_rows(text, form, base, bytes);
}

/// Writes what comes before the rows of a hunk: only a report tells where one begins.
fn write_heading<W: Sink>(
    text: &mut Text<'_, W>,
    form: ImageForm,
    number: u64,
    base: u32,
    size: u64,
)
    ensures { Puts W.taken W.failed text.old text.new (hunk_heading form number base size) }
{
    match form {
        ImageForm::Report => write_hunk_line(text, number, base, size),
        ImageForm::SRecords => {}
    }
}

/// Writes the first line of a hunk of a report.
fn write_hunk_line<W: Sink>(text: &mut Text<'_, W>, number: u64, base: u32, size: u64)
    ensures { Puts W.taken W.failed text.old text.new (hunk_line number base size) }
{
    text.put(b"hunk ");
    text.put_decimal(number);
    text.put(b" at ");
    text.put_longword(base);
    text.put(b" size ");
    text.put_decimal(size);
    text.end_line();
}
