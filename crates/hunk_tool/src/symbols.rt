//! The symbols of a load file, with their addresses.

ghost use Rattle.std.specs.Prelude.{◌≡◌, length, false, IsTrue, OnOk, IfErr};
ghost use Rattle.std.specs.List.{All, flat_map};
ghost use Rattle.hunk_base.specs.Streams.{HasRead, IsDevice, WroteAll};
ghost use Rattle.hunk_base.specs.Text.{Puts};
ghost use Rattle.hunk_loadfile.specs.Rules.{IsLoadFile};
ghost use Rattle.hunk_loader.specs.Image.{hunks_of};
ghost use Rattle.hunk_image_text.specs.ImageText.{EndsInside};
ghost use Rattle.hunk_tool.specs.Image.{IsUnitsFault, IsUnitsText};
ghost use Rattle.hunk_tool.specs.Inputs.{HaveRead, inputs_of};
ghost use Rattle.hunk_tool.specs.Load.{ends_of, IsFaultAt, IsWrittenAt};
ghost use Rattle.hunk_tool.specs.Symbols.{IsPlacedFault, IsPlacedText, address_line, is_held, left_out_text, number_left_out, record_line, record_text, symbol_address, symbol_line, symbol_lines, symbols_text, unheld_in, unit_symbols_text};
ghost use Rattle.hunk_tool.specs.declared.symbol_form.SymbolForm.TheVariants.{Lines, Records};

use crate::link::link_inputs;
use crate::symbol_form::SymbolForm;
use crate::tool_fault::ToolFault;
use hunk_image_text::{ImageForm, put_image, put_left_out};
use hunk_link::NameHasher;
use hunk_loader::{LoadRefusal, check_sizes_with, load};
use hunk_loadfile::{LoadFile, LoadHunk, read_load};
use hunk_words::{Name, Sink, Source, Text, WriteFault};
use std::alloc::Allocator;

/// Reads a load file to the reader's end, and writes its symbols in this form, in file order. The
/// bases are addresses, one for each hunk. A symbol's address is its hunk's base plus its value,
/// modulo 2^32.
///
/// It keeps the file, and for [`SymbolForm::Records`] the image too. Nothing is written before the
/// whole file has been read and placed. It does not flush.
///
/// # Errors
///
/// - [`ToolFault::Input`] with the place and the reason of the first offence of what was read, as
///   [`read_load`] answers it; where the file ends too early, at the reader's end.
/// - [`ToolFault::InputDevice`] where a read failed.
/// - [`ToolFault::Place`] at the end of a load file, as `check_places` answers it for the sizes of
///   its hunks.
/// - [`ToolFault::Output`] if a write failed or took no byte, with the number of bytes of the text
///   that were written.
/// - [`ToolFault::OutOfMemory`] only if an allocation failed, with nothing written.
pub fn symbols_run<A: Allocator + Copy, R: Source, W: Sink>(
    alloc: A,
    reader: &mut R,
    bases: &[u32],
    form: SymbolForm,
    writer: &mut W,
) -> Result<(), ToolFault<A>>
    ensures ok { OnOk result (HasRead (R.left reader.old) (R.left reader.new)
        (IsWrittenAt (symbols_text form) bases.now (W.taken writer.old) (W.taken writer.new))) }
    ensures ended { OnOk result (IsTrue (R.ended reader.new)) }
    ensures err { IfErr result (IsFaultAt (symbols_text form) bases.now (ends_of
        (R.left reader.old) (R.left reader.new) (R.failed reader.new) (R.ended reader.new)
        (W.taken writer.old) (W.taken writer.new) (W.failed writer.new))) }
{
    let file = read_load(alloc, reader)?;
    write_symbols(alloc, &file, bases, form, writer)
}

/// Reads every input in order, to its end, as an object file, links all their units with their
/// symbols and debug blocks, and writes the symbols of the load file that they make, as
/// [`symbols_run`] writes them. The bases are addresses, one for each hunk, in the order of linking.
///
/// Nothing is written before all inputs have been read, linked and placed. It does not flush. What is
/// written does not depend on `hasher`, by which names are looked up.
///
/// # Errors
///
/// - [`ToolFault::Input`] for the first input that is not an object file, with the place and the
///   reason of the first offence of what was read.
/// - [`ToolFault::InputDevice`] if a read failed.
/// - [`ToolFault::Link`] if the units do not link with their symbols and debug blocks, as
///   [`link`](hunk_link::link) returns it.
/// - [`ToolFault::Place`] as `check_places` returns it for the sizes of the hunks.
/// - [`ToolFault::Output`] if a write failed or took no byte, with the number of bytes of the text
///   that were written.
/// - [`ToolFault::OutOfMemory`] only if an allocation failed, with nothing written.
pub fn image_symbols_run<A: Allocator + Copy, R: Source, W: Sink>(
    alloc: A,
    inputs: &mut [R],
    bases: &[u32],
    form: SymbolForm,
    hasher: NameHasher,
    writer: &mut W,
) -> Result<(), ToolFault<A>>
    ensures ok { OnOk result
        (HaveRead (inputs_of R.left R.failed R.ended inputs.old inputs.new) (IsUnitsText false
        (unit_symbols_text form) bases.now (W.taken writer.old) (W.taken writer.new))) }
    ensures err { IfErr result (IsUnitsFault false (unit_symbols_text form) bases.now
        (inputs_of R.left R.failed R.ended inputs.old inputs.new) (record {
          old = W.taken
              writer.old;
          new = W.taken writer.new;
          failed = W.failed writer.new;
        })) }
{
    let file = link_inputs(alloc, inputs, false, false, hasher)?;
    write_symbols(alloc, &file, bases, form, writer)
}

/// Writes the symbols of a load file in this form, if its hunks can be placed at these bases.
fn write_symbols<A: Allocator + Copy, W: Sink>(
    alloc: A,
    file: &LoadFile<A>,
    bases: &[u32],
    form: SymbolForm,
    writer: &mut W,
) -> Result<(), ToolFault<A>>
    ensures ok { OnOk result (IsPlacedText (symbols_text form) file.now bases.now (record {
      old = W.taken writer.old;
      new = W.taken writer.new;
      failed = W.failed writer.new;
    })) }
    ensures err { IfErr result (IsPlacedFault (symbols_text form) file.now bases.now (record {
      old = W.taken writer.old;
      new = W.taken writer.new;
      failed = W.failed writer.new;
    })) }
{
    match form {
        SymbolForm::Lines => write_lines(alloc, file, bases, writer),
        SymbolForm::Records => write_records(alloc, file, bases, writer),
    }
}

/// Writes a line for each symbol of a load file, if its hunks can be placed at these bases.
fn write_lines<A: Allocator + Copy, W: Sink>(
    alloc: A,
    file: &LoadFile<A>,
    bases: &[u32],
    writer: &mut W,
) -> Result<(), ToolFault<A>>
    ensures ok { OnOk result (IsPlacedText (symbols_text Lines) file.now bases.now (record {
      old = W.taken writer.old;
      new = W.taken writer.new;
      failed = W.failed writer.new;
    })) }
    ensures err { IfErr result (IsPlacedFault (symbols_text Lines) file.now bases.now (record {
      old = W.taken writer.old;
      new = W.taken writer.new;
      failed = W.failed writer.new;
    })) }
{
    let hunks = file.hunks();
    if let Err(fault) = check_sizes_with(alloc, &hunks, bases) {
        return Err(ToolFault::Place(fault));
    }
    Ok(write_all_lines(hunks, bases, writer)?)
}

/// Writes a line for each symbol of these hunks, which are at these bases. Does not allocate.
fn write_all_lines<A: Allocator + Copy, W: Sink>(
    hunks: &[LoadHunk<A>],
    bases: &[u32],
    writer: &mut W,
) -> Result<(), WriteFault>
    requires valid { IsLoadFile hunks.now }
    requires based { length hunks.now ≡ length bases.now }
    ensures wrote { WroteAll W.taken W.failed writer.old writer.new
        (symbol_lines Lines hunks.now bases.now) result }
    ensures device { IfErr result IsDevice }
{
    let mut text = Text::new(writer);
    put_lines(&mut text, SymbolForm::Lines, hunks, bases);
    text.finish()
}

/// Writes the symbols and the image of a load file as records, if its hunks can be placed at these
/// bases.
fn write_records<A: Allocator + Copy, W: Sink>(
    alloc: A,
    file: &LoadFile<A>,
    bases: &[u32],
    writer: &mut W,
) -> Result<(), ToolFault<A>>
    ensures ok { OnOk result (IsPlacedText (symbols_text Records) file.now bases.now (record {
      old = W.taken writer.old;
      new = W.taken writer.new;
      failed = W.failed writer.new;
    })) }
    ensures err { IfErr result (IsPlacedFault (symbols_text Records) file.now bases.now (record {
      old = W.taken writer.old;
      new = W.taken writer.new;
      failed = W.failed writer.new;
    })) }
{
    let hunks = file.hunks();
    match load(alloc, file, bases) {
        Ok(image) => Ok(write_all_records(hunks, bases, image.hunks(), writer)?),
        Err(LoadRefusal::Place(fault)) => Err(ToolFault::Place(fault)),
        Err(LoadRefusal::OutOfMemory) => Err(ToolFault::OutOfMemory { written: 0 }),
        Err(LoadRefusal::File(_)) => unreachable!(),
    }
}

/// Writes the symbols of these hunks, which are at these bases, and then their image, as records.
/// Does not allocate.
fn write_all_records<A: Allocator + Copy, W: Sink>(
    hunks: &[LoadHunk<A>],
    bases: &[u32],
    image: &[(u32, Vec<u8, A>)],
    writer: &mut W,
) -> Result<(), WriteFault>
    requires valid { IsLoadFile hunks.now }
    requires based { length hunks.now ≡ length bases.now }
    requires counted { length image.now ≡ length hunks.now }
    requires inside { All EndsInside (hunks_of image.now) }
    ensures wrote { WroteAll W.taken W.failed writer.old writer.new
        (record_text hunks.now bases.now (hunks_of image.now)) result }
    ensures device { IfErr result IsDevice }
{
    let mut text = Text::new(writer);
    text.put(b"$$ amihunk\n");
    put_lines(&mut text, SymbolForm::Records, hunks, bases);
    text.put(b"$$ \n");
    put_number_left_out(&mut text, number_left_out(hunks));
    put_image(&mut text, ImageForm::SRecords, image);
    text.finish()
}

/// Puts a record that tells how many symbols are left out, if any are.
fn put_number_left_out<W: Sink>(text: &mut Text<'_, W>, number: u64)
    ensures { Puts W.taken W.failed text.old text.new (left_out_text number) }
{
    if number > 0 {
        put_left_out(text, number);
    }
}

/// How many symbols of these hunks have names that the lines of records cannot hold.
fn number_left_out<A: Allocator + Copy>(hunks: &[LoadHunk<A>]) -> u64
    requires { IsLoadFile hunks.now }
    ensures { result ≡ number_left_out hunks.now }
{
    let mut count = 0;
    for hunk in hunks {
        count += number_unheld(hunk) as u64;
    }
    count
}

/// How many symbols of this hunk have names that the lines of records cannot hold.
fn number_unheld<A: Allocator + Copy>(hunk: &LoadHunk<A>) -> usize
    ensures { result ≡ unheld_in hunk.now }
{
    hunk.symbols
        .iter()
        .filter(|symbol| !is_held(symbol.0.bytes()))
        .count()
}

/// Whether a line of records can hold this name: it has a byte, and none that is not a visible
/// character of ASCII.
fn is_held(name: &[u8]) -> bool
    ensures { result ≡ is_held name.now }
{
    !name.is_empty() && name.iter().all(|byte| byte.is_ascii_graphic())
}

/// Puts the lines of the symbols of these hunks, which are numbered from 0, in this form.
fn put_lines<A: Allocator + Copy, W: Sink>(
    text: &mut Text<'_, W>,
    form: SymbolForm,
    hunks: &[LoadHunk<A>],
    bases: &[u32],
)
    requires { length hunks.now ≡ length bases.now }
    ensures { Puts W.taken W.failed text.old text.new (symbol_lines form hunks.now bases.now) }
{
    for (number, hunk) in hunks.iter().enumerate() {
        put_hunk_lines(text, form, number as u64, bases[number], &hunk.symbols);
    }
}

/// Puts the lines of these symbols of the hunk with this number, which is at this base.
fn put_hunk_lines<A: Allocator + Copy, W: Sink>(
    text: &mut Text<'_, W>,
    form: SymbolForm,
    number: u64,
    base: u32,
    symbols: &[(Name<A>, u32)],
)
    ensures { Puts W.taken W.failed text.old text.new
        (flat_map (symbol_line form number base) symbols.now) }
{
    for symbol in symbols {
        put_line(text, form, number, base, symbol);
    }
}

/// Puts the line of a symbol of the hunk with this number, which is at this base, in this form.
fn put_line<A: Allocator + Copy, W: Sink>(
    text: &mut Text<'_, W>,
    form: SymbolForm,
    number: u64,
    base: u32,
    symbol: &(Name<A>, u32),
)
    ensures { Puts W.taken W.failed text.old text.new (symbol_line form number base symbol.now) }
{
    match form {
        SymbolForm::Lines => put_address_line(text, number, base, symbol),
        SymbolForm::Records => put_record_line(text, base, symbol),
    }
}

/// Puts the line of a symbol of the hunk with this number, which is at this base.
fn put_address_line<A: Allocator + Copy, W: Sink>(
    text: &mut Text<'_, W>,
    number: u64,
    base: u32,
    symbol: &(Name<A>, u32),
)
    ensures { Puts W.taken W.failed text.old text.new (address_line number base symbol.now) }
{
    text.put_longword(symbol_address(base, symbol.1));
    text.put(b" hunk ");
    text.put_decimal(number);
    text.put(b" ");
    text.put_quoted(symbol.0.bytes());
    text.end_line();
}

/// Puts the line of a symbol before S-records, if it can hold the name.
fn put_record_line<A: Allocator + Copy, W: Sink>(
    text: &mut Text<'_, W>,
    base: u32,
    symbol: &(Name<A>, u32),
)
    ensures { Puts W.taken W.failed text.old text.new (record_line base symbol.now) }
{
    let name = symbol.0.bytes();
    if is_held(name) {
        text.put(b"  ");
        text.put(name);
        text.put(b" $");
        text.put_longword(symbol_address(base, symbol.1));
        text.end_line();
    }
}

/// Where a symbol of this value stands, in the hunk at this base.
fn symbol_address(base: u32, value: u32) -> u32
    ensures { result ≡ symbol_address base value }
{
    base.wrapping_add(value)
}
