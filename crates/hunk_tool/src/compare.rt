//! Compares two load files.

ghost use Rattle.std.specs.Prelude.{◌≡◌, List, IfOk, IfErr};
ghost use Rattle.hunk_base.specs.Text.{Puts};
ghost use Rattle.hunk_loadfile.specs.Comparison.{Compares};
ghost use Rattle.hunk_loadfile.specs.LoadHunk.{FileHunk};
ghost use Rattle.hunk_tool.specs.Compare.{comparison, input_of, is_same, taken_of, BothRead, IsCompared, IsCompareFault};

use crate::tool_fault::ToolFault;
use hunk_loadfile::{Comparison, LoadFile, read_comparison, read_load};
use hunk_text::{write_difference, write_info_difference};
use hunk_words::{Sink, Source, Text};
use std::alloc::Allocator;

/// Reads two load files, each to its reader's end, and writes the line that tells where they first differ
/// in what they mean; or nothing if they mean the same. With `with_symbols` it also writes, for files that
/// mean the same, the line that tells where they first differ in their symbols and debug blocks. Returns
/// whether it found no difference.
///
/// It keeps the first file, and of the second no content, and the sites, symbols and debug blocks of one hunk
/// at a time. Nothing is read of the second before the first is known to be a load file, and nothing is
/// written before both are. It does not flush.
///
/// # Errors
///
/// - [`ToolFault::Input`] for the first file that is not a load file, 0 or 1, with the place and the reason
///   of the first offence of what was read, as [`read_load`] answers it; where the file ends too early, at
///   its reader's end.
/// - [`ToolFault::InputDevice`] where a read failed.
/// - [`ToolFault::Output`] if a write failed or took no byte, with the number of bytes of the line that were
///   written.
/// - [`ToolFault::OutOfMemory`] if an allocation failed, with nothing written.
pub fn compare_run<A: Allocator + Copy, R: Source, S: Source, W: Sink>(
    alloc: A,
    first: &mut R,
    second: &mut S,
    with_symbols: bool,
    writer: &mut W,
) -> Result<bool, ToolFault<A>>
    ensures ok { IfOk result (λ same. BothRead (input_of R.left R.failed R.ended
        first.old first.new) (input_of S.left S.failed S.ended second.old second.new)
        (IsCompared with_symbols same (W.taken writer.old) (W.taken writer.new))) }
    ensures err { IfErr result (IsCompareFault with_symbols (input_of R.left R.failed
        R.ended first.old first.new) (input_of S.left S.failed S.ended second.old second.new)
        (taken_of W.taken W.failed writer.old writer.new)) }
{
    let one = read_load(alloc, first)?;
    let (one, comparison) = match read_comparison(alloc, one, second) {
        Ok(both) => both,
        Err(fault) => return Err(ToolFault::of_read(1, fault)),
    };
    let mut text = Text::new(writer);
    let same = write_comparison(&mut text, &one, &comparison, with_symbols);
    text.finish()?;
    Ok(same)
}

/// Writes how a load file compares with the first one, and returns whether it found no difference.
fn write_comparison<A: Allocator + Copy, W: Sink>(
    text: &mut Text<'_, W>,
    first: &LoadFile<A>,
    found: &Comparison<A>,
    with_symbols: bool,
) -> bool
    ensures puts { (seconds : List FileHunk) → Compares found.now first.now seconds →
        Puts W.taken W.failed text.old text.new (comparison with_symbols first.now seconds) }
    ensures same { (seconds : List FileHunk) → Compares found.now first.now seconds →
        result ≡ is_same with_symbols first.now seconds }
{
    if let Some(difference) = found.difference {
        write_difference(text, &difference);
        return false;
    }
    if !with_symbols {
        return true;
    }
    match found.info_difference {
        Some(difference) => {
            write_info_difference(text, first.hunks(), found.symbol.as_ref(), &difference);
            false
        }
        None => true,
    }
}
