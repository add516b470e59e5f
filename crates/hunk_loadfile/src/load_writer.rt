//! Load files as bytes: writing one, hunk by hunk.
ghost use Rattle.std.specs.Prelude.{◌≡◌, ◌<◌, ◌≤◌, ◌^◌, ◌++◌, ℕ, length, map, OnErr, OnOk};
ghost use Rattle.std.specs.List.{All, flat_map};
ghost use Rattle.hunk_base.specs.Longwords.{longwords};
ghost use Rattle.hunk_base.specs.Name.{bytes_of};
ghost use Rattle.hunk_base.specs.Streams.{WroteAll};
ghost use Rattle.hunk_base.specs.Text.{Puts, PutsFront};
ghost use Rattle.hunk_loadfile.specs.Rules.{IsLoadFile, IsLoadHunk, carried_by, most_hunks, most_size};
ghost use Rattle.hunk_loadfile.specs.WrittenForm.{content_words, header_words, hunk_words, size_word, written_form, written_in};

use crate::debug_writer::{write_debugs, write_symbols};
use crate::load_file::LoadFile;
use crate::load_form::LoadForm;
use crate::load_hunk::LoadHunk;
use crate::longword_writer::write_longwords;
use crate::relocation_writer::write_sites;
use hunk_words::doshunks::{HUNK_BSS, HUNK_CODE, HUNK_DATA, HUNK_END, HUNK_HEADER};
use hunk_words::{HunkKind, Memory, Sink, Text, WriteFault};
use std::alloc::{AllocError, Allocator};

/// Writes a load file in its plain form: [`write_load_with`] and [`LoadForm::Plain`].
///
/// # Errors
///
/// - [`WriteFault::Device`] only if a write failed or took no byte.
/// - [`WriteFault::OutOfMemory`] only if an allocation failed and no write failed.
///
/// In either case the writer has taken exactly the first `written` bytes of the file.
pub fn write_load<A: Allocator + Copy, W: Sink>(
    alloc: A,
    file: &LoadFile<A>,
    writer: &mut W,
) -> Result<(), WriteFault>
    ensures wrote { WroteAll W.taken W.failed writer.old writer.new
        (bytes_of (written_form file.now)) result }
{
    write_load_with(alloc, file, LoadForm::Plain, writer)
}

/// Writes a load file in one of its forms (The AmigaDOS Manual, 3rd edition, "Amiga binary file
/// structure"; which of the possible forms these are is our own choice). Apart from the file it
/// keeps at most the sites of one hunk. It does not flush.
///
/// # Errors
///
/// - [`WriteFault::Device`] only if a write failed or took no byte.
/// - [`WriteFault::OutOfMemory`] only if an allocation failed and no write failed.
///
/// In either case the writer has taken exactly the first `written` bytes of the file.
pub fn write_load_with<A: Allocator + Copy, W: Sink>(
    alloc: A,
    file: &LoadFile<A>,
    form: LoadForm,
    writer: &mut W,
) -> Result<(), WriteFault>
    ensures wrote { WroteAll W.taken W.failed writer.old writer.new
        (bytes_of (written_in form file.now)) result }
{
    let mut text = Text::new(writer);
    match write_file(alloc, &mut text, file, form) {
        Ok(()) => text.finish(),
        Err(AllocError) => Err(text.out_of_memory()),
    }
}

/// Writes a load file in one of its forms.
///
/// # Errors
///
/// [`AllocError`] only if an allocation failed.
pub(crate) fn write_file<A: Allocator + Copy, W: Sink>(
    alloc: A,
    text: &mut Text<'_, W>,
    file: &LoadFile<A>,
    form: LoadForm,
) -> Result<(), AllocError>
    ensures wrote { OnOk result
        (Puts W.taken W.failed text.old text.new (bytes_of (written_in form file.now))) }
    ensures stopped { OnErr result
        (PutsFront W.taken W.failed text.old text.new (bytes_of (written_in form file.now))) }
    ensures short { length (bytes_of (written_in form file.now)) < 2 ^ 64 }
{
    let hunks = file.hunks();
    write_header(text, hunks);
    write_hunks(alloc, text, form, hunks)
}

/// Writes the header.
fn write_header<A: Allocator + Copy, W: Sink>(text: &mut Text<'_, W>, hunks: &[LoadHunk<A>])
    requires { IsLoadFile hunks.now }
    ensures { Puts W.taken W.failed text.old text.new (bytes_of (header_words hunks.now)) }
{
    let count = hunks.len() as u32;
    write_longwords(text, &[HUNK_HEADER, 0, count, 0, count - 1]);
    write_sizes(text, hunks);
}

/// The number of hunks whose sizes are written at once.
const CHUNK: usize = 64;

/// Writes the sizes of a header. They go through an array of fixed size.
fn write_sizes<A: Allocator + Copy, W: Sink>(text: &mut Text<'_, W>, hunks: &[LoadHunk<A>])
    requires { All (λ h. h.size ≤ most_size) hunks.now }
    ensures { Puts W.taken W.failed text.old text.new (bytes_of (map size_word hunks.now)) }
{
    let mut room = [0; CHUNK];
    for chunk in hunks.chunks(CHUNK) {
        let words = &mut room[..chunk.len()];
        fill_sizes(words, chunk);
        write_longwords(text, words);
    }
}

/// Fills `words` with the sizes of these hunks, as a header has them.
fn fill_sizes<A: Allocator + Copy>(words: &mut [u32], hunks: &[LoadHunk<A>])
    requires each { length words.old ≡ length hunks.now }
    requires small { All (λ h. h.size ≤ most_size) hunks.now }
    ensures { words.new ≡ map size_word hunks.now }
{
    for (number, hunk) in hunks.iter().enumerate() {
        words[number] = size_word(hunk);
    }
}

/// The size of a hunk as a header has it, with the two bits for the memory above it.
fn size_word<A: Allocator + Copy>(hunk: &LoadHunk<A>) -> u32
    requires { hunk.now.size ≤ most_size }
    ensures { result ≡ size_word hunk.now }
{
    let bits = match hunk.memory {
        Memory::Any => 0,
        Memory::Chip => 1 << 30,
        Memory::Fast => 1 << 31,
    };
    bits + hunk.size
}

/// Writes these hunks, each including its END. Once the text has stopped, it leaves out the hunks
/// that are left.
///
/// # Errors
///
/// [`AllocError`] only if an allocation failed.
fn write_hunks<A: Allocator + Copy, W: Sink>(
    alloc: A,
    text: &mut Text<'_, W>,
    form: LoadForm,
    hunks: &[LoadHunk<A>],
) -> Result<(), AllocError>
    requires { IsLoadFile hunks.now }
    ensures wrote { OnOk result (Puts W.taken W.failed text.old text.new
        (flat_map (λ hunk. bytes_of (hunk_words form (length hunks.now) hunk)) hunks.now)) }
    ensures stopped { OnErr result (PutsFront W.taken W.failed text.old text.new
        (flat_map (λ hunk. bytes_of (hunk_words form (length hunks.now) hunk)) hunks.now)) }
{
    for hunk in hunks {
        if text.is_stopped() {
            return Ok(());
        }
        write_hunk(alloc, text, form, hunk)?;
    }
    Ok(())
}

/// Writes a hunk, including its END.
///
/// # Errors
///
/// [`AllocError`] only if an allocation failed.
fn write_hunk<A: Allocator + Copy, W: Sink>(
    alloc: A,
    text: &mut Text<'_, W>,
    form: LoadForm,
    hunk: &LoadHunk<A>,
) -> Result<(), AllocError>
    requires valid { IsLoadHunk most_hunks hunk.now }
    requires carries { carried_by hunk.now ≤ 2 ^ 28 }
    ensures wrote { (count : ℕ) → All (λ site. site.1 < count) hunk.now.sites.entries → OnOk result
        (Puts W.taken W.failed text.old text.new (bytes_of (hunk_words form count hunk.now))) }
    ensures stopped { (count : ℕ) → OnErr result
        (PutsFront W.taken W.failed text.old text.new (bytes_of (hunk_words form count hunk.now))) }
{
    write_content(text, hunk);
    write_sites(alloc, text, form, &hunk.sites)?;
    write_symbols(text, &hunk.symbols);
    write_debugs(text, &hunk.debugs);
    write_longwords(text, &[HUNK_END]);
    Ok(())
}

/// Writes what a file has for the content of a hunk. The bytes are put unchanged, in one call.
fn write_content<A: Allocator + Copy, W: Sink>(text: &mut Text<'_, W>, hunk: &LoadHunk<A>)
    requires { IsLoadHunk most_hunks hunk.now }
    ensures { Puts W.taken W.failed text.old text.new
        (bytes_of (content_words hunk.now.kind hunk.now.size (longwords hunk.now.content))) }
{
    write_longwords(text, &content_head(hunk));
    text.put(&hunk.content);
}

/// The longwords of a content block before its content.
fn content_head<A: Allocator + Copy>(hunk: &LoadHunk<A>) -> [u32; 2]
    requires valid { IsLoadHunk most_hunks hunk.now }
    ensures { result ++ longwords hunk.now.content ≡ content_words hunk.now.kind hunk.now.size
        (longwords hunk.now.content) }
{
    match hunk.kind {
        HunkKind::Code => [HUNK_CODE, hunk.stored()],
        HunkKind::Data => [HUNK_DATA, hunk.stored()],
        HunkKind::Bss => [HUNK_BSS, hunk.size],
    }
}
