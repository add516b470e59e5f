//! The request `link`: the load file of object files, and the map of it.
ghost use Rattle.std.specs.Prelude.{◌≡◌, true, Contains, Err, IfOk, IfErr, Ok, OnErr, OnOk, length, map};
ghost use Rattle.std.specs.String.{string_bytes};
ghost use Rattle.hunk_base.specs.Streams.{WroteText};
ghost use Rattle.hunk_loadfile.specs.WrittenForm.{IsShortEnough};
ghost use Rattle.hunk_tool.specs.Inputs.{file_names};
ghost use Rattle.hunk_origins.specs.Map.{map_text};
ghost use Rattle.hunk_origins.specs.Origins.{origins};
ghost use Rattle.hunk_store.specs.Store.{AreUnchanged, IsKnown, run_of};
ghost use Rattle.hunk_commands.specs.Link.{AreUnlinked, DoLinkFiles, DoLinkTo, HasMap, IsLinkFailure, IsMade, IsMapFailure, IsMapped, IsUnmapped, IsUnwritten, IsWrittenOut, map_failure};

use crate::devices::{begin, is_one_file};
use hunk_loadfile::{LoadFile, write_load_with};
use hunk_origins::{link_files, write_map};
use hunk_store::{Failure, Store, open_inputs};
use hunk_tool::{LinkOptions, ObjectFiles, ToolFault, link_inputs, link_run_with};
use hunk_words::{Sink, Text, WriteFault};
use std::alloc::Global;

/// Links the object files named `files`, and puts their load file in the place of the file named `out`,
/// as `options` say, with the names that hunks define at offsets as symbols if `globals` is set:
/// [`link_run_with`], over what replaces `out`.
///
/// Nothing is done to `out` before the files have been linked, so it may be one of them. Whatever fails,
/// it is what it was, or the whole load file: unless it is a device or a pipe, or its directory takes no
/// new file. Then it is written in place, once the load file is whole in memory.
///
/// # Errors
///
/// - [`Failure::Opening`] with the first of `files` that cannot be opened, or with `out` if it
///   cannot be created or replaced.
/// - [`Failure::Tool`] with what [`link_run_with`] returns, or out of memory.
/// - [`Failure::Printing`] if `out` did not take everything that was written to it.
pub fn link<'a, S: Store>(
    alloc: Global,
    store: &mut S,
    out: &'a str,
    options: LinkOptions,
    globals: bool,
    files: &[&'a str],
) -> Result<(), Failure<'a>>
    ensures ok { OnOk result (IsMade globals options (S.content store.old)
        (file_names files.entry.now) out.entry.now (S.content store.new)) }
    ensures err { IfErr result (IsLinkFailure globals options (S.content store.old)
        (file_names files.entry.now) out.entry.now) }
    ensures unchanged { OnErr result (AreUnchanged (S.content store.old) (S.content store.new)) }
{
    let mut inputs = open_inputs(alloc, store, files)?;
    let mut new = begin(store, out)?;
    let hasher = store.name_hasher();
    let ran = link_run_with(
        alloc,
        inputs.as_mut_slice(),
        options,
        globals,
        hasher,
        &mut new,
    );
    drop(inputs);
    store.finish(out, new, ran)
}

/// Links as [`link`] does, and then puts the map of the load file in the place of the file named
/// `map_file`, which tells where each of its hunks is from. In the map, the files have these names.
///
/// The map is made of the units of the files, which are kept for it. It is begun once the load file is
/// in its place, where it stays if the map is not written.
///
/// # Errors
///
/// - [`Failure::SameFile`] if `out` and `map_file` are one file, and [`Failure::MapOverFile`] if one of
///   `files` and `map_file` are. Then no file is touched.
/// - Those of [`link`]; then the map is not begun.
/// - [`Failure::Opening`] with `map_file` if it cannot be created or replaced.
/// - [`Failure::Writing`] with `map_file` if it did not take everything that was written to it.
/// - [`Failure::Tool`] with out of memory, also if the map is not begun for it.
pub fn link_with_map<'a, S: Store>(
    alloc: Global,
    store: &mut S,
    out: &'a str,
    map_file: &'a str,
    options: LinkOptions,
    globals: bool,
    files: &[&'a str],
    names: &[String],
) -> Result<(), Failure<'a>>
    ensures ok { OnOk result
        (IsMapped globals options (map string_bytes names.now) (S.content store.old)
        (file_names files.entry.now) out.entry.now map_file.entry.now (S.content store.new)) }
    ensures one { out.entry.now ≡ map_file.entry.now →
        result ≡ Err (Failure.SameFile map_file.entry) }
    ensures err { IfErr result (IsMapFailure globals options (S.content store.old)
        (file_names files.entry.now) out.entry.now map_file.entry.now (S.content store.new)) }
{
    if is_one_file(store, out, map_file)? {
        return Err(Failure::SameFile(map_file));
    }
    if is_among(store, map_file, files)? {
        return Err(Failure::MapOverFile(map_file));
    }
    let (units, linked) = linked_files(alloc, store, options.strip, globals, files)?;
    let file = write_out(alloc, store, out, options, linked)?;
    write_map_file(store, map_file, &units, names, &file)
}

/// Whether the file with this name is one of `files`.
///
/// # Errors
///
/// [`Failure::out_of_memory`] if an allocation failed.
fn is_among<'a, S: Store>(store: &S, name: &str, files: &[&str]) -> Result<bool, Failure<'a>>
    ensures among { result ≡ Ok true → IsKnown (S.content store.now name.now) →
        Contains (file_names files.now) name.now }
    ensures err { IfErr result (λ failure. failure ≡ Failure.Tool (ToolFault.OutOfMemory 0)) }
{
    for file in files {
        if is_one_file(store, name, file)? {
            return Ok(true);
        }
    }
    Ok(false)
}

/// The load file of the object files named `files`. With `strip`, symbols and debug blocks are left
/// out, and with `globals`, definitions stay as symbols.
pub(crate) fn linked<'a, S: Store>(
    alloc: Global,
    store: &S,
    strip: bool,
    globals: bool,
    files: &[&'a str],
) -> Result<LoadFile, Failure<'a>>
    ensures ok { IfOk result
        (λ file. DoLinkTo globals strip (S.content store.now) (file_names files.entry.now) file) }
    ensures short { IfOk result (λ file. IsShortEnough file) }
    ensures err { IfErr result
        (AreUnlinked globals strip (S.content store.now) (file_names files.entry.now)) }
{
    let mut inputs = open_inputs(alloc, store, files)?;
    let hasher = store.name_hasher();
    Ok(link_inputs(alloc, inputs.as_mut_slice(), strip, globals, hasher)?)
}

/// The same load file, with the units of the object files as they are linked.
fn linked_files<'a, S: Store>(
    alloc: Global,
    store: &S,
    strip: bool,
    globals: bool,
    files: &[&'a str],
) -> Result<(ObjectFiles, LoadFile), Failure<'a>>
    ensures ok { IfOk result (λ linked. DoLinkFiles globals strip (S.content store.now)
        (file_names files.entry.now) linked.0 linked.1) }
    ensures short { IfOk result (λ linked. IsShortEnough linked.1) }
    ensures matched { IfOk result (λ linked. length (origins linked.0) ≡ length linked.1) }
    ensures err { IfErr result
        (AreUnlinked globals strip (S.content store.now) (file_names files.entry.now)) }
{
    let mut inputs = open_inputs(alloc, store, files)?;
    let hasher = store.name_hasher();
    Ok(link_files(alloc, inputs.as_mut_slice(), strip, globals, hasher)?)
}

/// Puts a load file in the place of the file named `out`, as `options` say, and returns it as it was
/// written.
fn write_out<'a, S: Store>(
    alloc: Global,
    store: &mut S,
    out: &'a str,
    options: LinkOptions,
    linked: LoadFile,
) -> Result<LoadFile, Failure<'a>>
    ensures ok { IfOk result
        (IsWrittenOut options linked out.entry.now (S.content store.old) (S.content store.new)) }
    ensures err { IfErr result (IsUnwritten (S.content store.old out.entry.now) out.entry.now) }
    ensures unchanged { OnErr result (AreUnchanged (S.content store.old) (S.content store.new)) }
{
    let file = options.trimmed(linked);
    let mut new = begin(store, out)?;
    let written = write_load_with(alloc, &file, options.form(), &mut new);
    store.finish(out, new, as_run(written))?;
    Ok(file)
}

/// Puts the map of a load file in the place of the file named `map_file`.
fn write_map_file<'a, S: Store>(
    store: &mut S,
    map_file: &'a str,
    units: &ObjectFiles,
    names: &[String],
    file: &LoadFile,
) -> Result<(), Failure<'a>>
    requires { length (origins units.now) ≡ length file.now }
    ensures ok { OnOk result (HasMap (map string_bytes names.now) file.now units.now
        map_file.entry.now (S.content store.old) (S.content store.new)) }
    ensures err { IfErr result
        (IsUnmapped (S.content store.old map_file.entry.now) map_file.entry.now) }
    ensures unchanged { OnErr result (AreUnchanged (S.content store.old) (S.content store.new)) }
{
    let mut new = begin(store, map_file)?;
    let written = write_map_to(units, names, file, &mut new);
    match store.finish(map_file, new, as_run(written)) {
        Ok(()) => Ok(()),
        Err(failure) => Err(map_failure(map_file, failure)),
    }
}

/// Why a map is not in its place, if what it was written to tells this failure: a failed write names MAP.
fn map_failure<'a>(map_file: &'a str, failure: Failure<'a>) -> Failure<'a>
    ensures { result ≡ map_failure map_file.entry failure.entry }
{
    match failure {
        Failure::Printing | Failure::Tool(ToolFault::Output { .. }) => Failure::Writing(map_file),
        failure => failure,
    }
}

/// Writes the map of a load file that [`link_files`] linked. In the map, the files have these names.
///
/// # Errors
///
/// [`WriteFault::Device`] if a write failed or took no byte.
pub fn write_map_to<W: Sink>(
    units: &ObjectFiles,
    names: &[String],
    file: &LoadFile,
    writer: &mut W,
) -> Result<(), WriteFault>
    requires { length (origins units.now) ≡ length file.now }
    ensures { WroteText W.taken W.failed writer.old writer.new
        (map_text (map string_bytes names.now) file.now units.now) result }
{
    let mut text = Text::new(writer);
    write_map(&mut text, units, names, file);
    text.finish()
}

/// What a write returned, as a run returns it.
fn as_run(written: Result<(), WriteFault>) -> Result<(), ToolFault>
    ensures { result ≡ run_of written }
{
    Ok(written?)
}
