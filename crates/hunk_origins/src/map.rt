//! The map of a link: where each hunk of the load file is from, and what it defines.

ghost use Rattle.std.specs.Prelude.{◌≡◌, ◌+◌, ◌≤◌, ◌<◌, ◌^◌, length, map, IfOk, IfErr};
ghost use Rattle.hunk_loadfile.specs.WrittenForm.{IsShortEnough};
ghost use Rattle.hunk_tool.specs.Inputs.{HaveRead, inputs_of};
ghost use Rattle.hunk_tool.specs.Link.{IsUnlinked};
ghost use Rattle.hunk_origins.specs.Map.{LinkFiles, map_from, map_line, map_lines, map_text};
ghost use Rattle.hunk_base.specs.Text.{Puts};
ghost use Rattle.hunk_origins.specs.Origins.{origins, unit_origins};

use crate::origin_text::write_origin;
use crate::origins::Origin;
use hunk_link::{NameHasher, link_with};
use hunk_loadfile::{LoadFile, LoadHunk};
use hunk_objects::ProgramUnit;
use hunk_text::{write_definitions, write_hunk_front};
use hunk_tool::{FileName, ObjectFiles, ToolFault, UnitPlace, read_object_files, strips};
use hunk_words::{Sink, Source, Text};
use std::alloc::Allocator;

/// Reads and links as [`link_inputs`](hunk_tool::link_inputs) does, and keeps the units that it linked, for
/// [`write_map`]. The load file has a copy of what they contain. The map of the units that were read is
/// the same, since it tells no symbols.
///
/// # Errors
///
/// As [`link_inputs`](hunk_tool::link_inputs).
pub fn link_files<A: Allocator + Copy, R: Source>(
    alloc: A,
    inputs: &mut [R],
    strip: bool,
    globals: bool,
    hasher: NameHasher,
) -> Result<(ObjectFiles<A>, LoadFile<A>), ToolFault<A>>
    ensures linked { IfOk result
        (λ linked. HaveRead (inputs_of R.left R.failed R.ended inputs.old inputs.new)
        (LinkFiles globals strip linked.0 linked.1)) }
    ensures short { IfOk result (λ linked. IsShortEnough linked.1) }
    ensures matched { IfOk result (λ linked. length (origins linked.0) ≡ length linked.1) }
    ensures unlinked { IfErr result
        (IsUnlinked globals strip (inputs_of R.left R.failed R.ended inputs.old inputs.new)) }
{
    let read = read_object_files(alloc, inputs)?;
    let files = read.linked(alloc, globals, strip, hasher)?;
    let strip = strips(globals, strip);
    let file = link_with(alloc, files.units(), strip, hasher)?;
    Ok((files, file))
}

/// Writes the map of a load file that [`link_files`] linked, before it is trimmed: for each of its
/// hunks, in order, a line of its number, kind, memory and size in longwords, and of the file, the
/// unit and the hunk that it is from; and then a line for each definition of that hunk, in file
/// order. `names` are those of the input files. It does not allocate.
pub fn write_map<N: FileName, A: Allocator + Copy, W: Sink>(
    text: &mut Text<'_, W>,
    files: &ObjectFiles<A>,
    names: &[N],
    file: &LoadFile<A>,
)
    requires { length (origins files.now) ≡ length file.now }
    ensures { Puts W.taken W.failed text.old text.new
        (map_text (map N.bytes names.now) file.now files.now) }
{
    let hunks = file.hunks();
    let places = files.places();
    let mut first = 0;
    for (index, unit) in files.units().iter().enumerate() {
        write_unit(text, &hunks[first..], first, names, places[index], unit);
        first += unit.hunks().len();
    }
}

/// Writes the lines of the hunks of a unit. They are the first of these hunks of the load file, which
/// are numbered from `first`.
fn write_unit<N: FileName, A: Allocator + Copy, W: Sink>(
    text: &mut Text<'_, W>,
    hunks: &[LoadHunk<A>],
    first: usize,
    names: &[N],
    place: UnitPlace,
    unit: &ProgramUnit<A>,
)
    requires counted { first + length hunks.now < 2 ^ 64 }
    requires room { length unit.now.hunks ≤ length hunks.now }
    ensures { Puts W.taken W.failed text.old text.new
        (map_from (map N.bytes names.now) first hunks.now (unit_origins (place, unit.now))) }
{
    for (number, hunk) in unit.hunks().iter().enumerate() {
        let origin = Origin {
            place,
            unit,
            number,
            hunk,
        };
        let rank = (first + number) as u64;
        write_hunk(text, rank, &hunks[number], names, &origin);
    }
}

/// Writes the lines of a hunk of the load file, which has this number.
fn write_hunk<N: FileName, A: Allocator + Copy, W: Sink>(
    text: &mut Text<'_, W>,
    number: u64,
    hunk: &LoadHunk<A>,
    names: &[N],
    origin: &Origin<'_, A>,
)
    ensures { Puts W.taken W.failed text.old text.new
        (map_lines (map N.bytes names.now) (number, (hunk.now, origin.now))) }
{
    write_line(text, number, hunk, names, origin);
    write_definitions(text, origin.hunk.definitions());
}

/// Writes the first line of a hunk of the load file.
fn write_line<N: FileName, A: Allocator + Copy, W: Sink>(
    text: &mut Text<'_, W>,
    number: u64,
    hunk: &LoadHunk<A>,
    names: &[N],
    origin: &Origin<'_, A>,
)
    ensures { Puts W.taken W.failed text.old text.new
        (map_line (map N.bytes names.now) number hunk.now origin.now) }
{
    write_hunk_front(text, number, hunk.kind, hunk.memory, hunk.size);
    text.put(b" ");
    write_origin(text, names, origin);
    text.end_line();
}
