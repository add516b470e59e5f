//! What is told of a failure after its line, if `--explain` is given: the files are read once more for
//! it.
ghost use Rattle.std.specs.Prelude.{◌≡◌, [], true, IfErr, IfOk, IfSome, IsTrue, get_or, false};
ghost use Rattle.hunk_base.specs.Streams.{HasRead};
ghost use Rattle.hunk_files.specs.Explanation.{IsEnd, IsExplained, IsUnexplained};
ghost use Rattle.hunk_addresses.specs.PlacesText.{places_text};
ghost use Rattle.hunk_tool.specs.Inputs.{file_names};
ghost use Rattle.hunk_store.specs.Addresses.{source_of};
ghost use Rattle.hunk_store.specs.Failure.{TellsLine};
ghost use Rattle.hunk_commands.specs.Again.{AreNoUnitsAgain, IsGiven, IsNotExplained, IsNotLinkedAgain, IsNotLoadedAgain, IsNotPlacedAgain};
ghost use Rattle.hunk_commands.specs.Explain.{AreLinesOf, AreOffenceLines, ArePlaceLines, ArePlaceLinesOf, AreRefusalLines, AreRefusalLinesOf, AreToldThen, IsDirectoryOrNone, IsLoadFile, IsReason, TellsMore, TellsUnless, kind_read, sizes_of};
ghost use Rattle.hunk_commands.specs.Link.{DoLinkTo};
ghost use Rattle.hunk_commands.specs.Unexplained.{unexplained_line};

use crate::again::{addresses_again, linked_again, open_again, units_again};
use crate::file_names::names_of;
use crate::reason::write_reason_line;
use crate::unexplained::{Unexplained, write_unexplained_line};
use hunk_link::LinkRefusal;
use hunk_loadfile::{LoadHunk, read_load};
use hunk_origins::{explain_link, write_link_explanation};
use hunk_store::{Addresses, Failure, Store};
use hunk_tool::{
    Explanation, FileType, OpenFault, ToolFault, explain_file, explain_load, explain_object,
    write_explanation, write_places,
};
use hunk_words::{Fault, ReadFault, Sink, Source, Text};
use std::alloc::Global;

/// A command whose failures are explained.
#[derive(Clone, Copy, Debug, PartialEq, Eq)]
pub enum Command<'a> {
    /// `link`, which reads object files.
    Link,
    /// `image`, which reads object files, and places the hunks of their load file at these addresses.
    Image(Addresses<'a>),
    /// `load`, which reads a load file, and places its hunks at these addresses.
    Load(Addresses<'a>),
    /// `copy`, which reads a load file.
    LoadFile,
    /// `check` or `show`, which read a file of either kind.
    Text,
}

/// Tells more of a failure of this command for the files named `files`: of a file that is refused, the
/// lines of [`write_explanation`]; of units that do not link, those of [`write_link_explanation`]; of
/// hunks that cannot be placed, those of [`write_places`]; and of a file that cannot be opened, or is a
/// directory and so cannot be read, a line with the reason. Of any other failure it tells nothing, and
/// nothing of any if a write to `errors` has failed before.
///
/// Files that are refused, do not link or cannot be placed are read once more for it. If that is not
/// possible, since one of them is no regular file or memory runs out, or if they do not fail so by now, one line
/// tells it instead.
pub fn explain_failure<S: Store, W: Sink>(
    alloc: Global,
    store: &S,
    errors: &mut W,
    command: Command<'_>,
    files: &[&str],
    failure: &Failure<'_>,
)
    ensures told { TellsMore W.taken W.failed errors.old errors.new
        (AreLinesOf (S.content store.now) command.entry (file_names files.now) failure.now) }
    ensures silent { IsTrue (W.failed errors.old) → errors.new ≡ errors.old }
{
    if errors.failed() {
        return;
    }
    match failure {
        Failure::Tool(fault) => explain_fault(alloc, store, errors, command, files, fault),
        Failure::Reading(name) => explain_unread(store, errors, name),
        Failure::Opening(_, reason) => tell_reason(errors, *reason),
        Failure::BadNumber { .. } => {}
        Failure::TooManyAddresses(_) => {}
        Failure::TooLong(_) => {}
        Failure::BadName { .. } => {}
        Failure::Writing(_) => {}
        Failure::SameFile(_) => {}
        Failure::MapOverFile(_) => {}
        Failure::Printing => {}
    }
}

/// Tells more of what `hunk_tool` returned to this command for the files named `files`.
fn explain_fault<S: Store, W: Sink>(
    alloc: Global,
    store: &S,
    errors: &mut W,
    command: Command<'_>,
    files: &[&str],
    fault: &ToolFault,
)
    ensures { TellsMore W.taken W.failed errors.old errors.new (AreLinesOf
        (S.content store.now) command.entry (file_names files.now) (Failure.Tool fault.now)) }
{
    match fault {
        ToolFault::Input { file, fault } => {
            let name = name_at(files, *file);
            let told = explain_offence(alloc, store, errors, command, name, *fault);
            tell_unexplained(errors, told);
        }
        ToolFault::Link(refusal) => explain_units(alloc, store, errors, command, files, refusal),
        ToolFault::Place(_) => explain_places(alloc, store, errors, command, files),
        ToolFault::InputDevice { file } => explain_unread(store, errors, name_at(files, *file)),
        ToolFault::Output { .. } => {}
        ToolFault::OutOfMemory { .. } => {}
    }
}

/// The name of the file with this number; an empty one if there is no such file.
fn name_at<'a>(files: &[&'a str], number: usize) -> &'a str
    ensures { result.now ≡ get_or (file_names files.now) number [] }
{
    match files.get(number) {
        Some(name) => name,
        None => "",
    }
}

/// Tells that the file named `name`, of which a read failed, is a directory, if it is one.
fn explain_unread<S: Store, W: Sink>(store: &S, errors: &mut W, name: &str)
    ensures { TellsMore W.taken W.failed errors.old errors.new IsDirectoryOrNone }
{
    if matches!(store.file_type(name), FileType::Directory) {
        tell_reason(errors, OpenFault::Directory);
    }
}

/// Tells why a file cannot be opened or read.
fn tell_reason<W: Sink>(errors: &mut W, reason: OpenFault)
    ensures { TellsMore W.taken W.failed errors.old errors.new (IsReason reason) }
{
    let mut text = Text::new(errors);
    write_reason_line(&mut text, reason);
    let _ = text.finish();
}

/// Tells why nothing was told, if there is a reason for it.
fn tell_unexplained<W: Sink>(errors: &mut W, told: Result<(), Unexplained>)
    ensures { AreToldThen W.taken W.failed errors.old errors.new told }
{
    if let Err(why) = told {
        tell_why(errors, why);
    }
}

/// Tells why a failure is not explained.
fn tell_why<W: Sink>(errors: &mut W, why: Unexplained)
    ensures { TellsLine W.taken W.failed errors.old errors.new (unexplained_line why) }
{
    let mut text = Text::new(errors);
    write_unexplained_line(&mut text, why);
    let _ = text.finish();
}

/// Tells of the offence `fault` of the file named `name`.
fn explain_offence<S: Store, W: Sink>(
    alloc: Global,
    store: &S,
    errors: &mut W,
    command: Command<'_>,
    name: &str,
    fault: Fault,
) -> Result<(), Unexplained>
    ensures { TellsUnless W.taken W.failed errors.old errors.new
        (AreOffenceLines (S.content store.now name.now) (kind_read command.entry) fault)
        (IsNotExplained (S.content store.now name.now) (kind_read command.entry) fault) result }
{
    let mut reader = open_again(store, name)?;
    let Some(explanation) = explanation_of(alloc, command, fault, &mut reader)? else {
        return Err(Unexplained::Changed);
    };
    let mut text = Text::new(errors);
    write_explanation(&mut text, &explanation);
    let _ = text.finish();
    Ok(())
}

/// Reads a file as this command does, to its first offence, and returns what is there if that is
/// `fault`; otherwise `None`.
///
/// # Errors
///
/// - [`ReadFault::Refused`] with out of memory, only if an allocation failed.
/// - [`ReadFault::Device`] only if a read failed.
pub fn explanation_of<R: Source>(
    alloc: Global,
    command: Command<'_>,
    fault: Fault,
    reader: &mut R,
) -> Result<Option<Explanation>, ReadFault>
    ensures given { IfOk result (λ given. HasRead (R.left reader.old) (R.left reader.new)
        (IsGiven (kind_read command.entry) fault given)) }
    ensures ended { IfOk result
        (λ given. IfSome given (λ e. IsEnd e.found → IsTrue (R.ended reader.new))) }
    ensures stopped { IfErr result (IsUnexplained (R.failed reader.new)) }
{
    let Some(explanation) = explain(alloc, command, reader)? else {
        return Ok(None);
    };
    if explanation.fault() == fault {
        Ok(Some(explanation))
    } else {
        Ok(None)
    }
}

/// Reads a file as this command does, to its first offence, and returns what is there; `None` if it has
/// none.
fn explain<R: Source>(
    alloc: Global,
    command: Command<'_>,
    reader: &mut R,
) -> Result<Option<Explanation>, ReadFault>
    ensures explained { IfOk result (λ given. HasRead (R.left reader.old) (R.left reader.new)
        (λ bytes. IsExplained (kind_read command.entry bytes) given bytes)) }
    ensures ended { IfOk result
        (λ given. IfSome given (λ e. IsEnd e.found → IsTrue (R.ended reader.new))) }
    ensures stopped { IfErr result (IsUnexplained (R.failed reader.new)) }
{
    match command {
        Command::Link | Command::Image(_) => explain_object(alloc, reader),
        Command::Load(_) | Command::LoadFile => explain_load(alloc, reader),
        Command::Text => explain_file(alloc, reader),
    }
}

/// Tells of a refusal to link, if this command reads object files. A load file that is too large to be
/// written again has no units to tell of.
fn explain_units<S: Store, W: Sink>(
    alloc: Global,
    store: &S,
    errors: &mut W,
    command: Command<'_>,
    files: &[&str],
    refusal: &LinkRefusal,
)
    ensures { TellsMore W.taken W.failed errors.old errors.new
        (AreRefusalLinesOf (S.content store.now) command.entry (file_names files.now) refusal.now) }
{
    match command {
        Command::Link | Command::Image(_) => {
            let told = explain_refusal(alloc, store, errors, files, refusal);
            tell_unexplained(errors, told);
        }
        Command::Load(_) => {}
        Command::LoadFile => {}
        Command::Text => {}
    }
}

/// Tells of a refusal to link the units of the object files named `files`.
fn explain_refusal<S: Store, W: Sink>(
    alloc: Global,
    store: &S,
    errors: &mut W,
    files: &[&str],
    refusal: &LinkRefusal,
) -> Result<(), Unexplained>
    ensures { TellsUnless W.taken W.failed errors.old errors.new
        (AreRefusalLines (S.content store.now) (file_names files.now) refusal.now)
        (AreNoUnitsAgain (S.content store.now) (file_names files.now)) result }
{
    let units = units_again(alloc, store, files)?;
    let names = names_of(alloc, files)?;
    let explanation = explain_link(alloc, &units, refusal, store.name_hasher())?;
    let mut text = Text::new(errors);
    write_link_explanation(&mut text, names.as_slice(), &explanation);
    let _ = text.finish();
    Ok(())
}

/// Tells of hunks that cannot be placed at the addresses of this command, if it has addresses.
fn explain_places<S: Store, W: Sink>(
    alloc: Global,
    store: &S,
    errors: &mut W,
    command: Command<'_>,
    files: &[&str],
)
    ensures { TellsMore W.taken W.failed errors.old errors.new
        (ArePlaceLinesOf (S.content store.now) command.entry (file_names files.now)) }
{
    match command {
        Command::Load(addresses) => {
            let name = name_at(files, 0);
            let told = explain_loaded_places(alloc, store, errors, addresses, name);
            tell_unexplained(errors, told);
        }
        Command::Image(addresses) => {
            let told = explain_linked_places(alloc, store, errors, addresses, files);
            tell_unexplained(errors, told);
        }
        Command::Link => {}
        Command::LoadFile => {}
        Command::Text => {}
    }
}

/// Tells of the hunks of the load file named `name`, beside these addresses.
fn explain_loaded_places<S: Store, W: Sink>(
    alloc: Global,
    store: &S,
    errors: &mut W,
    addresses: Addresses<'_>,
    name: &str,
) -> Result<(), Unexplained>
    ensures { TellsUnless W.taken W.failed errors.old errors.new
        (ArePlaceLines (S.content store.now) (source_of addresses.entry)
        (IsLoadFile (S.content store.now name.now))) (IsNotPlacedAgain (S.content store.now)
        (source_of addresses.entry) (IsNotLoadedAgain (S.content store.now name.now))) result }
{
    let bases = addresses_again(alloc, store, addresses)?;
    let mut reader = open_again(store, name)?;
    let loaded = read_load(alloc, &mut reader)?;
    tell_places(errors, loaded.hunks(), bases.as_slice());
    Ok(())
}

/// Tells of the hunks of the load file of the object files named `files`, beside these addresses.
fn explain_linked_places<S: Store, W: Sink>(
    alloc: Global,
    store: &S,
    errors: &mut W,
    addresses: Addresses<'_>,
    files: &[&str],
) -> Result<(), Unexplained>
    ensures { TellsUnless W.taken W.failed errors.old errors.new
        (ArePlaceLines (S.content store.now) (source_of addresses.entry)
        (DoLinkTo false true (S.content store.now) (file_names files.now)))
        (IsNotPlacedAgain (S.content store.now) (source_of addresses.entry)
        (IsNotLinkedAgain (S.content store.now) (file_names files.now))) result }
{
    let bases = addresses_again(alloc, store, addresses)?;
    let loaded = linked_again(alloc, store, files)?;
    tell_places(errors, loaded.hunks(), bases.as_slice());
    Ok(())
}

/// Tells of these hunks, beside the numbers of these addresses.
fn tell_places<W: Sink>(errors: &mut W, hunks: &[LoadHunk], bases: &[u32])
    ensures { TellsLine W.taken W.failed errors.old errors.new
        (places_text (sizes_of hunks.now) bases.now) }
{
    let mut text = Text::new(errors);
    write_places(&mut text, hunks, bases);
    let _ = text.finish();
}
