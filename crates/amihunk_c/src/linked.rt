//! Object files that are linked: the bytes of their load file, and what is kept of them.
ghost use Rattle.std.specs.Prelude.{◌≡◌, ℕ, List, length, map, true, false, IfOk, IfErr, OnErr};
ghost use Rattle.hunk_base.specs.Name.{bytes_of};
ghost use Rattle.hunk_loadfile.specs.LoadFile.{IsLoadOf};
ghost use Rattle.hunk_loadfile.specs.WrittenForm.{IsShortEnough, written_in};
ghost use Rattle.hunk_tool.specs.LinkOptions.{form_of, trimmed_if};
ghost use Rattle.hunk_origins.specs.Map.{map_text};
ghost use Rattle.amihunk_c.specs.Linked.{IsLinkedFile};
ghost use Rattle.amihunk_c.specs.Linkers.{AreTaken, IsLinkStop, IsUndefined, TellsUndefined};

use crate::refused::Refused;
use hunk_link::{LinkRefusal, NameHasher, link_units_with, link_with};
use hunk_loadfile::{LoadFile, written_bytes};
use hunk_origins::{UndefinedName, undefined_names, write_map};
use hunk_tool::{LinkOptions, ObjectFiles};
use hunk_words::{Text, Watched};
use std::alloc::{AllocError, Global};
use std::marker::Model;

/// Object files that are linked.
#[derive(Drop)]
pub struct LinkedFile {
    /// The bytes of the load file.
    pub(crate) bytes: Vec<u8>,
    /// What is kept of the link.
    pub(crate) kept: Option<Kept>,
}

/// What is kept of a link: the units, and the load file as it is written.
#[derive(Drop)]
pub struct Kept {
    files: ObjectFiles,
    file: LoadFile,
}

impl Model for Kept {
    ghost use Rattle.std.specs.Prelude.{◌≡◌, List, length};
    ghost use Rattle.hunk_loadfile.specs.LoadHunk.{FileHunk};
    ghost use Rattle.hunk_tool.specs.ObjectFiles.{FileUnit};
    ghost use Rattle.hunk_origins.specs.Origins.{origins};

    ghost Value = { List FileUnit × List FileHunk };

    ghost view = { λ k. (k.files, k.file) };

    // Each hunk of the load file is from one of the units.
    ghost invariant = { λ k. length (origins k.files) ≡ length k.file };
}

impl Kept {
    /// The text of the map, if the object files have these names.
    pub(crate) fn map(&self, alloc: Global, names: &[&[u8]]) -> Result<Vec<u8>, AllocError>
        ensures { IfOk result (λ text. text.items ≡ map_text
            (map (λ name. name.now) names.now) self.now.1 self.now.0) }
    {
        let mut writer = Watched::new(Vec::new(alloc));
        let mut text = Text::new(&mut writer);
        write_map(&mut text, &self.files, names, &self.file);
        match text.finish() {
            Ok(()) => Ok(writer.into_inner()),
            Err(_) => Err(AllocError),
        }
    }
}

/// Links the units of object files, which are gone after it. For each file, `ends` has the number of
/// units up to its end.
pub(crate) fn link_and_drop(
    alloc: Global,
    files: ObjectFiles,
    ends: &[usize],
    options: LinkOptions,
    hasher: NameHasher,
) -> Result<LinkedFile, Refused>
    ensures linked { IfOk result (λ linked. (inputs : List (List ℕ)) → AreTaken inputs files
        ends.now → IsLinkedFile (record { link = options; keep = false }) inputs linked) }
    ensures refused { IfErr result
        (λ refused. (inputs : List (List ℕ)) → AreTaken inputs files ends.now →
        IsLinkStop (record { link = options; keep = false }) inputs refused refused.fault) }
{
    match link_units_with(alloc, files.into_units(), options.strip, hasher) {
        Ok(linked) => match written(alloc, linked, options) {
            Ok((_, bytes)) => Ok(LinkedFile { bytes, kept: None }),
            Err(_) => Err(Refused::memory()),
        },
        Err(refusal) => Err(Refused::link(refusal, ends)),
    }
}

/// Links the units of object files, and keeps them. For each file, `ends` has the number of units up
/// to its end.
pub(crate) fn link_and_keep(
    alloc: Global,
    files: ObjectFiles,
    ends: &[usize],
    options: LinkOptions,
    hasher: NameHasher,
) -> Result<LinkedFile, Refused>
    ensures linked { IfOk result (λ linked. (inputs : List (List ℕ)) → AreTaken inputs files
        ends.now → IsLinkedFile (record { link = options; keep = true }) inputs linked) }
    ensures refused { IfErr result
        (λ refused. (inputs : List (List ℕ)) → AreTaken inputs files ends.now →
        IsLinkStop (record { link = options; keep = true }) inputs refused refused.fault) }
{
    match link_with(alloc, files.units(), options.strip, hasher) {
        Ok(linked) => match written(alloc, linked, options) {
            Ok((file, bytes)) => Ok(LinkedFile {
                bytes,
                kept: Some(Kept { files, file }),
            }),
            Err(_) => Err(Refused::memory()),
        },
        Err(refusal) => match undefined_of(alloc, &refusal, &files, hasher) {
            Ok(undefined) => Err(Refused::link(refusal, ends).with_undefined(undefined)),
            Err(_) => Err(Refused::memory()),
        },
    }
}

/// All names that no hunk defines, if that is why the units do not link.
fn undefined_of(
    alloc: Global,
    refusal: &LinkRefusal,
    files: &ObjectFiles,
    hasher: NameHasher,
) -> Result<Option<Vec<UndefinedName>>, AllocError>
    ensures told { IfOk result (λ told. TellsUndefined files.now refusal.now told) }
    ensures failed { OnErr result (IsUndefined refusal.now) }
{
    match refusal {
        LinkRefusal::UndefinedName { .. } => Ok(Some(undefined_names(alloc, files, hasher)?)),
        _ => Ok(None),
    }
}

/// The load file, trimmed if the options say so, and its bytes in the form that they choose.
fn written(
    alloc: Global,
    linked: LoadFile,
    options: LinkOptions,
) -> Result<(LoadFile, Vec<u8>), AllocError>
    requires { IsShortEnough linked }
    ensures file { IfOk result (λ written. written.0 ≡ trimmed_if options.trim linked) }
    ensures bytes { IfOk result (λ written. written.1.items ≡ bytes_of
        (written_in (form_of options) (trimmed_if options.trim linked))) }
    ensures load { IfOk result (λ written. IsLoadOf (trimmed_if options.trim linked)
        (bytes_of (written_in (form_of options) (trimmed_if options.trim linked)))) }
{
    let file = options.trimmed(linked);
    let bytes = written_bytes(alloc, &file, options.form())?;
    Ok((file, bytes))
}
