//! Copies of a load file: without what only debuggers read, trimmed, in another form, or in its normal
//! form.

ghost use Rattle.std.specs.Prelude.{◌≡◌, ◌<◌, ◌≤◌, IsTrue, IfOk, OnOk, IfErr};
ghost use Rattle.hunk_base.specs.Streams.{HasRead};
ghost use Rattle.hunk_link.specs.declared.refusal.LinkRefusal.{LinkRefusal};
ghost use Rattle.hunk_loadfile.specs.Rules.{carried_longwords, most_carried};
ghost use Rattle.hunk_tool.specs.Copy.{copied, form_of_copy, stripped_if, IsCopied, IsCopyFault};
ghost use Rattle.hunk_tool.specs.Load.{ends_of};

use crate::link_options::LinkOptions;
use crate::tool_fault::ToolFault;
use hunk_link::LinkRefusal;
use hunk_loadfile::{LoadFile, LoadForm, read_load, write_load_with};
use hunk_words::{Sink, Source};
use std::alloc::Allocator;

/// What a copy of a load file is to be.
#[derive(Clone, Copy, Debug, PartialEq, Eq)]
pub enum CopyForm {
    /// The load file as these options say: without symbols and debug blocks, trimmed, in its short form,
    /// or none of these.
    Written(LinkOptions),
    /// Its normal form ([`LoadFile::normal_form`]), in its plain form ([`LoadForm::Plain`]). It depends on
    /// nothing but what the file means.
    Normal,
}

impl CopyForm {
    /// The form in which the copy is written.
    pub fn form(self) -> LoadForm
        ensures { result ≡ form_of_copy self }
    {
        match self {
            CopyForm::Written(options) => options.form(),
            CopyForm::Normal => LoadForm::Plain,
        }
    }

    /// The copy of the load file. It does not allocate.
    pub fn copied<A: Allocator + Copy>(self, file: LoadFile<A>) -> LoadFile<A>
        ensures { result ≡ copied self file }
    {
        match self {
            CopyForm::Written(options) => options.trimmed(stripped_if(options.strip, file)),
            CopyForm::Normal => file.normal_form(),
        }
    }
}

/// The load file, stripped if that was asked for.
fn stripped_if<A: Allocator + Copy>(strip: bool, file: LoadFile<A>) -> LoadFile<A>
    ensures { result ≡ stripped_if strip file }
{
    if strip { file.stripped() } else { file }
}

/// Reads a load file to the reader's end, and writes its copy in this form.
///
/// It keeps the file. Nothing is written before the whole file has been read. It does not flush.
///
/// # Errors
///
/// - [`ToolFault::Input`] with the place and the reason of the first offence of what was read, as
///   [`read_load`] answers it; where the file ends too early, at the reader's end.
/// - [`ToolFault::InputDevice`] where a read failed.
/// - [`ToolFault::Link`] with [`LinkRefusal::TooLarge`] if the symbols and debug blocks of the copy take
///   more than 2^27 longwords, which linking refuses as well. A file that is read may have up to 2^28,
///   and a copy of it might be longer than a file may be.
/// - [`ToolFault::Output`] if a write failed or took no byte, with the number of bytes of the copy that
///   were written.
/// - [`ToolFault::OutOfMemory`] if an allocation failed, with the number of bytes written.
pub fn copy_run<A: Allocator + Copy, R: Source, W: Sink>(
    alloc: A,
    reader: &mut R,
    form: CopyForm,
    writer: &mut W,
) -> Result<(), ToolFault<A>>
    ensures ok { OnOk result (HasRead (R.left reader.old) (R.left reader.new)
        (IsCopied form (W.taken writer.old) (W.taken writer.new))) }
    ensures ended { OnOk result (IsTrue (R.ended reader.new)) }
    ensures err { IfErr result (IsCopyFault form (ends_of
        (R.left reader.old) (R.left reader.new) (R.failed reader.new) (R.ended reader.new)
        (W.taken writer.old) (W.taken writer.new) (W.failed writer.new))) }
{
    let file = read_load(alloc, reader)?;
    let copy = fitting(form.copied(file))?;
    Ok(write_load_with(alloc, &copy, form.form(), writer)?)
}

/// The load file, if it breaks no rule for hunks that are passed in: of those that are read, only files
/// with too many symbols and debug blocks do.
///
/// # Errors
///
/// [`LinkRefusal::TooLarge`].
fn fitting<A: Allocator + Copy>(file: LoadFile<A>) -> Result<LoadFile<A>, LinkRefusal<A>>
    ensures fits { IfOk result
        (λ fitting. (fitting ≡ file) × (carried_longwords file ≤ most_carried)) }
    ensures refused { IfErr result
        (λ refusal. (refusal ≡ LinkRefusal.TooLarge) × (most_carried < carried_longwords file)) }
{
    match LoadFile::new(file.into_hunks()) {
        Ok(file) => Ok(file),
        Err(_) => Err(LinkRefusal::TooLarge),
    }
}
