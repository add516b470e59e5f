//! What the flags of a subcommand choose together.
ghost use Rattle.std.specs.Prelude.{◌≡◌, MatchResult, None, Some};
ghost use Rattle.clap.specs.declared.error.ErrorKind.TheVariants.{ArgumentConflict};
ghost use Rattle.amihunk.specs.CommandLine.{conflict_kind, copy_form_by, list_by, show_text_by, shown_by, text_by};
ghost use Rattle.hunk_store.specs.FileList.{given_list};
ghost use Rattle.hunk_commands.specs.Request.{given_text};

use crate::conflict::Conflict;
use hunk_commands::{FileList, LoadText, NameEnd, ShowText};
use hunk_tool::{CopyForm, ImageForm, LinkOptions, SymbolForm};

/// What is printed of a load file, or of object files, at addresses.
pub fn text_of(srec: bool, symbols: bool) -> LoadText
    ensures { result ≡ text_by srec symbols }
{
    match (srec, symbols) {
        (false, false) => LoadText::Image(ImageForm::Report),
        (true, false) => LoadText::Image(ImageForm::SRecords),
        (false, true) => LoadText::Symbols(SymbolForm::Lines),
        (true, true) => LoadText::Symbols(SymbolForm::Records),
    }
}

/// What is asked of `show`.
pub enum Shown {
    /// A text about one file.
    Text(ShowText),
    /// The names in files.
    Names,
}

/// What is asked of `show`: the names go with no other flag.
pub fn shown_of(
    names: bool,
    json: bool,
    content: bool,
    html: bool,
    explain: bool,
) -> Result<Shown, Conflict>
    ensures { MatchResult result
        (λ shown. shown_by names json content html explain ≡ Some shown)
        (λ _. shown_by names json content html explain ≡ None) }
{
    match (names, json, content, html, explain) {
        (false, ..) => Ok(Shown::Text(show_text_of(json, content, html)?)),
        (true, true, ..) => Err(Conflict::NamesAndJson),
        (true, _, true, ..) => Err(Conflict::NamesAndContent),
        (true, _, _, true, _) => Err(Conflict::NamesAndHtml),
        (true, .., true) => Err(Conflict::NamesAndExplain),
        (true, false, false, false, false) => Ok(Shown::Names),
    }
}

/// What is shown of a file: the contents go with the document alone, and the page with neither.
pub fn show_text_of(json: bool, content: bool, html: bool) -> Result<ShowText, Conflict>
    ensures { MatchResult result
        (λ text. show_text_by json content html ≡ Some text)
        (λ _. show_text_by json content html ≡ None) }
{
    match (json, content, html) {
        (false, false, false) => Ok(ShowText::Listing),
        (true, false, false) => Ok(ShowText::Json),
        (true, true, false) => Ok(ShowText::JsonWithContent),
        (false, false, true) => Ok(ShowText::Page),
        (true, _, true) => Err(Conflict::JsonAndHtml),
        (false, true, true) => Err(Conflict::ContentAndHtml),
        (false, true, false) => Err(Conflict::ContentAlone),
    }
}

/// The list of files that is asked for: the file that `--files-from` names, with names that end as `--lines`
/// says, which goes with it. Without a list there has to be a FILE, and `has_files` says whether there is.
pub fn list_of<'a>(
    file: Option<&'a str>,
    lines: bool,
    has_files: bool,
) -> Result<Option<FileList<'a>>, Conflict>
    ensures { MatchResult result
        (λ list. list_by (given_text file.entry) lines has_files ≡ Some (given_list list))
        (λ _. list_by (given_text file.entry) lines has_files ≡ None) }
{
    match (file, lines, has_files) {
        (Some(file), true, _) => {
            let end = NameEnd::Line;
            Ok(Some(FileList { file, end }))
        }
        (Some(file), false, _) => {
            let end = NameEnd::Zero;
            Ok(Some(FileList { file, end }))
        }
        (None, true, _) => Err(Conflict::LinesAlone),
        (None, false, false) => Err(Conflict::NoFiles),
        (None, false, true) => Ok(None),
    }
}

/// What is asked of a copy: its normal form goes with no other flag.
pub fn copy_form(normal: bool, options: LinkOptions, explain: bool) -> Result<CopyForm, Conflict>
    ensures { MatchResult result (λ form. copy_form_by normal options explain ≡ Some form)
        (λ conflict. (copy_form_by normal options explain ≡ None) ×
        (conflict_kind conflict ≡ ArgumentConflict)) }
{
    match (normal, options, explain) {
        (false, options, _) => Ok(CopyForm::Written(options)),
        (true, LinkOptions { strip: true, .. }, _) => Err(Conflict::NormalAndStrip),
        (true, LinkOptions { short: true, .. }, _) => Err(Conflict::NormalAndShort),
        (true, LinkOptions { trim: true, .. }, _) => Err(Conflict::NormalAndTrim),
        (true, _, true) => Err(Conflict::NormalAndExplain),
        (true, _, false) => Ok(CopyForm::Normal),
    }
}
