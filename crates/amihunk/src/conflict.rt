//! Arguments that a command line may not have together, or not without others.
ghost use Rattle.std.specs.Prelude.{◌≡◌};
ghost use Rattle.amihunk.specs.CommandLine.{conflict_kind};

use clap::error::ErrorKind;

/// Arguments that exclude each other, or of which one is missing.
#[derive(Clone, Copy)]
pub enum Conflict {
    /// `--at` and `--at-file`.
    TwoAddresses,
    /// Neither `--at` nor `--at-file`.
    NoAddresses,
    /// `--normal` and `--strip`.
    NormalAndStrip,
    /// `--normal` and `--short`.
    NormalAndShort,
    /// `--normal` and `--trim`.
    NormalAndTrim,
    /// `--normal` and `--explain`.
    NormalAndExplain,
    /// `--json` and `--html`.
    JsonAndHtml,
    /// `--content` and `--html`.
    ContentAndHtml,
    /// `--content` without `--json`.
    ContentAlone,
    /// `--names` and `--json`.
    NamesAndJson,
    /// `--names` and `--content`.
    NamesAndContent,
    /// `--names` and `--html`.
    NamesAndHtml,
    /// `--names` and `--explain`.
    NamesAndExplain,
    /// Neither a FILE nor `--files-from`.
    NoFiles,
    /// `--lines` without `--files-from`.
    LinesAlone,
    /// `-` for two files to read, or more.
    InputTwice,
}

impl Conflict {
    /// The kind of error with which `clap` rejects such arguments.
    pub fn kind(self) -> ErrorKind
        ensures { result ≡ conflict_kind self }
    {
        match self {
            Conflict::NoAddresses
            | Conflict::ContentAlone
            | Conflict::NoFiles
            | Conflict::LinesAlone => ErrorKind::MissingRequiredArgument,
            Conflict::TwoAddresses
            | Conflict::NormalAndStrip
            | Conflict::NormalAndShort
            | Conflict::NormalAndTrim
            | Conflict::NormalAndExplain
            | Conflict::JsonAndHtml
            | Conflict::ContentAndHtml
            | Conflict::NamesAndJson
            | Conflict::NamesAndContent
            | Conflict::NamesAndHtml
            | Conflict::NamesAndExplain
            | Conflict::InputTwice => ErrorKind::ArgumentConflict,
        }
    }

    /// The words in which `clap` rejects such arguments.
    pub fn text(self) -> &'static str {
        match self {
            Conflict::TwoAddresses => {
                "the argument '--at <LIST>' cannot be used with '--at-file <FILE>'"
            }
            Conflict::NormalAndStrip => { "the argument '--normal' cannot be used with '--strip'" }
            Conflict::NormalAndShort => { "the argument '--normal' cannot be used with '--short'" }
            Conflict::NormalAndTrim => "the argument '--normal' cannot be used with '--trim'",
            Conflict::NormalAndExplain => {
                "the argument '--normal' cannot be used with '--explain'"
            }
            Conflict::JsonAndHtml => "the argument '--json' cannot be used with '--html'",
            Conflict::ContentAndHtml => "the argument '--content' cannot be used with '--html'",
            Conflict::NamesAndJson => "the argument '--names' cannot be used with '--json'",
            Conflict::NamesAndContent => {
                "the argument '--names' cannot be used with '--content'"
            }
            Conflict::NamesAndHtml => "the argument '--names' cannot be used with '--html'",
            Conflict::NamesAndExplain => {
                "the argument '--names' cannot be used with '--explain'"
            }
            Conflict::ContentAlone => {
                "the following required arguments were not provided:\n  --json"
            }
            Conflict::NoFiles => {
                "the following required arguments were not provided:\n  <FILE>..."
            }
            Conflict::LinesAlone => {
                "the following required arguments were not provided:\n  --files-from <LIST>"
            }
            Conflict::InputTwice => "the argument '-' cannot be used multiple times",
            Conflict::NoAddresses => {
                "the following required arguments were not provided:\n  <--at <LIST>|--at-file <FILE>>"
            }
        }
    }
}
