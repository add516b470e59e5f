//! The forms of a JSON document.

/// A form of the JSON document of a file.
#[derive(Clone, Copy, Debug, PartialEq, Eq)]
pub enum JsonForm {
    /// What the listing of the file tells.
    Plain,
    /// Likewise, with the stored bytes of each hunk, and where they stand in the file.
    WithContent,
    /// Likewise, with each less-than sign escaped: so the document can stand in a page, where none
    /// of it is read as a tag.
    InPage,
}
