//! The forms in which an image is written.

/// The form in which an image is written. Either has the bytes of every hunk at their addresses,
/// hunk by hunk.
#[derive(Clone, Copy, Debug, PartialEq, Eq)]
pub enum ImageForm {
    /// A report: for each hunk a line with its number, its base and its size, and its bytes in
    /// lines of up to 16.
    Report,
    /// Motorola S-records: a header, which holds the text `amihunk`; the bytes in records of up to
    /// 32, with 32-bit addresses; and an end. They do not tell where a hunk begins.
    SRecords,
}
