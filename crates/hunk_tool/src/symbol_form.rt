//! The forms in which the symbols of a load file are written.

/// The form in which the symbols of a load file are written, each with its address.
#[derive(Clone, Copy, Debug, PartialEq, Eq)]
pub enum SymbolForm {
    /// A line for each: its address, the number of its hunk, and its name in double quotes.
    Lines,
    /// The form that GNU binutils calls `symbolsrec`: the names and addresses between two lines that
    /// begin with `$$`, and then the image as S-records. A name that such a line cannot hold, since
    /// it is empty or not of visible ASCII characters alone, is left out; where there are any, an
    /// `S0` record tells how many.
    Records,
}
