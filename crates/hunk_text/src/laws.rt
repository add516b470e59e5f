//! Laws about the sizes of listings and of lines that tell a difference, each a function without a body.

ghost use Rattle.hunk_text.specs.Laws.{DifferenceFits, InfoDifferenceFits, LoadListingFits, ObjectListingFits};

/// The listing of an object file or of a load file has fewer than 2^64 bytes.
pub fn listings_fit()
    ensures object { ObjectListingFits }
    ensures load { LoadListingFits }
{}

/// The line that tells where two load files first differ has fewer than 2^64 bytes.
pub fn difference_lines_fit()
    ensures meaning { DifferenceFits }
    ensures info { InfoDifferenceFits }
{}
