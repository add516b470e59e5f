//! A law about where hunks are from, a function without a body.

ghost use Rattle.hunk_origins.specs.Laws.{HunksAreOfOrigins};

/// The hunks of a load file have the kinds, the memories and the sizes of the hunks that they are
/// from, so that a line of a map that tells of one tells of the other too.
pub fn hunks_are_of_origins()
    ensures { HunksAreOfOrigins }
{}
