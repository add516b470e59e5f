//! Laws about object files, each a function without a body.
ghost use Rattle.hunk_objects.specs.Laws.{OneObject, WholeIsPartial};

/// Decoding is unambiguous: a list of longwords is the object file of one list of units at most.
pub fn longwords_tell_units()
    ensures { OneObject }
{}

/// After the events of a whole object file the units so far are those of the file.
pub fn events_tell_units()
    ensures { WholeIsPartial }
{}
