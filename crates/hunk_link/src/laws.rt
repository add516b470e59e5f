//! Laws about linking, each a function without a body.
ghost use Rattle.hunk_link.specs.Laws.{CarriedIsAccepted, LinkableOrRefused, RankIsPlace, SizesAreCarried, TargetsAreRanks};

/// The rank of a hunk is its place in the order of linking.
pub fn rank_is_place()
    ensures { RankIsPlace }
{}

/// The hunks of the load file have the sizes of the units' hunks, by rank.
pub fn sizes_are_carried()
    ensures { SizesAreCarried }
{}

/// Each site of the load file names the rank of a hunk.
pub fn targets_are_ranks()
    ensures { TargetsAreRanks }
{}

/// The load file breaks no rule of [`LoadFile::new`](hunk_loadfile::LoadFile::new), so that its
/// written form has at most 2^28 longwords.
pub fn carried_is_accepted()
    ensures { CarriedIsAccepted }
{}

/// Units that link are refused only if memory runs out.
pub fn linkable_or_refused<A>()
    ensures { LinkableOrRefused A }
{}
