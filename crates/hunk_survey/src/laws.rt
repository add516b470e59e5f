//! Laws about surveys, each a function without a body.

ghost use Rattle.hunk_survey.specs.Laws.{OneDigestIsCollision, RefusedBeginsSo, SameHaveOneDigest};

/// Load files between which [`compare_run`](hunk_tool::compare_run) finds no difference have one digest;
/// and files of one digest that differ in what they mean have normal forms that collide under SHA-256.
pub fn a_digest_tells_the_meaning()
    ensures same { SameHaveOneDigest }
    ensures collision { OneDigestIsCollision }
{}

/// A file that is refused is told as a hunk file exactly if it has a first longword, and that begins a
/// program unit or a load file.
pub fn a_hunk_file_begins_so()
    ensures { RefusedBeginsSo }
{}
