//! Laws about the definitions of loading, each a function without a body.

ghost use Rattle.hunk_loader.specs.Laws.{HunkIsLoaded, NormalHasSizes, NormalIsLoaded, NothingElseIsLoaded, PlacedOrRefused, SameMemoryTellsHunks, StrippedHasSizes, StrippedIsLoaded, TrimmedHasSizes, TrimmedIsLoaded};

/// The memory of a load file whose hunks are placed: each byte of each hunk at its address, and
/// nothing else.
pub fn memory_is_loaded()
    ensures bytes { HunkIsLoaded }
    ensures nothing_else { NothingElseIsLoaded }
{}

/// A trimmed load file is the same in memory: each byte, and where its hunks can be placed. See
/// [`LoadFile::trimmed`](hunk_loadfile::LoadFile::trimmed).
pub fn trimmed_is_loaded()
    ensures memory { TrimmedIsLoaded }
    ensures sizes { TrimmedHasSizes }
{}

/// So is a stripped one. See [`LoadFile::stripped`](hunk_loadfile::LoadFile::stripped).
pub fn stripped_is_loaded()
    ensures memory { StrippedIsLoaded }
    ensures sizes { StrippedHasSizes }
{}

/// So is one in normal form. See [`LoadFile::normal_form`](hunk_loadfile::LoadFile::normal_form).
pub fn normal_form_is_loaded()
    ensures memory { NormalIsLoaded }
    ensures sizes { NormalHasSizes }
{}

/// Two load files whose hunks have the same sizes load to the same memory, wherever their hunks are
/// placed, exactly if the hunks have the same bytes and the same sites before that.
pub fn memory_tells_bytes_and_sites()
    ensures { SameMemoryTellsHunks }
{}

/// Hunks are placed at addresses, or there is a first fault, as
/// [`check_places`](crate::check_places) returns it.
pub fn hunks_are_placed_or_refused()
    ensures { PlacedOrRefused }
{}
