//! Laws about load files, their written forms, what they mean, trimming and patching, each a function
//! without a body.
ghost use Rattle.hunk_loadfile.specs.Laws.{AcceptedIsShort, OneLoad, OnlyZerosAreTrimmed, PatchedTwice, ShortNumbersFit, TrimmedIsShortest, WholeIsPartial, WrittenIsLoad, WrittenIsShort};
ghost use Rattle.hunk_loadfile.specs.MeaningLaws.{NoDifference, NoInfoDifference, NormalIsShortest, NormalMeansTheSame, NormalOnce, OneNormalForm, StrippedAndTrimmedOnce, StrippedMeansTheSame, StrippedOnce, TrimmedMeansTheSame, TrimmedOnce};

/// Decoding is unambiguous: a list of longwords is the load file of one value at most.
pub fn longwords_tell_load_file()
    ensures { OneLoad }
{}

/// Either written form of a load file is at most 2^28 longwords long if its symbols and debug blocks
/// take at most 2^27, as in every file made by [`LoadFile::new`](crate::LoadFile::new).
pub fn written_is_short()
    ensures { WrittenIsShort }
{}

/// Either written form of hunks that break no rule of [`LoadFile::new`](crate::LoadFile::new) has at
/// most 2^28 longwords, and so it has once they are trimmed.
pub fn accepted_is_short()
    ensures { AcceptedIsShort }
{}

/// Either written form of a load file is read back as that file.
pub fn written_is_read_back()
    ensures { WrittenIsLoad }
{}

/// 16 bits hold every number of a short relocation block.
pub fn short_numbers_fit()
    ensures { ShortNumbersFit }
{}

/// After the events of a whole load file the partial load file is that file.
pub fn events_tell_files()
    ensures { WholeIsPartial }
{}

/// [`LoadFile::trimmed`](crate::LoadFile::trimmed) cuts each content to its shortest beginning, in
/// whole longwords, after which there are only zeros that no site includes.
pub fn trimmed_is_shortest()
    ensures zeros { OnlyZerosAreTrimmed }
    ensures shortest { TrimmedIsShortest }
{}

/// Adding numbers at sites twice, the second time only at some of them, is adding their sums once.
pub fn patched_twice<T, U>()
    ensures { PatchedTwice T U }
{}

/// Stripping, trimming and making the normal form change nothing the second time, nor does trimming
/// what was stripped.
pub fn done_once()
    ensures stripped { StrippedOnce }
    ensures trimmed { TrimmedOnce }
    ensures both { StrippedAndTrimmedOnce }
    ensures normal { NormalOnce }
{}

/// A stripped file, a trimmed one and a normal form mean the same as the file that they are made of.
pub fn meaning_is_kept()
    ensures stripped { StrippedMeansTheSame }
    ensures trimmed { TrimmedMeansTheSame }
    ensures normal { NormalMeansTheSame }
{}

/// Two load files mean the same exactly if their normal forms are written as the same longwords.
pub fn meaning_has_one_normal_form()
    ensures { OneNormalForm }
{}

/// [`LoadFile::normal_form`](crate::LoadFile::normal_form) cuts each content to its shortest
/// beginning, in whole longwords, after which there are only zeros.
pub fn normal_form_is_shortest()
    ensures { NormalIsShortest }
{}

/// Two load files mean the same exactly if [`first_difference`](crate::first_difference) finds
/// nothing.
pub fn no_difference_means_the_same()
    ensures { NoDifference }
{}

/// Two load files with equally many hunks have the same symbols and debug blocks exactly if
/// [`first_info_difference`](crate::first_info_difference) finds nothing.
pub fn no_info_difference_is_the_same_info()
    ensures { NoInfoDifference }
{}
