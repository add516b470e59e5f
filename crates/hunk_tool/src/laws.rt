//! Laws about the outcomes of the operations, each a function without a body.

ghost use Rattle.hunk_tool.specs.CopyLaws.{CopiedOnce, CopyHasSizes, CopyIsLoad, CopyIsLoaded, CopyIsOneLoad, CopyMeansTheSame, NormalBytesTellMeaning, NothingIsTold, SameHasTheSameInfo, SameMeansTheSame};
ghost use Rattle.hunk_tool.specs.Headline.{LinkedIsReported, LoadedIsDirect, MemoryIsDirect, ReportsAgree};
ghost use Rattle.hunk_tool.specs.Laws.{FaultIsOne, FaultyIsNoFile, FileHasOneValue, FileOrFault, NotPlacedForOne, OutcomeExists, RefusedBeginsNone, RefusedForOne, ReportedIsPlaced};

/// What was read has at most one outcome at the same bases. What is rejected is not a load file and
/// not the beginning of one, and there is only one fault. A file is either reported or its bases
/// are rejected, for one fault.
pub fn outcomes_exclude_each_other()
    ensures refused { RefusedBeginsNone }
    ensures one_refusal { RefusedForOne }
    ensures placed { ReportedIsPlaced }
    ensures one_place_fault { NotPlacedForOne }
{}

/// What was read up to a reader's end always has an outcome at bases that are addresses: it is a
/// load file whose hunks are placed, or one whose hunks cannot be placed, or it is rejected.
pub fn an_outcome_exists()
    ensures { OutcomeExists }
{}

/// What was read up to a reader's end is a file of the kind that its first four bytes tell, or it
/// is rejected, never both. A file has one value, and there is only one fault.
pub fn a_file_or_a_fault()
    ensures either { FileOrFault }
    ensures never_both { FaultyIsNoFile }
    ensures one_value { FileHasOneValue }
    ensures one_fault { FaultIsOne }
{}

/// The headline, over values: the load file that units make, with or without their symbols and debug
/// blocks, and with their definitions as symbols or not, has in memory, at any bases, exactly what the
/// units define directly.
pub fn loaded_is_direct()
    ensures bytes { LoadedIsDirect }
    ensures memory { MemoryIsDirect }
{}

/// The headline, over bytes: whatever [`link_run_with`](crate::link_run_with) appends, read in any pieces and
/// loaded by [`load_run_with`](crate::load_run_with), has the image, in each form, that
/// [`image_run_with`](crate::image_run_with) writes of the same inputs, and no other.
pub fn linked_is_reported()
    ensures reported { LinkedIsReported }
    ensures one_report { ReportsAgree }
{}

/// A copy that [`copy_run`](crate::copy_run) accepts is read back as what it is of the file, and as
/// nothing else.
pub fn a_copy_is_read_back()
    ensures file { CopyIsLoad }
    ensures one_file { CopyIsOneLoad }
{}

/// A copy means the same as the file, and at all bases it has the memory of the file.
pub fn a_copy_means_the_same()
    ensures meaning { CopyMeansTheSame }
    ensures memory { CopyIsLoaded }
    ensures sizes { CopyHasSizes }
{}

/// Copying a copy in its form changes no byte.
pub fn copied_once()
    ensures { CopiedOnce }
{}

/// Two load files mean the same exactly if their copies in normal form are the same bytes.
pub fn normal_bytes_tell_the_meaning()
    ensures { NormalBytesTellMeaning }
{}

/// [`compare_run`](crate::compare_run) finds no difference exactly if the files mean the same; where
/// symbols count, exactly if they also have the same symbols and debug blocks. It writes nothing
/// exactly if it finds no difference.
pub fn no_difference_is_found_in_the_same()
    ensures meaning { SameMeansTheSame }
    ensures info { SameHasTheSameInfo }
    ensures nothing { NothingIsTold }
{}
