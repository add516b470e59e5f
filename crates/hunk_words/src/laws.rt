//! Laws about the definitions of the format, each a function without a body.

ghost use Rattle.hunk_words.specs.Due.{DueIsOne};
ghost use Rattle.hunk_words.specs.Examples.{LoadExamples, ObjectExamples, ShortExamples, ValueExamples};
ghost use Rattle.hunk_words.specs.EventLaws.{ObjectTold, LoadTold, ObjectOneValue, LoadOneValue, ObjectLimit, LoadLimit};
ghost use Rattle.hunk_words.specs.FirstOffenceLaws.{ReadIsPrefix, PrefixIsRead, StopsAfterPrefix, StopsAtOffence, TooLongOffends, CompleteIsFile, EndsAfterPrefix, FileOrOffence, FileHasNone, OffenceIsOne};
ghost use Rattle.hunk_words.specs.Laws.{NothingFollows, ObjectIsTaken, LoadIsTaken, ObjectIsRead, LoadIsRead, ReadIsObject, ReadIsLoad, ObjectSame, LoadSame, ObjectPrefix, LoadPrefix, ObjectNext, LoadNext, ObjectDue, LoadDue};

/// What is spelled passes, each field under the kind of its spelling, up to where a file may end.
pub fn spelled_is_taken()
    ensures object { ObjectIsTaken }
    ensures load { LoadIsTaken }
{}

/// The longwords of what is spelled are read, up to where a file may end.
pub fn spelled_is_read()
    ensures object { ObjectIsRead }
    ensures load { LoadIsRead }
{}

/// Nothing passes after the last END of a load file.
pub fn nothing_follows()
    ensures { NothingFollows }
{}

/// Where an offset is expected, the events determine its limit and the earlier sites of its hunk.
pub fn events_tell_limits()
    ensures object { ObjectLimit }
    ensures load { LoadLimit }
{}

/// Worked load files, object files and 16-bit relocations: which are files, where the others offend
/// first and why, and what the files mean.
pub fn worked_files()
    ensures load { LoadExamples }
    ensures short { ShortExamples }
    ensures object { ObjectExamples }
    ensures value { ValueExamples }
{}

/// What the events of a file build is the value of its tree.
pub fn events_tell_values()
    ensures object { ObjectTold }
    ensures load { LoadTold }
{}

/// What has been read so far is the beginning of a file.
pub fn read_is_prefix()
    ensures object { ObjectPrefix }
    ensures load { LoadPrefix }
{}

/// If a longword doesn't pass after what was read, no file begins with both.
pub fn refused_begins_none()
    ensures object { ObjectNext }
    ensures load { LoadNext }
{}

/// The kind that is expected after what was taken is the kind that every file with this beginning
/// has there.
pub fn every_file_bears_due()
    ensures object { ObjectDue }
    ensures load { LoadDue }
{}

/// After a valid prefix one thing is due.
pub fn one_thing_is_due()
    ensures { DueIsOne }
{}

/// What is read up to where a file may end is the spelling of a tree.
pub fn read_is_spelled()
    ensures object { ReadIsObject }
    ensures load { ReadIsLoad }
{}

/// The same longwords have the same fields.
pub fn longwords_tell_fields()
    ensures object { ObjectSame }
    ensures load { LoadSame }
{}

/// Decoding is unambiguous: a list of longwords is the file of one value at most.
pub fn longwords_tell_value()
    ensures object { ObjectOneValue }
    ensures load { LoadOneValue }
{}

/// The machine, which also applies the rules for sites, reads exactly the valid prefixes.
pub fn machine_reads_prefixes()
    ensures read { ReadIsPrefix }
    ensures front { PrefixIsRead }
{}

/// Where the machine stops, a valid prefix ends, and its reason is that of the first offence;
/// likewise after 2^28 longwords.
pub fn machine_stops_at_offence()
    ensures front { StopsAfterPrefix }
    ensures offence { StopsAtOffence }
    ensures long { TooLongOffends }
{}

/// If the machine comes to the end, it decides whether the longwords are a file or end too early.
pub fn machine_tells_files()
    ensures file { CompleteIsFile }
    ensures early { EndsAfterPrefix }
{}

/// Longwords, and up to three bytes of a further one, are a file or have a first offence, never
/// both; and it is unique.
pub fn file_or_first_offence()
    ensures either { FileOrOffence }
    ensures never_both { FileHasNone }
    ensures one { OffenceIsOne }
{}
