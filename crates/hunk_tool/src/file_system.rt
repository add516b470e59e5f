//! Files by their names.

ghost use Rattle.std.specs.Prelude.{◌≡◌, ◌≢◌, false, ℕ, List, IfErr, IfOk, IsTrue};
ghost use Rattle.std.specs.Io.KnownBytes.{IsAtEnd};
ghost use Rattle.hunk_tool.specs.FileSystem.FileContent.{unknown};
ghost use Rattle.hunk_tool.specs.FileSystem.{FileContent, IsContent, MayBeMissing};

use hunk_words::Source;

/// Why a file cannot be opened, or cannot be created, as the system tells it.
#[derive(Clone, Copy, Debug, PartialEq, Eq)]
pub enum OpenFault {
    /// There is no such file, or a directory of its path is not there.
    NotFound,
    /// The user may not open it.
    NotAllowed,
    /// It is a directory.
    Directory,
    /// A part of its path, before the last, is not a directory.
    NoDirectory,
    /// Its path has more symbolic links than the system follows.
    TooManyLinks,
    /// Its file system can only be read.
    ReadOnly,
    /// As many files are open as may be.
    TooManyFiles,
    /// Another error, with this number of the system.
    Other(u32),
    /// An error without a number.
    Unknown,
}

/// What stands under a name.
#[derive(Clone, Copy, Debug, PartialEq, Eq)]
pub enum FileType {
    /// A regular file, which can be read more than once.
    Regular,
    /// A directory.
    Directory,
    /// A pipe, a socket, a device or anything else. Opening it may wait for another program.
    Other,
    /// Nothing, or nothing that the system tells of.
    Unknown,
}

/// What opens files by their names.
pub trait FileSystem {
    // What is known of the file with a name.
    ghost content: { Self → List ℕ → FileContent };

    /// An open file, which is closed when it is dropped.
    type File: Source + Drop;

    /// Opens the file named `name` for reading.
    ///
    /// # Errors
    ///
    /// Why it cannot be opened.
    fn open(&self, name: &str) -> Result<Self::File, OpenFault>
        ensures there { IfOk result
            (λ file. IsContent (content self.now name.now) (Self.File.left file)) }
        ensures unread { IfOk result
            (λ file. (Self.File.failed file ≡ false) × (Self.File.ended file ≡ false)) }
        ensures missing { IfErr result (λ fault. MayBeMissing (content self.now name.now)) };

    /// What stands under the name `name`, or where its symbolic links lead. It is not opened for it. A file of
    /// which it is known what is in it is a regular one.
    fn file_type(&self, name: &str) -> FileType
        ensures { result ≢ FileType.Regular → MayBeMissing (content self.now name.now) };

    // A file that was read to its end has no byte left.
    ghost at_end: { (file : Self.File) → IsTrue (Self.File.ended file) → IsAtEnd (Self.File.left file) };

    // Where nothing is known of one file, nothing is known of any.
    ghost all_unknown: { (system other : Self) (name another : List ℕ) → content system name ≡ unknown → content other another ≡ unknown };

    // A read fails only where nothing is known of the files.
    ghost may_fail: { (system : Self) (name : List ℕ) (file : Self.File) → IsTrue (Self.File.failed file) → content system name ≡ unknown };
}
