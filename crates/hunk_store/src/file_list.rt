//! Lists of the names of files, which are files themselves.
ghost use Rattle.std.specs.Prelude.{◌≡◌};
ghost use Rattle.hunk_store.specs.FileList.{end_byte};

/// A file that lists the names of files.
#[derive(Clone, Copy, Debug, PartialEq, Eq)]
pub struct FileList<'a> {
    /// The name of the list.
    pub file: &'a str,
    /// What ends each name in it.
    pub end: NameEnd,
}

/// What ends each name in a list of names. The last one may end with the list. A name of no bytes is none.
#[derive(Clone, Copy, Debug, PartialEq, Eq)]
pub enum NameEnd {
    /// A zero byte, which no name of a file has in it.
    Zero,
    /// The end of a line: a line feed.
    Line,
}

impl NameEnd {
    /// The byte that ends each name.
    pub fn byte(self) -> u8
        ensures { result ≡ end_byte self }
    {
        match self {
            NameEnd::Zero => 0,
            NameEnd::Line => b'\n',
        }
    }
}
