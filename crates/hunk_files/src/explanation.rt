//! What is told of a file that is refused: where it offends, what is there, and what was due.

ghost use Rattle.std.specs.Prelude.{◌≡◌, ◌≤◌, ◌*◌, ◌^◌};

use crate::path::Path;
use hunk_words::{Due, Fault};

/// More longwords than a file has.
const LONGWORDS: u64 = 0x4000_0000;

/// What is in the place of an offence.
#[derive(Clone, Copy, Debug)]
pub enum Found {
    /// A longword.
    Longword(u32),
    /// The end of the file, after so many bytes of a longword, 0 to 3.
    End(u8),
}

/// The first offence of a file.
#[derive(Clone, Copy, Debug)]
pub struct Explanation {
    /// Its place and its reason.
    pub(crate) fault: Fault,
    /// The offset of the offence in its file, in bytes.
    pub(crate) offset: u32,
    /// What is in its place.
    pub(crate) found: Found,
    /// What was due there. Where two 16-bit words were due, it is the first of them.
    pub(crate) due: Due,
    /// The blocks that began before it.
    pub(crate) path: Path,
}

impl Explanation {
    /// Of this fault, where this was found and that was due, after these blocks.
    pub(crate) fn new(fault: Fault, found: Found, due: Due, path: Path) -> Explanation
        ensures fault { result.fault ≡ fault }
        ensures offset { fault.place ≤ 2 ^ 28 → result.offset ≡ 4 * fault.place }
        ensures found { result.found ≡ found }
        ensures due { result.due ≡ due }
        ensures path { result.path ≡ path }
    {
        Explanation {
            fault,
            offset: 4 * (fault.place % LONGWORDS) as u32,
            found,
            due,
            path,
        }
    }

    /// The place of the offence and its reason.
    pub fn fault(&self) -> Fault
        ensures { result ≡ self.now.fault }
    {
        self.fault
    }
}
