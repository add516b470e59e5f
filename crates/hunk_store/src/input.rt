//! A file that a request reads with others.

ghost use Rattle.std.specs.Prelude.{◌≡◌, ◌≢◌, ℕ, List, IsTrue};
ghost use Rattle.hunk_tool.specs.FileSystem.FileContent.{missing, unknown};

use hunk_tool::FileSystem;
use hunk_words::{DeviceFault, Source};

/// A file that a request reads.
#[derive(Drop)]
pub struct Input<'s, 'a, S: FileSystem> {
    store: &'s S,
    name: &'a str,
    /// The file, if it is open: otherwise the first read opens it.
    file: Option<S::File>,
    failed: bool,
    ghost there: { S.content store.now name.now ≢ missing },
    ghost may_fail: { IsTrue failed → (system : S) (another : List ℕ) → S.content system another ≡ unknown },
}

impl<'s, 'a, S: FileSystem> Input<'s, 'a, S> {
    /// The file named `name`, which is there: open as `file`, or else to be opened by the first read.
    pub(crate) fn new(store: &'s S, name: &'a str, file: Option<S::File>) -> Input<'s, 'a, S>
        requires { S.content store.now name.now ≢ missing }
        ensures store { result.store ≡ store.entry }
        ensures name { result.name ≡ name.entry }
        ensures file { result.file ≡ file }
    {
        Input {
            store,
            name,
            file,
            failed: false,
        }
    }
}

impl<S: FileSystem> Source for Input<'_, '_, S> {
    ghost use Rattle.hunk_store.specs.Inputs.{ended_in, failed_in, left_in};

    ghost left = { left_in S.content S.File.left };

    ghost failed = { failed_in };

    ghost ended = { ended_in S.File.ended };

    fn read(&mut self, buffer: &mut [u8]) -> Result<usize, DeviceFault> {
        let result = match &mut self.file {
            Some(file) => file.read(buffer),
            None => match self.store.open(self.name) {
                Ok(mut file) => {
                    let result = file.read(buffer);
                    self.file = Some(file);
                    result
                }
                Err(_) => Err(DeviceFault),
            },
        };
        if result.is_err() {
            self.failed = true;
        }
        result
    }

    fn failed(&self) -> bool {
        self.failed
    }

    fn ended(&self) -> bool {
        match &self.file {
            Some(file) => file.ended(),
            None => false,
        }
    }
}
