//! Files in memory, as a store.

ghost use Rattle.std.specs.Prelude.{◌≡◌, [], ℕ, List, Some, false, IsTrue, OnErr, OnOk};

use crate::failure::Failure;
use crate::store::Store;
use bumpalo::Bump;
use hunk_tool::{FileSystem, FileType, NameHasher, OpenFault, ToolFault};
use hunk_words::{DeviceFault, Sink, Source};
use std::alloc::{AllocError, Global};
use std::collections::BTreeMap;

/// Files in memory, by their names. It is known which there are, and what is in each of them.
///
/// Their bytes are in an arena. Those of a file that is replaced stay there too, where whoever has opened it
/// reads on.
#[derive(Drop)]
pub struct MemoryStore<'m> {
    alloc: Global,
    arena: &'m Bump,
    files: BTreeMap<String, &'m [u8]>,
}

impl<'m> MemoryStore<'m> {
    ghost use Rattle.hunk_tool.specs.FileSystem.FileContent.{missing};
    ghost use Rattle.hunk_store.specs.MemoryStore.{content_found, content_in};
    ghost use Rattle.hunk_store.specs.Store.{AreUnchanged, IsReplaced};

    /// No files.
    pub fn new(alloc: Global, arena: &'m Bump) -> MemoryStore<'m>
        ensures { (name : List ℕ) → content_in result name ≡ missing }
    {
        MemoryStore {
            alloc,
            arena,
            files: BTreeMap::new(alloc),
        }
    }

    /// The bytes of the file named `name`; `None` if there is none.
    pub fn bytes(&self, name: &str) -> Option<&'m [u8]>
        ensures { content_found result ≡ content_in self.now name.now }
    {
        self.files.get(name).copied()
    }

    /// Adds a file named `name` with these bytes, in the place of the one with this name if there is one.
    ///
    /// # Errors
    ///
    /// [`AllocError`] if an allocation failed. Then no file is added or replaced.
    pub fn insert(&mut self, name: &str, bytes: &[u8]) -> Result<(), AllocError>
        ensures ok { OnOk result
            (IsReplaced name.now (Some bytes.now) (content_in self.old) (content_in self.new)) }
        ensures err { OnErr result (AreUnchanged (content_in self.old) (content_in self.new)) }
    {
        let name = String::from_str(self.alloc, name)?;
        let bytes: &[u8] = self.arena.try_alloc_slice_copy(bytes)?;
        self.files.insert(name, bytes)?;
        Ok(())
    }
}

/// An open file in memory, of which no read fails.
#[derive(Drop)]
pub struct MemoryFile<'m> {
    /// The bytes that have not been read yet.
    rest: &'m [u8],
    ended: bool,
    ghost at_end: { IsTrue ended → rest.now ≡ [] },
}

impl Source for MemoryFile<'_> {
    ghost left = { λ file. Some file.rest.now };

    ghost failed = { λ file. false };

    ghost ended = { λ file. file.ended };

    fn read(&mut self, buffer: &mut [u8]) -> Result<usize, DeviceFault> {
        let count = buffer.len().min(self.rest.len());
        let (front, rest) = self.rest.split_at(count);
        buffer[..count].copy_from_slice(front);
        self.rest = rest;
        if count == 0 && !buffer.is_empty() {
            self.ended = true;
        }
        Ok(count)
    }

    fn failed(&self) -> bool {
        false
    }

    fn ended(&self) -> bool {
        self.ended
    }
}

/// What is to take the place of a file in memory.
#[derive(Drop)]
pub struct NewBytes {
    bytes: Vec<u8>,
    /// Whether an allocation for them failed.
    is_exhausted: bool,
}

impl Sink for NewBytes {
    ghost taken = { λ new. Some new.bytes.items };

    ghost failed = { λ new. new.is_exhausted };

    fn write(&mut self, buffer: &[u8]) -> Result<usize, DeviceFault> {
        match self.bytes.extend_from_slice(buffer) {
            Ok(()) => Ok(buffer.len()),
            Err(_) => {
                self.is_exhausted = true;
                Err(DeviceFault)
            }
        }
    }

    fn failed(&self) -> bool {
        self.is_exhausted
    }
}

impl<'m> FileSystem for MemoryStore<'m> {
    ghost use Rattle.hunk_store.specs.MemoryStore.{all_known, content_in, never_fails};

    ghost content = { content_in };

    type File = MemoryFile<'m>;

    fn open(&self, name: &str) -> Result<MemoryFile<'m>, OpenFault> {
        match self.bytes(name) {
            Some(bytes) => Ok(MemoryFile {
                rest: bytes,
                ended: false,
            }),
            None => Err(OpenFault::NotFound),
        }
    }

    fn file_type(&self, name: &str) -> FileType {
        match self.bytes(name) {
            Some(_) => FileType::Regular,
            None => FileType::Unknown,
        }
    }

    ghost at_end = { λ file. file.at_end };

    ghost all_unknown = { all_known };

    ghost may_fail = { λ store name file failing. never_fails store name failing };
}

impl<'m> Store for MemoryStore<'m> {
    ghost use Rattle.hunk_store.specs.MemoryStore.{keyless};

    type New = NewBytes;

    fn can_be_opened_again(&self, _file: &MemoryFile<'m>) -> bool {
        true
    }

    fn is_one_file(&self, first: &str, second: &str) -> Result<bool, AllocError> {
        Ok(first == second)
    }

    ghost name_hasher = { λ store. keyless };

    fn name_hasher(&self) -> NameHasher {
        NameHasher::new([0; 2])
    }

    fn begin(&self, _name: &str) -> Result<NewBytes, AllocError> {
        Ok(NewBytes {
            bytes: Vec::new(self.alloc),
            is_exhausted: false,
        })
    }

    fn finish<'a>(
        &mut self,
        name: &'a str,
        new: NewBytes,
        ran: Result<(), ToolFault>,
    ) -> Result<(), Failure<'a>> {
        match ran {
            Ok(()) if !new.is_exhausted => match self.insert(name, new.bytes.as_slice()) {
                Ok(()) => Ok(()),
                Err(_) => Err(Failure::out_of_memory()),
            },
            Ok(()) | Err(ToolFault::Output { .. }) => Err(Failure::out_of_memory()),
            Err(fault) => Err(Failure::Tool(fault)),
        }
    }
}
