//! What replaces a file, in one step, once all of it has been written.
ghost use Rattle.std.specs.Prelude.{◌≡◌, ◌≤◌, ◌||◌, ◌++◌, false, length, take, is_err, Err, IfErr, IfOk, OnErr, OnOk};
ghost use Rattle.std.specs.Io.KnownBytes.{Appends, Keeps};
ghost use Rattle.hunk_base.specs.Streams.{refuses};
ghost use Rattle.hunk_tool.specs.FileSystem.FileContent.{unknown};
ghost use Rattle.hunk_store.specs.Replacement.{IsFresh, failed_at};

use crate::buffers::{create, flush};
use crate::failure::Failure;
use crate::new_file::{NewFile, NoNewFile};
use crate::open_fault::reason_of;
use hunk_tool::{OpenFault, ToolFault};
use hunk_words::{DeviceFault, Sink};
use std::alloc::{AllocError, Global};
use std::fs::{OpenFile, OpenOptions, Permissions};
use std::io::{ErrorKind, Write};
use std::path::PathBuf;
use std::rt::Files;
use std::{fs, io};

/// The name that stands for the standard output where a file is written.
pub const STANDARD_OUTPUT: &str = "-";

/// What replaces the file with a name: a writer, whose bytes are seen under that name only once
/// [`Replacement::finish`] has put all of them there.
///
/// Nothing is begun before the first write. The bytes go to a new file beside the one that they
/// replace, which is renamed in the end. They are kept in memory, and written in the end, if the name
/// is that of a device or a pipe, if no file can be made beside it, or if it is [`STANDARD_OUTPUT`].
#[derive(Drop)]
pub struct Replacement<'r, R: Files + AllocGlobal> {
    rt: &'r R,
    name: String,
    /// Where the bytes go, from the first write on.
    place: Option<Place<R::File>>,
}

/// Where the bytes go.
#[derive(Drop)]
enum Place<F: Write + Drop> {
    /// To a new file.
    Beside(NewFile<F>),
    /// To memory.
    InMemory(Held<F>),
    /// Nowhere, since the file cannot be opened or created.
    Nowhere(OpenFault),
    /// Nowhere, since an allocation failed.
    Exhausted,
}

/// Bytes that are kept in memory.
#[derive(Drop)]
struct Held<F> {
    bytes: Vec<u8>,
    /// Whether an allocation for them failed.
    is_exhausted: bool,
    /// The device that they go to, if it is open.
    device: Option<F>,
}

impl<'r, R: Files + AllocGlobal> Replacement<'r, R> {
    ghost use Rattle.hunk_store.specs.Replacement.{failed_in};
    ghost use Rattle.hunk_store.specs.Store.{HasRun, IsCauseOf};

    /// What replaces the file named `name`.
    ///
    /// # Errors
    ///
    /// [`AllocError`] if an allocation failed.
    pub fn new(rt: &'r R, name: &str) -> Result<Replacement<'r, R>, AllocError>
        ensures { IfOk result (λ replacement. failed_in replacement.place ≡ false) }
    {
        let name = String::from_str(rt.alloc(), name)?;
        Ok(Replacement {
            rt,
            name,
            place: None,
        })
    }

    /// Ends it, after a run that wrote to it and returned `ran`: puts what was written in the place of
    /// the file if the run succeeded, and otherwise leaves the file as it was. `name` is the name that it
    /// was made with.
    ///
    /// # Errors
    ///
    /// - [`Failure::Tool`] with what the run returned, unless a write failed for one of the reasons below.
    /// - [`Failure::Opening`] if the file cannot be opened, or no file can be created or renamed for it.
    /// - [`Failure::Printing`] if it did not take everything.
    /// - [`Failure::out_of_memory`] if an allocation failed.
    pub fn finish<'a>(self, name: &'a str, ran: Result<(), ToolFault>) -> Result<(), Failure<'a>>
    where
        R: Print,
        ensures ok { OnOk result (HasRun ran) }
        ensures err { IfErr result (IsCauseOf ran unknown name.entry.now) }
    {
        let Replacement { rt, name: _, place } = self;
        match (ran, place) {
            (Ok(()), Some(place)) => place.commit(rt, name),
            (Ok(()), None) => begin(rt, name).commit(rt, name),
            (Err(fault), Some(place)) => Err(place.abandon(rt, name, fault)),
            (Err(fault), None) => Err(Failure::Tool(fault)),
        }
    }
}

impl<R: Files + AllocGlobal> Sink for Replacement<'_, R> {
    ghost use Rattle.hunk_store.specs.Replacement.{failed_in, taken_in};

    ghost taken = { λ replacement. taken_in R.File.Write.contents replacement.place };

    ghost failed = { λ replacement. failed_in replacement.place };

    fn write(&mut self, buffer: &[u8]) -> Result<usize, DeviceFault> {
        match &mut self.place {
            Some(place) => place.write(buffer),
            None => {
                let (place, result) = begin_with(self.rt, self.name.as_str(), buffer);
                self.place = Some(place);
                result
            }
        }
    }

    fn failed(&self) -> bool {
        match &self.place {
            Some(place) => place.failed(),
            None => false,
        }
    }
}

impl<F: Write + Drop + OpenFile> Place<F> {
    ghost use Rattle.hunk_store.specs.Replacement.{IsFresh, failed_at, taken_at};
    ghost use Rattle.hunk_store.specs.Store.{IsCauseOf, IsUnplaced};

    /// Takes the first bytes of `buffer`, as a [`Sink`] does.
    fn write(&mut self, buffer: &[u8]) -> Result<usize, DeviceFault>
        ensures count { IfOk result (λ n. n ≤ length buffer.now) }
        ensures bytes { IfOk result (λ n. Appends (taken_at F.Write.contents self.old)
            (taken_at F.Write.contents self.new) (take n buffer.now)) }
        ensures nothing { OnErr result
            (Keeps (taken_at F.Write.contents self.old) (taken_at F.Write.contents self.new)) }
        ensures failed { failed_at self.new ≡
            (refuses result (length buffer.now) || failed_at self.old) }
        ensures fresh { IsFresh self.old → failed_at self.new ≡ refuses result (length buffer.now) }
    {
        match self {
            Place::Beside(file) => file.writer.write(buffer),
            Place::InMemory(held) => held.write(buffer),
            Place::Nowhere(_) | Place::Exhausted => Err(DeviceFault),
        }
    }

    /// Whether a write has failed, or there is no place.
    fn failed(&self) -> bool
        ensures { result ≡ failed_at self.now }
    {
        match self {
            Place::Beside(file) => file.writer.failed(),
            Place::InMemory(held) => held.is_exhausted,
            Place::Nowhere(_) | Place::Exhausted => true,
        }
    }

    /// Puts the bytes where the name leads.
    fn commit<'a, R: Files<File = F> + Print + AllocGlobal>(
        self,
        rt: &R,
        name: &'a str,
    ) -> Result<(), Failure<'a>>
        ensures { IfErr result (IsUnplaced unknown name.entry.now) }
    {
        match self {
            Place::Beside(file) => file.put_in_place(rt, name),
            Place::InMemory(held) => held.write_out(rt, name),
            Place::Nowhere(reason) => Err(Failure::Opening(name, reason)),
            Place::Exhausted => Err(Failure::out_of_memory()),
        }
    }

    /// Leaves the file as it was, and returns why: what made a write fail, if one failed, and otherwise
    /// the fault of the run.
    fn abandon<'a, R: Files<File = F>>(self, rt: &R, name: &'a str, fault: ToolFault) -> Failure<'a>
        ensures { IsCauseOf (Err fault) unknown name.entry.now result }
    {
        match (self, fault) {
            (Place::Beside(file), fault) => {
                file.remove(rt);
                Failure::Tool(fault)
            }
            (Place::Nowhere(reason), ToolFault::Output { .. }) => Failure::Opening(name, reason),
            (Place::InMemory(_) | Place::Exhausted, ToolFault::Output { .. }) => {
                Failure::out_of_memory()
            }
            (_, fault) => Failure::Tool(fault),
        }
    }
}

impl<F: Write + Drop> Held<F> {
    ghost use Rattle.hunk_store.specs.Store.{IsUnplaced};

    /// Takes all of `buffer`.
    fn write(&mut self, buffer: &[u8]) -> Result<usize, DeviceFault>
        ensures count { IfOk result (λ n. n ≡ length buffer.now) }
        ensures bytes { OnOk result (self.new.bytes.items ≡ self.old.bytes.items ++ buffer.now) }
        ensures nothing { OnErr result (self.new.bytes.items ≡ self.old.bytes.items) }
        ensures exhausted { self.new.is_exhausted ≡ (is_err result || self.old.is_exhausted) }
    {
        match self.bytes.extend_from_slice(buffer) {
            Ok(()) => Ok(buffer.len()),
            Err(_) => {
                self.is_exhausted = true;
                Err(DeviceFault)
            }
        }
    }

    /// Writes the bytes to their device, to the standard output, or to the file with this name.
    fn write_out<'a, R: Files<File = F> + Print>(
        self,
        rt: &R,
        name: &'a str,
    ) -> Result<(), Failure<'a>>
        ensures { IfErr result (IsUnplaced unknown name.entry.now) }
    {
        let Held { bytes, device, .. } = self;
        match device {
            Some(device) => write_whole(device, bytes.as_slice()),
            None if name == STANDARD_OUTPUT => write_whole(io::writer(rt), bytes.as_slice()),
            None => write_whole(create(rt, name)?, bytes.as_slice()),
        }
    }
}

/// Writes all of these bytes to `output`.
fn write_whole<'a, O: Write + Drop>(mut output: O, bytes: &[u8]) -> Result<(), Failure<'a>>
    ensures { IfErr result (λ failure. failure ≡ Failure.Printing) }
{
    if output.write_all(bytes).is_err() {
        return Err(Failure::Printing);
    }
    flush(output)?;
    Ok(())
}

/// Begins what replaces the file named `name` with a first write.
fn begin_with<R: Files + AllocGlobal>(
    rt: &R,
    name: &str,
    buffer: &[u8],
) -> (Place<R::File>, Result<usize, DeviceFault>)
    ensures count { IfOk result.1 (λ n. n ≤ length buffer.now) }
    ensures failed { failed_at result.0 ≡ refuses result.1 (length buffer.now) }
{
    let mut place = begin(rt, name);
    let result = place.write(buffer);
    (place, result)
}

/// Begins what replaces the file named `name`.
fn begin<R: Files + AllocGlobal>(rt: &R, name: &str) -> Place<R::File>
    ensures { IsFresh result }
{
    if name == STANDARD_OUTPUT {
        return in_memory(rt.alloc(), None);
    }
    match OpenOptions::new().write(true).open(rt, name) {
        Ok(old) => begin_over(rt, name, old),
        Err(error) if error.kind() == ErrorKind::NotFound => begin_new(rt, name),
        Err(error) => Place::Nowhere(reason_of(&error)),
    }
}

/// Begins what replaces a file that is open as `old`.
fn begin_over<R: Files + AllocGlobal>(rt: &R, name: &str, old: R::File) -> Place<R::File>
    ensures { IsFresh result }
{
    match old.metadata() {
        Ok(metadata) if metadata.is_file() => {
            // It takes none of the files that may be open at once.
            drop(old);
            begin_beside(rt, name, metadata.permissions())
        }
        Ok(_) => in_memory(rt.alloc(), Some(old)),
        // What may be a regular file is not written as a device is.
        Err(error) => Place::Nowhere(reason_of(&error)),
    }
}

/// Begins what replaces a regular file with these permissions.
fn begin_beside<R: Files + AllocGlobal>(
    rt: &R,
    name: &str,
    permissions: Permissions,
) -> Place<R::File>
    ensures { IsFresh result }
{
    let beside = match target_of(rt, name) {
        Ok(Some(target)) => NewFile::beside(rt, target.as_str(), Some(permissions)),
        Ok(None) => NewFile::beside(rt, name, Some(permissions)),
        Err(reason) => Err(reason),
    };
    match beside {
        Ok(file) => Place::Beside(file),
        Err(NoNewFile::OutOfMemory) => Place::Exhausted,
        // It is written in place only if the directory takes no file: what else is in the way, such as a
        // full disk, could stop a write of it in the middle.
        Err(NoNewFile::Refused(OpenFault::NotAllowed | OpenFault::ReadOnly | OpenFault::Unknown)) =>
            in_memory(rt.alloc(), None),
        Err(NoNewFile::Refused(reason)) => Place::Nowhere(reason),
    }
}

/// The path of the file that a symbolic link with this name leads to. `None` if the name is that of the file
/// itself: then a new file takes its place under this name, whatever the directories are that lead to it.
fn target_of<R: Files + AllocGlobal>(rt: &R, name: &str) -> Result<Option<PathBuf>, NoNewFile> {
    if !fs::symlink_metadata(rt, name)?.is_symlink() {
        return Ok(None);
    }
    Ok(Some(fs::canonicalize(rt, name)?))
}

/// Begins a file that is not there yet.
fn begin_new<R: Files + AllocGlobal>(rt: &R, name: &str) -> Place<R::File>
    ensures { IsFresh result }
{
    if name.ends_with('/') {
        return Place::Nowhere(OpenFault::Directory);
    }
    // A symbolic link that leads to no file: writing through it makes that file.
    if fs::symlink_metadata(rt, name).is_ok() {
        return in_memory(rt.alloc(), None);
    }
    match NewFile::beside(rt, name, None) {
        Ok(file) => Place::Beside(file),
        Err(NoNewFile::OutOfMemory) => Place::Exhausted,
        Err(NoNewFile::Refused(reason)) => Place::Nowhere(reason),
    }
}

/// A place in memory, for a device that is open, or for a file that is opened by its name.
fn in_memory<F: Write + Drop>(alloc: Global, device: Option<F>) -> Place<F>
    ensures { IsFresh result }
{
    Place::InMemory(Held {
        bytes: Vec::new(alloc),
        is_exhausted: false,
        device,
    })
}
