//! Files of the operating system that are written, and the buffers before them.
ghost use Rattle.std.specs.Prelude.{◌≡◌, false, IfOk, IfErr};
ghost use Rattle.std.specs.Io.Buffered.{writer_contents};
ghost use Rattle.std.specs.Io.KnownBytes.{Keeps};
ghost use Rattle.hunk_base.specs.Watched.{inner_of, saw_failure};
ghost use Rattle.hunk_tool.specs.FileSystem.FileContent.{unknown};
ghost use Rattle.hunk_store.specs.Store.{IsUnplaced};

use crate::failure::Failure;
use crate::open_fault::reason_of;
use hunk_tool::ToolFault;
use hunk_words::Watched;
use std::alloc::Global;
use std::fs;
use std::io::{BufWriter, Write};
use std::rt::Files;

/// Creates the file named `out`, or empties it if there is one.
pub fn create<'a, R: Files>(rt: &R, out: &'a str) -> Result<R::File, Failure<'a>>
    ensures { IfErr result (IsUnplaced unknown out.entry.now) }
{
    match fs::create(rt, out) {
        Ok(output) => Ok(output),
        Err(error) => Err(Failure::Opening(out, reason_of(&error))),
    }
}

/// Puts a buffer in front of `output`.
pub fn buffered<'a, O: Write + Drop>(
    alloc: Global,
    output: O,
) -> Result<Watched<BufWriter<O>>, Failure<'a>>
    ensures ok { IfOk result (λ writer.
        writer_contents O.contents (inner_of writer) ≡ O.contents output) }
    ensures failed { IfOk result (λ writer. saw_failure writer ≡ false) }
    ensures err { IfErr result (λ failure. failure ≡ Failure.Tool (ToolFault.OutOfMemory 0)) }
{
    match BufWriter::new(alloc, output) {
        Ok(buffered) => Ok(Watched::new(buffered)),
        Err(_) => Err(Failure::out_of_memory()),
    }
}

/// Returns the writer under a buffer, flushed, with everything that the buffer held.
pub fn flushed<'a, O: Write + Drop>(writer: Watched<BufWriter<O>>) -> Result<O, Failure<'a>>
    ensures ok { IfOk result (λ output.
        Keeps (writer_contents O.contents (inner_of writer)) (O.contents output)) }
    ensures err { IfErr result (λ failure. failure ≡ Failure.Printing) }
{
    let Ok(output) = writer.into_inner().into_inner() else {
        return Err(Failure::Printing);
    };
    flush(output)
}

/// Flushes `output`, and returns it.
pub fn flush<'a, O: Write + Drop>(mut output: O) -> Result<O, Failure<'a>>
    ensures ok { IfOk result (λ after. Keeps (O.contents output) (O.contents after)) }
    ensures err { IfErr result (λ failure. failure ≡ Failure.Printing) }
{
    match output.flush() {
        Ok(()) => Ok(output),
        Err(_) => Err(Failure::Printing),
    }
}
