//! Lines that reach a writer whole.
ghost use Rattle.std.specs.Prelude.{IfOk};
ghost use Rattle.std.specs.Io.Buffered.{writer_contents};
ghost use Rattle.std.specs.Io.KnownBytes.{Keeps};

use std::alloc::Global;
use std::io;
use std::io::{BufWriter, Write};

/// The bytes of the longest line that is one write.
const LONGEST: usize = 8192;

/// A writer behind a buffer that is written out at each end of a line.
///
/// So a line of at most 8,192 bytes reaches the writer in one write, and the lines of programs that
/// share a file are not mixed. A write that fails is made again with the next line.
#[derive(Drop)]
pub struct Lines<W: Write + Drop> {
    buffered: BufWriter<W>,
}

impl<W: Write + Drop> Lines<W> {
    ghost use Rattle.hunk_store.specs.Lines.{line_contents};

    /// Lines for `writer`.
    ///
    /// # Errors
    ///
    /// That there is no memory for the buffer.
    pub fn new(alloc: Global, writer: W) -> io::Result<Lines<W>>
        ensures { IfOk result
            (λ lines. Keeps (W.contents writer) (line_contents W.contents lines)) }
    {
        let buffered = BufWriter::with_capacity(alloc, LONGEST, writer)?;
        Ok(Lines { buffered })
    }
}

impl<W: Write + Drop> Write for Lines<W> {
    ghost use Rattle.hunk_store.specs.Lines.{line_contents};

    ghost contents = { line_contents W.contents };

    fn write(&mut self, buffer: &[u8]) -> io::Result<usize> {
        let count = self.buffered.write(buffer)?;
        if buffer.ends_with(b"\n") {
            // What was not written is still in the buffer.
            let _ = self.buffered.flush();
        }
        Ok(count)
    }

    fn flush(&mut self) -> io::Result<()> {
        self.buffered.flush()
    }
}
