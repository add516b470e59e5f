//! A writer of std behind a buffer, which the program prints to.

ghost use Rattle.std.specs.Prelude.{◌≡◌, [], false, IfOk};
ghost use Rattle.std.specs.Io.KnownBytes.{Keeps};

use crate::output::Output;
use hunk_words::{DeviceFault, Sink};
use std::alloc::Global;
use std::io;
use std::io::{BufWriter, Write};

/// A writer of std behind a buffer.
#[derive(Drop)]
pub struct Printer<W: Write + Drop> {
    buffered: BufWriter<W>,
    failed: bool,
}

impl<W: Write + Drop> Printer<W> {
    ghost use Rattle.hunk_store.specs.Printer.{has_failed, printer_contents, printer_waiting};

    /// A buffer in front of `writer`.
    ///
    /// # Errors
    ///
    /// That there is no memory for the buffer.
    pub fn new(alloc: Global, writer: W) -> io::Result<Printer<W>>
        ensures contents { IfOk result
            (λ printer. Keeps (W.contents writer) (printer_contents W.contents printer)) }
        ensures fresh { IfOk result (λ printer. has_failed printer ≡ false) }
        ensures empty { IfOk result (λ printer. printer_waiting printer ≡ []) }
    {
        let buffered = BufWriter::new(alloc, writer)?;
        Ok(Printer {
            buffered,
            failed: false,
        })
    }
}

impl<W: Write + Drop> Sink for Printer<W> {
    ghost use Rattle.hunk_store.specs.Printer.{has_failed, printer_contents};

    ghost taken = { printer_contents W.contents };

    ghost failed = { has_failed };

    fn write(&mut self, buffer: &[u8]) -> Result<usize, DeviceFault> {
        match self.buffered.write(buffer) {
            Ok(count) => {
                if count == 0 && !buffer.is_empty() {
                    self.failed = true;
                }
                Ok(count)
            }
            Err(_) => {
                self.failed = true;
                Err(DeviceFault)
            }
        }
    }

    fn failed(&self) -> bool {
        self.failed
    }
}

impl<W: Write + Drop> Output for Printer<W> {
    ghost use Rattle.hunk_store.specs.Printer.{printer_waiting};

    ghost waiting = { printer_waiting };

    fn flush(&mut self) -> Result<(), DeviceFault> {
        match self.buffered.flush() {
            Ok(()) => Ok(()),
            Err(_) => {
                self.failed = true;
                Err(DeviceFault)
            }
        }
    }
}
