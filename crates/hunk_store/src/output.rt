//! What the program prints to.

ghost use Rattle.std.specs.Prelude.{◌≡◌, ◌||◌, [], ℕ, List, is_err, OnOk};
ghost use Rattle.std.specs.Io.KnownBytes.{Keeps};

use hunk_words::{DeviceFault, Sink};

/// What the program prints to: a writer that may keep bytes until it is flushed.
pub trait Output: Sink {
    // The bytes that it has taken and keeps.
    ghost waiting: { Self → List ℕ };

    /// Passes on the bytes that it keeps.
    ///
    /// # Errors
    ///
    /// [`DeviceFault`] if they were not all passed on.
    fn flush(&mut self) -> Result<(), DeviceFault>
        ensures same { Keeps (Self.taken self.old) (Self.taken self.new) }
        ensures failed { Self.failed self.new ≡ (is_err result || Self.failed self.old) }
        ensures flushed { OnOk result (waiting self.new ≡ []) };
}
