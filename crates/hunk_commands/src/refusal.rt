//! What is told of arguments that are refused.
ghost use Rattle.std.specs.Prelude.{◌≡◌};
ghost use Rattle.hunk_store.specs.Failure.{TellsLine};

use hunk_store::COMMAND_LINE;
use hunk_words::{Sink, Text};

/// Writes to `errors` why `clap` rejects the arguments, and returns the exit status.
///
/// The text is appended to `errors`, or a write failed: then it has taken the first bytes of the
/// text, and nothing more is written.
pub(crate) fn report_refusal<W: Sink>(errors: &mut W, told: &str) -> u8
    ensures status { result ≡ 2 }
    ensures line { TellsLine W.taken W.failed errors.old errors.new told.now }
{
    let mut text = Text::new(errors);
    text.put(told.as_bytes());
    let _ = text.finish();
    COMMAND_LINE
}
