//! The files that a request replaces, and the output that it prints to.
ghost use Rattle.std.specs.Prelude.{◌≡◌, ◌≢◌, false, true, IfErr, IfOk, Ok, OnErr, OnOk, IsTrue, [], refl};
ghost use Rattle.std.specs.Io.KnownBytes.{Keeps};
ghost use Rattle.hunk_store.specs.Output.{IsPrinted, IsUnprinted, printed_of};
ghost use Rattle.hunk_store.specs.Store.{IsBegun, IsKnown};

use hunk_store::{Failure, Output, Store};
use hunk_tool::ToolFault;
use hunk_words::Text;

/// Passes on what `output` keeps.
///
/// # Errors
///
/// [`Failure::Printing`] if not all of it was passed on.
pub fn flush<'a, O: Output>(output: &mut O) -> Result<(), Failure<'a>>
    ensures same { Keeps (O.taken output.old) (O.taken output.new) }
    ensures flushed { OnOk result (O.waiting output.new ≡ []) }
    ensures failed { OnErr result (IsTrue (O.failed output.new)) }
    ensures err { IfErr result (λ failure. failure ≡ Failure.Printing) }
{
    match output.flush() {
        Ok(()) => Ok(()),
        Err(_) => Err(Failure::Printing),
    }
}

/// Begins what is to take the place of the file named `out`.
///
/// # Errors
///
/// [`Failure::out_of_memory`] if an allocation failed.
pub fn begin<'a, S: Store>(store: &S, out: &str) -> Result<S::New, Failure<'a>>
    ensures begun { IfOk result (λ new. IsBegun (S.content store.now out.now) (S.New.taken new)) }
    ensures fresh { IfOk result (λ new. S.New.failed new ≡ false) }
    ensures err { IfErr result (λ failure. failure ≡ Failure.Tool (ToolFault.OutOfMemory 0)) }
{
    match store.begin(out) {
        Ok(new) => Ok(new),
        Err(_) => Err(Failure::out_of_memory()),
    }
}

/// Whether two names are of one file.
///
/// # Errors
///
/// [`Failure::out_of_memory`] if an allocation failed.
pub fn is_one_file<'a, S: Store>(store: &S, first: &str, second: &str) -> Result<bool, Failure<'a>>
    ensures same { first.now ≡ second.now → result ≡ Ok true }
    ensures apart { IsKnown (S.content store.now first.now) → first.now ≢ second.now →
        IfOk result (λ is. is ≡ false) }
    ensures err { IfErr result (λ failure. failure ≡ Failure.Tool (ToolFault.OutOfMemory 0)) }
{
    match store.is_one_file(first, second) {
        Ok(is) => Ok(is),
        Err(_) => Err(Failure::out_of_memory()),
    }
}

/// Prints these bytes.
///
/// # Errors
///
/// [`Failure::Printing`] if the output did not take or pass on all of them.
pub fn print<'a, O: Output>(output: &mut O, bytes: &[u8]) -> Result<(), Failure<'a>>
    ensures ok { OnOk result
        (IsPrinted bytes.now (printed_of O.taken O.failed O.waiting output.old output.new)) }
    ensures err { IfErr result
        (IsUnprinted (printed_of O.taken O.failed O.waiting output.old output.new)) }
{
    let mut text = Text::new(output);
    text.put(bytes);
    let Ok(()) = text.finish() else {
        return Err(Failure::Printing);
    };
    flush(output)
}
