//! The request `compare`: whether two load files mean the same.
ghost use Rattle.std.specs.Prelude.{IfErr, IfOk};
ghost use Rattle.hunk_store.specs.Output.{printed_of};
ghost use Rattle.hunk_commands.specs.Compare.{AreCompared, IsCompareFailure};

use crate::devices::flush;
use hunk_store::{Failure, Output, Store, open};
use hunk_tool::compare_run;
use std::alloc::Global;

/// Reads the load files named `first` and `second`, and prints where they first differ in what they mean;
/// nothing if they mean the same. With `with_symbols`, symbols and debug blocks count too. Returns
/// whether nothing differs. Both files are opened before one is read.
///
/// # Errors
///
/// - [`Failure::Opening`] with the first of the two that cannot be opened.
/// - [`Failure::Tool`] with what [`compare_run`] returns.
/// - [`Failure::Printing`] if the output did not pass on all of the line.
pub fn compare<'a, S: Store, O: Output>(
    alloc: Global,
    store: &S,
    output: &mut O,
    with_symbols: bool,
    first: &'a str,
    second: &'a str,
) -> Result<bool, Failure<'a>>
    ensures ok { IfOk result (λ same.
        AreCompared with_symbols same (S.content store.now) first.entry.now second.entry.now
        (printed_of O.taken O.failed O.waiting output.old output.new)) }
    ensures err { IfErr result (IsCompareFailure with_symbols (S.content store.now) first.entry.now
        second.entry.now (printed_of O.taken O.failed O.waiting output.old output.new)) }
{
    let mut one = open(store, first)?;
    let mut other = open(store, second)?;
    let same = compare_run(alloc, &mut one, &mut other, with_symbols, output)?;
    flush(output)?;
    Ok(same)
}
