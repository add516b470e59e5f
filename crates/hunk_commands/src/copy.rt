//! The request `copy`: a load file, written again.
ghost use Rattle.std.specs.Prelude.{IfErr, OnErr, OnOk};
ghost use Rattle.hunk_store.specs.Store.{AreUnchanged};
ghost use Rattle.hunk_commands.specs.Copy.{IsCopiedOut, IsCopyFailure};

use crate::devices::begin;
use hunk_store::{Failure, Store, open};
use hunk_tool::{CopyForm, copy_run};
use std::alloc::Global;

/// Reads the load file named `file`, and puts a copy of it, in this form, in the place of the file named
/// `out`: [`copy_run`], over what replaces `out`.
///
/// Nothing is done to `out` before the whole file has been read, so both may be one file. Whatever
/// fails, `out` is what it was, or the whole copy: unless it is a device or a pipe, or its directory
/// takes no new file. Then it is written in place, once the copy is whole in memory.
///
/// # Errors
///
/// - [`Failure::Opening`] with `file` if it cannot be opened, or with `out` if it cannot be created or
///   replaced.
/// - [`Failure::Tool`] with what [`copy_run`] returns, or out of memory.
/// - [`Failure::Printing`] if `out` did not take everything that was written to it.
pub fn copy<'a, S: Store>(
    alloc: Global,
    store: &mut S,
    out: &'a str,
    form: CopyForm,
    file: &'a str,
) -> Result<(), Failure<'a>>
    ensures ok { OnOk result (IsCopiedOut form (S.content store.old) file.entry.now out.entry.now
        (S.content store.new)) }
    ensures err { IfErr result
        (IsCopyFailure form (S.content store.old) file.entry.now out.entry.now) }
    ensures unchanged { OnErr result (AreUnchanged (S.content store.old) (S.content store.new)) }
{
    let mut reader = open(store, file)?;
    let mut new = begin(store, out)?;
    let ran = copy_run(alloc, &mut reader, form, &mut new);
    store.finish(out, new, ran)
}
