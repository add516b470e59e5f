//! The files that a request reads, all of which are opened before the first is read.
ghost use Rattle.std.specs.Prelude.{◌≡◌, IfOk, IfErr, map};
ghost use Rattle.std.specs.String.{string_bytes};
ghost use Rattle.hunk_tool.specs.Inputs.{file_names};
ghost use Rattle.hunk_store.specs.Opening.{IsOpening};
ghost use Rattle.hunk_store.specs.Inputs.{AreInputs, IsInput, IsOpenFailure};

use crate::failure::Failure;
use crate::input::Input;
use crate::opening::open;
use crate::store::Store;
use std::alloc::{AllocError, Global};

/// How many regular files stay open until they are read. Those after them are closed at once, and
/// opened again by their first read, since a process can open only so many files at a time.
const MOST_OPEN: usize = 32;

/// Opens the files in order, and returns the inputs that read them. Of the regular files no more than
/// [`MOST_OPEN`] stay open; pipes and devices all do, since they cannot be opened again.
///
/// # Errors
///
/// - [`Failure::Opening`] for the first file that cannot be opened.
/// - [`Failure::out_of_memory`] if an allocation failed.
pub fn open_inputs<'s, 'a, S: Store>(
    alloc: Global,
    store: &'s S,
    files: &[&'a str],
) -> Result<Vec<Input<'s, 'a, S>>, Failure<'a>>
    ensures are { IfOk result (λ inputs. AreInputs S.content S.File.left store.now
        (file_names files.entry.now) inputs.items) }
    ensures err { IfErr result (IsOpenFailure (S.content store.now) (file_names files.entry.now)) }
{
    let mut inputs = Vec::new(alloc);
    for (number, name) in files.iter().enumerate() {
        let input = open_input(store, name, number)?;
        let Ok(()) = inputs.push(input) else {
            return Err(Failure::out_of_memory());
        };
    }
    Ok(inputs)
}

/// Opens the file named `name`, which is that with this number, and returns the input that reads it.
fn open_input<'s, 'a, S: Store>(
    store: &'s S,
    name: &'a str,
    number: usize,
) -> Result<Input<'s, 'a, S>, Failure<'a>>
    ensures is { IfOk result
        (λ input. IsInput S.content S.File.left store.now name.entry.now input) }
    ensures err { IfErr result (IsOpening (S.content store.now) name.entry) }
{
    let file = open(store, name)?;
    let file = if number >= MOST_OPEN && store.can_be_opened_again(&file) {
        None
    } else {
        Some(file)
    };
    Ok(Input::new(store, name, file))
}
