//! The names of the files of a request, as texts of their own.
ghost use Rattle.std.specs.Prelude.{◌≡◌, IfOk, map};
ghost use Rattle.std.specs.String.{string_bytes};
ghost use Rattle.hunk_tool.specs.Inputs.{file_names};

use std::alloc::{AllocError, Global};

/// Copies of the names of files.
pub(crate) fn names_of(alloc: Global, files: &[&str]) -> Result<Vec<String>, AllocError>
    ensures { IfOk result (λ names. map string_bytes names.items ≡ file_names files.now) }
{
    let mut names = Vec::with_capacity(alloc, files.len())?;
    for file in files {
        names.push(String::from_str(alloc, file)?)?;
    }
    Ok(names)
}
