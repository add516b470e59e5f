//! The digest of what a load file means.

ghost use Rattle.std.specs.Prelude.{◌≡◌, IfOk};
ghost use Rattle.hunk_survey.specs.Digest.{digest_of};

use hunk_loadfile::{LoadFile, LoadForm, written_bytes};
use sha2::{Digest as _, Sha256};
use std::alloc::{AllocError, Allocator};

/// A SHA-256 digest.
pub type Digest = [u8; 32];

/// The SHA-256 digest of the load file in its normal form, byte for byte as
/// [`CopyForm::Normal`](hunk_tool::CopyForm::Normal) writes it. It depends on nothing but what the
/// file means: symbols, debug blocks and zeros at the end of contents do not change it.
///
/// It keeps the bytes of the normal form while it makes the digest.
///
/// # Errors
///
/// [`AllocError`] if an allocation failed.
pub fn normal_digest<A: Allocator + Copy>(alloc: A, file: LoadFile<A>) -> Result<Digest, AllocError>
    ensures { IfOk result (λ digest. digest ≡ digest_of file) }
{
    let bytes = written_bytes(alloc, &file.normal_form(), LoadForm::Plain)?;
    Ok(Sha256::digest(bytes.as_slice()))
}
