//! The written forms of a load file in memory, and their lengths.
ghost use Rattle.std.specs.Prelude.{◌≡◌, length, IfOk};
ghost use Rattle.hunk_base.specs.Name.{bytes_of};
ghost use Rattle.hunk_loadfile.specs.WrittenForm.{written_in};

use crate::load_file::LoadFile;
use crate::load_form::LoadForm;
use crate::load_writer::{write_file, write_load_with};
use hunk_words::{DeviceFault, Sink, Text, Watched};
use std::alloc::{AllocError, Allocator};

/// The number of bytes that [`write_load_with`](crate::write_load_with) writes for this file in this form. It allocates the sites of one hunk
/// at a time.
///
/// # Errors
///
/// [`AllocError`] only if an allocation failed.
pub fn written_length<A: Allocator + Copy>(
    alloc: A,
    file: &LoadFile<A>,
    form: LoadForm,
) -> Result<u64, AllocError>
    ensures { IfOk result (λ count. count ≡ length (bytes_of (written_in form file.now))) }
{
    let mut writer = Discarding;
    let mut text = Text::new(&mut writer);
    match write_file(alloc, &mut text, file, form) {
        Ok(()) => {
            let count = text.written();
            // The writer takes everything, so this can't fail.
            let _ = text.finish();
            Ok(count)
        }
        Err(AllocError) => {
            let _ = text.out_of_memory();
            Err(AllocError)
        }
    }
}

/// The bytes that [`write_load_with`](crate::write_load_with) writes for this file in this form, in one allocation of exactly their number.
///
/// # Errors
///
/// [`AllocError`] only if an allocation failed.
pub fn written_bytes<A: Allocator + Copy>(
    alloc: A,
    file: &LoadFile<A>,
    form: LoadForm,
) -> Result<Vec<u8, A>, AllocError>
    ensures { IfOk result (λ bytes. bytes.items ≡ bytes_of (written_in form file.now)) }
{
    let count = written_length(alloc, file, form)?;
    let mut writer = Watched::new(Vec::with_capacity(alloc, count as usize)?);
    match write_load_with(alloc, file, form, &mut writer) {
        Ok(()) => Ok(writer.into_inner()),
        Err(_) => Err(AllocError),
    }
}

/// A writer that takes everything, and keeps nothing.
#[derive(Drop)]
struct Discarding;

impl Sink for Discarding {
    ghost use Rattle.std.specs.Prelude.{None, false};

    ghost taken = { λ _. None };

    ghost failed = { λ _. false };

    fn write(&mut self, buffer: &[u8]) -> Result<usize, DeviceFault> {
        Ok(buffer.len())
    }

    fn failed(&self) -> bool {
        false
    }
}
