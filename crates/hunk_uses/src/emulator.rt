//! An emulator that loads a program from its disk, inside a budget of memory.
ghost use Rattle.std.specs.Prelude.{IfOk, IfErr, IsTrue, OnOk};
ghost use Rattle.hunk_base.specs.Streams.{HasRead};
ghost use Rattle.hunk_uses.specs.Emulator.{IsLoadedFrom, IsNotLoadedFrom};

use crate::boot::Boot;
use hunk_loader::{Image, ImageFault};
use hunk_words::{Source, read_all};
use linked_list_allocator::LocalHeap;

/// Loads the program on a disk, which is read to its end, in pieces of the disk's choice. The hunks
/// stand one after another, from the address `first` on. All memory comes out of `budget`.
///
/// # Errors
///
/// - [`ImageFault::Refused`] with what is wrong with the file, or else with the addresses; with
///   `OutOfMemory` if the budget is used up.
/// - [`ImageFault::Device`] if a read failed.
pub fn load_program<'b, D: Source>(
    budget: &'b LocalHeap,
    disk: &mut D,
    first: u32,
) -> Result<Image<&'b LocalHeap>, ImageFault>
    ensures loaded { IfOk result
        (λ image. HasRead (D.left disk.old) (D.left disk.new) (IsLoadedFrom first image)) }
    ensures ended { OnOk result (IsTrue (D.ended disk.new)) }
    ensures refused { IfErr result (IsNotLoadedFrom first (D.left disk.old) (D.left disk.new)
        (D.ended disk.new) (D.failed disk.new)) }
{
    let mut boot = Boot::new(budget, first);
    read_all(disk, &mut boot)?;
    Ok(boot.finish()?)
}
