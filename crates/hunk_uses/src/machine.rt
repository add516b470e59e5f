//! A machine that is handed a whole file, and reads its header before it chooses addresses.
ghost use Rattle.std.specs.Prelude.{◌≡◌, IfOk, IfErr};
ghost use Rattle.hunk_loader.specs.HeaderHunks.{told_sizes};
ghost use Rattle.hunk_uses.specs.Emulator.{IsLoadedFrom, bases_from};
ghost use Rattle.hunk_uses.specs.Machine.{AreChosen, IsRejectedFrom};

use hunk_loader::{HeaderHunk, HeaderLoader, Image, LoadRefusal, PlaceRefusal};
use linked_list_allocator::LocalHeap;
use std::alloc::AllocError;

/// Loads a program that is in memory. Its hunks stand one after another, from the address `first`
/// on. All memory comes out of `budget`.
///
/// # Errors
///
/// - [`LoadRefusal::File`] with what is wrong with the file.
/// - [`LoadRefusal::Place`] if its header asks for more addresses than there are from `first` on;
///   what comes after the header is not looked at then.
/// - [`LoadRefusal::OutOfMemory`] if the budget is used up.
pub fn load_from_memory<'b>(
    budget: &'b LocalHeap,
    file: &[u8],
    first: u32,
) -> Result<Image<&'b LocalHeap>, LoadRefusal>
    ensures loaded { IfOk result (λ image. IsLoadedFrom first image file.now) }
    ensures refused { IfErr result (IsRejectedFrom first file.now) }
{
    let mut header = HeaderLoader::new(budget);
    let taken = header.feed(file)?;
    let bases = chosen_bases(budget, first, &header)?;
    let mut loader = match header.place(&bases) {
        Ok(loader) => loader,
        // The file ends in its header.
        Err(PlaceRefusal::HeaderIncomplete) => return Err(header.finish()),
        Err(PlaceRefusal::Place(fault)) => return Err(LoadRefusal::Place(fault)),
        Err(PlaceRefusal::OutOfMemory) => return Err(LoadRefusal::OutOfMemory),
    };
    loader.feed(&file[taken..])?;
    loader.finish()
}

/// Addresses for the hunks of a header; none as long as it is not whole.
fn chosen_bases<'b>(
    budget: &'b LocalHeap,
    first: u32,
    header: &HeaderLoader<&'b LocalHeap>,
) -> Result<Vec<u32, &'b LocalHeap>, AllocError>
    ensures { IfOk result (λ bases. AreChosen first header.now.hunks bases.items) }
{
    match header.hunks() {
        Some(hunks) => bases_for(budget, first, hunks),
        None => Ok(Vec::new(budget)),
    }
}

/// Addresses for these hunks, one after another from `first` on; past the end of memory, its last
/// address.
pub(crate) fn bases_for<'b>(
    budget: &'b LocalHeap,
    first: u32,
    hunks: &[HeaderHunk],
) -> Result<Vec<u32, &'b LocalHeap>, AllocError>
    ensures { IfOk result (λ bases. bases.items ≡ bases_from first (told_sizes hunks.now)) }
{
    let mut bases = Vec::with_capacity(budget, hunks.len())?;
    let mut free = first;
    for hunk in hunks {
        bases.push_reserved(free);
        free = free.saturating_add(hunk.size.saturating_mul(4));
    }
    Ok(bases)
}
