//! Loading a load file at given addresses.

ghost use Rattle.std.specs.Prelude.{◌≡◌, ◌≢◌, ◌↔◌, ◌*◌, ◌<◌, ◌≤◌, length, slice_index, IfOk, IsOk};
ghost use Rattle.std.specs.List.{All};
ghost use Rattle.hunk_base.specs.Sites.{AreApart};
ghost use Rattle.hunk_loadfile.specs.Patching.{patched_bytes};
ghost use Rattle.hunk_loadfile.specs.Rules.{IsLoadHunk};
ghost use Rattle.hunk_loader.specs.Image.{hunks_of};
ghost use Rattle.hunk_loader.specs.Loading.{load_refusal, loaded, loaded_bytes};
ghost use Rattle.hunk_loader.specs.Places.{Placed, IsFirstRefusal};
ghost use Rattle.hunk_loader.specs.Sizes.{sizes_of};

use crate::image::Image;
use crate::overlaps::check_sizes_with;
use crate::places::PlaceFault;
use hunk_loadfile::{LoadFile, LoadHunk, patch};
use hunk_words::{Fault, Refusal, Sites};
use std::alloc::{AllocError, Allocator};

/// Why a load file is not loaded.
#[derive(Clone, Copy, Debug, PartialEq, Eq)]
pub enum LoadRefusal {
    /// The bytes that were read are not a load file.
    File(Fault),
    /// The hunks cannot be placed at the addresses.
    Place(PlaceFault),
    /// An allocation failed.
    OutOfMemory,
}

impl From<Refusal> for LoadRefusal {
    ghost from_gives = { λ refusal answer. answer ≡ load_refusal refusal };

    fn from(refusal: Refusal) -> LoadRefusal {
        match refusal {
            Refusal::Fault(fault) => LoadRefusal::File(fault),
            Refusal::OutOfMemory => LoadRefusal::OutOfMemory,
        }
    }
}

impl From<AllocError> for LoadRefusal {
    ghost use Rattle.hunk_loader.specs.declared.loading.LoadRefusal.{LoadRefusal};

    ghost from_gives = { λ _ refusal. refusal ≡ LoadRefusal.OutOfMemory };

    fn from(_failure: AllocError) -> LoadRefusal {
        LoadRefusal::OutOfMemory
    }
}

/// Loads a load file: the content of each hunk stands at its base, zeros behind it up to the size,
/// and the base of a hunk is added to the longword at each site that names it, modulo 2^32
/// (The AmigaDOS Manual, 3rd edition, "Amiga binary file structure"). [`load_file`] moves the
/// content into the image instead of copying it.
///
/// It allocates for the image only if the hunks can be placed at the bases, and before that as
/// [`check_places_with`](crate::check_places_with) does.
///
/// # Errors
///
/// - [`LoadRefusal::Place`] exactly if [`check_places`](crate::check_places) returns that fault for
///   the sizes of the hunks.
/// - [`LoadRefusal::OutOfMemory`] only if an allocation failed.
///
/// [`LoadRefusal::File`] is never returned here.
pub fn load<A: Allocator + Copy>(
    alloc: A,
    file: &LoadFile<A>,
    bases: &[u32],
) -> Result<Image<A>, LoadRefusal>
    ensures image { IfOk result (λ image. image ≡ loaded file.now bases.now) }
    ensures placed { IsOk result → Placed (sizes_of file.now) bases.now }
    ensures refused { (fault : PlaceFault) → (result ≡ Err (LoadRefusal.Place fault))
        ↔ IsFirstRefusal (sizes_of file.now) bases.now fault }
    ensures read { (fault : Fault) → result ≢ Err (LoadRefusal.File fault) }
{
    let hunks = file.hunks();
    if let Err(fault) = check_sizes_with(alloc, &hunks, bases) {
        return Err(LoadRefusal::Place(fault));
    }
    match copied_hunks(alloc, hunks, bases) {
        Ok(made) => Ok(Image::of_hunks(made)),
        Err(_) => Err(LoadRefusal::OutOfMemory),
    }
}

/// Loads a load file as [`load`] does, and moves its content into the image.
///
/// # Errors
///
/// Those of [`load`].
pub fn load_file<A: Allocator + Copy>(
    alloc: A,
    file: LoadFile<A>,
    bases: &[u32],
) -> Result<Image<A>, LoadRefusal>
    ensures image { IfOk result (λ image. image ≡ loaded file bases.now) }
    ensures placed { IsOk result → Placed (sizes_of file) bases.now }
    ensures refused { (fault : PlaceFault) → (result ≡ Err (LoadRefusal.Place fault))
        ↔ IsFirstRefusal (sizes_of file) bases.now fault }
    ensures read { (fault : Fault) → result ≢ Err (LoadRefusal.File fault) }
{
    if let Err(fault) = check_sizes_with(alloc, &file.hunks(), bases) {
        return Err(LoadRefusal::Place(fault));
    }
    match moved_hunks(alloc, file.into_hunks(), bases) {
        Ok(made) => Ok(Image::of_hunks(made)),
        Err(_) => Err(LoadRefusal::OutOfMemory),
    }
}

/// The base and the bytes of each hunk, in order, with copies of the content.
fn copied_hunks<A: Allocator + Copy>(
    alloc: A,
    hunks: &[LoadHunk<A>],
    bases: &[u32],
) -> Result<Vec<(u32, Vec<u8, A>), A>, AllocError>
    requires counted { length hunks.now ≡ length bases.now }
    requires valid { All (IsLoadHunk (length bases.now)) hunks.now }
    ensures { IfOk result (λ made. hunks_of made.items ≡ loaded hunks.now bases.now) }
{
    let mut made = Vec::with_capacity(alloc, hunks.len())?;
    for (number, hunk) in hunks.iter().enumerate() {
        let bytes = copied_bytes(alloc, hunk, bases)?;
        made.push_reserved((bases[number], bytes));
    }
    Ok(made)
}

/// The base and the bytes of each hunk, in order, with the content itself.
fn moved_hunks<A: Allocator + Copy>(
    alloc: A,
    hunks: Vec<LoadHunk<A>, A>,
    bases: &[u32],
) -> Result<Vec<(u32, Vec<u8, A>), A>, AllocError>
    requires counted { length hunks.items ≡ length bases.now }
    requires valid { All (IsLoadHunk (length bases.now)) hunks.items }
    ensures { IfOk result (λ made. hunks_of made.items ≡ loaded hunks.items bases.now) }
{
    let mut made = Vec::with_capacity(alloc, hunks.len())?;
    for hunk in hunks {
        let base = bases[made.len()];
        let bytes = moved_bytes(hunk, bases)?;
        made.push_reserved((base, bytes));
    }
    Ok(made)
}

/// The bytes of a hunk, with a copy of its content, if the hunks of its file are placed at the bases.
fn copied_bytes<A: Allocator + Copy>(
    alloc: A,
    hunk: &LoadHunk<A>,
    bases: &[u32],
) -> Result<Vec<u8, A>, AllocError>
    requires { IsLoadHunk (length bases.now) hunk.now }
    ensures { IfOk result (λ bytes. bytes.items ≡ loaded_bytes bases.now hunk.now) }
{
    let mut content = Vec::with_capacity(alloc, 4 * hunk.size as usize)?;
    content.extend_from_slice(&hunk.content)?;
    loaded_bytes(content, hunk.size, &hunk.sites, bases)
}

/// The same, with its content itself.
fn moved_bytes<A: Allocator + Copy>(
    hunk: LoadHunk<A>,
    bases: &[u32],
) -> Result<Vec<u8, A>, AllocError>
    requires { IsLoadHunk (length bases.now) hunk }
    ensures { IfOk result (λ bytes. bytes.items ≡ loaded_bytes bases.now hunk) }
{
    let LoadHunk {
        size,
        content,
        sites,
        ..
    } = hunk;
    loaded_bytes(content, size, &sites, bases)
}

/// The bytes of a hunk of `size` longwords with this content and these sites, if the hunks of its
/// file are placed at the bases.
fn loaded_bytes<A: Allocator + Copy>(
    content: Vec<u8, A>,
    size: u32,
    sites: &Sites<u32, A>,
    bases: &[u32],
) -> Result<Vec<u8, A>, AllocError>
    requires fits { length content.items ≤ 4 * size }
    requires inside { sites.now.limit ≡ 4 * size }
    requires apart { AreApart sites.now }
    requires based { All (λ site. site.1 < length bases.now) sites.now.entries }
    ensures { IfOk result (λ bytes. bytes.items ≡ patched_bytes
        (4 * size) content.items sites.now.entries (slice_index bases.now)) }
{
    let mut bytes = content;
    bytes.resize(4 * size as usize, 0)?;
    patch(&mut bytes, sites, bases);
    Ok(bytes)
}
