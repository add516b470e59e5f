//! The image of a load file that a reader has, at given addresses.

ghost use Rattle.std.specs.Prelude.{◌≡◌, IfOk, IfErr, IsTrue, OnOk};
ghost use Rattle.hunk_base.specs.Streams.{HasRead};
ghost use Rattle.hunk_loader.specs.ImageLoader.{LoadsAs};
ghost use Rattle.hunk_loader.specs.ImageReader.{image_fault, IsImageFault};
ghost use Rattle.hunk_loader.specs.declared.image_reader.ImageFault.TheVariants.{Refused};
ghost use Rattle.hunk_loader.specs.declared.loading.LoadRefusal.TheVariants.{OutOfMemory};

use crate::image::Image;
use crate::image_loader::ImageLoader;
use crate::loading::LoadRefusal;
use hunk_words::{ReadFault, Source, read_all};
use std::alloc::{AllocError, Allocator};

/// Why the image of a reader's load file was not made.
#[derive(Clone, Copy, Debug, PartialEq, Eq)]
pub enum ImageFault {
    /// The bytes or the addresses were refused, or an allocation failed.
    Refused(LoadRefusal),
    /// A read failed.
    Device,
}

impl From<AllocError> for ImageFault {
    ghost from_gives = { λ _ fault. fault ≡ Refused OutOfMemory };

    fn from(_failure: AllocError) -> ImageFault {
        ImageFault::Refused(LoadRefusal::OutOfMemory)
    }
}

impl From<LoadRefusal> for ImageFault {
    ghost from_gives = { λ refusal fault. fault ≡ Refused refusal };

    fn from(refusal: LoadRefusal) -> ImageFault {
        ImageFault::Refused(refusal)
    }
}

impl From<ReadFault> for ImageFault {
    ghost from_gives = { λ read fault. fault ≡ image_fault read };

    fn from(fault: ReadFault) -> ImageFault {
        match fault {
            ReadFault::Refused(refusal) => ImageFault::Refused(LoadRefusal::from(refusal)),
            ReadFault::Device => ImageFault::Device,
        }
    }
}

/// Reads to the end of `reader`, and returns the image of the load file that its bytes are at
/// these bases, which are addresses, one for each hunk. It does not keep the file.
///
/// # Errors
///
/// - [`ImageFault::Refused`] with [`LoadRefusal::File`] for the first offence of the bytes read, as
///   [`ImageLoader`] returns it; where the file ends too early, only where the reader ended.
/// - [`ImageFault::Refused`] with [`LoadRefusal::Place`] only where the reader ended, as
///   [`check_places`](crate::check_places) returns it for the sizes of the hunks.
/// - [`ImageFault::Refused`] with [`LoadRefusal::OutOfMemory`] where an allocation failed.
/// - [`ImageFault::Device`] only where a read failed.
pub fn read_image<A: Allocator + Copy, R: Source>(
    alloc: A,
    reader: &mut R,
    bases: &[u32],
) -> Result<Image<A>, ImageFault>
    ensures image { IfOk result (λ image. HasRead (R.left reader.old) (R.left reader.new)
        (λ bytes. LoadsAs bases.now bytes image)) }
    ensures ended { OnOk result (IsTrue (R.ended reader.new)) }
    ensures refused { IfErr result (IsImageFault bases.now (R.left reader.old) (R.left reader.new)
        (R.failed reader.new) (R.ended reader.new)) }
{
    let mut loader = ImageLoader::new(alloc, bases)?;
    read_all(reader, &mut loader)?;
    Ok(loader.finish()?)
}
