//! Laws about the files of a store, each a function without a body.

ghost use Rattle.hunk_commands.specs.Headline.{LoadPrintsTheImage};
ghost use Rattle.hunk_commands.specs.KnownFiles.{NoDeviceFails};

/// The headline, over a store whose files are known: once [`link`](crate::link::link), or
/// [`link_with_map`](crate::link::link_with_map), has ended well, what [`load`](crate::load::load) prints of its OUT at
/// any addresses, in a list or in a file, is what [`image`](crate::image::image) prints of the files at the same
/// addresses, for every choice of options, as a report and as S-records.
pub fn load_prints_the_image()
    ensures { LoadPrintsTheImage }
{}

/// Over a store whose files are known, and an output that has not failed, no request fails for a device: no read and
/// no write is told to have failed, of the FILEs, of a file of addresses, of OUT, of MAP or of the output.
pub fn no_device_fails()
    ensures { NoDeviceFails }
{}
