//! A program that is loaded while its file comes, at addresses that its header chooses.
ghost use Rattle.std.specs.Prelude.{◌≡◌, ℕ, List, [], ◌∷◌, ◌++◌, Err, None, IfOk};
ghost use Rattle.hunk_words.specs.Decoder.{RefusesBytes};
ghost use Rattle.hunk_words.specs.declared.event.FileKind.TheVariants.{Load};
ghost use Rattle.hunk_loader.specs.HeaderHunks.{told_sizes};
ghost use Rattle.hunk_loader.specs.ImageLoader.{Fed, refusal_of};
ghost use Rattle.hunk_uses.specs.Boot.{Begins, FrontFed, IsFront, IsToldFrom, IsUnrefused, RefusesFed, StandsFor, Starts};
ghost use Rattle.hunk_uses.specs.Emulator.{bases_from};

use crate::machine::bases_for;
use hunk_loader::{HeaderHunk, HeaderLoader, Image, ImageLoader, LoadRefusal};
use hunk_words::{Feed, Refusal};
use linked_list_allocator::LocalHeap;

/// A header as far as it has come, and its bytes.
#[derive(Drop)]
struct Front<'b> {
    header: HeaderLoader<&'b LocalHeap>,
    bytes: Vec<u8, &'b LocalHeap>,
}

impl<'b> Front<'b> {
    /// Takes the next bytes of the file. Once the header is whole, there is a loader of all bytes.
    fn feed(
        &mut self,
        budget: &'b LocalHeap,
        first: u32,
        piece: &[u8],
    ) -> Result<Option<ImageLoader<&'b LocalHeap>>, LoadRefusal>
        ensures fed { (bytes : List ℕ) → IsFront self.old bytes →
            FrontFed first self.new (bytes ++ piece.now) result }
        ensures none { IfOk result IsUnrefused }
    {
        let taken = self.header.feed(piece)?;
        self.bytes.extend_from_slice(&piece[..taken])?;
        match self.header.hunks() {
            Some(hunks) => {
                let loader = start(budget, first, hunks, &self.bytes, &piece[taken..])?;
                Ok(Some(loader))
            }
            None => Ok(None),
        }
    }
}

/// A loader of the bytes of a file: those of its header, and then these.
fn start<'b>(
    budget: &'b LocalHeap,
    first: u32,
    hunks: &[HeaderHunk],
    header: &[u8],
    more: &[u8],
) -> Result<ImageLoader<&'b LocalHeap>, LoadRefusal>
    ensures starts { Starts (bases_from first (told_sizes hunks.now))
        (header.now ++ more.now) result }
    ensures none { IfOk result (λ loader. refusal_of loader ≡ None) }
{
    let bases = bases_for(budget, first, hunks)?;
    let mut loader = ImageLoader::new(budget, &bases)?;
    // An error is kept, and returned for the bytes that follow.
    let _ = loader.feed(header);
    loader.feed(more)?;
    Ok(loader)
}

/// What is wrong with the bytes of a file.
fn of_file(refusal: LoadRefusal) -> Refusal
    ensures { (bytes : List ℕ) → Fed bytes (Err refusal) → RefusesBytes Load bytes result }
{
    match refusal {
        LoadRefusal::File(fault) => Refusal::Fault(fault),
        // The addresses are not looked at before the end.
        LoadRefusal::OutOfMemory | LoadRefusal::Place(_) => Refusal::OutOfMemory,
    }
}

/// How far a file has come.
#[derive(Drop)]
enum Stage<'b> {
    /// Its header is not whole.
    Header(Front<'b>),
    /// It is loaded at addresses that its header chose, even if its hunks cannot stand there: what
    /// is wrong with the file is told first.
    Loading(ImageLoader<&'b LocalHeap>),
    /// It was refused before it had addresses.
    Refused(Refusal),
}

/// Loads a program while its file comes. Its hunks stand one after another, from the address
/// `first` on.
#[derive(Drop)]
pub(crate) struct Boot<'b> {
    budget: &'b LocalHeap,
    first: u32,
    stage: Stage<'b>,
}

impl<'b> Boot<'b> {
    /// Before the first byte. All memory comes out of `budget`.
    pub(crate) fn new(budget: &'b LocalHeap, first: u32) -> Self
        ensures { Begins first result }
    {
        let header = HeaderLoader::new(budget);
        let bytes = Vec::new(budget);
        Boot {
            budget,
            first,
            stage: Stage::Header(Front { header, bytes }),
        }
    }

    /// The image of the whole file.
    ///
    /// # Errors
    ///
    /// What is wrong with the file, or else with the addresses; or an error of an earlier call.
    pub(crate) fn finish(self) -> Result<Image<&'b LocalHeap>, LoadRefusal>
        ensures { (bytes : List ℕ) → StandsFor self.entry bytes →
            IsToldFrom self.entry.first bytes result }
    {
        match self.stage {
            Stage::Header(front) => Err(front.header.finish()),
            Stage::Loading(loader) => loader.finish(),
            Stage::Refused(refusal) => Err(LoadRefusal::from(refusal)),
        }
    }
}

impl<'b> Feed for Boot<'b> {
    ghost stands_for = { λ boot bytes. StandsFor boot bytes };

    ghost refused = { λ boot refusal. RefusesFed boot refusal };

    ghost given = { λ boot. boot.first ∷ [] };

    fn feed(&mut self, piece: &[u8]) -> Result<(), Refusal> {
        match &mut self.stage {
            Stage::Header(front) => match front.feed(self.budget, self.first, piece) {
                Ok(None) => Ok(()),
                Ok(Some(loader)) => {
                    self.stage = Stage::Loading(loader);
                    Ok(())
                }
                Err(refusal) => {
                    let refusal = of_file(refusal);
                    self.stage = Stage::Refused(refusal);
                    Err(refusal)
                }
            },
            Stage::Loading(loader) => Feed::feed(loader, piece),
            Stage::Refused(refusal) => Err(*refusal),
        }
    }
}
