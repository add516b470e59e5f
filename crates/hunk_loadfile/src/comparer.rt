//! How a load file compares with a first one, while its bytes come.

ghost use Rattle.std.specs.Prelude.{◌≡◌, ◌≤◌, ◌*◌, ◌++◌, ◌∷◌, [], ℕ, List, IfOk, IfErr, OnOk, IsTrue, MatchResult, length};
ghost use Rattle.hunk_base.specs.Name.{bytes_of};
ghost use Rattle.hunk_base.specs.Streams.{HasRead};
ghost use Rattle.hunk_words.specs.Decoder.{RefusesRead};
ghost use Rattle.hunk_words.specs.EventValue.{EventValue};
ghost use Rattle.hunk_words.specs.SiteContext.{SiteContext};
ghost use Rattle.hunk_words.specs.Taker.{JudgesNone};
ghost use Rattle.hunk_words.specs.ValueDecoder.{TellsBytes};
ghost use Rattle.hunk_words.specs.declared.event.Event.{Event};
ghost use Rattle.hunk_words.specs.declared.event.FileKind.TheVariants.{Load};
ghost use Rattle.hunk_loadfile.specs.Comparer.{content_at};
ghost use Rattle.hunk_loadfile.specs.Comparison.{HasFound, IsComparedWith};
ghost use Rattle.hunk_loadfile.specs.ContentComparer.{Follows};
ghost use Rattle.hunk_loadfile.specs.Difference.{with_bytes};
ghost use Rattle.hunk_loadfile.specs.HunkBuilder.{with_content};
ghost use Rattle.hunk_loadfile.specs.LoadHunk.{FileHunk};
ghost use Rattle.hunk_loadfile.specs.Rules.{IsLoadFile};

use crate::comparison::Comparison;
use crate::content_comparer::ContentComparer;
use crate::difference::Difference;
use crate::hunk_builder::HunkBuilder;
use crate::load_file::LoadFile;
use crate::load_hunk::LoadHunk;
use hunk_base::longwords::big_endian;
use hunk_words::{Decoder, Event, FileKind, ReadFault, SiteRefusal, Source, Taker, read_all};
use std::alloc::{AllocError, Allocator};

/// Compares a load file, whose events it takes, with a first one. Of the file it keeps the sizes in the
/// header and, of the current hunk, the sites, the symbols and the debug blocks; no content. An error
/// leaves it as it was.
#[derive(Drop)]
struct Comparer<A: Allocator + Copy> {
    first: LoadFile<A>,
    // the current hunk without its content
    current: HunkBuilder<A>,
    content: ContentComparer,
    // of the hunks that have ended
    found: Comparison<A>,
}

/// The content of the hunk with this number, empty if there is none.
fn content_at<A: Allocator + Copy>(file: &LoadFile<A>, number: usize) -> &[u8]
    ensures { result.now ≡ content_at file.now number }
{
    match file.hunks().get(number) {
        Some(hunk) => &hunk.content,
        None => &[],
    }
}

impl<A: Allocator + Copy> Comparer<A> {
    ghost use Rattle.hunk_loadfile.specs.Comparer.{Compares, StandsFor, Steps};

    /// It has taken no event. Does not allocate.
    fn new(alloc: A, first: LoadFile<A>) -> Self
        ensures stands { StandsFor result [] }
        ensures first { result.first ≡ first }
        ensures valid { IsLoadFile first }
    {
        // This tells the proof that the file keeps the rules of one.
        let _ = first.hunks();
        Comparer {
            first,
            current: HunkBuilder::new(alloc),
            content: ContentComparer::new(),
            found: Comparison::new(),
        }
    }

    /// Takes the next bytes of the content.
    fn take_content(&mut self, bytes: &[u8]) -> Result<(), AllocError>
        ensures compares { (told : EventValue) (watch : SiteContext) (ws : List ℕ) →
            Compares self.old told watch → bytes.now ≡ bytes_of ws → MatchResult result (λ done.
            Compares self.new (with_content told ws) watch) (λ e. Compares self.new told watch) }
        ensures first { self.new.first ≡ self.old.first }
    {
        let content = content_at(&self.first, self.current.ended());
        self.content.take(content, bytes)
    }

    fn add_word(&mut self, word: u32) -> Result<(), AllocError>
        ensures steps { Steps self.old self.new result (Event.Word word) }
        ensures first { self.new.first ≡ self.old.first }
    {
        if self.current.takes_content() {
            self.take_content(&big_endian(word))
        } else {
            self.current.take(Event::Word(word))
        }
    }

    fn end_hunk(&mut self) -> Result<(), AllocError>
        ensures steps { Steps self.old self.new result Event.HunkEnd }
        ensures first { self.new.first ≡ self.old.first }
    {
        if self.content.count() as u64 > self.current.limit() {
            return Err(AllocError);
        }
        let number = self.current.ended();
        let second = match self.current.end_hunk() {
            Ok(second) => second,
            Err(error) => return Err(error),
        };
        self.compare_hunk(number, second);
        self.content = ContentComparer::new();
        Ok(())
    }

    /// Compares the hunk that has ended, which has this number, with that of the first file. Its content
    /// has come, and is not at hand.
    fn compare_hunk(&mut self, number: usize, second: LoadHunk<A>)
        requires { second.sites.limit ≡ 4 * second.size }
        ensures found { (seconds : List FileHunk) (content : List ℕ) → HasFound self.old.found
            self.old.first seconds → number ≡ length seconds → length content ≤ 4 * second.size →
            Follows self.old.content (content_at self.old.first number) content →
            HasFound self.new.found self.old.first (seconds ++ with_bytes second content ∷ []) }
        ensures rest { self.new ≡ record self.old { found = self.new.found } }
    {
        match self.first.hunks().get(number) {
            Some(first) => {
                let unlike = self.content.end(&first.content);
                self.found.add_hunk(number, first, second, unlike);
            }
            None => {}
        }
    }

    /// Takes an event that is not a site.
    fn add_event(&mut self, event: Event) -> Result<(), AllocError>
        ensures steps { Steps self.old self.new result event }
        ensures no_reference { OnOk result ((offset : ℕ) → event ≡ Event.RefSite offset → ⊥) }
        ensures first { self.new.first ≡ self.old.first }
    {
        match event {
            Event::HunkEnd => self.end_hunk(),
            Event::Word(word) => self.add_word(word),
            _ => self.current.take(event),
        }
    }

    /// The first file, and how the file whose events it has taken compares with it.
    fn finish(self) -> (LoadFile<A>, Comparison<A>)
        ensures compared { (bytes : List ℕ) → TellsBytes Load (StandsFor self) bytes →
            IsComparedWith result.0 result.1 bytes }
        ensures first { result.0 ≡ self.first }
        ensures valid { IsLoadFile self.first }
    {
        let mut found = self.found;
        let (first, second) = (self.first.hunks().len(), self.current.ended());
        if first != second {
            found.difference = Some(Difference::HunkCount { first, second });
        }
        (self.first, found)
    }
}

impl<A: Allocator + Copy> Taker for Comparer<A> {
    ghost use Rattle.hunk_loadfile.specs.Comparer.{StandsFor, words_of};

    ghost stands_for = { λ comparer told. StandsFor comparer told };

    ghost given = { λ comparer. words_of comparer.first };

    ghost KIND = { Load };

    const KIND: FileKind = FileKind::Load;

    fn take(&mut self, event: Event) -> Result<(), SiteRefusal> {
        match event {
            Event::Site { offset, target } => self.current.add_site(offset, target),
            _ => match self.add_event(event) {
                Ok(()) => Ok(()),
                Err(_) => Err(SiteRefusal::OutOfMemory),
            },
        }
    }

    /// Content is most of a file, so the bytes of a run of it are compared at once.
    fn take_words(&mut self, bytes: &[u8]) -> Result<bool, AllocError> {
        if !self.current.takes_content() {
            return Ok(false);
        }
        self.take_content(bytes)?;
        Ok(true)
    }

    fn size_of(&self, hunk: u32) -> u32 {
        self.current.size(hunk as usize)
    }
}

/// Reads to the end of `reader`, and tells how the load file that its bytes are compares with `first`, which
/// is handed back.
///
/// It keeps no content of that file, and of one hunk at a time the sites, the symbols and the debug blocks.
///
/// # Errors
///
/// Those of [`read_load`](crate::read_load).
pub fn read_comparison<R: Source, A: Allocator + Copy>(
    alloc: A,
    first: LoadFile<A>,
    reader: &mut R,
) -> Result<(LoadFile<A>, Comparison<A>), ReadFault>
    ensures compared { IfOk result
        (λ both. HasRead (R.left reader.old) (R.left reader.new) (IsComparedWith both.0 both.1)) }
    ensures first { IfOk result (λ both. both.0 ≡ first) }
    ensures ended { OnOk result (IsTrue (R.ended reader.new)) }
    ensures refused { IfErr result (RefusesRead Load (R.left reader.old) (R.left reader.new)
        (R.ended reader.new) (R.failed reader.new)) }
{
    let mut decoder = Decoder::new(Comparer::new(alloc, first));
    read_all(reader, &mut decoder)?;
    Ok(decoder.finish()?.finish())
}
