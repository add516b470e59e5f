//! What is known of the longwords before the next one of a file.

ghost use Rattle.std.specs.Prelude.{◌≡◌, ℕ, ◌+◌, ◌<◌, ◌^◌, List, [], ◌∷◌, ◌++◌, ◌&&◌, not, length, slice_index, if◌then◌else◌, OnOk, Option};
ghost use Rattle.byteorder.specs.Endian.{big_bytes};
ghost use Rattle.hunk_words.specs.Kinds.{low};
ghost use Rattle.hunk_words.specs.declared.due.Due.{Due};
ghost use Rattle.hunk_words.specs.declared.kinds.BlockType.{BlockType};
ghost use Rattle.hunk_files.specs.Path.{hunks_ended, types_of};
ghost use Rattle.hunk_lint.specs.Oddity as odd;
ghost use Rattle.hunk_lint.specs.Watch.{HasHunksNamed, IsWatchOf, is_ignored, name_part, part_after, part_from};

use crate::oddity::{counts_none, hunk_named, is_type, low};
use hunk_base::big_endian;
use hunk_words::{BlockType, Due, FileKind, HunkKind};
use std::alloc::{AllocError, Allocator};
use std::collections::BTreeSet;

/// What the bytes of a name are so far.
#[derive(Clone, Copy, Debug)]
enum NamePart {
    /// There is no name here.
    Outside,
    /// None of them is zero.
    Open,
    /// One is zero, and so are those after it.
    Ended,
    /// One after the first zero byte is not zero.
    Ignored,
}

/// What is known of the longwords before the next one, as far as what is odd about it depends on
/// them. Its memory grows with the longwords that have come, and with no number among them.
#[derive(Drop)]
pub(crate) struct Watch<A: Allocator + Copy> {
    /// The block that the last longword began, if it did.
    begun: Option<BlockType>,
    /// The number of the hunk, in its unit or in the load file, from 0.
    hunk: u32,
    /// The name that goes on.
    name: NamePart,
    /// The hunks that the groups so far of a relocation block name.
    named: BTreeSet<u32, A>,
    /// The sizes in a load file's header, in longwords.
    sizes: Vec<u32, A>,
}

/// The block that a longword begins, if it does.
fn block_begun(due: Due, word: u32) -> Option<BlockType>
    ensures { (before : List (Due × ℕ)) → result ≡ odd.begun ((due, word) ∷ before) }
{
    if is_type(due) {
        Some(BlockType::of_longword(word))
    } else {
        None
    }
}

/// The number of the hunk after this block, which may end one or begin a unit.
fn after_block(hunk: u32, block: BlockType) -> u32
    ensures { (types : List BlockType) → hunk < 2 ^ 29 → hunk ≡ hunks_ended types →
        result ≡ hunks_ended (block ∷ types) }
{
    match block {
        BlockType::Unit => 0,
        BlockType::End => hunk.saturating_add(1),
        _ => hunk,
    }
}

/// The number of the hunk after one more longword.
fn hunk_after(hunk: u32, due: Due, word: u32) -> u32
    ensures { (before : List (Due × ℕ)) → length before < 2 ^ 29 → hunk ≡ hunks_ended
        (types_of before) → result ≡ hunks_ended (types_of ((due, word) ∷ before)) }
{
    if is_type(due) {
        after_block(hunk, BlockType::of_longword(word))
    } else {
        hunk
    }
}

/// What a name is after one more byte.
fn part_after(part: NamePart, byte: u8) -> NamePart
    ensures { result ≡ part_after part byte }
{
    match (part, byte) {
        (NamePart::Open, 0) => NamePart::Ended,
        (NamePart::Ended, 1..) => NamePart::Ignored,
        _ => part,
    }
}

/// What a name is after one more longword.
fn part_after_word(part: NamePart, word: u32) -> NamePart
    ensures { result ≡ part_from part (big_bytes 4 word) }
{
    if matches!(part, NamePart::Outside) {
        return part;
    }
    let [first, second, third, fourth] = big_endian(word);
    let half = part_after(part_after(part, first), second);
    part_after(part_after(half, third), fourth)
}

/// The name that goes on after one more longword.
fn name_after(part: NamePart, due: Due, word: u32) -> NamePart
    ensures { (name : Option (List ℕ)) → part ≡ name_part name →
        result ≡ name_part (odd.name_after due word name) }
{
    match due {
        Due::UnitLength | Due::NameLength | Due::SymbolEntry | Due::ExtEntry => NamePart::Open,
        Due::Word => part_after_word(part, word),
        _ => NamePart::Outside,
    }
}

/// Whether bytes of a name are ignored after a longword, and were not before it.
fn becomes_ignored(before: NamePart, after: NamePart) -> bool
    ensures { result ≡ (is_ignored after && not (is_ignored before)) }
{
    match (before, after) {
        (NamePart::Ignored, _) => false,
        (_, NamePart::Ignored) => true,
        _ => false,
    }
}

/// Keeps the size of a hunk in the header.
fn keep_size<A: Allocator>(sizes: &mut Vec<u32, A>, due: Due, word: u32) -> Result<(), AllocError>
    ensures { OnOk result (sizes.new.items ≡ if odd.is_header_size due
        then sizes.old.items ++ low word ∷ [] else sizes.old.items) }
{
    if due == Due::HeaderSize {
        sizes.push(low(word))?;
    }
    Ok(())
}

/// Keeps the hunk that a group of relocations names, until another block begins.
fn keep_hunk<A: Allocator + Copy>(
    named: &mut BTreeSet<u32, A>,
    due: Due,
    word: u32,
) -> Result<(), AllocError>
    ensures { OnOk result ((before : List (Due × ℕ)) → HasHunksNamed named.old before →
        HasHunksNamed named.new ((due, word) ∷ before)) }
{
    if is_type(due) {
        named.clear();
        return Ok(());
    }
    match hunk_named(due, word) {
        Some(hunk) => match named.insert(hunk) {
            Ok(_) => Ok(()),
            Err(_) => Err(AllocError),
        },
        None => Ok(()),
    }
}

impl<A: Allocator + Copy> Watch<A> {
    /// Before the first longword. Does not allocate.
    pub(crate) fn new(alloc: A) -> Self
        ensures { IsWatchOf result [] }
    {
        Watch {
            begun: None,
            hunk: 0,
            name: NamePart::Outside,
            named: BTreeSet::new(alloc),
            sizes: Vec::new(alloc),
        }
    }

    /// Whether a relocation block begins with the count 0.
    pub(crate) fn has_no_offsets(&self, due: Due, word: u32) -> bool
        ensures { (before : List (Due × ℕ)) → IsWatchOf self.now before →
            result ≡ odd.has_no_offsets before (due, word) }
    {
        self.begun.is_some() && counts_none(due, word)
    }

    /// The size of the hunk in the header, in longwords.
    fn size_in_header(&self) -> u32
        ensures { result ≡ slice_index self.now.sizes.items self.now.hunk }
    {
        match self.sizes.get(self.hunk as usize) {
            Some(size) => *size,
            None => 0,
        }
    }

    /// Whether the last longword began a BSS block.
    fn begins_bss(&self) -> bool
        ensures { result ≡ odd.is_bss self.now.begun }
    {
        matches!(self.begun, Some(BlockType::Content(HunkKind::Bss)))
    }

    /// Whether this is the size of a BSS block, and not the size of the hunk in the header.
    pub(crate) fn has_other_size(&self, kind: FileKind, due: Due, word: u32) -> bool
        ensures { (before : List (Due × ℕ)) → IsWatchOf self.now before →
            result ≡ odd.has_other_size kind before (due, word) }
    {
        match kind {
            FileKind::Object => false,
            FileKind::Load => {
                due == Due::ContentSize && self.begins_bss() && low(word) != self.size_in_header()
            }
        }
    }

    /// Whether bytes of a name are ignored that this longword has, and none before it.
    pub(crate) fn ignores_name_bytes(&self, due: Due, word: u32) -> bool
        ensures { (before : List (Due × ℕ)) → IsWatchOf self.now before →
            result ≡ odd.ignores_name_bytes before (due, word) }
    {
        becomes_ignored(self.name, name_after(self.name, due, word))
    }

    /// The hunk of a second group of a relocation block for the same hunk.
    pub(crate) fn named_again(&self, due: Due, word: u32) -> Option<u32>
        ensures { (before : List (Due × ℕ)) → IsWatchOf self.now before →
            result ≡ odd.named_again before (due, word) }
    {
        match hunk_named(due, word) {
            Some(hunk) if self.named.contains(&hunk) => Some(hunk),
            _ => None,
        }
    }

    /// Takes the next longword.
    ///
    /// # Errors
    ///
    /// [`AllocError`] only if an allocation failed; then it stands for nothing.
    pub(crate) fn take(&mut self, due: Due, word: u32) -> Result<(), AllocError>
        ensures { (before : List (Due × ℕ)) → length before < 2 ^ 29 → IsWatchOf self.old before →
            OnOk result (IsWatchOf self.new ((due, word) ∷ before)) }
    {
        keep_size(&mut self.sizes, due, word)?;
        keep_hunk(&mut self.named, due, word)?;
        self.hunk = hunk_after(self.hunk, due, word);
        self.begun = block_begun(due, word);
        self.name = name_after(self.name, due, word);
        Ok(())
    }
}
