//! The current hunk of a reader: its sites, and its content so far.
ghost use Rattle.std.specs.Prelude.{◌≡◌, ◌≢◌, ℕ, ◌<◌, ◌≤◌, ◌↔◌, List, [], ◌∷◌, length, false, OnOk, OnErr, IsTrue, IsFalse, MatchBool};
ghost use Rattle.hunk_words.specs.PartialHunk.{HoldsSites, begun_hunk, filled_hunk, hunk_with_bytes, hunk_with_site, hunk_with_word, initial_hunk};
ghost use Rattle.hunk_base.specs.Sites.{AreApart};
ghost use Rattle.hunk_words.specs.Taker.{JudgesSite};

use hunk_base::longwords::{LONGWORD, big_endian};
use hunk_base::sites::{SiteRefusal, Sites};
use std::alloc::{AllocError, Allocator, Global};
use std::marker::Model;

/// Whether there is a site.
fn has_site<T: Copy, A: Allocator + Copy>(sites: &Sites<T, A>) -> bool
    ensures { MatchBool result (sites.now.entries ≢ []) (sites.now.entries ≡ []) }
{
    sites.walk().next().is_some()
}

/// The current hunk of a reader: its sites, its content so far, and whether the next word is
/// content.
///
/// Every builder that takes the events of a file holds one. The sites lie below a limit in bytes,
/// and the content is no longer than this limit.
#[derive(Drop)]
pub struct PartialHunk<T, A: Allocator + Copy = Global> {
    content: Vec<u8, A>,
    sites: Sites<T, A>,
    in_content: bool,
}

impl<T, A: Allocator + Copy> Model for PartialHunk<T, A> {
    ghost use Rattle.std.specs.Prelude.{◌≤◌, length};
    ghost use Rattle.hunk_words.specs.PartialHunk.{HunkSoFar};

    ghost Value = { HunkSoFar T };

    ghost view = { λ h.
        record { content = h.content.items; sites = h.sites; in_content = h.in_content } };

    ghost invariant = { λ h. length h.content.items ≤ h.sites.limit };
}

impl<T: Copy, A: Allocator + Copy> PartialHunk<T, A> {
    /// A hunk without content and sites, with this limit in bytes. The next word is not content.
    /// Does not allocate.
    pub fn new(alloc: A, limit: u64) -> Self
        ensures { result ≡ initial_hunk limit }
    {
        PartialHunk {
            content: Vec::new(alloc),
            sites: Sites::new(alloc, limit),
            in_content: false,
        }
    }

    /// A hunk whose content begins, with this limit in bytes. Its content is made in this room, whose
    /// bytes are forgotten: none is allocated for it as long as the room has the capacity.
    pub fn in_room(alloc: A, limit: u64, room: Vec<u8, A>) -> Self
        ensures { result ≡ begun_hunk limit }
    {
        let mut content = room;
        content.clear();
        PartialHunk {
            content,
            sites: Sites::new(alloc, limit),
            in_content: true,
        }
    }

    /// Begins the content, and sets the limit in bytes. Does not allocate: the content grows as its
    /// longwords come.
    ///
    /// Returns `false`, and changes nothing, if there already is content or a site. In a file
    /// neither comes before the content begins.
    pub fn begin_content(&mut self, alloc: A, limit: u64) -> bool
        ensures begins { IsTrue result → self.new ≡ begun_hunk limit }
        ensures refused { IsFalse result → self.new ≡ self.old }
        ensures first { IsTrue result ↔ ((self.old.content ≡ []) × (self.old.sites.entries ≡ [])) }
    {
        if !self.content.is_empty() || has_site(&self.sites) {
            return false;
        }
        self.sites = Sites::new(alloc, limit);
        self.in_content = true;
        true
    }

    /// Takes a word, and keeps its four bytes if it is content.
    ///
    /// # Errors
    ///
    /// [`AllocError`] if an allocation failed, or if the content would pass the limit, which the
    /// content of a file never does. An error changes nothing.
    pub fn add_word(&mut self, word: u32) -> Result<(), AllocError>
        ensures adds { OnOk result (self.new ≡ hunk_with_word self.old word) }
        ensures fits { length self.new.content ≤ self.new.sites.limit }
        ensures drops { IsFalse self.old.in_content → result ≡ Ok tt }
        ensures refused { OnErr result (self.new ≡ self.old) }
    {
        self.add_bytes(&big_endian(word))
    }

    /// Takes the bytes of a run of words, and keeps them if they are content.
    ///
    /// # Errors
    ///
    /// [`AllocError`] if an allocation failed, or if the content would pass the limit, which the
    /// content of a file never does. An error changes nothing.
    pub fn add_bytes(&mut self, bytes: &[u8]) -> Result<(), AllocError>
        ensures adds { OnOk result (self.new ≡ hunk_with_bytes self.old bytes.now) }
        ensures fits { length self.new.content ≤ self.new.sites.limit }
        ensures drops { IsFalse self.old.in_content → result ≡ Ok tt }
        ensures refused { OnErr result (self.new ≡ self.old) }
    {
        if !self.in_content {
            return Ok(());
        }
        let room = self.sites.limit() - self.content.len() as u64;
        if bytes.len() as u64 > room {
            return Err(AllocError);
        }
        // The last longword of a run comes by itself, and should not make the content grow once more.
        let wanted = (bytes.len().saturating_add(LONGWORD) as u64).min(room);
        self.content.reserve(wanted as usize)?;
        self.content.extend_from_slice(bytes)
    }

    /// Ends the content: the next word is not content.
    pub fn end_content(&mut self)
        ensures { self.new ≡ record self.old { in_content = false } }
    {
        self.in_content = false;
    }

    /// Adds the site of the four bytes from an offset.
    ///
    /// # Errors
    ///
    /// The errors of [`Sites::try_add`]: [`SiteRefusal::Outside`] if the site passes the limit, else
    /// [`SiteRefusal::Overlap`] if it shares a byte with another one, else
    /// [`SiteRefusal::OutOfMemory`] only if an allocation failed. An error changes nothing.
    pub fn add_site(&mut self, offset: u32, target: T) -> Result<(), SiteRefusal>
        ensures adds { OnOk result (self.new ≡ hunk_with_site self.old offset target) }
        ensures holds { (limit : ℕ) (seen : List ℕ) → HoldsSites limit seen self.old →
            OnOk result (HoldsSites limit (offset ∷ seen) self.new) }
        ensures judges { (limit : ℕ) (seen : List ℕ) → HoldsSites limit seen self.old →
            JudgesSite limit seen offset result }
        ensures apart { AreApart self.old.sites → AreApart self.new.sites }
        ensures refused { OnErr result (self.new ≡ self.old) }
    {
        self.sites.try_add(offset, target)
    }

    /// The limit for the sites and for the content, in bytes.
    pub fn limit(&self) -> u64
        ensures { result ≡ self.now.sites.limit }
    {
        self.sites.limit()
    }

    /// Whether the content ends at the limit.
    pub fn is_full(&self) -> bool
        ensures full { IsTrue result → length self.now.content ≡ self.now.sites.limit }
        ensures short { IsFalse result → length self.now.content < self.now.sites.limit }
        ensures apart { AreApart self.now.sites }
    {
        self.content.len() as u64 == self.sites.limit()
    }

    /// Pads the content with zeros up to the limit, as the hunk is in memory.
    ///
    /// # Errors
    ///
    /// [`AllocError`] only if an allocation failed. An error changes nothing.
    pub fn fill(&mut self) -> Result<(), AllocError>
        ensures fills { OnOk result (self.new ≡ filled_hunk self.old) }
        ensures apart { AreApart self.old.sites }
        ensures fits { length self.old.content ≤ self.old.sites.limit }
        ensures refused { OnErr result (self.new ≡ self.old) }
    {
        self.content.resize(self.sites.limit() as usize, 0)
    }

    /// The content and the sites.
    pub fn into_parts(self) -> (Vec<u8, A>, Sites<T, A>)
        ensures content { result.0.items ≡ self.content }
        ensures sites { result.1 ≡ self.sites }
    {
        (self.content, self.sites)
    }
}
