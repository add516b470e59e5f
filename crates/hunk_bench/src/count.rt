//! A taker that counts and sums words.

ghost use Rattle.std.specs.Prelude.{[]};
ghost use Rattle.hunk_words.specs.declared.event.FileKind.TheVariants.{Object};

use hunk_words::{Event, FileKind, SiteRefusal, Taker};

/// Counts and sums the longwords of names, content and debug blocks of an object file without
/// sites. The sum makes it read each of them.
#[derive(Drop)]
pub struct Count {
    words: u64,
    total: u64,
}

impl Count {
    /// Nothing is counted yet.
    pub fn new() -> Count {
        Count { words: 0, total: 0 }
    }

    /// The sum of the longwords.
    pub fn total(&self) -> u64 {
        self.total
    }

    /// The longwords counted.
    pub fn words(&self) -> u64 {
        self.words
    }
}

impl Taker for Count {
    ghost stands_for = { λ _ _. Unit {0} };

    ghost given = { λ _. [] };

    ghost KIND = { Object };

    const KIND: FileKind = FileKind::Object;

    /// It keeps no sites, so it is out of memory for one.
    #[inline]
    fn take(&mut self, event: Event) -> Result<(), SiteRefusal> {
        match event {
            Event::Word(word) => {
                self.words = self.words.wrapping_add(1);
                self.total = self.total.wrapping_add(u64::from(word));
                Ok(())
            }
            Event::Site { .. } | Event::RefSite(_) => Err(SiteRefusal::OutOfMemory),
            _ => Ok(()),
        }
    }

    fn size_of(&self, _hunk: u32) -> u32 {
        0
    }
}
