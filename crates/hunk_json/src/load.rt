//! Load files as JSON.

ghost use Rattle.std.specs.Prelude.{◌≡◌};
ghost use Rattle.hunk_base.specs.Text.{Puts};
ghost use Rattle.hunk_json.specs.Document.{document};
ghost use Rattle.hunk_json.specs.FileJson.{hunk_site_json, listed, load_hunk_json, load_json};

use crate::content::write_content;
use crate::document::{WriteHunk, write_comma, write_hunks, write_list};
use crate::escapes::write_string;
use crate::form::JsonForm;
use crate::parts::{kind_word, memory_word, write_hunk_site};
use hunk_loadfile::LoadHunk;
use hunk_words::{Sink, Sites, Text};
use std::alloc::Allocator;

/// Writes what is in a load file with these hunks, as one JSON value in this form: what its listing
/// tells of each hunk, in order. `offsets` are those at which the contents of the hunks begin in the file,
/// in order, for the forms that tell them; 0 is told where one is missing. Does not allocate.
pub fn write_load_json<A: Allocator + Copy, W: Sink>(
    text: &mut Text<'_, W>,
    form: JsonForm,
    offsets: &[u32],
    hunks: &[LoadHunk<A>],
)
    ensures { Puts W.taken W.failed text.old text.new
        (document form (load_json form offsets.now hunks.now)) }
{
    text.put(b"{\"hunks\":");
    write_hunks(text, form, offsets, hunks);
    text.put(b",\"kind\":\"load file\"}");
}

impl<A: Allocator + Copy> WriteHunk for LoadHunk<A> {
    ghost json = { load_hunk_json };

    fn write_hunk<W: Sink>(&self, text: &mut Text<'_, W>, form: JsonForm, offset: u32) {
        text.put(b"{\"debugs\":");
        write_list(text, form, &self.debugs);
        text.put(b",\"kind\":");
        write_string(text, form, kind_word(self.kind));
        text.put(b",\"memory\":");
        write_string(text, form, memory_word(self.memory));
        text.put(b",\"sites\":");
        write_sites(text, form, &self.sites);
        text.put(b",\"size\":");
        text.put_decimal(u64::from(self.size));
        text.put(b",\"stored\":");
        text.put_decimal((self.content.len() / 4) as u64);
        write_content(text, form, offset, &self.content);
        text.put(b",\"symbols\":");
        write_list(text, form, &self.symbols);
        text.put(b"}");
    }
}

/// Writes the sites, by rising offset.
fn write_sites<A: Allocator + Copy, W: Sink>(
    text: &mut Text<'_, W>,
    form: JsonForm,
    sites: &Sites<u32, A>,
)
    ensures { Puts W.taken W.failed text.old text.new
        (document form (listed hunk_site_json sites.now.entries)) }
{
    text.put(b"[");
    let mut later = false;
    for (offset, hunk) in sites.walk() {
        write_comma(text, later);
        write_hunk_site(text, form, offset, *hunk);
        later = true;
    }
    text.put(b"]");
}
