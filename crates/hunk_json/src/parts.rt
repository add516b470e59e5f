//! Names, and what hunks of either kind of file have.

ghost use Rattle.std.specs.Prelude.{◌≡◌};
ghost use Rattle.serde_json.specs.Data.{string};
ghost use Rattle.hunk_base.specs.Text.{Puts};
ghost use Rattle.hunk_json.specs.Document.{document};
ghost use Rattle.hunk_json.specs.FileJson.{debug_json, hunk_site_json, kind_json, memory_json, name_json, natural, symbol_json};
ghost use Rattle.hunk_json.specs.declared.form.JsonForm.TheVariants.{Plain};

use crate::document::{WriteJson, write_list};
use crate::escapes::write_string;
use crate::form::JsonForm;
use hunk_words::{HunkKind, Memory, Name, Sink, Text};
use std::alloc::Allocator;

/// The word for the kind of a hunk.
pub(crate) fn kind_word(kind: HunkKind) -> &'static str
    ensures { string result.now ≡ kind_json kind }
{
    match kind {
        HunkKind::Code => "code",
        HunkKind::Data => "data",
        HunkKind::Bss => "bss",
    }
}

/// The word for the memory that a hunk asks for.
pub(crate) fn memory_word(memory: Memory) -> &'static str
    ensures { string result.now ≡ memory_json memory }
{
    match memory {
        Memory::Any => "any",
        Memory::Chip => "chip",
        Memory::Fast => "fast",
    }
}

/// Writes the bytes of a name as a string where they are UTF-8, and otherwise as an array.
pub(crate) fn write_name<W: Sink>(text: &mut Text<'_, W>, form: JsonForm, name: &[u8])
    ensures { Puts W.taken W.failed text.old text.new (document form (name_json name.now)) }
{
    match std::str::from_utf8(name) {
        Ok(string) => write_string(text, form, string),
        Err(_) => write_list(text, form, name),
    }
}

/// Writes the bytes of a name as one JSON value, with the escapes of [`JsonForm::Plain`]: a string where
/// they are UTF-8, and otherwise an array of numbers. It does not allocate.
pub fn write_name_json<W: Sink>(text: &mut Text<'_, W>, name: &[u8])
    ensures { Puts W.taken W.failed text.old text.new (document Plain (name_json name.now)) }
{
    write_name(text, JsonForm::Plain, name);
}

/// Writes a site to which the base of a hunk is added.
pub(crate) fn write_hunk_site<W: Sink>(
    text: &mut Text<'_, W>,
    form: JsonForm,
    offset: u32,
    hunk: u32,
)
    ensures { Puts W.taken W.failed text.old text.new
        (document form (hunk_site_json (offset, hunk))) }
{
    text.put(b"{\"hunk\":");
    text.put_decimal(u64::from(hunk));
    text.put(b",\"offset\":");
    text.put_decimal(u64::from(offset));
    text.put(b"}");
}

impl WriteJson for u8 {
    ghost json = { λ form. natural };

    fn write_json<W: Sink>(&self, text: &mut Text<'_, W>, form: JsonForm) {
        text.put_decimal(u64::from(*self));
    }
}

impl<A: Allocator + Copy> WriteJson for (Name<A>, u32) {
    ghost json = { λ form. symbol_json };

    fn write_json<W: Sink>(&self, text: &mut Text<'_, W>, form: JsonForm) {
        text.put(b"{\"name\":");
        write_name(text, form, self.0.bytes());
        text.put(b",\"value\":");
        text.put_decimal(u64::from(self.1));
        text.put(b"}");
    }
}

impl<A: Allocator + Copy> WriteJson for Vec<u32, A> {
    ghost json = { λ form words. debug_json words.items };

    fn write_json<W: Sink>(&self, text: &mut Text<'_, W>, form: JsonForm) {
        text.put_decimal(self.len() as u64);
    }
}
