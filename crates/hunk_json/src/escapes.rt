//! JSON strings in which every character is escaped that a terminal or a page would obey.

ghost use Rattle.std.specs.Prelude.{◌≡◌, ◌<◌, ◌^◌, MatchOption};
ghost use Rattle.std.specs.Char.{encode_utf8};
ghost use Rattle.json.specs.Print.{escape, escape_byte, escape_letter, quoted};
ghost use Rattle.hunk_base.specs.Text.{Puts};
ghost use Rattle.hunk_json.specs.Escapes.{begins_tag, is_escaped, is_late_control, turns_text, unicode_escape, with_escapes};

use crate::form::JsonForm;
use hunk_words::{Sink, Text};

/// Writes a text as a JSON string.
pub(crate) fn write_string<W: Sink>(text: &mut Text<'_, W>, form: JsonForm, string: &str)
    ensures { Puts W.taken W.failed text.old text.new (with_escapes form (quoted string.now)) }
{
    text.put(b"\"");
    write_characters(text, form, string);
    text.put(b"\"");
}

/// Writes the characters of a text as they stand in a JSON string.
fn write_characters<W: Sink>(text: &mut Text<'_, W>, form: JsonForm, string: &str)
    ensures { Puts W.taken W.failed text.old text.new (with_escapes form (escape string.now)) }
{
    for character in string.chars() {
        write_character(text, form, character);
    }
}

/// Writes a character as it stands in a JSON string.
fn write_character<W: Sink>(text: &mut Text<'_, W>, form: JsonForm, character: char)
    ensures { Puts W.taken W.failed text.old text.new
        (with_escapes form (escape (encode_utf8 character))) }
{
    match short_escape(character) {
        Some(escape) => text.put(escape),
        None if character < ' ' || is_escaped(form, character) => {
            write_unicode_escape(text, character as u32 as u16);
        }
        None => {
            let mut bytes = [0; 4];
            text.put(character.encode_utf8(&mut bytes).as_bytes());
        }
    }
}

/// The escape of a character for which JSON has one of two characters.
#[tactic(auto, unfolding(json::specs::Print::escape_byte))]
fn short_escape(character: char) -> Option<&'static [u8]>
    ensures { MatchOption result (escape_letter character ≡ 0)
        (λ escape. (0 < escape_letter character) × (escape.now ≡ escape_byte character)) }
{
    match character {
        '"' => Some(b"\\\""),
        '\\' => Some(b"\\\\"),
        '\u{8}' => Some(b"\\b"),
        '\t' => Some(b"\\t"),
        '\n' => Some(b"\\n"),
        '\u{c}' => Some(b"\\f"),
        '\r' => Some(b"\\r"),
        _ => None,
    }
}

/// Whether a character is escaped that JSON lets stand for itself.
fn is_escaped(form: JsonForm, character: char) -> bool
    ensures { result ≡ is_escaped form character }
{
    is_late_control(character) || turns_text(character) || begins_tag(form, character)
}

/// Whether it is a control character that JSON lets stand for itself. A terminal obeys it.
fn is_late_control(character: char) -> bool
    ensures { result ≡ is_late_control character }
{
    matches!(character, '\u{7f}'..='\u{9f}')
}

/// Whether it turns the direction of the text around it.
fn turns_text(character: char) -> bool
    ensures { result ≡ turns_text character }
{
    matches!(
        character,
        '\u{61c}' | '\u{200e}'..='\u{200f}' | '\u{202a}'..='\u{202e}' | '\u{2066}'..='\u{2069}'
    )
}

/// Whether it begins a tag in a page that the document stands in.
fn begins_tag(form: JsonForm, character: char) -> bool
    ensures { result ≡ begins_tag form character }
{
    match form {
        JsonForm::InPage => character == '<',
        JsonForm::Plain | JsonForm::WithContent => false,
    }
}

/// Writes a backslash, a `u` and four hexadecimal digits.
fn write_unicode_escape<W: Sink>(text: &mut Text<'_, W>, character: u16)
    ensures { Puts W.taken W.failed text.old text.new (unicode_escape character) }
{
    let mut digits = [0; 4];
    // There are two places for each byte, so this can't fail.
    let _ = hex::encode_to_slice(character.to_be_bytes(), &mut digits);
    text.put(b"\\u");
    text.put(&digits);
}
