//! The stored bytes of a hunk, in base64, and where they stand in the file.

ghost use Rattle.std.specs.Prelude.{◌≤◌, length};
ghost use Rattle.base64.specs.Engines.{standard};
ghost use Rattle.base64.specs.GeneralPurpose.{encode_of};
ghost use Rattle.hunk_base.specs.Text.{Puts};
ghost use Rattle.hunk_json.specs.Document.{further_members};
ghost use Rattle.hunk_json.specs.FileJson.{content_members};

use crate::form::JsonForm;
use base64::engine::general_purpose::STANDARD;
use hunk_words::{Sink, Text};

/// How many bytes are encoded at once: a multiple of three, so that only the last piece is padded.
const PIECE: usize = 192;

/// How many symbols stand for a piece.
const PIECE_SYMBOLS: usize = PIECE / 3 * 4;

/// Writes the members with the stored bytes of a hunk and the offset at which they begin in the file,
/// in the forms that have them, behind the members before them.
pub(crate) fn write_content<W: Sink>(
    text: &mut Text<'_, W>,
    form: JsonForm,
    offset: u32,
    content: &[u8],
)
    ensures { Puts W.taken W.failed text.old text.new
        (further_members form (content_members form offset content.now)) }
{
    match form {
        JsonForm::Plain => {}
        JsonForm::WithContent | JsonForm::InPage => {
            text.put(b",\"content\":\"");
            write_base64(text, content);
            text.put(b"\",\"content_offset\":");
            text.put_decimal(u64::from(offset));
        }
    }
}

/// Writes these bytes in base64.
fn write_base64<W: Sink>(text: &mut Text<'_, W>, bytes: &[u8])
    ensures { Puts W.taken W.failed text.old text.new (encode_of standard bytes.now) }
{
    for piece in bytes.chunks(PIECE) {
        write_piece(text, piece);
    }
}

/// Writes a piece in base64.
fn write_piece<W: Sink>(text: &mut Text<'_, W>, piece: &[u8])
    requires { length piece.now ≤ 192 }
    ensures { Puts W.taken W.failed text.old text.new (encode_of standard piece.now) }
{
    let mut symbols = [0; PIECE_SYMBOLS];
    // There is room for the symbols of a piece, so this can't fail.
    let count = STANDARD.encode_slice(piece, &mut symbols).unwrap_or(0);
    text.put(&symbols[..count]);
}
