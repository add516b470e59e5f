//! Names between double quotes.

ghost use Rattle.std.specs.Prelude.{◌≡◌, ◌+◌, ◌≤◌, ◌++◌, length};
ghost use Rattle.arrayvec.specs.ArrayVec.{array_vec_len};
ghost use Rattle.hunk_base.specs.QuotedName.{escaped, escaped_all, is_plain, quoted};
ghost use Rattle.hunk_base.specs.Text.{Puts};

use crate::streams::Sink;
use crate::text::Text;
use arrayvec::ArrayVec;

/// How many bytes of a name are escaped at once.
const CHUNK: usize = 64;

/// The bytes that stand for one byte of a name are four at most, as in `\xff`.
const MOST_ESCAPED: usize = 4 * CHUNK;

impl<W: Sink> Text<'_, W> {
    /// Puts a name between double quotes at the end of the text.
    ///
    /// Printable ASCII is put as it is, but for the double quote and the backslash. Every other byte
    /// is put as a backslash, an `x` and two lower-case hexadecimal digits.
    pub fn put_quoted(&mut self, name: &[u8])
        ensures { Puts W.taken W.failed self.old self.new (quoted name.now) }
    {
        self.put(b"\"");
        self.put_escaped(name);
        self.put(b"\"");
    }

    /// Puts a name at the end of the text, as it stands between the quotes.
    fn put_escaped(&mut self, name: &[u8])
        ensures { Puts W.taken W.failed self.old self.new (escaped_all name.now) }
    {
        for chunk in name.chunks(CHUNK) {
            self.put(escape(chunk).as_slice());
        }
    }
}

/// What stands for a few bytes of a name.
fn escape(bytes: &[u8]) -> ArrayVec<u8, MOST_ESCAPED>
    requires { length bytes.now ≤ 64 }
    ensures { result.items ≡ escaped_all bytes.now }
{
    let mut block = ArrayVec::new();
    for byte in bytes {
        push_escaped(&mut block, *byte);
    }
    block
}

/// Puts what stands for a byte behind the block.
fn push_escaped(block: &mut ArrayVec<u8, MOST_ESCAPED>, byte: u8)
    requires { array_vec_len block.old + 4 ≤ 256 }
    ensures { block.new.items ≡ block.old.items ++ escaped byte }
{
    if is_plain(byte) {
        block.push(byte);
    } else {
        let mut digits = [0; 2];
        // There are two places for one byte, so this can't fail.
        let _ = hex::encode_to_slice([byte], &mut digits);
        block.push(b'\\');
        block.push(b'x');
        block.push(digits[0]);
        block.push(digits[1]);
    }
}

/// Whether a byte is put as it is.
fn is_plain(byte: u8) -> bool
    ensures { result ≡ is_plain byte }
{
    matches!(byte, b' '..=b'~') && byte != b'"' && byte != b'\\'
}
