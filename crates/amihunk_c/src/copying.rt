//! Copying bytes into a buffer of the caller.
ghost use Rattle.std.specs.Prelude.{◌≡◌, length, drop, min};
ghost use Rattle.amihunk_c.specs.Copying.{laid_over};

/// Copies the bytes from `offset` on into the buffer, as many as there are and as fit, and returns
/// their number. The rest of the buffer stays.
pub(crate) fn copy_from(bytes: &[u8], offset: u64, buffer: &mut [u8]) -> u64
    ensures count { result ≡ min (length (drop offset bytes.now)) (length buffer.old) }
    ensures bytes { buffer.new ≡ laid_over (drop offset bytes.now) buffer.old }
{
    let start = bytes.len().min(offset as usize);
    let rest = &bytes[start..];
    let count = rest.len().min(buffer.len());
    buffer[..count].copy_from_slice(&rest[..count]);
    count as u64
}
