//! Where bytes are.
ghost use denote.RawPtr.{InBlock};

/// Where there are no bytes: a place that stays, while an empty slice may be of a stack frame that is
/// gone.
static NO_BYTES: [u8; 1] = [0];

/// Bytes of a session, for C. They stay there until the handle is closed.
#[repr(C)]
#[derive(Drop)]
pub struct Span {
    /// Where they begin. It is never null, even if there are none.
    pub bytes: *const u8,
    /// Their number.
    pub size: u64,
}

impl Span {
    ghost use Rattle.amihunk_c.specs.Spans.{IsSpanOf};

    /// Where these bytes are.
    pub(crate) fn of(bytes: &[u8]) -> Span
        ensures { IsSpanOf bytes.now result }
    {
        let size = bytes.len() as u64;
        let bytes = if size == 0 { &NO_BYTES } else { bytes };
        Span {
            bytes: start_of(bytes),
            size,
        }
    }
}

/// Where a slice begins.
fn start_of(bytes: &[u8]) -> *const u8
    ensures { InBlock result }
{
    bytes.as_ptr()
}
