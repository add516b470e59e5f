//! The line with which the program reports a refusal.
ghost use Rattle.std.specs.Prelude.{◌≡◌, [], ◌∷◌, IfOk};
ghost use Rattle.hunk_tool.specs.FaultLine.{fault_line};
ghost use Rattle.amihunk_c.specs.Texts.{TellsRefusal};

use crate::copying::copy_from;
use crate::session::Session;
use hunk_tool::{ToolFault, write_fault};
use hunk_words::Watched;
use std::alloc::{AllocError, Global};

/// The line, if the input that the fault is about has this name.
fn line(alloc: Global, fault: &ToolFault, file: &[u8]) -> Result<Vec<u8>, AllocError>
    ensures { IfOk result (λ line. line.items ≡ fault_line (file.now ∷ []) fault.now) }
{
    let mut writer = Watched::new(Vec::new(alloc));
    match write_fault(&[file], fault, &mut writer) {
        Ok(()) => Ok(writer.into_inner()),
        Err(_) => Err(AllocError),
    }
}

/// Copies the line of the refusal that the session keeps into the buffer, and returns its length.
pub(crate) fn copy_line(alloc: Global, session: &Session, file: &[u8], buffer: &mut [u8]) -> u64
    ensures { TellsRefusal file.now session.now buffer.old buffer.new result }
{
    let fault = match session {
        Session::Stopped(refused) => &refused.fault,
        _ => return 0,
    };
    match line(alloc, fault, file) {
        Ok(line) => {
            let _copied = copy_from(&line, 0, buffer);
            line.len() as u64
        }
        Err(_) => 0,
    }
}
