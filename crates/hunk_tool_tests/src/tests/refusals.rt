//! Addresses that are rejected, after what is wrong with the file.

use super::files::loads_to;
use hunk_loader::PlaceFault;
use hunk_test_support::{BASE, FILE, bytes_of};
use hunk_tool::ToolFault;
use hunk_words::{Fault, Reason};
use std::test::Fail;

/// Addresses of the file, and why they are rejected.
static REJECTED: [(&[u32], PlaceFault); 3] = [
    (&[0xFFFF_FFFE], PlaceFault::PastEnd(0)),
    (&[], PlaceFault::WrongCount),
    (&[BASE, BASE], PlaceFault::WrongCount),
];

#[test]
fn refuses_places(rt: HostRuntime) -> Result<(), Fail> {
    let bytes = bytes_of(rt.alloc(), &FILE, &[])?;
    for &(bases, fault) in &REJECTED {
        loads_to(
            &rt,
            rt.alloc(),
            &bytes,
            bases,
            Err(ToolFault::Place(fault)),
            "",
        )?;
    }
    Ok(())
}

#[test]
fn refuses_places_behind_faults_of_the_file(rt: HostRuntime) -> Result<(), Fail> {
    let front = bytes_of(rt.alloc(), &FILE[..9], &[])?;
    let fault = Fault {
        place: 9,
        reason: Reason::UnexpectedEnd,
    };
    let input = ToolFault::Input { file: 0, fault };
    loads_to(&rt, rt.alloc(), &front, &[], Err(input), "")
}
