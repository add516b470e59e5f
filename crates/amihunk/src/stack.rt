//! The stack that the program needs.

use std::alloc::Global;

/// The bytes of stack that no command passes.
const MOST: usize = 0x38000;

/// The bytes of a page of memory.
const PAGE: usize = 4096;

/// Takes the stack that the program needs, before anything else takes the memory, and returns whether
/// there is so much.
///
/// The system adds pages to a stack when they are first used, and ends a program for which there are none.
/// So a limit of memory could end the program in the middle, with no word. Here it is asked for as much
/// memory, which can be refused; then that is returned, and the pages of the stack are used.
pub fn take(alloc: Global) -> bool {
    let Ok(room) = Vec::<u8>::with_capacity(alloc, MOST) else {
        return false;
    };
    let fill = if room.is_empty() { 1 } else { 0 };
    drop(room);
    touch(fill) > 0
}

/// Uses each page of so much stack.
#[inline(never)]
fn touch(fill: u8) -> usize {
    let bytes = [fill; MOST];
    bytes
        .chunks(PAGE)
        .filter(|page| page.contains(&fill))
        .count()
}
