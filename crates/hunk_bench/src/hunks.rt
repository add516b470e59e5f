//! The most hunks that a load file may have, at bases in one of several orders.

use hunk_loader::{check_places, check_places_with, read_image};
use hunk_words::Pieces;
use std::alloc::{AllocError, Global};
use std::io;
use std::time::Instant;

const HUNKS: u32 = 65_535;

/// The greatest number of a hunk; the least is 0.
const LAST: u32 = HUNKS - 1;

/// Bytes per read.
const PIECE: usize = 16384;

/// The order in which the bases of the hunks stand, which share no address but in the last of them.
#[derive(Clone, Copy)]
pub enum Order {
    Rising,
    Falling,
    /// Rising, but for the last hunk, which stands before the others.
    LastMoved,
    /// The even hunks before the odd ones.
    Halves,
    BitReversed,
    Random,
    /// Rising up to the middle, and then falling between those.
    OrganPipe,
    /// Random, but for the last hunk, which stands where the one before it does.
    Shared,
}

impl Order {
    /// The order with this name; rising if there is none.
    pub fn named(name: &str) -> Order {
        match name {
            "falling" => Order::Falling,
            "last-moved" => Order::LastMoved,
            "halves" => Order::Halves,
            "bit-reversed" => Order::BitReversed,
            "random" => Order::Random,
            "organ-pipe" => Order::OrganPipe,
            "shared" => Order::Shared,
            _ => Order::Rising,
        }
    }

    /// The place of the base of this hunk among 65,536.
    fn place(self, number: u16) -> u16 {
        match self {
            Order::Rising => number,
            Order::Falling => !number,
            Order::LastMoved if u32::from(number) == LAST => 0,
            Order::LastMoved => number.wrapping_add(1),
            Order::Halves => number.rotate_right(1),
            Order::BitReversed => number.reverse_bits(),
            Order::Random => scattered(number),
            Order::OrganPipe if number < 0x8000 => number.wrapping_mul(2),
            Order::OrganPipe => (!number).wrapping_mul(2) | 1,
            Order::Shared if u32::from(number) == LAST => scattered(number.wrapping_sub(1)),
            Order::Shared => scattered(number),
        }
    }
}

/// Another number for each number, without a visible rule.
fn scattered(number: u16) -> u16 {
    let first = (number ^ number >> 7).wrapping_mul(0x9E35);
    (first ^ first >> 9).wrapping_mul(0x6C8D)
}

/// Checks the bases without memory.
pub fn measure_scan(rt: &HostRuntime, order: Order) -> io::Result<()> {
    let sizes = vec![in rt.alloc(); 1u32; HUNKS as usize]?;
    let bases = bases_in(rt.alloc(), order)?;
    let start = Instant::now(rt)?;
    let placed = check_places(&sizes, &bases).is_ok();
    let time = start.elapsed(rt)?.as_nanos();
    rt.println(format_args!("check_places, {placed}: {time} ns"))
}

/// Checks the bases with memory, and makes the image of a load file at them.
pub fn measure(rt: &HostRuntime, order: Order) -> io::Result<()> {
    let sizes = vec![in rt.alloc(); 1u32; HUNKS as usize]?;
    let bases = bases_in(rt.alloc(), order)?;
    let mut file = Pieces::new(file_of_hunks(rt.alloc())?, PIECE, None);
    let start = Instant::now(rt)?;
    let placed = check_places_with(rt.alloc(), &sizes, &bases).is_ok();
    let check_time = start.elapsed(rt)?.as_nanos();
    let start = Instant::now(rt)?;
    let loaded = read_image(rt.alloc(), &mut file, &bases).is_ok();
    let load_time = start.elapsed(rt)?.as_nanos();
    rt.println(format_args!(
        "check_places_with, {placed}: {check_time} ns; ImageLoader, {loaded}: {load_time} ns"
    ))
}

/// Each base is a multiple of 8.
fn bases_in(alloc: Global, order: Order) -> Result<Vec<u32>, AllocError> {
    let mut bases = Vec::with_capacity(alloc, HUNKS as usize)?;
    for number in 0..u16::MAX {
        bases.push(8 * u32::from(order.place(number)))?;
    }
    Ok(bases)
}

/// A load file of code hunks of one longword.
fn file_of_hunks(alloc: Global) -> Result<Vec<u8>, AllocError> {
    let mut file = Vec::new(alloc);
    for word in [0x3F3, 0, HUNKS, 0, LAST] {
        file.extend_from_slice(&word.to_be_bytes())?;
    }
    for _ in 0..HUNKS {
        file.extend_from_slice(&[0, 0, 0, 1])?;
    }
    for _ in 0..HUNKS {
        for word in [0x3E9u32, 1, 0x4E75_4E71, 0x3F2] {
            file.extend_from_slice(&word.to_be_bytes())?;
        }
    }
    Ok(file)
}
