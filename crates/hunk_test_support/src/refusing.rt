//! An allocator that fails one allocation, or each from one on.

use std::alloc::{AllocError, Allocator, Global};
use std::cell::Cell;

/// Counts allocations, and says which of them are to fail.
#[derive(Drop)]
struct Growths {
    refused: u64,
    later: bool,
    asked: Cell<u64>,
}

impl Growths {
    /// Counts one more allocation, and returns whether it is one that is to fail.
    fn refuses_next(&self) -> bool {
        let number = self.asked.get();
        self.asked.set(number.saturating_add(1));
        number == self.refused || (self.later && self.refused < number)
    }
}

/// An allocator over the heap that fails one of the allocations that it is asked for, or that one
/// and each later one, and passes every other one on.
///
/// It is owned: the collections of a test share it through a `&`, which is an allocator too. It has
/// no type parameter, since a call at `&Refusing` is then proved in less than half of the steps.
#[derive(Drop)]
pub struct Refusing {
    inner: Global,
    growths: Growths,
}

impl Refusing {
    ghost use Rattle.hunk_test_support.specs.Refusing.{Refuses, true, false};

    /// An allocator over `inner` that fails allocation number `refused`, from 0.
    pub fn new(inner: Global, refused: u64) -> Refusing
        ensures { Refuses result inner refused false }
    {
        Refusing {
            inner,
            growths: Growths {
                refused,
                later: false,
                asked: Cell::new(0),
            },
        }
    }

    /// An allocator over `inner` that fails allocation number `first`, from 0, and each later one.
    pub fn all_from(inner: Global, first: u64) -> Refusing
        ensures { Refuses result inner first true }
    {
        Refusing {
            inner,
            growths: Growths {
                refused: first,
                later: true,
                asked: Cell::new(0),
            },
        }
    }

    /// How many allocations it was asked for, including those that failed.
    pub fn asked(&self) -> u64 {
        self.growths.asked.get()
    }
}

unsafe impl Allocator for Refusing {
    ghost use Rattle.hunk_test_support.specs.Refusing.{heap_token};

    ghost dealloc_token = { λ heap. heap_token heap };

    fn allocate(&self, size: usize, align: usize) -> Result<*mut u8, AllocError> {
        if self.growths.refuses_next() {
            return Err(AllocError);
        }
        self.inner.allocate(size, align)
    }

    unsafe fn deallocate(&self, ptr: *mut u8, size: usize, align: usize) {
        self.inner.deallocate(ptr, size, align);
    }
}
