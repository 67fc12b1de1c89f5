//! An allocator that refuses one growth, or all from one on. Nothing but tests stands on it.
//!
//! It has no contract.
use std::alloc::{AllocError, Allocator};
use std::cell::Cell;

/// Which growth is refused, and how many were asked for.
#[derive(Drop)]
pub struct Count {
    asked: Cell<u64>,
    refused: u64,
    recovers: bool,
}

/// Passes each call on to another allocator, but for one growth, which it refuses, or all from that one on.
#[derive(Drop)]
pub struct RefusingHeap<B: Allocator> {
    inner: B,
    count: Count,
}

impl<B: Allocator> RefusingHeap<B> {
    /// Refuses the growth with this number, from 0, and those after it too unless it recovers.
    pub fn new(inner: B, refused: u64, recovers: bool) -> RefusingHeap<B> {
        RefusingHeap {
            inner,
            count: Count {
                asked: Cell::new(0),
                refused,
                recovers,
            },
        }
    }

    /// How many growths were asked for.
    pub fn asked(&self) -> u64 {
        self.count.asked.get()
    }
}

/// Counts a growth, and says whether it is refused.
fn refuses(count: &Count) -> bool {
    let number = count.asked.get();
    count.asked.set(number.saturating_add(1));
    number == count.refused || (number > count.refused && !count.recovers)
}

unsafe impl<B: Allocator> Allocator for RefusingHeap<B> {
    ghost dealloc_token = { λ heap ty ptr. B.dealloc_token heap.inner ty ptr };

    fn allocate(&self, size: usize, align: usize) -> Result<*mut u8, AllocError> {
        if refuses(&self.count) {
            return Err(AllocError);
        }
        self.inner.allocate(size, align)
    }

    unsafe fn deallocate(&self, ptr: *mut u8, size: usize, align: usize) {
        self.inner.deallocate(ptr, size, align);
    }
}
