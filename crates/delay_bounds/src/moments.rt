//! Lists of moments, in picoseconds.

ghost use Rattle.std.specs.Prelude.{◌≡◌, ◌<◌, ◌↔◌, ◌+◌, ◌==◌, map, IfSome, IsSome, IsTrue, length, slice_index_or};
ghost use Rattle.delay_bounds.specs.Claim.{earliest};
ghost use Rattle.delay_bounds.specs.Bounds.{from_on};
ghost use Rattle.delay_bounds.specs.Walk.{begins_before, with_place};
ghost use Rattle.delay_bounds.specs.Walked.{are_later};

use circular_buffer::HeapCircularBuffer;
use std::alloc::Allocator;

// The first of the moments behind a place, or that at the place where none of them is before it.
fn with_place(first: Option<(u128, usize)>, moment: u128, place: usize) -> Option<(u128, usize)>
    ensures { result ≡ with_place first moment place }
{
    match first {
        Some((least, other)) if least < moment => Some((least, other)),
        _ => Some((moment, place)),
    }
}

/// The least of moments and its place, the first of equal ones.
pub fn earliest(moments: &[u128]) -> Option<(u128, usize)>
    ensures first { result ≡ earliest moments.now }
    ensures within { IfSome result (λ e. e.1 < length moments.now) }
    ensures some { 0 < length moments.now → IsSome result }
{
    let mut first = None;
    let mut place = moments.len();
    while place > 0 {
        place -= 1;
        first = with_place(first, moments[place], place);
    }
    first
}

/// Takes away the first moments, as long as they are before one.
pub fn drop_before<A: Allocator>(moments: &mut HeapCircularBuffer<u128, A>, t: u128)
    ensures moments { moments.new.items ≡ from_on t moments.old.items }
    ensures room { moments.new.capacity ≡ moments.old.capacity }
{
    while is_before(moments, t) {
        let _ = moments.pop_front();
    }
}

// Whether there is a first moment, and it is before one.
fn is_before<A: Allocator>(moments: &HeapCircularBuffer<u128, A>, t: u128) -> bool
    ensures { result ≡ begins_before t moments.now.items }
{
    match moments.front() {
        Some(first) => *first < t,
        None => false,
    }
}

/// Whether a moment is another one, so much later.
pub fn is_later(moment: u128, old: u128, by: u128) -> bool
    ensures later { IsTrue result ↔ (moment ≡ old + by) }
    ensures is { result ≡ (moment == old + by) }
{
    moment >= by && moment - by == old
}

// Whether moments are others, each so much later.
fn are_later(moments: &[u128], old: &[u128], by: u128) -> bool
    ensures { IsTrue result ↔ (moments.now ≡ map (λ t. t + by) old.now) }
{
    if moments.len() != old.len() {
        return false;
    }
    let mut place = 0;
    while place < moments.len() {
        if !is_later(moments[place], old[place], by) {
            return false;
        }
        place += 1;
    }
    true
}

// Whether the moment at a place is that of others there, so much later.
fn is_later_at<A: Allocator>(
    moments: &HeapCircularBuffer<u128, A>,
    old: &HeapCircularBuffer<u128, A>,
    place: usize,
    by: u128,
) -> bool
    requires within { (place < length moments.now.items) × (place < length old.now.items) }
    ensures { IsTrue result
        ↔ (slice_index_or moments.now.items place 0 ≡ slice_index_or old.now.items place 0 + by) }
{
    match (moments.get(place), old.get(place)) {
        (Some(moment), Some(before)) => is_later(*moment, *before, by),
        _ => false,
    }
}

// Whether moments are others, each so much later.
fn is_ring_later<A: Allocator>(
    moments: &HeapCircularBuffer<u128, A>,
    old: &HeapCircularBuffer<u128, A>,
    by: u128,
) -> bool
    ensures { IsTrue result ↔ (moments.now.items ≡ map (λ t. t + by) old.now.items) }
{
    if moments.len() != old.len() {
        return false;
    }
    let mut place = 0;
    while place < moments.len() {
        if !is_later_at(moments, old, place, by) {
            return false;
        }
        place += 1;
    }
    true
}

/// Makes moments those of others. There is room for as many.
pub fn copy_ring<A: Allocator>(
    moments: &mut HeapCircularBuffer<u128, A>,
    from: &HeapCircularBuffer<u128, A>,
)
    requires { moments.old.capacity ≡ from.now.capacity }
    ensures moments { moments.new.items ≡ from.now.items }
    ensures room { moments.new.capacity ≡ moments.old.capacity }
{
    moments.clear();
    let count = from.len();
    let mut place = 0;
    while place < count {
        if let Some(moment) = from.get(place) {
            let _ = moments.try_push_back(*moment);
        }
        place += 1;
    }
}

/// Whether moments are others, each so much later.
pub fn come_later(moments: &[u128], old: &[u128], by: u128) -> bool
    ensures { result ≡ are_later by moments.now old.now }
{
    are_later(moments, old, by)
}

/// Whether moments are others, each so much later.
pub fn start_later<A: Allocator>(
    moments: &HeapCircularBuffer<u128, A>,
    old: &HeapCircularBuffer<u128, A>,
    by: u128,
) -> bool
    ensures { result ≡ are_later by moments.now.items old.now.items }
{
    is_ring_later(moments, old, by)
}
