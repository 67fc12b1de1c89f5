//! Frames that the tests put and take, by the store's own word on what is there.

mod memory;
mod order;

use capture::octet_store::{MAX_OCTETS, OctetStore};
use std::alloc::{AllocError, Allocator, Global};
use wire_time::CLASSES;

/// So many octets, others for each seed.
pub fn octets_of(alloc: Global, seed: u32, length: usize) -> Result<Vec<u8>, AllocError> {
    let mut octets = Vec::with_capacity(alloc, length)?;
    for place in 0..length {
        let octet = (seed as usize).wrapping_mul(31).wrapping_add(place) % 251;
        octets.push(octet as u8)?;
    }
    Ok(octets)
}

/// How many octets the frame of a seed had.
pub fn original_of(seed: u32) -> u32 {
    u32::MAX - seed
}

/// Puts the frame of a seed, of which so many octets are kept. False: its class has no room, or memory ran out.
pub fn put<A: Allocator + Clone>(
    store: &mut OctetStore<A>,
    class: u8,
    seed: u32,
    octets: &[u8],
) -> bool {
    if class >= CLASSES as u8 || octets.len() > MAX_OCTETS || !store.has_room(class) {
        return false;
    }
    store.put(class, original_of(seed), octets).is_ok()
}

/// Looks at the first frame of a class, and gives it up. Whether there was one, and it is that of the seed, with these
/// octets.
pub fn takes<A: Allocator>(store: &mut OctetStore<A>, class: u8, seed: u32, octets: &[u8]) -> bool {
    if class >= CLASSES as u8 || store.len(class) == 0 {
        return false;
    }
    let first = store.first(class);
    let same = first.original == original_of(seed) && first.octets == octets;
    store.give_up(class);
    same
}
