//! In which order frames come back, and with which octets.

use super::{octets_of, put, takes};
use capture::octet_store::{MAX_OCTETS, OctetStore};
use linked_list_allocator::LocalHeap;
use std::test::Fail;
use wire_time::CLASSES;

/// The kept octets of the frames that each class gets in turn: none, one, and the most.
const LENGTHS: [usize; 3] = [0, 1, MAX_OCTETS];

#[test]
fn first_in_first_out_in_each_class(rt: HostRuntime) -> Result<(), Fail> {
    let mut store = OctetStore::new(&rt.alloc(), 3)?;
    for number in 0..3u32 {
        for class in 0..CLASSES as u8 {
            let seed = number * CLASSES as u32 + class as u32;
            let octets = octets_of(rt.alloc(), seed, LENGTHS[number as usize])?;
            assert!(rt; put(&mut store, class, seed, &octets));
        }
    }
    for class in 0..CLASSES as u8 {
        assert!(rt; !store.has_room(class));
        for number in 0..3u32 {
            let seed = number * CLASSES as u32 + class as u32;
            let octets = octets_of(rt.alloc(), seed, LENGTHS[number as usize])?;
            assert!(rt; takes(&mut store, class, seed, &octets));
        }
        assert_eq!(rt; store.len(class), 0);
    }
    Ok(())
}

/// The octets of a frame of 1500, or up to 99 fewer.
fn length_of(seed: u32) -> usize {
    1500 - (seed % 100) as usize
}

#[test]
fn room_is_used_again(rt: HostRuntime) -> Result<(), Fail> {
    let heap = LocalHeap::new(rt.alloc(), 18_000)?;
    let alloc = &heap;
    let mut store = OctetStore::new(&alloc, 3)?;
    for seed in 0..3u32 {
        let octets = octets_of(rt.alloc(), seed, length_of(seed))?;
        assert!(rt; put(&mut store, 6, seed, &octets));
    }
    // The three longest frames are there, so no other want more. They go through the buffer some hundred times.
    let used = heap.used();
    for seed in 0..600u32 {
        let first = octets_of(rt.alloc(), seed, length_of(seed))?;
        assert!(rt; takes(&mut store, 6, seed, &first));
        let next = octets_of(rt.alloc(), seed + 3, length_of(seed + 3))?;
        assert!(rt; put(&mut store, 6, seed + 3, &next));
        assert!(rt; !store.has_room(6));
        assert_eq!(rt; heap.used(), used);
    }
    Ok(())
}
