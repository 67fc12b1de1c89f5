//! What is left when out of memory.

use super::{octets_of, put, takes};
use capture::octet_store::OctetStore;
use linked_list_allocator::LocalHeap;
use std::test::Fail;

/// Room for 100 frames a class wants some 6,400 octets for their lengths.
#[test]
fn refuses_a_new_store(rt: HostRuntime) -> Result<(), Fail> {
    for size in [700, 3_000, 6_000] {
        let heap = LocalHeap::new(rt.alloc(), size)?;
        assert!(rt; OctetStore::new(&&heap, 100).is_err());
        assert_eq!(rt; heap.used(), 0);
    }
    let heap = LocalHeap::new(rt.alloc(), 12_000)?;
    assert!(rt; OctetStore::new(&&heap, 100).is_ok());
    assert_eq!(rt; heap.used(), 0);
    Ok(())
}

/// A buffer grows to twice the octets that wait and those that come.
#[test]
fn refuses_a_growth(rt: HostRuntime) -> Result<(), Fail> {
    let heap = LocalHeap::new(rt.alloc(), 70_000)?;
    let alloc = &heap;
    let mut store = OctetStore::new(&alloc, 4)?;
    let (early, waits) = (
        octets_of(rt.alloc(), 1, 900)?,
        octets_of(rt.alloc(), 2, 10_000)?,
    );
    assert!(rt; put(&mut store, 5, 1, &early));
    assert!(rt; put(&mut store, 2, 2, &waits));
    assert!(rt; takes(&mut store, 5, 1, &early));

    // The buffer would have to grow to 60,000 octets beside its 20,000.
    let used = heap.used();
    let long = octets_of(rt.alloc(), 3, 20_000)?;
    assert!(rt; store.has_room(2));
    assert!(rt; !put(&mut store, 2, 3, &long));
    assert_eq!(rt; store.len(2), 1);
    assert_eq!(rt; heap.used(), used);

    // To 44,000 it can grow.
    let short = octets_of(rt.alloc(), 4, 12_000)?;
    assert!(rt; put(&mut store, 2, 4, &short));
    assert!(rt; takes(&mut store, 2, 2, &waits));
    assert!(rt; takes(&mut store, 2, 4, &short));
    assert_eq!(rt; store.len(2), 0);
    Ok(())
}
