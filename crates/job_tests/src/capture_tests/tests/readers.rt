//! Readers that give little at a time, or fail.

use super::{Pieces, TWO_RECORDS, summary};
use capture::{CapFault, CaptureReader, End, MAX_RECORD_OCTETS};
use linked_list_allocator::LocalHeap;
use std::alloc::Global;
use std::io::{self, Read};
use std::test::Fail;

/// The octets of a file header.
const HEADER: usize = 24;

/// The octets of a record of which none were captured.
const EMPTY_RECORD: usize = 16;

/// The least piece in which the capture of two records is read otherwise.
fn first_piece_to_differ(alloc: Global) -> Option<usize> {
    for piece in 1..=TWO_RECORDS.len() {
        let reader = Pieces::new(TWO_RECORDS.as_slice(), piece);
        if summary(alloc, reader) != (2, End::Whole) {
            return Some(piece);
        }
    }
    None
}

#[test]
fn any_piece(rt: HostRuntime) -> Result<(), Fail> {
    assert_eq!(rt; first_piece_to_differ(rt.alloc()), None);
    Ok(())
}

/// What is read of the capture of two records, an octet a call, where the call with this number fails, and those after
/// it too or not.
fn read_with_a_fault(alloc: Global, call: u32, recovers: bool) -> (u32, End) {
    let mut reader = Pieces::new(TWO_RECORDS.as_slice(), 1);
    reader.fails_at = call;
    reader.recovers = recovers;
    summary(alloc, reader)
}

/// What is to be read then. Call 24 is the first for a record, call 58 the first for the second, call 92 finds the end.
fn before_a_fault(call: u32) -> (u32, End) {
    match call {
        0..=57 => (0, End::Broken(CapFault::Read)),
        58..=91 => (1, End::Broken(CapFault::Read)),
        92 => (2, End::Broken(CapFault::Read)),
        _ => (2, End::Whole),
    }
}

/// The first call at whose fault something else is read.
fn first_fault_to_differ(alloc: Global, recovers: bool) -> Option<u32> {
    for call in 0..=93u32 {
        if read_with_a_fault(alloc, call, recovers) != before_a_fault(call) {
            return Some(call);
        }
    }
    None
}

#[test]
fn every_read_fails(rt: HostRuntime) -> Result<(), Fail> {
    assert_eq!(rt; first_fault_to_differ(rt.alloc(), false), None);
    // A reader that would go on is not asked again.
    assert_eq!(rt; first_fault_to_differ(rt.alloc(), true), None);
    Ok(())
}

/// Before each of three calls, whether a record stands whole in hand, where so many octets are read at a time.
fn held_before_calls(alloc: Global, piece: usize) -> Result<[bool; 3], CapFault> {
    let mut reader = CaptureReader::new(alloc, Pieces::new(TWO_RECORDS.as_slice(), piece))?;
    let mut held = [false; 3];
    for place in &mut held {
        *place = reader.has_record();
        reader.next()?;
    }
    Ok(held)
}

#[test]
fn a_record_in_hand(rt: HostRuntime) -> Result<(), Fail> {
    assert_eq!(rt;
        held_before_calls(rt.alloc(), 34),
        Ok([false, false, false])
    );
    assert_eq!(rt;
        held_before_calls(rt.alloc(), 67),
        Ok([false, false, false])
    );
    assert_eq!(rt; held_before_calls(rt.alloc(), 68), Ok([false, true, false]));
    assert_eq!(rt; held_before_calls(rt.alloc(), 92), Ok([false, true, false]));
    Ok(())
}

/// Gives its octets whole, and fails where it is asked for another number of octets, or once more.
#[derive(Drop)]
struct Asked<'a> {
    octets: &'a [u8],
    asked: [usize; 4],
    call: usize,
    give: [usize; 4],
}

impl Read for Asked<'_> {
    fn read(&mut self, buf: &mut [u8]) -> io::Result<usize> {
        let call = self.call;
        if call >= 4 || self.asked[call] != buf.len() {
            return Err(io::Error::from(io::ErrorKind::Other));
        }
        self.call = call + 1;
        let count = self.give[call].min(self.octets.len()).min(buf.len());
        let octets = self.octets;
        buf[..count].copy_from_slice(&octets[..count]);
        self.octets = &octets[count..];
        Ok(count)
    }
}

#[test]
fn asks_for_all_the_room(rt: HostRuntime) -> Result<(), Fail> {
    let room = EMPTY_RECORD + MAX_RECORD_OCTETS as usize;
    // The header alone; then both records but for 4 octets of the second; its rest; and the end.
    let source = Asked {
        octets: TWO_RECORDS.as_slice(),
        asked: [HEADER, room, room - 30, room],
        call: 0,
        give: [HEADER, 64, 4, 0],
    };
    assert_eq!(rt; summary(rt.alloc(), source), (2, End::Whole));
    Ok(())
}

/// What is read of the capture of two records, as much a call as is asked for, where the call with this number fails.
fn read_whole(alloc: Global, fails_at: u32) -> (u32, End) {
    let mut source = Pieces::new(TWO_RECORDS.as_slice(), usize::MAX);
    source.fails_at = fails_at;
    summary(alloc, source)
}

#[test]
fn reads_no_more_than_it_needs(rt: HostRuntime) -> Result<(), Fail> {
    // Both records come at the first read after the header, and the next read fails: it is made only after both.
    let behind_both = read_whole(rt.alloc(), 2);
    // The header is read by itself.
    let behind_the_header = read_whole(rt.alloc(), 1);
    assert_eq!(rt;
        [behind_both, behind_the_header],
        [
            (2, End::Broken(CapFault::Read)),
            (0, End::Broken(CapFault::Read))
        ]
    );
    Ok(())
}

/// Why no reader begins over this heap, if none does.
fn refusal(heap: &LocalHeap, capture: &[u8]) -> Option<CapFault> {
    match CaptureReader::new(heap, capture) {
        Ok(_) => None,
        Err(fault) => Some(fault),
    }
}

/// Whether the capture of two records is read over this heap.
fn reads_both(heap: &LocalHeap) -> bool {
    let Ok(mut reader) = CaptureReader::new(heap, TWO_RECORDS.as_slice()) else {
        return false;
    };
    matches!(reader.next(), Ok(Some(_)))
        && matches!(reader.next(), Ok(Some(_)))
        && matches!(reader.next(), Ok(None))
}

#[test]
fn reads_where_there_is_room(rt: HostRuntime) -> Result<(), Fail> {
    let small = LocalHeap::new(rt.alloc(), 200_000)?;
    let refusals = [
        refusal(&small, &TWO_RECORDS),
        // The header comes first.
        refusal(&small, &TWO_RECORDS[..23]),
    ];
    assert_eq!(rt;
        refusals,
        [Some(CapFault::Memory), Some(CapFault::ShortHeader)]
    );
    let heap = LocalHeap::new(rt.alloc(), 300_000)?;
    assert!(rt; reads_both(&heap));
    Ok(())
}
