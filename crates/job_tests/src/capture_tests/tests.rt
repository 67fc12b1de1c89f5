//! Captures, readers and writers that the tests share. What captures are read as, and their faults, are rows of
//! tests/captures.py.

mod frames;
mod readers;
mod writing;

use capture::{CapFault, CaptureReader, End, MAX_RECORDS};
use std::alloc::Global;
use std::io::Read;
pub use test_support::test_streams::{Narrow, Pieces};

/// Big-endian, in microseconds: two frames of 60 octets of which 18 are captured, with priorities 3 and 5, at 2 s and
/// 500 microseconds and at 2 s and 400 microseconds.
pub const TWO_RECORDS: [u8; 92] = [
    0xa1, 0xb2, 0xc3, 0xd4, 0, 2, 0, 4, 0, 0, 0, 0, 0, 0, 0, 0, 0, 4, 0, 0, 0, 0, 0, 1, //
    0, 0, 0, 2, 0, 0, 1, 0xf4, 0, 0, 0, 18, 0, 0, 0, 60, //
    2, 0, 0, 0, 0, 2, 2, 0, 0, 0, 0, 1, 0x81, 0, 0x60, 5, 8, 0, //
    0, 0, 0, 2, 0, 0, 1, 0x90, 0, 0, 0, 18, 0, 0, 0, 60, //
    2, 0, 0, 0, 0, 2, 2, 0, 0, 0, 0, 1, 0x81, 0, 0xa0, 5, 8, 0,
];

/// Little-endian, in nanoseconds: the same frames, that of priority 5 first, at 2 s and 500,000 and 500,672
/// nanoseconds.
pub const WRITTEN: [u8; 92] = [
    0x4d, 0x3c, 0xb2, 0xa1, 2, 0, 4, 0, 0, 0, 0, 0, 0, 0, 0, 0, 0, 0, 4, 0, 1, 0, 0, 0, //
    2, 0, 0, 0, 0x20, 0xa1, 7, 0, 18, 0, 0, 0, 60, 0, 0, 0, //
    2, 0, 0, 0, 0, 2, 2, 0, 0, 0, 0, 1, 0x81, 0, 0xa0, 5, 8, 0, //
    2, 0, 0, 0, 0xc0, 0xa3, 7, 0, 18, 0, 0, 0, 60, 0, 0, 0, //
    2, 0, 0, 0, 0, 2, 2, 0, 0, 0, 0, 1, 0x81, 0, 0x60, 5, 8, 0,
];

/// How many records a reader gives, and its end, which it gives again.
pub fn count_records<R: Read>(reader: &mut CaptureReader<R>) -> (u32, End) {
    let mut count = 0u32;
    for _ in 0..=MAX_RECORDS {
        match reader.next() {
            Ok(Some(_)) => count = count.saturating_add(1),
            Ok(None) => return (count, End::Whole),
            Err(fault) => return (count, End::Broken(fault)),
        }
    }
    (count, End::Broken(CapFault::Memory))
}

/// How many records a capture has, and its end; a header's fault is an end after no record.
pub fn summary<R: Read + Drop>(alloc: Global, source: R) -> (u32, End) {
    match CaptureReader::new(alloc, source) {
        Ok(mut reader) => {
            let (count, end) = count_records(&mut reader);
            let (more, again) = count_records(&mut reader);
            if more == 0 && again == end {
                (count, end)
            } else {
                (count, End::Broken(CapFault::Memory))
            }
        }
        Err(fault) => (0, End::Broken(fault)),
    }
}
