//! What is written, and what is left in writers that fail.

use super::{Narrow, WRITTEN};
use capture::{CAPTURE_END, CapFault, CaptureReader, CaptureWriter, MAX_RECORD_OCTETS, Record};
use std::alloc::Global;
use std::test::Fail;
use text::octet_writer::PutLine;

/// Writes the capture `WRITTEN`, and goes on after a fault; the first fault.
fn write_both<W: PutLine>(writer: &mut W) -> Result<(), CapFault> {
    let mut capture = CaptureWriter::begin(writer)?;
    let first = capture.put(writer, 2_000_500_000_999, 60, &WRITTEN[40..58]);
    let second = capture.put(writer, 2_000_500_672_000, 60, &WRITTEN[74..]);
    first?;
    second
}

fn narrow(alloc: Global, piece: usize, room: usize) -> Narrow {
    Narrow {
        got: Vec::new(alloc),
        piece,
        room,
        fails: true,
        recovers: false,
    }
}

/// Whether the vector is written to a writer of all octets.
fn is_written_whole(alloc: Global) -> bool {
    let mut whole = Vec::new(alloc);
    write_both(&mut whole) == Ok(()) && whole.as_slice() == WRITTEN.as_slice()
}

/// Whether the vector is written with this end, and so many of its octets are left.
fn ends_with(mut writer: Narrow, end: Result<(), CapFault>, left: usize) -> bool {
    write_both(&mut writer) == end && writer.got.as_slice() == &WRITTEN[..left.min(92)]
}

/// The least piece in which the vector is written otherwise.
fn first_piece_to_differ(alloc: Global) -> Option<usize> {
    for piece in 1..=WRITTEN.len() {
        if !ends_with(narrow(alloc, piece, usize::MAX), Ok(()), 92) {
            return Some(piece);
        }
    }
    None
}

#[test]
fn writes_the_vector(rt: HostRuntime) -> Result<(), Fail> {
    assert!(rt; is_written_whole(rt.alloc()));
    assert_eq!(rt; first_piece_to_differ(rt.alloc()), None);
    Ok(())
}

/// How a writer is without room: how much it takes at a call, whether it fails, and whether it goes on then.
const WITHOUT_ROOM: [(usize, bool, bool); 9] = [
    (1, true, false),
    (1, false, false),
    (1, true, true),
    (7, true, false),
    (7, false, false),
    (7, true, true),
    (92, true, false),
    (92, false, false),
    (92, true, true),
];

/// The number of the first writer with room for so many octets that leaves something else.
fn first_writer_to_differ(alloc: Global, room: usize) -> Option<usize> {
    for (number, (piece, fails, recovers)) in WITHOUT_ROOM.iter().enumerate() {
        let mut writer = narrow(alloc, *piece, room);
        writer.fails = *fails;
        writer.recovers = *recovers;
        if !ends_with(writer, Err(CapFault::Write), room) {
            return Some(number);
        }
    }
    None
}

/// The least room with which a writer leaves something else, and the writer's number.
fn first_room_to_differ(alloc: Global) -> Option<(usize, usize)> {
    for room in 0..WRITTEN.len() {
        if let Some(number) = first_writer_to_differ(alloc, room) {
            return Some((room, number));
        }
    }
    None
}

#[test]
fn every_write_fails(rt: HostRuntime) -> Result<(), Fail> {
    assert_eq!(rt; first_room_to_differ(rt.alloc()), None);
    Ok(())
}

/// What goes otherwise where a record finds no room, and two more are put then; empty where nothing does.
fn differs_after_a_fault(writer: &mut Narrow) -> &'static str {
    let Ok(mut capture) = CaptureWriter::begin(writer) else {
        return "begin";
    };
    let first = capture.put(writer, 2_000_500_000_000, 60, &WRITTEN[40..58]);
    if first != Err(CapFault::Write) || writer.got.as_slice() != &WRITTEN[..30] {
        return "first";
    }
    let second = capture.put(writer, 0, 0, b"");
    let third = capture.put(writer, 0, 0, b"");
    if second != Err(CapFault::Write) || third != Err(CapFault::Write) {
        "others"
    } else if writer.got.as_slice() != &WRITTEN[..30] {
        "left"
    } else {
        ""
    }
}

#[test]
fn put_after_a_fault(rt: HostRuntime) -> Result<(), Fail> {
    let mut writer = narrow(rt.alloc(), 100, 30);
    writer.recovers = true;
    assert_eq!(rt; differs_after_a_fault(&mut writer), "");
    Ok(())
}

/// Whether this is a record with these fields.
fn is_record(
    record: Result<Option<Record<'_>>, CapFault>,
    moment: u128,
    original: u32,
    octets: &[u8],
) -> bool {
    match record {
        Ok(Some(record)) => {
            record.moment == moment
                && record.captured as usize == octets.len()
                && record.original == original
                && record.octets == octets
        }
        _ => false,
    }
}

/// Whether a capture has these records, each by its moment, its original length and its octets, and no others.
fn has_records(alloc: Global, capture: &[u8], records: &[(u128, u32, &[u8])]) -> bool {
    let Ok(mut reader) = CaptureReader::new(alloc, capture) else {
        return false;
    };
    for (moment, original, octets) in records {
        if !is_record(reader.next(), *moment, *original, octets) {
            return false;
        }
    }
    matches!(reader.next(), Ok(None))
}

/// Writes the capture of a record without octets a picosecond before the end, and of one that is as long as any.
fn write_limits(file: &mut Vec<u8>, longest: &[u8]) -> Result<(), CapFault> {
    if longest.len() != MAX_RECORD_OCTETS as usize {
        return Err(CapFault::LongRecord);
    }
    let mut capture = CaptureWriter::begin(file)?;
    let last = capture.put(file, CAPTURE_END - 1, u32::MAX, b"");
    let second = capture.put(file, 1_999, 9, longest);
    last?;
    second
}

/// Whether both records are read back.
fn limits_are_there(alloc: Global, file: &[u8], longest: &[u8]) -> bool {
    let records: [(u128, u32, &[u8]); 2] = [
        (CAPTURE_END - 1_000, u32::MAX, b""),
        (1_000, 9, longest),
    ];
    file.len() == 24 + 16 + 16 + 262_144 && has_records(alloc, file, &records)
}

#[test]
fn limits_are_read_back(rt: HostRuntime) -> Result<(), Fail> {
    let longest = vec![in rt.alloc(); 0x81u8; 262_144]?;
    let mut file = Vec::new(rt.alloc());
    assert_eq!(rt; write_limits(&mut file, &longest), Ok(()));
    assert!(rt; limits_are_there(rt.alloc(), file.as_slice(), longest.as_slice()));
    Ok(())
}
