//! Reads the frames of a capture.

ghost use Rattle.std.specs.Prelude.{◌≡◌, ℕ, IfOk, IfSome, List, None, Result};
ghost use Rattle.capture.specs.CaptureReader.{left};
ghost use Rattle.capture.specs.Record.{entry};
ghost use Rattle.capture.specs.Records.{Entry};
ghost use Rattle.capture.specs.declared.fault.CapFault.{CapFault};
ghost use Rattle.capture.specs.declared.reader.End.{End};
ghost use Rattle.compare.specs.Frames.{ReadsAs, capture_reading, id_behind, id_in, record_frame, records_reading, seen_by};
ghost use Rattle.compare.specs.Payloads.{AreNumbered, ReadsNumbered};
ghost use Rattle.compare.specs.Read.{Comes, TakesRecord, header_stopped, record_stopped};

use crate::faults::{RecordFault, Trouble};
use crate::frame::Frame;
use crate::payloads::{Numbers, key_of};
use crate::settings::By;
use byteorder::{BigEndian, ByteOrder};
use capture::{CapFault, CaptureReader, Record, frame_of};
use job::Fault;
use std::alloc::Allocator;
use std::io::Read;

/// The ID behind the type of local experiments, where that stands in front.
fn id_behind(octets: &[u8]) -> Option<u64>
    ensures { result ≡ id_behind octets.now }
{
    if octets.len() >= 10 && octets[0] == 0x88 && octets[1] == 0xb5 {
        Some(BigEndian::read_u64(&octets[2..]))
    } else {
        None
    }
}

/// The ID that the frame of a record carries, if it does.
fn id_in(record: &Record<'_>) -> Option<u64>
    ensures { result ≡ id_in «record».now.octets.now }
{
    let place = if frame_of(record, 0).tagged { 16 } else { 12 };
    match record.octets.get(place..) {
        Some(octets) => id_behind(octets),
        None => None,
    }
}

/// Why a capture isn't opened.
fn header_stopped(fault: CapFault) -> Fault<Trouble>
    ensures { result ≡ header_stopped fault }
{
    match fault {
        CapFault::Read => Fault::Read,
        CapFault::Memory => Fault::Memory,
        fault => Fault::Input(Trouble::Header(fault)),
    }
}

/// Why there is no next record.
fn record_stopped(number: u32, fault: CapFault) -> Fault<Trouble>
    ensures { result ≡ record_stopped number fault }
{
    match fault {
        CapFault::Read => Fault::Read,
        CapFault::Memory => Fault::Memory,
        fault => Fault::Input(Trouble::Record(number, RecordFault::Capture(fault))),
    }
}

/// The frame of the record of a number.
fn record_frame<A: Allocator + Clone + Drop>(
    alloc: &A,
    numbers: &mut Numbers<A>,
    by: By,
    number: u32,
    record: &Record<'_>,
) -> Result<Frame, Fault<Trouble>>
    ensures { (seen : List (List ℕ)) → AreNumbered seen numbers.old →
        TakesRecord number (record_frame by seen number (entry «record».now)) result
        × IfOk result (λ _. AreNumbered (seen_by by seen (entry «record».now)) numbers.new) }
{
    match by {
        By::Order => Ok(Frame {
            name: u64::from(number),
            moment: record.moment,
            key: 0,
        }),
        By::Id => match id_in(record) {
            Some(id) => Ok(Frame {
                name: id,
                moment: record.moment,
                key: id,
            }),
            None => Err(Fault::Input(Trouble::Record(number, RecordFault::NoId))),
        },
        By::Payload => match key_of(alloc, numbers, record.octets) {
            Ok(key) => Ok(Frame {
                name: u64::from(number),
                moment: record.moment,
                key,
            }),
            Err(_) => Err(Fault::Memory),
        },
    }
}

/// Reads the records that are to come, and puts their frames behind others.
fn read_records<A: Allocator + Clone + Drop, B: Allocator, C: Allocator, R: Read>(
    alloc: &A,
    records: &mut CaptureReader<R, C>,
    numbers: &mut Numbers<A>,
    by: By,
    frames: &mut Vec<Frame, B>,
) -> Result<(), Fault<Trouble>>
    requires begun { (left records.old).ended ≡ None }
    requires first { (left records.old).number ≡ 0 }
    ensures { (seen : List (List ℕ)) → AreNumbered seen numbers.old →
        (entries : List Entry) (last : End) → Comes R.remaining (left records.old) entries last →
        ReadsNumbered result (records_reading by seen 0 entries last) frames.old.items
        frames.new.items numbers.new }
{
    let mut number = 0u32;
    'records: loop {
        let record = match records.next() {
            Ok(None) => return Ok(()),
            Err(fault) => return Err(record_stopped(number, fault)),
            Ok(Some(record)) => record,
        };
        let frame = match record_frame(alloc, numbers, by, number, &record) {
            Ok(frame) => frame,
            Err(fault) => return Err(fault),
        };
        match frames.push(frame) {
            Ok(()) => {}
            Err(_) => return Err(Fault::Memory),
        }
        number += 1;
    }
}

/// Reads a capture, and puts its frames behind others.
pub(crate) fn read_capture<A: Allocator + Clone + Drop, B: Allocator, R: Read + Drop>(
    alloc: &A,
    capture: R,
    numbers: &mut Numbers<A>,
    by: By,
    frames: &mut Vec<Frame, B>,
) -> Result<(), Fault<Trouble>>
    ensures { (seen : List (List ℕ)) → AreNumbered seen numbers.old →
        IfSome (R.remaining capture)
        (λ octets. (said : Result (List Entry × End) CapFault) → ReadsAs octets said →
        ReadsNumbered result (capture_reading by seen said) frames.old.items
        frames.new.items numbers.new) }
{
    let mut records = match CaptureReader::new(alloc, capture) {
        Ok(records) => records,
        Err(fault) => return Err(header_stopped(fault)),
    };
    read_records(alloc, &mut records, numbers, by, frames)
}
