//! The numbers of a capture, and what they stand for.

ghost use Rattle.std.specs.Prelude.{◌≡◌, ◌≤◌, ◌<◌, length, IsOk};
ghost use Rattle.capture.specs.Words.{u16_at, u32_at, header_at, header_fault, moment_of, fractions_of, ok_unless};

use crate::fault::CapFault;
use byteorder::{BigEndian, ByteOrder, LittleEndian};

/// The most octets of a record that a capture may hold.
pub const MAX_RECORD_OCTETS: u32 = 262_144;

/// The most records of a capture.
pub const MAX_RECORDS: u32 = 4_000_000;

/// In which order the octets of a capture's numbers stand.
#[derive(Clone, Copy, Debug, PartialEq, Eq)]
pub enum Endian {
    /// The highest octet first.
    Big,
    /// The lowest octet first.
    Little,
}

/// What the fraction of a time stamp counts.
#[derive(Clone, Copy, Debug, PartialEq, Eq)]
pub enum Resolution {
    /// Microseconds, below 1,000,000.
    Micros,
    /// Nanoseconds, below 1,000,000,000.
    Nanos,
}

/// How the records of a capture are to be read.
#[derive(Clone, Copy, Debug, PartialEq, Eq)]
pub struct Format {
    /// The order of all its numbers.
    pub endian: Endian,
    /// The resolution of all its time stamps.
    pub resolution: Resolution,
}

/// The 16 octets before the octets of a record.
#[derive(Clone, Copy, Debug, PartialEq, Eq)]
pub struct RecordHeader {
    /// Whole seconds of the time stamp.
    pub seconds: u32,
    /// The rest of the time stamp, in the capture's resolution.
    pub fraction: u32,
    /// How many octets follow.
    pub captured: u32,
    /// How many octets the frame had.
    pub original: u32,
}

/// The first two octets as a number.
pub(crate) fn read_u16(endian: Endian, octets: &[u8]) -> u16
    requires { 2 ≤ length octets.now }
    ensures { result ≡ u16_at endian octets.now }
{
    match endian {
        Endian::Big => BigEndian::read_u16(octets),
        Endian::Little => LittleEndian::read_u16(octets),
    }
}

/// The first four octets as a number.
pub(crate) fn read_u32(endian: Endian, octets: &[u8]) -> u32
    requires { 4 ≤ length octets.now }
    ensures { result ≡ u32_at endian octets.now }
{
    match endian {
        Endian::Big => BigEndian::read_u32(octets),
        Endian::Little => LittleEndian::read_u32(octets),
    }
}

/// The 16 octets of a record header as its fields.
pub(crate) fn read_header(format: Format, octets: &[u8]) -> RecordHeader
    requires { 16 ≤ length octets.now }
    ensures { result ≡ header_at format octets.now }
{
    RecordHeader {
        seconds: read_u32(format.endian, octets),
        fraction: read_u32(format.endian, &octets[4..]),
        captured: read_u32(format.endian, &octets[8..]),
        original: read_u32(format.endian, &octets[12..]),
    }
}

fn fractions_in(resolution: Resolution) -> u32
    ensures { result ≡ fractions_of resolution }
{
    match resolution {
        Resolution::Micros => 1_000_000,
        Resolution::Nanos => 1_000_000_000,
    }
}

/// The faults that a record's header shows, where so many records came before.
pub(crate) fn check_header(
    format: Format,
    number: u32,
    header: RecordHeader,
) -> Result<(), CapFault>
    ensures fault { result ≡ ok_unless (header_fault format number header) }
    ensures short { IsOk result → header.captured ≤ MAX_RECORD_OCTETS }
    ensures few { IsOk result → number < MAX_RECORDS }
{
    if header.captured > MAX_RECORD_OCTETS {
        return Err(CapFault::LongRecord);
    }
    if header.fraction >= fractions_in(format.resolution) {
        return Err(CapFault::BadFraction);
    }
    if number >= MAX_RECORDS {
        return Err(CapFault::TooManyRecords);
    }
    Ok(())
}

/// A record's moment, in picoseconds.
pub(crate) fn moment(format: Format, header: RecordHeader) -> u128
    ensures { result ≡ moment_of format header }
{
    let scale: u64 = match format.resolution {
        Resolution::Micros => 1_000_000,
        Resolution::Nanos => 1_000,
    };
    header.seconds as u128 * 1_000_000_000_000 + u128::from(u64::from(header.fraction) * scale)
}
