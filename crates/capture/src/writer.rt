//! Writing a capture record by record.

ghost use Rattle.std.specs.Prelude.{◌≡◌, ◌≤◌, ◌<◌, ◌/◌, ◌%◌, length, IsTrue, OnOk, OnErr, IfOk, IfErr, true, false, Err};
ghost use Rattle.std.specs.Io.KnownBytes.{Keeps};
ghost use Rattle.capture.specs.Words.{Writes, spelled_record_header, written_format, written_header, CAPTURE_END};

use crate::fault::CapFault;
use crate::format::MAX_RECORD_OCTETS;
use crate::header::{ETHERNET, FILE_HEADER, MAJOR_VERSION, MINOR_VERSION, NANOS_MAGIC};
use crate::read_ahead::RECORD_HEADER;
use byteorder::{ByteOrder, LittleEndian};
use std::io::Write;
use text::octet_writer::{PutLine, put};

/// The first moment that a time stamp can't say, in picoseconds: its seconds have 32 bits.
pub const CAPTURE_END: u128 = 4_294_967_296_000_000_000_000;

/// A capture that is being written, little-endian and in nanoseconds.
///
/// Its writes are its own loop: a write that fails or takes nothing isn't tried again, and nothing is written after it.
#[derive(Debug, Drop)]
pub struct CaptureWriter {
    failed: bool,
}

/// Writes all of the octets, by as many writes as it takes.
#[inline(always)]
fn put_whole<W: Write>(writer: &mut W, octets: &[u8]) -> Result<(), CapFault>
    ensures octets { Writes result (W.contents writer.old) (W.contents writer.new) octets.now }
    ensures fault { IfErr result (λ f. f ≡ CapFault.Write) }
{
    match put(writer, octets) {
        Ok(()) => Ok(()),
        Err(_) => Err(CapFault::Write),
    }
}

#[tactic(auto, unfolding(crate::specs::Layout::spelled_header))]
fn file_header() -> [u8; FILE_HEADER]
    ensures { result ≡ written_header }
{
    let mut header = [0u8; FILE_HEADER];
    LittleEndian::write_u32(&mut header, NANOS_MAGIC);
    LittleEndian::write_u16(&mut header[4..], MAJOR_VERSION);
    LittleEndian::write_u16(&mut header[6..], MINOR_VERSION);
    LittleEndian::write_u32(&mut header[16..], MAX_RECORD_OCTETS);
    LittleEndian::write_u32(&mut header[20..], ETHERNET);
    header
}

/// Whole seconds of a moment, and the picoseconds after them. A second has 4096 times 244,140,625 picoseconds.
#[inline(always)]
fn split(moment: u128) -> (u32, u64)
    requires { moment < CAPTURE_END }
    ensures seconds { result.0 ≡ moment / 1000000000000 }
    ensures rest { result.1 ≡ moment % 1000000000000 }
{
    let seconds = (moment / 4_096) as u64 / 244_140_625;
    let rest = moment - u128::from(seconds) * 1_000_000_000_000;
    (seconds as u32, rest as u64)
}

#[tactic(auto, unfolding(crate::specs::Layout::spelled_record_header))]
fn record_header(moment: u128, captured: u32, original: u32) -> [u8; RECORD_HEADER]
    requires { moment < CAPTURE_END }
    ensures { result ≡ spelled_record_header written_format moment captured original }
{
    let mut header = [0u8; RECORD_HEADER];
    let (seconds, rest) = split(moment);
    LittleEndian::write_u32(&mut header, seconds);
    LittleEndian::write_u32(&mut header[4..], (rest / 1_000) as u32);
    LittleEndian::write_u32(&mut header[8..], captured);
    LittleEndian::write_u32(&mut header[12..], original);
    header
}

impl CaptureWriter {
    ghost use Rattle.capture.specs.CaptureWriter.{has_failed, written_record};

    /// Writes the file header: no zone, no accuracy, a snapshot length of `MAX_RECORD_OCTETS`, Ethernet.
    pub fn begin<W: Write>(writer: &mut W) -> Result<CaptureWriter, CapFault>
        ensures octets { Writes result (W.contents writer.old)
            (W.contents writer.new) written_header }
        ensures goes_on { IfOk result (λ w. has_failed w ≡ false) }
        ensures fault { IfErr result (λ f. f ≡ CapFault.Write) }
    {
        put_whole(writer, &file_header())?;
        Ok(CaptureWriter { failed: false })
    }

    /// Writes one record: the moment in picoseconds, rounded down to a nanosecond, the octets that the frame had, and
    /// those captured. Once a write has failed, this call and each later one fails, and they write nothing more.
    pub fn put<W: PutLine>(
        &mut self,
        writer: &mut W,
        moment: u128,
        original: u32,
        octets: &[u8],
    ) -> Result<(), CapFault>
        requires moment { moment < CAPTURE_END }
        requires size { length octets.now ≤ MAX_RECORD_OCTETS }
        ensures octets { Writes result (W.contents writer.old) (W.contents writer.new)
            (written_record moment original octets.now) }
        ensures goes_on { OnOk result (has_failed self.new ≡ false) }
        ensures fails { OnErr result (has_failed self.new ≡ true) }
        ensures fault { IfErr result (λ f. f ≡ CapFault.Write) }

        // After a fault nothing is written.
        ensures failed { IsTrue (has_failed self.old) → result ≡ Err CapFault.Write }
        ensures nothing { IsTrue (has_failed self.old) →
            Keeps (W.contents writer.old) (W.contents writer.new) }
    {
        if self.failed {
            return Err(CapFault::Write);
        }
        let header = record_header(moment, octets.len() as u32, original);
        let Ok(()) = writer.put_headed(&header, octets) else {
            self.failed = true;
            return Err(CapFault::Write);
        };
        Ok(())
    }
}
