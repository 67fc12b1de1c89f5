//! The first 24 octets of a capture.

ghost use Rattle.std.specs.Prelude.{◌≡◌, ◌≤◌, ◌<◌, length, take, drop, Some, Ok, IsTrue, IfOk, IfErr, IfSome};
ghost use Rattle.std.specs.Io.KnownBytes.{Consumes, IsAtEnd};
ghost use Rattle.capture.specs.Words.{resolution_of, format_by_magic, format_of, header_format, is_header_fault, IsHeaderFault};

use crate::fault::CapFault;
use crate::format::{Endian, Format, Resolution, read_u16, read_u32};
use crate::read_ahead::read_behind;
use std::io;
use std::io::Read;

/// The octets of a file header.
pub(crate) const FILE_HEADER: usize = 24;

/// The magic number of a capture in microseconds.
pub(crate) const MICROS_MAGIC: u32 = 0xa1b2_c3d4;

/// The magic number of a capture in nanoseconds.
pub(crate) const NANOS_MAGIC: u32 = 0xa1b2_3c4d;

/// The version of the format, its first number.
pub(crate) const MAJOR_VERSION: u16 = 2;

/// The version of the format, its second number.
pub(crate) const MINOR_VERSION: u16 = 4;

/// The link type of Ethernet.
pub(crate) const ETHERNET: u32 = 1;

/// Fills the buffer, or what of it the input has: less only where the input ends.
fn fill_whole<R: Read>(reader: &mut R, into: &mut [u8]) -> io::Result<usize>
    ensures octets { IfOk result
        (λ n. Consumes (R.remaining reader.old) (R.remaining reader.new) (take n into.new)) }
    ensures bound { IfOk result (λ n. n ≤ length into.new) }
    ensures ended { IfOk result (λ n. n < length into.new → IsAtEnd (R.remaining reader.new)) }
{
    let mut at = 0;
    while at < into.len() {
        match read_behind(reader, into, at)? {
            0 => return Ok(at),
            n => at += n,
        }
    }
    Ok(at)
}

fn resolution_of(magic: u32) -> Option<Resolution>
    ensures { result ≡ resolution_of magic }
{
    if magic == MICROS_MAGIC {
        Some(Resolution::Micros)
    } else if magic == NANOS_MAGIC {
        Some(Resolution::Nanos)
    } else {
        None
    }
}

fn format_by_magic(octets: &[u8]) -> Option<Format>
    requires { 4 ≤ length octets.now }
    ensures { result ≡ format_by_magic octets.now }
{
    if let Some(resolution) = resolution_of(read_u32(Endian::Big, octets)) {
        return Some(Format {
            endian: Endian::Big,
            resolution,
        });
    }
    match resolution_of(read_u32(Endian::Little, octets)) {
        Some(resolution) => Some(Format {
            endian: Endian::Little,
            resolution,
        }),
        None => None,
    }
}

fn header_format(octets: &[u8]) -> Result<Format, CapFault>
    requires { 24 ≤ length octets.now }
    ensures format { result ≡ header_format octets.now }
    ensures fault { IfErr result (λ f. IsTrue (is_header_fault f)) }
{
    let Some(format) = format_by_magic(octets) else {
        return Err(CapFault::BadMagic);
    };
    let endian = format.endian;
    if read_u16(endian, &octets[4..]) != MAJOR_VERSION
        || read_u16(endian, &octets[6..]) != MINOR_VERSION
    {
        return Err(CapFault::BadVersion);
    }
    if read_u32(endian, &octets[20..]) != ETHERNET {
        return Err(CapFault::BadLink);
    }
    Ok(format)
}

/// Reads the file header and no octet more.
pub(crate) fn read_file_header<R: Read>(reader: &mut R) -> Result<Format, CapFault>
    ensures format { IfOk result (λ format. IfSome (R.remaining reader.old) (λ octets.
        (format_of octets ≡ Ok format) × (R.remaining reader.new ≡ Some (drop 24 octets)))) }
    ensures fault { IfErr result (λ f. IsHeaderFault (R.remaining reader.old) f) }
    ensures memory { IfErr result (λ f. f ≡ CapFault.Memory → ⊥) }
{
    let mut header = [0u8; FILE_HEADER];
    let Ok(count) = fill_whole(reader, &mut header) else {
        return Err(CapFault::Read);
    };
    if count < FILE_HEADER {
        return Err(CapFault::ShortHeader);
    }
    match header_format(&header) {
        Ok(format) => Ok(format),
        Err(fault) => Err(fault),
    }
}
