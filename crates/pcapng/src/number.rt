//! Numbers in the order of octets of their section.

ghost use Rattle.std.specs.Prelude.{◌≡◌, ◌≤◌, length};
ghost use Rattle.capture.specs.Numbers.{u16_at, u32_at};
ghost use Rattle.pcapng.specs.Blocks.{u64_at};

use byteorder::{BigEndian, ByteOrder, LittleEndian};
use capture::Endian;

/// The first two octets as a number.
pub(crate) fn read_u16(endian: Endian, octets: &[u8]) -> u16
    requires { 2 ≤ length octets.now }
    ensures { result ≡ u16_at endian octets.now }
{
    match endian {
        Endian::Big => BigEndian::read_u16(octets),
        Endian::Little => LittleEndian::read_u16(octets),
    }
}

/// The first four octets as a number.
pub(crate) fn read_u32(endian: Endian, octets: &[u8]) -> u32
    requires { 4 ≤ length octets.now }
    ensures { result ≡ u32_at endian octets.now }
{
    match endian {
        Endian::Big => BigEndian::read_u32(octets),
        Endian::Little => LittleEndian::read_u32(octets),
    }
}

/// The first eight octets as a number.
pub(crate) fn read_u64(endian: Endian, octets: &[u8]) -> u64
    requires { 8 ≤ length octets.now }
    ensures { result ≡ u64_at endian octets.now }
{
    match endian {
        Endian::Big => BigEndian::read_u64(octets),
        Endian::Little => LittleEndian::read_u64(octets),
    }
}
