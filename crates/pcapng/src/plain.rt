//! The packets that most captures consist of: each a whole enhanced packet block, little-endian, of an interface of
//! Ethernet whose time stamps are nanoseconds. A few comparisons tell them; every other block is found by `block`.

ghost use Rattle.std.specs.Prelude.{◌≡◌, ◌≤◌, length, drop, slice_get, Some, Ok, IsTrue};
ghost use Rattle.capture.specs.Numbers.{u32_at};
ghost use Rattle.pcapng.specs.Found.{found, IsFound};
ghost use Rattle.pcapng.specs.Plain.{plain_packet, plain_found, IsPlainBlock, IsPlainInterface, IsPlainPacket};

use crate::block::MAX_BLOCK_OCTETS;
use crate::interface::Interface;
use crate::number::read_u32;
use crate::packet::{END, ETHERNET, Packet};
use capture::{Endian, MAX_RECORD_OCTETS};

/// The type of an enhanced packet block.
const ENHANCED: u32 = 6;

/// The resolution of nanoseconds: 10^9 ticks a second.
const NANOSECONDS: u8 = 9;

/// How many octets an enhanced packet block has beside those of its packet and its options.
const LEAST: u32 = 32;

/// Whether a section has begun that is little-endian.
fn is_little(section: Option<Endian>) -> bool
    ensures { IsTrue result → section ≡ Some Endian.Little }
{
    matches!(section, Some(Endian::Little))
}

/// Whether these octets begin with a whole enhanced packet block, little-endian, that says its length twice.
fn is_plain_block(octets: &[u8]) -> bool
    requires { LEAST ≤ length octets.now }
    ensures { IsTrue result → IsPlainBlock octets.now }
{
    let size = read_u32(Endian::Little, &octets[4..]);
    if size < LEAST || size > MAX_BLOCK_OCTETS || octets.len() < size as usize {
        return false;
    }
    let end = size as usize - 4;
    read_u32(Endian::Little, octets) == ENHANCED
        && size % 4 == 0
        && read_u32(Endian::Little, &octets[end..]) == size
}

/// Whether the interface with this number is of Ethernet and nanoseconds, with no seconds added.
fn is_plain_interface(interfaces: &[Interface], number: usize) -> bool
    ensures { IsTrue result → IsPlainInterface (slice_get interfaces.now number) }
{
    match interfaces.get(number) {
        Some(interface) => {
            interface.link == ETHERNET
                && interface.resolution == NANOSECONDS
                && interface.offset == 0
        }
        None => false,
    }
}

/// Whether a block with so much room has the octets of the packet, and a classic capture can have it.
fn is_plain_packet(packet: &Packet, room: u32) -> bool
    ensures { IsTrue result → IsPlainPacket room packet.now }
{
    packet.captured <= room
        && packet.captured <= MAX_RECORD_OCTETS
        && u128::from(packet.moment) < END
}

/// The packet of such a block.
pub(crate) fn plain_packet(octets: &[u8]) -> Packet
    requires { 28 ≤ length octets.now }
    ensures { result ≡ plain_packet octets.now }
{
    let high = u64::from(read_u32(Endian::Little, &octets[12..]));
    let low = u64::from(read_u32(Endian::Little, &octets[16..]));
    Packet {
        moment: high * 0x1_0000_0000 + low,
        is_rounded: false,
        captured: read_u32(Endian::Little, &octets[20..]),
        original: read_u32(Endian::Little, &octets[24..]),
        start: 28,
    }
}

/// Whether the first block of these octets is such a packet, and has no fault.
pub(crate) fn is_plain(section: Option<Endian>, interfaces: &[Interface], octets: &[u8]) -> bool
    ensures found { IsTrue result →
        found section interfaces.now octets.now ≡ Ok (plain_found octets.now) }
    ensures fits { IsTrue result →
        IsFound (length interfaces.now) (length octets.now) (plain_found octets.now) }
{
    if !is_little(section) || octets.len() < LEAST as usize || !is_plain_block(octets) {
        return false;
    }
    let number = read_u32(Endian::Little, &octets[8..]) as usize;
    let room = read_u32(Endian::Little, &octets[4..]) - LEAST;
    is_plain_interface(interfaces, number) && is_plain_packet(&plain_packet(octets), room)
}
