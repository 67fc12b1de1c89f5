//! Packets, as their blocks say them.

ghost use Rattle.std.specs.Prelude.{◌≡◌, ◌≤◌, ◌<◌, ◌^◌, length, slice_get, IfSome, IfNone, IfOk};
ghost use Rattle.pcapng.specs.Packets.{ticks_of_second, nanoseconds_of, is_part_left, early, with_offset, moment_of};
ghost use Rattle.pcapng.specs.Packets.{is_rounded, captured_of, packet_with, packet_of, stamped_fields, IsPacketOf};
ghost use Rattle.pcapng.specs.Packets.{enhanced_packet, obsolete_packet, simple_packet, IsFramed};

use crate::fault::BlockKind;
use crate::interface::Interface;
use crate::number::{read_u16, read_u32};
use capture::{Endian, MAX_RECORD_OCTETS};

/// The link type of Ethernet.
pub(crate) const ETHERNET: u16 = 1;

/// The nanoseconds of a second.
const SECOND: u128 = 1_000_000_000;

/// The first moment that a classic capture can't say, in nanoseconds: its seconds have 32 bits.
pub(crate) const END: u128 = 4_294_967_296_000_000_000;

/// What a packet's block says of it.
#[derive(Clone, Copy)]
pub(crate) struct Fields {
    /// The time stamp, in ticks.
    ticks: Option<u64>,
    /// How many octets were captured.
    captured: Option<u32>,
    /// How many octets the frame had.
    original: u32,
    /// The place of the first octet captured.
    start: u32,
    /// How many octets the block has room for.
    room: u32,
}

/// A packet.
#[derive(Clone, Copy)]
pub(crate) struct Packet {
    /// The moment, in nanoseconds since 1970.
    pub moment: u64,
    /// Whether the moment is rounded down.
    pub is_rounded: bool,
    /// How many octets were captured.
    pub captured: u32,
    /// How many octets the frame had.
    pub original: u32,
    /// The place of the first octet captured.
    pub start: u32,
}

/// How many ticks a second has; None: 10^39 or more.
fn ticks_of_second(resolution: u8) -> Option<u128>
    ensures few { IfSome result (λ ticks. (ticks ≡ ticks_of_second resolution) × (0 < ticks)) }
    ensures many { IfNone result (10 ^ 39 ≤ ticks_of_second resolution) }
{
    if resolution >= 128 {
        return Some(1 << (resolution - 128));
    }
    if resolution >= 39 {
        return None;
    }
    let mut ticks: u128 = 1;
    for _ in 0..resolution {
        ticks *= 10;
    }
    Some(ticks)
}

/// So many ticks in whole nanoseconds, and whether a part of one is left out.
#[inline(never)]
fn divided(resolution: u8, ticks: u64) -> (u128, bool)
    ensures whole { result.0 ≡ nanoseconds_of resolution ticks }
    ensures bound { result.0 < 2 ^ 94 }
    ensures part { result.1 ≡ is_part_left resolution ticks }
{
    let scaled = u128::from(ticks) * SECOND;
    match ticks_of_second(resolution) {
        Some(second) => (scaled / second, scaled % second != 0),
        None => (0, scaled != 0),
    }
}

/// The same, at once for nanoseconds and microseconds.
fn nanoseconds(resolution: u8, ticks: u64) -> (u128, bool)
    ensures whole { result.0 ≡ nanoseconds_of resolution ticks }
    ensures bound { result.0 < 2 ^ 94 }
    ensures part { result.1 ≡ is_part_left resolution ticks }
{
    match resolution {
        9 => (u128::from(ticks), false),
        6 => (u128::from(ticks) * 1_000, false),
        _ => divided(resolution, ticks),
    }
}

/// A moment where a classic capture can say it.
fn early(moment: u128) -> Option<u64>
    ensures moment { result ≡ early moment }
    ensures early { IfSome result (λ m. m < 4294967296000000000) }
{
    if moment < END {
        Some(moment as u64)
    } else {
        None
    }
}

/// A moment, and the seconds of an offset.
fn with_offset(moment: u128, offset: u64) -> Option<u64>
    requires { moment < 2 ^ 94 }
    ensures moment { result ≡ with_offset moment offset }
    ensures early { IfSome result (λ m. m < 4294967296000000000) }
{
    if offset < 0x8000_0000_0000_0000 {
        return early(moment + u128::from(offset) * SECOND);
    }
    let back = (0x1_0000_0000_0000_0000 - u128::from(offset)) * SECOND;
    if moment < back {
        return None;
    }
    early(moment - back)
}

/// The octets captured.
fn captured_of(captured: Option<u32>, snap: u32, original: u32) -> u32
    ensures { result ≡ captured_of captured snap original }
{
    match captured {
        Some(captured) => captured,
        None if snap == 0 => original,
        None => original.min(snap),
    }
}

/// The moment of a packet, where a classic capture can say it, and whether it is rounded down.
fn moment_of(interface: Interface, ticks: Option<u64>) -> (Option<u64>, bool)
    ensures moment { result.0 ≡ moment_of interface ticks }
    ensures rounded { result.1 ≡ is_rounded interface ticks }
    ensures early { IfSome result.0 (λ m. m < 4294967296000000000) }
{
    match ticks {
        Some(ticks) => {
            let (moment, is_rounded) = nanoseconds(interface.resolution, ticks);
            (with_offset(moment, interface.offset), is_rounded)
        }
        None => (Some(0), false),
    }
}

/// A packet with so many octets captured.
fn packet_with(interface: Interface, captured: u32, fields: Fields) -> Result<Packet, BlockKind>
    ensures packet { result ≡ packet_with interface captured fields }
    ensures within { IfOk result (λ p. IsPacketOf fields p) }
{
    if captured > MAX_RECORD_OCTETS {
        return Err(BlockKind::LongRecord);
    }
    if captured > fields.room {
        return Err(BlockKind::BadCaptured);
    }
    match moment_of(interface, fields.ticks) {
        (Some(moment), is_rounded) => Ok(Packet {
            moment,
            is_rounded,
            captured,
            original: fields.original,
            start: fields.start,
        }),
        (None, _) => Err(BlockKind::BadMoment),
    }
}

/// A packet of the interface with this number.
fn packet_of(interfaces: &[Interface], number: usize, fields: Fields) -> Result<Packet, BlockKind>
    ensures packet { result ≡ packet_of (slice_get interfaces.now number) fields }
    ensures within { IfOk result (λ p. IsPacketOf fields p) }
{
    let Some(&interface) = interfaces.get(number) else {
        return Err(BlockKind::NoInterface);
    };
    if interface.link != ETHERNET {
        return Err(BlockKind::BadLink(interface.link));
    }
    let captured = captured_of(fields.captured, interface.snap, fields.original);
    packet_with(interface, captured, fields)
}

/// What a block with a time stamp says.
fn stamped_fields(endian: Endian, block: &[u8]) -> Fields
    requires least { 32 ≤ length block.now }
    requires most { length block.now < 2 ^ 32 }
    ensures { result ≡ stamped_fields endian block.now }
{
    let high = u64::from(read_u32(endian, &block[12..]));
    let low = u64::from(read_u32(endian, &block[16..]));
    Fields {
        ticks: Some(high * 0x1_0000_0000 + low),
        captured: Some(read_u32(endian, &block[20..])),
        original: read_u32(endian, &block[24..]),
        start: 28,
        room: (block.len() - 32) as u32,
    }
}

/// The packet of an enhanced packet block.
pub(crate) fn enhanced_packet(
    endian: Endian,
    interfaces: &[Interface],
    block: &[u8],
) -> Result<Packet, BlockKind>
    requires least { 32 ≤ length block.now }
    requires most { length block.now < 2 ^ 32 }
    ensures packet { result ≡ enhanced_packet endian interfaces.now block.now }
    ensures within { IfOk result (λ p. IsFramed (length block.now) p) }
{
    let number = read_u32(endian, &block[8..]) as usize;
    packet_of(interfaces, number, stamped_fields(endian, block))
}

/// The packet of a packet block of old.
pub(crate) fn obsolete_packet(
    endian: Endian,
    interfaces: &[Interface],
    block: &[u8],
) -> Result<Packet, BlockKind>
    requires least { 32 ≤ length block.now }
    requires most { length block.now < 2 ^ 32 }
    ensures packet { result ≡ obsolete_packet endian interfaces.now block.now }
    ensures within { IfOk result (λ p. IsFramed (length block.now) p) }
{
    let number = usize::from(read_u16(endian, &block[8..]));
    packet_of(interfaces, number, stamped_fields(endian, block))
}

/// The packet of a simple packet block.
pub(crate) fn simple_packet(
    endian: Endian,
    interfaces: &[Interface],
    block: &[u8],
) -> Result<Packet, BlockKind>
    requires least { 16 ≤ length block.now }
    requires most { length block.now < 2 ^ 32 }
    ensures packet { result ≡ simple_packet endian interfaces.now block.now }
    ensures within { IfOk result (λ p. IsFramed (length block.now) p) }
{
    let fields = Fields {
        ticks: None,
        captured: None,
        original: read_u32(endian, &block[8..]),
        start: 12,
        room: (block.len() - 16) as u32,
    };
    packet_of(interfaces, 0, fields)
}
