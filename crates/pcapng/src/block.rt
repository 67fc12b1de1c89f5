//! Blocks, and what the first one of octets is.

ghost use Rattle.std.specs.Prelude.{◌≡◌, ◌≤◌, ◌<◌, ◌^◌, length, take, Some, IfOk, IsOk};
ghost use Rattle.pcapng.specs.Blocks.{kind_of, fewest_octets, order_said, order_for, checked_head, head_of};
ghost use Rattle.pcapng.specs.Found.{section_of, description_of, framed, content_of};
ghost use Rattle.pcapng.specs.Found.{whole_block, found_by, found, is_short, IsContent, IsFound};

use crate::fault::BlockKind;
use crate::interface::{Interface, interface_of};
use crate::number::{read_u16, read_u32};
use crate::packet::{Packet, enhanced_packet, obsolete_packet, simple_packet};
use capture::Endian;

/// The most octets of a block that is read. Others are passed over, whatever their length.
pub const MAX_BLOCK_OCTETS: u32 = 524_288;

/// The most interfaces of a section.
pub const MAX_INTERFACES: usize = 256;

/// The type of a section header, the same in both orders.
pub(crate) const SECTION_HEADER: u32 = 0x0a0d_0d0a;

/// What a section header says its order by.
const BYTE_ORDER: u32 = 0x1a2b_3c4d;

/// The version of the format, its first number.
const MAJOR_VERSION: u16 = 1;

/// The blocks that are read.
#[derive(Clone, Copy)]
pub(crate) enum Kind {
    /// A section header: a section begins.
    SectionHeader,
    /// An interface description.
    Description,
    /// The packet block of old.
    Obsolete,
    /// A simple packet block.
    Simple,
    /// An enhanced packet block.
    Enhanced,
}

/// The front of a block.
#[derive(Clone, Copy)]
pub(crate) struct Head {
    /// The order of its numbers.
    pub endian: Endian,
    /// What it is, if it is read.
    pub kind: Option<Kind>,
    /// How many octets it has.
    pub length: u32,
}

/// What a block has in it.
#[derive(Clone, Copy)]
pub(crate) enum Content {
    /// A section begins.
    Section,
    /// An interface.
    Described(Interface),
    /// A packet.
    Framed(Packet),
    /// Nothing that is read.
    Passed,
}

/// What a block is.
#[derive(Clone, Copy)]
pub(crate) struct Found {
    /// The order of its numbers.
    pub endian: Endian,
    /// How many octets it has.
    pub length: u32,
    /// What it has in it.
    pub content: Content,
}

fn kind_of(number: u32) -> Option<Kind>
    ensures { result ≡ kind_of number }
{
    match number {
        SECTION_HEADER => Some(Kind::SectionHeader),
        1 => Some(Kind::Description),
        2 => Some(Kind::Obsolete),
        3 => Some(Kind::Simple),
        6 => Some(Kind::Enhanced),
        _ => None,
    }
}

fn fewest_octets(kind: Option<Kind>) -> u32
    ensures { result ≡ fewest_octets kind }
{
    match kind {
        Some(Kind::SectionHeader) => 28,
        Some(Kind::Description) => 20,
        Some(Kind::Obsolete | Kind::Enhanced) => 32,
        Some(Kind::Simple) => 16,
        None => 12,
    }
}

fn order_said(octets: &[u8]) -> Result<Endian, BlockKind>
    requires { 4 ≤ length octets.now }
    ensures { result ≡ order_said octets.now }
{
    if read_u32(Endian::Big, octets) == BYTE_ORDER {
        return Ok(Endian::Big);
    }
    if read_u32(Endian::Little, octets) == BYTE_ORDER {
        return Ok(Endian::Little);
    }
    Err(BlockKind::BadByteOrder)
}

/// The order of a block's numbers, in a section of this order or before the first.
fn order_for(section: Option<Endian>, octets: &[u8]) -> Result<Endian, BlockKind>
    requires { 12 ≤ length octets.now }
    ensures { result ≡ order_for section octets.now }
{
    if read_u32(Endian::Big, octets) == SECTION_HEADER {
        return order_said(&octets[8..]);
    }
    match section {
        Some(endian) => Ok(endian),
        None => Err(BlockKind::NotPcapng),
    }
}

fn checked_head(head: Head) -> Result<Head, BlockKind>
    ensures head { result ≡ checked_head head }
    ensures length { IfOk result (λ h. fewest_octets h.kind ≤ h.length) }
{
    if head.length < fewest_octets(head.kind) || head.length % 4 != 0 {
        return Err(BlockKind::BadLength);
    }
    if head.kind.is_some() && head.length > MAX_BLOCK_OCTETS {
        return Err(BlockKind::LongRecord);
    }
    Ok(head)
}

/// The front of a block.
fn head_of(section: Option<Endian>, octets: &[u8]) -> Result<Head, BlockKind>
    requires { 12 ≤ length octets.now }
    ensures head { result ≡ head_of section octets.now }
    ensures length { IfOk result (λ h. fewest_octets h.kind ≤ h.length) }
{
    match order_for(section, octets) {
        Ok(endian) => checked_head(Head {
            endian,
            kind: kind_of(read_u32(endian, octets)),
            length: read_u32(endian, &octets[4..]),
        }),
        Err(kind) => Err(kind),
    }
}

/// A section begins, of a version that is known.
fn section_of(endian: Endian, block: &[u8]) -> Result<Content, BlockKind>
    requires { 28 ≤ length block.now }
    ensures { result ≡ section_of endian block.now }
{
    if read_u16(endian, &block[12..]) != MAJOR_VERSION {
        return Err(BlockKind::BadVersion);
    }
    Ok(Content::Section)
}

/// One more interface, where there is room for it.
fn description_of(
    endian: Endian,
    interfaces: &[Interface],
    block: &[u8],
) -> Result<Content, BlockKind>
    requires { 20 ≤ length block.now }
    ensures content { result ≡ description_of endian interfaces.now block.now }
    ensures room { IsOk result → length interfaces.now < MAX_INTERFACES }
{
    if interfaces.len() >= MAX_INTERFACES {
        return Err(BlockKind::TooManyInterfaces);
    }
    match interface_of(endian, block) {
        Ok(interface) => Ok(Content::Described(interface)),
        Err(kind) => Err(kind),
    }
}

/// A packet as what a block has in it.
fn framed(packet: Result<Packet, BlockKind>) -> Result<Content, BlockKind>
    ensures { result ≡ framed packet }
{
    match packet {
        Ok(packet) => Ok(Content::Framed(packet)),
        Err(kind) => Err(kind),
    }
}

/// What a whole block of a kind that is read has in it.
fn content_of(
    kind: Kind,
    endian: Endian,
    interfaces: &[Interface],
    block: &[u8],
) -> Result<Content, BlockKind>
    requires least { fewest_octets (Some kind) ≤ length block.now }
    requires most { length block.now < 2 ^ 32 }
    ensures content { result ≡ content_of kind endian interfaces.now block.now }
    ensures fits { IfOk result (λ content.
        IsContent (length interfaces.now) (length block.now) content) }
{
    match kind {
        Kind::SectionHeader => section_of(endian, block),
        Kind::Description => description_of(endian, interfaces, block),
        Kind::Obsolete => framed(obsolete_packet(endian, interfaces, block)),
        Kind::Simple => framed(simple_packet(endian, interfaces, block)),
        Kind::Enhanced => framed(enhanced_packet(endian, interfaces, block)),
    }
}

/// What a block is, whose octets are all there.
fn whole_block(
    kind: Kind,
    head: Head,
    interfaces: &[Interface],
    block: &[u8],
) -> Result<Found, BlockKind>
    requires least { fewest_octets (Some kind) ≤ head.length }
    requires whole { length block.now ≡ head.length }
    ensures found { result ≡ whole_block kind head interfaces.now block.now }
    ensures fits { IfOk result (λ f. IsFound (length interfaces.now) (length block.now) f) }
{
    let end = block.len() - 4;
    if read_u32(head.endian, &block[end..]) != head.length {
        return Err(BlockKind::BadLength);
    }
    match content_of(kind, head.endian, interfaces, block) {
        Ok(content) => Ok(Found {
            endian: head.endian,
            length: head.length,
            content,
        }),
        Err(kind) => Err(kind),
    }
}

/// What a block with this front is.
fn found_by(head: Head, interfaces: &[Interface], octets: &[u8]) -> Result<Found, BlockKind>
    requires least { fewest_octets head.kind ≤ head.length }
    requires some { 12 ≤ length octets.now }
    ensures found { result ≡ found_by head.kind head interfaces.now octets.now }
    ensures fits { IfOk result (λ f. IsFound (length interfaces.now) (length octets.now) f) }
{
    let size = head.length as usize;
    match head.kind {
        None => Ok(Found {
            endian: head.endian,
            length: head.length,
            content: Content::Passed,
        }),
        Some(_) if octets.len() < size => Err(BlockKind::ShortBlock),
        Some(kind) => whole_block(kind, head, interfaces, &octets[..size]),
    }
}

/// What the first block of these octets is, in a section of this order with these interfaces, or before the first one.
/// `ShortBlock`: more of it is wanted.
pub(crate) fn find(
    section: Option<Endian>,
    interfaces: &[Interface],
    octets: &[u8],
) -> Result<Found, BlockKind>
    ensures found { result ≡ found section interfaces.now octets.now }
    ensures fits { IfOk result (λ f. IsFound (length interfaces.now) (length octets.now) f) }
{
    if octets.len() < 12 {
        return Err(BlockKind::ShortBlock);
    }
    match head_of(section, octets) {
        Ok(head) => found_by(head, interfaces, octets),
        Err(kind) => Err(kind),
    }
}

/// Whether more of the block is wanted.
pub(crate) fn is_short(kind: BlockKind) -> bool
    ensures { result ≡ is_short kind }
{
    matches!(kind, BlockKind::ShortBlock)
}
