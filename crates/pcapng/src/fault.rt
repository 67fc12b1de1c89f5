//! Why a capture in pcapng can't be read any further.

/// What is wrong with a block. One fault is found, in this order: `ShortBlock` where there are fewer than 12 octets; by
/// the first 12 `NotPcapng` or `BadByteOrder`, `BadLength`, `LongRecord`; `ShortBlock`; and of a block that is there
/// whole `BadLength` where its two lengths differ, and then the others as they stand here, with `LongRecord` of a packet
/// before `BadCaptured`.
#[derive(Clone, Copy, Debug, PartialEq, Eq)]
pub enum BlockKind {
    /// The first block is no section header.
    NotPcapng,
    /// The byte-order magic of a section header is 1A2B3C4D in neither order.
    BadByteOrder,
    /// The length of the block is below 12, no multiple of 4, or too short for its kind, or differs from the one at its
    /// end.
    BadLength,
    /// A packet has more than `MAX_RECORD_OCTETS` octets, or a block that is read more than `MAX_BLOCK_OCTETS`.
    LongRecord,
    /// The input ends within the block, or before the first one.
    ShortBlock,
    /// The major version of a section is not 1.
    BadVersion,
    /// A section describes more than `MAX_INTERFACES` interfaces.
    TooManyInterfaces,
    /// An option goes past its block, or hasn't the length that it must have.
    BadOption,
    /// A packet is of an interface that its section hasn't described.
    NoInterface,
    /// A packet is of an interface whose link type is this one, and not 1, Ethernet.
    BadLink(u16),
    /// The captured octets of a packet go past its block.
    BadCaptured,
    /// A packet came before 1970, or 2^32 seconds or more after it.
    BadMoment,
}

/// A block that can't be read.
#[derive(Clone, Copy, Debug, PartialEq, Eq)]
pub struct BlockFault {
    /// Which block of the input, from 0.
    pub number: u64,
    /// The place of its first octet in the input, from 0.
    pub at: u64,
    /// What is wrong with it.
    pub kind: BlockKind,
}

/// What was met while a capture was translated.
#[derive(Clone, Copy, Debug, PartialEq, Eq)]
pub struct Note {
    /// The block that ended the translation, if one did.
    pub fault: Option<BlockFault>,
    /// How many packets had a moment that wasn't a whole number of nanoseconds. It was rounded down.
    pub rounded: u64,
}
