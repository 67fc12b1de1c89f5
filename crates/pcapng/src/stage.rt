//! What comes next of a capture.

use capture::Endian;

/// A block that is passed over.
#[derive(Clone, Copy, Debug)]
pub(crate) struct Passage {
    /// The order of its numbers.
    pub endian: Endian,
    /// How many octets come before the length at its end.
    pub left: u32,
    /// Its length.
    pub length: u32,
}

/// What comes next.
#[derive(Clone, Copy, Debug)]
pub(crate) enum Stage {
    /// A block.
    Blocks,
    /// The rest of a block that is passed over.
    Passing(Passage),
    /// Nothing that is read.
    Ended,
}
