//! A frame of an input.

/// A frame of an input.
#[derive(Clone, Copy, Debug, PartialEq, Eq)]
pub struct Frame {
    /// What it is called: its ID in a table, and where frames are compared by it; else the number of its record, from 0.
    pub name: u64,
    /// When it left, in picoseconds.
    pub moment: u128,
    /// What it has in common with the frames that it may be compared with.
    pub key: u64,
}
