//! How far a line goes.

/// The last two octets of a line so far.
#[derive(Clone, Copy, Debug, PartialEq, Eq)]
pub struct Tail {
    /// The one before the last.
    pub before: u8,
    /// The last one.
    pub last: u8,
}

/// How a long line goes on among octets.
#[derive(Clone, Copy, Debug, PartialEq, Eq)]
pub struct LongRun {
    /// How many of them are its own, with the line feed that ends it.
    pub count: usize,
    /// Its last two octets before that line feed.
    pub tail: Tail,
    /// Whether it ends among them.
    pub has_ended: bool,
}
