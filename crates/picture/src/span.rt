//! What is drawn in a lane.

/// A time from a moment on and before another, in picoseconds.
#[derive(Clone, Copy, Debug, PartialEq, Eq)]
pub struct Span {
    /// The first moment.
    pub from: u128,
    /// The first moment after it, at or after `from`.
    pub to: u128,
}

/// What is drawn in a lane: a time, and an identifier where it is one thing alone.
#[derive(Clone, Copy, Debug, PartialEq, Eq)]
pub struct Shape {
    /// When it is.
    pub span: Span,
    /// The frame's identifier, and of a band 0; none: it stands for more than one.
    pub id: Option<u64>,
}
