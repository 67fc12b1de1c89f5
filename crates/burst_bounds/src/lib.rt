//! The bounds of a class that a schedule keeps apart, and whose talkers aren't synchronised: the longest wait of a
//! frame, and the most that ever wait at once. Both are the least that hold.
//!
//! What is answered is that of `burst_bounds`: specs/Least.antt, or else specs/Answer.antt.
#![tactic(auto)]

pub mod arrivals;
pub mod busy;
pub mod laws;
mod moments;
pub mod rate;
pub mod repeats;
pub mod slots;
mod walk;

pub use walk::burst_bounds;

/// Frames of one sender, of which nothing is known but how far apart they come: any n of them span at least n - 1
/// periods, less the jitter. Times are in picoseconds.
#[derive(Clone, Copy, Debug, PartialEq, Eq)]
pub struct Talker {
    /// How long a frame occupies the wire at most.
    pub need: u128,
    /// From one frame to the next, at the least.
    pub period: u128,
    /// By how much a frame may be late.
    pub jitter: u128,
}

/// The bounds of a class.
#[derive(Clone, Copy, Debug, PartialEq, Eq)]
pub struct Bounds {
    /// The longest time from a frame's arrival to its start, in picoseconds.
    pub wait: u128,
    /// The greatest number of frames that wait at once.
    pub most: usize,
}

/// Why a class has no bounds.
#[derive(Clone, Copy, Debug, PartialEq, Eq)]
pub enum Unbound {
    /// In the long run more frames come than the windows take.
    Overloaded,
    /// No window takes the longest frame.
    Stuck,
    /// From some moment on the class is busy with more frames than may be looked at, or until the greatest moment.
    Long,
    /// Out of memory.
    Memory,
}
