//! The bounds of a class that a schedule keeps apart, and whose talkers are synchronised but have jitter: for each flow
//! the least and the greatest time from a frame's earliest moment to its start, and the most frames that ever wait at
//! once. All are exact: the greatest and the most are the least that hold.
//!
//! What is answered is that of `window_bounds`: specs/Least.antt, or else specs/Unbound.antt.
#![tactic(auto)]

mod beats;
mod late_run;
mod least;
mod notes;
mod overload;
mod slots;
mod step;
mod walk;
mod whole;

use delay_bounds::Bound;
use std::alloc::{Allocator, Global};
pub use whole::window_bounds;

/// Frames of one sender, one each period: frame n comes at `offset` and n periods, or up to the jitter later. Times are
/// in picoseconds.
#[derive(Clone, Copy, Debug, PartialEq, Eq)]
pub struct JitteredFlow {
    /// From the change moment of the schedule to the first frame, at the earliest.
    pub offset: u128,
    /// From one frame to the next.
    pub period: u128,
    /// By how much a frame may be late.
    pub jitter: u128,
    /// How long a frame occupies the wire at the least.
    pub shortest: u128,
    /// How long a frame occupies the wire at the most.
    pub longest: u128,
}

/// The bounds of flows, which hold for ever.
#[derive(Drop)]
pub struct Bounded<A: Allocator = Global> {
    /// The bounds of each flow: from the earliest moment of a frame to its start, in picoseconds.
    pub bounds: Vec<Bound, A>,
    /// The greatest number of frames that wait at once.
    pub most: u64,
}

/// Why flows have no bounds.
#[derive(Clone, Copy, Debug, PartialEq, Eq)]
pub enum Unbound {
    /// In the long run more frames come than the windows take.
    Overloaded,
    /// No window takes the longest frame.
    Stuck,
    /// So many frames as may be were looked at, and the late run is not yet as it was.
    Long,
    /// A frame can't start before the greatest moment.
    Late,
    /// Out of memory.
    Memory,
}
