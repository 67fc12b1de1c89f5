//! How long the frames of flows wait in a class that a schedule keeps apart, exactly and for ever.
//!
//! The whole claim is specs/Claim.antt, the contract of `laws::answers`. What is answered is that of `bound_flows`.
#![tactic(auto)]

use std::alloc::{Allocator, Global};

mod extremes;
pub mod fit;
mod idle_wait;
pub mod laws;
mod line;
mod look;
mod moments;
mod walk;

pub use idle_wait::longest_wait;
pub use walk::bound_flows;

/// A flow, or stream: frames that come for ever, one each period. Times are in picoseconds.
#[derive(Clone, Copy, Debug, PartialEq, Eq)]
pub struct Flow {
    /// How long a frame occupies the wire.
    pub need: u128,
    /// From one frame to the next.
    pub period: u128,
    /// From the change moment of the schedule to the first frame.
    pub offset: u128,
}

/// What is told of a frame.
#[derive(Clone, Copy, Debug, PartialEq, Eq)]
pub struct Told {
    /// The place of its flow.
    pub place: usize,
    /// From its arrival to its start, in picoseconds.
    pub wait: u128,
    /// How many frames wait when it has come, itself among them.
    pub waiting: usize,
}

/// The least and the greatest time from the arrival of a flow's frame to its start, in picoseconds.
#[derive(Clone, Copy, Debug, PartialEq, Eq)]
pub struct Bound {
    /// The least.
    pub least: u128,
    /// The greatest.
    pub greatest: u128,
}

/// The bounds of flows, which hold for ever.
#[derive(Drop)]
pub struct Bounded<A: Allocator = Global> {
    /// The bounds of each flow.
    pub bounds: Vec<Bound, A>,
    /// The greatest number of frames that ever wait at once.
    pub most: usize,
    /// In the long run so many frames come in each `every` picoseconds.
    pub frames: u64,
    /// After so many picoseconds, which are whole cycles, all goes on as before.
    pub every: u128,
}

/// A frame of flows.
#[derive(Clone, Copy, Debug, PartialEq, Eq)]
pub struct FlowFrame {
    /// The place of its flow.
    pub place: usize,
    /// How many frames of its flow come before it.
    pub before: u128,
    /// How many frames of all flows come before it.
    pub earlier: u64,
    /// When it comes, in picoseconds since the change moment of the schedule.
    pub moment: u128,
}

/// A frame that finds no room.
#[derive(Clone, Copy, Debug, PartialEq, Eq)]
pub struct Refused {
    /// The place of its flow.
    pub place: usize,
    /// How many frames of its flow come before it.
    pub before: u128,
    /// When it comes, in picoseconds since the change moment of the schedule.
    pub moment: u128,
}

/// Why flows have no bounds.
#[derive(Clone, Copy, Debug, PartialEq, Eq)]
pub enum Unbound {
    /// The first frame that finds no room.
    Full(FlowFrame),
    /// The first frame that fits into no window of a cycle, so that it never starts; and the first that then finds no
    /// room, if it comes by the greatest moment.
    Never(FlowFrame, Option<Refused>),
    /// So many frames as may be were walked, and the backlog grows for ever: at any room some frame finds none.
    Overloaded,
    /// So many frames as may be were walked, and the state did not come again; nor was the backlog seen to grow for
    /// ever.
    Long,
    /// A frame can't start before the greatest moment.
    Late,
    /// Out of memory.
    Memory,
}
