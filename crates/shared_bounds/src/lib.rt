//! The bounds of a class that shares its windows with others, under strict priority: the longest wait of a frame, and
//! the most that ever wait at once. Both are the least that the slots of the plan give.
//!
//! What is answered is that of `shared_bounds`: specs/Least.antt, or else specs/Unbound.antt.
#![tactic(auto)]

mod above;
mod busy;
pub mod laws;
mod next;
mod place;
pub mod sharing;
mod slots;
mod walk;

use burst_bounds::{Bounds, Talker};
pub use walk::shared_bounds;

/// What is known of a class, one of the eight. Times are in picoseconds.
#[derive(Clone, Copy, Debug)]
pub struct ClassTraffic<'a> {
    /// For how long a frame of it that may start occupies the wire at most, less than 2^60; 0: none may. It is no less
    /// than what each talker needs.
    pub need: u128,
    /// Its talkers.
    pub talkers: &'a [Talker],
    /// Its bounds, with a wait of less than 2^100. Only those of the higher classes are looked at.
    pub bounds: Bounds,
}

/// Why a class has no bounds.
#[derive(Clone, Copy, Debug, PartialEq, Eq)]
pub enum Unbound {
    /// No window takes the longest frame.
    Stuck,
    /// No window takes the longest frame behind one of another class that may have the wire when it opens.
    Blocked,
    /// From some moment on the class is busy for more slots than may be looked at, or until the latest moment.
    Long,
    /// Out of memory.
    Memory,
}
