//! A script that is kept: what its lines say, and the octets of those that begin with `tc`.

ghost use Rattle.replay.specs.KeptScript.{AreKept, IsKept-prop};

use std::alloc::{Allocator, Global};

/// What is kept of a line.
#[derive(Clone, Copy, Debug, PartialEq, Eq)]
pub enum KeptLine {
    /// The clock goes on to this moment, in picoseconds, at most `CAPTURE_END`.
    Clock(u128),
    /// A report is asked for.
    Query,
    /// The counters of this class are asked for.
    Count(u8),
    /// The line begins with `tc`, and its octets lie between these places of those that are kept.
    Tc {
        /// Where they begin.
        start: usize,
        /// Where they end.
        end: usize,
        /// The number of the line in the script, from 1.
        number: u32,
    },
}

/// The lines of a script that are not skipped. A line takes 32 octets, and its own where it begins with `tc`.
#[derive(Drop)]
pub struct KeptScript<A: Allocator = Global> {
    /// The lines, in order.
    pub lines: Vec<KeptLine, A>,
    /// The octets of those that begin with `tc`.
    pub octets: Vec<u8, A>,
    ghost kept: { AreKept octets.items lines.items } by { Prim.hlevel IsKept-prop },
}
