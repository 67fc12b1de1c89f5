//! When the cycles of a schedule start: the Cycle Timer (IEEE Std 802.1Q-2018, 8.6.9.1).
//!
//! The contract is that of each call of `CycleTimer`, in the terms of specs/Cycle.antt.
ghost use Rattle.std.specs.Prelude.{◌≡◌, ℕ, ◌+◌, ◌*◌, ◌/◌, ◌<◌, ◌≤◌};
ghost use Rattle.wire_time.specs.Moment.{greatest_moment};
ghost use Rattle.gates.specs.Cycle.{begun_at, fired, retargeted, jumped};

use std::marker::Model;
use wire_time::quotient;

/// The cycle that runs, and when the next one starts. All moments are in picoseconds.
#[derive(Clone, Copy, Debug, PartialEq, Eq)]
pub struct CycleTimer {
    started: u128,
    next_start: u128,
    length: u128,
}

/// A contract sees the cycle.
impl Model for CycleTimer {
    ghost use Rattle.std.specs.Prelude.{◌<◌, ◌≤◌, ◌*◌};
    ghost use Rattle.wire_time.specs.Moment.{greatest_moment};
    ghost use Rattle.gates.specs.Cycle.{Cycle};

    ghost Value = { Cycle };

    ghost view = { λ t. record {
      started = t.started;
      next_start = t.next_start;
      length = t.length;
    } };

    ghost invariant = { λ t. (t.started < t.next_start) × (0 < t.length)
        × (t.length ≤ 4 * greatest_moment) };

    ghost inverse = { λ c. record {
      started = c.started;
      next_start = c.next_start;
      length = c.length;
    } };
}

/// How long the whole cycles last that are over after so long. Mostly none is over, and a division takes long.
fn whole_cycles(past: u128, length: u128) -> u128
    requires { 0 < length }
    ensures { result ≡ length * (past / length) }
{
    if past < length {
        return 0;
    }
    length * quotient(past, length)
}

impl CycleTimer {
    /// A cycle from `start` on; the next one starts one cycle later.
    pub fn begin(start: u128, cycle: u128) -> CycleTimer
        requires above { 0 < cycle }
        requires start { start ≤ 4 * greatest_moment }
        requires cycle { cycle ≤ 4 * greatest_moment }
        ensures { result ≡ begun_at start cycle }
    {
        CycleTimer {
            started: start,
            next_start: start + cycle,
            length: cycle,
        }
    }

    /// The moment at which the cycle that runs has started.
    pub fn started(&self) -> u128
        ensures value { result ≡ self.now.started }
        ensures before { result < self.now.next_start }
    {
        self.started
    }

    /// The moment at which the next cycle starts, which is after `started`.
    pub fn next_start(&self) -> u128
        ensures value { result ≡ self.now.next_start }
        ensures after { self.now.started < result }
    {
        self.next_start
    }

    /// The next cycle: it starts where this one ends, and the one after it starts one cycle later.
    pub fn fire(self) -> CycleTimer
        requires { self.next_start ≤ 4 * greatest_moment }
        ensures { result ≡ fired self }
    {
        CycleTimer {
            started: self.next_start,
            next_start: self.next_start + self.length,
            length: self.length,
        }
    }

    /// Makes the next cycle start at `change`.
    pub fn retarget(&mut self, change: u128)
        requires { self.old.started < change }
        ensures { self.new ≡ retargeted self.old change }
    {
        self.next_start = change;
    }

    /// Goes to the cycle that holds `t`, counted from `started` alone: a change of the next start is forgotten.
    pub fn jump_to(&mut self, t: u128)
        requires later { self.old.started ≤ t }
        requires within { t ≤ 4 * greatest_moment }
        ensures cycle { self.new ≡ jumped self.old t }
        ensures reached { self.new.started ≤ t }
        ensures holds { t < self.new.next_start }
        ensures whole { (k : ℕ) → self.old.started + self.old.length * k ≤ t →
            self.old.started + self.old.length * k ≤ self.new.started }
    {
        self.started += whole_cycles(t - self.started, self.length);
        self.next_start = self.started + self.length;
    }
}
