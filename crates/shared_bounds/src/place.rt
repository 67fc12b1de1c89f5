//! A class under a schedule, beside the others: when its gate opens, and for how long a frame of another class may have
//! the wire then.

ghost use Rattle.std.specs.Prelude.{◌≡◌, ℕ, ◌<◌, ◌≤◌, ◌+◌, ◌-◌, ◌^◌, Some, None, false, true, IfSome, MatchOption, length};
ghost use Rattle.wire_time.specs.Moment.{greatest_moment};
ghost use Rattle.gates.specs.Gate.{in_ps};
ghost use Rattle.jumping.specs.Position.{IsPlaced};
ghost use Rattle.delay_bounds.specs.Walk.{may_by};
ghost use Rattle.shared_bounds.specs.Blocking.{blocked_by, open_for, was_open};
ghost use Rattle.shared_bounds.specs.Near.{StaysFrom};
ghost use Rattle.shared_bounds.specs.Place.{IsPlace, blocking_of, may_of, opening_of, own_of, takes_of};
ghost use Rattle.shared_bounds.specs.Slots.{IsNextOpening, IsStuck, NoneOpens};
ghost use Rattle.shared_bounds.specs.Traffic.{needs};

use crate::ClassTraffic;
use burst_bounds::slots::is_slot;
use delay_bounds::fit::fit;
use gates::gate_list::{Schedule, Visits};
use jumping::list_position::{Need, Position};
use wire_time::CLASSES;

/// A class under a schedule, beside the others.
#[derive(Clone, Copy)]
pub struct SharedClass<'s, 't, 'h> {
    /// The schedule.
    pub schedule: &'s Schedule,
    /// Where its list stands at first.
    pub first: Position,
    /// The class.
    pub class: u8,
    /// What is known of each class.
    pub traffic: &'t [ClassTraffic<'t>],
    /// The higher classes that share windows with it.
    pub higher: &'h [u8],
    /// How far its slots are apart, in picoseconds.
    pub pitch: u128,
}

impl SharedClass<'_, '_, '_> {
    /// For how long a frame of a class occupies the wire at most.
    pub fn need_of(&self, class: u8) -> u128
        requires place { IsPlace self.now }
        requires class { class < CLASSES }
        ensures need { result ≡ needs self.now.traffic.now class }
        ensures short { result < 2 ^ 60 }
    {
        self.traffic[class as usize].need
    }

    /// A moment from which the gate stays open for the longest frame; none: no window takes it.
    pub fn taken_at(&self) -> Option<u128>
        requires place { IsPlace self.now }
        ensures { MatchOption result (IsStuck self.now)
            (λ t. may_of self.now t (own_of self.now) ≡ true) }
    {
        fit(
            self.schedule,
            &self.first,
            self.class,
            0,
            self.need_of(self.class),
        )
    }

    /// Whether a class stays open for so long from a moment on.
    pub fn may(&self, class: u8, at: u128, length: u128) -> bool
        requires place { IsPlace self.now }
        requires class { class < CLASSES }
        requires at { at ≤ greatest_moment }
        requires length { length ≤ greatest_moment }
        ensures { result ≡ may_by self.now.schedule.now class at length }
    {
        is_slot(self.schedule, &self.first, class, length, at)
    }

    /// The lesser of a limit and the time for which a class stays open from a moment on.
    pub fn open_for(&self, class: u8, from: u128, limit: u128) -> u128
        requires place { IsPlace self.now }
        requires class { class < CLASSES }
        requires from { from ≤ 2 ^ 72 + 2 ^ 64 }
        requires limit { limit ≤ 2 ^ 62 }
        ensures { result ≡ open_for (may_by self.now.schedule.now class) from limit }
    {
        let mut visits = Visits::zero();
        let mut position = self.first;
        position.jump_to(self.schedule, 0, None, from, &mut visits);
        let mut at = from;
        while at < from + limit {
            let here = Need {
                class,
                from: at,
                length: 1,
            };
            if !position.stays_open(self.schedule, None, here) {
                return at - from;
            }
            let Some(end) = position.until(None) else {
                return limit;
            };
            position.go_on(self.schedule, 0, None, end, &mut visits);
            at = end;
        }
        limit
    }

    /// Whether a class is open just before a moment. Before the schedule is in force each is.
    pub fn was_open(&self, class: u8, at: u128) -> bool
        requires place { IsPlace self.now }
        requires class { class < CLASSES }
        requires at { at ≤ greatest_moment }
        ensures { result ≡ was_open self.now.schedule.now class at }
    {
        at == 0 || self.may(class, at - 1, 1)
    }

    /// For how long at most a frame of a class, if it is another one, may still have the wire at a moment.
    fn blocked_by(&self, class: u8, at: u128) -> u128
        requires place { IsPlace self.now }
        requires class { class < CLASSES }
        requires at { at ≤ 2 ^ 72 + 2 ^ 64 }
        ensures { result
            ≡ blocked_by self.now.schedule.now self.now.class
            (needs self.now.traffic.now) at class }
    {
        if class == self.class || !self.was_open(class, at) {
            return 0;
        }
        self.open_for(class, at, self.need_of(class).saturating_sub(1))
    }

    /// For how long at most a frame of any other class may still have the wire at a moment.
    pub fn blocking(&self, at: u128) -> u128
        requires place { IsPlace self.now }
        requires at { at ≤ 2 ^ 72 + 2 ^ 64 }
        ensures blocking { result ≡ blocking_of self.now at }
        ensures short { result < 2 ^ 60 }
    {
        let mut most = 0;
        for class in 0..8u8 {
            most = self.blocked_by(class, at).max(most);
        }
        most
    }

    /// Whether the gate of the class stays open from a moment on for its longest frame, behind one of another class.
    pub fn takes(&self, at: u128) -> bool
        requires place { IsPlace self.now }
        requires at { at ≤ 2 ^ 72 + 2 ^ 64 }
        ensures { result ≡ takes_of self.now at }
    {
        self.may(self.class, at, self.blocking(at) + self.need_of(self.class))
    }

    /// Whether the gate of the class opens at a moment, for so long.
    fn is_opening(&self, at: u128) -> bool
        requires place { IsPlace self.now }
        requires at { at ≤ 2 ^ 72 + 2 ^ 64 }
        ensures { result ≡ opening_of self.now at }
    {
        !self.may(self.class, at.saturating_sub(1), 1) && self.takes(at)
    }

    /// The first opening behind a moment, if there is one.
    pub fn next_opening(&self, from: u128) -> Option<u128>
        requires place { IsPlace self.now }
        requires from { from ≤ 2 ^ 72 + 2 ^ 63 }
        ensures opening { MatchOption result (NoneOpens self.now from)
            (IsNextOpening (opening_of self.now) from) }
        ensures near { IfSome result (λ u. u ≤ from + in_ps self.now.schedule.now.cycle) }
    {
        let mut visits = Visits::zero();
        let stop = from + 1000 * u128::from(self.schedule.cycle_ns());
        let mut position = self.first;
        position.jump_to(self.schedule, 0, None, from, &mut visits);
        let mut at = from;
        while at < stop {
            let end = position.until(None)?;
            if stop < end {
                return None;
            }
            if self.is_opening(end) {
                return Some(end);
            }
            position.go_on(self.schedule, 0, None, end, &mut visits);
            at = end;
        }
        None
    }

    /// Up to when all gates stay as they are just before a moment, at least up to there; at moment 0, as they are then.
    pub fn same_until(&self, at: u128) -> u128
        requires place { IsPlace self.now }
        requires at { at ≤ 2 ^ 72 }
        ensures same { StaysFrom self.now at result }
        ensures later { at ≤ result }
        ensures near { result ≤ at + in_ps self.now.schedule.now.cycle }
    {
        let mut position = self.first;
        position.jump_to(
            self.schedule,
            0,
            None,
            at.saturating_sub(1),
            &mut Visits::zero(),
        );
        match position.until(None) {
            Some(end) => end,
            None => at,
        }
    }
}
