//! The next moment from which a busy period may be the worst: where a slot less fits before the window ends, where more
//! may have the wire than before, or behind where the gate opens.

ghost use Rattle.std.specs.Prelude.{◌≡◌, ◌<◌, ◌≤◌, ◌+◌, ◌^◌, true, IfErr, IfOk};
ghost use Rattle.gates.specs.Gate.{in_ps};
ghost use Rattle.shared_bounds.specs.Near.{AreNear, IsLastIn, IsReach};
ghost use Rattle.shared_bounds.specs.Place.{IsPlace, may_of, own_of, takes_of};
ghost use Rattle.shared_bounds.specs.Slots.{IsBlocked};

use crate::Unbound;
use crate::place::SharedClass;

impl SharedClass<'_, '_, '_> {
    /// The last of the slots of a window from one on, of those that begin by a moment.
    fn last_in_window(&self, first: u128, by: u128) -> u128
        requires place { IsPlace self.now }
        requires first { first ≤ 2 ^ 72 }
        requires by { by ≤ 2 ^ 72 + 2 ^ 62 }
        requires takes { may_of self.now first (own_of self.now) ≡ true }
        ensures last { IsLastIn self.now first by result }
        ensures near { result ≤ 2 ^ 72 + 2 ^ 63 }
    {
        let mut at = first;
        while at + self.pitch <= by {
            let steps = self.steps(at, (by - at) / self.pitch);
            if steps == 0 {
                return at;
            }
            at += steps * self.pitch;
        }
        at
    }

    /// The longest need of another class that is open just before a moment and stays so up to another; 1: none is.
    fn reach(&self, from: u128, until: u128) -> u128
        requires place { IsPlace self.now }
        requires from { from ≤ 2 ^ 72 }
        requires until { (from ≤ until) × (until ≤ from + 2 ^ 72) }
        ensures some { 0 < result }
        ensures short { result < 2 ^ 60 }
        ensures reach { IsReach self.now from until result }
    {
        let mut reach = 1;
        for class in 0..8u8 {
            if class != self.class
                && self.was_open(class, from)
                && self.may(class, from, until - from)
            {
                reach = self.need_of(class).max(reach);
            }
        }
        reach
    }

    /// The next moment to look at, where the class may start behind a blocking frame in the window at this one. Slots
    /// that begin behind `last` don't count.
    fn next_in_window(&self, from: u128, last: u128) -> u128
        requires place { IsPlace self.now }
        requires from { from ≤ 2 ^ 60 }
        requires last { last ≤ 2 ^ 72 + 2 ^ 62 }
        requires takes { takes_of self.now from ≡ true }
        ensures near { AreNear self.now last from result }
        ensures soon { result ≤ from + in_ps self.now.schedule.now.cycle + 1 }
    {
        let need = self.need_of(self.class);
        let end = self.same_until(from);
        let first = from + self.blocking(from);
        let at = self.last_in_window(first, last);
        let room = self.open_for(self.class, at, need + (end - from)) - need;
        if room >= end - from {
            return end + 1;
        }
        let late = first + room;
        let reach = self.reach(from, late + 1);
        (late + 2).saturating_sub(reach).max(from + 1).min(end + 1)
    }

    /// The next moment to look at. Slots that begin behind `last` don't count.
    pub fn next_moment(&self, from: u128, last: u128) -> Result<u128, Unbound>
        requires place { IsPlace self.now }
        requires from { from ≤ 2 ^ 60 }
        requires last { last ≤ 2 ^ 72 + 2 ^ 62 }
        ensures near { IfOk result (AreNear self.now last from) }
        ensures soon { IfOk result (λ next. next ≤ from + in_ps self.now.schedule.now.cycle + 1) }
        ensures why { IfErr result (λ why. (why ≡ Unbound.Blocked) × IsBlocked self.now) }
    {
        if self.takes(from) {
            return Ok(self.next_in_window(from, last));
        }
        match self.next_opening(from) {
            Some(opening) => Ok(opening + 1),
            None => Err(Unbound::Blocked),
        }
    }
}
