//! Where a gate control list stands: its cycle, and the entry or the hold that it shows.
//!
//! The contract is that of each call of `Position`, in the terms of specs/Position.antt.
ghost use Rattle.std.specs.Prelude.{◌≡◌, ℕ, Option, ◌+◌, ◌*◌, ◌<◌, ◌≤◌, Some, None, IsSome, false, true, length};
ghost use Rattle.wire_time.specs.Moment.{greatest_moment};
ghost use Rattle.gates.specs.Gate.{Plan, IsSchedule, has_come, in_ps, last_mask, mask_since};
ghost use Rattle.gates.specs.Open.{open_while};
ghost use Rattle.gates.specs.Stay.{stay_lasts};
ghost use Rattle.gates.specs.Visits.{one_more};
ghost use Rattle.gates.specs.Cycle.{begun_at};
ghost use Rattle.gates.specs.Walk.{IsOf, end_of, more};
ghost use Rattle.jumping.specs.Position.{BeginsAtMost, IsPlaced, IsCycleStart, IsFlat, StoodBy, boundary_of};

use gates::cycle_timer::CycleTimer;
use gates::gate_list::{Schedule, Stay, Visits, is_open};
use gates::list_execute::ListExecute;
use wire_time::CLASSES;

/// Where a list stands: the cycle that runs, the walk of its entries, and what it shows in a hold.
#[derive(Clone, Copy, Debug)]
pub struct Position {
    /// The cycle that runs.
    pub timer: CycleTimer,
    /// The entry that is shown, or the hold.
    pub walk: ListExecute,
    /// The mask of the last entry, which a hold shows: bit c is class c.
    pub last_mask: u8,
}

/// A class that is to stay open from a moment on for so long.
#[derive(Clone, Copy)]
pub struct Need {
    /// The class: 0 to 7.
    pub class: u8,
    /// The moment, in picoseconds.
    pub from: u128,
    /// For how long, in picoseconds.
    pub length: u128,
}

/// The timer of the cycles of a schedule from a moment on.
fn timer_from(schedule: &Schedule, start: u128) -> CycleTimer
    requires sound { IsSchedule schedule.now }
    requires start { start ≤ 2 * greatest_moment }
    ensures { result ≡ begun_at start (in_ps schedule.now.cycle) }
{
    CycleTimer::begin(start, 1000 * u128::from(schedule.cycle_ns()))
}

/// Whether a moment, if there is one, has come by another.
fn has_come(moment: Option<u128>, by: u128) -> bool
    ensures { result ≡ has_come moment by }
{
    match moment {
        None => false,
        Some(moment) => moment <= by,
    }
}

/// Whether a stay is for ever, or at least so long, in picoseconds.
fn stay_lasts(stay: Stay, for_ps: u128) -> bool
    ensures { result ≡ stay_lasts stay for_ps }
{
    match stay {
        Stay::Always => true,
        Stay::Lasts(t) => for_ps <= t,
    }
}

/// A cycle that has just begun: its first entry, or the hold where the last state is held from that moment or before.
fn begin_cycle(
    schedule: &Schedule,
    timer: CycleTimer,
    end_mask: u8,
    held_from: Option<u128>,
    visits: &mut Visits,
) -> Position
    requires sound { IsSchedule schedule.now }
    requires within { timer.started ≤ 2 * greatest_moment }
    requires length { timer.length ≡ in_ps schedule.now.cycle }
    requires next { timer.next_start ≡ timer.started + in_ps schedule.now.cycle }
    requires last { end_mask ≡ last_mask schedule.now.entries }
    ensures placed { (start k : ℕ) → timer.started ≡ start + in_ps schedule.now.cycle * k →
        IsCycleStart schedule.now start held_from →
        IsPlaced schedule.now start held_from timer.started result }
    ensures timer { result.timer ≡ timer }
    ensures first { has_come held_from timer.started ≡ false → result.walk.index ≡ 0 }
    ensures visit { has_come held_from timer.started ≡ false → visits.new ≡ one_more visits.old }
    ensures counted { visits.old ≤ visits.new }
{
    let mut walk = ListExecute::begin(schedule, timer.started(), visits);
    if has_come(held_from, timer.started()) {
        walk.hold(schedule, visits);
    }
    Position {
        timer,
        walk,
        last_mask: end_mask,
    }
}

impl Position {
    /// The position of a list at `start`, the moment at which its first cycle begins, in picoseconds. It looks at the
    /// last entry and at the first.
    pub fn first(schedule: &Schedule, start: u128, visits: &mut Visits) -> Position
        requires sound { IsSchedule schedule.now }
        requires start { start ≤ 2 * greatest_moment }
        ensures placed { IsPlaced schedule.now start None start result }
        ensures visits { visits.new ≡ more visits.old 2 }
    {
        let last = schedule.entry(schedule.len() - 1, visits);
        let timer = timer_from(schedule, start);
        begin_cycle(schedule, timer, last.mask, None, visits)
    }

    /// Goes to where the same list stands at the moment `t`, wherever it stood. Its cycles began at `start`, and its
    /// last state is held from `held_from` on; none: from no moment on. All are in picoseconds. It stays apart, so that
    /// what mostly goes on in the cycle that runs stays small.
    #[inline(never)]
    pub fn jump_to(
        &mut self,
        schedule: &Schedule,
        start: u128,
        held_from: Option<u128>,
        t: u128,
        visits: &mut Visits,
    )
        requires sound { IsSchedule schedule.now }
        requires begun { start ≤ t }
        requires within { t ≤ 2 * greatest_moment }
        requires held { IsCycleStart schedule.now start held_from }
        requires last { self.old.last_mask ≡ last_mask schedule.now.entries }
        ensures placed { IsPlaced schedule.now start held_from t self.new }
        ensures counted { visits.old ≤ visits.new }
        ensures visits { visits.new ≤ visits.old + (length schedule.now.entries + 1) }
        ensures held { has_come held_from t ≡ true → visits.new ≤ visits.old + 2 }
        ensures listed { has_come held_from t ≡ false →
            visits.new ≡ more visits.old (self.new.walk.index + 1) }
    {
        let mut timer = timer_from(schedule, start);
        timer.jump_to(t);
        let mut walk = ListExecute::begin(schedule, timer.started(), visits);
        if has_come(held_from, timer.started()) {
            walk.hold(schedule, visits);
        } else {
            walk.go_on(schedule, t - timer.started(), visits);
        }
        self.timer = timer;
        self.walk = walk;
    }

    /// Whether a class stays open, by the stay of the entry that is shown then.
    fn entry_stays_open(&self, schedule: &Schedule, need: Need) -> bool
        requires sound { IsSchedule schedule.now }
        requires unheld { self.now.walk.held ≡ None }
        requires begun { self.now.walk.start ≤ need.from }
        requires listed { self.now.walk.index < length schedule.now.entries }
        requires class { need.class < CLASSES }
        requires some { 0 < need.length }
        requires moment { need.from ≤ 2 * greatest_moment }
        requires within { need.length ≤ greatest_moment }
        ensures { (start : ℕ) (held : Option ℕ) →
            IsPlaced schedule.now start held need.from self.now →
            has_come held self.now.timer.started ≡ false →
            result
            ≡ open_while
            (mask_since (Some schedule.now) start None) need.class need.from need.length }
    {
        let stay = schedule.stay(self.walk.index(), need.class);
        stay_lasts(stay, need.from - self.walk.entry_start() + need.length)
    }

    /// Whether a class stays open in a list that is in no hold yet, and whose last state is held from a moment on.
    fn stays_open_to_hold(&self, schedule: &Schedule, held_from: u128, need: Need) -> bool
        requires sound { IsSchedule schedule.now }
        requires stands { (start : ℕ)
            × IsPlaced schedule.now start (Some held_from) need.from self.now }
        requires ahead { need.from < held_from }
        requires class { need.class < CLASSES }
        requires some { 0 < need.length }
        requires moment { need.from ≤ 2 * greatest_moment }
        requires within { need.length ≤ greatest_moment }
        ensures { (start : ℕ) → IsPlaced schedule.now start (Some held_from) need.from self.now →
            result
            ≡ open_while
            (mask_since (Some schedule.now) start
            (Some held_from)) need.class need.from need.length }
    {
        let left = held_from - need.from;
        let within = Need {
            length: need.length.min(left),
            ..need
        };
        let listed = self.entry_stays_open(schedule, within);
        listed && (need.length <= left || is_open(self.last_mask, need.class))
    }

    /// Whether a class stays open in this list, which stands so then, and whose last state is held from a moment on, in
    /// picoseconds; none: from no moment on. It looks at no entry.
    pub fn stays_open(&self, schedule: &Schedule, held_from: Option<u128>, need: Need) -> bool
        requires sound { IsSchedule schedule.now }
        requires stands { (start : ℕ) × IsPlaced schedule.now start held_from need.from self.now }
        requires class { need.class < CLASSES }
        requires moment { need.from ≤ 2 * greatest_moment }
        requires within { need.length ≤ greatest_moment }
        ensures { (start : ℕ) → IsPlaced schedule.now start held_from need.from self.now →
            result
            ≡ open_while
            (mask_since (Some schedule.now) start held_from) need.class need.from need.length }
    {
        if need.length == 0 {
            return true;
        }
        if !is_open(self.walk.mask(), need.class) {
            return false;
        }
        match held_from {
            None => self.entry_stays_open(schedule, need),
            Some(held_from) => if held_from <= need.from {
                is_open(self.last_mask, need.class)
            } else {
                self.stays_open_to_hold(schedule, held_from, need)
            },
        }
    }

    /// The moment up to which a list shows one mask, in picoseconds, where it stands so and its last state is held from
    /// a moment on; none: for ever.
    pub fn until(&self, held_from: Option<u128>) -> Option<u128>
        ensures boundary { result ≡ boundary_of held_from self.now }
        ensures flat { (plan : Plan) (start n : ℕ) → IsSchedule plan →
            IsPlaced plan start held_from n self.now →
            IsFlat (mask_since (Some plan) start held_from) n result }
    {
        if has_come(held_from, self.timer.started()) {
            return None;
        }
        let cycle_end = self.timer.next_start();
        Some(match self.walk.entry_end() {
            Some(entry_end) => entry_end.min(cycle_end),
            None => cycle_end,
        })
    }

    /// Goes on to a later moment `t`, where the same hold counts: in the cycle that runs from the entry that is shown,
    /// and in a further one from the first. The cycles of the list began at `start`, and its last state is held from
    /// `held_from` on; none: from no moment on. All are in picoseconds.
    #[inline(always)]
    pub fn go_on(
        &mut self,
        schedule: &Schedule,
        start: u128,
        held_from: Option<u128>,
        t: u128,
        visits: &mut Visits,
    )
        requires sound { IsSchedule schedule.now }
        requires within { t ≤ 2 * greatest_moment }
        requires stood { StoodBy schedule.now start held_from t self.old }
        ensures placed { IsPlaced schedule.now start held_from t self.new }
        ensures counted { visits.old ≤ visits.new }
        ensures visits { visits.new ≤ visits.old + (length schedule.now.entries + 1) }
        ensures next { (n e : ℕ) → IsPlaced schedule.now start held_from n self.old →
            BeginsAtMost (Some schedule.now) start n t e → visits.new ≤ visits.old + 2 }
    {
        if has_come(held_from, self.timer.started()) {
            return;
        }
        if self.timer.next_start() <= t {
            self.jump_to(schedule, start, held_from, t, visits);
            return;
        }
        self.walk.go_on(schedule, t - self.timer.started(), visits);
    }

    /// Goes on to the end of the entry, where the next one begins in the same cycle and is looked at. It stays apart:
    /// the loops of all searches call it, and one copy of it stays in the cache.
    #[inline(never)]
    pub fn next_entry(&mut self, schedule: &Schedule, visits: &mut Visits)
        requires sound { IsSchedule schedule.now }
        requires of { IsOf schedule.now self.old.walk }
        requires ends { IsSome (end_of self.old.walk) }
        ensures placed { (start n e : ℕ) (held : Option ℕ) →
            IsPlaced schedule.now start held n self.old →
            has_come held self.old.timer.started ≡ false → end_of self.old.walk ≡ Some e → n ≤ e →
            e < self.old.timer.next_start → IsPlaced schedule.now start held e self.new }
        ensures timer { self.new.timer ≡ self.old.timer }
        ensures index { self.new.walk.index ≡ self.old.walk.index + 1 }
        ensures visit { visits.new ≡ one_more visits.old }
        ensures counted { visits.old ≤ visits.new }
    {
        self.walk.next(schedule, visits);
    }

    /// The position of the same list at the start of the cycle that holds `t`, which is in no hold. Its last state is
    /// held from `held_from` on; none: from no moment on. All are in picoseconds.
    pub fn cycle_at(
        &self,
        schedule: &Schedule,
        held_from: Option<u128>,
        t: u128,
        visits: &mut Visits,
    ) -> Position
        requires sound { IsSchedule schedule.now }
        requires stands { (start n : ℕ) × IsPlaced schedule.now start held_from n self.now }
        requires later { self.now.timer.started ≤ t }
        requires within { t ≤ 2 * greatest_moment }
        requires unheld { has_come held_from t ≡ false }
        ensures placed { (start n : ℕ) → IsPlaced schedule.now start held_from n self.now →
            IsPlaced schedule.now start held_from result.timer.started result }
        ensures reached { result.timer.started ≤ t }
        ensures holds { t < result.timer.next_start }
        ensures whole { (k : ℕ) → self.now.timer.started + self.now.timer.length * k ≤ t →
            self.now.timer.started + self.now.timer.length * k ≤ result.timer.started }
        ensures index { result.walk.index ≡ 0 }
        ensures visit { visits.new ≡ one_more visits.old }
        ensures counted { visits.old ≤ visits.new }
    {
        let mut cycle = self.timer;
        cycle.jump_to(t);
        begin_cycle(schedule, cycle, self.last_mask, held_from, visits)
    }
}
