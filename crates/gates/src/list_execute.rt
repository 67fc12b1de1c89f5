//! What a gate control list shows, entry after entry: List Execute (IEEE Std 802.1Q-2018, 8.6.9.2).
//!
//! The contract is that of each call of `ListExecute`, in the terms of specs/Walk.antt.
ghost use Rattle.std.specs.Prelude.{◌≡◌, ◌+◌, ◌-◌, ◌*◌, ◌<◌, ◌≤◌, ◌^◌, None, Some, IfSome, IsSome, length, slice_get};
ghost use Rattle.wire_time.specs.Moment.{greatest_moment};
ghost use Rattle.gates.specs.Gate.{IsShownAt, prefix, mask_at};
ghost use Rattle.gates.specs.Visits.{one_more};
ghost use Rattle.gates.specs.Walk.{in_hold, ShowsEntry, ShowsHold, IsOf, walk_mask, end_of, more};

use crate::gate_list::{Entry, Schedule, Visits};
use std::marker::Model;

/// Where a walk of a list stands: at an entry of a cycle, or in the hold of the last mask. All moments are in
/// picoseconds.
#[derive(Clone, Copy, Debug, PartialEq, Eq)]
pub struct ListExecute {
    began: u128,
    start: u128,
    entry: Entry,
    index: u16,
    held: Option<u8>,
    is_last: bool,
}

/// A contract sees where the walk stands.
impl Model for ListExecute {
    ghost use Rattle.std.specs.Prelude.{◌≤◌, ◌*◌, ◌<◌, ◌^◌, ◌+◌};
    ghost use Rattle.std.specs.Option.{ForSome};
    ghost use Rattle.wire_time.specs.Moment.{greatest_moment};
    ghost use Rattle.gates.specs.Walk.{Walk, end_unless, has_no_end};

    ghost Value = { Walk };

    ghost view = { λ w. record {
      began = w.began;
      index = w.index;
      start = w.start;
      until = end_unless w.is_last w.start w.entry;
      entry = w.entry;
      held = w.held;
    } };

    ghost invariant = { λ w. (w.began ≤ 4 * greatest_moment) × (w.index < 256)
        × (w.start ≤ w.began + 2 ^ 42 * w.index) };

    ghost inverse = { λ w. record {
      began = w.began;
      index = w.index;
      start = w.start;
      entry = w.entry;
      held = w.held;
      is_last = has_no_end w.until;
    } };
}

/// The entry of an index.
fn entry_of(schedule: &Schedule, index: usize, visits: &mut Visits) -> Entry
    requires { index < length schedule.now.entries }
    ensures entry { slice_get schedule.now.entries index ≡ Some result }
    ensures visit { visits.new ≡ one_more visits.old }
    ensures counted { visits.old ≤ visits.new }
{
    // The count fits a u64, which makes it no less after one more.
    let _ = visits.count();
    schedule.entry(index, visits)
}

/// When an entry ends that starts at a moment, in picoseconds.
#[inline(always)]
fn end_after(start: u128, entry: Entry) -> u128
    requires { start ≤ 5 * greatest_moment }
    ensures value { result ≡ start + 1000 * entry.interval }
    ensures bound { result ≤ start + 2 ^ 42 }
{
    start + 1000 * u128::from(entry.interval)
}

/// The walk at an entry of a cycle from a moment on. `last` is the index of the last entry.
#[tactic(auto, using(crate::proofs::WalkLaws::until_of_start, crate::proofs::WalkLaws::until_of_last))]
fn walk_at(
    schedule: &Schedule,
    last: usize,
    began: u128,
    index: usize,
    start: u128,
    visits: &mut Visits,
) -> ListExecute
    requires last { last + 1 ≡ length schedule.now.entries }
    requires few { last < 256 }
    requires listed { index ≤ last }
    requires began { began ≤ 4 * greatest_moment }
    requires start { start ≡ began + prefix schedule.now.entries index }
    requires within { start ≤ began + 2 ^ 42 * index }
    ensures entry { ShowsEntry schedule.now began index result }
    ensures visit { visits.new ≡ one_more visits.old }
    ensures counted { visits.old ≤ visits.new }
{
    let entry = entry_of(schedule, index, visits);
    ListExecute {
        began,
        start,
        entry,
        index: index as u16,
        held: None,
        is_last: index == last,
    }
}

impl ListExecute {
    /// The first entry of a cycle that began at `at`.
    pub fn begin(schedule: &Schedule, at: u128, visits: &mut Visits) -> ListExecute
        requires { at ≤ 4 * greatest_moment }
        ensures entry { ShowsEntry schedule.now at 0 result }
        ensures visit { visits.new ≡ one_more visits.old }
        ensures counted { visits.old ≤ visits.new }
    {
        walk_at(schedule, schedule.len() - 1, at, 0, at, visits)
    }

    /// The classes that are open: bit c is class c.
    pub fn mask(&self) -> u8
        ensures { result ≡ walk_mask self.now }
    {
        match self.held {
            Some(mask) => mask,
            None => self.entry.mask,
        }
    }

    /// When the entry ends; none at the last entry. It isn't kept, so that a walk is small.
    #[inline(always)]
    fn until(&self) -> Option<u128>
        ensures until { result ≡ self.now.until }
        ensures bound { IfSome result (λ u. u ≤ self.now.start + 2 ^ 42) }
    {
        if self.is_last {
            None
        } else {
            Some(end_after(self.start, self.entry))
        }
    }

    /// When the entry ends; none at the last entry, and in a hold.
    pub fn entry_end(&self) -> Option<u128>
        ensures { result ≡ end_of self.now }
    {
        match self.held {
            Some(_) => None,
            None => self.until(),
        }
    }

    /// When the entry started.
    pub fn entry_start(&self) -> u128
        requires { self.now.held ≡ None }
        ensures { result ≡ self.now.start }
    {
        self.start
    }

    /// The index of the entry.
    pub fn index(&self) -> usize
        ensures { result ≡ self.now.index }
    {
        usize::from(self.index)
    }

    /// Goes on to the entry after.
    pub fn next(&mut self, schedule: &Schedule, visits: &mut Visits)
        requires of { IsOf schedule.now self.old }
        requires ends { IsSome (end_of self.old) }
        ensures entry { ShowsEntry schedule.now self.old.began (self.old.index + 1) self.new }
        ensures visit { visits.new ≡ one_more visits.old }
        ensures counted { visits.old ≤ visits.new }
    {
        let Some(end) = self.until() else { return };
        let index = usize::from(self.index) + 1;
        *self = walk_at(schedule, schedule.len() - 1, self.began, index, end, visits);
    }

    /// Shows the last mask.
    #[tactic(auto, using(crate::proofs::PhaseLaws::last_mask_at_end))]
    pub fn hold(&mut self, schedule: &Schedule, visits: &mut Visits)
        requires { IsOf schedule.now self.old }
        ensures hold { ShowsHold schedule.now self.old.began self.new }
        ensures rest { self.new ≡ in_hold schedule.now self.old }
        ensures visit { visits.new ≡ one_more visits.old }
        ensures counted { visits.old ≤ visits.new }
    {
        let last = entry_of(schedule, schedule.len() - 1, visits);
        self.held = Some(last.mask);
    }

    /// Goes on to the entry of a later phase of the same cycle: each entry that begins up to then is a visit.
    #[tactic(auto, using(crate::proofs::WalkLaws::until_come, crate::proofs::WalkLaws::until_ahead, crate::proofs::WalkLaws::mask_of_shown))]
    pub fn go_on(&mut self, schedule: &Schedule, phase: u128, visits: &mut Visits)
        requires shown { ShowsEntry schedule.now self.old.began self.old.index self.old }
        requires begun { prefix schedule.now.entries self.old.index ≤ phase }
        requires within { phase ≤ 4 * greatest_moment }
        ensures entry { ShowsEntry schedule.now self.old.began self.new.index self.new }
        ensures phase { IsShownAt schedule.now.entries phase self.new.index }
        ensures mask { walk_mask self.new ≡ mask_at schedule.now.entries phase }
        ensures onward { self.old.index ≤ self.new.index }
        ensures visits { visits.new ≡ more visits.old (self.new.index - self.old.index) }
        ensures counted { visits.old ≤ visits.new }
    {
        // The count fits a u64, which makes it no less after none.
        let _ = visits.count();
        let moment = self.began + phase;
        let Some(end) = self.until() else { return };
        if moment < end {
            return;
        }
        let last = schedule.len() - 1;
        let mut index = usize::from(self.index) + 1;
        let mut start = end;
        let mut entry = entry_of(schedule, index, visits);
        while index < last && end_after(start, entry) <= moment {
            start = end_after(start, entry);
            index += 1;
            entry = entry_of(schedule, index, visits);
        }
        self.index = index as u16;
        self.start = start;
        self.entry = entry;
        self.is_last = index == last;
    }
}
