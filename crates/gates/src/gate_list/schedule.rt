//! Schedules: a gate control list with its times, and what it says about open time.
ghost use Rattle.std.specs.Prelude.{◌≡◌, ◌<◌, ◌≤◌, ℕ, ◌+◌, ◌*◌, ◌^◌, None, OnErr, OnOk, Some, length, max, slice_get, sum_by};
ghost use Rattle.gates.specs.Closed.{closed_plan};
ghost use Rattle.gates.specs.Gate.{Plan, IsSchedule, IsShownAt, cycle_of, in_ps, mask_since, prefix, change_of, boundary_from, plan_with, plan_fault, ok_unless, least_interval, first_shorter, keeps_apart, is_apart_in};
ghost use Rattle.gates.specs.Open.{open_while};
ghost use Rattle.gates.specs.Stay.{AreStays, AreClosed, TellOpenTime, TellsOpenTime, stay_from};
ghost use Rattle.gates.specs.Visits.{one_more};
ghost use Rattle.gates.specs.declared.gate_list.Stay.TheVariants.{Lasts};

use crate::gate_list::table::{Table, closed_table, copy_table, put_table, stay_at, stays_at};
use crate::gate_list::{
    Entry, GateList, MAX_BASE_NS, MAX_CYCLE_NS, MAX_ENTRIES, PlanFault, Row, Stay, Visits,
    closed_entries, is_open, put_entries,
};
use arrayvec::ArrayVec;
use std::marker::Model;
use wire_time::{CLASSES, Rate, quotient};

/// A gate control list with its base time, cycle and cycle time extension (IEEE Std 802.1Q-2018, 8.6.9).
#[derive(Clone, Debug, Drop)]
pub struct Schedule {
    entries: ArrayVec<Entry, MAX_ENTRIES>,
    base_ns: u64,
    cycle_ns: u64,
    extension_ns: u64,
    stays: Table,
}

/// A contract sees a schedule as a plan.
impl Model for Schedule {
    ghost use Rattle.gates.specs.Gate.{Plan};
    ghost use Rattle.gates.specs.Table.{IsTabled};

    ghost Value = { Plan };

    ghost use Rattle.gates.specs.Inside.{plan_inside};

    ghost view = { plan_inside };

    ghost invariant = { λ s. IsTabled (plan_inside s) s.stays };
}

/// The first boundary at or after `t`, of cycles from `start` on.
fn boundary_from(start: u128, cycle: u128, t: u128) -> u128
    requires above { 0 < cycle }
    requires fits { max start t + cycle < 2 ^ 128 }
    ensures boundary { result ≡ boundary_from start cycle t }
    ensures after { t ≤ result }
    ensures near { result < max start t + cycle }
{
    let away = if t > start { t - start } else { 0 };
    start + cycle * quotient(away + cycle - 1, cycle)
}

/// The sum of the intervals, in nanoseconds.
fn total_of(entries: &[Entry]) -> u64
    requires { length entries.now ≤ MAX_ENTRIES }
    ensures total { result ≡ sum_by (λ e. e.interval) entries.now }
{
    let mut total = 0;
    for entry in entries {
        total += u64::from(entry.interval);
    }
    total
}

/// The cycle that is asked for, in nanoseconds: 0 asks for the sum of the intervals.
fn cycle_of(entries: &[Entry], cycle_ns: u64) -> u64
    requires { length entries.now ≤ MAX_ENTRIES }
    ensures { result ≡ cycle_of entries.now cycle_ns }
{
    if cycle_ns == 0 {
        total_of(entries)
    } else {
        cycle_ns
    }
}

/// The least interval or cycle at a rate, in nanoseconds.
fn least_ns(rate: Rate) -> u64
    ensures value { result ≡ least_interval rate }
    ensures above { 0 < result }
{
    60 * rate.ps_per_octet() as u64 / 1000
}

/// The index of the first entry that is shorter.
fn first_too_short(entries: &[Entry], least: u64) -> Option<u16>
    requires { length entries.now ≤ MAX_ENTRIES }
    ensures { result ≡ first_shorter least 0 entries.now }
{
    for (i, entry) in entries.iter().enumerate() {
        if u64::from(entry.interval) < least {
            return Some(i as u16);
        }
    }
    None
}

/// The first fault of a list with its times.
fn fault_of(
    entries: &[Entry],
    base_ns: u64,
    cycle_ns: u64,
    extension_ns: u64,
    rate: Rate,
) -> Option<PlanFault>
    requires { length entries.now ≤ MAX_ENTRIES }
    ensures { let plan : Plan = record {
      entries = entries.now;
      base = base_ns;
      cycle = cycle_ns;
      extension = extension_ns;
    } in result ≡ plan_fault rate plan }
{
    let least = least_ns(rate);
    match first_too_short(entries, least) {
        Some(index) => Some(PlanFault::IntervalTooShort(index)),
        None => {
            if cycle_ns < least {
                Some(PlanFault::CycleTooShort)
            } else if cycle_ns > MAX_CYCLE_NS {
                Some(PlanFault::CycleTooLong)
            } else if extension_ns > MAX_CYCLE_NS {
                Some(PlanFault::ExtensionTooLong)
            } else if base_ns > MAX_BASE_NS {
                Some(PlanFault::BaseTooLate)
            } else {
                None
            }
        }
    }
}

/// Whether an entry that opens the class opens no other.
fn is_apart(entry: Entry, class: u8) -> bool
    requires { class < CLASSES }
    ensures { result ≡ is_apart_in class entry }
{
    !is_open(entry.mask, class) || entry.mask == 1 << class
}

/// These entries with these times take the place of those of a schedule.
fn put_plan(
    entries: &[Entry],
    base_ns: u64,
    cycle_ns: u64,
    extension_ns: u64,
    schedule: &mut Schedule,
)
    requires { IsSchedule
        (record {
          entries = entries.now;
          base = base_ns;
          cycle = cycle_ns;
          extension = extension_ns;
        }) }
    ensures { schedule.new
        ≡ record {
          entries = entries.now;
          base = base_ns;
          cycle = cycle_ns;
          extension = extension_ns;
        } }
{
    put_entries(entries, &mut schedule.entries);
    schedule.base_ns = base_ns;
    schedule.cycle_ns = cycle_ns;
    schedule.extension_ns = extension_ns;
    put_table(entries, cycle_ns, &mut schedule.stays);
}

/// What is in one schedule takes the place of what is in another.
fn copy_plan(from: &Schedule, schedule: &mut Schedule)
    ensures { schedule.new ≡ from.now }
{
    put_entries(from.entries.as_slice(), &mut schedule.entries);
    schedule.base_ns = from.base_ns;
    schedule.cycle_ns = from.cycle_ns;
    schedule.extension_ns = from.extension_ns;
    copy_table(&from.stays, &mut schedule.stays);
}

impl Schedule {
    /// The schedule of `GateList::closed` from moment 0 on, with a cycle of a nanosecond: a place for another schedule.
    pub fn closed() -> Schedule
        ensures { result ≡ closed_plan }
    {
        Schedule {
            entries: closed_entries(),
            base_ns: 0,
            cycle_ns: 1,
            extension_ns: 0,
            stays: closed_table(),
        }
    }

    /// The schedule of a list with these times, in nanoseconds; a cycle of 0 means the sum of the intervals.
    ///
    /// Refused, in this order: an interval, then a cycle, that is shorter than the shortest frame, whose 60 octets are
    /// taken in whole nanoseconds; a cycle, then an extension, above 2^40; a base time above 2^63 - 1.
    pub fn new(
        list: &GateList,
        base_ns: u64,
        cycle_ns: u64,
        extension_ns: u64,
        rate: Rate,
    ) -> Result<Schedule, PlanFault>
        ensures { let plan = plan_with list.now base_ns cycle_ns extension_ns in
            result ≡ ok_unless (plan_fault rate plan) plan }
    {
        let mut schedule = Schedule::closed();
        match schedule.set(list, base_ns, cycle_ns, extension_ns, rate) {
            Ok(()) => Ok(schedule),
            Err(fault) => Err(fault),
        }
    }

    /// Why a list with these times, in nanoseconds, is no schedule, as `new` refuses it; no schedule is made.
    pub fn fault(
        list: &GateList,
        base_ns: u64,
        cycle_ns: u64,
        extension_ns: u64,
        rate: Rate,
    ) -> Option<PlanFault>
        ensures { result ≡ plan_fault rate (plan_with list.now base_ns cycle_ns extension_ns) }
    {
        let entries = list.entries();
        let cycle_ns = cycle_of(entries, cycle_ns);
        fault_of(entries, base_ns, cycle_ns, extension_ns, rate)
    }

    /// This list with these times takes the place of its own, unless they are refused, as `new` refuses them. A
    /// schedule takes six kilobytes, which are not moved so.
    pub fn set(
        &mut self,
        list: &GateList,
        base_ns: u64,
        cycle_ns: u64,
        extension_ns: u64,
        rate: Rate,
    ) -> Result<(), PlanFault>
        ensures answer { let plan = plan_with list.now base_ns cycle_ns extension_ns in
            result ≡ ok_unless (plan_fault rate plan) tt }
        ensures plan { OnOk result (self.new ≡ plan_with list.now base_ns cycle_ns extension_ns) }
        ensures kept { OnErr result (self.new ≡ self.old) }
    {
        let entries = list.entries();
        let cycle_ns = cycle_of(entries, cycle_ns);
        match fault_of(entries, base_ns, cycle_ns, extension_ns, rate) {
            Some(fault) => Err(fault),
            None => {
                put_plan(entries, base_ns, cycle_ns, extension_ns, self);
                Ok(())
            }
        }
    }

    /// Another schedule takes the place of this one. Of its six kilobytes those are copied that it uses.
    pub fn copy_from(&mut self, other: &Schedule)
        ensures { self.new ≡ other.now }
    {
        copy_plan(other, self);
    }

    /// A copy of this schedule.
    pub fn copied(&self) -> Schedule
        ensures { result ≡ self.now }
    {
        let mut copy = Schedule::closed();
        copy.copy_from(self);
        copy
    }

    /// How many entries there are: 1 to 256.
    pub fn len(&self) -> usize
        ensures count { result ≡ length self.now.entries }
        ensures within { result ≤ MAX_ENTRIES }
        ensures sound { IsSchedule self.now }
    {
        self.entries.len()
    }

    /// The base time, in nanoseconds.
    pub fn base_ns(&self) -> u64
        ensures { result ≡ self.now.base }
    {
        self.base_ns
    }

    /// The cycle time, in nanoseconds; never 0.
    pub fn cycle_ns(&self) -> u64
        ensures value { result ≡ self.now.cycle }
        ensures above { 0 < result }
    {
        self.cycle_ns
    }

    /// The cycle time extension, in nanoseconds.
    pub fn extension_ns(&self) -> u64
        ensures { result ≡ self.now.extension }
    {
        self.extension_ns
    }

    /// The moment from which the schedule is in force, if it is accepted for the lead moment `lead`; both in
    /// picoseconds.
    pub fn change_moment(&self, lead: u128) -> u128
        requires { lead < 2 ^ 100 }
        ensures change { result ≡ change_of self.now lead }
        ensures timely { lead ≤ result }
        ensures within { result < 2 ^ 101 }
    {
        let base = 1000 * u128::from(self.base_ns);
        let cycle = 1000 * u128::from(self.cycle_ns);
        boundary_from(base, cycle, lead)
    }

    /// Whether every entry that opens the class opens none of the other seven.
    pub fn keeps_apart(&self, class: u8) -> bool
        requires { class < CLASSES }
        ensures { result ≡ keeps_apart self.now.entries class }
    {
        for entry in self.entries.as_slice() {
            if !is_apart(*entry, class) {
                return false;
            }
        }
        true
    }

    /// The entry of an index.
    pub fn entry(&self, i: usize, visits: &mut Visits) -> Entry
        requires { i < length self.now.entries }
        ensures entry { slice_get self.now.entries i ≡ Some result }
        ensures visit { visits.new ≡ one_more visits.old }
    {
        visits.add();
        self.entries.as_slice()[i]
    }

    /// The entry of an index, with how long each class stays open from its start where the list is repeated for ever.
    ///
    /// An entry that begins at or after the cycle's end is never shown: its stays are 0.
    pub fn row(&self, i: usize, visits: &mut Visits) -> Row
        requires { i < length self.now.entries }
        ensures entry { slice_get self.now.entries i ≡ Some result.entry }
        ensures stays { prefix self.now.entries i < in_ps self.now.cycle →
            AreStays self.now i result.stay }
        ensures open { TellOpenTime self.now i result.stay }
        ensures unseen { in_ps self.now.cycle ≤ prefix self.now.entries i → AreClosed result.stay }
        ensures visit { visits.new ≡ one_more visits.old }
    {
        Row {
            entry: self.entry(i, visits),
            stay: stays_at(&self.stays, i),
        }
    }

    /// How long a class stays open from the start of the entry of an index, where the list is repeated for ever. It
    /// looks at no entry.
    ///
    /// An entry that begins at or after the cycle's end is never shown: its stay is 0 picoseconds.
    pub fn stay(&self, i: usize, class: u8) -> Stay
        requires listed { i < length self.now.entries }
        requires class { class < CLASSES }
        ensures stay { prefix self.now.entries i < in_ps self.now.cycle →
            result ≡ stay_from self.now i class }
        ensures open { TellsOpenTime self.now i class result }
        ensures unseen { in_ps self.now.cycle ≤ prefix self.now.entries i → result ≡ Lasts 0 }
    {
        stay_at(&self.stays, class as usize, i)
    }

    /// Whether a class stays open for so long from a moment on, which is so long after the start of the entry of an
    /// index and before its end, where the list is repeated for ever. Both times are in picoseconds. It looks at no
    /// entry.
    #[inline(always)]
    pub fn stays_open(&self, i: usize, class: u8, past: u64, for_ps: u64) -> bool
        requires class { class < CLASSES }
        requires some { 0 < for_ps }
        requires within { prefix self.now.entries i + past < in_ps self.now.cycle }
        requires shown { IsShownAt self.now.entries (prefix self.now.entries i + past) i }
        ensures { (start k : ℕ) →
            result
            ≡ open_while (mask_since (Some self.now) start None) class
            (start + in_ps self.now.cycle * k + (prefix self.now.entries i + past)) for_ps }
    {
        match self.stay(i, class) {
            Stay::Always => true,
            Stay::Lasts(t) => u128::from(past) + u128::from(for_ps) <= t,
        }
    }
}
