//! What a schedule gives each class: how long it stays open and closed, its share of a cycle, and the longest frame
//! that can start.

ghost use Rattle.std.specs.Prelude.{◌≡◌, ◌<◌, ◌≤◌, ◌^◌, ◌+◌, ◌&&◌, ℕ, if◌then◌else◌, length, map, min, not, None, slice_index_or};
ghost use Rattle.schedule_check.specs.Words.{in_ps, ok_unless, opens, plan_fault, plan_with, Lasts, IsLengthened, IsLonger, IsLongestFrame, IsOpenStay, IsWindow, Plan, alone, open_total, turned, turned_entry, turned_plan, CLASSES};

use arrayvec::ArrayVec;
use gates::gate_list::{Entry, GateList, MAX_ENTRIES, PlanFault, Schedule, Stay, Visits, is_open};
use std::marker::Model;
use wire_time::{CLASSES, Rate};

/// The longest frame of a class that can ever start, in octets, untagged and without check sequence.
#[derive(Clone, Copy, Debug, PartialEq, Eq)]
pub enum Longest {
    /// Not even the shortest.
    NoFrame,
    /// A frame of so many octets, and none that is longer.
    Octets(u128),
    /// Every frame: the class never closes.
    AnyFrame,
}

/// What a schedule gives a class.
#[derive(Clone, Copy, Debug, PartialEq, Eq)]
pub struct Window {
    /// The longest time that the class stays open, in picoseconds.
    pub open_time: Stay,
    /// The longest time that the class stays closed, in picoseconds: 0 where it never closes.
    pub closed_time: Stay,
    /// For how many picoseconds of a cycle the class is open.
    pub share: u128,
    /// How long a cycle takes, in picoseconds.
    pub cycle: u128,
    /// The longest frame that can ever start.
    pub longest_frame: Longest,
}

/// A schedule that is asked what it gives each class, by its gates alone, which go on for ever.
#[derive(Clone, Debug, Drop)]
pub struct Windows {
    schedule: Schedule,
    turned: Schedule,
}

/// A contract sees the schedule's plan.
impl Model for Windows {
    ghost use Rattle.std.specs.Prelude.{◌≡◌};
    ghost use Rattle.gates.specs.Gate.{Plan};
    ghost use Rattle.schedule_check.specs.Windows.{turned_plan};

    ghost Value = { Plan };

    ghost view = { λ w. w.schedule };

    ghost invariant = { λ w. w.turned ≡ turned_plan w.schedule };
}

/// The longer of two stays.
fn longer(one: Stay, other: Stay) -> Stay
    ensures { IsLonger one other result }
{
    match (one, other) {
        (Stay::Lasts(a), Stay::Lasts(b)) => { if a < b { other } else { one } }
        (Stay::Always, _) => one,
        (Stay::Lasts(_), Stay::Always) => other,
    }
}

/// The classes that a mask opens and the mask before it closes.
fn newly_open(mask: u8, before: u8) -> u8
    ensures { (class : ℕ) → class < CLASSES →
        opens result class ≡ (opens mask class && not (opens before class)) }
{
    mask & !before
}

/// Where a mask opens a class, the stay of the class from the start of an entry on takes the place of one that is
/// shorter.
fn lengthen_stay(schedule: &Schedule, i: usize, mask: u8, class: u8, longest: &mut Stay)
    requires listed { i < length schedule.now.entries }
    requires class { class < CLASSES }
    ensures { IsLengthened schedule.now i (opens mask class) class longest.old longest.new }
{
    if is_open(mask, class) {
        *longest = longer(*longest, schedule.stay(i, class));
    }
}

/// Of each class that a mask opens, the stay from the start of an entry on takes the place of one that is shorter.
fn lengthen(schedule: &Schedule, i: usize, mask: u8, longest: &mut [Stay; CLASSES])
    requires { i < length schedule.now.entries }
    ensures { (class : ℕ) → class < CLASSES →
        IsLengthened schedule.now i (opens mask class) class
        (slice_index_or longest.old class (Lasts 0)) (slice_index_or longest.new class (Lasts 0)) }
{
    for class in 0..CLASSES {
        lengthen_stay(schedule, i, mask, class as u8, &mut longest[class]);
    }
}

/// The longest time that each class stays open. A stay is looked at only where it begins: where an entry opens a class
/// that the entry before it closes.
pub(crate) fn longest_open(schedule: &Schedule) -> [Stay; CLASSES]
    ensures longest { (class : ℕ) → class < CLASSES →
        IsOpenStay (alone schedule.now) class (slice_index_or result class (Lasts 0)) }
    ensures some { 0 < length schedule.now.entries }
{
    let mut visits = Visits::zero();
    let mut longest = [Stay::Lasts(0); CLASSES];
    let mut before = 0;
    for i in 0..schedule.len() {
        let mask = schedule.entry(i, &mut visits).mask;
        lengthen(schedule, i, newly_open(mask, before), &mut longest);
        before = mask;
    }
    longest
}

/// The moment in a cycle at which an entry that begins at `from` ends: the last ends with the cycle, which cuts each
/// other.
fn end_in_cycle(entry: Entry, is_last: bool, from: u64, cycle: u64) -> u64
    requires { from ≤ 2 ^ 50 }
    ensures { result ≡ (if is_last then cycle else min cycle (from + in_ps entry.interval)) }
{
    if is_last {
        cycle
    } else {
        cycle.min(from + 1000 * u64::from(entry.interval))
    }
}

/// For how much of a span of time with this mask a class is open.
fn open_part(mask: u8, class: u8, span: u64) -> u64
    requires { class < CLASSES }
    ensures { result ≡ (if opens mask class then span else 0) }
{
    if is_open(mask, class) { span } else { 0 }
}

/// To the share of each class its part of a span of time with this mask is added.
fn add_parts(mask: u8, span: u64, shares: &mut [u64; CLASSES])
    requires { (class : ℕ) → class < CLASSES → slice_index_or shares.old class 0 + span < 2 ^ 64 }
    ensures { (class : ℕ) → class < CLASSES →
        slice_index_or shares.new class 0
        ≡ slice_index_or shares.old class 0 + (if opens mask class then span else 0) }
{
    for class in 0..CLASSES {
        shares[class] += open_part(mask, class as u8, span);
    }
}

/// For how many picoseconds of a cycle each class is open.
pub(crate) fn shares_of(schedule: &Schedule) -> [u64; CLASSES]
    ensures { (class : ℕ) → class < CLASSES →
        slice_index_or result class 0
        ≡ open_total (alone schedule.now) class (in_ps schedule.now.cycle) }
{
    let count = schedule.len();
    let cycle = 1000 * schedule.cycle_ns();
    let mut visits = Visits::zero();
    let mut from = 0;
    let mut shares = [0; CLASSES];
    for i in 0..count {
        let entry = schedule.entry(i, &mut visits);
        let until = end_in_cycle(entry, i + 1 == count, from, cycle);
        add_parts(entry.mask, until - from, &mut shares);
        from = until;
    }
    shares
}

/// The longest frame that fits into the longest open time of a class.
fn longest_within(rate: Rate, time: Stay) -> Longest
    ensures { (mask : ℕ → ℕ) (class : ℕ) → IsOpenStay mask class time →
        IsLongestFrame rate mask class result }
{
    let Stay::Lasts(lasts) = time else {
        return Longest::AnyFrame;
    };
    let octets = lasts / rate.ps_per_octet();
    if octets < 84 {
        Longest::NoFrame
    } else {
        Longest::Octets(octets - 24)
    }
}

/// The entries that open what others close.
fn turned_entries(entries: &[Entry]) -> ArrayVec<Entry, MAX_ENTRIES>
    requires { length entries.now ≤ MAX_ENTRIES }
    ensures { result.items ≡ map turned_entry entries.now }
{
    let mut turned = ArrayVec::new();
    for entry in entries {
        turned.push(Entry {
            mask: 255 - entry.mask,
            interval: entry.interval,
        });
    }
    turned
}

/// The list whose entries open what those of another close.
fn turned_list(list: &GateList) -> GateList
    ensures { result ≡ map turned_entry list.now }
{
    let entries = turned_entries(list.entries());
    match GateList::new(entries.as_slice()) {
        Ok(list) => list,
        Err(_) => unreachable!(),
    }
}

/// The schedule whose entries open what those of another, which is accepted at the rate, close.
pub(crate) fn turned_schedule(
    list: &GateList,
    base_ns: u64,
    cycle_ns: u64,
    extension_ns: u64,
    rate: Rate,
) -> Schedule
    requires { plan_fault rate (plan_with list.now base_ns cycle_ns extension_ns) ≡ None }
    ensures { result ≡ turned_plan (plan_with list.now base_ns cycle_ns extension_ns) }
{
    match Schedule::new(&turned_list(list), base_ns, cycle_ns, extension_ns, rate) {
        Ok(turned) => turned,
        Err(_) => unreachable!(),
    }
}

/// The longest time that each class stays closed, by the schedule whose entries open what those of the plan close.
pub(crate) fn longest_closed(other: &Schedule) -> [Stay; CLASSES]
    ensures { (plan : Plan) → other.now ≡ turned_plan plan → (class : ℕ) → class < CLASSES →
        IsOpenStay (turned (alone plan)) class (slice_index_or result class (Lasts 0)) }
{
    longest_open(other)
}

/// What a schedule gives a class at a rate that stays open for so long at the longest, and closed, and has this share
/// of a cycle.
pub(crate) fn window_of(
    schedule: &Schedule,
    rate: Rate,
    class: u8,
    open_time: Stay,
    closed_time: Stay,
    share: u64,
) -> Window
    requires class { class < CLASSES }
    requires open { IsOpenStay (alone schedule.now) class open_time }
    requires closed { IsOpenStay (turned (alone schedule.now)) class closed_time }
    requires share { share ≡ open_total (alone schedule.now) class (in_ps schedule.now.cycle) }
    ensures window { IsWindow rate schedule.now class result }
    ensures cycle { 0 < schedule.now.cycle }
{
    Window {
        open_time,
        closed_time,
        share: u128::from(share),
        cycle: 1000 * u128::from(schedule.cycle_ns()),
        longest_frame: longest_within(rate, open_time),
    }
}

impl Windows {
    /// A schedule of a list with these times, in nanoseconds, refused as `Schedule::new` refuses it at the rate.
    pub fn new(
        list: &GateList,
        base_ns: u64,
        cycle_ns: u64,
        extension_ns: u64,
        rate: Rate,
    ) -> Result<Windows, PlanFault>
        ensures { let plan = plan_with list.now base_ns cycle_ns extension_ns in
            result ≡ ok_unless (plan_fault rate plan) plan }
    {
        let schedule = Schedule::new(list, base_ns, cycle_ns, extension_ns, rate)?;
        let turned = Schedule::new(&turned_list(list), base_ns, cycle_ns, extension_ns, rate)?;
        Ok(Windows { schedule, turned })
    }

    /// For how many picoseconds of a cycle a class is open.
    pub fn share(&self, class: u8) -> u128
        requires { class < CLASSES }
        ensures { result ≡ open_total (alone self.now) class (in_ps self.now.cycle) }
    {
        u128::from(shares_of(&self.schedule)[usize::from(class)])
    }

    /// What the schedule gives a class at a rate.
    pub fn window(&self, rate: Rate, class: u8) -> Window
        requires { class < CLASSES }
        ensures window { IsWindow rate self.now class result }
        ensures cycle { 0 < self.now.cycle }
    {
        let open = longest_open(&self.schedule);
        let closed = longest_closed(&self.turned);
        let shares = shares_of(&self.schedule);
        let place = usize::from(class);
        window_of(
            &self.schedule,
            rate,
            class,
            open[place],
            closed[place],
            shares[place],
        )
    }
}
