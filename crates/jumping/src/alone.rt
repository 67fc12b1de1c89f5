//! The search in a list that no other command follows: what it shows repeats for ever, so that one cycle decides all.
ghost use Rattle.std.specs.Prelude.{◌≡◌, ℕ, ◌+◌, ◌*◌, ◌<◌, ◌≤◌, Some, None, true, false, length, slice_get};
ghost use Rattle.jumping.specs.Words.{greatest_moment, IsSchedule, in_ps, open_while, IsPlaced, Fits, Searched, AreAsked, IsPlace, IsShown, prefix, repeated, shows_alone};

use crate::accepted_commands::AcceptedList;
use gates::gate_list::{Schedule, Stay, Visits, is_open};
use gates::queue_heads::{Heads, highest, without};
use wire_time::CLASSES;

/// The entry that a list shows at a moment: its index, and when it started. Both moments are in picoseconds.
#[derive(Clone, Copy)]
struct Shown {
    index: usize,
    start: u128,
    at: u128,
}

/// Whether a class stays open for so long, in picoseconds, by the stay of the entry that is shown.
fn entry_stays_open(list: &AcceptedList, class: u8, length: u128, shown: &Shown) -> bool
    requires schedule { IsSchedule list.now.schedule }
    requires shown { IsShown list.now shown.now }
    requires near { shown.now.at ≤ 2 * greatest_moment }
    requires class { class < CLASSES }
    requires some { 0 < length }
    requires within { length ≤ greatest_moment }
    ensures { result ≡ open_while (shows_alone list.now) class shown.now.at length }
{
    match list.schedule.stay(shown.index, class) {
        Stay::Always => true,
        Stay::Lasts(t) => shown.at - shown.start + length <= t,
    }
}

/// Whether a class stays open from a moment on for so long, both in picoseconds, in a list that stands so then and that
/// nothing follows.
pub(crate) fn stays_open_alone(list: &AcceptedList, from: u128, class: u8, length: u128) -> bool
    requires schedule { IsSchedule list.now.schedule }
    requires stands { IsPlaced list.now.schedule list.now.change None from list.now.position }
    requires near { from ≤ 2 * greatest_moment }
    requires class { class < CLASSES }
    requires within { length ≤ greatest_moment }
    ensures { result ≡ open_while (shows_alone list.now) class from length }
{
    if length == 0 {
        return true;
    }
    let walk = &list.position.walk;
    if !is_open(walk.mask(), class) {
        return false;
    }
    let shown = Shown {
        index: walk.index(),
        start: walk.entry_start(),
        at: from,
    };
    entry_stays_open(list, class, length, &shown)
}

/// The entry that a cycle shows at a place, in which it is asked: its index, and where it starts. Both times are in
/// picoseconds from the start of the cycle.
#[derive(Clone, Copy)]
struct Place {
    index: usize,
    start: u64,
    at: u64,
}

/// Whether some class stays open for as long as its head needs, of those that are open at a place and in which a frame
/// waits.
#[inline(always)]
fn some_fits(schedule: &Schedule, heads: &Heads, asked: u8, place: Place) -> bool
    requires schedule { IsSchedule schedule.now }
    requires place { IsPlace schedule.now place }
    requires within { place.at < in_ps schedule.now.cycle }
    requires asked { AreAsked schedule.now heads.now place.at asked }
    ensures some { result ≡ true → Fits (repeated schedule.now) heads.now place.at }
    ensures none { result ≡ false → (class d : ℕ) → slice_get heads.now class ≡ Some (Some d) →
        open_while (repeated schedule.now) class place.at d ≡ false }
{
    let past = place.at - place.start;
    let mut left = asked;
    while left != 0 {
        let class = highest(left);
        if schedule.stays_open(place.index, class, past, heads.need(class)) {
            return true;
        }
        left = without(left, class);
    }
    false
}

/// The first place at which an entry begins, from the start of an entry on and before another place of the same cycle,
/// at which some class may start that stays open for as long as its head needs. Places are in picoseconds. Each entry
/// is a visit.
fn search_entries(
    schedule: &Schedule,
    heads: &Heads,
    first: usize,
    from: u64,
    stop: u64,
    visits: &mut Visits,
) -> Option<u64>
    requires schedule { IsSchedule schedule.now }
    requires listed { first < length schedule.now.entries }
    requires begins { from ≡ prefix schedule.now.entries first }
    requires within { stop ≤ in_ps schedule.now.cycle }
    ensures searched { Searched (repeated schedule.now) heads.now from stop result }
    ensures counted { visits.old ≤ visits.new }
    ensures visits { visits.new + first ≤ visits.old + length schedule.now.entries }
{
    let waits = heads.waits();
    let mut index = first;
    let mut at = from;
    while at < stop {
        // The count fits a u64, which makes it no less after one more.
        let _ = visits.count();
        let entry = schedule.entry(index, visits);
        let place = Place {
            index,
            start: at,
            at,
        };
        if some_fits(schedule, heads, entry.mask & waits, place) {
            return Some(at);
        }
        index += 1;
        if index == schedule.len() {
            return None;
        }
        at += 1000 * u64::from(entry.interval);
    }
    None
}

/// The first place from one on and before another of the same cycle, in picoseconds, at which some class may start that
/// stays open for as long as its head needs. Each entry is a visit.
fn search_cycle(
    schedule: &Schedule,
    heads: &Heads,
    from: Place,
    stop: u64,
    visits: &mut Visits,
) -> Option<u64>
    requires schedule { IsSchedule schedule.now }
    requires place { IsPlace schedule.now from }
    requires within { stop ≤ in_ps schedule.now.cycle }
    ensures searched { Searched (repeated schedule.now) heads.now from.at stop result }
    ensures counted { visits.old ≤ visits.new }
    ensures visits { visits.new + from.index ≤ visits.old + length schedule.now.entries }
{
    if stop <= from.at {
        return None;
    }
    // The count fits a u64, which makes it no less after one more.
    let _ = visits.count();
    let entry = schedule.entry(from.index, visits);
    if some_fits(schedule, heads, entry.mask & heads.waits(), from) {
        return Some(from.at);
    }
    let next = from.index + 1;
    if next == schedule.len() {
        return None;
    }
    let at = from.start + 1000 * u64::from(entry.interval);
    search_entries(schedule, heads, next, at, stop, visits)
}

/// The first such place from one on, and before another in the same cycle or in the next one, which goes on counting:
/// in picoseconds from the start of the cycle.
fn search_two(
    schedule: &Schedule,
    heads: &Heads,
    from: Place,
    stop: u64,
    visits: &mut Visits,
) -> Option<u64>
    requires schedule { IsSchedule schedule.now }
    requires place { IsPlace schedule.now from }
    requires inside { from.at < in_ps schedule.now.cycle }
    requires within { stop ≤ 2 * in_ps schedule.now.cycle }
    ensures searched { Searched (repeated schedule.now) heads.now from.at stop result }
    ensures counted { visits.old ≤ visits.new }
    ensures visits { visits.new ≤ visits.old + 2 * length schedule.now.entries }
{
    let cycle = 1000 * schedule.cycle_ns();
    if let Some(found) = search_cycle(schedule, heads, from, stop.min(cycle), visits) {
        return Some(found);
    }
    if stop <= cycle {
        return None;
    }
    match search_entries(schedule, heads, 0, 0, stop - cycle, visits) {
        Some(place) => Some(cycle + place),
        None => None,
    }
}

/// Where a list stands in its cycle at a moment, in picoseconds.
fn place_in(list: &AcceptedList, from: u128) -> Place
    requires schedule { IsSchedule list.now.schedule }
    requires stands { IsPlaced list.now.schedule list.now.change None from list.now.position }
    ensures place { IsPlace list.now.schedule result }
    ensures inside { result.at < in_ps list.now.schedule.cycle }
    ensures at { list.now.position.timer.started + result.at ≡ from }
{
    let began = list.position.timer.started();
    let walk = &list.position.walk;
    Place {
        index: walk.index(),
        start: (walk.entry_start() - began) as u64,
        at: (from - began) as u64,
    }
}

/// The first moment from `from` on and before `before`, in picoseconds, at which some class may start, by what the
/// heads need, in a list that stands so at `from` and that nothing follows. Where there is none within a cycle, there
/// is none at all.
pub(crate) fn search_alone(
    list: &AcceptedList,
    from: u128,
    heads: &Heads,
    before: u128,
    visits: &mut Visits,
) -> Option<u128>
    requires schedule { IsSchedule list.now.schedule }
    requires stands { IsPlaced list.now.schedule list.now.change None from list.now.position }
    requires within { before ≤ 2 * greatest_moment }
    ensures searched { Searched (shows_alone list.now) heads.now from before result }
    ensures counted { visits.old ≤ visits.new }
    ensures visits { visits.new ≤ visits.old + 2 * length list.now.schedule.entries }
{
    if before <= from {
        return None;
    }
    let place = place_in(list, from);
    let cycle = 1000 * list.schedule.cycle_ns();
    let ahead = (before - from).min(u128::from(cycle)) as u64;
    let stop = place.at + ahead;
    match search_two(&list.schedule, heads, place, stop, visits) {
        Some(found) => Some(from + u128::from(found - place.at)),
        None => None,
    }
}
