//! The moments from which a busy time may be the worst: right behind the last one from which so many frames could be
//! sent before a window ends.

ghost use Rattle.std.specs.Prelude.{◌≡◌, ℕ, ◌<◌, ◌≤◌, ◌+◌, ◌-◌, ◌*◌, ◌↔◌, Err, None, true, false, IfErr, IfOk, IfSome, IsTrue, MatchOption, length};
ghost use Rattle.wire_time.specs.Moment.{greatest_moment};
ghost use Rattle.gates.specs.Gate.{IsSchedule, Plan, in_ps};
ghost use Rattle.jumping.specs.Position.{IsPlaced};
ghost use Rattle.delay_bounds.specs.Walk.{may_by};
ghost use Rattle.burst_bounds.specs.Busy.{HasFrames, IsBusyUntil, Rises};
ghost use Rattle.burst_bounds.specs.Reach.{AreWindowsSeen, IsRead, IsSeen, IsSmall, IsUnseen, IsWindowSeen, frames_of};
ghost use Rattle.burst_bounds.specs.Walk.{AreArrivals, AreBelow, AreSlots};

use crate::busy::{busy_frames, longest_wait, most_waiting};
use crate::repeats::{Repeat, frames_until};
use crate::slots::{is_slot, slots_from};
use crate::{Bounds, Unbound};
use gates::gate_list::{Schedule, Visits};
use jumping::list_position::Position;
use std::alloc::Allocator;
use wire_time::CLASSES;

/// How far a busy time is looked at.
#[derive(Clone, Copy)]
pub enum Reach {
    /// Behind so many frames the wire is idle.
    Idle(usize),
    /// Behind so many frames all comes again.
    Again(usize),
}

/// How far the busy time from a moment on has to be looked at; none where its end isn't seen.
fn reach_of(
    slots: &[u128],
    moments: &[u128],
    from: u128,
    need: u128,
    repeat: Option<Repeat>,
) -> Option<Reach>
    requires slots { AreBelow 100 slots.now }
    requires moments { AreBelow 120 moments.now }
    requires from { from ≤ greatest_moment }
    requires need { need ≤ greatest_moment }
    requires repeat { IfSome repeat IsSmall }
    ensures { MatchOption result (IsBusyUntil need from slots.now moments.now)
        (IsSeen need from slots.now moments.now repeat) }
{
    if let Some(frames) = busy_frames(slots, moments, from, need) {
        return Some(Reach::Idle(frames));
    }
    let Some(repeat) = repeat else {
        return None;
    };
    match frames_until(slots, moments, from, repeat) {
        Some(frames) => Some(Reach::Again(frames)),
        None => None,
    }
}

/// How many frames are looked at.
fn frames_of(reach: Reach) -> usize
    ensures { result ≡ frames_of reach }
{
    match reach {
        Reach::Idle(frames) => frames,
        Reach::Again(frames) => frames,
    }
}

/// The greater of bounds and those of so many frames.
fn with_frames(
    bounds: Bounds,
    slots: &[u128],
    moments: &[u128],
    from: u128,
    frames: usize,
) -> Bounds
    requires slots { AreBelow 100 slots.now }
    requires moments { AreBelow 120 moments.now }
    requires from { from ≤ greatest_moment }
    requires rises { Rises moments.now }
    requires within { (frames ≤ length slots.now) × (frames ≤ length moments.now) }
    ensures { HasFrames bounds from slots.now moments.now frames result }
{
    Bounds {
        wait: longest_wait(slots, moments, from, frames).max(bounds.wait),
        most: most_waiting(slots, moments, from, frames).max(bounds.most),
    }
}

/// Bounds, with the busy time from a moment on.
pub fn with_moment(
    bounds: &mut Bounds,
    slots: &[u128],
    moments: &[u128],
    from: u128,
    need: u128,
    repeat: Option<Repeat>,
) -> Result<Reach, Unbound>
    requires slots { AreBelow 100 slots.now }
    requires moments { AreBelow 120 moments.now }
    requires from { from ≤ greatest_moment }
    requires rises { Rises moments.now }
    requires need { need ≤ greatest_moment }
    requires repeat { IfSome repeat IsSmall }
    ensures seen { IfOk result (IsSeen need from slots.now moments.now repeat) }
    ensures bounds { IfOk result
        (λ reach. HasFrames bounds.old from slots.now moments.now (frames_of reach) bounds.new) }
    ensures why { IfErr result
        (λ why. (why ≡ Unbound.Long) × IsBusyUntil need from slots.now moments.now) }
{
    let Some(reach) = reach_of(slots, moments, from, need, repeat) else {
        return Err(Unbound::Long);
    };
    *bounds = with_frames(*bounds, slots, moments, from, frames_of(reach));
    Ok(reach)
}

/// Whether the wire is idle before so many frames are sent.
fn is_idle_before(reach: Reach, frames: u128) -> bool
    ensures { IsTrue result → (n : ℕ) × (reach ≡ Reach.Idle n) × (n < frames) }
{
    match reach {
        Reach::Idle(n) => (n as u128) < frames,
        Reach::Again(_) => false,
    }
}

/// Whether one frame more can be sent before the end of a window, in front of those that are just too late from a moment
/// on.
fn fits_more(schedule: &Schedule, first: &Position, class: u8, need: u128, from: u128) -> bool
    requires sound { IsSchedule schedule.now }
    requires first { IsPlaced schedule.now 0 None 0 first.now }
    requires class { class < CLASSES }
    requires need { need ≤ greatest_moment }
    requires from { from ≤ greatest_moment }
    ensures yes { IsTrue result →
        (need < from) × (may_by schedule.now class (from - need - 1) need ≡ true) }
    ensures no { result ≡ false → need < from →
        may_by schedule.now class (from - need - 1) need ≡ false }
{
    if need >= from {
        return false;
    }
    is_slot(schedule, first, class, need, from - need - 1)
}

/// Bounds, with the busy times that begin just too late for 1, 2, .. frames to be sent before the end of a window.
fn with_window<A: Allocator>(
    alloc: &A,
    schedule: &Schedule,
    first: &Position,
    class: u8,
    need: u128,
    end: u128,
    moments: &[u128],
    repeat: Option<Repeat>,
    bounds: &mut Bounds,
) -> Result<(), Unbound>
where
    A: Clone,
    requires sound { IsSchedule schedule.now }
    requires first { IsPlaced schedule.now 0 None 0 first.now }
    requires class { class < CLASSES }
    requires need { (0 < need) × (need ≤ greatest_moment) }
    requires end { end < greatest_moment }
    requires some { 0 < length moments.now }
    requires moments { AreBelow 120 moments.now }
    requires rises { Rises moments.now }
    requires repeat { IfSome repeat IsSmall }
    ensures seen { IfOk result
        (λ _. IsWindowSeen schedule.now class need end moments.now repeat bounds.old bounds.new) }
    ensures why { IfErr result
        (λ why. (curve : ℕ → ℕ) → IsRead schedule.now class need curve moments.now repeat →
        IsUnseen schedule.now class need curve (length moments.now) why) }
{
    if !fits_more(schedule, first, class, need, end + 1) {
        return Ok(());
    }
    let mut from = end + 1 - need;
    let mut frames = 1;
    let mut slots = match slots_from(alloc, schedule, first, class, need, from, moments.len()) {
        Ok(slots) => slots,
        Err(why) => return Err(why),
    };
    'frames: loop {
        let reach = match with_moment(bounds, slots.as_slice(), moments, from, need, repeat) {
            Ok(reach) => reach,
            Err(why) => return Err(why),
        };
        if is_idle_before(reach, frames) {
            return Ok(());
        }
        if !fits_more(schedule, first, class, need, from) {
            return Ok(());
        }
        from -= need;
        frames += 1;
        let Ok(()) = slots.insert(0, from) else {
            return Err(Unbound::Memory);
        };
    }
}

/// Whether a window of a class ends at a moment.
fn ends_window(schedule: &Schedule, first: &Position, class: u8, end: u128) -> bool
    requires sound { IsSchedule schedule.now }
    requires first { IsPlaced schedule.now 0 None 0 first.now }
    requires class { class < CLASSES }
    requires end { (0 < end) × (end ≤ greatest_moment) }
    ensures { IsTrue result ↔ (may_by schedule.now class end 1 ≡ false)
        × (may_by schedule.now class (end - 1) 1 ≡ true) }
{
    !is_slot(schedule, first, class, 1, end) && is_slot(schedule, first, class, 1, end - 1)
}

/// Bounds, with the busy times around the end of each window of a cycle.
pub fn with_windows<A: Allocator>(
    alloc: &A,
    schedule: &Schedule,
    first: &Position,
    class: u8,
    need: u128,
    moments: &[u128],
    repeat: Option<Repeat>,
    bounds: &mut Bounds,
) -> Result<(), Unbound>
where
    A: Clone,
    requires sound { IsSchedule schedule.now }
    requires first { IsPlaced schedule.now 0 None 0 first.now }
    requires class { class < CLASSES }
    requires need { (0 < need) × (need ≤ greatest_moment) }
    requires some { 0 < length moments.now }
    requires moments { AreBelow 120 moments.now }
    requires rises { Rises moments.now }
    requires repeat { IfSome repeat IsSmall }
    ensures seen { IfOk result
        (λ _. AreWindowsSeen schedule.now class need moments.now repeat
        (length schedule.now.entries) bounds.old bounds.new) }
    ensures why { IfErr result
        (λ why. (curve : ℕ → ℕ) → IsRead schedule.now class need curve moments.now repeat →
        IsUnseen schedule.now class need curve (length moments.now) why) }
{
    let mut visits = Visits::zero();
    let mut end = 1000 * u128::from(schedule.cycle_ns());
    for i in 0..schedule.len() {
        if ends_window(schedule, first, class, end) {
            match with_window(
                alloc, schedule, first, class, need, end, moments, repeat, bounds,
            ) {
                Ok(()) => {}
                Err(why) => return Err(why),
            }
        }
        end += 1000 * u128::from(schedule.entry(i, &mut visits).interval);
    }
    Ok(())
}
