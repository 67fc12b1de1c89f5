//! Where as many frames come as the windows take, the wire need not become idle. Then all repeats.

ghost use Rattle.std.specs.Prelude.{◌≡◌, ℕ, ◌<◌, ◌≤◌, ◌+◌, ◌^◌, All, IfSome, length, slice_index};
ghost use Rattle.wire_time.specs.Moment.{greatest_moment};
ghost use Rattle.burst_bounds.specs.Talkers.{IsTalker};
ghost use Rattle.burst_bounds.specs.Unbound.{periods_in};
ghost use Rattle.burst_bounds.specs.Walk.{AreBelow};
ghost use Rattle.burst_bounds.specs.Reach.{ComesBack, IsCommon, IsCommonTime, IsMultiple, IsSmall};

use crate::Talker;

/// After so long as many frames have come, and so on.
#[derive(Clone, Copy)]
pub struct Repeat {
    pub frames: usize,
    pub time: u128,
}

/// The greatest common divisor.
fn common_divisor(a: u128, b: u128) -> u128 {
    let mut a = a;
    let mut b = b;
    while b != 0 {
        let rest = a % b;
        a = b;
        b = rest;
    }
    a
}

/// A common multiple, the least one; none where it is too long to be looked at.
fn common_multiple(a: u128, b: u128) -> Option<u128>
    requires { 0 < b }
    ensures { IfSome result (IsMultiple a b) }
{
    let times = b / common_divisor(a, b).max(1);
    let time = a.checked_mul(times)?;
    if time == 0 || time > u128::MAX / 2 || time % b != 0 {
        return None;
    }
    Some(time)
}

/// Whole cycles and whole periods of each talker; none where that is too long to be looked at.
pub fn common_time(talkers: &[Talker], cycle: u128) -> Option<u128>
    requires talkers { All IsTalker talkers.now }
    requires cycle { (0 < cycle) × (cycle < 2 ^ 127) }
    ensures { IfSome result (IsCommonTime talkers.now cycle) }
{
    let mut time = cycle;
    for talker in talkers {
        time = common_multiple(time, talker.period)?;
    }
    Some(time)
}

/// How many whole periods of all talkers pass in a time; none where they are more than a limit.
fn periods_in(talkers: &[Talker], time: u128, limit: usize) -> Option<usize>
    requires { All IsTalker talkers.now }
    ensures { IfSome result (λ n. n ≡ periods_in time talkers.now) }
{
    let mut left = limit as u128;
    for talker in talkers {
        left = left.checked_sub(time / talker.period)?;
    }
    Some(limit - left as usize)
}

/// After how long, and how many frames, all comes again; none where there are more than may be looked at.
pub fn repeat_of(talkers: &[Talker], cycle: u128, limit: usize) -> Option<Repeat>
    requires talkers { All IsTalker talkers.now }
    requires cycle { (0 < cycle) × (cycle < 2 ^ 127) }
    ensures { IfSome result (IsCommon talkers.now cycle) }
{
    let time = common_time(talkers, cycle)?;
    let frames = periods_in(talkers, time, limit)?;
    Some(Repeat { frames, time })
}

/// The first slot that comes again.
fn first_again(slots: &[u128], repeat: Repeat) -> Option<usize>
    requires slots { AreBelow 100 slots.now }
    requires small { IsSmall repeat }
    ensures { IfSome result
        (λ i. (i + repeat.frames < length slots.now)
        × (slice_index slots.now (i + repeat.frames) ≡ slice_index slots.now i + repeat.time)) }
{
    let mut i = 0;
    while i < slots.len() && repeat.frames < slots.len() - i {
        if slots[i + repeat.frames] == slots[i] + repeat.time {
            return Some(i);
        }
        i += 1;
    }
    None
}

/// The first frame from a place on that comes behind a slot.
fn first_behind(moments: &[u128], from: u128, place: usize, slot: u128) -> Option<usize>
    requires moments { AreBelow 120 moments.now }
    requires from { from ≤ greatest_moment }
    ensures { IfSome result
        (λ i. (place ≤ i) × (i < length moments.now) × (slot < from + slice_index moments.now i)) }
{
    let mut i = place;
    while i < moments.len() {
        if slot < from + moments[i] {
            return Some(i);
        }
        i += 1;
    }
    None
}

/// How many frames have to be looked at, where all then comes again.
pub fn frames_until(slots: &[u128], moments: &[u128], from: u128, repeat: Repeat) -> Option<usize>
    requires slots { AreBelow 100 slots.now }
    requires moments { AreBelow 120 moments.now }
    requires from { from ≤ greatest_moment }
    requires small { IsSmall repeat }
    ensures { IfSome result (ComesBack from slots.now moments.now repeat) }
{
    let again = first_again(slots, repeat)?;
    let behind = first_behind(moments, from, again, slots[again])?;
    let frames = behind.checked_add(repeat.frames)?;
    if frames > moments.len() || frames > slots.len() {
        return None;
    }
    Some(frames)
}
