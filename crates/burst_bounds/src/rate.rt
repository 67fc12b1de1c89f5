//! Whether in the long run more frames come than the windows take.

ghost use Rattle.std.specs.Prelude.{◌≡◌, ℕ, ◌<◌, ◌≤◌, ◌+◌, ◌-◌, ◌*◌, ◌%◌, ◌^◌, All, None, true, false, IfErr, IfOk, IfSome, IsTrue, MatchOption, length, map, replicate, slice_index};
ghost use Rattle.wire_time.specs.Moment.{greatest_moment};
ghost use Rattle.gates.specs.Gate.{IsSchedule, in_ps, prefix};
ghost use Rattle.jumping.specs.Position.{IsPlaced};
ghost use Rattle.delay_bounds.specs.Walk.{may_by};
ghost use Rattle.burst_bounds.specs.Overload.{IsOverloaded, IsShare, IsShareless, IsShareUnknown, wholes};
ghost use Rattle.burst_bounds.specs.Talkers.{IsTalker, longest_need};
ghost use Rattle.burst_bounds.specs.Unbound.{periods_in};
ghost use Rattle.burst_bounds.specs.Walk.{AreBelow, talker_at};

use crate::slots::{is_slot, next_slot};
use crate::{Talker, Unbound};
use gates::gate_list::{Schedule, Visits};
use jumping::list_position::Position;
use std::alloc::{AllocError, Allocator};
use wire_time::CLASSES;

/// So many slots in so long, again and again.
#[derive(Clone, Copy)]
pub struct Share {
    pub slots: u128,
    pub time: u128,
}

/// A moment at which a class is shut; none where it never is.
fn shut_at(schedule: &Schedule, first: &Position, class: u8) -> Option<u128>
    requires sound { IsSchedule schedule.now }
    requires first { IsPlaced schedule.now 0 None 0 first.now }
    requires class { class < CLASSES }
    ensures { MatchOption result
        ((i : ℕ) → i < length schedule.now.entries →
        may_by schedule.now class (prefix schedule.now.entries i) 1 ≡ true)
        (λ t. (may_by schedule.now class t 1 ≡ false) × (t ≤ 2 ^ 52)) }
{
    let mut visits = Visits::zero();
    let mut start = 0;
    for i in 0..schedule.len() {
        if !is_slot(schedule, first, class, 1, start) {
            return Some(start);
        }
        start += 1000 * u128::from(schedule.entry(i, &mut visits).interval);
    }
    None
}

/// The slots of one cycle, from a moment on at which the class is shut.
fn cycle_share(
    schedule: &Schedule,
    first: &Position,
    class: u8,
    need: u128,
    from: u128,
) -> Result<Share, Unbound>
    requires sound { IsSchedule schedule.now }
    requires first { IsPlaced schedule.now 0 None 0 first.now }
    requires class { class < CLASSES }
    requires need { (0 < need) × (need ≤ greatest_moment) }
    requires from { from ≤ 2 ^ 52 }
    requires shut { may_by schedule.now class from 1 ≡ false }
    ensures share { IfOk result (IsShare schedule.now class need) }
    ensures why { IfErr result (IsShareless schedule.now class need) }
{
    let mut position = *first;
    position.jump_to(schedule, 0, None, from, &mut Visits::zero());
    let begin = match next_slot(schedule, &mut position, class, need, from) {
        Ok(begin) => begin,
        Err(why) => return Err(why),
    };
    let end = begin + 1000 * u128::from(schedule.cycle_ns());
    let mut slots = 0;
    let mut at = begin;
    while at < end {
        at = match next_slot(schedule, &mut position, class, need, at + need) {
            Ok(next) => next,
            Err(why) => return Err(why),
        };
        slots += 1;
    }
    Ok(Share {
        slots,
        time: at - begin,
    })
}

/// So many slots in so long, again and again.
fn share_of(schedule: &Schedule, first: &Position, class: u8, need: u128) -> Result<Share, Unbound>
    requires sound { IsSchedule schedule.now }
    requires first { IsPlaced schedule.now 0 None 0 first.now }
    requires class { class < CLASSES }
    requires need { (0 < need) × (need ≤ greatest_moment) }
    ensures share { IfOk result (IsShare schedule.now class need) }
    ensures why { IfErr result (IsShareless schedule.now class need) }
{
    match shut_at(schedule, first, class) {
        Some(from) => cycle_share(schedule, first, class, need, from),
        None => {
            let cycle = 1000 * u128::from(schedule.cycle_ns());
            Ok(Share {
                slots: cycle,
                time: cycle * need,
            })
        }
    }
}

/// By this each time is multiplied at a step.
const STEP: u128 = 1 << 32;

/// What is left of a number of slots when each talker has had one for each whole period in its time. None: they don't
/// suffice.
fn slots_left(slots: u128, talkers: &[Talker], times: &[u128]) -> Option<u128>
    requires talkers { All IsTalker talkers.now }
    requires times { length times.now ≡ length talkers.now }
    ensures { MatchOption result (slots < wholes talkers.now times.now)
        (λ left. left + wholes talkers.now times.now ≡ slots) }
{
    let mut left = slots;
    for (i, talker) in talkers.iter().enumerate() {
        let periods = times[i] / talker.period;
        if left < periods {
            return None;
        }
        left -= periods;
    }
    Some(left)
}

/// The rest of each time behind whole periods of its talker, multiplied.
fn lengthen(talkers: &[Talker], times: &mut [u128])
    requires talkers { All IsTalker talkers.now }
    requires times { length times.old ≡ length talkers.now }
    ensures count { length times.new ≡ length talkers.now }
    ensures rests { (i : ℕ) → i < length talkers.now →
        slice_index times.new i
        ≡ (slice_index times.old i % (talker_at talkers.now i).period) * 2 ^ 32 }
{
    for (i, talker) in talkers.iter().enumerate() {
        times[i] = (times[i] % talker.period) * STEP;
    }
}

/// The same time for each talker.
fn same_times<A: Allocator>(
    alloc: A,
    talkers: usize,
    time: u128,
) -> Result<Vec<u128, A>, AllocError>
    ensures { IfOk result (λ times. times.items ≡ replicate talkers time) }
{
    let mut times = Vec::with_capacity(alloc, talkers)?;
    for _i in 0..talkers {
        times.push(time)?;
    }
    Ok(times)
}

/// Whether more frames come in a time than there are slots, in the long run.
///
/// The time is multiplied by 2^32 again and again, and of the slots and of the whole periods only the difference is
/// kept. Each step is a further digit of the fractions.
fn is_more(share: Share, talkers: &[Talker], times: &mut [u128]) -> bool
    requires talkers { All IsTalker talkers.now }
    requires times { length times.old ≡ length talkers.now }
    requires same { (i : ℕ) → i < length talkers.now → slice_index times.old i ≡ share.time }
    ensures { IsTrue result →
        (n : ℕ) × (share.slots * n < periods_in (share.time * n) talkers.now) }
{
    let mut slots = share.slots;
    for _i in 0..talkers.len().saturating_mul(3).saturating_add(2) {
        let Some(left) = slots_left(slots, talkers, times) else {
            return true;
        };
        if left >= talkers.len() as u128 {
            return false;
        }
        slots = left * STEP;
        lengthen(talkers, times);
    }
    false
}

/// Whether in the long run more frames come than the windows take.
pub fn is_overloaded<A: Allocator>(
    alloc: &A,
    schedule: &Schedule,
    first: &Position,
    class: u8,
    need: u128,
    talkers: &[Talker],
) -> Result<bool, Unbound>
where
    A: Clone,
    requires sound { IsSchedule schedule.now }
    requires first { IsPlaced schedule.now 0 None 0 first.now }
    requires class { class < CLASSES }
    requires need { (0 < need) × (need ≤ greatest_moment) }
    requires talkers { All IsTalker talkers.now }
    ensures more { IfOk result
        (λ more. IsTrue more → IsOverloaded schedule.now class need talkers.now) }
    ensures why { IfErr result (IsShareUnknown schedule.now class need) }
{
    let share = match share_of(schedule, first, class, need) {
        Ok(share) => share,
        Err(why) => return Err(why),
    };
    let Ok(lent) = alloc.clone() else {
        return Err(Unbound::Memory);
    };
    let Ok(mut times) = same_times(lent, talkers.len(), share.time) else {
        return Err(Unbound::Memory);
    };
    Ok(is_more(share, talkers, times.as_mut_slice()))
}
