//! The slots of a class: from a moment on the latest starts of frames that wait one behind another.

ghost use Rattle.std.specs.Prelude.{◌≡◌, ◌<◌, ◌≤◌, ◌+◌, None, IfErr, IfOk, IfSome, length};
ghost use Rattle.wire_time.specs.Moment.{greatest_moment};
ghost use Rattle.gates.specs.Gate.{IsSchedule, in_ps};
ghost use Rattle.jumping.specs.Position.{IsPlaced, StoodBy};
ghost use Rattle.abstract_port.specs.Served.{IsFirst};
ghost use Rattle.delay_bounds.specs.Bounds.{first_fit};
ghost use Rattle.delay_bounds.specs.Walk.{may_by};
ghost use Rattle.burst_bounds.specs.Walk.{AreBelow, AreSlots};
ghost use Rattle.burst_bounds.specs.Slotless.{IsNoSlot, IsSlotless};

use crate::Unbound;
use delay_bounds::fit::fit;
use gates::gate_list::{Schedule, Visits};
use jumping::list_position::{Need, Position};
use std::alloc::Allocator;
use wire_time::{CLASSES, MAX_MOMENT};

/// The first moment from `from` on and less than a cycle later from which a class stays open for so long; none: from no
/// moment. The list goes on to where it stands then. Moments are in picoseconds from the change moment on.
fn next_fit(
    schedule: &Schedule,
    position: &mut Position,
    class: u8,
    from: u128,
    length: u128,
) -> Option<u128>
    requires sound { IsSchedule schedule.now }
    requires stood { StoodBy schedule.now 0 None from position.old }
    requires class { class < CLASSES }
    requires from { from ≤ greatest_moment }
    requires within { length ≤ greatest_moment }
    ensures fit { result
        ≡ first_fit (may_by schedule.now class) length from (in_ps schedule.now.cycle) }
    ensures placed { IfSome result (λ at. IsPlaced schedule.now 0 None at position.new) }
    ensures soon { IfSome result (λ at. (from ≤ at) × (at < from + in_ps schedule.now.cycle)) }
{
    let mut visits = Visits::zero();
    let stop = from + 1000 * u128::from(schedule.cycle_ns());
    let mut moment = from;
    position.go_on(schedule, 0, None, from, &mut visits);
    while !position.stays_open(
        schedule,
        None,
        Need {
            class,
            from: moment,
            length,
        },
    ) {
        let end = position.until(None)?;
        if stop <= end {
            return None;
        }
        position.go_on(schedule, 0, None, end, &mut visits);
        moment = end;
    }
    Some(moment)
}

/// The first slot from a moment on, where the list goes on to.
pub fn next_slot(
    schedule: &Schedule,
    position: &mut Position,
    class: u8,
    need: u128,
    from: u128,
) -> Result<u128, Unbound>
    requires sound { IsSchedule schedule.now }
    requires stood { StoodBy schedule.now 0 None from position.old }
    requires class { class < CLASSES }
    requires need { need ≤ greatest_moment }
    ensures slot { IfOk result (λ at. IsFirst (may_by schedule.now class) need from at) }
    ensures soon { IfOk result (λ at. at < greatest_moment + in_ps schedule.now.cycle) }
    ensures near { IfOk result (λ at. at < from + in_ps schedule.now.cycle) }
    ensures placed { IfOk result (λ at. IsPlaced schedule.now 0 None at position.new) }
    ensures why { IfErr result (λ why. IsNoSlot schedule.now class need from why) }
{
    if from > MAX_MOMENT {
        return Err(Unbound::Long);
    }
    match next_fit(schedule, position, class, from, need) {
        Some(at) => Ok(at),
        None => Err(Unbound::Stuck),
    }
}

/// Whether a class may have the wire for so long from a moment on.
pub fn is_slot(schedule: &Schedule, first: &Position, class: u8, need: u128, at: u128) -> bool
    requires sound { IsSchedule schedule.now }
    requires first { IsPlaced schedule.now 0 None 0 first.now }
    requires class { class < CLASSES }
    requires need { need ≤ greatest_moment }
    requires at { at ≤ greatest_moment }
    ensures { result ≡ may_by schedule.now class at need }
{
    match fit(schedule, first, class, at, need) {
        Some(found) => found == at,
        None => false,
    }
}

/// The slots from a moment on, so many.
pub fn slots_from<A: Allocator>(
    alloc: &A,
    schedule: &Schedule,
    first: &Position,
    class: u8,
    need: u128,
    from: u128,
    count: usize,
) -> Result<Vec<u128, A>, Unbound>
where
    A: Clone,
    requires sound { IsSchedule schedule.now }
    requires first { IsPlaced schedule.now 0 None 0 first.now }
    requires class { class < CLASSES }
    requires need { need ≤ greatest_moment }
    requires from { from ≤ greatest_moment }
    ensures count { IfOk result (λ slots. length slots.items ≡ count) }
    ensures slots { IfOk result
        (λ slots. AreSlots (may_by schedule.now class) need from slots.items) }
    ensures below { IfOk result (λ slots. AreBelow 100 slots.items) }
    ensures why { IfErr result (λ why. IsSlotless schedule.now class need from count why) }
{
    let Ok(lent) = alloc.clone() else {
        return Err(Unbound::Memory);
    };
    let Ok(mut slots) = Vec::with_capacity(lent, count) else {
        return Err(Unbound::Memory);
    };
    let mut position = *first;
    position.jump_to(schedule, 0, None, from, &mut Visits::zero());
    let mut next = from;
    for _i in 0..count {
        let at = match next_slot(schedule, &mut position, class, need, next) {
            Ok(at) => at,
            Err(why) => return Err(why),
        };
        let Ok(()) = slots.push(at) else {
            return Err(Unbound::Memory);
        };
        next = at + need;
    }
    Ok(slots)
}
