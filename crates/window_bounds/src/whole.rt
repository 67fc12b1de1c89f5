//! The bounds of flows, by the walk.

ghost use Rattle.std.specs.Prelude.{◌≡◌, ◌<◌, All, IfErr, IfOk, length};
ghost use Rattle.gates.specs.Gate.{IsSchedule};
ghost use Rattle.delay_bounds.specs.Walk.{may_by};
ghost use Rattle.window_bounds.specs.Flows.{IsFlow, flows_of, longest_need};
ghost use Rattle.window_bounds.specs.Least.{AreLeast};
ghost use Rattle.window_bounds.specs.Unbound.{IsUnbound};

use crate::beats::{early_beats, late_beats};
use crate::least::with_least;
use crate::notes::none_seen;
use crate::overload::repeat_of;
use crate::walk::walk;
use crate::{Bounded, JitteredFlow, Unbound};
use gates::gate_list::{Schedule, Visits};
use jumping::list_position::Position;
use std::alloc::Allocator;
use wire_time::CLASSES;

/// The longest need of all flows.
fn longest_need(flows: &[JitteredFlow]) -> u128
    ensures { result ≡ longest_need flows.now }
{
    let mut need = 0;
    for flow in flows {
        need = flow.longest.max(need);
    }
    need
}

/// The bounds of the flows of a class that a schedule keeps apart, for ever: the least and the greatest time from the
/// earliest moment of each flow's frames (its offset and whole periods) to their starts, and the greatest number of
/// frames that ever wait at once. Each frame is taken to need the wire for as long as the longest of all, but for the
/// least time, where it is as short as one of its flow may be. All are exact, by the late run: that in which each frame
/// comes as late as it may.
///
/// The frames are walked by their latest moments, until the late run is as it was some cycles before: from there on it
/// goes on so for ever. That takes time for as many frames as come in one hyperperiod, mostly, and memory for each flow
/// alone.
///
/// # Errors
/// `Overloaded`: in the long run more frames come than the windows take. `Stuck`: no window takes the longest frame.
/// `Long`: more than `limit` frames may have come by the start of some frame of the late run, and it was not yet as it
/// was. `Late`: frames that may have come by some moment keep the wire until behind `MAX_MOMENT`. `Memory`: out of
/// memory.
///
/// IEEE Std 802.1Q-2018, 8.6.8.4 and 8.6.9. `any_traffic::periodic_windows` says what the bounds are worth in every run.
pub fn window_bounds<A: Allocator>(
    alloc: &A,
    schedule: &Schedule,
    class: u8,
    flows: &[JitteredFlow],
    limit: u64,
) -> Result<Bounded<A>, Unbound>
where
    A: Clone,
    requires class { class < CLASSES }
    requires some { 0 < length flows.now }
    requires flows { All IsFlow flows.now }
    ensures least { IfOk result (λ b.
        AreLeast (may_by schedule.now class) (longest_need flows.now) (flows_of flows.now)
        b.bounds.items b.most) }
    ensures why { IfErr result (IsUnbound schedule.now class flows.now limit) }
{
    let _entries = schedule.len();
    let first = Position::first(schedule, 0, &mut Visits::zero());
    let need = longest_need(flows);
    let time = match repeat_of(alloc, schedule, &first, class, need, flows) {
        Ok(time) => time,
        Err(why) => return Err(why),
    };
    let Ok(mut lates) = late_beats(alloc, flows) else {
        return Err(Unbound::Memory);
    };
    let Ok(mut earlies) = early_beats(alloc, flows) else {
        return Err(Unbound::Memory);
    };
    let Ok(mut aheads) = early_beats(alloc, flows) else {
        return Err(Unbound::Memory);
    };
    let Ok(mut waits) = none_seen(alloc, flows.len()) else {
        return Err(Unbound::Memory);
    };
    let seen = match walk(
        schedule,
        class,
        need,
        flows,
        time,
        limit,
        lates.as_mut_slice(),
        earlies.as_mut_slice(),
        aheads.as_mut_slice(),
        waits.as_mut_slice(),
    ) {
        Ok(seen) => seen,
        Err(why) => return Err(why),
    };
    match with_least(
        alloc,
        schedule,
        &first,
        class,
        flows,
        waits.as_slice(),
        seen.every,
    ) {
        Ok(Some(bounds)) => Ok(Bounded {
            bounds,
            most: seen.most,
        }),
        Ok(None) => Err(Unbound::Stuck),
        Err(_) => Err(Unbound::Memory),
    }
}
