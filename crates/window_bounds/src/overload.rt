//! Whether more frames come than the windows take, and after how long all flows come again.

ghost use Rattle.std.specs.Prelude.{◌≡◌, ◌<◌, ◌≤◌, All, None, Err, IfErr, IfOk, IfSome, map};
ghost use Rattle.wire_time.specs.Moment.{greatest_moment};
ghost use Rattle.gates.specs.Gate.{IsSchedule, in_ps};
ghost use Rattle.jumping.specs.Position.{IsPlaced};
ghost use Rattle.burst_bounds.specs.Reach.{IsCommonTime};
ghost use Rattle.window_bounds.specs.Flows.{IsFlow, talker_of, talkers_of};
ghost use Rattle.window_bounds.specs.Unbound.{IsHopeless};

use crate::{JitteredFlow, Unbound};
use burst_bounds::Talker;
use burst_bounds::rate::is_overloaded;
use burst_bounds::repeats::common_time;
use gates::gate_list::Schedule;
use jumping::list_position::Position;
use std::alloc::{AllocError, Allocator};
use wire_time::CLASSES;

/// A flow, of which no more is known than how far its frames are apart.
fn talker_of(flow: JitteredFlow) -> Talker
    ensures { result ≡ talker_of flow }
{
    Talker {
        need: flow.longest,
        period: flow.period,
        jitter: flow.jitter,
    }
}

/// Flows, of which no more is known than how far their frames are apart.
fn talkers_of<A: Allocator>(alloc: &A, flows: &[JitteredFlow]) -> Result<Vec<Talker, A>, AllocError>
where
    A: Clone,
    ensures { IfOk result (λ talkers. talkers.items ≡ talkers_of flows.now) }
{
    let mut talkers = Vec::with_capacity(alloc.clone()?, flows.len())?;
    for flow in flows {
        talkers.push(talker_of(*flow))?;
    }
    Ok(talkers)
}

/// A time after which the gates and the frames of all flows come again; none where it is too long to be looked at.
pub fn repeat_of<A: Allocator>(
    alloc: &A,
    schedule: &Schedule,
    first: &Position,
    class: u8,
    need: u128,
    flows: &[JitteredFlow],
) -> Result<Option<u128>, Unbound>
where
    A: Clone,
    requires sound { IsSchedule schedule.now }
    requires first { IsPlaced schedule.now 0 None 0 first.now }
    requires class { class < CLASSES }
    requires need { (0 < need) × (need ≤ greatest_moment) }
    requires flows { All IsFlow flows.now }
    ensures time { IfOk result (λ time.
        IfSome time (IsCommonTime (talkers_of flows.now) (in_ps schedule.now.cycle))) }
    ensures why { IfErr result (IsHopeless schedule.now class need flows.now) }
{
    let Ok(talkers) = talkers_of(alloc, flows) else {
        return Err(Unbound::Memory);
    };
    match is_overloaded(alloc, schedule, first, class, need, talkers.as_slice()) {
        Ok(false) => {}
        Ok(true) => return Err(Unbound::Overloaded),
        Err(burst_bounds::Unbound::Stuck) => return Err(Unbound::Stuck),
        Err(_) => return Err(Unbound::Memory),
    }
    let cycle = 1000 * u128::from(schedule.cycle_ns());
    Ok(common_time(talkers.as_slice(), cycle))
}
