//! The walk over the frames by their latest moments, until the late run is as it was.

ghost use Rattle.std.specs.Prelude.{◌≡◌, ℕ, ◌<◌, ◌≤◌, ◌+◌, ◌^◌, All, Some, IfErr, IfOk, IfSome, MatchOption, length, map, replicate};
ghost use Rattle.wire_time.specs.Moment.{greatest_moment};
ghost use Rattle.gates.specs.Gate.{IsSchedule, in_ps};
ghost use Rattle.delay_bounds.specs.Walk.{may_by};
ghost use Rattle.burst_bounds.specs.Reach.{IsCommonTime};
ghost use Rattle.window_bounds.specs.Beats.{early_beat, late_beat};
ghost use Rattle.window_bounds.specs.Flows.{IsFlow, flows_of, longest_need, talkers_of};
ghost use Rattle.window_bounds.specs.Unbound.{IsEnded};
ghost use Rattle.window_bounds.specs.Walk.{HasCome, HaveBegun, IsAsItWas, IsBelow, marked};

use crate::beats::{Beat, soonest};
use crate::late_run::Run;
use crate::step::step;
use crate::{JitteredFlow, Unbound};
use gates::gate_list::{Schedule, Visits};
use jumping::list_position::Position;
use wire_time::CLASSES;

/// A moment to look at, and until when the wire was taken at the one before, where there is one.
#[derive(Clone, Copy)]
pub struct Mark {
    pub at: u128,
    pub was: Option<u128>,
}

/// What a walk has seen when the late run is as it was.
#[derive(Clone, Copy)]
pub struct Seen {
    /// The greatest number of frames that wait at once.
    pub most: u64,
    /// So many picoseconds ago it was the same.
    pub every: u128,
}

/// The latest moment of the first frames of all flows.
fn last_begin(flows: &[JitteredFlow]) -> u128
    requires flows { All IsFlow flows.now }
    ensures begun { HaveBegun flows.now result }
    ensures soon { result ≤ 2 ^ 80 }
{
    let mut last = 0;
    for flow in flows {
        last = (flow.offset + flow.jitter).max(last);
    }
    last
}

/// After how long the late run is as it was, if it is.
fn again(mark: Mark, time: Option<u128>, t: u128, free: u128) -> Option<u128>
    requires time { IsBelow 127 time }
    requires was { IsBelow 127 mark.was }
    ensures { MatchOption result ((every : ℕ) → IsAsItWas mark time t free every → ⊥)
        (IsAsItWas mark time t free) }
{
    let Some(every) = time else {
        return None;
    };
    let Some(was) = mark.was else {
        return None;
    };
    if t == mark.at && free.max(t) == was + every {
        return Some(every);
    }
    None
}

/// Where to look next.
fn marked(mark: Mark, time: Option<u128>, t: u128, free: u128) -> Mark
    requires time { IsBelow 127 time }
    requires soon { t < 2 ^ 127 }
    ensures { result ≡ marked mark time t free }
{
    let Some(every) = time else {
        return mark;
    };
    if t == mark.at {
        return Mark {
            at: t + every,
            was: Some(free.max(t)),
        };
    }
    mark
}

/// Walks until the late run is as it was.
pub fn walk(
    schedule: &Schedule,
    class: u8,
    need: u128,
    flows: &[JitteredFlow],
    time: Option<u128>,
    limit: u64,
    lates: &mut [Beat],
    earlies: &mut [Beat],
    aheads: &mut [Beat],
    waits: &mut [u128],
) -> Result<Seen, Unbound>
    requires sound { IsSchedule schedule.now }
    requires class { class < CLASSES }
    requires need { (0 < need) × (need ≤ greatest_moment) }
    requires some { 0 < length flows.now }
    requires flows { All IsFlow flows.now }
    requires time { IfSome time (IsCommonTime (talkers_of flows.now) (in_ps schedule.now.cycle)) }
    requires lates { lates.old ≡ map late_beat flows.now }
    requires earlies { earlies.old ≡ map early_beat flows.now }
    requires aheads { aheads.old ≡ map early_beat flows.now }
    requires waits { waits.old ≡ replicate (length flows.now) 0 }
    ensures come { IfOk result (λ seen.
        HasCome (may_by schedule.now class) need (flows_of flows.now)
        seen.every seen.most waits.new) }
    ensures time { IfOk result (λ seen. time ≡ Some seen.every) }
    ensures why { IfErr result (IsEnded schedule.now class need (flows_of flows.now) limit) }
{
    let mut position = Position::first(schedule, 0, &mut Visits::zero());
    let mut mark = Mark {
        at: last_begin(flows),
        was: None,
    };
    let mut can = 0;
    let mut run = Run {
        sent: 0,
        free: 0,
        come: 0,
        most: 0,
    };
    'frames: loop {
        let t = soonest(lates);
        if let Some(every) = again(mark, time, t, run.free) {
            return Ok(Seen {
                most: run.most as u64,
                every,
            });
        }
        mark = marked(mark, time, t, run.free);
        run = match step(
            schedule,
            &mut position,
            class,
            need,
            flows,
            limit,
            lates,
            earlies,
            aheads,
            waits,
            &mut can,
            run,
            t,
        ) {
            Ok(next) => next,
            Err(why) => return Err(why),
        };
    }
}
