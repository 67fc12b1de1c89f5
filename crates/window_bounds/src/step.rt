//! One step of the walk: the frames that have one latest moment.

ghost use Rattle.std.specs.Prelude.{◌≡◌, ℕ, ◌<◌, ◌≤◌, ◌+◌, All, None, IfErr, IfOk, length};
ghost use Rattle.wire_time.specs.Moment.{greatest_moment};
ghost use Rattle.gates.specs.Gate.{IsSchedule};
ghost use Rattle.jumping.specs.Position.{StoodBy};
ghost use Rattle.delay_bounds.specs.Walk.{may_by};
ghost use Rattle.window_bounds.specs.Beats.{beat_at};
ghost use Rattle.window_bounds.specs.Flows.{IsFlow, flows_of};
ghost use Rattle.window_bounds.specs.Unbound.{IsEnded};
ghost use Rattle.window_bounds.specs.Walk.{IsWalkedTo};

use crate::beats::{Beat, pass};
use crate::late_run::{Run, free_behind, send};
use crate::notes::{due_at, note};
use crate::{JitteredFlow, Unbound};
use gates::gate_list::Schedule;
use jumping::list_position::Position;
use wire_time::CLASSES;

/// The frames whose latest moment is `t`: they are sent, and the start of the last of those that may have come by then is
/// noted.
pub fn step(
    schedule: &Schedule,
    position: &mut Position,
    class: u8,
    need: u128,
    flows: &[JitteredFlow],
    limit: u64,
    lates: &mut [Beat],
    earlies: &mut [Beat],
    aheads: &mut [Beat],
    waits: &mut [u128],
    can: &mut u128,
    run: Run,
    t: u128,
) -> Result<Run, Unbound>
    requires sound { IsSchedule schedule.now }
    requires stood { StoodBy schedule.now 0 None run.free position.old }
    requires class { class < CLASSES }
    requires need { (0 < need) × (need ≤ greatest_moment) }
    requires flows { All IsFlow flows.now }
    requires walked { IsWalkedTo (may_by schedule.now class) need limit flows.now t
        lates.old earlies.old aheads.old can.old run waits.old }
    requires one { (i : ℕ) × (i < length lates.old) × ((beat_at lates.old i).next ≡ t) }
    requires least { (i : ℕ) → i < length lates.old → t ≤ (beat_at lates.old i).next }
    ensures walked { IfOk result (λ next.
        IsWalkedTo (may_by schedule.now class) need limit flows.now (t + 1)
        lates.new earlies.new aheads.new can.new next waits.new) }
    ensures stood { IfOk result (λ next. StoodBy schedule.now 0 None next.free position.new) }
    ensures more { IfOk result (λ next. run.sent < next.sent) }
    ensures why { IfErr result (IsEnded schedule.now class need (flows_of flows.now) limit) }
{
    let begun = Run {
        sent: run.sent,
        free: run.free.max(t),
        come: run.come,
        most: run.most,
    };
    let due = due_at(lates, t);
    let next = match send(schedule, position, class, need, aheads, begun, due, limit) {
        Ok(next) => next,
        Err(why) => return Err(why),
    };
    *can = (*can).saturating_add(pass(earlies, t));
    let more = (*can).saturating_sub(next.sent);
    let free = match free_behind(schedule, *position, class, need, next.free, more) {
        Ok(free) => free,
        Err(why) => return Err(why),
    };
    note(waits, lates, flows, t, free - need);
    let _ = pass(lates, t);
    Ok(next)
}
