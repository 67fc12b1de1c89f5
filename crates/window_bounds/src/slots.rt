//! The starts of frames that wait one behind another.

ghost use Rattle.std.specs.Prelude.{◌≡◌, ◌<◌, ◌≤◌, ◌+◌, None, IfErr, IfOk};
ghost use Rattle.wire_time.specs.Moment.{greatest_moment};
ghost use Rattle.gates.specs.Gate.{IsSchedule, in_ps};
ghost use Rattle.jumping.specs.Position.{IsPlaced, StoodBy};
ghost use Rattle.abstract_port.specs.Served.{IsFirst};
ghost use Rattle.delay_bounds.specs.Walk.{may_by};
ghost use Rattle.window_bounds.specs.Slots.{IsNoStart};

use crate::Unbound;
use burst_bounds::slots;
use gates::gate_list::Schedule;
use jumping::list_position::Position;
use wire_time::CLASSES;

/// The first moment from `from` on from which a class stays open for so long. The list goes on to where it stands then.
pub fn next_slot(
    schedule: &Schedule,
    position: &mut Position,
    class: u8,
    need: u128,
    from: u128,
) -> Result<u128, Unbound>
    requires sound { IsSchedule schedule.now }
    requires stood { StoodBy schedule.now 0 None from position.old }
    requires class { class < CLASSES }
    requires need { need ≤ greatest_moment }
    ensures slot { IfOk result (λ at. IsFirst (may_by schedule.now class) need from at) }
    ensures soon { IfOk result (λ at. at < greatest_moment + in_ps schedule.now.cycle) }
    ensures placed { IfOk result (λ at. IsPlaced schedule.now 0 None at position.new) }
    ensures why { IfErr result (IsNoStart schedule.now class need from) }
{
    match slots::next_slot(schedule, position, class, need, from) {
        Ok(at) => Ok(at),
        Err(burst_bounds::Unbound::Stuck) => Err(Unbound::Stuck),
        Err(_) => Err(Unbound::Late),
    }
}
