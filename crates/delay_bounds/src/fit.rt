//! The first moment at which a class stays open for long enough.

ghost use Rattle.std.specs.Prelude.{◌≡◌, ◌<◌, ◌≤◌, ◌+◌, Some, None, IfSome};
ghost use Rattle.wire_time.specs.Moment.{greatest_moment};
ghost use Rattle.gates.specs.Gate.{IsSchedule, in_ps};
ghost use Rattle.jumping.specs.Position.{IsPlaced};
ghost use Rattle.delay_bounds.specs.Bounds.{first_fit};
ghost use Rattle.delay_bounds.specs.Walk.{may_by};

use gates::gate_list::{Schedule, Visits};
use jumping::list_position::{Need, Position};
use wire_time::CLASSES;

/// The first moment from `from` on and less than a cycle later, both in picoseconds since the change moment, from which
/// the class stays open for so long; none: from no moment.
pub fn fit(
    schedule: &Schedule,
    first: &Position,
    class: u8,
    from: u128,
    length: u128,
) -> Option<u128>
    requires sound { IsSchedule schedule.now }
    requires first { IsPlaced schedule.now 0 None 0 first.now }
    requires class { class < CLASSES }
    requires from { from ≤ greatest_moment }
    requires within { length ≤ greatest_moment }
    ensures fit { result
        ≡ first_fit (may_by schedule.now class) length from (in_ps schedule.now.cycle) }
    ensures soon { IfSome result (λ at. (from ≤ at) × (at < from + in_ps schedule.now.cycle)) }
{
    let mut visits = Visits::zero();
    let stop = from + 1000 * u128::from(schedule.cycle_ns());
    let mut moment = from;
    let mut position = *first;
    position.jump_to(schedule, 0, None, from, &mut visits);
    while !position.stays_open(
        schedule,
        None,
        Need {
            class,
            from: moment,
            length,
        },
    ) {
        let end = position.until(None)?;
        if stop <= end {
            return None;
        }
        position.go_on(schedule, 0, None, end, &mut visits);
        moment = end;
    }
    Some(moment)
}
