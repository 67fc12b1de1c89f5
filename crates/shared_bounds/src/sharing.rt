//! Which classes share windows.

ghost use Rattle.std.specs.Prelude.{◌≡◌, ◌<◌, ◌≤◌, ◌↔◌, None, true, false, All, IfOk, IsTrue, length};
ghost use Rattle.wire_time.specs.Moment.{greatest_moment};
ghost use Rattle.gates.specs.Gate.{IsSchedule};
ghost use Rattle.delay_bounds.specs.Walk.{may_by};
ghost use Rattle.jumping.specs.Position.{IsPlaced};
ghost use Rattle.shared_bounds.specs.Sharing.{AreHigher, Share};
ghost use Rattle.shared_bounds.specs.Traffic.{needs};

use crate::ClassTraffic;
use gates::gate_list::{Schedule, Visits};
use jumping::list_position::{Need, Position};
use std::alloc::{AllocError, Allocator};
use wire_time::CLASSES;

/// Whether two classes are open at a moment, at which the list stands so.
fn are_open(schedule: &Schedule, position: &Position, class: u8, other: u8, at: u128) -> bool
    requires sound { IsSchedule schedule.now }
    requires placed { IsPlaced schedule.now 0 None at position.now }
    requires at { at ≤ greatest_moment }
    requires class { class < CLASSES }
    requires other { other < CLASSES }
    ensures yes { IsTrue result →
        (may_by schedule.now class at 1 ≡ true) × (may_by schedule.now other at 1 ≡ true) }
    ensures no { result ≡ false → may_by schedule.now class at 1 ≡ true →
        may_by schedule.now other at 1 ≡ false }
{
    let own = Need {
        class,
        from: at,
        length: 1,
    };
    if !position.stays_open(schedule, None, own) {
        return false;
    }
    let its = Need {
        class: other,
        from: at,
        length: 1,
    };
    position.stays_open(schedule, None, its)
}

/// Whether two classes are open at once at some moment of the cycle, where the list stands so at first.
fn share(schedule: &Schedule, first: &Position, class: u8, other: u8) -> bool
    requires sound { IsSchedule schedule.now }
    requires first { IsPlaced schedule.now 0 None 0 first.now }
    requires class { class < CLASSES }
    requires other { other < CLASSES }
    ensures { IsTrue result ↔ Share schedule.now class other }
{
    let mut visits = Visits::zero();
    let cycle = 1000 * u128::from(schedule.cycle_ns());
    let mut position = *first;
    let mut at = 0;
    while at < cycle {
        if are_open(schedule, &position, class, other, at) {
            return true;
        }
        let Some(end) = position.until(None) else {
            return false;
        };
        position.go_on(schedule, 0, None, end, &mut visits);
        at = end;
    }
    false
}

/// Whether two classes share windows: some entry opens both. What the end of the cycle cuts off opens nothing.
///
/// IEEE Std 802.1Q-2018, 8.6.9.2.
pub fn shares_windows(schedule: &Schedule, class: u8, other: u8) -> bool
    requires class { class < CLASSES }
    requires other { other < CLASSES }
    ensures { IsTrue result ↔ Share schedule.now class other }
{
    let _entries = schedule.len();
    let first = Position::first(schedule, 0, &mut Visits::zero());
    share(schedule, &first, class, other)
}

/// The higher classes that share windows with a class, from the lowest up.
pub fn higher_classes<A: Allocator>(
    alloc: A,
    schedule: &Schedule,
    first: &Position,
    class: u8,
) -> Result<Vec<u8, A>, AllocError>
    requires sound { IsSchedule schedule.now }
    requires first { IsPlaced schedule.now 0 None 0 first.now }
    requires class { class < CLASSES }
    ensures { IfOk result (λ higher. AreHigher schedule.now class higher.items) }
{
    let mut higher = Vec::with_capacity(alloc, CLASSES)?;
    for other in class + 1..8u8 {
        if share(schedule, first, class, other) {
            higher.push(other)?;
        }
    }
    Ok(higher)
}

/// For how long a frame of a class that may start occupies the wire at most.
pub fn need_in(traffic: &[ClassTraffic<'_>], class: u8) -> u128
    requires all { length traffic.now ≡ 8 }
    requires class { class < CLASSES }
    ensures { result ≡ needs traffic.now class }
{
    traffic[class as usize].need
}
