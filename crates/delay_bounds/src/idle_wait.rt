//! The longest wait of a frame that comes to an idle class.

ghost use Rattle.std.specs.Prelude.{◌≡◌, ◌<◌, ◌≤◌, IsSome, None};
ghost use Rattle.wire_time.specs.Moment.{greatest_moment};
ghost use Rattle.gates.specs.Gate.{IsSchedule, in_ps};
ghost use Rattle.jumping.specs.Position.{IsPlaced};
ghost use Rattle.delay_bounds.specs.Bounds.{first_fit};
ghost use Rattle.delay_bounds.specs.LongestWait.{longest_of, longest_wait, wait_at};
ghost use Rattle.delay_bounds.specs.Walk.{may_by};

use crate::fit::fit;
use gates::gate_list::{Schedule, Visits};
use jumping::list_position::Position;
use wire_time::CLASSES;

/// How long a frame waits that comes at a moment and needs the wire for so long; 0 where no window is so long.
fn wait_at(schedule: &Schedule, first: &Position, class: u8, from: u128, length: u128) -> u128
    requires sound { IsSchedule schedule.now }
    requires first { IsPlaced schedule.now 0 None 0 first.now }
    requires class { class < CLASSES }
    requires from { from ≤ greatest_moment }
    requires within { length ≤ greatest_moment }
    ensures { result ≡ wait_at (may_by schedule.now class) (in_ps schedule.now.cycle) length from }
{
    match fit(schedule, first, class, from, length) {
        Some(at) => at - from,
        None => 0,
    }
}

/// The longest wait of frames that come just too late to be sent before an entry begins.
fn longest_by(schedule: &Schedule, first: &Position, class: u8, length: u128) -> u128
    requires sound { IsSchedule schedule.now }
    requires first { IsPlaced schedule.now 0 None 0 first.now }
    requires class { class < CLASSES }
    requires within { length ≤ greatest_moment }
    requires some { IsSome
        (first_fit (may_by schedule.now class) length 0 (in_ps schedule.now.cycle)) }
    ensures { result
        ≡ longest_of (may_by schedule.now class) (in_ps schedule.now.cycle) length
        (in_ps schedule.now.cycle) }
{
    let mut visits = Visits::zero();
    let cycle = 1000 * u128::from(schedule.cycle_ns());
    let mut start = 0;
    let mut longest = 0;
    for i in 0..schedule.len() {
        let late = (start + cycle + 1).saturating_sub(length);
        longest = u128::max(longest, wait_at(schedule, first, class, late, length));
        start += 1000 * u128::from(schedule.entry(i, &mut visits).interval);
    }
    longest
}

/// The longest time, in picoseconds, from the arrival of a frame to its start, by a schedule alone, where it comes to a
/// class in which no other frame waits or is sent, and occupies the wire for `length` picoseconds. None where no window
/// of the class is so long. The law `laws::longest` says that it is the longest over all time.
///
/// It takes time for a search of the first window at each entry.
pub fn longest_wait(schedule: &Schedule, class: u8, length: u128) -> Option<u128>
    requires class { class < CLASSES }
    requires within { length ≤ greatest_moment }
    ensures { result ≡ longest_wait schedule.now class length }
{
    let _entries = schedule.len();
    let first = Position::first(schedule, 0, &mut Visits::zero());
    match fit(schedule, &first, class, 0, length) {
        Some(_) => Some(longest_by(schedule, &first, class, length)),
        None => None,
    }
}
