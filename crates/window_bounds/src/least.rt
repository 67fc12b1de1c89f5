//! The least time of each flow from a frame's earliest moment to its start.

ghost use Rattle.std.specs.Prelude.{◌≡◌, ℕ, ◌<◌, ◌≤◌, All, None, Ok, IfOk, IfSome, MatchOption, length, slice_index};
ghost use Rattle.wire_time.specs.Moment.{greatest_moment};
ghost use Rattle.gates.specs.Gate.{IsSchedule, in_ps};
ghost use Rattle.jumping.specs.Position.{IsPlaced};
ghost use Rattle.delay_bounds.specs.Walk.{may_by};
ghost use Rattle.burst_bounds.specs.Reach.{IsCommonTime};
ghost use Rattle.burst_bounds.specs.Unbound.{IsStuck};
ghost use Rattle.window_bounds.specs.Flows.{IsFlow, periodic_of, talkers_of};
ghost use Rattle.window_bounds.specs.Least.{IsLeastWait, IsRepeat};
ghost use Rattle.window_bounds.specs.Notes.{bound_at, jittered_at};

use crate::JitteredFlow;
use delay_bounds::Bound;
use delay_bounds::fit::fit;
use gates::gate_list::Schedule;
use jumping::list_position::Position;
use std::alloc::{AllocError, Allocator};
use wire_time::CLASSES;

/// The least time from the earliest moment of a flow's frame to the first one from which its class stays open for the
/// shortest; none where no window takes that.
fn least_wait(
    schedule: &Schedule,
    first: &Position,
    class: u8,
    flow: JitteredFlow,
    every: u128,
) -> Option<u128>
    requires sound { IsSchedule schedule.now }
    requires first { IsPlaced schedule.now 0 None 0 first.now }
    requires class { class < CLASSES }
    requires flow { IsFlow flow }
    requires every { IsRepeat (in_ps schedule.now.cycle) flow.period every }
    ensures { MatchOption result (IsStuck schedule.now class flow.shortest)
        (IsLeastWait (may_by schedule.now class) (periodic_of flow)) }
{
    let cycle = 1000 * u128::from(schedule.cycle_ns());
    let begin = flow.offset % cycle;
    let step = flow.period % cycle;
    let Some(at) = fit(schedule, first, class, begin, flow.shortest) else {
        return None;
    };
    let mut least = at - begin;
    let mut from = begin;
    for _n in 1..every / flow.period {
        from = (from + step) % cycle;
        if from == begin {
            return Some(least);
        }
        let Some(next) = fit(schedule, first, class, from, flow.shortest) else {
            return None;
        };
        least = (next - from).min(least);
    }
    Some(least)
}

/// The bounds of each flow: the least, and those that are the greatest.
pub fn with_least<A: Allocator>(
    alloc: &A,
    schedule: &Schedule,
    first: &Position,
    class: u8,
    flows: &[JitteredFlow],
    waits: &[u128],
    every: u128,
) -> Result<Option<Vec<Bound, A>>, AllocError>
where
    A: Clone,
    requires sound { IsSchedule schedule.now }
    requires first { IsPlaced schedule.now 0 None 0 first.now }
    requires class { class < CLASSES }
    requires flows { All IsFlow flows.now }
    requires waits { length waits.now ≡ length flows.now }
    requires every { IsCommonTime (talkers_of flows.now) (in_ps schedule.now.cycle) every }
    ensures count { IfOk result (λ found. IfSome found (λ bounds.
        length bounds.items ≡ length flows.now)) }
    ensures greatest { IfOk result
        (λ found. IfSome found (λ bounds.
        (i : ℕ) → i < length flows.now →
        (bound_at bounds.items i).greatest ≡ slice_index waits.now i)) }
    ensures least { IfOk result (λ found. IfSome found (λ bounds. (i : ℕ) → i < length flows.now
        → IsLeastWait (may_by schedule.now class) (periodic_of (jittered_at flows.now i))
        (bound_at bounds.items i).least)) }
    ensures stuck { result ≡ Ok None → (i : ℕ) × (i < length flows.now)
        × IsStuck schedule.now class (jittered_at flows.now i).shortest }
{
    let mut bounds = Vec::with_capacity(alloc.clone()?, flows.len())?;
    for i in 0..flows.len() {
        let Some(least) = least_wait(schedule, first, class, flows[i], every) else {
            return Ok(None);
        };
        bounds.push(Bound {
            least,
            greatest: waits[i],
        })?;
    }
    Ok(Some(bounds))
}
