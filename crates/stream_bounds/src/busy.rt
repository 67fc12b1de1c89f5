//! Which classes have no time for one frame more. No contract says so: it is a hint for who watches.

ghost use Rattle.std.specs.Prelude.{◌<◌, ◌≤◌, All, IfSome, length};
ghost use Rattle.delay_bounds.specs.Claim.{IsFlow};
ghost use Rattle.stream_bounds.specs.Classes.{IsPeriodic};
ghost use Rattle.wire_time.specs.Moment.{greatest_moment};

use crate::answers::Answers;
use crate::classes::{flows_of, streams_of};
use crate::settings::BoundsSettings;
use crate::verdicts::Verdict;
use abstract_port::Change;
use abstract_port::class_queue::MAX_ROOM;
use delay_bounds::{Flow, Unbound, bound_flows};
use gates::gate_list::Schedule;
use script::Watch;
use std::alloc::Global;
use traffic::Stream;
use wire_time::{CLASSES, MAX_MOMENT};

/// The flow whose frames occupy the wire for the least time, the first of equal ones.
fn shortest(flows: &[Flow]) -> Option<Flow>
    requires { All IsFlow flows.now }
    ensures { IfSome result IsFlow }
{
    let mut least: Option<Flow> = None;
    for flow in flows {
        least = shorter(least, *flow);
    }
    least
}

/// The flow of both whose frames occupy the wire for the least time.
fn shorter(least: Option<Flow>, flow: Flow) -> Option<Flow>
    requires least { IfSome least IsFlow }
    requires flow { IsFlow flow }
    ensures { IfSome result IsFlow }
{
    match least {
        Some(other) if other.need <= flow.need => Some(other),
        _ => Some(flow),
    }
}

/// One frame of a flow in each `every` picoseconds, from the change moment on.
fn repeated(flow: Flow, every: u128) -> Flow
    requires flow { IsFlow flow }
    requires above { 0 < every }
    requires within { every ≤ greatest_moment }
    ensures { IsFlow result }
{
    Flow {
        period: every,
        offset: 0,
        ..flow
    }
}

/// The flows of a class, and one of its shortest frames more in each `every` picoseconds. None: there are no flows, or
/// memory is out.
fn with_one_more(
    alloc: Global,
    settings: &BoundsSettings,
    change: &Change,
    streams: &[Stream],
    class: u8,
    every: u128,
) -> Option<Vec<Flow, Global>>
    requires periodic { All IsPeriodic streams.now }
    requires above { 0 < every }
    requires within { every ≤ greatest_moment }
    ensures { IfSome result (λ flows. (All IsFlow flows.items) × (0 < length flows.items)) }
{
    let own = streams_of(alloc, settings, change, streams, class).ok()?;
    let mut flows = flows_of(alloc, settings.port.rate(), own.as_slice()).ok()?;
    let shortest = shortest(flows.as_slice())?;
    flows.push(repeated(shortest, every)).ok()?;
    Some(flows)
}

/// Whether one of its shortest frames more in each `every` picoseconds overloads a class: its queue is full at last even
/// if it holds as many frames as any can. No where that isn't known.
fn is_busy(
    alloc: Global,
    settings: &BoundsSettings,
    change: &Change,
    schedule: &Schedule,
    streams: &[Stream],
    class: u8,
    every: u128,
) -> bool
    requires class { class < CLASSES }
    requires periodic { All IsPeriodic streams.now }
{
    if every == 0 || every > MAX_MOMENT {
        return false;
    }
    let Some(flows) = with_one_more(alloc, settings, change, streams, class, every) else {
        return false;
    };
    let _entries = schedule.len();
    match bound_flows(
        &alloc,
        schedule,
        class,
        MAX_ROOM,
        flows.as_slice(),
        settings.frames,
    ) {
        Err(Unbound::Overloaded | Unbound::Full(_)) => true,
        Ok(_) | Err(_) => false,
    }
}

/// Tells who watches of each class with bounds that one of its shortest frames more in each cycle of its frames
/// overloads: after one that is added, once, those behind it can be late for ever. The schedule is that of the line of
/// this number.
pub(crate) fn tell_busy<H: Watch>(
    alloc: Global,
    settings: &BoundsSettings,
    change: &Change,
    schedule: &Schedule,
    streams: &[Stream],
    answers: &Answers,
    number: u32,
    watch: &mut H,
)
    requires periodic { All IsPeriodic streams.now }
{
    for class in 0..CLASSES as u8 {
        let Verdict::Bounded { most, every, .. } = answers.verdict(class) else {
            continue;
        };
        // (where it is nearly full anyway, one frame more can be too many for once)
        let far_from_full = most <= MAX_ROOM as usize / 2;
        if far_from_full && is_busy(alloc, settings, change, schedule, streams, class, every) {
            watch.class_is_busy(number, class, every);
        }
    }
}
