//! The bounds of flows, by a walk over their frames until its state comes again.

ghost use Rattle.std.specs.Prelude.{◌+◌, ◌*◌, ◌≡◌, ◌<◌, ◌-◌, ◌⊎◌, All, Err, IfErr, IfOk, MatchResult, Ok, length};
ghost use Rattle.gates.specs.Gate.{IsSchedule};
ghost use Rattle.delay_bounds.specs.Backlog.{unended};
ghost use Rattle.delay_bounds.specs.Bounded.{unbound_by, IsMost, IsUnbound};
ghost use Rattle.delay_bounds.specs.Claim.{flow_at, IsFlow};
ghost use Rattle.delay_bounds.specs.Bounds.{AreBounds};
ghost use Rattle.delay_bounds.specs.ForEver.{Recurs};
ghost use Rattle.delay_bounds.specs.Line.{before_any};
ghost use Rattle.delay_bounds.specs.Noted.{unseen};
ghost use Rattle.delay_bounds.specs.Stuck.{before_of, first_refused, refused_of};
ghost use Rattle.delay_bounds.specs.Walked.{answer_of, frame_of};

use crate::extremes::{all_unseen, note};
use crate::line::{Line, Stop};
use crate::look::{Backlog, Look, Mark, followed, last_offset, look_back, look_from, no_backlog};
use crate::{Bound, Bounded, Flow, FlowFrame, Refused, Unbound};
use gates::gate_list::{Schedule, Visits};
use jumping::list_position::Position;
use std::alloc::Allocator;
use wire_time::{CLASSES, MAX_MOMENT};

/// What a walk has seen when its state has come again.
#[derive(Clone, Copy)]
struct Seen {
    /// The greatest number of frames that wait at once.
    most: usize,
    /// So many frames ago it was the same.
    frames: u64,
    /// So many picoseconds ago it was the same.
    every: u128,
}

// The flow at a place.
fn flow_at(flows: &[Flow], place: usize) -> Flow
    requires { place < length flows.now }
    ensures flow { result ≡ flow_at flows.now place }
    ensures times { All IsFlow flows.now → IsFlow result }
{
    flows[place]
}

// How many frames of a flow come before the one that comes at `t`.
fn before_of(flow: Flow, t: u128) -> u128
    requires { 0 < flow.period }
    ensures { result ≡ before_of flow t }
{
    t.saturating_sub(flow.offset) / flow.period
}

// The frame of the flow at a place that comes at `t`, behind so many of all flows.
fn frame_at(flows: &[Flow], place: usize, t: u128, earlier: u64) -> FlowFrame
    requires within { place < length flows.now }
    requires flows { All IsFlow flows.now }
    ensures { result ≡ frame_of flows.now (t, place) earlier }
{
    FlowFrame {
        place,
        before: before_of(flow_at(flows, place), t),
        earlier,
        moment: t,
    }
}

// The frame of the flow at a place that comes at `t`, and finds no room.
fn refused_at(flows: &[Flow], place: usize, t: u128) -> Refused
    requires within { place < length flows.now }
    requires flows { All IsFlow flows.now }
    ensures { result ≡ refused_of flows.now (t, place) }
{
    Refused {
        place,
        before: before_of(flow_at(flows, place), t),
        moment: t,
    }
}

// The first frame that finds no room, where no frame starts any more; none: it comes after the greatest moment.
fn first_refused<A: Allocator>(line: &mut Line<A>, flows: &[Flow]) -> Option<Refused>
    requires some { 0 < length flows.now }
    requires flows { All IsFlow flows.now }
    requires places { length line.old.track.nexts ≡ length flows.now }
    ensures { result ≡ first_refused line.old.room flows.now line.old.track }
{
    let mut left = line.room();
    'frames: loop {
        let (t, place) = line.next();
        if line.is_full() {
            return Some(refused_at(flows, place, t));
        }
        if t > MAX_MOMENT || left == 0 {
            return None;
        }
        line.stay(flow_at(flows, place), t, place);
        left -= 1;
    }
}

// Why flows have no bounds, where a walk stops at a frame.
fn unbound<A: Allocator>(
    stop: Stop,
    frame: FlowFrame,
    line: &mut Line<A>,
    flows: &[Flow],
) -> Unbound
    requires some { 0 < length flows.now }
    requires flows { All IsFlow flows.now }
    requires places { length line.old.track.nexts ≡ length flows.now }
    ensures { result
        ≡ unbound_by stop frame (first_refused line.old.room flows.now line.old.track) }
{
    match stop {
        Stop::Full => Unbound::Full(frame),
        Stop::Never => Unbound::Never(frame, first_refused(line, flows)),
        Stop::Late => Unbound::Late,
    }
}

// Why flows have no bounds, where so many frames were walked as may be.
fn unended(backlog: Backlog) -> Unbound
    ensures { result ≡ unended backlog }
{
    if backlog.grows {
        Unbound::Overloaded
    } else {
        Unbound::Long
    }
}

// Walks until the state comes again, at most so many frames.
fn walk<A: Allocator>(
    schedule: &Schedule,
    class: u8,
    flows: &[Flow],
    limit: u64,
    line: &mut Line<A>,
    base: &mut Line<A>,
    bounds: &mut [Bound],
) -> Result<Seen, Unbound>
    requires sound { IsSchedule schedule.now }
    requires class { class < CLASSES }
    requires some { 0 < length flows.now }
    requires flows { All IsFlow flows.now }
    requires line { line.old ≡ before_any flows.now line.old.room }
    requires base { base.old ≡ before_any flows.now line.old.room }
    requires bounds { (length bounds.old ≡ length flows.now) × All (λ b. b ≡ unseen) bounds.old }
    ensures count { IfOk result (λ seen. length bounds.new ≡ length flows.now) }
    ensures answer { MatchResult result
        (λ seen. answer_of schedule.now class line.old.room flows.now limit
        ≡ Ok (record {
          bounds = bounds.new;
          most = seen.most;
          frames = seen.frames;
          every = seen.every;
        }))
        (λ why. answer_of schedule.now class line.old.room flows.now limit ≡ Err why) }
{
    let position = Position::first(schedule, 0, &mut Visits::zero());
    let cycle = 1000 * u128::from(schedule.cycle_ns());
    let last = last_offset(flows);
    let (since, _) = base.next();
    let mut mark = Mark { since, earlier: 0 };
    let mut backlog = no_backlog();
    let mut most = 0;
    let mut frames = 0;
    while frames < limit {
        let (t, place) = line.next();
        let look = look_back(line, base, mark.since, t, cycle, last);
        if let Look::Again = look {
            return Ok(Seen {
                most,
                frames: frames - mark.earlier,
                every: t - mark.since,
            });
        }
        backlog = followed(backlog, look, line.taken(t), cycle);
        let here = Mark {
            since: t,
            earlier: frames,
        };
        mark = look_from(look, line, here, base, mark);
        let flow = flow_at(flows, place);
        let told = match line.start(schedule, &position, class, flow, t, place) {
            Ok(told) => told,
            Err(stop) => {
                let frame = frame_at(flows, place, t, frames);
                return Err(unbound(stop, frame, line, flows));
            }
        };
        note(bounds, told);
        most = told.waiting.max(most);
        frames += 1;
    }
    Err(unended(backlog))
}

/// The bounds of the flows of a class that a schedule keeps apart, for ever: the least and the greatest time from the
/// arrival of each flow's frames to their starts, the greatest number of frames that ever wait at once, and how many
/// frames come in how long; or why there are none. `room` is that of the queue, in frames.
///
/// The frames are walked one after another by the schedule alone, at most `limit` of them, until all stands as it did
/// some cycles before: from there on it goes on so for ever. That takes time for as many frames as come in one
/// hyperperiod, mostly, and memory for each flow and each place of the queue alone.
///
/// # Errors
/// `Full` and `Never` tell of the first frame that finds no room, or that never starts, and then of the first that finds no room.
/// `Overloaded`: within `limit` frames none found no room, but the backlog was seen to grow by a cycle, and does so again and again.
/// `Long`: after `limit` frames it does not yet stand as it did, and no such growth was seen. `Late`: a frame can't start before `MAX_MOMENT`. `Memory`: out of memory.
///
/// IEEE Std 802.1Q-2018, 8.6.8.4 and 8.6.9. `laws::answers` says what the answer is worth in every run.
pub fn bound_flows<A: Allocator>(
    alloc: &A,
    schedule: &Schedule,
    class: u8,
    room: u32,
    flows: &[Flow],
    limit: u64,
) -> Result<Bounded<A>, Unbound>
where
    A: Clone,
    requires sound { IsSchedule schedule.now }
    requires class { class < CLASSES }
    requires some { 0 < length flows.now }
    requires flows { All IsFlow flows.now }
    ensures count { IfOk result (λ b. length b.bounds.items ≡ length flows.now) }
    ensures bounds { IfOk result (λ b. AreBounds schedule.now class room flows.now b.bounds.items) }
    ensures most { IfOk result (λ b. IsMost schedule.now class room flows.now b.most) }
    ensures recurs { IfOk result (λ b. Recurs schedule.now class room flows.now b.frames b.every) }
    ensures unbound { IfErr result (IsUnbound schedule.now class room flows.now limit) }
    ensures answer { MatchResult result
        (λ b. answer_of schedule.now class room flows.now limit
        ≡ Ok (record {
          bounds = b.bounds.items;
          most = b.most;
          frames = b.frames;
          every = b.every;
        }))
        (λ why. (why ≡ Unbound.Memory)
        ⊎ (answer_of schedule.now class room flows.now limit ≡ Err why)) }
{
    let Ok(mut line) = Line::new(alloc, flows, room as usize) else {
        return Err(Unbound::Memory);
    };
    let Ok(mut base) = Line::new(alloc, flows, room as usize) else {
        return Err(Unbound::Memory);
    };
    let Ok(mut bounds) = all_unseen(alloc, flows.len()) else {
        return Err(Unbound::Memory);
    };
    let seen = match walk(
        schedule,
        class,
        flows,
        limit,
        &mut line,
        &mut base,
        bounds.as_mut_slice(),
    ) {
        Ok(seen) => seen,
        Err(why) => return Err(why),
    };
    Ok(Bounded {
        bounds,
        most: seen.most,
        frames: seen.frames,
        every: seen.every,
    })
}
