//! When the frames of streams come, and how long they are, within what a table leaves open.

ghost use Rattle.std.specs.Prelude.{◌≡◌, ◌≤◌, IfOk};
ghost use Rattle.traffic.specs.Words.{course_of, greatest_moment, greatest_offset, judged, offset_drawn, IsCourse, IsKept, IsSaid, IsStream};

use crate::course::Course;
use crate::draws::{draw, value};
use crate::table::{Stream, earliest, has_ids};
use script::ScriptFault;
use wire_time::MAX_MOMENT;

/// When frames come, and how long they are, within what a table leaves open.
#[derive(Clone, Copy, Debug, PartialEq, Eq)]
pub enum Timing {
    /// Each at its earliest moment, and as long as the longest; those of a stream whose offset isn't known from 0 on.
    Earliest,
    /// The same, but each at its latest moment.
    Latest,
    /// Each at a moment and of a length that are drawn, by this seed; those of a stream whose offset isn't known from a
    /// moment of its first period on.
    Drawn(u64),
}

/// What a run makes of a table of streams.
#[derive(Clone, Copy, Debug, PartialEq, Eq)]
pub struct Plan {
    /// The moment from which offsets count, in picoseconds.
    pub from: u128,
    /// When frames come.
    pub timing: Timing,
}

impl Plan {
    ghost use Rattle.traffic.specs.Plan.{timed_from};
    ghost use Rattle.traffic.specs.declared.plan.Timing.TheVariants.{Earliest};

    /// Each frame at its earliest moment, with offsets that count from this moment, in picoseconds.
    pub fn earliest(from: u128) -> Plan
        ensures { result ≡ timed_from Earliest from }
    {
        Plan {
            from,
            timing: Timing::Earliest,
        }
    }
}

/// The greatest offset that a stream may have, in picoseconds.
pub fn greatest_offset(timing: Timing, stream: &Stream) -> u128
    requires { IsSaid stream.now }
    ensures offset { result ≡ greatest_offset timing stream.now }
    ensures within { result ≤ greatest_moment }
{
    match (timing, stream.offset) {
        (_, Some(offset)) => offset,
        (Timing::Drawn(_), None) => stream.period.saturating_sub(1),
        (Timing::Earliest | Timing::Latest, None) => 0,
    }
}

/// A stream whose frames can be frames of a script, or its fault.
pub(crate) fn judged(plan: &Plan, stream: Stream) -> Result<Stream, ScriptFault>
    requires from { plan.now.from ≤ greatest_moment }
    requires said { IsSaid stream }
    ensures judged { result ≡ judged plan.now stream }
    ensures kept { IfOk result (IsKept (judged plan.now)) }
{
    if !has_ids(&stream) {
        return Err(ScriptFault::BadNumber);
    }
    let others = u128::from(stream.count.saturating_sub(1));
    let first = plan.from + greatest_offset(plan.timing, &stream);
    if first + stream.jitter + stream.period * others > MAX_MOMENT {
        return Err(ScriptFault::ClockTooLate);
    }
    Ok(stream)
}

/// The offset of a stream, in picoseconds: one that isn't known is drawn, by the stream's seed.
fn offset_drawn(seed: u64, stream: &Stream) -> u128
    requires { stream.now.period ≤ greatest_moment }
    ensures { result ≡ offset_drawn seed stream.now }
{
    match stream.offset {
        Some(offset) => offset,
        None => draw(seed, 0, stream.period.saturating_sub(1)),
    }
}

/// The frames of the stream at this place of a table, as a plan has them.
pub(crate) fn course_of(plan: &Plan, place: u64, stream: &Stream) -> Course
    requires from { plan.now.from ≤ greatest_moment }
    requires stream { IsStream plan.now stream.now }
    ensures course { result ≡ course_of plan.now place stream.now }
    ensures fits { IsCourse result }
{
    let exact = Course {
        first_id: stream.first_id,
        priority: stream.priority,
        len: stream.len,
        shortest: stream.len,
        tagged: stream.tagged,
        first: plan.from + earliest(stream),
        period: stream.period,
        jitter: 0,
        count: stream.count,
        seed: None,
    };
    match plan.timing {
        Timing::Earliest => exact,
        Timing::Latest => Course {
            first: exact.first + stream.jitter,
            ..exact
        },
        Timing::Drawn(seed) => {
            let seed = value(seed, place);
            Course {
                first: plan.from + offset_drawn(seed, stream),
                jitter: stream.jitter,
                shortest: stream.shortest,
                seed: Some(seed),
                ..exact
            }
        }
    }
}
