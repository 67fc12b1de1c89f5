//! The jitter that a stream may have, with its deadline still met: by bisection, each step by the bounds of its class.

ghost use Rattle.std.specs.Prelude.{◌≡◌, ◌<◌, ◌≤◌, ◌+◌, ◌*◌, All, IfErr, IfOk, Some, length, slice_get, slice_set, true};
ghost use Rattle.job.specs.declared.fault.Fault.TheVariants as Faults;
ghost use Rattle.stream_bounds.specs.Case.{IsCase};
ghost use Rattle.stream_bounds.specs.Classes.{IsPeriodic};
ghost use Rattle.stream_bounds.specs.Timed.{IsTimed, has_slack, is_over, meets};
ghost use Rattle.stream_bounds.specs.Answers.{IsAskedSlack, IsSlackOf, is_met, jittered};
ghost use Rattle.stream_bounds.specs.declared.slack.TheConstants.{GREATEST};
ghost use Rattle.traffic.specs.declared.table.Stream.{Stream};
ghost use Rattle.wire_time.specs.Moment.{greatest_moment};

use crate::case::Case;
use crate::class_answer::own_answer;
use crate::faults::BoundsFault;
use crate::shares::delay_at;
use crate::stream_lines::needs_of;
use crate::verdicts::{Met, Needs, met_by};
use std::alloc::Global;
use traffic::Stream;

/// The greatest jitter, in nanoseconds.
const GREATEST: u64 = 9_223_372_036_854_775_807;

/// A stream of a class with a deadline.
#[derive(Clone, Copy)]
struct Timed<'a> {
    case: &'a Case<'a>,
    streams: &'a [Stream],
    place: usize,
    stream: Stream,
    deadline: u128,
}

/// The stream at a place.
pub fn stream_at(streams: &[Stream], place: usize) -> Stream
    requires { place < length streams.now }
    ensures { slice_get streams.now place ≡ Some result }
{
    streams[place]
}

/// The streams of a class, of which the one at this place is another one.
fn with_stream(
    alloc: Global,
    streams: &[Stream],
    place: usize,
    stream: Stream,
) -> Result<Vec<Stream, Global>, BoundsFault>
    requires place { place < length streams.now }
    requires periodic { All IsPeriodic streams.now }
    requires stream { IsPeriodic stream }
    ensures streams { IfOk result (λ other. other.items ≡ slice_set streams.now place stream) }
    ensures periodic { IfOk result (λ other. All IsPeriodic other.items) }
    ensures memory { IfErr result (λ fault. fault ≡ Faults.Memory) }
{
    let Ok(mut other) = streams.to_vec(alloc) else {
        return Err(BoundsFault::Memory);
    };
    other[place] = stream;
    Ok(other)
}

/// The stream with another jitter, in picoseconds.
fn jittered(stream: Stream, jitter: u128) -> Stream
    requires stream { IsPeriodic stream }
    requires jitter { jitter ≤ greatest_moment }
    ensures stream { result ≡ jittered stream jitter }
    ensures periodic { IsPeriodic result }
{
    Stream { jitter, ..stream }
}

/// Whether it is so that a deadline is met.
fn is_met(met: Met) -> bool
    ensures { result ≡ is_met met }
{
    match met {
        Met::Met => true,
        Met::Missed | Met::Unknown => false,
    }
}

/// Whether a stream would make its deadline with this jitter, in picoseconds.
fn is_met_with(alloc: Global, timed: &Timed<'_>, jitter: u128) -> Result<bool, BoundsFault>
    requires timed { IsTimed timed.now }
    requires jitter { jitter ≤ greatest_moment }
    ensures met { IfOk result (meets timed.now jitter) }
    ensures memory { IfErr result (λ fault. fault ≡ Faults.Memory) }
{
    let case = timed.case;
    let stream = jittered(timed.stream, jitter);
    let other = with_stream(alloc, timed.streams, timed.place, stream)?;
    let answer = own_answer(alloc, case, other.as_slice())?;
    let delay = delay_at(
        case.settings,
        case.change,
        &timed.stream,
        case.class,
        &answer,
        timed.place,
    );
    let needs = needs_of(case.settings.port.rate(), &timed.stream);
    Ok(is_met(met_by(needs, delay, timed.deadline)))
}

/// A jitter, in nanoseconds, with which a stream misses this deadline, as far as can be told without a look at its
/// class: with it alone a frame is later than that, or so many frames come at once that they take longer.
fn first_guess(stream: &Stream, needs: Needs, deadline: u128) -> u64
    ensures above { 0 < result }
    ensures within { result ≤ GREATEST }
{
    let frames = deadline.checked_div(needs.longest).unwrap_or(0);
    let most = match stream.offset {
        Some(_) => deadline,
        None => stream.period.saturating_mul(frames.saturating_add(2)),
    };
    (most / 1000).saturating_add(1).min(u128::from(GREATEST)) as u64
}

/// The jitter, in nanoseconds, from `met` on and before `over`, with which the deadline is met, and with one nanosecond
/// more it isn't.
fn narrowed(alloc: Global, timed: &Timed<'_>, met: u64, over: u64) -> Result<u64, BoundsFault>
    requires timed { IsTimed timed.now }
    requires order { met < over }
    requires within { over ≤ GREATEST + 1 }
    requires met { meets timed.now (met * 1000) true }
    requires over { is_over timed.now (over * 1000) }
    ensures slack { IfOk result (λ found. has_slack timed.now (Some (found * 1000))) }
    ensures memory { IfErr result (λ fault. fault ≡ Faults.Memory) }
{
    let mut low = met;
    let mut high = over;
    while 1 < high - low {
        let middle = low + (high - low) / 2;
        if is_met_with(alloc, timed, u128::from(middle) * 1000)? {
            low = middle;
        } else {
            high = middle;
        }
    }
    Ok(low)
}

/// The same from no jitter on, with which the deadline is met: the guess is looked at first, since the greatest jitter
/// that there is takes long.
fn found_from(alloc: Global, timed: &Timed<'_>, guess: u64) -> Result<u64, BoundsFault>
    requires timed { IsTimed timed.now }
    requires above { 0 < guess }
    requires within { guess ≤ GREATEST }
    requires met { meets timed.now 0 true }
    ensures slack { IfOk result (λ found. has_slack timed.now (Some (found * 1000))) }
    ensures memory { IfErr result (λ fault. fault ≡ Faults.Memory) }
{
    if is_met_with(alloc, timed, u128::from(guess) * 1000)? {
        narrowed(alloc, timed, guess, GREATEST + 1)
    } else {
        narrowed(alloc, timed, 0, guess)
    }
}

/// The jitter, in picoseconds, that a stream may have with its deadline still met, if it is with none.
fn slack_of(alloc: Global, timed: &Timed<'_>) -> Result<Option<u128>, BoundsFault>
    requires timed { IsTimed timed.now }
    ensures slack { IfOk result (has_slack timed.now) }
    ensures memory { IfErr result (λ fault. fault ≡ Faults.Memory) }
{
    if !is_met_with(alloc, timed, 0)? {
        return Ok(None);
    }
    let needs = needs_of(timed.case.settings.port.rate(), &timed.stream);
    let guess = first_guess(&timed.stream, needs, timed.deadline);
    let found = found_from(alloc, timed, guess)?;
    Ok(Some(u128::from(found) * 1000))
}

/// The jitter that the stream at a place of a class may have, where it has a deadline.
fn slack_at(
    alloc: Global,
    case: &Case<'_>,
    streams: &[Stream],
    place: usize,
) -> Result<Option<u128>, BoundsFault>
    requires case { IsCase case.now }
    requires periodic { All IsPeriodic streams.now }
    requires place { place < length streams.now }
    ensures slack { IfOk result
        (λ slack. (x : Stream) → slice_get streams.now place ≡ Some x →
        IsSlackOf case.now.settings.now case.now.change.now case.now.table.now case.now.above.now
        streams.now case.now.class place x x.deadline slack) }
    ensures memory { IfErr result (λ fault. fault ≡ Faults.Memory) }
{
    let stream = stream_at(streams, place);
    let Some(deadline) = stream.deadline else {
        return Ok(None);
    };
    let timed = Timed {
        case,
        streams,
        place,
        stream,
        deadline,
    };
    slack_of(alloc, &timed)
}

/// The greatest jitter that the stream at a place of a class may have with its deadline still met, where that is asked:
/// in picoseconds, and whole nanoseconds.
pub fn asked_slack(
    alloc: Global,
    case: &Case<'_>,
    streams: &[Stream],
    place: usize,
) -> Result<Option<u128>, BoundsFault>
    requires case { IsCase case.now }
    requires periodic { All IsPeriodic streams.now }
    requires place { place < length streams.now }
    ensures slack { IfOk result
        (λ slack. (x : Stream) → slice_get streams.now place ≡ Some x →
        IsAskedSlack case.now.settings.now.slack case.now.settings.now case.now.change.now
        case.now.table.now case.now.above.now streams.now case.now.class place x slack) }
    ensures memory { IfErr result (λ fault. fault ≡ Faults.Memory) }
{
    if case.settings.slack {
        slack_at(alloc, case, streams, place)
    } else {
        Ok(None)
    }
}
