//! What is known of the hops behind a class that is judged.

ghost use Rattle.std.specs.Prelude.{◌≡◌, ◌<◌, ◌≤◌, ◌+◌, ◌^◌, ◌∷◌, ℕ, List, All, IfOk, IfErr, slice_get};
ghost use Rattle.job.specs.declared.fault.Fault.TheVariants as Faults;
ghost use Rattle.path_bounds.specs.Hops.{IsHeard, IsHop, ahead_of, arrived, coming_at, coming_behind, coming_by, first_moment, last_moment, leaving_of, passed_at, passed_on, span_behind};
ghost use Rattle.path_bounds.specs.declared.hop.Hop.{Hop};
ghost use Rattle.path_bounds.specs.declared.pass.Leaving.{Leaving};
ghost use Rattle.path_bounds.specs.declared.pass.Leaving.TheVariants as Leavings;
ghost use Rattle.stream_bounds.specs.Classes.{IsPeriodic};

use crate::hop::{Coming, Hop, PathPort, Span, coming_of, gap_of, greatest_of};
use crate::tables::{is_awaited, is_own};
use delay_bounds::Bound;
use std::alloc::Global;
use stream_bounds::{BoundsFault, ClassAnswer, needs_of, plus};
use traffic::Stream;

/// What leaves a port, for the next one on the way of a stream.
#[derive(Clone, Copy, Debug, PartialEq, Eq)]
pub enum Leaving {
    /// That is not known here: the hop before isn't one of the class that is judged.
    Other,
    /// Frames without bounds.
    Unbounded,
    /// Frames that come within this span, and wait for so long.
    Bounded(Span, Bound),
}

/// What is judged behind a port, for the hops on.
#[derive(Clone, Copy)]
pub struct Passing<'a> {
    /// All ports.
    pub ports: &'a [PathPort],
    /// The port that is judged.
    pub from: &'a PathPort,
    /// By how much the clocks of two ports differ at most, in picoseconds.
    pub clocks: u128,
    /// The number of the port.
    pub port: u32,
    /// The class.
    pub class: u8,
}

/// What has to be taken off a moment by the clock of one port, for the next one to have it by its own, in picoseconds.
fn ahead_of(from: &PathPort) -> u128
    ensures { result ≡ ahead_of from.now }
{
    plus(gap_of(from.settings.port.rate()), from.since)
}

/// The first moment of frames at the next port, with what has to be taken off it.
fn first_moment(
    from: &PathPort,
    to: &PathPort,
    stream: &Stream,
    span: Span,
    bound: Bound,
    least: u128,
) -> u128
    ensures { result ≡ first_moment from.now to.now stream.now span bound least }
{
    let needs = needs_of(from.settings.port.rate(), stream);
    let starts = plus(span.earliest, bound.least);
    plus(plus(plus(starts, needs.shortest), least), to.since)
}

/// The last moment, with what has to be taken off it.
fn last_moment(
    from: &PathPort,
    to: &PathPort,
    clocks: u128,
    stream: &Stream,
    span: Span,
    bound: Bound,
    greatest: u128,
) -> u128
    ensures { result ≡ last_moment from.now to.now clocks stream.now span bound greatest }
{
    let needs = needs_of(from.settings.port.rate(), stream);
    let starts = plus(span.earliest, greatest_of(stream, span, bound));
    plus(
        plus(plus(plus(starts, needs.longest), greatest), to.since),
        clocks,
    )
}

/// The span of frames at the next port, where it doesn't begin before the schedule there was in force.
fn span_behind(
    from: &PathPort,
    to: &PathPort,
    clocks: u128,
    hop: &Hop,
    span: Span,
    bound: Bound,
) -> Option<Span>
    ensures { result ≡ span_behind from.now to.now clocks hop.now.stream span bound
        hop.now.least hop.now.greatest }
{
    let ahead = ahead_of(from);
    let first = first_moment(from, to, &hop.stream, span, bound, hop.least);
    let last = last_moment(from, to, clocks, &hop.stream, span, bound, hop.greatest);
    let sooner = plus(ahead, clocks);
    if first < sooner {
        return None;
    }
    Some(Span {
        earliest: first - sooner,
        latest: last.saturating_sub(ahead),
    })
}

/// When frames come, by a span.
fn coming_by(stream: &Stream, span: Option<Span>) -> Coming
    requires { IsPeriodic stream.now }
    ensures coming { result ≡ coming_by stream.now span }
    ensures heard { IsHeard stream.now result }
{
    match span {
        Some(span) => coming_of(stream, span),
        None => Coming::Unknown,
    }
}

/// When frames come to a port, by what leaves the one before.
fn coming_behind(
    from: &PathPort,
    to: &PathPort,
    clocks: u128,
    leaving: Leaving,
    hop: &Hop,
) -> Coming
    requires { IsHop hop.now }
    ensures coming { result ≡ coming_behind from.now to.now clocks leaving hop.now }
    ensures heard { IsHeard hop.now.stream result }
{
    match leaving {
        Leaving::Other => hop.coming,
        Leaving::Unbounded => Coming::Unknown,
        Leaving::Bounded(span, bound) => coming_by(
            &hop.stream,
            span_behind(from, to, clocks, hop, span, bound),
        ),
    }
}

/// When the frames of a hop come, by what leaves the port before.
fn coming_at(passing: Passing<'_>, leaving: Leaving, hop: &Hop) -> Coming
    requires { IsHop hop.now }
    ensures coming { result ≡ coming_at passing.entry.from.now
        (slice_get passing.entry.ports.now hop.now.port) passing.entry.clocks leaving hop.now }
    ensures heard { IsHeard hop.now.stream result }
{
    match passing.ports.get(hop.port as usize) {
        Some(to) => coming_behind(passing.from, to, passing.clocks, leaving, hop),
        None => Coming::Unknown,
    }
}

/// A hop, behind one that so much leaves.
fn arrived(passing: Passing<'_>, leaving: Leaving, hop: &Hop) -> Hop
    requires { IsHop hop.now }
    ensures hop { result ≡ arrived passing.entry.ports.now passing.entry.from.now
        passing.entry.clocks leaving hop.now }
    ensures is { IsHop result }
{
    if is_awaited(hop.coming) {
        Hop {
            coming: coming_at(passing, leaving, hop),
            ..*hop
        }
    } else {
        *hop
    }
}

/// What leaves a port where frames come so, and have these bounds there.
fn leaving_of(coming: Coming, bound: Option<Bound>) -> Leaving
    ensures { result ≡ leaving_of coming bound }
{
    match (coming, bound) {
        (Coming::Within(span), Some(bound)) => Leaving::Bounded(span, bound),
        _ => Leaving::Unbounded,
    }
}

/// A hop that is passed, how many of the class's bounds have been given then, and what leaves it for the next.
#[derive(Clone, Copy)]
struct Passed {
    hop: Hop,
    place: usize,
    leaving: Leaving,
}

/// A hop behind one that so much leaves, where so many of the class's bounds have been given.
fn pass_one(
    passing: Passing<'_>,
    answer: &ClassAnswer,
    place: usize,
    leaving: Leaving,
    hop: &Hop,
) -> Passed
    requires hop { IsHop hop.now }
    requires few { place + 1 < 2 ^ 64 }
    ensures passed { (behind : ℕ → Leaving → List Hop) →
        passed_at passing.entry.ports.now passing.entry.from.now passing.entry.clocks
        passing.entry.port passing.entry.class answer.now.left place leaving hop.now behind
        ≡ result.hop ∷ behind result.place result.leaving }
    ensures is { IsHop result.hop }
    ensures few { result.place ≤ place + 1 }
{
    let hop = arrived(passing, leaving, hop);
    if !is_own(&hop, passing.port, passing.class) {
        return Passed {
            hop,
            place,
            leaving: Leaving::Other,
        };
    }
    let bound = answer.bound(place);
    Passed {
        hop: Hop { bound, ..hop },
        place: place + 1,
        leaving: leaving_of(hop.coming, bound),
    }
}

/// The hops, once a class is judged with these bounds.
pub fn passed_on(
    alloc: Global,
    passing: Passing<'_>,
    answer: &ClassAnswer,
    hops: &[Hop],
) -> Result<Vec<Hop, Global>, BoundsFault>
    requires hops { All IsHop hops.now }
    ensures hops { IfOk result (λ passed. passed.items ≡
        passed_on passing.entry.ports.now passing.entry.from.now passing.entry.clocks
        passing.entry.port passing.entry.class answer.now.left 0 Leavings.Other hops.now) }
    ensures all { IfOk result (λ passed. All IsHop passed.items) }
    ensures memory { IfErr result (λ fault. fault ≡ Faults.Memory) }
{
    let mut passed = Vec::new(alloc);
    let mut place: usize = 0;
    let mut leaving = Leaving::Other;
    let _count = hops.len();
    for hop in hops {
        let one = pass_one(passing, answer, place, leaving, hop);
        place = one.place;
        leaving = one.leaving;
        match passed.push(one.hop) {
            Ok(()) => {}
            Err(_) => return Err(BoundsFault::Memory),
        }
    }
    Ok(passed)
}
