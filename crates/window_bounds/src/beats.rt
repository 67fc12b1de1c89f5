//! When the frames of flows come: of each flow the next moment, and from one to the next a period.

ghost use Rattle.std.specs.Prelude.{◌≡◌, ℕ, ◌<◌, ◌≤◌, ◌+◌, ◌^◌, All, IfOk, length, map};
ghost use Rattle.window_bounds.specs.Beats.{IsBeat, all_before, all_from, beat_at, capped, come_of, early_beat, from_on, late_beat};
ghost use Rattle.window_bounds.specs.Flows.{IsFlow};

use crate::JitteredFlow;
use std::alloc::{AllocError, Allocator};

/// The next moment of a flow, and the time from one to the next.
#[derive(Clone, Copy)]
pub struct Beat {
    pub next: u128,
    pub period: u128,
}

/// When the frames of a flow come at the earliest.
fn early_beat(flow: JitteredFlow) -> Beat
    ensures { result ≡ early_beat flow }
{
    Beat {
        next: flow.offset,
        period: flow.period,
    }
}

/// When the frames of a flow come at the latest.
fn late_beat(flow: JitteredFlow) -> Beat
    requires { IsFlow flow }
    ensures { result ≡ late_beat flow }
{
    Beat {
        next: flow.offset + flow.jitter,
        period: flow.period,
    }
}

/// When the frames of each flow come at the earliest.
pub fn early_beats<A: Allocator>(
    alloc: &A,
    flows: &[JitteredFlow],
) -> Result<Vec<Beat, A>, AllocError>
where
    A: Clone,
    ensures { IfOk result (λ beats. beats.items ≡ map early_beat flows.now) }
{
    let mut beats = Vec::with_capacity(alloc.clone()?, flows.len())?;
    for flow in flows {
        beats.push(early_beat(*flow))?;
    }
    Ok(beats)
}

/// When the frames of each flow come at the latest.
pub fn late_beats<A: Allocator>(
    alloc: &A,
    flows: &[JitteredFlow],
) -> Result<Vec<Beat, A>, AllocError>
where
    A: Clone,
    requires flows { All IsFlow flows.now }
    ensures { IfOk result (λ beats. beats.items ≡ map late_beat flows.now) }
{
    let mut beats = Vec::with_capacity(alloc.clone()?, flows.len())?;
    for flow in flows {
        beats.push(late_beat(*flow))?;
    }
    Ok(beats)
}

/// The soonest of the next moments.
pub fn soonest(beats: &[Beat]) -> u128
    requires some { 0 < length beats.now }
    ensures one { (i : ℕ) × (i < length beats.now) × (result ≡ (beat_at beats.now i).next) }
    ensures least { (i : ℕ) → i < length beats.now → result ≤ (beat_at beats.now i).next }
{
    let mut first = beats[0].next;
    for i in 1..beats.len() {
        first = beats[i].next.min(first);
    }
    first
}

/// How many moments of a flow are not behind `t`, from the next one on.
fn passes(beat: Beat, t: u128) -> u128
    requires beat { IsBeat beat }
    requires soon { t ≤ 2 ^ 80 }
    ensures { result ≡ come_of (t + 1) beat }
{
    if t < beat.next {
        return 0;
    }
    (t - beat.next) / beat.period + 1
}

/// Behind those moments that are not behind `t`.
fn passed(beat: Beat, t: u128) -> Beat
    requires beat { IsBeat beat }
    requires soon { t ≤ 2 ^ 80 }
    ensures beat { result ≡ from_on (t + 1) beat }
    ensures is { IsBeat result }
{
    if t < beat.next {
        return beat;
    }
    Beat {
        next: t + (beat.period - (t - beat.next) % beat.period),
        period: beat.period,
    }
}

/// Goes past all moments that are not behind `t`, and answers how many they are; at most the greatest number.
pub fn pass(beats: &mut [Beat], t: u128) -> u128
    requires beats { All IsBeat beats.old }
    requires soon { t ≤ 2 ^ 80 }
    ensures beats { beats.new ≡ all_from (t + 1) beats.old }
    ensures fine { All IsBeat beats.new }
    ensures count { result ≡ capped (all_before beats.old (t + 1)) }
{
    let mut count: u128 = 0;
    for i in 0..beats.len() {
        let beat = beats[i];
        count = count.saturating_add(passes(beat, t));
        beats[i] = passed(beat, t);
    }
    count
}
