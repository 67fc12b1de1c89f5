//! The greatest time of each flow from a frame's earliest moment to its start.

ghost use Rattle.std.specs.Prelude.{◌≡◌, ℕ, ◌<◌, ◌≤◌, ◌+◌, ◌-◌, ◌==◌, ◌^◌, All, IfOk, if◌then◌else◌, length, max, replicate, slice_index};
ghost use Rattle.window_bounds.specs.Beats.{IsBeat, all_before, beat_at};
ghost use Rattle.window_bounds.specs.Flows.{IsFlow};
ghost use Rattle.window_bounds.specs.Notes.{longer, noted_at};

use crate::JitteredFlow;
use crate::beats::Beat;
use std::alloc::{AllocError, Allocator};

/// No frame of so many flows has been seen.
pub fn none_seen<A: Allocator>(alloc: &A, flows: usize) -> Result<Vec<u128, A>, AllocError>
where
    A: Clone,
    ensures { IfOk result (λ waits. waits.items ≡ replicate flows 0) }
{
    let mut waits = Vec::with_capacity(alloc.clone()?, flows)?;
    for _i in 0..flows {
        waits.push(0)?;
    }
    Ok(waits)
}

/// How many flows have a frame whose latest moment is `t`.
pub fn due_at(lates: &[Beat], t: u128) -> usize
    requires beats { All IsBeat lates.now }
    requires soonest { (i : ℕ) → i < length lates.now → t ≤ (beat_at lates.now i).next }
    ensures { result ≡ all_before lates.now (t + 1) }
{
    let mut due = 0;
    for i in 0..lates.len() {
        if lates[i].next == t {
            due += 1;
        }
    }
    due
}

/// The greater of a wait and that of a frame whose latest moment is `t`, and which starts then.
fn longer(wait: u128, flow: JitteredFlow, t: u128, start: u128) -> u128
    requires flow { IsFlow flow }
    requires order { t ≤ start }
    requires soon { start ≤ 2 ^ 80 }
    ensures { result ≡ longer flow t start wait }
{
    (start + flow.jitter - t).max(wait)
}

/// Notes the start of those frames whose latest moment is `t`.
pub fn note(waits: &mut [u128], lates: &[Beat], flows: &[JitteredFlow], t: u128, start: u128)
    requires flows { All IsFlow flows.now }
    requires lates { length lates.now ≡ length flows.now }
    requires waits { length waits.old ≡ length flows.now }
    requires order { t ≤ start }
    requires soon { start ≤ 2 ^ 80 }
    ensures count { length waits.new ≡ length waits.old }
    ensures each { (i : ℕ) → i < length waits.old → slice_index waits.new i
        ≡ noted_at lates.now flows.now t start i (slice_index waits.old i) }
{
    for i in 0..lates.len() {
        if lates[i].next == t {
            waits[i] = longer(waits[i], flows[i], t, start);
        }
    }
}
