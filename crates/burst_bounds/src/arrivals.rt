//! When the frames of talkers come at the earliest, counted from the first of them on.

ghost use Rattle.std.specs.Prelude.{◌≡◌, ℕ, ◌<◌, ◌≤◌, ◌^◌, All, IfOk, length, replicate, slice_index};
ghost use Rattle.burst_bounds.specs.Talkers.{curve, IsTalker};
ghost use Rattle.burst_bounds.specs.Walk.{comes_at, talker_at, AreArrivals, AreBelow};

use crate::Talker;
use std::alloc::{AllocError, Allocator};

/// When a talker's frame comes at the earliest, behind so many others of it.
fn comes_at(talker: Talker, before: u128) -> u128
    requires talker { IsTalker talker }
    requires few { before < 2 ^ 40 }
    ensures moment { result ≡ comes_at talker before }
    ensures within { result < 2 ^ 120 }
{
    (before * talker.period).saturating_sub(talker.jitter)
}

/// The first of the next frames of all talkers, of which so many have come: its moment, and its talker's place.
fn next_of(talkers: &[Talker], counts: &[u128]) -> (u128, usize)
    requires some { 0 < length talkers.now }
    requires talkers { All IsTalker talkers.now }
    requires counts { length counts.now ≡ length talkers.now }
    requires few { AreBelow 40 counts.now }
    ensures within { result.1 < length talkers.now }
    ensures moment { result.0
        ≡ comes_at (talker_at talkers.now result.1) (slice_index counts.now result.1) }
    ensures first { (i : ℕ) → i < length talkers.now →
        result.0 ≤ comes_at (talker_at talkers.now i) (slice_index counts.now i) }
    ensures below { result.0 < 2 ^ 120 }
{
    let mut first = comes_at(talkers[0], counts[0]);
    let mut place = 0;
    for i in 1..talkers.len() {
        let moment = comes_at(talkers[i], counts[i]);
        if moment < first {
            first = moment;
            place = i;
        }
    }
    (first, place)
}

/// No frame has come.
fn none_come<A: Allocator>(alloc: A, talkers: usize) -> Result<Vec<u128, A>, AllocError>
    ensures { IfOk result (λ counts. counts.items ≡ replicate talkers 0) }
{
    let mut counts = Vec::with_capacity(alloc, talkers)?;
    for _i in 0..talkers {
        counts.push(0)?;
    }
    Ok(counts)
}

/// When each of the first frames comes at the earliest, so many of them.
pub fn arrivals<A: Allocator>(
    alloc: &A,
    talkers: &[Talker],
    frames: usize,
) -> Result<Vec<u128, A>, AllocError>
where
    A: Clone,
    requires some { 0 < length talkers.now }
    requires talkers { All IsTalker talkers.now }
    requires few { frames < 2 ^ 40 }
    ensures count { IfOk result (λ moments. length moments.items ≡ frames) }
    ensures moments { IfOk result (λ moments. AreArrivals (curve talkers.now) moments.items) }
    ensures below { IfOk result (λ moments. AreBelow 120 moments.items) }
{
    let mut counts = none_come(alloc.clone()?, talkers.len())?;
    let mut moments = Vec::with_capacity(alloc.clone()?, frames)?;
    for _i in 0..frames {
        let (moment, place) = next_of(talkers, &counts);
        counts[place] += 1;
        moments.push(moment)?;
    }
    Ok(moments)
}
