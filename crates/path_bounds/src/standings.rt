//! How the classes above one stand at a port, and whether it has to wait for them.

ghost use Rattle.std.specs.Prelude.{◌≡◌, ◌<◌, ◌-◌, ◌+◌, All, IfErr, IfOk, length, slice_index_or, false};
ghost use Rattle.abstract_port.specs.AbstractPort.{plan_asked};
ghost use Rattle.job.specs.declared.fault.Fault.TheVariants as Faults;
ghost use Rattle.path_bounds.specs.Answers.{AreSharing, awaits, awaits_class, is_lacking, is_waiting, pair_of, standing_at, standings_from, verdict_at, verdict_in};
ghost use Rattle.path_bounds.specs.Hops.{IsHop, IsPort};
ghost use Rattle.stream_bounds.specs.Standing.{IsCounted};
ghost use Rattle.wire_time.specs.declared.TheConstants.{CLASSES};

use crate::hop::{Hop, PathPort};
use crate::tables::{is_at, is_awaited, is_own, is_unknown, own_of};
use gates::gate_list::Schedule;
use shared_bounds::sharing::shares_windows;
use std::alloc::Global;
use stream_bounds::{BoundsFault, Standing, Verdict, standing_of};
use wire_time::CLASSES;

/// The verdict about a class of a port.
#[derive(Clone, Copy, Debug, PartialEq, Eq)]
pub enum PairVerdict {
    /// By what comes of its streams.
    Known(Verdict),
    /// It is not known when the frames of one of its streams come: a port before gives that no bounds. Or 128 bits don't
    /// hold a bound.
    Unheard,
}

/// A class of a port, and what is known beside it.
#[derive(Clone, Copy)]
pub struct Pair<'a> {
    /// The port.
    pub port: &'a PathPort,
    /// Its number.
    pub number: u32,
    /// The class.
    pub class: u8,
    /// All hops.
    pub hops: &'a [Hop],
    /// The verdicts so far, eight for each port.
    pub verdicts: &'a [Option<PairVerdict>],
    /// Of each class whether it shares windows with this one.
    pub shares: &'a [bool; CLASSES],
}

/// Of each class whether it shares windows with one.
pub fn sharing(schedule: &Schedule, class: u8) -> [bool; CLASSES]
    requires { class < CLASSES }
    ensures { AreSharing schedule.now class result }
{
    [
        shares_windows(schedule, class, 0),
        shares_windows(schedule, class, 1),
        shares_windows(schedule, class, 2),
        shares_windows(schedule, class, 3),
        shares_windows(schedule, class, 4),
        shares_windows(schedule, class, 5),
        shares_windows(schedule, class, 6),
        shares_windows(schedule, class, 7),
    ]
}

/// The verdict at a place, if there is one yet.
pub fn verdict_at(verdicts: &[Option<PairVerdict>], port: u32, class: u8) -> Option<PairVerdict>
    ensures { result ≡ verdict_at verdicts.now (pair_of port class) }
{
    let pair = 8 * port as usize + class as usize;
    verdicts.get(pair).copied().unwrap_or(None)
}

/// A verdict as one about a port alone.
fn verdict_in(verdict: Option<PairVerdict>) -> Verdict
    ensures { result ≡ verdict_in verdict }
{
    match verdict {
        Some(PairVerdict::Known(verdict)) => verdict,
        Some(PairVerdict::Unheard) | None => Verdict::Idle,
    }
}

/// How a class stands for one with which it shares windows.
fn standing_at(alloc: Global, pair: Pair<'_>, class: u8) -> Result<Standing, BoundsFault>
    requires class { class < CLASSES }
    requires hops { All IsHop pair.hops.now }
    ensures standing { IfOk result (λ standing. standing ≡
        standing_at pair.entry.port.now pair.entry.number pair.entry.hops.now
        pair.entry.verdicts.now pair.entry.shares.now class) }
    ensures counted { IfOk result IsCounted }
    ensures memory { IfErr result (λ fault. fault ≡ Faults.Memory) }
{
    if !pair.shares[class as usize] {
        return Ok(Standing::Silent);
    }
    let own = own_of(alloc, pair.hops, pair.number, class)?;
    let verdict = verdict_in(verdict_at(pair.verdicts, pair.number, class));
    Ok(standing_of(
        &pair.port.settings,
        &pair.port.change,
        class,
        own.as_slice(),
        verdict,
    ))
}

/// How the classes above one stand, from the next one up.
pub fn standings_above(alloc: Global, pair: Pair<'_>) -> Result<Vec<Standing, Global>, BoundsFault>
    requires class { pair.class < CLASSES }
    requires hops { All IsHop pair.hops.now }
    ensures above { IfOk result (λ above. above.items ≡
        standings_from pair.entry.port.now pair.entry.number pair.entry.hops.now
        pair.entry.verdicts.now pair.entry.shares.now (7 - pair.entry.class)
        (pair.entry.class + 1)) }
    ensures counted { IfOk result (λ above. All IsCounted above.items) }
    ensures memory { IfErr result (λ fault. fault ≡ Faults.Memory) }
{
    let mut above = Vec::new(alloc);
    for class in pair.class + 1..8u8 {
        match above.push(standing_at(alloc, pair, class)?) {
            Ok(()) => {}
            Err(_) => return Err(BoundsFault::Memory),
        }
    }
    Ok(above)
}

/// Whether a class is one of those that are meant.
fn is_among(classes: &[bool; CLASSES], class: u8) -> bool
    ensures { result ≡ slice_index_or classes.now class false }
{
    if (class as usize) < CLASSES {
        classes[class as usize]
    } else {
        false
    }
}

/// Whether a class is above one, shares windows with it, and isn't judged.
fn awaits_class(pair: Pair<'_>, class: Option<u8>) -> bool
    ensures { result ≡ awaits_class pair.entry.port.now pair.entry.number pair.entry.class
        pair.entry.hops.now pair.entry.verdicts.now pair.entry.shares.now class }
{
    let Some(class) = class else {
        return false;
    };
    if class <= pair.class {
        return false;
    }
    let shares = pair.shares;
    is_among(shares, class) && verdict_at(pair.verdicts, pair.number, class).is_none()
}

/// Whether a class waits for a hop.
fn awaits(pair: Pair<'_>, hop: &Hop) -> bool
    ensures { result ≡ awaits pair.entry.port.now pair.entry.number pair.entry.class
        pair.entry.hops.now pair.entry.verdicts.now pair.entry.shares.now hop.now }
{
    (is_own(hop, pair.number, pair.class) && is_awaited(hop.coming))
        || (is_at(hop, pair.number) && awaits_class(pair, hop.class))
}

/// Whether a class waits for any hop.
pub fn is_waiting(pair: Pair<'_>) -> bool
    ensures { result ≡ is_waiting pair.entry.port.now pair.entry.number pair.entry.class
        pair.entry.hops.now pair.entry.verdicts.now pair.entry.shares.now }
{
    pair.hops.iter().any(|hop| awaits(pair, hop))
}

/// Whether frames of a stream of a class come, and it won't be known when.
pub fn is_lacking(pair: Pair<'_>) -> bool
    ensures { result ≡ is_lacking pair.entry.port.now pair.entry.number pair.entry.class
        pair.entry.hops.now pair.entry.verdicts.now pair.entry.shares.now }
{
    pair.hops.iter().any(|hop| is_own(hop, pair.number, pair.class) && is_unknown(hop.coming))
}
