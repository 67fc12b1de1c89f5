//! What a strict run of `bounds` or `paths` says of lines.

ghost use Rattle.std.specs.Prelude.{◌≡◌};
ghost use Rattle.plan.specs.Met.{IsMet, IsMetAlong, strict_settings};

use crate::reasons::{Reason, reason_along, reason_of};
use paths::{PathsFault, PathsInput, paths};
use script::{Settings, Unwatched};
use std::alloc::{Allocator, Global};
use stream_bounds::{BoundsFault, BoundsInput, BoundsSettings, bounds};
use wire_time::CLASSES;

/// What is said of a schedule.
#[derive(Clone, Copy, Debug, PartialEq, Eq)]
pub(crate) enum Judged {
    /// All deadlines are met, and nothing else is found.
    Met,
    /// For this reason it isn't good.
    Found(Reason),
    /// It isn't judged.
    Unjudged,
    /// Out of memory.
    Memory,
}

/// How many frames of a class are looked at: as many as `bounds` looks at where no number is given.
const FRAMES: u64 = 1_000_000;

/// The settings of a strict run on a new port.
pub(crate) fn strict_settings(port: Settings) -> BoundsSettings
    ensures { result ≡ strict_settings port }
{
    BoundsSettings {
        port,
        map: None,
        frames: FRAMES,
        strict: true,
        slack: false,
        why: false,
        silent: [false; CLASSES],
        leftovers: false,
    }
}

/// Judges these schedules for the streams of a table. What `bounds` answers about them is kept.
pub(crate) fn verdict_of<A: Allocator>(
    alloc: Global,
    port: Settings,
    table: &[u8],
    schedules: &[u8],
    answers: &mut Vec<u8, A>,
) -> Judged
    ensures { result ≡ Judged.Met → IsMet port table.now schedules.now }
{
    let settings = strict_settings(port);
    match bounds(alloc, table, schedules, answers, settings, &mut Unwatched) {
        Ok(()) => Judged::Met,
        Err(BoundsFault::Input(BoundsInput::Found(finding))) => Judged::Found(reason_of(finding)),
        Err(BoundsFault::Memory | BoundsFault::Write) => Judged::Memory,
        Err(_) => Judged::Unjudged,
    }
}

/// Judges these schedules for the ports of a network. What `paths` answers about them is kept.
pub(crate) fn verdict_along<A: Allocator>(
    alloc: Global,
    port: Settings,
    network: &[u8],
    schedules: &[u8],
    answers: &mut Vec<u8, A>,
) -> Judged
    ensures { result ≡ Judged.Met → IsMetAlong port network.now schedules.now }
{
    let settings = strict_settings(port);
    match paths(
        alloc,
        network,
        schedules,
        answers,
        &settings,
        None,
        &mut Unwatched,
    ) {
        Ok(()) => Judged::Met,
        Err(PathsFault::Input(PathsInput::Found(finding))) => Judged::Found(reason_along(finding)),
        Err(PathsFault::Memory | PathsFault::Write) => Judged::Memory,
        Err(_) => Judged::Unjudged,
    }
}
