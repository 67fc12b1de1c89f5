//! The answer about a class, by its streams.

ghost use Rattle.std.specs.Prelude.{◌≡◌, ◌≢◌, ◌<◌, All, Err, None, Ok, IfErr, IfOk, Result, [], drop, length, nat_le, slice_get, true, unwrap_or};
ghost use Rattle.job.specs.declared.fault.Fault.TheVariants as Faults;
ghost use Rattle.wire_time.specs.declared.TheConstants.{CLASSES};
ghost use Rattle.burst_bounds.specs.declared.Unbound.TheVariants as BurstFaults;
ghost use Rattle.delay_bounds.specs.Bounded.{Answer};
ghost use Rattle.window_bounds.specs.declared.Unbound.TheVariants as WindowFaults;
ghost use Rattle.stream_bounds.specs.Case.{IsCase};
ghost use Rattle.stream_bounds.specs.Classes.{IsPeriodic, has_any, has_inexact};
ghost use Rattle.stream_bounds.specs.TableRead.{IsAnswered};
ghost use Rattle.stream_bounds.specs.Verdicts.{IsApartAnswer, IsBurstAnswer, IsAnswerWith, IsOwnAnswer, IsWindowAnswer, apart_answer, burst_answer, exact_answer, no_extra, unbounded, windows_of, within_room};
ghost use Rattle.stream_bounds.specs.Answers.{with_extras};

use crate::case::Case;
use crate::classes::{
    are_any, are_equal, flows_of, has_any, has_inexact, ids_of, jittered_flows_of, most_sdu,
    ranges_of, talkers_of,
};
use crate::extras::Extra;
use crate::faults::BoundsFault;
use crate::settings::BoundsSettings;
use crate::shared::sharing_answer;
use crate::verdicts::{Verdict, verdict_of};
use burst_bounds::{Bounds as BurstBounds, Unbound as BurstUnbound, burst_bounds};
use delay_bounds::{Bound, Bounded, Unbound, bound_flows};
use gates::gate_list::Schedule;
use std::alloc::Global;
use std::marker::Model;
use traffic::Stream;
use window_bounds::{Bounded as Windows, Unbound as WindowUnbound, window_bounds};
use wire_time::CLASSES;

/// The answer about a class: the verdict, the bounds of its streams and what is told beside them, where that is asked,
/// and how many of both are told.
#[derive(Drop)]
pub struct ClassAnswer {
    verdict: Verdict,
    bounds: Vec<Bound, Global>,
    told: usize,
    extras: Vec<Extra, Global>,
    extras_told: usize,
}

/// A contract sees the verdict, and the bounds and what else is still to be told.
impl Model for ClassAnswer {
    ghost use Rattle.std.specs.Prelude.{drop};
    ghost use Rattle.stream_bounds.specs.Verdicts.{ClassAnswer};

    ghost Value = { ClassAnswer };

    ghost view = { λ a. record {
      verdict = a.verdict;
      left = drop a.told a.bounds.items;
      extras = drop a.extras_told a.extras.items;
    } };
}

impl ClassAnswer {
    /// A verdict, with bounds of which none is told.
    pub fn new(alloc: Global, verdict: Verdict, bounds: Vec<Bound, Global>) -> ClassAnswer
        ensures { result ≡ record { verdict = verdict; left = bounds.items; extras = [] } }
    {
        ClassAnswer {
            verdict,
            bounds,
            told: 0,
            extras: Vec::new(alloc),
            extras_told: 0,
        }
    }

    /// The same, with what else is told of each stream.
    pub fn with_extras(self, extras: Vec<Extra, Global>) -> ClassAnswer
        ensures { result ≡ with_extras self extras.items }
    {
        ClassAnswer {
            extras,
            extras_told: 0,
            ..self
        }
    }

    /// The verdict.
    pub fn verdict(&self) -> Verdict
        ensures { result ≡ self.now.verdict }
    {
        self.verdict
    }

    /// The bounds at a place of those that are still to be told.
    pub fn bound(&self, place: usize) -> Option<Bound>
        ensures { result ≡ slice_get self.now.left place }
    {
        self.bounds.get(self.told.checked_add(place)?).copied()
    }

    /// What else is told of the next stream; it then is.
    pub fn next_extra(&mut self) -> Extra
        ensures first { result ≡ unwrap_or (slice_get self.old.extras 0) no_extra }
        ensures left { self.new ≡ record {
          verdict = self.old.verdict;
          left = self.old.left;
          extras = drop 1 self.old.extras;
        } }
    {
        let Some(extra) = self.extras.get(self.extras_told).copied() else {
            return Extra::none();
        };
        self.extras_told += 1;
        extra
    }

    /// The next bounds that are still to be told; they then are.
    pub fn next(&mut self) -> Option<Bound>
        ensures first { result ≡ slice_get self.old.left 0 }
        ensures left { self.new ≡ record {
          verdict = self.old.verdict;
          left = drop 1 self.old.left;
          extras = self.old.extras;
        } }
    {
        let bound = self.bounds.get(self.told).copied()?;
        self.told += 1;
        Some(bound)
    }
}

/// The answer about a class with these streams, whose traffic is exact, in a schedule that keeps it apart.
fn apart_answer(
    alloc: Global,
    streams: &[Stream],
    answer: Result<Bounded<Global>, Unbound>,
) -> Result<ClassAnswer, BoundsFault>
    ensures answer { (told : Result Answer Unbound) → IsAnswered answer told →
        IfOk result (λ a. a ≡ apart_answer streams.now told) }
    ensures memory { IfErr result (λ fault. fault ≡ Faults.Memory) }
{
    match answer {
        Ok(bounded) => {
            let verdict = Verdict::Bounded {
                most: bounded.most,
                frames: bounded.frames,
                every: bounded.every,
            };
            Ok(ClassAnswer::new(alloc, verdict, bounded.bounds))
        }
        Err(Unbound::Memory) => Err(BoundsFault::Memory),
        Err(why) => {
            let ids = ids_of(alloc, streams)?;
            let verdict = verdict_of(ids.as_slice(), why);
            Ok(ClassAnswer::new(alloc, verdict, Vec::new(alloc)))
        }
    }
}

/// The answer about a class with these streams, whose traffic is exact, in a schedule that keeps it apart.
fn exact_answer(
    alloc: Global,
    settings: &BoundsSettings,
    schedule: &Schedule,
    streams: &[Stream],
    class: u8,
) -> Result<ClassAnswer, BoundsFault>
    requires class { class < CLASSES }
    requires periodic { All IsPeriodic streams.now }
    requires some { 0 < length streams.now }
    ensures answer { IfOk result
        (λ a. a ≡ exact_answer settings.now schedule.now streams.now class) }
    ensures memory { IfErr result (λ fault. fault ≡ Faults.Memory) }
{
    let flows = flows_of(alloc, settings.port.rate(), streams)?;
    let _entries = schedule.len();
    let answer = bound_flows(
        &alloc,
        schedule,
        class,
        settings.port.room(),
        flows.as_slice(),
        settings.frames,
    );
    apart_answer(alloc, streams, answer)
}

/// Bounds, as far as there is room for the frames that may wait; and whether a frame of each stream may take so long.
fn within_room(
    alloc: Global,
    room: u32,
    most: u64,
    reached: bool,
    bounds: Vec<Bound, Global>,
) -> ClassAnswer
    ensures { result ≡ within_room (nat_le most room) most reached bounds.items }
{
    if most <= u64::from(room) {
        ClassAnswer::new(alloc, Verdict::Within { most, reached }, bounds)
    } else {
        ClassAnswer::new(alloc, Verdict::Crowded { most }, Vec::new(alloc))
    }
}

/// The bounds of a class with these streams, whose frames wait for so long at most.
fn burst_within(
    alloc: Global,
    room: u32,
    streams: &[Stream],
    bounds: BurstBounds,
) -> Result<ClassAnswer, BoundsFault>
    ensures answer { IfOk result (λ a. a ≡ burst_answer room streams.now (Ok bounds)) }
    ensures memory { IfErr result (λ fault. fault ≡ Faults.Memory) }
{
    let ranges = ranges_of(alloc, bounds.wait, streams)?;
    let reached = are_equal(streams) && are_any(streams);
    Ok(within_room(alloc, room, bounds.most as u64, reached, ranges))
}

/// The answer about a class with these streams, by its least bounds.
fn burst_answer(
    alloc: Global,
    room: u32,
    streams: &[Stream],
    told: Result<BurstBounds, BurstUnbound>,
) -> Result<ClassAnswer, BoundsFault>
    ensures answer { IfOk result (λ a. a ≡ burst_answer room streams.now told) }
    ensures known { IfOk result (λ a. told ≢ Err BurstFaults.Memory) }
    ensures memory { IfErr result (λ fault. fault ≡ Faults.Memory) }
{
    let why = match told {
        Ok(bounds) => return burst_within(alloc, room, streams, bounds),
        Err(why) => why,
    };
    let verdict = match why {
        BurstUnbound::Overloaded => Verdict::Overloaded { alone: false },
        BurstUnbound::Stuck => Verdict::Unfit,
        BurstUnbound::Long => Verdict::Long,
        BurstUnbound::Memory => return Err(BoundsFault::Memory),
    };
    Ok(ClassAnswer::new(alloc, verdict, Vec::new(alloc)))
}

/// The answer about a class with these streams, some of whose frames may come at any moment, in a schedule that keeps it
/// apart.
fn any_answer(
    alloc: Global,
    case: &Case<'_>,
    streams: &[Stream],
) -> Result<ClassAnswer, BoundsFault>
    requires case { IsCase case.now }
    requires periodic { All IsPeriodic streams.now }
    requires some { 0 < length streams.now }
    ensures answer { IfOk result (λ a.
        IsBurstAnswer case.now.settings.now case.now.change.now streams.now case.now.class a) }
    ensures memory { IfErr result (λ fault. fault ≡ Faults.Memory) }
{
    let settings = case.settings;
    let sdu = most_sdu(settings, case.change, case.class);
    let talkers = talkers_of(alloc, settings.port.rate(), sdu, streams)?;
    let limit = settings.frames.min(u64::from(u32::MAX)) as u32;
    let told = burst_bounds(&alloc, case.schedule, case.class, talkers.as_slice(), limit);
    burst_answer(alloc, settings.port.room(), streams, told)
}

/// A class without bounds.
pub fn unbounded(alloc: Global, verdict: Verdict) -> ClassAnswer
    ensures { result ≡ unbounded verdict }
{
    ClassAnswer::new(alloc, verdict, Vec::new(alloc))
}

/// The answer about a class with these streams, by the least bounds of their windows. Where too few frames are looked
/// at, it is that by how far apart they come.
fn answer_with(
    alloc: Global,
    case: &Case<'_>,
    streams: &[Stream],
    told: Result<Windows<Global>, WindowUnbound>,
) -> Result<ClassAnswer, BoundsFault>
    requires case { IsCase case.now }
    requires periodic { All IsPeriodic streams.now }
    requires some { 0 < length streams.now }
    ensures answer { IfOk result (λ a.
        IsAnswerWith case.now.settings.now case.now.change.now streams.now case.now.class a
        (windows_of told)) }
    ensures known { IfOk result (λ a. windows_of told ≢ Err WindowFaults.Memory) }
    ensures memory { IfErr result (λ fault. fault ≡ Faults.Memory) }
{
    match told {
        Ok(told) => {
            let reached = are_equal(streams);
            let room = case.settings.port.room();
            Ok(within_room(alloc, room, told.most, reached, told.bounds))
        }
        Err(WindowUnbound::Overloaded) => Ok(unbounded(
            alloc,
            Verdict::Overloaded { alone: false },
        )),
        Err(WindowUnbound::Stuck) => Ok(unbounded(alloc, Verdict::Unfit)),
        Err(WindowUnbound::Long) => any_answer(alloc, case, streams),
        Err(WindowUnbound::Late) => any_answer(alloc, case, streams),
        Err(WindowUnbound::Memory) => Err(BoundsFault::Memory),
    }
}

/// The answer about a class with these streams, each of whose frames comes in a window of its own, in a schedule that
/// keeps it apart.
fn window_answer(
    alloc: Global,
    case: &Case<'_>,
    streams: &[Stream],
) -> Result<ClassAnswer, BoundsFault>
    requires case { IsCase case.now }
    requires periodic { All IsPeriodic streams.now }
    requires some { 0 < length streams.now }
    ensures answer { IfOk result (λ a.
        IsWindowAnswer case.now.settings.now case.now.change.now streams.now case.now.class a) }
    ensures memory { IfErr result (λ fault. fault ≡ Faults.Memory) }
{
    let settings = case.settings;
    let sdu = most_sdu(settings, case.change, case.class);
    let flows = jittered_flows_of(alloc, settings.port.rate(), sdu, streams)?;
    let told = window_bounds(
        &alloc,
        case.schedule,
        case.class,
        flows.as_slice(),
        settings.frames,
    );
    answer_with(alloc, case, streams, told)
}

/// The answer about a class with these streams, in a schedule that keeps it apart, where each frame may come anywhere in its
/// window, and some may be missing: by windows, where all offsets are known.
pub fn windows_answer(
    alloc: Global,
    case: &Case<'_>,
    streams: &[Stream],
) -> Result<ClassAnswer, BoundsFault>
    requires case { IsCase case.now }
    requires periodic { All IsPeriodic streams.now }
    requires some { 0 < length streams.now }
    ensures answer { IfOk result (λ a.
        IsApartAnswer (has_any streams.now) true case.now.settings.now case.now.change.now
        streams.now case.now.class a) }
    ensures memory { IfErr result (λ fault. fault ≡ Faults.Memory) }
{
    if has_any(streams) {
        any_answer(alloc, case, streams)
    } else {
        window_answer(alloc, case, streams)
    }
}

/// The answer about a class with these streams, in a schedule that keeps it apart.
pub fn kept_answer(
    alloc: Global,
    case: &Case<'_>,
    streams: &[Stream],
) -> Result<ClassAnswer, BoundsFault>
    requires case { IsCase case.now }
    requires periodic { All IsPeriodic streams.now }
    requires some { 0 < length streams.now }
    ensures answer { IfOk result
        (λ a. IsApartAnswer (has_any streams.now) (has_inexact streams.now) case.now.settings.now case.now.change.now
        streams.now case.now.class a) }
    ensures memory { IfErr result (λ fault. fault ≡ Faults.Memory) }
{
    if has_any(streams) {
        any_answer(alloc, case, streams)
    } else if has_inexact(streams) {
        window_answer(alloc, case, streams)
    } else {
        exact_answer(alloc, case.settings, case.schedule, streams, case.class)
    }
}

/// The answer about a class with these streams, beside the others.
pub fn own_answer(
    alloc: Global,
    case: &Case<'_>,
    streams: &[Stream],
) -> Result<ClassAnswer, BoundsFault>
    requires case { IsCase case.now }
    requires periodic { All IsPeriodic streams.now }
    ensures answer { IfOk result
        (λ a. IsOwnAnswer case.now.settings.now case.now.change.now case.now.table.now
        case.now.above.now streams.now case.now.class a) }
    ensures memory { IfErr result (λ fault. fault ≡ Faults.Memory) }
{
    if streams.len() == 0 {
        return Ok(unbounded(alloc, Verdict::Idle));
    }
    if case.schedule.keeps_apart(case.class) {
        kept_answer(alloc, case, streams)
    } else {
        sharing_answer(alloc, case, streams)
    }
}
