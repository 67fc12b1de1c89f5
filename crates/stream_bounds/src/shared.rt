//! The answer about a class that shares its windows, by its streams, those of all classes, and how those above it stand.

ghost use Rattle.std.specs.Prelude.{◌≡◌, ◌≢◌, ◌<◌, ◌^◌, ◌↔◌, All, Err, IfErr, IfOk, IsTrue, List, length, nat_le};
ghost use Rattle.std.specs.List.{list_any};
ghost use Rattle.burst_bounds.specs.Talkers.{IsTalker, longest_need};
ghost use Rattle.job.specs.declared.fault.Fault.TheVariants as Faults;
ghost use Rattle.shared_bounds.specs.Sharing.{Share};
ghost use Rattle.shared_bounds.specs.Traffic.{IsTraffic};
ghost use Rattle.shared_bounds.specs.declared.Unbound.TheVariants as SharedFaults;
ghost use Rattle.stream_bounds.specs.Case.{IsCase};
ghost use Rattle.stream_bounds.specs.Classes.{IsPeriodic, IsShort};
ghost use Rattle.stream_bounds.specs.Shared.{AreBeside, AreOpen, AreTalkersFrom, IsBesideAt, IsHighest, IsInTheWay, bounds_beside, bounds_of_standing, is_open, is_unbounded, need_beside, standing_in, talkers_beside, widest};
ghost use Rattle.stream_bounds.specs.Standing.{IsCounted};
ghost use Rattle.stream_bounds.specs.Verdicts.{IsBoundedAnswer, IsSharedAnswer, shared_answer, shared_within};
ghost use Rattle.traffic.specs.declared.table.Stream.{Stream};
ghost use Rattle.wire_time.specs.declared.TheConstants.{CLASSES};

use crate::case::Case;
use crate::class_answer::{ClassAnswer, unbounded};
use crate::classes::{most_sdu, ranges_of, streams_of, talkers_of};
use crate::faults::BoundsFault;
use crate::settings::BoundsSettings;
use crate::standing::{Standing, may_send};
use crate::verdicts::Verdict;
use abstract_port::Change;
use burst_bounds::{Bounds, Talker};
use gates::gate_list::Schedule;
use shared_bounds::sharing::shares_windows;
use shared_bounds::{ClassTraffic, Unbound, shared_bounds};
use std::alloc::Global;
use traffic::Stream;
use wire_time::{CLASSES, occupancy};

/// How a class above one stands.
fn standing_in(above: &[Standing], class: u8, other: u8) -> Standing
    requires higher { class < other }
    requires counted { All IsCounted above.now }
    ensures standing { result ≡ standing_in above.now class other }
    ensures counted { IsCounted result }
{
    let place = other - class - 1;
    above
        .get(place as usize)
        .copied()
        .unwrap_or(Standing::Silent)
}

/// For how long the longest frame that the port takes into a class occupies the wire, in picoseconds: a tagged one.
pub fn widest(settings: &BoundsSettings, change: &Change, class: u8) -> u128
    requires { class < CLASSES }
    ensures need { result ≡ widest settings.now change.now class }
    ensures short { result < 2 ^ 60 }
{
    let mtu = settings.port.mtu();
    let sdu = if settings.leftovers {
        mtu
    } else {
        most_sdu(settings, change, class)
    };
    occupancy(settings.port.rate(), 18 + sdu)
}

/// For how long a frame of talkers occupies the wire at most, in picoseconds.
fn longest_need(talkers: &[Talker]) -> u128
    requires { All IsShort talkers.now }
    ensures need { result ≡ longest_need talkers.now }
    ensures short { result < 2 ^ 60 }
{
    let mut need = 0;
    for talker in talkers {
        need = talker.need.max(need);
    }
    need
}

/// For how long a frame of a class with these talkers occupies the wire at most, where a class is judged: of that class
/// and those above it by their talkers, and of those below it by what the port takes. 0: it sends none.
fn need_beside(
    settings: &BoundsSettings,
    change: &Change,
    class: u8,
    other: u8,
    talkers: &[Talker],
) -> u128
    requires other { other < CLASSES }
    requires short { All IsShort talkers.now }
    ensures need { result ≡ need_beside settings.now change.now class other talkers.now }
    ensures short { result < 2 ^ 60 }
{
    match talkers {
        [] if may_send(settings, change, other) => widest(settings, change, other),
        [] => 0,
        [_, ..] if class <= other => longest_need(talkers),
        [_, ..] => widest(settings, change, other),
    }
}

/// The bounds of a class that stands so above one; or none, where nothing of it comes.
fn bounds_of(standing: Standing) -> Bounds
    requires { IsCounted standing }
    ensures bounds { result ≡ bounds_of_standing standing }
    ensures counted { result.wait < 2 ^ 100 }
{
    match standing {
        Standing::Bounded(bounds) => bounds,
        Standing::Silent | Standing::Open | Standing::Unbounded => Bounds { wait: 0, most: 0 },
    }
}

/// The talkers of a class, where one with these streams is judged.
fn talkers_beside(
    alloc: Global,
    case: &Case<'_>,
    streams: &[Stream],
    other: u8,
) -> Result<Vec<Talker, Global>, BoundsFault>
    requires case { IsCase case.now }
    requires other { other < CLASSES }
    requires periodic { All IsPeriodic streams.now }
    ensures talkers { IfOk result (λ talkers. talkers.items
        ≡ talkers_beside case.now.settings.now case.now.change.now case.now.table.now streams.now
        case.now.class other) }
    ensures fit { IfOk result (λ talkers. All IsTalker talkers.items) }
    ensures short { IfOk result (λ talkers. All IsShort talkers.items) }
    ensures memory { IfErr result (λ fault. fault ≡ Faults.Memory) }
{
    let sdu = most_sdu(case.settings, case.change, other);
    let rate = case.settings.port.rate();
    if other == case.class {
        return talkers_of(alloc, rate, sdu, streams);
    }
    let its = streams_of(alloc, case.settings, case.change, case.table, other)?;
    talkers_of(alloc, rate, sdu, its.as_slice())
}

/// What is known of a class with these talkers, where one is judged.
fn traffic_of<'a>(case: &Case<'_>, other: u8, talkers: &'a [Talker]) -> ClassTraffic<'a>
    requires case { IsCase case.now }
    requires other { other < CLASSES }
    requires fit { All IsTalker talkers.now }
    requires short { All IsShort talkers.now }
    ensures need { result.need ≡ need_beside case.now.settings.now case.now.change.now
        case.now.class other talkers.now }
    ensures talkers { result.talkers.now ≡ talkers.now }
    ensures bounds { result.bounds ≡ bounds_beside case.now.above.now case.now.class other }
    ensures fits { IsTraffic result }
{
    let bounds = if case.class < other {
        bounds_of(standing_in(case.above, case.class, other))
    } else {
        Bounds { wait: 0, most: 0 }
    };
    ClassTraffic {
        need: need_beside(case.settings, case.change, case.class, other, talkers),
        talkers,
        bounds,
    }
}

/// The talkers of all classes, where one with these streams is judged.
fn all_talkers(
    alloc: Global,
    case: &Case<'_>,
    streams: &[Stream],
) -> Result<[Vec<Talker, Global>; CLASSES], BoundsFault>
    requires case { IsCase case.now }
    requires periodic { All IsPeriodic streams.now }
    ensures talkers { IfOk result
        (AreTalkersFrom case.now.settings.now case.now.change.now case.now.table.now streams.now
        case.now.class 0) }
    ensures fit { IfOk result (All (λ talkers. All IsTalker talkers.items)) }
    ensures short { IfOk result (All (λ talkers. All IsShort talkers.items)) }
    ensures memory { IfErr result (λ fault. fault ≡ Faults.Memory) }
{
    Ok([
        talkers_beside(alloc, case, streams, 0)?,
        talkers_beside(alloc, case, streams, 1)?,
        talkers_beside(alloc, case, streams, 2)?,
        talkers_beside(alloc, case, streams, 3)?,
        talkers_beside(alloc, case, streams, 4)?,
        talkers_beside(alloc, case, streams, 5)?,
        talkers_beside(alloc, case, streams, 6)?,
        talkers_beside(alloc, case, streams, 7)?,
    ])
}

/// What is known of all classes with these talkers, where one is judged.
fn all_traffic<'a>(
    case: &Case<'_>,
    talkers: &'a [Vec<Talker, Global>; CLASSES],
) -> [ClassTraffic<'a>; CLASSES]
    requires case { IsCase case.now }
    requires fit { All (λ talkers. All IsTalker talkers.items) talkers.now }
    requires short { All (λ talkers. All IsShort talkers.items) talkers.now }
    ensures beside { (table streams : List Stream)
        → AreTalkersFrom case.now.settings.now case.now.change.now table streams case.now.class 0
        talkers.now
        → AreBeside case.now.settings.now case.now.change.now table case.now.above.now streams
        case.now.class result }
    ensures fit { All IsTraffic result }
{
    [
        traffic_of(case, 0, talkers[0].as_slice()),
        traffic_of(case, 1, talkers[1].as_slice()),
        traffic_of(case, 2, talkers[2].as_slice()),
        traffic_of(case, 3, talkers[3].as_slice()),
        traffic_of(case, 4, talkers[4].as_slice()),
        traffic_of(case, 5, talkers[5].as_slice()),
        traffic_of(case, 6, talkers[6].as_slice()),
        traffic_of(case, 7, talkers[7].as_slice()),
    ]
}

/// The answer about a class with these streams, by its least bounds beside the others.
fn shared_answer(
    alloc: Global,
    room: u32,
    streams: &[Stream],
    told: Result<Bounds, Unbound>,
) -> Result<ClassAnswer, BoundsFault>
    ensures answer { IfOk result (λ a. a ≡ shared_answer room streams.now told) }
    ensures known { IfOk result (λ a. told ≢ Err SharedFaults.Memory) }
    ensures memory { IfErr result (λ fault. fault ≡ Faults.Memory) }
{
    let verdict = match told {
        Ok(bounds) => return shared_within(alloc, room, streams, bounds),
        Err(Unbound::Stuck) => Verdict::NoWindow,
        Err(Unbound::Blocked) => Verdict::Blocked,
        Err(Unbound::Long) => Verdict::Long,
        Err(Unbound::Memory) => return Err(BoundsFault::Memory),
    };
    Ok(unbounded(alloc, verdict))
}

/// The bounds of a class with these streams, as far as there is room for the frames that may wait.
fn shared_within(
    alloc: Global,
    room: u32,
    streams: &[Stream],
    bounds: Bounds,
) -> Result<ClassAnswer, BoundsFault>
    ensures answer { IfOk result
        (λ a. a ≡ shared_within (nat_le bounds.most room) bounds streams.now) }
    ensures memory { IfErr result (λ fault. fault ≡ Faults.Memory) }
{
    let most = bounds.most as u64;
    if most > u64::from(room) {
        return Ok(unbounded(alloc, Verdict::Crowded { most }));
    }
    let ranges = ranges_of(alloc, bounds.wait, streams)?;
    Ok(ClassAnswer::new(alloc, Verdict::Sharing(bounds), ranges))
}

/// Whether nothing is known of a class that stands so.
fn is_open(standing: Standing) -> bool
    ensures { result ≡ is_open standing }
{
    matches!(standing, Standing::Open)
}

/// Whether a class that stands so has streams, and no bounds.
fn is_unbounded(standing: Standing) -> bool
    ensures { result ≡ is_unbounded standing }
{
    matches!(standing, Standing::Unbounded)
}

/// Whether a class is above one, shares windows with it, and nothing is known of it.
fn is_open_above(schedule: &Schedule, above: &[Standing], class: u8, other: u8) -> bool
    requires class { class < CLASSES }
    requires other { other < CLASSES }
    requires counted { All IsCounted above.now }
    ensures { IsTrue result ↔ IsInTheWay schedule.now above.now class is_open other }
{
    if other <= class || !is_open(standing_in(above, class, other)) {
        return false;
    }
    shares_windows(schedule, class, other)
}

/// Whether a class is above one, shares windows with it, and has streams, and no bounds.
fn is_unbounded_above(schedule: &Schedule, above: &[Standing], class: u8, other: u8) -> bool
    requires class { class < CLASSES }
    requires other { other < CLASSES }
    requires counted { All IsCounted above.now }
    ensures { IsTrue result ↔ IsInTheWay schedule.now above.now class is_unbounded other }
{
    if other <= class || !is_unbounded(standing_in(above, class, other)) {
        return false;
    }
    shares_windows(schedule, class, other)
}

/// Of each class whether it is above one, shares windows with it, and nothing is known of it.
fn open_above(schedule: &Schedule, above: &[Standing], class: u8) -> [bool; CLASSES]
    requires class { class < CLASSES }
    requires counted { All IsCounted above.now }
    ensures { AreOpen schedule.now above.now class result }
{
    [
        is_open_above(schedule, above, class, 0),
        is_open_above(schedule, above, class, 1),
        is_open_above(schedule, above, class, 2),
        is_open_above(schedule, above, class, 3),
        is_open_above(schedule, above, class, 4),
        is_open_above(schedule, above, class, 5),
        is_open_above(schedule, above, class, 6),
        is_open_above(schedule, above, class, 7),
    ]
}

/// The highest class above one that shares windows with it and has streams, and no bounds.
fn unbounded_above(schedule: &Schedule, above: &[Standing], class: u8) -> Option<u8>
    requires class { class < CLASSES }
    requires counted { All IsCounted above.now }
    ensures { IsHighest schedule.now above.now class result }
{
    let mut found = None;
    for other in 0..8u8 {
        if is_unbounded_above(schedule, above, class, other) {
            found = Some(other);
        }
    }
    found
}

/// Whether any of the classes is meant.
pub fn is_any(classes: &[bool; CLASSES]) -> bool
    ensures { result ≡ list_any (λ is. is) classes.now }
{
    classes.iter().any(|is| *is)
}

/// The answer about a class with these streams, of whose windows those above it that share them have bounds or send
/// nothing.
fn bounded_answer(
    alloc: Global,
    case: &Case<'_>,
    streams: &[Stream],
) -> Result<ClassAnswer, BoundsFault>
    requires case { IsCase case.now }
    requires periodic { All IsPeriodic streams.now }
    requires some { 0 < length streams.now }
    ensures answer { IfOk result
        (λ a. IsBoundedAnswer case.now.settings.now case.now.change.now case.now.table.now
        case.now.above.now streams.now case.now.class a) }
    ensures memory { IfErr result (λ fault. fault ≡ Faults.Memory) }
{
    let talkers = all_talkers(alloc, case, streams)?;
    let traffic = all_traffic(case, &talkers);
    let limit = case.settings.frames.min(u64::from(u32::MAX)) as u32;
    let told = shared_bounds(&alloc, case.schedule, case.class, &traffic, limit);
    shared_answer(alloc, case.settings.port.room(), streams, told)
}

/// The answer about a class with these streams, in a schedule that doesn't keep it apart.
pub fn sharing_answer(
    alloc: Global,
    case: &Case<'_>,
    streams: &[Stream],
) -> Result<ClassAnswer, BoundsFault>
    requires case { IsCase case.now }
    requires periodic { All IsPeriodic streams.now }
    requires some { 0 < length streams.now }
    ensures answer { IfOk result
        (λ a. IsSharedAnswer case.now.settings.now case.now.change.now case.now.table.now
        case.now.above.now streams.now case.now.class a) }
    ensures memory { IfErr result (λ fault. fault ≡ Faults.Memory) }
{
    let open = open_above(case.schedule, case.above, case.class);
    if is_any(&open) {
        return Ok(unbounded(alloc, Verdict::Open { to: open }));
    }
    match unbounded_above(case.schedule, case.above, case.class) {
        Some(other) => Ok(unbounded(alloc, Verdict::Behind(other))),
        None => bounded_answer(alloc, case, streams),
    }
}
