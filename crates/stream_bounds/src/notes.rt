//! By what the bounds of classes are found. No contract says so: it is a hint for who watches.

ghost use Rattle.std.specs.Prelude.{◌≡◌, ◌<◌, All, IfSome, length};
ghost use Rattle.abstract_port.specs.AbstractPort.{plan_asked};
ghost use Rattle.stream_bounds.specs.Case.{IsCase};
ghost use Rattle.stream_bounds.specs.Classes.{IsPeriodic};
ghost use Rattle.stream_bounds.specs.Standing.{IsCounted};
ghost use Rattle.wire_time.specs.declared.TheConstants.{CLASSES};

use crate::answers::Answers;
use crate::case::Case;
use crate::class_answer::{ClassAnswer, kept_answer};
use crate::classes::{has_inexact, jittered_flows_of, most_sdu, streams_of};
use crate::settings::BoundsSettings;
use crate::shared::widest;
use crate::shares::{delay_at, greatest_of, shares_where};
use crate::standing::{Standing, may_send, standing_of};
use crate::stream_lines::needs_of;
use crate::verdicts::{Verdict, plus};
use abstract_port::Change;
use gates::gate_list::Schedule;
use script::{Basis, Sharers, Shares, Watch};
use shared_bounds::sharing::shares_windows;
use std::alloc::Global;
use traffic::Stream;
use window_bounds::{Unbound, window_bounds};
use wire_time::CLASSES;

/// The first id of the first stream whose offset isn't known.
fn first_unknown(streams: &[Stream]) -> Option<u64> {
    for stream in streams {
        if stream.offset.is_none() {
            return Some(stream.first_id);
        }
    }
    None
}

/// The streams whose offsets are known. None: memory is out.
fn with_offsets(alloc: Global, streams: &[Stream]) -> Option<Vec<Stream, Global>>
    requires { All IsPeriodic streams.now }
    ensures { IfSome result (λ known. All IsPeriodic known.items) }
{
    let mut known = Vec::new(alloc);
    for stream in streams {
        if stream.offset.is_some() {
            match known.push(*stream) {
                Ok(()) => {}
                Err(_) => return None,
            }
        }
    }
    Some(known)
}

/// Whether the windows of a class with these streams come again before too many frames have come.
fn come_again(alloc: Global, case: &Case<'_>, streams: &[Stream]) -> bool
    requires case { IsCase case.now }
    requires periodic { All IsPeriodic streams.now }
    requires some { 0 < length streams.now }
{
    let settings = case.settings;
    let sdu = most_sdu(settings, case.change, case.class);
    let Ok(flows) = jittered_flows_of(alloc, settings.port.rate(), sdu, streams) else {
        return true;
    };
    let told = window_bounds(
        &alloc,
        case.schedule,
        case.class,
        flows.as_slice(),
        settings.frames,
    );
    !matches!(told, Err(Unbound::Long | Unbound::Late))
}

/// By what the bounds of a class with these streams are found.
fn basis_of(alloc: Global, case: &Case<'_>, streams: &[Stream]) -> Basis
    requires case { IsCase case.now }
    requires periodic { All IsPeriodic streams.now }
    requires some { 0 < length streams.now }
{
    if let Some(id) = first_unknown(streams) {
        Basis::AnyMoments(id)
    } else if !has_inexact(streams) {
        Basis::ExactMoments
    } else if come_again(alloc, case, streams) {
        Basis::Windows
    } else {
        Basis::ManyFrames
    }
}

/// Whether a class with this verdict has bounds.
fn has_bounds(verdict: Verdict) -> bool {
    matches!(
        verdict,
        Verdict::Bounded { .. }
            | Verdict::Within { .. }
            | Verdict::Sharing(_)
            | Verdict::Crowded { .. }
    )
}

/// Tells who watches when the frames of the streams with offsets would end, if no stream of their class came at any
/// moments.
fn tell_without<H: Watch>(alloc: Global, case: &Case<'_>, streams: &[Stream], watch: &mut H)
    requires case { IsCase case.now }
    requires periodic { All IsPeriodic streams.now }
{
    let Some(known) = with_offsets(alloc, streams) else {
        return;
    };
    let known = known.as_slice();
    if known.len() == 0 {
        return;
    }
    let Ok(answer) = kept_answer(alloc, case, known) else {
        return;
    };
    for place in 0..known.len() {
        let Some(bound) = answer.bound(place) else {
            return;
        };
        let needs = needs_of(case.settings.port.rate(), &known[place]);
        watch.ends_without(known[place].first_id, plus(bound.greatest, needs.longest));
    }
}

/// For how long a frame of a lower class may be in the way of a class that shares windows with it, in picoseconds.
fn blocked_by(alloc: Global, case: &Case<'_>, other: u8) -> u128
    requires case { IsCase case.now }
    requires other { other < CLASSES }
{
    if other >= case.class || !shares_windows(case.schedule, case.class, other) {
        return 0;
    }
    let Ok(its) = streams_of(alloc, case.settings, case.change, case.table, other) else {
        return 0;
    };
    if its.len() > 0 || may_send(case.settings, case.change, other) {
        widest(case.settings, case.change, other)
    } else {
        0
    }
}

/// With which classes a class shares windows.
fn sharers_of(alloc: Global, case: &Case<'_>, verdict: Verdict) -> Sharers
    requires { IsCase case.now }
{
    let mut sharers = Sharers {
        classes: [false; CLASSES],
        bounded: has_bounds(verdict),
        blocking: 0,
        blockers: [false; CLASSES],
        longest: None,
    };
    for other in 0..CLASSES as u8 {
        if other != case.class && shares_windows(case.schedule, case.class, other) {
            sharers.classes[other as usize] = true;
        }
        let blocking = blocked_by(alloc, case, other);
        if sharers.blocking < blocking {
            sharers.blocking = blocking;
            sharers.blockers = [false; CLASSES];
        }
        sharers.blockers[other as usize] = 0 < blocking && blocking == sharers.blocking;
    }
    sharers
}

/// How the classes above one stand. None: memory is out.
fn standings_above(
    alloc: Global,
    settings: &BoundsSettings,
    change: &Change,
    table: &[Stream],
    answers: &Answers,
    class: u8,
) -> Option<Vec<Standing, Global>>
    requires class { class < CLASSES }
    requires periodic { All IsPeriodic table.now }
    ensures { IfSome result (λ above. All IsCounted above.items) }
{
    let mut above = Vec::new(alloc);
    for other in class + 1..CLASSES as u8 {
        let Ok(its) = streams_of(alloc, settings, change, table, other) else {
            return None;
        };
        let verdict = answers.verdict(other);
        let standing = standing_of(settings, change, other, its.as_slice(), verdict);
        match above.push(standing) {
            Ok(()) => {}
            Err(_) => return None,
        }
    }
    Some(above)
}

/// The stream that waits the longest of those of a class, and how long.
fn longest_of(case: &Case<'_>, own: &[Stream], answer: &ClassAnswer) -> Option<(Stream, u128)>
    requires { All IsPeriodic own.now }
    ensures { IfSome result (λ longest. IsPeriodic longest.0) }
{
    let mut longest: Option<(Stream, u128)> = None;
    let mut place: usize = 0;
    for stream in own {
        let delay = delay_at(
            case.settings,
            case.change,
            stream,
            case.class,
            answer,
            place,
        );
        if let Some(wait) = greatest_of(delay) {
            match longest {
                Some((_, most)) if wait <= most => {}
                _ => longest = Some((*stream, wait)),
            }
        }
        place = place.saturating_add(1);
    }
    longest
}

/// What the longest wait of a class with these streams is made of, and the first id of the stream that waits so long.
fn longest_wait(
    alloc: Global,
    case: &Case<'_>,
    own: &[Stream],
    answer: &ClassAnswer,
) -> Option<(u64, Shares)>
    requires case { IsCase case.now }
    requires own { All IsPeriodic own.now }
{
    let (stream, wait) = longest_of(case, own, answer)?;
    match shares_where(alloc, case, &stream, Some(wait)) {
        Ok(Some(shares)) => Some((stream.first_id, shares)),
        _ => None,
    }
}

/// Tells who watches with which classes a class with these streams shares windows.
fn tell_sharers<H: Watch>(
    alloc: Global,
    case: &Case<'_>,
    own: &[Stream],
    answer: &ClassAnswer,
    number: u32,
    watch: &mut H,
)
    requires case { IsCase case.now }
    requires own { All IsPeriodic own.now }
{
    let sharers = Sharers {
        longest: longest_wait(alloc, case, own, answer),
        ..sharers_of(alloc, case, answer.verdict())
    };
    watch.class_judged(number, case.class, case.change, Basis::Shared(sharers));
}

/// Tells who watches by what the bounds of a class with these streams are found, which is kept apart.
fn tell_basis<H: Watch>(alloc: Global, case: &Case<'_>, own: &[Stream], number: u32, watch: &mut H)
    requires case { IsCase case.now }
    requires own { All IsPeriodic own.now }
    requires some { 0 < length own.now }
{
    let basis = basis_of(alloc, case, own);
    watch.class_judged(number, case.class, case.change, basis);
    if let Basis::AnyMoments(_) = basis {
        tell_without(alloc, case, own, watch);
    }
}

/// Tells who watches what is known of a class that has streams: with which it shares windows, or by what its bounds are
/// found, if it has some.
fn tell_class<H: Watch>(
    alloc: Global,
    case: &Case<'_>,
    answer: &ClassAnswer,
    number: u32,
    watch: &mut H,
)
    requires { IsCase case.now }
{
    let Ok(own) = streams_of(alloc, case.settings, case.change, case.table, case.class) else {
        return;
    };
    let own = own.as_slice();
    if own.len() == 0 {
        return;
    }
    if !case.schedule.keeps_apart(case.class) {
        tell_sharers(alloc, case, own, answer, number, watch);
    } else if has_bounds(answer.verdict()) {
        tell_basis(alloc, case, own, number, watch);
    }
}

/// Tells who watches by what the bounds are found of each class that has some, and with which classes one shares its
/// windows. The schedule is that of the line of this number.
pub(crate) fn tell_bases<H: Watch>(
    alloc: Global,
    settings: &BoundsSettings,
    change: &Change,
    schedule: &Schedule,
    streams: &[Stream],
    answers: &Answers,
    number: u32,
    watch: &mut H,
)
    requires plan { schedule.now ≡ plan_asked change.now }
    requires periodic { All IsPeriodic streams.now }
{
    for class in 0..CLASSES as u8 {
        let Some(above) = standings_above(alloc, settings, change, streams, answers, class) else {
            return;
        };
        let case = Case {
            settings,
            change,
            schedule,
            table: streams,
            above: above.as_slice(),
            class,
        };
        tell_class(alloc, &case, answers.of(class), number, watch);
    }
}
