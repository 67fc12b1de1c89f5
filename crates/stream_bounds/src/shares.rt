//! What the greatest wait of a stream is made of: by what it would be if less was sent.

ghost use Rattle.std.specs.Prelude.{◌≡◌, ◌<◌, ◌≤◌, [], All, IfErr, IfOk, Some, length, slice_get};
ghost use Rattle.job.specs.declared.fault.Fault.TheVariants as Faults;
ghost use Rattle.stream_bounds.specs.Answers.{AreAskedShares, AreSharesOf, IsDivided, IsWaitAlone, delay_at, greatest_of, is_none_above, none_above, none_sends, shares_of, up_to};
ghost use Rattle.stream_bounds.specs.Case.{IsCase};
ghost use Rattle.stream_bounds.specs.Classes.{IsPeriodic};
ghost use Rattle.traffic.specs.declared.table.Stream.{Stream};
ghost use Rattle.wire_time.specs.declared.TheConstants.{CLASSES};

use crate::case::Case;
use crate::class_answer::{ClassAnswer, own_answer};
use crate::classes::dropped_of;
use crate::faults::BoundsFault;
use crate::premise_lines::is_silent;
use crate::settings::BoundsSettings;
use crate::slack::stream_at;
use crate::stream_lines::unless_dropped;
use crate::verdicts::{Delay, delay_by};
use abstract_port::Change;
use delay_bounds::Bound;
use script::Shares;
use std::alloc::Global;
use traffic::Stream;
use wire_time::CLASSES;

/// What is told of the stream at a place of its class, by the class's answer.
pub fn delay_at(
    settings: &BoundsSettings,
    change: &Change,
    stream: &Stream,
    class: u8,
    answer: &ClassAnswer,
    place: usize,
) -> Delay
    ensures { result ≡ delay_at settings.now change.now stream.now class answer.now place }
{
    let none = Bound {
        least: 0,
        greatest: 0,
    };
    let bound = answer.bound(place).unwrap_or(none);
    let delay = delay_by(class, answer.verdict(), bound);
    unless_dropped(dropped_of(settings, change, stream), delay)
}

/// The greatest wait that is told of a stream, if one is, in picoseconds.
pub fn greatest_of(delay: Delay) -> Option<u128>
    ensures { result ≡ greatest_of delay }
{
    match delay {
        Delay::Exact(_, bound) | Delay::Within(_, bound, _) => Some(bound.greatest),
        Delay::Unbounded(_) | Delay::Unsettled(_) | Delay::Unknown(_) | Delay::Lost(_) => None,
    }
}

/// The same settings, where it is said of all classes that they send nothing.
fn none_sends(settings: &BoundsSettings) -> BoundsSettings
    ensures { result ≡ none_sends settings.now }
{
    BoundsSettings {
        silent: [true; CLASSES],
        ..*settings
    }
}

/// Whether a class is above one, or silent by a table.
fn is_none_above(
    settings: &BoundsSettings,
    change: &Change,
    table: &[Stream],
    class: u8,
    other: u8,
) -> bool
    requires { other < CLASSES }
    ensures { result ≡ is_none_above settings.now change.now table.now class other }
{
    class < other || is_silent(settings, change, table, other)
}

/// The same settings, where it is said of the classes above one that they send nothing.
fn none_above(
    settings: &BoundsSettings,
    change: &Change,
    table: &[Stream],
    class: u8,
) -> BoundsSettings
    ensures { result ≡ none_above settings.now change.now table.now class }
{
    BoundsSettings {
        silent: [
            is_none_above(settings, change, table, class, 0),
            is_none_above(settings, change, table, class, 1),
            is_none_above(settings, change, table, class, 2),
            is_none_above(settings, change, table, class, 3),
            is_none_above(settings, change, table, class, 4),
            is_none_above(settings, change, table, class, 5),
            is_none_above(settings, change, table, class, 6),
            is_none_above(settings, change, table, class, 7),
        ],
        ..*settings
    }
}

/// The greatest wait of a stream if its class had no other, in picoseconds.
fn wait_alone(alloc: Global, case: &Case<'_>, stream: &Stream) -> Result<Option<u128>, BoundsFault>
    requires case { IsCase case.now }
    requires periodic { IsPeriodic stream.now }
    ensures wait { IfOk result
        (λ wait. IsWaitAlone case.now.settings.now case.now.change.now case.now.table.now
        case.now.above.now case.now.class stream.now wait) }
    ensures memory { IfErr result (λ fault. fault ≡ Faults.Memory) }
{
    let own = [*stream];
    let answer = own_answer(alloc, case, &own)?;
    let delay = delay_at(case.settings, case.change, stream, case.class, &answer, 0);
    Ok(greatest_of(delay))
}

/// A greatest wait that is no longer than the whole one.
fn up_to(whole: u128, wait: Option<u128>) -> u128
    ensures wait { result ≡ up_to whole wait }
    ensures within { result ≤ whole }
{
    wait.unwrap_or(whole).min(whole)
}

/// The shares of a greatest wait, by what it is if nothing else is sent, if classes below may send, too, and if those
/// above do.
fn shares_of(gates: u128, blocked: u128, behind: u128, whole: u128) -> Shares
    requires gates { gates ≤ whole }
    requires blocked { blocked ≤ whole }
    requires behind { behind ≤ whole }
    ensures { result ≡ shares_of gates blocked behind whole }
{
    let blocked = blocked.max(gates);
    let behind = behind.max(blocked);
    Shares {
        gates,
        blocking: blocked - gates,
        higher: behind - blocked,
        queue: whole - behind,
    }
}

/// The greatest wait of a stream by these settings, if no class had another, in picoseconds.
fn wait_without(
    alloc: Global,
    case: &Case<'_>,
    settings: &BoundsSettings,
    stream: &Stream,
) -> Result<Option<u128>, BoundsFault>
    requires case { IsCase case.now }
    requires periodic { IsPeriodic stream.now }
    ensures wait { IfOk result (λ wait.
        IsWaitAlone settings.now case.now.change.now [] [] case.now.class stream.now wait) }
    ensures memory { IfErr result (λ fault. fault ≡ Faults.Memory) }
{
    let case = Case {
        settings,
        table: &[],
        above: &[],
        ..*case
    };
    wait_alone(alloc, &case, stream)
}

/// What the greatest wait of a stream is made of.
fn divided(
    alloc: Global,
    case: &Case<'_>,
    stream: &Stream,
    whole: u128,
) -> Result<Option<Shares>, BoundsFault>
    requires case { IsCase case.now }
    requires periodic { IsPeriodic stream.now }
    ensures shares { IfOk result
        (λ shares. IsDivided case.now.settings.now case.now.change.now case.now.table.now
        case.now.above.now case.now.class stream.now whole shares) }
    ensures memory { IfErr result (λ fault. fault ≡ Faults.Memory) }
{
    let alone = none_sends(case.settings);
    let gates = wait_without(alloc, case, &alone, stream)?;
    let below = none_above(case.settings, case.change, case.table, case.class);
    let blocked = wait_without(alloc, case, &below, stream)?;
    let behind = wait_alone(alloc, case, stream)?;
    Ok(Some(shares_of(
        up_to(whole, gates),
        up_to(whole, blocked),
        up_to(whole, behind),
        whole,
    )))
}

/// What a greatest wait of a stream is made of, if it has one.
pub fn shares_where(
    alloc: Global,
    case: &Case<'_>,
    stream: &Stream,
    whole: Option<u128>,
) -> Result<Option<Shares>, BoundsFault>
    requires case { IsCase case.now }
    requires periodic { IsPeriodic stream.now }
    ensures shares { IfOk result
        (λ shares. AreSharesOf case.now.settings.now case.now.change.now case.now.table.now
        case.now.above.now case.now.class stream.now whole shares) }
    ensures memory { IfErr result (λ fault. fault ≡ Faults.Memory) }
{
    match whole {
        Some(whole) => divided(alloc, case, stream, whole),
        None => Ok(None),
    }
}

/// What the greatest wait of the stream at a place of a class is made of, where that is asked, by the answer about the
/// class.
pub fn asked_shares(
    alloc: Global,
    case: &Case<'_>,
    streams: &[Stream],
    own: &ClassAnswer,
    place: usize,
) -> Result<Option<Shares>, BoundsFault>
    requires case { IsCase case.now }
    requires periodic { All IsPeriodic streams.now }
    requires place { place < length streams.now }
    ensures shares { IfOk result
        (λ shares. (x : Stream) → slice_get streams.now place ≡ Some x →
        AreAskedShares case.now.settings.now.why case.now.settings.now case.now.change.now case.now.table.now
        case.now.above.now case.now.class x (greatest_of
        (delay_at case.now.settings.now case.now.change.now x case.now.class own.now place))
        shares) }
    ensures memory { IfErr result (λ fault. fault ≡ Faults.Memory) }
{
    if !case.settings.why {
        return Ok(None);
    }
    let stream = stream_at(streams, place);
    let delay = delay_at(case.settings, case.change, &stream, case.class, own, place);
    shares_where(alloc, case, &stream, greatest_of(delay))
}
