//! What is told of the streams of a class beside their bounds, where it is asked.

ghost use Rattle.std.specs.Prelude.{◌≡◌, ◌<◌, All, IfErr, IfOk, Some, ◌||◌, length, slice_get};
ghost use Rattle.job.specs.declared.fault.Fault.TheVariants as Faults;
ghost use Rattle.stream_bounds.specs.Answers.{AreAskedExtras, AreExtras, IsExtra};
ghost use Rattle.stream_bounds.specs.Case.{IsCase};
ghost use Rattle.stream_bounds.specs.Classes.{IsPeriodic};
ghost use Rattle.stream_bounds.specs.Verdicts.{no_extra};
ghost use Rattle.traffic.specs.declared.table.Stream.{Stream};

use crate::case::Case;
use crate::class_answer::ClassAnswer;
use crate::faults::BoundsFault;
use crate::shares::asked_shares;
use crate::slack::asked_slack;
use script::Shares;
use std::alloc::Global;
use traffic::Stream;

/// What is told of a stream beside its bounds, where it is asked.
#[derive(Clone, Copy, Debug, PartialEq, Eq)]
pub struct Extra {
    /// The greatest jitter with which its deadline is met, in picoseconds, if it is with any.
    pub slack: Option<u128>,
    /// What its greatest wait is made of, if it has one.
    pub shares: Option<Shares>,
}

impl Extra {
    /// Nothing.
    pub fn none() -> Extra
        ensures { result ≡ no_extra }
    {
        Extra {
            slack: None,
            shares: None,
        }
    }
}

/// What else is told of the stream at a place of a class, whose answer is `own`.
fn extra_at(
    alloc: Global,
    case: &Case<'_>,
    streams: &[Stream],
    own: &ClassAnswer,
    place: usize,
) -> Result<Extra, BoundsFault>
    requires case { IsCase case.now }
    requires periodic { All IsPeriodic streams.now }
    requires place { place < length streams.now }
    ensures extra { IfOk result
        (λ extra. (x : Stream) → slice_get streams.now place ≡ Some x →
        IsExtra case.now.settings.now case.now.change.now case.now.table.now case.now.above.now
        streams.now case.now.class own.now place x extra) }
    ensures memory { IfErr result (λ fault. fault ≡ Faults.Memory) }
{
    let slack = asked_slack(alloc, case, streams, place)?;
    let shares = asked_shares(alloc, case, streams, own, place)?;
    Ok(Extra { slack, shares })
}

/// What else is told of each stream of a class.
fn all_extras(
    alloc: Global,
    case: &Case<'_>,
    streams: &[Stream],
    own: &ClassAnswer,
) -> Result<Vec<Extra, Global>, BoundsFault>
    requires case { IsCase case.now }
    requires periodic { All IsPeriodic streams.now }
    ensures extras { IfOk result
        (λ extras. AreExtras case.now.settings.now case.now.change.now case.now.table.now
        case.now.above.now streams.now case.now.class own.now extras.items) }
    ensures memory { IfErr result (λ fault. fault ≡ Faults.Memory) }
{
    let mut extras = Vec::new(alloc);
    for place in 0..streams.len() {
        let extra = extra_at(alloc, case, streams, own, place)?;
        match extras.push(extra) {
            Ok(()) => {}
            Err(_) => return Err(BoundsFault::Memory),
        }
    }
    Ok(extras)
}

/// What is told of each stream of a class beside its bounds, by the answer about the class; nothing where none is asked.
pub fn extras_of(
    alloc: Global,
    case: &Case<'_>,
    streams: &[Stream],
    own: &ClassAnswer,
) -> Result<Vec<Extra, Global>, BoundsFault>
    requires case { IsCase case.now }
    requires periodic { All IsPeriodic streams.now }
    ensures extras { IfOk result
        (λ extras. AreAskedExtras (case.now.settings.now.slack || case.now.settings.now.why)
        case.now.settings.now case.now.change.now case.now.table.now case.now.above.now
        streams.now case.now.class own.now extras.items) }
    ensures memory { IfErr result (λ fault. fault ≡ Faults.Memory) }
{
    if case.settings.slack || case.settings.why {
        all_extras(alloc, case, streams, own)
    } else {
        Ok(Vec::new(alloc))
    }
}
