//! The table of the streams that come to a port, each with the part of its deadline that it has there.

ghost use Rattle.std.specs.Prelude.{◌≡◌, IfErr};
ghost use Rattle.job.specs.declared.fault.Fault.TheVariants as Faults;

use crate::along::budgets::{Split, budget_of};
use crate::faults::PlanFault;
use crate::reasons::Reason;
use crate::settings::PlanSettings;
use job::Fault;
use network::network_table::{Network, NetworkStream};
use network::port_schedules::{PortSchedule, read_schedules};
use paths::{answer_schedules, ports_of, put_stream};
use port_text::answer_text::{Part, put_parts};
use script::Unwatched;
use std::alloc::Global;
use stream_bounds::{BoundsSettings, PeriodicStreams};
use text::line_reader::LineReader;
use traffic::{Stream, read_table};

/// The schedules of these lines.
fn schedules_of(
    alloc: Global,
    network: &Network<Global>,
    lines: &[u8],
) -> Result<Vec<PortSchedule>, PlanFault>
    ensures { IfErr result (λ why. why ≡ Faults.Memory) }
{
    let Ok(mut lines) = LineReader::new(&alloc, lines) else {
        return Err(PlanFault::Memory);
    };
    let mut kept = Vec::new(alloc);
    match read_schedules(&mut kept, network, &mut lines, &mut Unwatched) {
        Err(Fault::Memory) => Err(PlanFault::Memory),
        // (each line is one that was judged)
        Ok(()) | Err(_) => Ok(kept),
    }
}

/// For how long the schedule of a port is in force at moment zero, in picoseconds.
fn since_at(
    alloc: Global,
    asked: &BoundsSettings,
    network: &Network<Global>,
    kept: &[PortSchedule],
    port: usize,
) -> Result<Option<u128>, PlanFault>
    ensures { IfErr result (λ why. why ≡ Faults.Memory) }
{
    match ports_of(alloc, asked, network, kept) {
        Ok(ports) => Ok(ports.get(port).map(|port| port.since)),
        Err(Fault::Memory) => Err(PlanFault::Memory),
        Err(_) => Ok(None),
    }
}

/// The lines of the streams that come to a port by these schedules, and for how long its own is in force at moment zero,
/// which their offsets have in them; none where that can't be told.
fn coming_to(
    alloc: Global,
    settings: &PlanSettings<'_>,
    network: &Network<Global>,
    lines: &[u8],
    port: usize,
) -> Result<Option<(Vec<u8>, u128)>, PlanFault>
    ensures { IfErr result (λ why. why ≡ Faults.Memory) }
{
    let asked = settings.asked();
    let kept = schedules_of(alloc, network, lines)?;
    let kept = kept.as_slice();
    let Some(since) = since_at(alloc, &asked, network, kept, port)? else {
        return Ok(None);
    };
    let mut text = Vec::new(alloc);
    match answer_schedules(alloc, &asked, Some(port), network, kept, &mut text) {
        Ok(()) => Ok(Some((text, since))),
        Err(Fault::Memory | Fault::Write) => Err(PlanFault::Memory),
        Err(_) => Ok(None),
    }
}

/// The streams of a table of these octets.
fn streams_of(alloc: Global, text: &[u8]) -> Result<PeriodicStreams<Global>, PlanFault>
    ensures { IfErr result (λ why. why ≡ Faults.Memory) }
{
    let Ok(mut lines) = LineReader::new(&alloc, text) else {
        return Err(PlanFault::Memory);
    };
    let mut streams = PeriodicStreams::new(alloc);
    match read_table(&mut lines, &mut streams, &mut Unwatched) {
        Err(Fault::Memory) => Err(PlanFault::Memory),
        Ok(_) | Err(_) => Ok(streams),
    }
}

/// Whether a stream of a network crosses a port, and is the one that comes there so.
fn is_same(network: &Network<Global>, one: &NetworkStream, port: usize, other: &Stream) -> bool {
    let way = network.way(one);
    (way.is_empty() || way.iter().any(|hop| *hop == port))
        && one.stream.first_id == other.first_id
        && one.stream.priority == other.priority
        && one.stream.period == other.period
        && one.stream.len == other.len
}

/// The deadline at a port of a stream that comes there so, from its earliest moment there, where it has one.
fn deadline_at(
    network: &Network<Global>,
    port: usize,
    split: Split,
    coming: &Stream,
    since: u128,
) -> Option<u128> {
    for stream in network.streams.as_slice() {
        if is_same(network, stream, port, coming) {
            let deadline = stream.stream.deadline?;
            let budget = budget_of(network, stream, deadline, port, split);
            return match (stream.stream.offset, coming.offset) {
                (Some(first), Some(here)) => Some(
                    budget
                        .until
                        .saturating_add(first)
                        .saturating_add(since)
                        .saturating_sub(here),
                ),
                _ => Some(budget.own),
            };
        }
    }
    None
}

/// A stream whose offset has this time in it, without that: a whole number of periods later where it would come before
/// that.
fn without(stream: &Stream, since: u128) -> Stream {
    let offset = match stream.offset {
        None => None,
        Some(here) if here >= since => Some(here.saturating_sub(since)),
        Some(here) => {
            let late = since.saturating_sub(here);
            let rest = late.checked_rem(stream.period).unwrap_or(0);
            Some(stream.period.saturating_sub(rest))
        }
    };
    Stream { offset, ..*stream }
}

/// Adds the line of a stream, with a deadline where it has one.
fn put_timed(table: &mut Vec<u8>, stream: &Stream, deadline: Option<u128>) -> Result<(), PlanFault>
    ensures { IfErr result (λ why. why ≡ Faults.Memory) }
{
    if put_stream(table, stream).is_err() {
        return Err(PlanFault::Memory);
    }
    let Some(deadline) = deadline else {
        return Ok(());
    };
    let _ = table.pop();
    let parts = [
        Part::Text(b" deadline "),
        Part::Number(deadline),
        Part::Text(b"ps\n"),
    ];
    match put_parts(table, &parts) {
        Ok(()) => Ok(()),
        Err(_) => Err(PlanFault::Memory),
    }
}

/// The table of the streams that come to a port by the schedules of these lines, with their deadlines there, or why there
/// is none.
pub(crate) fn table_at(
    alloc: Global,
    settings: &PlanSettings<'_>,
    network: &Network<Global>,
    lines: &[u8],
    port: usize,
    split: Split,
) -> Result<Result<Vec<u8>, Reason>, PlanFault>
    ensures { IfErr result (λ why. why ≡ Faults.Memory) }
{
    let Some((text, since)) = coming_to(alloc, settings, network, lines, port)? else {
        return Ok(Err(Reason::Cycle));
    };
    let streams = streams_of(alloc, text.as_slice())?;
    // (a plan counts from its base time)
    let before = u128::from(settings.base_time).saturating_mul(1000);
    let before = before.saturating_add(since);
    let mut table = Vec::new(alloc);
    for stream in streams.as_slice() {
        let deadline = deadline_at(network, port, split, stream, since);
        put_timed(&mut table, &without(stream, before), deadline)?;
    }
    Ok(Ok(table))
}
