//! The plan of a table.

ghost use Rattle.std.specs.Prelude.{◌≡◌, IfErr, IfOk, IfSome, List, ℕ};
ghost use Rattle.plan.specs.PlanEnd.{IsPlanned};
ghost use Rattle.plan.specs.Search.{IsGood, IsGoodOr, IsGoodOrMemory};
ghost use Rattle.job.specs.declared.fault.Fault.TheVariants as Faults;
ghost use Rattle.script.specs.Setup.{Setup};

use crate::along::{is_network, plan_network};
use crate::classes::{Classes, classes_of, flows_of};
use crate::faults::{PlanFault, PlanInput, table_fault};
use crate::judge::{Judged, verdict_of};
use crate::line::put_schedule;
use crate::octets::read_octets;
use crate::reasons::{Reason, put_reason};
use crate::schedule_search::{
    Candidate, Flow, Limits, MAX_STRATEGIES, Why, find_schedule, is_needed, overloaded_class,
    strategy_of,
};
use crate::settings::PlanSettings;
use port_text::answer_text::{Part, put_parts};
use script::Watch;
use std::alloc::Global;
use std::io::{Read, Write};
use stream_bounds::PeriodicStreams;
use text::line_reader::LineReader;
use text::octet_writer::put;
use traffic::{Stream, read_table};
use wire_time::{lead, occupancy};

/// A plan: its lines, and what is answered about them.
#[derive(Drop)]
pub(crate) struct Found {
    /// The line of each port.
    pub line: Vec<u8>,
    /// What `bounds` or `paths` answers.
    pub answers: Vec<u8>,
    /// For how long classes without deadlines are open, as it is told.
    pub note: Vec<u8>,
}

/// What a search comes to.
#[derive(Drop)]
pub(crate) enum Planned {
    /// This plan.
    Plan(Found),
    /// None, for this reason.
    Without(Reason),
}

/// What is to be planned.
#[derive(Clone, Copy)]
struct Task<'a> {
    /// The octets of the table.
    table: &'a [u8],
    /// Its streams.
    streams: &'a [Stream],
    /// The streams as the search sees them.
    flows: &'a [Flow],
    /// The classes.
    classes: &'a Classes,
}

/// What a schedule may be.
fn limits_of(settings: &PlanSettings<'_>, classes: u8) -> Limits {
    let rate = settings.port.rate();
    let shortest = occupancy(rate, 60).saturating_add(999) / 1000;
    let shortest = shortest.min(u128::from(u64::MAX)) as u64;
    Limits {
        classes,
        cycle: settings.cycle,
        entries: settings.entries,
        least: settings.least.max(shortest),
        blocking: if settings.share {
            Some(lead(rate, settings.port.mtu()))
        } else {
            None
        },
    }
}

/// The line of a candidate.
fn line_of(
    alloc: Global,
    settings: &PlanSettings<'_>,
    classes: &Classes,
    candidate: &Candidate,
) -> Result<Vec<u8>, PlanFault>
    ensures { IfErr result (λ why. why ≡ Faults.Memory) }
{
    let mut line = Vec::new(alloc);
    let openings = candidate.openings.as_slice();
    match put_schedule(&mut line, settings, classes, candidate.cycle, openings) {
        Ok(()) => Ok(line),
        Err(_) => Err(PlanFault::Memory),
    }
}

/// The place of a stream of this first id that has a deadline, or one behind all.
fn place_of(streams: &[Stream], id: u64) -> usize {
    streams
        .iter()
        .take_while(|stream| stream.first_id != id || stream.deadline.is_none())
        .count()
}

/// Whether a reason comes of a stream further on in the table than another.
fn is_further(streams: &[Stream], reason: Reason, other: Reason) -> bool {
    match (reason, other) {
        (Reason::Deadline(id), Reason::Deadline(before)) => {
            place_of(streams, id) > place_of(streams, before)
        }
        _ => false,
    }
}

/// The reason that is told, of one that was found before and another.
fn told_of(streams: &[Stream], before: Option<Reason>, reason: Reason) -> Reason {
    match before {
        None => reason,
        Some(before) => {
            if is_further(streams, reason, before) {
                reason
            } else {
                before
            }
        }
    }
}

/// The schedules of all strategies that find one, and why the first of the others found none.
#[derive(Drop)]
struct Candidates {
    found: Vec<Candidate>,
    why: Option<Reason>,
}

/// The reason of a search without a schedule.
fn reason_of_why(streams: &[Stream], why: Why) -> Result<Reason, PlanFault>
    ensures { IfErr result (λ why. why ≡ Faults.Memory) }
{
    match why {
        Why::Flow(place) => match streams.get(place) {
            Some(stream) => Ok(Reason::Deadline(stream.first_id)),
            None => Ok(Reason::Cycle),
        },
        Why::Entries => Ok(Reason::Entries),
        Why::Cycle => Ok(Reason::Cycle),
        Why::Memory => Err(PlanFault::Memory),
    }
}

/// Of two reasons without a judged schedule the one that is told: a deadline says more than entries, and these more than
/// a cycle.
fn weight(reason: Reason) -> u8 {
    match reason {
        Reason::Cycle => 0,
        Reason::Entries => 1,
        _ => 2,
    }
}

/// The weightier of two reasons, and the first of two that weigh the same.
fn weightier(before: Option<Reason>, reason: Reason) -> Reason {
    match before {
        None => reason,
        Some(before) => {
            if weight(reason) > weight(before) {
                reason
            } else {
                before
            }
        }
    }
}

/// Looks for a schedule by each strategy.
fn candidates_of(alloc: Global, task: &Task<'_>, limits: &Limits) -> Result<Candidates, PlanFault>
    ensures { IfErr result (λ why. why ≡ Faults.Memory) }
{
    let mut found = Vec::new(alloc);
    let mut why = None;
    for number in 0..MAX_STRATEGIES {
        let strategy = strategy_of(number);
        if is_needed(task.flows, limits, number) {
            match find_schedule(alloc, task.flows, limits, &strategy) {
                Ok(candidate) => {
                    if found.push(candidate).is_err() {
                        return Err(PlanFault::Memory);
                    }
                }
                Err(none) => why = Some(weightier(why, reason_of_why(task.streams, none)?)),
            }
        }
    }
    Ok(Candidates { found, why })
}

/// By which candidates are tried: those that leave the most time open first, in hundredths, and of these those with few
/// entries.
fn order_of(candidate: &Candidate) -> (u64, usize) {
    let share = u128::from(candidate.open).saturating_mul(100);
    let cycle = u128::from(candidate.cycle).max(1);
    let share = (share / cycle).min(100) as u64;
    (100u64.saturating_sub(share), candidate.openings.len())
}

/// For how long a candidate leaves the line to the classes without deadlines.
fn note_of(alloc: Global, candidate: &Candidate) -> Result<Vec<u8>, PlanFault>
    ensures { IfErr result (λ why. why ≡ Faults.Memory) }
{
    let mut note = Vec::new(alloc);
    let parts = [
        Part::Text(b"taprio_port: note: open class 0 "),
        Part::Number(u128::from(candidate.open).saturating_mul(1000)),
        Part::Text(b" of "),
        Part::Number(u128::from(candidate.cycle).saturating_mul(1000)),
        Part::Text(b"\n"),
    ];
    match put_parts(&mut note, &parts) {
        Ok(()) => Ok(note),
        Err(_) => Err(PlanFault::Memory),
    }
}

/// Judges a candidate: the plan, if a strict run of `bounds` finds nothing.
fn plan_by(
    alloc: Global,
    settings: &PlanSettings<'_>,
    task: &Task<'_>,
    candidate: &Candidate,
) -> Result<Planned, PlanFault>
    ensures { IsGoodOrMemory settings.now.port task.now.table.now result }
{
    let line = line_of(alloc, settings, task.classes, candidate)?;
    let mut answers = Vec::new(alloc);
    match verdict_of(
        alloc,
        settings.port,
        task.table,
        line.as_slice(),
        &mut answers,
    ) {
        Judged::Met => Ok(Planned::Plan(Found {
            line,
            answers,
            note: note_of(alloc, candidate)?,
        })),
        Judged::Found(reason) => Ok(Planned::Without(reason)),
        Judged::Unjudged => Ok(Planned::Without(Reason::Cycle)),
        Judged::Memory => Err(PlanFault::Memory),
    }
}

/// The first candidate that is met.
fn first_met(
    alloc: Global,
    settings: &PlanSettings<'_>,
    task: &Task<'_>,
    candidates: &Candidates,
) -> Result<Planned, PlanFault>
    ensures { IsGoodOrMemory settings.now.port task.now.table.now result }
{
    let mut why = None;
    for candidate in candidates.found.as_slice() {
        match plan_by(alloc, settings, task, candidate)? {
            Planned::Plan(plan) => return Ok(Planned::Plan(plan)),
            Planned::Without(reason) => why = Some(told_of(task.streams, why, reason)),
        }
    }
    let why = why.or(candidates.why).unwrap_or(Reason::Cycle);
    Ok(Planned::Without(why))
}

/// Plans for streams that are as the search sees them.
fn plan_flows(
    alloc: Global,
    settings: &PlanSettings<'_>,
    task: &Task<'_>,
) -> Result<Planned, PlanFault>
    ensures { IsGoodOrMemory settings.now.port task.now.table.now result }
{
    if let Some(class) = overloaded_class(task.flows) {
        return Ok(Planned::Without(Reason::Overloaded(class)));
    }
    let mut candidates = candidates_of(alloc, task, &limits_of(settings, task.classes.count))?;
    if candidates.found.sort_by_key(|one| order_of(one)).is_err() {
        return Err(PlanFault::Memory);
    }
    first_met(alloc, settings, task, &candidates)
}

/// Plans for the streams of a table of these octets.
fn plan_streams(
    alloc: Global,
    settings: &PlanSettings<'_>,
    table: &[u8],
    streams: &[Stream],
) -> Result<Planned, PlanFault>
    ensures { IsGoodOrMemory settings.now.port table.now result }
{
    let classes = match classes_of(streams) {
        Ok(classes) => classes,
        Err(reason) => return Ok(Planned::Without(reason)),
    };
    let Ok(flows) = flows_of(alloc, streams, &classes, settings.port.rate()) else {
        return Err(PlanFault::Memory);
    };
    let task = Task {
        table,
        streams,
        flows: flows.as_slice(),
        classes: &classes,
    };
    plan_flows(alloc, settings, &task)
}

/// Plans for a table of these octets.
pub(crate) fn plan_table<H: Watch>(
    alloc: Global,
    settings: &PlanSettings<'_>,
    table: &[u8],
    watch: &mut H,
) -> Result<Planned, PlanFault>
    ensures { IsGoodOr settings.now.port table.now result }
{
    let mut lines = match LineReader::new(&alloc, table) {
        Ok(lines) => lines,
        Err(_) => return Err(PlanFault::Memory),
    };
    let mut streams = PeriodicStreams::new(alloc);
    match read_table(&mut lines, &mut streams, watch) {
        Ok(_) => plan_streams(alloc, settings, table, streams.as_slice()),
        Err(fault) => Err(table_fault(fault)),
    }
}

/// Plans for a table or a network of these octets.
fn plan_octets<H: Watch>(
    alloc: Global,
    settings: &PlanSettings<'_>,
    octets: &[u8],
    watch: &mut H,
) -> Result<Planned, PlanFault>
    ensures { IsGoodOr settings.now.port octets.now result }
{
    match is_network(alloc, octets) {
        Ok(true) => plan_network(alloc, settings, octets, watch),
        Ok(false) => plan_table(alloc, settings, octets, watch),
        Err(_) => Err(PlanFault::Memory),
    }
}

/// Reads a table or a network, and plans for it.
pub(crate) fn plan_for<R: Read, H: Watch>(
    alloc: Global,
    table: &mut R,
    settings: &PlanSettings<'_>,
    watch: &mut H,
) -> Result<Planned, PlanFault>
    ensures { IfSome (R.remaining table.old) (λ octets. IsGoodOr settings.now.port octets result) }
{
    let octets = read_octets(alloc, table)?;
    plan_octets(alloc, settings, octets.as_slice(), watch)
}

/// Writes what a search came to.
pub(crate) fn put_planned<W: Write>(writer: &mut W, planned: &Planned) -> Result<(), PlanFault>
    ensures { (port : Setup) (table : List ℕ) → IsGood port table planned.now
        → IsPlanned port table result (W.contents writer.old) (W.contents writer.new) }
{
    match planned {
        Planned::Plan(plan) => match put(writer, plan.line.as_slice()) {
            Ok(()) => Ok(()),
            Err(_) => Err(PlanFault::Write),
        },
        Planned::Without(reason) => match put_reason(writer, *reason) {
            Ok(()) => Err(PlanFault::Input(PlanInput::Without(*reason))),
            Err(_) => Err(PlanFault::Write),
        },
    }
}

/// Reads a table of streams, and writes the line of a schedule by which all deadlines are met and nothing else is found
/// by a strict run of `bounds`; or else `none`, with a reason, which is then the fault.
pub fn plan<R: Read, W: Write, H: Watch>(
    alloc: Global,
    table: &mut R,
    writer: &mut W,
    settings: &PlanSettings<'_>,
    watch: &mut H,
) -> Result<(), PlanFault>
    ensures { IfSome (R.remaining table.old) (λ octets.
        IsPlanned settings.now.port octets result (W.contents writer.old) (W.contents writer.new)) }
{
    let planned = plan_for(alloc, table, settings, watch)?;
    put_planned(writer, &planned)
}
