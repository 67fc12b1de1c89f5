//! A plan for each port of a network, one after another along the ways of its streams.

ghost use Rattle.std.specs.Prelude.{◌≡◌, IfErr};
ghost use Rattle.job.specs.declared.fault.Fault.TheVariants as Faults;
ghost use Rattle.plan.specs.Faults.{network_fault};
ghost use Rattle.plan.specs.Search.{IsGoodOr, IsGoodOrMemory};

mod budgets;
mod order;
mod tables;

use crate::faults::{PlanFault, network_fault};
use crate::judge::{Judged, verdict_along};
use crate::plans::{Found, Planned, plan_table};
use crate::reasons::Reason;
use crate::settings::PlanSettings;
use budgets::{SPLITS, Split};
use network::network_table::{Network, read_network};
use order::{Done, next_port};
use paths::settings_at;
use script::{Unwatched, Watch};
use std::alloc::{AllocError, Global};
use tables::table_at;
use text::line_reader::LineReader;
use text::words::Words;

/// Whether some of these words is `via`.
fn has_via(mut words: Words<'_>) -> bool {
    'words: while let Some(word) = words.next_word() {
        if word == b"via".as_slice() {
            return true;
        }
    }
    false
}

/// Whether a line has a word that no line of a table of streams has.
fn is_of_network(line: &[u8]) -> bool {
    let mut words = Words::new(line);
    match words.next_word() {
        Some(b"port" | b"link" | b"clocks") => true,
        Some(b"stream") => has_via(words),
        _ => false,
    }
}

/// Whether octets are those of a network: some line has a word that no line of a table of streams has.
pub(crate) fn is_network(alloc: Global, octets: &[u8]) -> Result<bool, PlanFault>
    ensures { IfErr result (λ why. why ≡ Faults.Memory) }
{
    let Ok(mut lines) = LineReader::new(&alloc, octets) else {
        return Err(PlanFault::Memory);
    };
    'lines: while let Ok(true) = lines.advance() {
        if is_of_network(lines.line()) {
            return Ok(true);
        }
    }
    Ok(false)
}

/// The schedules of some ports of a network.
#[derive(Drop)]
struct Lines {
    /// The lines.
    text: Vec<u8>,
    /// What each leaves to the classes without deadlines.
    note: Vec<u8>,
}

/// Adds the plan of a port of this name.
fn add_plan(lines: &mut Lines, name: &[u8], plan: &Found) -> Result<(), AllocError> {
    lines.text.extend_from_slice(plan.line.as_slice())?;
    lines.note.extend_from_slice(b"taprio_port: note: port ")?;
    lines.note.extend_from_slice(name)?;
    lines.note.extend_from_slice(b"\n")?;
    lines.note.extend_from_slice(plan.note.as_slice())
}

/// The name of a port, or the device that is given where it has none.
fn name_of<'a>(network: &'a Network<Global>, port: usize, device: &'a [u8]) -> &'a [u8] {
    match network.names.get(port) {
        Some(name) => name.as_slice(),
        None => device,
    }
}

/// Plans for a port, by what comes to it from the ports that have a schedule.
fn plan_port(
    alloc: Global,
    settings: &PlanSettings<'_>,
    network: &Network<Global>,
    lines: &[u8],
    port: usize,
    split: Split,
) -> Result<Planned, PlanFault>
    ensures { IfErr result (λ why. why ≡ Faults.Memory) }
{
    let table = match table_at(alloc, settings, network, lines, port, split)? {
        Ok(table) => table,
        Err(reason) => return Ok(Planned::Without(reason)),
    };
    let own = PlanSettings {
        port: settings_at(&settings.asked(), network, port).port,
        device: name_of(network, port, settings.device),
        ..*settings
    };
    match plan_table(alloc, &own, table.as_slice(), &mut Unwatched) {
        Ok(planned) => Ok(planned),
        Err(PlanFault::Memory) => Err(PlanFault::Memory),
        Err(_) => Ok(Planned::Without(Reason::Cycle)),
    }
}

/// Plans for all ports that streams cross, or says why there is none for one.
fn plan_each(
    alloc: Global,
    settings: &PlanSettings<'_>,
    network: &Network<Global>,
    split: Split,
) -> Result<Result<Lines, Reason>, PlanFault>
    ensures { IfErr result (λ why. why ≡ Faults.Memory) }
{
    let mut lines = Lines {
        text: Vec::new(alloc),
        note: Vec::new(alloc),
    };
    let mut done = Done::new(alloc);
    for _step in 0..network.names.len().max(1) {
        let Some(port) = next_port(network, &done) else {
            break;
        };
        match plan_port(alloc, settings, network, lines.text.as_slice(), port, split)? {
            Planned::Plan(plan) => {
                let name = name_of(network, port, settings.device);
                if add_plan(&mut lines, name, &plan).is_err() || done.add(port).is_err() {
                    return Err(PlanFault::Memory);
                }
            }
            Planned::Without(reason) => return Ok(Err(reason)),
        }
    }
    Ok(Ok(lines))
}

/// Judges the schedules of all ports: the plan, if a strict run of `paths` finds nothing.
fn plan_by_lines(
    alloc: Global,
    settings: &PlanSettings<'_>,
    octets: &[u8],
    lines: Lines,
) -> Result<Planned, PlanFault>
    ensures { IsGoodOrMemory settings.now.port octets.now result }
{
    let Lines { text, note } = lines;
    let mut answers = Vec::new(alloc);
    match verdict_along(alloc, settings.port, octets, text.as_slice(), &mut answers) {
        Judged::Met => Ok(Planned::Plan(Found {
            line: text,
            answers,
            note,
        })),
        Judged::Found(reason) => Ok(Planned::Without(reason)),
        Judged::Unjudged => Ok(Planned::Without(Reason::Cycle)),
        Judged::Memory => Err(PlanFault::Memory),
    }
}

/// Plans for a network of these octets, with deadlines that are divided so among the ports of a way.
fn plan_by_split(
    alloc: Global,
    settings: &PlanSettings<'_>,
    octets: &[u8],
    network: &Network<Global>,
    split: Split,
) -> Result<Planned, PlanFault>
    ensures { IsGoodOrMemory settings.now.port octets.now result }
{
    match plan_each(alloc, settings, network, split)? {
        Ok(lines) => plan_by_lines(alloc, settings, octets, lines),
        Err(reason) => Ok(Planned::Without(reason)),
    }
}

/// Plans for a network of these octets: by the first way to divide deadlines by which all are met.
fn plan_ports(
    alloc: Global,
    settings: &PlanSettings<'_>,
    octets: &[u8],
    network: &Network<Global>,
) -> Result<Planned, PlanFault>
    ensures { IsGoodOrMemory settings.now.port octets.now result }
{
    let mut why = None;
    for split in SPLITS {
        match plan_by_split(alloc, settings, octets, network, split)? {
            Planned::Plan(plan) => return Ok(Planned::Plan(plan)),
            Planned::Without(reason) => why = Some(why.unwrap_or(reason)),
        }
    }
    Ok(Planned::Without(why.unwrap_or(Reason::Cycle)))
}

/// Plans for a network of these octets.
pub(crate) fn plan_network<H: Watch>(
    alloc: Global,
    settings: &PlanSettings<'_>,
    octets: &[u8],
    watch: &mut H,
) -> Result<Planned, PlanFault>
    ensures { IsGoodOr settings.now.port octets.now result }
{
    let Ok(mut lines) = LineReader::new(&alloc, octets) else {
        return Err(PlanFault::Memory);
    };
    match read_network(&alloc, &mut lines, watch) {
        Ok(network) => plan_ports(alloc, settings, octets, &network),
        Err(fault) => Err(network_fault(fault)),
    }
}
