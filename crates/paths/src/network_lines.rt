//! A network and the schedules of its ports, and what is answered about them.

ghost use Rattle.std.specs.Prelude.{◌≡◌, ◌≤◌, [], All, IfOk, IfSome, List, Result, length, ℕ};
ghost use Rattle.abstract_port.specs.declared.Command.{Command};
ghost use Rattle.text.specs.LineReader.{script_left};
ghost use Rattle.text.specs.Script.{script_of};
ghost use Rattle.network.specs.Reads.{seen};
ghost use Rattle.text.specs.Writes.{Writes};
ghost use Rattle.path_bounds.specs.Hops.{IsPort};
ghost use Rattle.paths.specs.Outcome.{AreJudgedOf, IsAnsweredRun, IsEnd, IsLinesRun, IsPortsRun, IsTargetRun, answer_lines, lines_for, target_in, told_if};
ghost use Rattle.paths.specs.declared.ports.TheConstants.{MOST_NETWORK_PORTS};
ghost use Rattle.script.specs.Given.{octets_of};
ghost use Rattle.port_text.specs.Reader.{IsReader};
ghost use Rattle.port_text.specs.declared.tc_reader.fault.TcFault.{TcFault};

use crate::faults::{PathsFault, PathsFinding, PathsInput, network_fault, schedules_fault};
use crate::findings::found_in;
use crate::next_lines::put_next;
use crate::order::port_order;
use crate::path_lines::put_paths;
use crate::port_lines::{put_cyclic, put_ports};
use crate::ports::{MOST_NETWORK_PORTS, clocks_of, ports_of};
use crate::ways::ways_of;
use network::network_table::{Name, Network, read_network};
use network::port_schedules::{PortSchedule, read_schedules, schedule_at};
use path_bounds::{Judgement, PathPort, judge_all, start_hops};
use port_text::answer_text::WriteFault;
use script::Watch;
use std::alloc::{AllocError, Allocator, Global};
use std::io::{Read, Write};
use stream_bounds::BoundsSettings;
use text::line_reader::LineReader;

/// What is known of all classes of these ports.
fn judged(
    alloc: Global,
    network: &Network<Global>,
    ports: &[PathPort],
) -> Result<Judgement, AllocError>
    requires ports { All IsPort ports.now }
    requires few { length ports.now ≤ MOST_NETWORK_PORTS }
    ensures { IfOk result (λ known. AreJudgedOf (seen network.now) ports.now known) }
{
    let ways = ways_of(alloc, network)?;
    let Ok(hops) = start_hops(alloc, ports, ways.as_slice()) else {
        return Err(AllocError);
    };
    match judge_all(alloc, ports, clocks_of(network.clocks), hops) {
        Ok(known) => Ok(known),
        Err(_) => Err(AllocError),
    }
}

/// Writes the lines of ports, in this order, the circles, and the lines of ways.
fn put_answers<W: Write>(
    writer: &mut W,
    names: &[Name],
    ports: &[PathPort],
    known: &Judgement,
    order: &[u32],
) -> Result<(), WriteFault>
    requires ports { All IsPort ports.now }
    requires few { length ports.now ≤ MOST_NETWORK_PORTS }
    ensures { Writes result (W.contents writer.old) (W.contents writer.new)
        (answer_lines names.now order.now ports.now known.now) }
{
    put_ports(writer, names, ports, known, order)?;
    put_cyclic(writer, names, known, 8 * ports.len() as u32)?;
    put_paths(writer, names, ports, known.verdicts(), known.hops())
}

/// Writes these, or the table of a port, where that is asked for.
fn put_lines<W: Write>(
    writer: &mut W,
    target: Option<usize>,
    names: &[Name],
    ports: &[PathPort],
    known: &Judgement,
    order: &[u32],
) -> Result<(), WriteFault>
    requires ports { All IsPort ports.now }
    requires few { length ports.now ≤ MOST_NETWORK_PORTS }
    ensures { Writes result (W.contents writer.old) (W.contents writer.new)
        (lines_for target names.now order.now ports.now known.now) }
{
    match target {
        Some(port) => put_next(writer, port.min(u32::MAX as usize) as u32, known.hops()),
        None => put_answers(writer, names, ports, known, order),
    }
}

/// How a run ends that has found this first.
fn end(strict: bool, found: Option<PathsFinding>) -> Result<(), PathsFault>
    ensures { IsEnd result (told_if strict found) }
{
    match found {
        Some(finding) if strict => Err(PathsFault::Input(PathsInput::Found(finding))),
        _ => Ok(()),
    }
}

/// Answers about a network with these schedules, whose ports are these.
fn answer_ports<W: Write>(
    alloc: Global,
    settings: &BoundsSettings,
    target: Option<usize>,
    network: &Network<Global>,
    kept: &[PortSchedule],
    ports: &[PathPort],
    writer: &mut W,
) -> Result<(), PathsFault>
    requires ports { All IsPort ports.now }
    requires few { length ports.now ≤ MOST_NETWORK_PORTS }
    ensures { IsAnsweredRun result settings.now target (seen network.now) kept.now ports.now
        (W.contents writer.old) (W.contents writer.new) }
{
    let Ok(known) = judged(alloc, network, ports) else {
        return Err(PathsFault::Memory);
    };
    let Ok(order) = port_order(alloc, known.order(), ports.len()) else {
        return Err(PathsFault::Memory);
    };
    let names = network.names.as_slice();
    match put_lines(writer, target, names, ports, &known, order.as_slice()) {
        Ok(()) => end(settings.strict, found_in(network, kept, ports, &known)),
        Err(_) => Err(PathsFault::Write),
    }
}

/// Answers about a network with these schedules, or where a port is asked for writes the table of the streams that come
/// to it. A schedule that a new port refuses is the fault, and so it is where there are more than 65,536 ports; nothing
/// is written then. A strict run answers the same; its fault is the first finding.
pub fn answer_schedules<W: Write>(
    alloc: Global,
    settings: &BoundsSettings,
    target: Option<usize>,
    network: &Network<Global>,
    kept: &[PortSchedule],
    writer: &mut W,
) -> Result<(), PathsFault>
    ensures { IsPortsRun result settings.now target (seen network.now) kept.now
        (W.contents writer.old) (W.contents writer.new) }
{
    match ports_of(alloc, settings, network, kept) {
        Ok(ports) => answer_ports(
            alloc,
            settings,
            target,
            network,
            kept,
            ports.as_slice(),
            writer,
        ),
        Err(fault) => Err(fault),
    }
}

/// The number of the port whose table is asked for: the outer None is a name that no port has.
fn target_in(network: &Network<Global>, next: Option<&str>) -> Option<Option<usize>>
    ensures { result ≡ target_in (seen network.now) (octets_of next.entry) }
{
    match next {
        None => Some(None),
        Some(name) => match network.port_of(name.as_bytes()) {
            Some(port) => Some(Some(port)),
            None => None,
        },
    }
}

/// Tells of each port that has no schedule, where hints are wanted.
fn tell_open<H: Watch>(names: &[Name], kept: &[PortSchedule], watch: &mut H) {
    if watch.wants_hints() {
        for (port, name) in names.iter().enumerate() {
            if schedule_at(port, kept).is_none() {
                watch.port_is_open(name.as_slice());
            }
        }
    }
}

/// Answers about a network with these schedules, once it is told which ports have none.
fn answer_told<W: Write, H: Watch>(
    alloc: Global,
    settings: &BoundsSettings,
    target: Option<usize>,
    network: &Network<Global>,
    kept: &[PortSchedule],
    writer: &mut W,
    watch: &mut H,
) -> Result<(), PathsFault>
    ensures { IsPortsRun result settings.now target (seen network.now) kept.now
        (W.contents writer.old) (W.contents writer.new) }
{
    tell_open(network.names.as_slice(), kept, watch);
    answer_schedules(alloc, settings, target, network, kept, writer)
}

/// Reads the schedules of a network that are to come, and answers about them.
fn answer_network<A: Allocator, S: Read + Drop, W: Write, H: Watch>(
    alloc: Global,
    settings: &BoundsSettings,
    next: Option<&str>,
    network: &Network<Global>,
    schedules: &mut LineReader<S, A>,
    writer: &mut W,
    watch: &mut H,
) -> Result<(), PathsFault>
    ensures { (read : List (List ℕ) → Result Command TcFault) → IsReader read
        → IfSome (script_left S.remaining schedules.old) (λ script.
        IsTargetRun result settings.now (octets_of next.entry) (seen network.now) read script
        (W.contents writer.old) (W.contents writer.new)) }
{
    let Some(target) = target_in(network, next) else {
        return Err(PathsFault::Input(PathsInput::Next));
    };
    let mut kept = Vec::new(alloc);
    match read_schedules(&mut kept, network, schedules, watch) {
        Ok(()) => answer_told(
            alloc,
            settings,
            target,
            network,
            kept.as_slice(),
            writer,
            watch,
        ),
        Err(fault) => Err(schedules_fault(fault)),
    }
}

/// Reads the lines of a network that are to come, and then the schedules, and answers about them.
fn answer_lines<A: Allocator, R: Read + Drop, S: Read + Drop, W: Write, H: Watch>(
    alloc: Global,
    settings: &BoundsSettings,
    next: Option<&str>,
    network: &mut LineReader<R, A>,
    schedules: &mut LineReader<S, A>,
    writer: &mut W,
    watch: &mut H,
) -> Result<(), PathsFault>
    ensures { (read : List (List ℕ) → Result Command TcFault) → IsReader read →
        IfSome (script_left R.remaining network.old)
        (λ lines. IfSome (script_left S.remaining schedules.old) (λ script.
        IsLinesRun result settings.now (octets_of next.entry) read lines script
        (W.contents writer.old) (W.contents writer.new))) }
{
    match read_network(&alloc, network, watch) {
        Ok(network) => answer_network(alloc, settings, next, &network, schedules, writer, watch),
        Err(fault) => Err(network_fault(fault)),
    }
}

/// Reads a network and then the schedules of its ports, one `tc` line for each, which names the port as its device; and
/// answers about the network: for each port its name, the classes that its schedule keeps apart and the verdict about
/// each class; for each stream how long its frames wait at each port of its way, and when they have passed the last one,
/// with whether its deadline is met. With `next`, the table of the streams that come to the port of this name is written
/// in place of that.
///
/// A malformed line of the network or of the schedules, or a schedule that a new port refuses, is the fault, and nothing
/// is written. A strict run answers the same; its fault is the first finding. A read or a write that fails, or takes
/// nothing, isn't tried again. Who watches is called for a line of either input that ends the run, and where hints are wanted for each
/// port without a schedule.
pub fn paths<R: Read + Drop, S: Read + Drop, W: Write, H: Watch>(
    alloc: Global,
    network: R,
    schedules: S,
    writer: &mut W,
    settings: &BoundsSettings,
    next: Option<&str>,
    watch: &mut H,
) -> Result<(), PathsFault>
    ensures { (read : List (List ℕ) → Result Command TcFault) → IsReader read →
        IfSome (R.remaining network)
        (λ ports. IfSome (S.remaining schedules) (λ lines.
        IsLinesRun result settings.now (octets_of next.entry) read (script_of ports)
        (script_of lines) (W.contents writer.old) (W.contents writer.new))) }
{
    let Ok(mut network) = LineReader::new(&alloc, network) else {
        return Err(PathsFault::Memory);
    };
    let Ok(mut schedules) = LineReader::new(&alloc, schedules) else {
        return Err(PathsFault::Memory);
    };
    answer_lines(
        alloc,
        settings,
        next,
        &mut network,
        &mut schedules,
        writer,
        watch,
    )
}
