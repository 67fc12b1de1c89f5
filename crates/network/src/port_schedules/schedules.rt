//! The schedules of ports, one command after another.

ghost use Rattle.std.specs.Prelude.{◌≡◌, List, MatchOption, None, Result, Some, find, ℕ};
ghost use Rattle.abstract_port.specs.declared.Command.{Command};
ghost use Rattle.network.specs.Reads.{Takes, seen};
ghost use Rattle.pasted.specs.Device.{device_in};
ghost use Rattle.network.specs.Schedules.{change_put, command_put, has_port, line_put, line_said, port_named, schedule_line, schedule_line_of};
ghost use Rattle.port_text.specs.Reader.{IsReader};
ghost use Rattle.port_text.specs.declared.tc_reader.fault.TcFault.{TcFault};
ghost use Rattle.text.specs.Words.{words_of};

use crate::network_table::Network;
use crate::port_schedules::faults::SchedulesFault;
use abstract_port::{Change, Command};
use job::Fault;
use pasted::device_in;
use schedule_check::is_command;
use script::read_tc;
use std::alloc::Allocator;

/// The schedule of a port.
#[derive(Clone, Debug, Drop, PartialEq, Eq)]
pub struct PortSchedule {
    /// The port's number in the network.
    pub port: usize,
    /// The number of the command's line.
    pub line: u32,
    /// What the command changes.
    pub change: Change,
}

/// The line of a schedule, where it is this port's.
fn schedule_line_of(port: usize, schedule: &PortSchedule) -> Option<u32>
    ensures { result ≡ schedule_line_of port schedule.now }
{
    if schedule.port == port {
        Some(schedule.line)
    } else {
        None
    }
}

/// The number of the line of this port's schedule.
fn schedule_line(port: usize, schedules: &[PortSchedule]) -> Option<u32>
    ensures { result ≡ schedule_line port schedules.now }
{
    for schedule in schedules {
        if let Some(line) = schedule_line_of(port, schedule) {
            return Some(line);
        }
    }
    None
}

/// The schedule of the port of this number, if it has one.
pub fn schedule_at(port: usize, schedules: &[PortSchedule]) -> Option<&PortSchedule>
    ensures { MatchOption result (find (has_port port) schedules.now ≡ None)
        (λ schedule. find (has_port port) schedules.now ≡ Some schedule.now) }
{
    for schedule in schedules {
        if schedule.port == port {
            return Some(schedule);
        }
    }
    None
}

/// The number of the port that a line names as its device.
fn port_named<B: Allocator>(network: &Network<B>, line: &[u8]) -> Option<usize>
    ensures { result ≡ port_named (seen network.now) (device_in (words_of line.now)) }
{
    match device_in(line) {
        Some(name) => network.port_of(name),
        None => None,
    }
}

/// Puts the change that the line of this number asks of a port behind the others, where it is one that streams cross,
/// and has none yet.
fn put_change<A: Allocator, B: Allocator>(
    kept: &mut Vec<PortSchedule, A>,
    network: &Network<B>,
    number: u32,
    port: Option<usize>,
    change: Change,
) -> Result<(), Fault<SchedulesFault>>
    ensures { Takes result
        (change_put number kept.old.items (seen network.now) change port) kept.new.items }
{
    let Some(port) = port else {
        return Err(Fault::Input(SchedulesFault::UnknownPort));
    };
    if !network.is_crossed(port) {
        return Err(Fault::Input(SchedulesFault::Uncrossed));
    }
    if let Some(line) = schedule_line(port, kept.as_slice()) {
        return Err(Fault::Input(SchedulesFault::SecondSchedule(line)));
    }
    match kept.push(PortSchedule {
        port,
        line: number,
        change,
    }) {
        Ok(()) => Ok(()),
        Err(_) => Err(Fault::Memory),
    }
}

/// Puts what the line of this number asks, which begins with `tc`, behind the others.
fn put_command<A: Allocator, B: Allocator>(
    kept: &mut Vec<PortSchedule, A>,
    network: &Network<B>,
    number: u32,
    line: &[u8],
) -> Result<(), Fault<SchedulesFault>>
    ensures { (read : List (List ℕ) → Result Command TcFault) → IsReader read →
        Takes result
        (command_put number kept.old.items (seen network.now) (words_of line.now)
        (read (words_of line.now))) kept.new.items }
{
    let port = port_named(network, line);
    match read_tc(line) {
        Ok(Command::Replace(change)) => put_change(kept, network, number, port, change),
        Ok(Command::Delete) => Err(Fault::Input(SchedulesFault::Deletion)),
        Err(fault) => Err(Fault::Input(SchedulesFault::Malformed(fault))),
    }
}

/// Puts what the line of this number asks behind the others, if anything.
pub(crate) fn put_line<A: Allocator, B: Allocator>(
    kept: &mut Vec<PortSchedule, A>,
    network: &Network<B>,
    number: u32,
    line: &[u8],
) -> Result<(), Fault<SchedulesFault>>
    ensures { (read : List (List ℕ) → Result Command TcFault) → IsReader read →
        Takes result
        (line_put read number (seen network.now) line.now kept.old.items) kept.new.items }
{
    let asks = match is_command(line, false) {
        Ok(asks) => asks,
        Err(fault) => return Err(Fault::Input(SchedulesFault::Line(fault))),
    };
    if !asks {
        return Ok(());
    }
    put_command(kept, network, number, line)
}
