//! What is handed in, as a port takes it.

ghost use Rattle.std.specs.Prelude.{◌≡◌};
ghost use Rattle.driven_port.specs.Taken.{all_entries, command_of, frame_of, limits_of, list_from, list_of, map_of_classes, moment_of, queues_of_classes};

use crate::values::{CFrame, CSchedule};
use abstract_port::class_map::{ClassMap, MapFault, QueueFault, Queues};
use abstract_port::{Change, Command};
use gates::gate_list::{Entry, GateFault, GateList};
use wire_time::{CLASSES, Frame};

/// Why a schedule is none.
#[derive(Clone, Copy, Debug, PartialEq, Eq)]
pub enum ScheduleFault {
    /// The classes of the priorities are refused.
    Map(MapFault),
    /// The queue ranges are refused.
    Ranges(QueueFault),
    /// The entries are refused.
    Gates(GateFault),
}

/// 2^64.
const TWO_TO_64: u128 = 0x1_0000_0000_0000_0000;

/// The moment of two halves, in picoseconds.
pub fn moment_of(low: u64, high: u64) -> u128
    ensures { result ≡ moment_of low high }
{
    u128::from(high) * TWO_TO_64 + u128::from(low)
}

/// A frame.
pub fn frame_of(frame: &CFrame) -> Frame
    ensures { result ≡ frame_of frame.now }
{
    Frame {
        id: frame.id,
        priority: frame.priority,
        len: frame.length,
        tagged: frame.tagged != 0,
    }
}

/// The map, if there is one.
fn map_of_classes(schedule: &CSchedule) -> Result<Option<ClassMap>, ScheduleFault>
    ensures { result ≡ map_of_classes schedule.now }
{
    if schedule.num_tc == 0 {
        return Ok(None);
    }
    match ClassMap::new(schedule.num_tc, &schedule.map) {
        Ok(map) => Ok(Some(map)),
        Err(fault) => Err(ScheduleFault::Map(fault)),
    }
}

/// The queue ranges, if there are some: those of the first classes.
fn queues_of_classes(schedule: &CSchedule) -> Result<Option<Queues>, ScheduleFault>
    ensures { result ≡ queues_of_classes schedule.now }
{
    if schedule.has_queues == 0 {
        return Ok(None);
    }
    let ranges = schedule.queues.map(|range| (range.count, range.offset));
    let used = usize::from(schedule.num_tc).min(CLASSES);
    match Queues::new(schedule.num_tc, &ranges[..used]) {
        Ok(queues) => Ok(Some(queues)),
        Err(fault) => Err(ScheduleFault::Ranges(fault)),
    }
}

/// The limits, if there are some.
fn limits_of(schedule: &CSchedule) -> Option<[u32; CLASSES]>
    ensures { result ≡ limits_of schedule.now }
{
    if schedule.has_max_sdu != 0 {
        Some(schedule.max_sdu)
    } else {
        None
    }
}

/// All entries, also those that do not count.
fn all_entries(schedule: &CSchedule) -> [Entry; 256]
    ensures { result ≡ all_entries schedule.now }
{
    schedule.entries.map(|entry| Entry {
        mask: entry.gates,
        interval: entry.interval,
    })
}

/// The gate control list of these entries.
fn list_from(entries: &[Entry]) -> Result<GateList, ScheduleFault>
    ensures { result ≡ list_from entries.now }
{
    match GateList::new(entries) {
        Ok(list) => Ok(list),
        Err(fault) => Err(ScheduleFault::Gates(fault)),
    }
}

/// The gate control list.
fn list_of(schedule: &CSchedule) -> Result<GateList, ScheduleFault>
    ensures { result ≡ list_of schedule.now }
{
    if schedule.length > 256 {
        return Err(ScheduleFault::Gates(GateFault::TooManyEntries));
    }
    let entries = all_entries(schedule);
    list_from(&entries[..schedule.length as usize])
}

/// The command that a schedule gives, or the first fault: of the map, the ranges, the entries.
pub fn command_of(schedule: &CSchedule) -> Result<Command, ScheduleFault>
    ensures { result ≡ command_of schedule.now }
{
    let map = map_of_classes(schedule)?;
    let queues = queues_of_classes(schedule)?;
    let list = list_of(schedule)?;
    Ok(Command::Replace(Change {
        map,
        queues,
        max_sdu: limits_of(schedule),
        list,
        base_ns: schedule.base_time,
        cycle_ns: schedule.cycle_time,
        extension_ns: schedule.extension,
    }))
}
