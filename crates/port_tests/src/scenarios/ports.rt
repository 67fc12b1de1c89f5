//! Ports over the gates, and what is given to them.
use super::Given;
use abstract_port::class_map::ClassMap;
use abstract_port::{Change, Command};
use gates::gate_list::{Entry, GateList};
use gates::list_config::Gates;
use port::Port;
use std::alloc::Global;
use wire_time::{Frame, Rate};

/// A new port of this rate in Mb/s, with this mtu, and room for so many frames a class.
pub fn new_port<G: Gates + Drop>(alloc: Global, mbps: u32, mtu: u32, room: u32) -> Option<Port<G>> {
    match Rate::from_mbps(mbps) {
        Ok(rate) => Port::<G>::new(alloc, rate, mtu, room).ok(),
        Err(_) => None,
    }
}

/// A new port at 1 Gb/s with an mtu of 1500 octets.
pub fn gigabit_port<G: Gates + Drop>(alloc: Global, room: u32) -> Option<Port<G>> {
    new_port::<G>(alloc, 1000, 1500, room)
}

/// An untagged frame.
pub fn frame(id: u64, priority: u8, len: u32) -> Frame {
    Frame {
        id,
        priority,
        len,
        tagged: false,
    }
}

/// The command of a schedule, with a map of classes where one is given.
pub fn command(given: &Given<'_>, map: Option<ClassMap>) -> Option<Command> {
    let Ok(list) = GateList::new(given.entries) else {
        return None;
    };
    Some(Command::Replace(Change {
        map,
        queues: None,
        max_sdu: None,
        list,
        base_ns: given.base,
        cycle_ns: given.cycle,
        extension_ns: given.extension,
    }))
}

/// The command of a schedule whose cycle is the sum of its intervals, without an extension.
pub fn replace(entries: &[Entry], base: u64, map: Option<ClassMap>) -> Option<Command> {
    command(
        &Given {
            entries,
            base,
            cycle: 0,
            extension: 0,
        },
        map,
    )
}

/// The map of priorities 0 to 7 to classes 0 to 7.
pub fn plain_map() -> Option<ClassMap> {
    match ClassMap::new(8, &[0, 1, 2, 3, 4, 5, 6, 7]) {
        Ok(map) => Some(map),
        Err(_) => None,
    }
}
