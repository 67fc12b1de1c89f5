//! A port that is driven call by call, with its values in structs of a fixed layout, as a caller in another language
//! has them.
//!
//! The definitions are specs/Taken.antt, what is handed in, and specs/Told.antt, what is answered. The contract of each
//! call compares it with the abstract port of `abstract_port`.
#![tactic(auto)]

ghost use Rattle.std.specs.Prelude.{◌≡◌, IfErr, IfNone, IfOk, IfSome, Ok, Err};
ghost use Rattle.abstract_port.specs.AbstractPort.{AbstractPort, new_port};
ghost use Rattle.driven_port.specs.Opened.{open_refusal};
ghost use Rattle.driven_port.specs.Taken.{command_of, frame_of};
ghost use Rattle.driven_port.specs.Told.{arrives, counters_told, given, report_told, steps};
ghost use Rattle.wire_time.specs.Wire.{rate_of};

mod slot;
mod taken;
mod told;
mod values;

use crate::taken::{command_of, frame_of};
use crate::told::{
    arrival_told, backward_told, command_told, counters_told, malformed_told, report_told,
    start_told,
};
use abstract_port::{Command, Counters};
use jumping::Jumping;
use port::{Port, is_mtu, is_room};
pub use slot::PortSlot;
use std::alloc::Global;
use std::marker::Model;
pub use taken::{ScheduleFault, moment_of};
pub use values::{CAnswer, CCounters, CEntry, CFrame, CRange, CReport, CSchedule};
use wire_time::{CLASSES, MAX_MOMENT, Rate};

/// Why there is no port.
#[derive(Clone, Copy, Debug, PartialEq, Eq)]
pub enum OpenFault {
    /// The rate is none of the ten.
    BadRate,
    /// The mtu is not 68 to 9216 octets.
    BadMtu,
    /// The room is not 1 to 4096 frames a class.
    BadRoom,
    /// Out of memory.
    Memory,
}

/// A transmit port with its gates. It begins at moment 0, with empty queues and all classes open.
#[derive(Drop)]
pub struct DrivenPort {
    port: Port<Jumping>,
}

/// A contract sees the abstract port.
impl Model for DrivenPort {
    ghost use Rattle.abstract_port.specs.AbstractPort.{AbstractPort};

    ghost Value = { AbstractPort };

    ghost view = { λ d. d.port.port };
}

/// Why there can be no port of these values, if there can be none: the first of the rate, the mtu, the room.
fn open_refusal(mbps: u32, mtu: u32, room: u32) -> Option<OpenFault>
    ensures { result ≡ open_refusal mbps mtu room }
{
    if Rate::from_mbps(mbps).is_err() {
        Some(OpenFault::BadRate)
    } else if !is_mtu(mtu) {
        Some(OpenFault::BadMtu)
    } else if !is_room(room) {
        Some(OpenFault::BadRoom)
    } else {
        None
    }
}

impl DrivenPort {
    /// A port of this line rate, in Mb/s, with an mtu in octets and room for so many frames a class. The room for all
    /// frames that ever wait is taken here.
    pub fn new(alloc: Global, mbps: u32, mtu: u32, room: u32) -> Result<DrivenPort, OpenFault>
        ensures ok { IfOk result (λ p. IfOk (rate_of mbps) (λ ps. p ≡ new_port ps mtu room)) }
        ensures refused { IfSome (open_refusal mbps mtu room) (λ fault. result ≡ Err fault) }
        ensures memory { IfNone (open_refusal mbps mtu room)
            (IfErr result (λ fault. fault ≡ OpenFault.Memory)) }
    {
        if let Some(fault) = open_refusal(mbps, mtu, room) {
            return Err(fault);
        }
        let Ok(rate) = Rate::from_mbps(mbps) else {
            return Err(OpenFault::BadRate);
        };
        match Port::new(alloc, rate, mtu, room) {
            Ok(port) => Ok(DrivenPort { port }),
            Err(_) => Err(OpenFault::Memory),
        }
    }

    /// A frame arrives now.
    pub fn arrive(&mut self, frame: &CFrame) -> CAnswer
        ensures answer { result ≡ (arrives (frame_of frame.now) self.old).0 }
        ensures port { self.new ≡ (arrives (frame_of frame.now) self.old).1 }
    {
        arrival_told(frame.id, self.port.arrive(frame_of(frame)))
    }

    /// A command is given now.
    fn give(&mut self, command: &Command) -> CAnswer
        ensures answer { result ≡ (given (Ok command.now) self.old).0 }
        ensures port { self.new ≡ (given (Ok command.now) self.old).1 }
    {
        command_told(self.port.install(command))
    }

    /// A schedule is given now.
    pub fn install(&mut self, schedule: &CSchedule) -> CAnswer
        ensures answer { result ≡ (given (command_of schedule.now) self.old).0 }
        ensures port { self.new ≡ (given (command_of schedule.now) self.old).1 }
    {
        match command_of(schedule) {
            Ok(command) => self.give(&command),
            Err(fault) => malformed_told(fault),
        }
    }

    /// The schedule is to end: all gates open.
    pub fn delete(&mut self) -> CAnswer
        ensures answer { result ≡ (given (Ok Command.Delete) self.old).0 }
        ensures port { self.new ≡ (given (Ok Command.Delete) self.old).1 }
    {
        self.give(&Command::Delete)
    }

    /// The clock goes on to the first start before `until`, a moment in picoseconds, or to `until` where there is none.
    pub fn step(&mut self, until: u128) -> CAnswer
        ensures answer { result ≡ (steps until self.old).0 }
        ensures port { self.new ≡ (steps until self.old).1 }
    {
        if until < self.port.now() || until > MAX_MOMENT {
            return backward_told();
        }
        start_told(self.port.step(until))
    }

    /// What the port shows now.
    pub fn report(&mut self) -> CReport
        ensures report { result ≡ report_told self.old }
        ensures same { self.new ≡ self.old }
    {
        report_told(self.port.report())
    }

    /// What a class has counted, and how many of its frames wait; zeros where it is no class.
    pub fn counters(&self, class: u32) -> CCounters
        ensures { result ≡ counters_told class self.now }
    {
        counters_told(if class < CLASSES as u32 {
            Some(self.port.counters(class as u8))
        } else {
            None
        })
    }
}
