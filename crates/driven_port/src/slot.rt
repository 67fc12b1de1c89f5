//! A place for a port in memory of a caller's, who sees its size and nothing else of it.

ghost use Rattle.std.specs.Prelude.{◌≡◌, ◌⊎◌, Err, IfErr, IfNone, IfOk, IfSome, None, Ok};
ghost use Rattle.abstract_port.specs.AbstractPort.{new_port};
ghost use Rattle.abstract_port.specs.declared.Command.{Command};
ghost use Rattle.driven_port.specs.Opened.{open_refusal};
ghost use Rattle.driven_port.specs.Slots.{at_slot, counters_at, opened_at, open_reason, report_at};
ghost use Rattle.driven_port.specs.Taken.{command_of, frame_of};
ghost use Rattle.driven_port.specs.Told.{answer, arrives, given, steps};
ghost use Rattle.wire_time.specs.Wire.{rate_of};

use crate::told::{answer, counters_told, no_report};
use crate::values::{CAnswer, CCounters, CFrame, CReport, CSchedule};
use crate::{DrivenPort, OpenFault};
use std::alloc::Global;
use std::marker::Model;

/// A place with a port or without one. A call without a port answers so, and changes nothing.
#[derive(Drop)]
pub struct PortSlot {
    port: Option<Box<DrivenPort>>,
}

/// A contract sees the port, if there is one.
impl Model for PortSlot {
    ghost use Rattle.std.specs.Prelude.{Option, option_map};
    ghost use Rattle.abstract_port.specs.AbstractPort.{AbstractPort};

    ghost Value = { Option AbstractPort };

    ghost view = { λ s. option_map (λ b. b.value) s.port };
}

/// The number of a reason why there is no port.
fn open_reason(fault: OpenFault) -> u32
    ensures { result ≡ open_reason fault }
{
    match fault {
        OpenFault::BadRate => 24,
        OpenFault::BadMtu => 25,
        OpenFault::BadRoom => 26,
        OpenFault::Memory => 27,
    }
}

/// A port on the heap.
fn boxed(alloc: Global, mbps: u32, mtu: u32, room: u32) -> Result<Box<DrivenPort>, OpenFault>
    ensures ok { IfOk result (λ b. IfOk (rate_of mbps) (λ ps. b.value ≡ new_port ps mtu room)) }
    ensures refused { IfSome (open_refusal mbps mtu room) (λ fault. result ≡ Err fault) }
    ensures memory { IfNone (open_refusal mbps mtu room)
        (IfErr result (λ fault. fault ≡ OpenFault.Memory)) }
{
    let port = DrivenPort::new(alloc, mbps, mtu, room)?;
    match Box::new(alloc, port) {
        Ok(port) => Ok(port),
        Err(_) => Err(OpenFault::Memory),
    }
}

impl PortSlot {
    /// A place with a new port, or without one; the answer says which.
    pub fn new(alloc: Global, mbps: u32, mtu: u32, room: u32, told: &mut CAnswer) -> PortSlot
        ensures port { result ≡ opened_at mbps mtu room told.new.kind }
        ensures refused { IfSome (open_refusal mbps mtu room)
            (λ fault. told.new ≡ record (answer 10) { reason = open_reason fault }) }
        ensures memory { IfNone (open_refusal mbps mtu room)
            ((told.new ≡ answer 9)
            ⊎ (told.new ≡ record (answer 10) { reason = open_reason OpenFault.Memory })) }
    {
        match boxed(alloc, mbps, mtu, room) {
            Ok(port) => {
                *told = answer(9);
                PortSlot { port: Some(port) }
            }
            Err(fault) => {
                *told = CAnswer {
                    reason: open_reason(fault),
                    ..answer(10)
                };
                PortSlot { port: None }
            }
        }
    }

    /// The place is without a port; the one that it had is freed.
    pub fn clear(&mut self)
        ensures { self.new ≡ None }
    {
        self.port = None;
    }

    /// A frame arrives now.
    pub fn arrive(&mut self, frame: &CFrame) -> CAnswer
        ensures answer { result ≡ (at_slot (arrives (frame_of frame.now)) self.old).0 }
        ensures port { self.new ≡ (at_slot (arrives (frame_of frame.now)) self.old).1 }
    {
        match &mut self.port {
            Some(port) => port.arrive(frame),
            None => answer(0),
        }
    }

    /// A schedule is given now.
    pub fn install(&mut self, schedule: &CSchedule) -> CAnswer
        ensures answer { result ≡ (at_slot (given (command_of schedule.now)) self.old).0 }
        ensures port { self.new ≡ (at_slot (given (command_of schedule.now)) self.old).1 }
    {
        match &mut self.port {
            Some(port) => port.install(schedule),
            None => answer(0),
        }
    }

    /// The schedule is to end: all gates open.
    pub fn delete(&mut self) -> CAnswer
        ensures answer { result ≡ (at_slot (given (Ok Command.Delete)) self.old).0 }
        ensures port { self.new ≡ (at_slot (given (Ok Command.Delete)) self.old).1 }
    {
        match &mut self.port {
            Some(port) => port.delete(),
            None => answer(0),
        }
    }

    /// The clock goes on to the first start before `until`, a moment in picoseconds, or to `until` where there is none.
    pub fn step(&mut self, until: u128) -> CAnswer
        ensures answer { result ≡ (at_slot (steps until) self.old).0 }
        ensures port { self.new ≡ (at_slot (steps until) self.old).1 }
    {
        match &mut self.port {
            Some(port) => port.step(until),
            None => answer(0),
        }
    }

    /// What the port shows now; zeros without a port.
    pub fn report(&mut self) -> CReport
        ensures report { result ≡ report_at self.old }
        ensures same { self.new ≡ self.old }
    {
        match &mut self.port {
            Some(port) => port.report(),
            None => no_report(),
        }
    }

    /// What a class has counted, and how many of its frames wait; zeros where it is no class, and without a port.
    pub fn counters(&self, class: u32) -> CCounters
        ensures { result ≡ counters_at class self.now }
    {
        match &self.port {
            Some(port) => port.counters(class),
            None => counters_told(None),
        }
    }
}

/// Its caller can move a value of this type to another thread.
fn is_send<T: Send>() {}

/// Nothing to run: that it is accepted shows that a place may go to another thread.
pub fn goes_to_threads() {
    is_send::<PortSlot>()
}
