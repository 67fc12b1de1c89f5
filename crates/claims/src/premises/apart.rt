//! Whether the law of separation speaks of a class and of events.

ghost use Rattle.std.specs.Prelude.{◌≡◌, ◌<◌, ◌↔◌, None, Some, IfErr, IfOk, IsTrue};
ghost use Rattle.gates.specs.Gate.{keeps_apart};
ghost use Rattle.abstract_port.specs.AbstractPort.{class_for, installs, new_port, refusal, settled};
ghost use Rattle.abstract_port.specs.Answers.{answers_to, port_after};
ghost use Rattle.abstract_port.specs.Sound.{IsSoundPort};
ghost use Rattle.abstract_port.specs.Separation.{IsApart, IsApartAt, IsKeptApart, IsScheduled, concerning, noted, only};

use abstract_port::separation::separation;
use abstract_port::{Command, Event};
use gates::gate_list::{GateList, is_open};
use gates::list_config::Gates;
use jumping::stepped::Stepped;
use port::{Port, PortFault};
use std::alloc::{Allocator, Global};
use wire_time::{CLASSES, Rate};

/// Whether every entry of a list that opens the class opens none of the other seven.
fn keeps_apart(list: &GateList, class: u8) -> bool
    requires { class < CLASSES }
    ensures { result ≡ keeps_apart list.now class }
{
    for entry in list.entries() {
        if is_open(entry.mask, class) && entry.mask != 1 << class {
            return false;
        }
    }
    true
}

/// Whether a command gives a schedule that keeps the class apart.
pub fn is_apart(command: &Command, class: u8) -> bool
    requires { class < CLASSES }
    ensures { IsTrue result ↔ IsApart class command.now }
{
    match command {
        Command::Replace(change) => keeps_apart(&change.list, class),
        Command::Delete => false,
    }
}

/// Whether a schedule is in force.
fn is_scheduled<G: Gates, A: Allocator>(port: &mut Port<G, A>) -> bool
    ensures scheduled { IsTrue result ↔ IsScheduled port.old.port }
    ensures same { port.new ≡ port.old }
{
    port.report().in_force.is_some()
}

/// Whether an arrival of this priority is as the law of separation asks: its class is another, or a schedule is in
/// force.
fn is_arrival_apart<G: Gates, A: Allocator>(port: &mut Port<G, A>, class: u8, priority: u8) -> bool
    ensures apart { IsTrue result
        ↔ (class_for port.old.port priority ≡ Some class → IsScheduled port.old.port) }
    ensures same { port.new ≡ port.old }
{
    port.class_for(priority) != Some(class) || is_scheduled(port)
}

/// Gives a command, and answers whether it is as the law of separation asks: it is refused, or keeps the class apart.
pub(crate) fn install_apart<G: Gates, A: Allocator>(
    port: &mut Port<G, A>,
    class: u8,
    command: &Command,
) -> bool
    requires { class < CLASSES }
    ensures apart { IsTrue result
        ↔ (refusal port.old.port command.now ≡ None → IsApart class command.now) }
    ensures port { port.new.port ≡ (installs port.old.port command.now).1 }
    ensures sound { IsSoundPort port.new.port }
{
    match port.install(command) {
        Ok(_) => is_apart(command, class),
        Err(_) => true,
    }
}

/// Takes an event, and leaves its answers.
pub fn take<G: Gates, A: Allocator>(port: &mut Port<G, A>, event: &Event<'_>)
    ensures port { port.new.port ≡ settled (answers_to event.now port.old.port).1 }
    ensures sound { IsSoundPort port.new.port }
{
    // For the prover: a call on a port says what holds of every port.
    let _now = port.now();
    let mut asked = Some(*event);
    while let Some(_) = port.next_answer(&mut asked) {}
}

/// Takes an event, and answers whether it is as the law of separation asks of the class.
fn take_apart<G: Gates, A: Allocator>(port: &mut Port<G, A>, class: u8, event: &Event<'_>) -> bool
    requires { class < CLASSES }
    ensures apart { IsTrue result ↔ IsApartAt class event.now port.old.port }
    ensures port { port.new.port ≡ settled (answers_to event.now port.old.port).1 }
    ensures sound { IsSoundPort port.new.port }
{
    match event {
        Event::Arrive(frame) => {
            let apart = is_arrival_apart(port, class, frame.priority);
            take(port, event);
            apart
        }
        Event::Install(command) => install_apart(port, class, command),
        Event::Clock(_) | Event::Query | Event::Count(_) => {
            take(port, event);
            true
        }
    }
}

/// Takes events, and answers whether each is as the law of separation asks of the class: no frame of the class comes
/// while no schedule is in force, and no command is accepted but one whose schedule keeps the class apart.
pub fn is_kept_apart<G: Gates, A: Allocator>(
    port: &mut Port<G, A>,
    class: u8,
    events: &[Event<'_>],
) -> bool
    requires { class < CLASSES }
    ensures apart { IsTrue result ↔ IsKeptApart class events.now port.old.port }
    ensures port { port.new.port ≡ settled (port_after events.now port.old.port) }
{
    // For the prover: a call on a port says what holds of every port.
    let _now = port.now();
    let mut apart = true;
    for event in events {
        let here = take_apart(port, class, event);
        apart = apart && here;
    }
    apart
}

/// Whether the law of separation speaks of the class and these events, on a new port of this rate with stepped gates,
/// an mtu of 1500 octets and room for 128 frames a class. It is refused only when out of memory.
pub fn separated(
    alloc: Global,
    rate: Rate,
    class: u8,
    events: &[Event<'_>],
) -> Result<bool, PortFault>
    requires { class < CLASSES }
    ensures premise { IfOk result
        (λ yes. IsTrue yes ↔ IsKeptApart class events.now (new_port rate 1500 128)) }
    ensures law { IfOk result
        (λ yes. IsTrue yes →
        concerning class (noted events.now (new_port rate 1500 128))
        ≡ concerning class
        (noted (only class events.now (new_port rate 1500 128)) (new_port rate 1500 128))) }
    ensures refused { IfErr result (λ fault. fault ≡ PortFault.Memory) }
{
    separation();
    // For the prover: the getter says within which limits a rate lies.
    let _ps = rate.ps_per_octet();
    match Port::<Stepped>::new(alloc, rate, 1500, 128) {
        Ok(mut port) => Ok(is_kept_apart(&mut port, class, events)),
        Err(fault) => Err(fault),
    }
}
