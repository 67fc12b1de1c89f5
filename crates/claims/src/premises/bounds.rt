//! Whether the claim about delay bounds speaks of a run, and what it says of an answer.

ghost use Rattle.std.specs.Prelude.{[], ◌∷◌, ◌≡◌, ◌<◌, ◌+◌, ◌↔◌, ℕ, All, IfErr, IfNone, IfOk, IfSome, IsTrue, MatchResult, None, Ok, Err, length, if◌then◌else◌};
ghost use Rattle.abstract_port.specs.AbstractPort.{AbstractPort, class_for, new_port, refusal, settled};
ghost use Rattle.abstract_port.specs.Answers.{answers_to};
ghost use Rattle.abstract_port.specs.Sound.{IsSoundPort};
ghost use Rattle.abstract_port.specs.declared.Event.TheVariants as Events;
ghost use Rattle.delay_bounds.specs.Claim.{IsFlow, IsWorth};
ghost use Rattle.claims.specs.FlowArrivals.{AreNext, IsDue, IsFlowIn, IsNextAt, IsOtherAt, IsRefused, IsRunOf, came_now, capped};
ghost use Rattle.abstract_port.specs.Separation.{IsKeptApart, is_class};
ghost use Rattle.abstract_port.specs.Traffic.{offered_as, offered_by};
ghost use Rattle.wire_time.specs.declared.Frame.{Frame};

use crate::premises::apart::{install_apart, is_kept_apart, take};
use abstract_port::{Command, Dropped, Event};
use delay_bounds::laws::answers;
use delay_bounds::{Bounded, Flow, Unbound, bound_flows};
use gates::gate_list::Schedule;
use gates::list_config::Gates;
use jumping::stepped::Stepped;
use port::{Port, PortFault};
use std::alloc::{Allocator, Global};
use wire_time::{CLASSES, Frame, Rate, occupancy};

/// Whether a class that is found is this one.
fn is_class(class: u8, found: Option<u8>) -> bool
    ensures { result ≡ is_class class found }
{
    match found {
        Some(other) => other == class,
        None => false,
    }
}

/// Whether a frame with this verdict is offered to the queue of a class, where it is of the class or not.
fn is_offered(class: u8, of_class: bool, verdict: Result<u8, Dropped>) -> bool
    ensures { (p : AbstractPort) (f : Frame) → is_class class (class_for p f.priority) ≡ of_class →
        offered_as class p f verdict ≡ (if result then came_now p f ∷ [] else []) }
{
    match verdict {
        Ok(other) => other == class,
        Err(Dropped::Full) => of_class,
        Err(Dropped::NoClass | Dropped::Runt | Dropped::TooLong | Dropped::OverSdu) => false,
    }
}

/// A frame arrives: whether the queue of the class is offered it.
fn arrive_offered<G: Gates, A: Allocator>(port: &mut Port<G, A>, class: u8, frame: Frame) -> bool
    ensures offered { offered_by class (Events.Arrive frame) port.old.port
        ≡ (if result then came_now port.old.port frame ∷ [] else []) }
    ensures port { port.new.port ≡ settled (answers_to (Events.Arrive frame) port.old.port).1 }
    ensures sound { IsSoundPort port.new.port }
{
    let of_class = is_class(class, port.class_for(frame.priority));
    is_offered(class, of_class, port.arrive(frame))
}

/// When the frame behind one of a flow comes, where that one comes at this moment, has this length, and was to come at
/// `next`.
fn behind(rate: Rate, change: u128, flow: Flow, next: u128, now: u128, len: u32) -> Option<u128>
    ensures due { IfSome result
        (λ later. IsDue rate change flow next now len × (later ≡ capped (next + flow.period))) }
    ensures other { IfNone result (¬ IsDue rate change flow next now len) }
{
    if now >= change && now - change == next && occupancy(rate, len) == flow.need {
        // A frame that would come past the greatest u128 never does, nor does one at it: no port's clock comes so far.
        Some(next.saturating_add(flow.period))
    } else {
        None
    }
}

/// Gives a command, and answers whether it is accepted.
fn is_accepted<G: Gates, A: Allocator>(port: &mut Port<G, A>, command: &Command) -> bool
    ensures accepted { IsTrue result ↔ (refusal port.old.port command.now ≡ None) }
    ensures port { port.new.port
        ≡ settled (answers_to (Events.Install command.entry) port.old.port).1 }
    ensures sound { IsSoundPort port.new.port }
{
    match port.install(command) {
        Ok(_) => true,
        Err(_) => false,
    }
}

/// Takes an event. The flow's next frame was to come at `next`, in picoseconds since the change moment; when it comes
/// now. None: a command is accepted, or the queue of the class is offered another frame.
fn take_next<G: Gates, A: Allocator>(
    port: &mut Port<G, A>,
    rate: Rate,
    class: u8,
    change: u128,
    flow: Flow,
    next: u128,
    event: &Event<'_>,
) -> Option<u128>
    ensures refused { IfSome result (λ later. IsRefused event.now port.old.port) }
    ensures next { IfSome result
        (λ later. IsNextAt rate class change flow event.now port.old.port next later) }
    ensures other { IfNone result (IsOtherAt rate class change flow event.now port.old.port next) }
    ensures port { port.new.port ≡ settled (answers_to event.now port.old.port).1 }
    ensures sound { IsSoundPort port.new.port }
{
    match event {
        Event::Arrive(frame) => {
            let now = port.now();
            if arrive_offered(port, class, *frame) {
                behind(rate, change, flow, next, now, frame.len)
            } else {
                Some(next)
            }
        }
        Event::Install(command) => {
            if is_accepted(port, command) {
                None
            } else {
                Some(next)
            }
        }
        Event::Clock(_) | Event::Query | Event::Count(_) => {
            take(port, event);
            Some(next)
        }
    }
}

/// Takes events: whether none is a command that is accepted, and the frames that the queue of the class is offered are
/// the first of the flow.
fn are_next<G: Gates, A: Allocator>(
    port: &mut Port<G, A>,
    rate: Rate,
    class: u8,
    change: u128,
    flow: Flow,
    events: &[Event<'_>],
) -> bool
    ensures { IsTrue result ↔ AreNext rate class change flow flow.offset events.now port.old.port }
{
    // For the prover: a call on a port says what holds of every port.
    let _now = port.now();
    let mut next = flow.offset;
    for event in events {
        match take_next(port, rate, class, change, flow, next, event) {
            Some(then) => next = then,
            None => return false,
        }
    }
    true
}

/// Gives a command and takes events: whether it is accepted, and no other is, and the frames of the class are the first
/// of the flow.
fn is_flow_in<G: Gates, A: Allocator>(
    port: &mut Port<G, A>,
    rate: Rate,
    class: u8,
    command: &Command,
    flow: Flow,
    events: &[Event<'_>],
) -> bool
    ensures { IsTrue result ↔ IsFlowIn rate class flow command.entry events.now port.old.port }
{
    match port.install(command) {
        Ok(change) => are_next(port, rate, class, change, flow, events),
        Err(_) => false,
    }
}

/// Gives a command and takes events: whether the law of separation speaks of the class and of all these.
fn is_apart_in<G: Gates, A: Allocator>(
    port: &mut Port<G, A>,
    class: u8,
    command: &Command,
    events: &[Event<'_>],
) -> bool
    requires { class < CLASSES }
    ensures { IsTrue result
        ↔ IsKeptApart class (Events.Install command.entry ∷ events.now) port.old.port }
{
    install_apart(port, class, command) && is_kept_apart(port, class, events)
}

/// Whether the claim speaks of the command and the events, on two new ports.
fn is_run_on<G: Gates, A: Allocator>(
    first: &mut Port<G, A>,
    second: &mut Port<G, A>,
    rate: Rate,
    class: u8,
    command: &Command,
    flow: Flow,
    events: &[Event<'_>],
) -> bool
    requires class { class < CLASSES }
    requires first { first.old.port ≡ new_port rate 1500 128 }
    requires second { second.old.port ≡ new_port rate 1500 128 }
    ensures { IsTrue result
        ↔ IsRunOf rate 1500 128 class command.now flow (Events.Install command.entry ∷ events.now) }
{
    // For the prover: a call on a port says what holds of every port.
    let _now = first.now();
    let apart = is_apart_in(first, class, command, events);
    let flows = is_flow_in(second, rate, class, command, flow, events);
    apart && flows
}

/// Whether the claim speaks of a run: a schedule, which is accepted, keeps the class apart and is the only command that
/// is, and events in which the frames of the class are the first of a flow. Commands that are refused may be among
/// them. Of a deletion the answer is no. The port is a new one of this rate with stepped gates, an mtu of 1500 octets
/// and room for 128 frames a class. It is refused only when out of memory.
pub fn is_run(
    alloc: Global,
    rate: Rate,
    class: u8,
    command: &Command,
    flow: Flow,
    events: &[Event<'_>],
) -> Result<bool, PortFault>
    requires { class < CLASSES }
    ensures premise { IfOk result
        (λ yes. IsTrue yes
        ↔ IsRunOf rate 1500 128 class command.now flow
        (Events.Install command.entry ∷ events.now)) }
    ensures refused { IfErr result (λ fault. fault ≡ PortFault.Memory) }
{
    let mut first = match Port::<Stepped>::new(alloc, rate, 1500, 128) {
        Ok(port) => port,
        Err(fault) => return Err(fault),
    };
    let mut second = match Port::<Stepped>::new(alloc, rate, 1500, 128) {
        Ok(port) => port,
        Err(fault) => return Err(fault),
    };
    Ok(is_run_on(&mut first, &mut second, rate, class, command, flow, events))
}

/// What is answered about flows is worth this in every run that the claim speaks of.
pub fn answered<A: Allocator>(
    alloc: &A,
    schedule: &Schedule,
    class: u8,
    room: u32,
    flows: &[Flow],
    limit: u64,
) -> Result<Bounded<A>, Unbound>
where
    A: Clone,
    requires class { class < CLASSES }
    requires some { 0 < length flows.now }
    requires flows { All IsFlow flows.now }
    ensures { MatchResult result
        (λ b. IsWorth schedule.now class room flows.now (Ok b.bounds.items))
        (λ why. IsWorth schedule.now class room flows.now (Err why)) }
{
    answers();
    // For the prover: a call on a schedule says what holds of every schedule.
    let _entries = schedule.len();
    match bound_flows(alloc, schedule, class, room, flows, limit) {
        Ok(bounded) => Ok(bounded),
        Err(why) => Err(why),
    }
}
