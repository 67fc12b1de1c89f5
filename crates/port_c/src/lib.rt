//! A port that is driven call by call, for C, whose declarations are in `bindings/c/taprio.h`.
//!
//! A caller lends the memory that a port's place takes, and nothing but these calls reads or writes it.
#![tactic(auto)]

ghost use Rattle.std.specs.Prelude.{◌≡◌, ◌⊎◌, IfNone, IfSome, None, Ok, Option};
ghost use Rattle.std.specs.Borrow.{full_share, sem};
ghost use Rattle.std.specs.Ptr.{lies_at, room_at};
ghost use Rattle.abstract_port.specs.AbstractPort.{AbstractPort};
ghost use Rattle.abstract_port.specs.declared.Command.{Command};
ghost use Rattle.driven_port.specs.Opened.{open_refusal};
ghost use Rattle.driven_port.specs.Slots.{at_slot, counters_at, opened_at, open_reason, report_at};
ghost use Rattle.driven_port.specs.Taken.{command_of, frame_of, moment_of};
ghost use Rattle.driven_port.specs.Told.{answer, arrives, given, steps};
ghost use Rattle.driven_port.specs.contracts.slot.PortSlot.{the_row};
ghost use Rattle.driven_port.specs.declared.OpenFault.{OpenFault};

use driven_port::{CAnswer, CCounters, CFrame, CReport, CSchedule, PortSlot, moment_of};
use std::alloc::Global;

/// The octets of a port's place: `struct taprio_port` of C.
const PLACE: usize = 16;

const _: () = prove!(size_of::<PortSlot>() == PLACE);

/// Makes a port at a place, of a line rate in Mb/s, an mtu in octets, and room for so many frames a class.
#[unsafe(no_mangle)]
pub unsafe extern "C" fn taprio_port_new(
    alloc: Global,
    port: *mut u8,
    rate: u32,
    mtu: u32,
    room: u32,
    told: &mut CAnswer,
)
    requires* { sem 𝓛 (room_at the_row port) }
    ensures* port { sem 𝓛 (lies_at the_row full_share port
        (opened_at rate mtu room told.new.kind)) }
    ensures refused { IfSome (open_refusal rate mtu room)
        (λ fault. told.new ≡ record (answer 10) { reason = open_reason fault }) }
    ensures memory { IfNone (open_refusal rate mtu room)
        ((told.new ≡ answer 9)
        ⊎ (told.new ≡ record (answer 10) { reason = open_reason OpenFault.Memory })) }
{
    std::ptr::write(
        port as *mut PortSlot,
        PortSlot::new(alloc, rate, mtu, room, told),
    );
}

fn free(port: &mut PortSlot)
    ensures { port.new ≡ None }
{
    port.clear();
}

/// Frees a port. Its place is without one then: another call says so, and another `free` does nothing.
#[unsafe(no_mangle)]
pub unsafe extern "C" fn taprio_port_free(port: *mut u8)
    ghost held: { Option AbstractPort }
    requires* { sem 𝓛 (lies_at the_row full_share port held) }
    ensures* port { sem 𝓛 (lies_at the_row full_share port None) }
{
    free(&mut *(port as *mut PortSlot))
}

fn arrive(port: &mut PortSlot, frame: &CFrame, told: &mut CAnswer)
    ensures port { port.new ≡ (at_slot (arrives (frame_of frame.now)) port.old).1 }
    ensures told { told.new ≡ (at_slot (arrives (frame_of frame.now)) port.old).0 }
{
    *told = port.arrive(frame);
}

/// A frame arrives now.
#[unsafe(no_mangle)]
pub unsafe extern "C" fn taprio_port_arrive(port: *mut u8, frame: &CFrame, told: &mut CAnswer)
    ghost held: { Option AbstractPort }
    requires* { sem 𝓛 (lies_at the_row full_share port held) }
    ensures* port { sem 𝓛 (lies_at the_row full_share port
        (at_slot (arrives (frame_of frame.now)) held).1) }
    ensures told { told.new ≡ (at_slot (arrives (frame_of frame.now)) held).0 }
{
    arrive(&mut *(port as *mut PortSlot), frame, told)
}

fn install(port: &mut PortSlot, schedule: &CSchedule, told: &mut CAnswer)
    ensures port { port.new ≡ (at_slot (given (command_of schedule.now)) port.old).1 }
    ensures told { told.new ≡ (at_slot (given (command_of schedule.now)) port.old).0 }
{
    *told = port.install(schedule);
}

/// A schedule is given now.
#[unsafe(no_mangle)]
pub unsafe extern "C" fn taprio_port_install(
    port: *mut u8,
    schedule: &CSchedule,
    told: &mut CAnswer,
)
    ghost held: { Option AbstractPort }
    requires* { sem 𝓛 (lies_at the_row full_share port held) }
    ensures* port { sem 𝓛 (lies_at the_row full_share port
        (at_slot (given (command_of schedule.now)) held).1) }
    ensures told { told.new ≡ (at_slot (given (command_of schedule.now)) held).0 }
{
    install(&mut *(port as *mut PortSlot), schedule, told)
}

fn delete(port: &mut PortSlot, told: &mut CAnswer)
    ensures port { port.new ≡ (at_slot (given (Ok Command.Delete)) port.old).1 }
    ensures told { told.new ≡ (at_slot (given (Ok Command.Delete)) port.old).0 }
{
    *told = port.delete();
}

/// The schedule is to end: all gates open.
#[unsafe(no_mangle)]
pub unsafe extern "C" fn taprio_port_delete(port: *mut u8, told: &mut CAnswer)
    ghost held: { Option AbstractPort }
    requires* { sem 𝓛 (lies_at the_row full_share port held) }
    ensures* port { sem 𝓛 (lies_at the_row full_share port
        (at_slot (given (Ok Command.Delete)) held).1) }
    ensures told { told.new ≡ (at_slot (given (Ok Command.Delete)) held).0 }
{
    delete(&mut *(port as *mut PortSlot), told)
}

fn step(port: &mut PortSlot, until_low: u64, until_high: u64, told: &mut CAnswer)
    ensures port { port.new ≡ (at_slot (steps (moment_of until_low until_high)) port.old).1 }
    ensures told { told.new ≡ (at_slot (steps (moment_of until_low until_high)) port.old).0 }
{
    *told = port.step(moment_of(until_low, until_high));
}

/// The clock goes on to the first start before a moment, or to that moment where there is none.
#[unsafe(no_mangle)]
pub unsafe extern "C" fn taprio_port_step(
    port: *mut u8,
    until_low: u64,
    until_high: u64,
    told: &mut CAnswer,
)
    ghost held: { Option AbstractPort }
    requires* { sem 𝓛 (lies_at the_row full_share port held) }
    ensures* port { sem 𝓛 (lies_at the_row full_share port
        (at_slot (steps (moment_of until_low until_high)) held).1) }
    ensures told { told.new ≡ (at_slot (steps (moment_of until_low until_high)) held).0 }
{
    step(&mut *(port as *mut PortSlot), until_low, until_high, told)
}

fn report(port: &mut PortSlot, told: &mut CReport)
    ensures port { port.new ≡ port.old }
    ensures told { told.new ≡ report_at port.old }
{
    *told = port.report();
}

/// What a port shows now.
#[unsafe(no_mangle)]
pub unsafe extern "C" fn taprio_port_report(port: *mut u8, told: &mut CReport)
    ghost held: { Option AbstractPort }
    requires* { sem 𝓛 (lies_at the_row full_share port held) }
    ensures* port { sem 𝓛 (lies_at the_row full_share port held) }
    ensures told { told.new ≡ report_at held }
{
    report(&mut *(port as *mut PortSlot), told)
}

fn counters(port: &mut PortSlot, class: u32, told: &mut CCounters)
    ensures port { port.new ≡ port.old }
    ensures told { told.new ≡ counters_at class port.old }
{
    *told = port.counters(class);
}

/// What a class has counted; zeros where it is no class.
#[unsafe(no_mangle)]
pub unsafe extern "C" fn taprio_port_counters(port: *mut u8, class: u32, told: &mut CCounters)
    ghost held: { Option AbstractPort }
    requires* { sem 𝓛 (lies_at the_row full_share port held) }
    ensures* port { sem 𝓛 (lies_at the_row full_share port held) }
    ensures told { told.new ≡ counters_at class held }
{
    counters(&mut *(port as *mut PortSlot), class, told)
}
