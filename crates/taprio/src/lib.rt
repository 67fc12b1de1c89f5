//! The port as a library: what a caller needs to build a schedule, install it on a port, feed the port with events and
//! read its answers. Each type and function stands in the crate that it is taken from, with its contract there.
#![tactic(auto)]

pub use abstract_port::class_map::{ClassMap, MapFault, QueueFault, Queues};
pub use abstract_port::{
    Answer, Change, Command, Counters, Counts, Dropped, Event, Refused, Report, Start,
};
pub use gates::gate_list::{Entry, GateFault, GateList, PlanFault, Schedule};
pub use jumping::Jumping;
pub use port::{Port, PortFault, RunMemory};
pub use wire_time::{Frame, Rate, RateFault};
