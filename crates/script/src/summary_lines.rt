//! What is written at the end of a run.

ghost use Rattle.std.specs.Prelude.{◌<◌, ◌≤◌};
ghost use Rattle.script.specs.Alerts.{Alerting, alerts_from};
ghost use Rattle.script.specs.Words.{counters_of, greatest_moment, Writes, end_lines, class_text, summary_lines, class_at};

use crate::answers::{RunningPort, put_all_left};
use crate::watch::Watch;
use port_text::answer_text::WriteFault;
use std::alloc::Allocator;
use std::io::Write;
use summary::Summary;
use wire_time::CLASSES;

/// Writes the line of a class, where it had frames.
fn put_class<A: Allocator, W: Write>(
    port: &RunningPort<A>,
    summary: &Summary<A>,
    class: u8,
    writer: &mut W,
) -> Result<(), WriteFault>
    requires { class < CLASSES }
    ensures { Writes result (W.contents writer.old) (W.contents writer.new)
        (class_text class (counters_of port.now.port class) (class_at summary.now.classes class)) }
{
    let counters = port.counters(class);
    summary.put_class(class, &counters, writer)
}

/// Writes the lines of the classes that had frames, and that of the wire up to a moment, in picoseconds.
fn put_summary<A: Allocator, W: Write>(
    port: &RunningPort<A>,
    summary: &Summary<A>,
    moment: u128,
    writer: &mut W,
) -> Result<(), WriteFault>
    requires { moment ≤ greatest_moment }
    ensures { Writes result (W.contents writer.old) (W.contents writer.new)
        (summary_lines (record port.now.port { now = moment }) summary.now) }
{
    for class in 0..CLASSES as u8 {
        put_class(port, summary, class, writer)?;
    }
    summary.put_wire(moment, writer)
}

/// Writes how many frames each class still has, where it has some, and then the summary, where one is wanted, up to a
/// moment, in picoseconds. Who watches is called for each class that still has frames.
pub fn put_end<A: Allocator, W: Write, H: Watch>(
    port: &RunningPort<A>,
    summary: &Option<Summary<A>>,
    moment: u128,
    writer: &mut W,
    watch: &mut H,
) -> Result<(), WriteFault>
    requires { moment ≤ greatest_moment }
    ensures text { Writes result (W.contents writer.old) (W.contents writer.new)
        (end_lines (record port.now.port { now = moment }) summary.now) }
    ensures alerts { Alerting H.alerted (alerts_from 8 0 port.now.port) result watch.old watch.new }
{
    match summary {
        None => put_all_left(port, writer, watch),
        Some(summary) => {
            put_all_left(port, writer, watch)?;
            put_summary(port, summary, moment, writer)
        }
    }
}
