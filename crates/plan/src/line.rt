//! The line of a schedule, as `tc` and this program take it.

use crate::classes::Classes;
use crate::schedule_search::Opening;
use crate::settings::PlanSettings;
use port_text::answer_text::{Part, WriteFault, put_parts};
use std::io::Write;

/// Writes the device, the number of classes and the map.
fn put_map<W: Write>(writer: &mut W, device: &[u8], classes: &Classes) -> Result<(), WriteFault> {
    put_parts(
        writer,
        &[
            Part::Text(b"tc qdisc replace dev "),
            Part::Text(device),
            Part::Text(b" parent root handle 100 taprio num_tc "),
            Part::Number(u128::from(classes.count)),
            Part::Text(b" map"),
        ],
    )?;
    for class in &classes.map {
        put_parts(
            writer,
            &[Part::Text(b" "), Part::Number(u128::from(*class))],
        )?;
    }
    Ok(())
}

/// Writes one queue for each class.
fn put_queues<W: Write>(writer: &mut W, classes: &Classes) -> Result<(), WriteFault> {
    put_parts(writer, &[Part::Text(b" queues")])?;
    for queue in 0..classes.count {
        put_parts(
            writer,
            &[Part::Text(b" 1@"), Part::Number(u128::from(queue))],
        )?;
    }
    Ok(())
}

/// Writes the entries.
fn put_entries<W: Write>(writer: &mut W, openings: &[Opening]) -> Result<(), WriteFault> {
    for opening in openings {
        put_parts(
            writer,
            &[
                Part::Text(b" sched-entry S "),
                Part::Mask(opening.mask),
                Part::Text(b" "),
                Part::Number(u128::from(opening.interval)),
            ],
        )?;
    }
    Ok(())
}

/// Writes the line of a schedule.
pub(crate) fn put_schedule<W: Write>(
    writer: &mut W,
    settings: &PlanSettings<'_>,
    classes: &Classes,
    cycle: u64,
    openings: &[Opening],
) -> Result<(), WriteFault> {
    put_map(writer, settings.device, classes)?;
    put_queues(writer, classes)?;
    put_parts(
        writer,
        &[
            Part::Text(b" base-time "),
            Part::Number(u128::from(settings.base_time)),
            Part::Text(b" cycle-time "),
            Part::Number(u128::from(cycle)),
        ],
    )?;
    put_entries(writer, openings)?;
    put_parts(writer, &[Part::Text(b" clockid CLOCK_TAI\n")])
}
