//! The delays of streams, from a table and schedule commands in memory.

ghost use Rattle.std.specs.Prelude.{◌≡◌, List, ℕ, Ok, Result};
ghost use Rattle.abstract_port.specs.declared.Command.{Command};
ghost use Rattle.in_memory.specs.Bounds.{AnswersBounds, classes_of, frames_at, bounds_settings_at, refused_bounds};
ghost use Rattle.in_memory.specs.Slices.{Answers, slices};
ghost use Rattle.port_text.specs.Reader.{IsReader};
ghost use Rattle.port_text.specs.declared.tc_reader.fault.TcFault.{TcFault};

use crate::jobs::{Ran, end_in_memory, put_told, refuse_value};
use crate::values::{PortValues, settings_at};
use gates::gate_list::is_open;
use script::Unwatched;
use std::alloc::Global;
use stream_bounds::{BoundsSettings, BoundsValue, MAX_FRAMES, bounds};
use wire_time::CLASSES;

/// The text of a number of frames that is out of its limits.
const BAD_FRAMES: &[u8] = b"taprio_port: bad value of --frames\n";

/// The text of silent classes that are none. No mask is such.
const BAD_SILENT: &[u8] = b"taprio_port: bad value of --silent\n";

/// A number of frames that may be looked at.
fn frames_at(frames: u64) -> Option<u64>
    ensures { result ≡ frames_at frames }
{
    if 1 <= frames && frames <= MAX_FRAMES {
        Some(frames)
    } else {
        None
    }
}

/// What is asked of bounds beside the values.
#[derive(Clone, Copy, Debug)]
pub struct BoundsAsked {
    /// Whether it is told which jitter the streams with deadlines may have.
    pub slack: bool,
    /// Whether it is told what the greatest wait of each stream is made of.
    pub why: bool,
    /// Whether frames may wait from before the schedule, of any class that isn't silent.
    pub leftovers: bool,
    /// The classes that send nothing, where they have no streams: bit N is class N.
    pub silent: u8,
}

/// The classes of a mask.
fn classes_of(mask: u8) -> [bool; CLASSES]
    ensures { result ≡ classes_of mask }
{
    [
        is_open(mask, 0),
        is_open(mask, 1),
        is_open(mask, 2),
        is_open(mask, 3),
        is_open(mask, 4),
        is_open(mask, 5),
        is_open(mask, 6),
        is_open(mask, 7),
    ]
}

/// The settings of these values and of so many frames, which are not strict, with what is asked beside them. The first
/// that is out of its limits is the fault.
pub(crate) fn bounds_settings_at(
    values: PortValues,
    frames: u64,
    asked: BoundsAsked,
) -> Result<BoundsSettings, BoundsValue>
    ensures { result ≡ bounds_settings_at values frames asked }
{
    let port = match settings_at(values) {
        Ok(port) => port,
        Err(value) => return Err(BoundsValue::Port(value)),
    };
    match frames_at(frames) {
        Some(frames) => Ok(BoundsSettings {
            port,
            map: None,
            frames,
            strict: false,
            slack: asked.slack,
            why: asked.why,
            silent: classes_of(asked.silent),
            leftovers: asked.leftovers,
        }),
        None => Err(BoundsValue::Frames),
    }
}

/// Ends a call with a bad value: nothing is answered.
pub(crate) fn refuse_bounds(
    alloc: Global,
    value: BoundsValue,
    output: &mut [u8],
    fault: &mut [u8],
) -> Ran
    ensures { Answers (refused_bounds value) result (slices output.old fault.old)
        (slices output.new fault.new) }
{
    match value {
        BoundsValue::Port(value) => refuse_value(&alloc, value, output, fault),
        BoundsValue::Frames => put_told(2, b"", BAD_FRAMES, output, fault),
        BoundsValue::Silent => put_told(2, b"", BAD_SILENT, output, fault),
    }
}

/// Answers with these settings.
fn bounds_with(
    alloc: Global,
    settings: BoundsSettings,
    table: &[u8],
    schedules: &[u8],
    output: &mut [u8],
    fault: &mut [u8],
) -> Ran
    ensures { (read : List (List ℕ) → Result Command TcFault) → IsReader read →
        AnswersBounds read (Ok settings) table.now schedules.now
        result (slices output.old fault.old) (slices output.new fault.new) }
{
    let mut written = Vec::new(alloc);
    let run = bounds(
        alloc,
        table,
        schedules,
        &mut written,
        settings,
        &mut Unwatched,
    );
    end_in_memory(&alloc, run, written.as_slice(), output, fault)
}

/// Answers how long the frames of a table's streams wait under each schedule, for ever, with these values: what
/// `stream_bounds::bounds` writes comes into `output`, and the text of a fault into `fault`, as the program writes it
/// on its standard error. `frames`, 1 to 1,000,000,000, is how many frames of a class are looked at, at most. By
/// `asked` more is told, or more or less is taken for granted. A
/// deadline that is missed is no fault: the lines say it. The moment to run to and the summary of the values change
/// nothing, but a moment out of its limits is refused.
///
/// Status 2 where a value is out of its limits, 3 where a line of the table has a fault, and nothing is written then,
/// or where one of the schedules has, after what is reported of the lines before it.
pub fn bounds_octets(
    alloc: Global,
    values: PortValues,
    frames: u64,
    asked: BoundsAsked,
    table: &[u8],
    schedules: &[u8],
    output: &mut [u8],
    fault: &mut [u8],
) -> Ran
    ensures { (read : List (List ℕ) → Result Command TcFault) → IsReader read →
        AnswersBounds read (bounds_settings_at values frames asked) table.now schedules.now
        result (slices output.old fault.old) (slices output.new fault.new) }
{
    match bounds_settings_at(values, frames, asked) {
        Ok(settings) => bounds_with(alloc, settings, table, schedules, output, fault),
        Err(value) => refuse_bounds(alloc, value, output, fault),
    }
}
