//! A plan for a table of streams or a network in memory.

ghost use Rattle.std.specs.Prelude.{◌≡◌, Ok};
ghost use Rattle.in_memory.specs.Plans.{AnswersPlan, IsPlannedInto, refused_plan};
ghost use Rattle.in_memory.specs.Slices.{Answers, slices};
ghost use Rattle.in_memory.specs.Values.{settings_at};

use crate::jobs::{Ran, end_in_memory, out_of_memory, put_told, refuse_value};
use crate::values::{PortValues, settings_at};
use plan::{PlanSettings, PlanValue, bad_value, plan, say_plan_value};
use script::{Settings, Unwatched};
use std::alloc::Global;

/// What a plan is made for, beside the values of its port, as numbers that are still to be judged.
#[derive(Clone, Copy, Debug)]
pub struct PlanValues<'a> {
    /// The cycle in nanoseconds, 1 to 4,294,967,295, where it is given.
    pub cycle: Option<u64>,
    /// How many entries a schedule has at most, 1 to 256.
    pub entries: usize,
    /// How long each entry is at the least, in nanoseconds, 0 to 4,294,967,295.
    pub least: u64,
    /// The base time in nanoseconds, 0 to 2^63 - 1.
    pub base_time: u64,
    /// Whether classes without deadlines may use what the windows of higher ones leave.
    pub share: bool,
    /// The name of the device, 1 to 15 octets, where the table names no port.
    pub device: &'a [u8],
}

/// Ends a call with a bad value: nothing is answered.
fn refuse_plan(alloc: Global, value: PlanValue, output: &mut [u8], fault: &mut [u8]) -> Ran
    ensures { Answers (refused_plan value) result (slices output.old fault.old)
        (slices output.new fault.new) }
{
    let mut said = Vec::new(alloc);
    let ended = say_plan_value(&value, &mut said);
    if !ended.told {
        return out_of_memory();
    }
    put_told(ended.status, b"", said.as_slice(), output, fault)
}

/// Plans with these settings.
fn plan_with(
    alloc: Global,
    settings: &PlanSettings<'_>,
    table: &[u8],
    output: &mut [u8],
    fault: &mut [u8],
) -> Ran
    ensures { IsPlannedInto settings.now.port table.now result (slices output.old fault.old)
        (slices output.new fault.new) }
{
    let mut written = Vec::new(alloc);
    let mut reader = table;
    let run = plan(alloc, &mut reader, &mut written, settings, &mut Unwatched);
    end_in_memory(&alloc, run, written.as_slice(), output, fault)
}

/// Plans for a port.
fn plan_for_port(
    alloc: Global,
    port: Settings,
    asked: PlanValues<'_>,
    table: &[u8],
    output: &mut [u8],
    fault: &mut [u8],
) -> Ran
    ensures { AnswersPlan (Ok port) table.now result (slices output.old fault.old)
        (slices output.new fault.new) }
{
    let settings = PlanSettings {
        port,
        cycle: asked.cycle,
        entries: asked.entries,
        least: asked.least,
        device: asked.device,
        base_time: asked.base_time,
        share: asked.share,
        explain: false,
    };
    match bad_value(&settings) {
        None => plan_with(alloc, &settings, table, output, fault),
        Some(value) => refuse_plan(alloc, value, output, fault),
    }
}

/// Finds a schedule by which the streams of a table make their deadlines, or one for each port of a network: what
/// `plan::plan` writes comes into `output`, and the text of a fault into `fault`, as the program writes it on its standard
/// error. The moment to run to and the summary of the values change nothing, but a moment out of its limits is refused.
///
/// Status 1 where no schedule is found, and the output then says why; 2 where a value is out of its limits, 3 where a line
/// of the table or of the network has a fault, and nothing is written then.
pub fn plan_octets(
    alloc: Global,
    values: PortValues,
    asked: PlanValues<'_>,
    table: &[u8],
    output: &mut [u8],
    fault: &mut [u8],
) -> Ran
    ensures { AnswersPlan (settings_at values) table.now result (slices output.old fault.old)
        (slices output.new fault.new) }
{
    match settings_at(values) {
        Ok(port) => plan_for_port(alloc, port, asked, table, output, fault),
        Err(value) => refuse_value(&alloc, value, output, fault),
    }
}
