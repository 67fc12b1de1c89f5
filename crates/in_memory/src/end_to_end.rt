//! The bounds of streams from end to end, from a network and schedule commands in memory.

ghost use Rattle.std.specs.Prelude.{List, ℕ, Ok, Result};
ghost use Rattle.abstract_port.specs.declared.Command.{Command};
ghost use Rattle.in_memory.specs.Bounds.{bounds_settings_at};
ghost use Rattle.in_memory.specs.Paths.{AnswersPaths};
ghost use Rattle.in_memory.specs.Slices.{slices};
ghost use Rattle.port_text.specs.Reader.{IsReader};
ghost use Rattle.port_text.specs.declared.tc_reader.fault.TcFault.{TcFault};

use crate::bounds::{BoundsAsked, bounds_settings_at, refuse_bounds};
use crate::jobs::{Ran, end_in_memory};
use crate::values::PortValues;
use paths::paths;
use script::Unwatched;
use std::alloc::Global;
use stream_bounds::BoundsSettings;

/// Answers with these settings.
fn paths_with(
    alloc: Global,
    settings: BoundsSettings,
    network: &[u8],
    schedules: &[u8],
    output: &mut [u8],
    fault: &mut [u8],
) -> Ran
    ensures { (read : List (List ℕ) → Result Command TcFault) → IsReader read →
        AnswersPaths read (Ok settings) network.now schedules.now
        result (slices output.old fault.old) (slices output.new fault.new) }
{
    let mut written = Vec::new(alloc);
    let run = paths(
        alloc,
        network,
        schedules,
        &mut written,
        &settings,
        None,
        &mut Unwatched,
    );
    end_in_memory(&alloc, run, written.as_slice(), output, fault)
}

/// Answers how long the frames of a network's streams take from end to end, for ever, under the schedules of its ports:
/// what `paths::paths` writes comes into `output`, and the text of a fault into `fault`, as the program writes it on its
/// standard error. `values` hold of each port of which the network says nothing else. `frames`, 1 to 1,000,000,000, is
/// how many frames of a class are looked at, at most. Of `asked` silent classes and leftovers count. A deadline that is
/// missed is no fault: the lines say it. The moment to run to and the summary of the values change nothing, but a moment
/// out of its limits is refused.
///
/// Status 2 where a value is out of its limits, 3 where a line of the network or of the schedules has a fault, or a port
/// refuses its schedule, and nothing is written then.
pub fn paths_octets(
    alloc: Global,
    values: PortValues,
    frames: u64,
    asked: BoundsAsked,
    network: &[u8],
    schedules: &[u8],
    output: &mut [u8],
    fault: &mut [u8],
) -> Ran
    ensures { (read : List (List ℕ) → Result Command TcFault) → IsReader read →
        AnswersPaths read (bounds_settings_at values frames asked) network.now schedules.now
        result (slices output.old fault.old) (slices output.new fault.new) }
{
    match bounds_settings_at(values, frames, asked) {
        Ok(settings) => paths_with(alloc, settings, network, schedules, output, fault),
        Err(value) => refuse_bounds(alloc, value, output, fault),
    }
}
