//! A script in memory.

ghost use Rattle.std.specs.Prelude.{List, ℕ, Result};
ghost use Rattle.abstract_port.specs.declared.Command.{Command};
ghost use Rattle.in_memory.specs.Slices.{Answers, slices, told_by};
ghost use Rattle.in_memory.specs.Values.{settings_at};
ghost use Rattle.script.specs.Outcome.{outcome_of};
ghost use Rattle.script.specs.Texts.{script_telling};
ghost use Rattle.port_text.specs.Reader.{IsReader};
ghost use Rattle.port_text.specs.declared.tc_reader.fault.TcFault.{TcFault};

use crate::jobs::{Ran, end_in_memory, refuse_value};
use crate::values::{PortValues, settings_at};
use script::{Unwatched, run_script};
use std::alloc::Allocator;

/// Runs a script with these values: its answers, as `script::run_script` writes them, come into `output`, and the text
/// of a fault into `fault`, as the program writes it on its standard error.
///
/// Status 2 where a value is out of its limits, 3 where a line has a fault, after the answers of the lines before it.
pub fn run_octets<A: Allocator>(
    alloc: &A,
    values: PortValues,
    script: &[u8],
    output: &mut [u8],
    fault: &mut [u8],
) -> Ran
    ensures { (read : List (List ℕ) → Result Command TcFault) → IsReader read →
        Answers
        (told_by script_telling (λ settings. outcome_of read settings script.now)
        (settings_at values)) result (slices output.old fault.old) (slices output.new fault.new) }
{
    let settings = match settings_at(values) {
        Ok(settings) => settings,
        Err(value) => return refuse_value(alloc, value, output, fault),
    };
    let mut written = Vec::new(alloc);
    let run = run_script(alloc, script, &mut written, settings, &mut Unwatched);
    end_in_memory(alloc, run, written.as_slice(), output, fault)
}
