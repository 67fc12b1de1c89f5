//! A script, and what holds of its output.

ghost use Rattle.std.specs.Prelude.{◌≡◌, ◌++◌, ℕ, List, Result, Some, OnOk};
ghost use Rattle.abstract_port.specs.declared.Command.{Command};
ghost use Rattle.port_text.specs.Reader.{IsReader};
ghost use Rattle.port_text.specs.declared.tc_reader.fault.TcFault.{TcFault};
ghost use Rattle.job.specs.Outcome.{RunsOut};
ghost use Rattle.script.specs.Outcome.{IsFaithfulTo, outcome_of};

use script::{RunFault, Settings, Unwatched, run_script};
use std::alloc::Global;

/// Answers a script whose octets lie in memory. What is appended is the output of these octets: the lines of the
/// abstract port's answers, of which each start is by an open gate, no two are on the wire at once, and the counts are
/// those of the events. At a fault of the script too it is all of it, and the fault is the script's; at another fault
/// it is a prefix of it.
pub fn answered(
    alloc: Global,
    settings: Settings,
    input: &[u8],
    output: &mut Vec<u8>,
) -> Result<(), RunFault>
    ensures output { OnOk result
        ((read : List (List ℕ) → Result Command TcFault) → IsReader read →
        output.new.items ≡ output.old.items ++ (outcome_of read settings input.now).text) }
    ensures run { (read : List (List ℕ) → Result Command TcFault) → IsReader read →
        RunsOut result (Some output.old.items) (Some output.new.items)
        (outcome_of read settings input.now) }
    ensures faithful { (read : List (List ℕ) → Result Command TcFault) →
        IsFaithfulTo read settings input.now }
{
    run_script(alloc, input, output, settings, &mut Unwatched)
}
