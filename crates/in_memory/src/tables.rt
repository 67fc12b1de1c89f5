//! A table of streams in memory.

ghost use Rattle.in_memory.specs.Slices.{Answers, slices, told_by};
ghost use Rattle.in_memory.specs.Values.{from_at};
ghost use Rattle.traffic.specs.Faults.{streams_telling};
ghost use Rattle.traffic.specs.Outcome.{outcome_of};
ghost use Rattle.traffic.specs.Plan.{timed_from};

use crate::jobs::{Ran, end_in_memory, refuse_value};
use crate::values::from_at;
use script::Unwatched;
use std::alloc::Allocator;
use traffic::{Plan, Timing, write_streams};

/// Makes a script of a table of streams, with the lines of `script` among their frames, which may have no octets: what
/// `traffic::write_streams` writes comes into `output`, and the text of a fault into `fault`, as the program writes it
/// on its standard error. `from`, at most `MAX_MOMENT`, in picoseconds, is added to each offset. `timing` says when
/// frames come that may come at several moments.
///
/// Status 2 where that moment is over the greatest; 3 where a line of the table has a fault, and nothing is written
/// then, or where one of the script passes a limit, after what comes before it.
pub fn streams_octets<A: Allocator>(
    alloc: &A,
    timing: Timing,
    from: u128,
    table: &[u8],
    script: &[u8],
    output: &mut [u8],
    fault: &mut [u8],
) -> Ran
    ensures { Answers
        (told_by streams_telling
        (λ moment. outcome_of (timed_from timing moment) table.now script.now)
        (from_at from)) result (slices output.old fault.old) (slices output.new fault.new) }
{
    let from = match from_at(from) {
        Ok(from) => from,
        Err(value) => return refuse_value(alloc, value, output, fault),
    };
    let mut written = Vec::new(alloc);
    let plan = Plan { from, timing };
    let run = write_streams(alloc, table, script, &mut written, plan, &mut Unwatched);
    end_in_memory(alloc, run, written.as_slice(), output, fault)
}
