//! Schedule commands in memory.

ghost use Rattle.std.specs.Prelude.{List, ℕ, Result};
ghost use Rattle.abstract_port.specs.declared.Command.{Command};
ghost use Rattle.in_memory.specs.Slices.{Answers, slices, told_by};
ghost use Rattle.in_memory.specs.Values.{rate_at};
ghost use Rattle.schedule_check.specs.CheckEnd.{usual};
ghost use Rattle.schedule_check.specs.Checked.{whole_check};
ghost use Rattle.schedule_check.specs.Windows.{IsTeller, Teller};
ghost use Rattle.script.specs.Texts.{script_telling};
ghost use Rattle.port_text.specs.Reader.{IsReader};
ghost use Rattle.port_text.specs.declared.tc_reader.fault.TcFault.{TcFault};

use crate::jobs::{Ran, end_in_memory, refuse_value};
use crate::values::rate_at;
use schedule_check::{CheckSettings, check};
use script::Unwatched;
use std::alloc::Allocator;

/// Checks schedule commands at a line rate in Mb/s: what is reported of each, as `schedule_check::check` writes it,
/// comes into `output`, with the classes that share windows where `shares` asks for them, and with what a schedule gives
/// each class where `windows` does; and the text of a fault into `fault`, as the program writes it on its standard
/// error.
///
/// Status 2 where the rate is none of the ten, 3 where a line has a fault, after what is reported of the lines before
/// it.
pub fn check_octets<A: Allocator>(
    alloc: &A,
    rate: u32,
    shares: bool,
    windows: bool,
    schedules: &[u8],
    output: &mut [u8],
    fault: &mut [u8],
) -> Ran
    ensures { (tell : Teller) → IsTeller tell → (read : List (List ℕ) → Result Command TcFault) →
        IsReader read →
        Answers
        (told_by script_telling
        (λ ps. whole_check tell (usual shares windows ps) read schedules.now) (rate_at rate)) result
        (slices output.old fault.old) (slices output.new fault.new) }
{
    let rate = match rate_at(rate) {
        Ok(rate) => rate,
        Err(value) => return refuse_value(alloc, value, output, fault),
    };
    let settings = CheckSettings {
        shares,
        ..CheckSettings::usual(rate, windows)
    };
    let mut written = Vec::new(alloc);
    let run = check(alloc, schedules, &mut written, settings, &mut Unwatched);
    end_in_memory(alloc, run, written.as_slice(), output, fault)
}
