//! Reads the lines of schedules.

ghost use Rattle.std.specs.Prelude.{◌≡◌, [], IfSome, List, Ok, Result, ℕ};
ghost use Rattle.abstract_port.specs.declared.Command.{Command};
ghost use Rattle.text.specs.LineReader.{script_left};
ghost use Rattle.network.specs.Reads.{Takes, seen};
ghost use Rattle.network.specs.Schedules.{schedules_from};
ghost use Rattle.port_text.specs.Reader.{IsReader};
ghost use Rattle.port_text.specs.declared.tc_reader.fault.TcFault.{TcFault};

use crate::network_table::Network;
use crate::port_schedules::faults::{SchedulesRunFault, lines_fault, numbered_fault};
use crate::port_schedules::schedules::{PortSchedule, put_line};
use script::Watch;
use std::alloc::Allocator;
use std::io::Read;
use text::line_reader::LineReader;

/// Reads the schedules of the ports of a network from the lines that are to come, and puts them behind those that are
/// kept, in their order: one command for each port, which names it as its device. A port of a network in which none has
/// a name has any. The first fault ends it: that of a line that is no command, deletes a schedule, or is for a port
/// that the network doesn't have, that no stream crosses, or that has a command already. Lines without words and
/// comments are skipped. A read that fails isn't tried again. Who watches is called for a line that is wrong, and for
/// each that is skipped.
pub fn read_schedules<A: Allocator, B: Allocator, C: Allocator, R: Read + Drop, H: Watch>(
    kept: &mut Vec<PortSchedule, A>,
    network: &Network<B>,
    lines: &mut LineReader<R, C>,
    watch: &mut H,
) -> Result<(), SchedulesRunFault>
    ensures { (read : List (List ℕ) → Result Command TcFault) → IsReader read →
        IfSome (script_left R.remaining lines.old)
        (λ script. Takes result
        (schedules_from read (seen network.now) kept.old.items script) kept.new.items) }
{
    'lines: loop {
        let more = match lines.advance() {
            Ok(more) => more,
            Err(fault) => return Err(lines_fault(fault)),
        };
        if !more {
            break;
        }
        let number = lines.line_number();
        match put_line(kept, network, number, lines.line()) {
            Ok(()) => {}
            Err(why) => {
                watch.line_failed(lines.line());
                return Err(numbered_fault(number, why));
            }
        }
    }
    Ok(())
}
