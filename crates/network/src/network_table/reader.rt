//! Reads the lines of a network.

ghost use Rattle.std.specs.Prelude.{IfSome};
ghost use Rattle.text.specs.LineReader.{script_left};
ghost use Rattle.network.specs.Network.{lines_taken, network_of};
ghost use Rattle.network.specs.Reads.{Reads, Takes, seen};

use crate::network_table::contents::Network;
use crate::network_table::ends::first_bad_stream;
use crate::network_table::faults::{NetworkRunFault, lines_fault, numbered_fault};
use crate::network_table::takes::take_line;
use job::Fault;
use script::Watch;
use std::alloc::Allocator;
use std::io::Read;
use text::line_reader::LineReader;

/// Takes what the lines that are to come say, up to the first that has a fault. Who watches is called for that one.
fn take_lines<A: Allocator, B: Allocator, R: Read + Drop, H: Watch>(
    network: &mut Network<A>,
    lines: &mut LineReader<R, B>,
    watch: &mut H,
) -> Result<(), NetworkRunFault>
    ensures { IfSome (script_left R.remaining lines.old) (λ script.
        Takes result (lines_taken (seen network.old) script) (seen network.new)) }
{
    'lines: loop {
        let more = match lines.advance() {
            Ok(more) => more,
            Err(fault) => return Err(lines_fault(fault)),
        };
        if !more {
            break;
        }
        let number = lines.line_number();
        match take_line(network, number, lines.line()) {
            Ok(()) => {}
            Err(why) => {
                watch.line_failed(lines.line());
                return Err(numbered_fault(number, why));
            }
        }
    }
    Ok(())
}

/// Reads the lines of a network that are to come: the network that they say, or its first fault, which is that of the
/// first line that is wrong by itself or beside those before it; or else of the first stream whose way can't be gone,
/// since it has none among several ports, or no line says a link between two ports of it. Lines without words and
/// comments are skipped. A read that fails isn't tried again. Who watches is called for a line that is wrong.
pub fn read_network<A: Allocator + Clone, B: Allocator, R: Read + Drop, H: Watch>(
    alloc: &A,
    lines: &mut LineReader<R, B>,
    watch: &mut H,
) -> Result<Network<A>, NetworkRunFault>
    ensures { IfSome (script_left R.remaining lines.old)
        (λ script. Reads result (network_of script)) }
{
    let Ok(mut network) = Network::new(alloc) else {
        return Err(Fault::Memory);
    };
    match take_lines(&mut network, lines, watch) {
        Ok(()) => {}
        Err(fault) => return Err(fault),
    }
    match first_bad_stream(&network) {
        Some(bad) => Err(Fault::Input(bad)),
        None => Ok(network),
    }
}
