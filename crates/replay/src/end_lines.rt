//! When a run ends, and what is written then.

ghost use Rattle.std.specs.Prelude.{◌≡◌, ◌≤◌};
ghost use Rattle.script.specs.Responses.{end_lines};
ghost use Rattle.wire_time.specs.Moment.{greatest_moment};
ghost use Rattle.replay.specs.Words.{Writes, counted_to};

use crate::sender::Sending;
use capture::CAPTURE_END;
use port_text::answer_text::WriteFault;
use script::{Watch, put_end};
use std::alloc::Allocator;
use std::io::Write;

/// The moment up to which a summary counts, in picoseconds: that of the port now, where a moment to run to is given,
/// and else the end of the last frame.
fn counted_to(until: Option<u128>, last: u128, now: u128) -> u128
    requires { now ≤ greatest_moment }
    ensures moment { result ≡ counted_to until last now }
    ensures within { result ≤ greatest_moment }
{
    match until {
        None => last.min(CAPTURE_END),
        Some(_) => now,
    }
}

/// Writes how many frames each class still has, where it has some, and then the summary, where one is wanted, up to
/// the moment of the port where a moment to run to is given, and else to the end of the last frame. Who watches is
/// called for each class that still has frames.
pub(crate) fn put_end_of<A: Allocator, V: Write, P: Watch>(
    sending: &Sending<A>,
    until: Option<u128>,
    report: &mut V,
    watch: &mut P,
) -> Result<(), WriteFault>
    ensures { Writes result (V.contents report.old) (V.contents report.new)
        (end_lines
        (record sending.now.port.port {
          now = counted_to until sending.now.leaving.last
              sending.now.port.port.now;
        }) sending.now.summary) }
{
    let now = sending.port.now();
    let moment = counted_to(until, sending.leaving.last, now);
    put_end(&sending.port, &sending.summary, moment, report, watch)
}
