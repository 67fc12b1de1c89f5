//! The walk over a script: what each line asks is taken, line by line.

ghost use Rattle.std.specs.Prelude.{ℕ, List, Result, [], ◌∷◌, ◌≡◌, ◌<◌, IfSome, Ok, true, false};
ghost use Rattle.text.specs.LineReader.{current_line, current_number};
ghost use Rattle.script.specs.Walked.{IsSilent, StepsTaken, Takes, Walked};
ghost use Rattle.script.specs.Words.{Command, IsReader, TcFault, most_lines, reading_of, script_left};

use crate::answers::RunningPort;
use crate::event_taker::EventTaker;
use crate::faults::{BadLine, RunFault};
use crate::plain::{Expected, command_in_hand, front_line};
use crate::script_line::{Said, read_line};
use crate::watch::Watch;
use abstract_port::Event;
use job::Halt;
use port_text::tc_reader::CommandPlace;
use std::alloc::Allocator;
use std::io::Read;
use text::line_reader::LineReader;
use wire_time::MAX_MOMENT;

/// Takes a clock event where it is known at once that nothing starts before its moment, and answers whether. Nothing is
/// answered then; else nothing changes.
#[inline(always)]
pub fn rests<A: Allocator>(port: &mut RunningPort<A>, event: &Event<'_>) -> bool
    ensures rests { result ≡ true → IsSilent event.now port.old port.new }
    ensures kept { result ≡ false → port.new ≡ port.old }
{
    let Event::Clock(until) = event else {
        return false;
    };
    if *until < port.now() || *until > MAX_MOMENT {
        return false;
    }
    port.rest_until(*until)
}

/// Tells the taker that more input is waited for, where no whole line stands in hand.
#[inline(always)]
fn wait_for_line<A: Allocator, R: Read + Drop, W, H: Watch, T: EventTaker<W, H>>(
    lines: &LineReader<R, A>,
    taker: &mut T,
    out: &mut W,
) -> Result<(), Halt>
    ensures { (h : H) → Takes T.took T.cut [] result taker.old out.old h taker.new out.new h }
{
    if lines.has_line() {
        return Ok(());
    }
    taker.waits(out)
}

/// Goes on to the next line, if there is one. Where no whole line stands in hand, the taker is told first that more
/// input is waited for; if that fails, no line is taken.
fn next_line<A: Allocator, R: Read + Drop, W, H: Watch, T: EventTaker<W, H>>(
    lines: &mut LineReader<R, A>,
    taker: &mut T,
    out: &mut W,
) -> Result<bool, RunFault>
    ensures step { (h : H) → StepsTaken T.took T.cut (script_left R.remaining lines.old) result
        (current_number lines.new) (current_line lines.new)
        (script_left R.remaining lines.new) taker.old out.old h taker.new out.new h }
    ensures fewer { result ≡ Ok true → most_lines lines.new < most_lines lines.old }
{
    if let Err(halt) = wait_for_line(lines, taker, out) {
        return Err(RunFault::from(halt));
    }
    match lines.advance() {
        Ok(more) => Ok(more),
        Err(fault) => Err(RunFault::from(fault)),
    }
}

/// Takes the lines that are to come, each as soon as it is read. A malformed line ends the walk. Who watches is called
/// for it, and for each line that is skipped.
#[inline(never)]
pub fn walk<A: Allocator, R: Read + Drop, W, H: Watch, T: EventTaker<W, H>>(
    taker: &mut T,
    lines: &mut LineReader<R, A>,
    out: &mut W,
    watch: &mut H,
) -> Result<(), RunFault>
    ensures { (read : List (List ℕ) → Result Command TcFault) → IsReader read →
        IfSome (script_left R.remaining lines.old)
        (λ script. Walked T.took T.cut (reading_of read script) result
        taker.old out.old watch.old taker.new out.new watch.new) }
{
    let mut place = CommandPlace::new();
    let mut expected = Expected::default();
    'lines: loop {
        // Lines as most are written are taken where they stand in hand, and passed together.
        let most = lines.lines_left();
        let hand = lines.hand();
        let mut rest = hand;
        let mut left = most;
        'plain: while let Some((event, length)) = front_line(rest, left, &mut expected) {
            if !taker.rests(&event) {
                taker.take_event(&event, out, watch)?;
            }
            let (_, behind) = rest.split_at(length + 1);
            rest = behind;
            left -= 1;
        }
        let octets = hand.len() - rest.len();
        lines.go_past(octets, most - left);
        // A command that stands whole in hand is taken there, too.
        if let Some(line) = command_in_hand(lines) {
            let number = lines.next_number();
            taker.take_tc(&mut place, number, line, out, watch)?;
            let octets = line.len() + 1;
            lines.go_past(octets, 1);
            continue;
        }
        if !next_line(lines, taker, out)? {
            break;
        }
        let line = lines.line();
        match read_line(line) {
            Ok(None) => watch.line_skipped(lines.line_number(), line),
            Ok(Some(Said::Asked(event))) => taker.take_event(&event, out, watch)?,
            Ok(Some(Said::Tc)) => {
                let number = lines.line_number();
                taker.take_tc(&mut place, number, line, out, watch)?;
            }
            Err(fault) => {
                watch.line_failed(line);
                return Err(RunFault::Input(BadLine::new(lines.line_number(), fault)));
            }
        }
    }
    Ok(())
}
