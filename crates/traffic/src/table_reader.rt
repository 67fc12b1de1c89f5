//! Reads a table of streams, line by line: one reader for each job that has such a table.

ghost use Rattle.std.specs.Prelude.{◌≡◌, [], IfOk, IfSome, Ok, Err};
ghost use Rattle.script.specs.Alerts.{Watched};
ghost use Rattle.script.specs.declared.faults.BadLine.{BadLine};
ghost use Rattle.traffic.specs.Words.{Few, IsSaid, IsCount, IsTaken, IsUntaken, ReadsTable, TakesLine, alerts_judged, alerts_said, counted_in, frame_count, line_judged, script_left, table_alerts, table_by, words_of};

use crate::frame_count::FrameCount;
use crate::table::{Stream, read_stream_line};
use job::Fault;
use script::{BadLine, RunFault, ScriptFault, Watch};
use std::alloc::Allocator;
use std::io::Read;
use text::line_reader::LineReader;

/// Why a stream isn't taken.
#[derive(Clone, Copy, Debug, PartialEq, Eq)]
pub enum Untaken {
    /// Its line has this fault.
    Fault(ScriptFault),
    /// Out of memory.
    Memory,
}

/// Who takes the streams of a table, one after another, as it judges them.
pub trait StreamTaker {
    ghost use Rattle.std.specs.Prelude.{ℕ, List, Result};
    ghost use Rattle.script.specs.Alerts.{Alert};
    ghost use Rattle.script.specs.declared.faults.ScriptFault.{ScriptFault};
    ghost use Rattle.traffic.specs.declared.table.Stream.{Stream};

    ghost judge: { Self → Stream → Result Stream ScriptFault };

    ghost taken: { Self → List Stream };

    ghost tells: { ℕ → Stream → List Alert };

    /// Takes the stream that the line of this number says, and answers it as it is taken. Who watches may be called for
    /// it, where it has no fault.
    fn take<H: Watch>(
        &mut self,
        number: u32,
        stream: Stream,
        watch: &mut H,
    ) -> Result<Stream, Untaken>
        requires said { IsSaid stream }
        ensures judge { judge self.new ≡ judge self.old }
        ensures taken { IsTaken result (judge self.old stream) (taken self.old) (taken self.new) }
        ensures alerts { H.alerted
            (alerts_judged tells number (judge self.old stream)) watch.old watch.new };
}

/// Takes the stream that a line says, if it isn't skipped.
fn take_line<T: StreamTaker, H: Watch>(
    taker: &mut T,
    number: u32,
    line: &[u8],
    watch: &mut H,
) -> Result<Option<Stream>, Untaken>
    ensures judge { T.judge taker.new ≡ T.judge taker.old }
    ensures taken { TakesLine result (line_judged (T.judge taker.old) (words_of line.now))
        (T.taken taker.old) (T.taken taker.new) }
    ensures alerts { H.alerted
        (alerts_said T.tells number
        (line_judged (T.judge taker.old) (words_of line.now))) watch.old watch.new }
{
    match read_stream_line(line) {
        Ok(None) => Ok(None),
        Ok(Some(stream)) => match taker.take(number, stream, watch) {
            Ok(stream) => Ok(Some(stream)),
            Err(why) => Err(why),
        },
        Err(fault) => Err(Untaken::Fault(fault)),
    }
}

/// The fault of a line of this number whose stream isn't taken. Who watches is called for one that is malformed.
fn line_fault<H: Watch>(number: u32, line: &[u8], why: Untaken, watch: &mut H) -> RunFault
    ensures fault { IsUntaken number why result }
    ensures alerts { H.alerted [] watch.old watch.new }
{
    match why {
        Untaken::Fault(fault) => {
            watch.line_failed(line);
            RunFault::Input(BadLine::new(number, fault))
        }
        Untaken::Memory => RunFault::Memory,
    }
}

/// Reads the lines of a table that are to come, and has the streams that they say taken in their order; and counts their
/// frames. Who watches is called for a malformed line, which ends it.
pub fn read_table<T: StreamTaker, A: Allocator, R: Read + Drop, H: Watch>(
    lines: &mut LineReader<R, A>,
    taker: &mut T,
    watch: &mut H,
) -> Result<FrameCount, RunFault>
    ensures table { IfSome (script_left R.remaining lines.old)
        (λ script. ReadsTable result (table_by (T.judge taker.old) script) (T.taken taker.old)
        (T.taken taker.new)) }
    ensures counted { IfSome (script_left R.remaining lines.old) (λ script.
        IfOk result (λ counted. counted ≡ counted_in (T.judge taker.old) (Few 0) script)) }
    ensures alerts { IfSome (script_left R.remaining lines.old)
        (λ script. Watched H.alerted
        (table_alerts T.tells (T.judge taker.old) script) result watch.old watch.new) }
    ensures judge { T.judge taker.new ≡ T.judge taker.old }
    ensures few { T.taken taker.old ≡ []
        → IfOk result (λ counted. IsCount counted (frame_count (T.taken taker.new))) }
{
    let mut counted = FrameCount::Few(0);
    'lines: loop {
        let more = match lines.advance() {
            Ok(more) => more,
            Err(fault) => return Err(Fault::from(fault)),
        };
        if !more {
            break;
        }
        match take_line(taker, lines.line_number(), lines.line(), watch) {
            Ok(None) => {}
            Ok(Some(stream)) => counted = counted.with(lines.line_number(), stream.count),
            Err(why) => return Err(line_fault(lines.line_number(), lines.line(), why, watch)),
        }
    }
    Ok(counted)
}
