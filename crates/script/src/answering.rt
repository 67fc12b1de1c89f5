//! Takes what a script asks, and writes what the port answers.

ghost use Rattle.std.specs.Prelude.{◌≡◌};
ghost use Rattle.std.specs.Io.KnownBytes.{Keeps};
ghost use Rattle.script.specs.AnsweredAll.{GoesOn};
ghost use Rattle.script.specs.Words.{IsSoundPort};

use crate::answers::{RunningPort, put_answers, put_clock, put_tc};
use crate::event_taker::EventTaker;
use crate::script_walk::rests;
use crate::watch::Watch;
use abstract_port::Event;
use abstract_port::separation::settling;
use job::{Halt, halted};
use port_text::answer_text::NearNumbers;
use port_text::tc_reader::CommandPlace;
use std::alloc::Allocator;
use std::io::Write;
use summary::Summary;
use text::octet_writer::PutLine;

/// A port that runs: each of its answers is written as a line, and noted where a summary is wanted. At a fault a prefix
/// of the line is written.
#[derive(Drop)]
pub(crate) struct Answering<A: Allocator> {
    /// The port.
    pub port: RunningPort<A>,
    /// What is seen, where a summary is wanted.
    pub summary: Option<Summary<A>>,
    /// The digits of the moments of the last start.
    pub moments: NearNumbers,
}

impl<A: Allocator> Answering<A> {
    /// Nothing is written.
    pub fn new(port: RunningPort<A>, summary: Option<Summary<A>>) -> Answering<A>
        ensures port { result.port ≡ port }
        ensures summary { result.summary ≡ summary }
    {
        Answering {
            port,
            summary,
            moments: NearNumbers::new(),
        }
    }

    /// Goes on to the moment after the input, in picoseconds, if there is one: a clock event.
    pub fn go_on<W: PutLine>(&mut self, until: Option<u128>, out: &mut W) -> Result<(), Halt>
        ensures { GoesOn until result self.old.port.port self.new.port.port self.old.summary
            self.new.summary (W.contents out.old) (W.contents out.new) }
    {
        // For the prover: a call on a port says what holds of every port.
        let _now = self.port.now();
        match until {
            None => Ok(()),
            Some(moment) => halted(put_clock(
                &mut self.port,
                &mut self.summary,
                moment,
                &mut self.moments,
                out,
            )),
        }
    }
}

/// Lets out what was written.
#[inline(always)]
fn let_out<W: Write>(out: &mut W) -> Result<(), Halt>
    ensures { Keeps (W.contents out.old) (W.contents out.new) }
{
    if out.flush().is_err() {
        return Err(Halt::Write);
    }
    Ok(())
}

impl<A: Allocator, W: PutLine, H: Watch> EventTaker<W, H> for Answering<A> {
    ghost use Rattle.script.specs.AnsweredAll.{AnswersAll, AnswersFront, answers_both, answers_later, answers_none, answers_untold};

    ghost took = { λ rs s w h t v k. AnswersAll H.alerted rs s.port.port t.port.port
        s.summary t.summary (W.contents w) (W.contents v) h k };

    ghost cut = { λ rs halt s w h t v k. AnswersFront H.alerted rs s.port.port
        (W.contents w) (W.contents v) h k };

    #[inline(always)]
    fn take_event(&mut self, event: &Event<'_>, out: &mut W, watch: &mut H) -> Result<(), Halt> {
        settling();
        halted(put_answers(
            &mut self.moments,
            &mut self.port,
            &mut self.summary,
            event,
            out,
            watch,
        ))
    }

    #[inline(always)]
    fn take_tc(
        &mut self,
        place: &mut CommandPlace,
        number: u32,
        line: &[u8],
        out: &mut W,
        watch: &mut H,
    ) -> Result<(), Halt> {
        settling();
        halted(put_tc(
            place,
            &mut self.port,
            &mut self.summary,
            number,
            line,
            out,
            watch,
        ))
    }

    #[inline(always)]
    fn rests(&mut self, event: &Event<'_>) -> bool {
        settling();
        rests(&mut self.port, event)
    }

    #[inline(always)]
    fn waits(&mut self, out: &mut W) -> Result<(), Halt> {
        let_out(out)
    }

    ghost nothing = { λ s w h. answers_none H.alerted H.nothing s.port.port s.summary
        (W.contents w) h };

    ghost both = { λ xs ys s t u w v x h k l. answers_both H.alerted H.both xs ys
        s.port.port t.port.port u.port.port s.summary t.summary u.summary (W.contents w)
        (W.contents v) (W.contents x) h k l };

    ghost cut_later = { λ xs ys halt s t u w v x h k l. answers_later H.alerted H.both xs ys
        s.port.port t.port.port s.summary t.summary (W.contents w) (W.contents v)
        (W.contents x) h k l };

    ghost untold = { λ s w h k. answers_untold H.alerted s.port.port s.summary (W.contents w)
        h k };
}
