//! Takes what a script and a capture ask, by who takes events.

ghost use Rattle.std.specs.Prelude.{◌≡◌};
ghost use Rattle.replay.specs.ByEvents.{stopped};

use crate::faults::Stop;
use crate::kept_script::KeptLine;
use crate::taker::Taker;
use abstract_port::Event;
use capture::{Record, frame_of};
use job::Halt;
use port_text::tc_reader::CommandPlace;
use script::{EventTaker, Watch};

/// Who takes events takes what a script and a capture ask, too: each line as the event that it asks, and of a record a
/// clock event at its moment and the arrival of its frame, whose octets are of no use.
#[derive(Drop)]
pub struct ByEvents<T> {
    /// Who takes events.
    pub taker: T,
}

/// Why a run stops in which a call couldn't go on.
fn stopped(taken: Result<(), Halt>) -> Result<(), Stop>
    ensures { result ≡ stopped taken }
{
    match taken {
        Ok(()) => Ok(()),
        Err(Halt::Write) => Err(Stop::Write),
        Err(Halt::Memory) => Err(Stop::Memory),
    }
}

impl<W, H: Watch, T: EventTaker<W, H>> Taker<W, H> for ByEvents<T> {
    ghost use Rattle.std.specs.Prelude.{⊤};
    ghost use Rattle.replay.specs.ByEvents.{StopsIn, stops_later, stops_sooner, stops_unread};

    ghost ready = { λ s. ⊤ };

    ghost took = { λ es rs s w h t v k. T.took rs s.taker w h t.taker v k };

    ghost cut = { λ es rs stop s w h t v k. StopsIn T.took T.cut rs stop s.taker w h t.taker v k };

    fn take_line(
        &mut self,
        octets: &[u8],
        line: KeptLine,
        out: &mut W,
        watch: &mut H,
    ) -> Result<(), Stop> {
        match line {
            KeptLine::Clock(moment) => {
                stopped(self.taker.take_event(&Event::Clock(moment), out, watch))
            }
            KeptLine::Query => stopped(self.taker.take_event(&Event::Query, out, watch)),
            KeptLine::Count(class) => {
                stopped(self.taker.take_event(&Event::Count(class), out, watch))
            }
            KeptLine::Tc { start, end, number } => stopped(
                self.taker.take_tc(
                    &mut CommandPlace::new(),
                    number,
                    &octets[start..end],
                    out,
                    watch,
                ),
            ),
        }
    }

    fn take_record(
        &mut self,
        moment: u128,
        number: u32,
        record: &Record<'_>,
        out: &mut W,
        watch: &mut H,
    ) -> Result<(), Stop> {
        stopped(self.taker.take_event(&Event::Clock(moment), out, watch))?;
        let frame = frame_of(record, u64::from(number));
        stopped(self.taker.take_event(&Event::Arrive(frame), out, watch))
    }

    fn let_out(&mut self, out: &mut W, _watch: &mut H) -> Result<(), Stop> {
        stopped(self.taker.waits(out))
    }

    ghost nothing = { λ es s w h. T.nothing s.taker w h };

    ghost both = { λ es xs ys s t u w v x h k l. T.both xs ys s.taker t.taker u.taker
        w v x h k l };

    ghost cut_later = { λ es xs ys stop s t u w v x h k l. stops_later T.took T.cut T.both T.cut_later
        xs ys stop s.taker t.taker u.taker w v x h k l };

    ghost cut_sooner = { λ es xs ys stop s t w v h k. stops_sooner T.took T.cut xs ys stop
        s.taker t.taker w v h k };

    ghost cut_unread = { λ es xs ys s t w v h k. stops_unread T.took T.cut xs ys
        s.taker t.taker w v h k };

    ghost untold = { λ es s w h k. T.untold s.taker w h k };
}
