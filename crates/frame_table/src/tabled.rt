//! Takes what a script asks, and writes the rows of the frames whose fate it decides.

use crate::arrivals::Arrivals;
use crate::streams::Streams;
use crate::table_run::{take_event, take_tc};
use abstract_port::Event;
use job::Halt;
use port_text::tc_reader::CommandPlace;
use script::{EventTaker, RunningPort, Watch, rests};
use std::alloc::Allocator;
use std::io::Write;

/// A port, the frames that wait on it, and the streams that a frame may be of.
#[derive(Drop)]
pub(crate) struct Tabled<'a, A: Allocator, B: Allocator> {
    /// The port.
    pub port: RunningPort<A>,
    /// The frames that wait.
    pub arrivals: Arrivals<A>,
    /// The streams that a frame may be of, where the table has a column for them.
    pub streams: &'a Option<Streams<B>>,
}

impl<A: Allocator + Clone, B: Allocator, W: Write, H: Watch> EventTaker<W, H> for Tabled<'_, A, B> {
    ghost use Rattle.frame_table.specs.TakenRows.{StopsKept, TakesKept, kept_both, kept_later, kept_none, kept_untold};
    ghost use Rattle.frame_table.specs.Walk.{place};

    ghost took = { λ rs s w h t v k. TakesKept H.alerted s.streams.now t.streams.now rs
        (place s.port.port s.arrivals (W.contents w) h)
        (place t.port.port t.arrivals (W.contents v) k) };

    ghost cut = { λ rs halt s w h t v k. StopsKept H.alerted s.streams.now rs halt
        (place s.port.port s.arrivals (W.contents w) h)
        (place t.port.port t.arrivals (W.contents v) k) };

    fn take_event(&mut self, event: &Event<'_>, out: &mut W, watch: &mut H) -> Result<(), Halt> {
        take_event(
            &mut self.port,
            &mut self.arrivals,
            event,
            self.streams,
            out,
            watch,
        )
    }

    fn take_tc(
        &mut self,
        place: &mut CommandPlace,
        number: u32,
        line: &[u8],
        _out: &mut W,
        watch: &mut H,
    ) -> Result<(), Halt> {
        take_tc(place, &mut self.port, number, line, watch);
        Ok(())
    }

    fn rests(&mut self, event: &Event<'_>) -> bool {
        rests(&mut self.port, event)
    }

    fn waits(&mut self, out: &mut W) -> Result<(), Halt> {
        if out.flush().is_err() {
            return Err(Halt::Write);
        }
        Ok(())
    }

    ghost nothing = { λ s w h. kept_none H.alerted s.streams.now
        (place s.port.port s.arrivals (W.contents w) h) };

    ghost both = { λ xs ys s t u w v x h k l. kept_both H.alerted s.streams.now t.streams.now
        u.streams.now xs ys (place u.port.port u.arrivals (W.contents x) l) };

    ghost cut_later = { λ xs ys halt s t u w v x h k l. kept_later H.alerted s.streams.now
        t.streams.now xs ys halt (place u.port.port u.arrivals (W.contents x) l) };

    ghost untold = { λ s w h k. kept_untold H.alerted s.streams.now H.both
        (place s.port.port s.arrivals (W.contents w) h) k };
}
